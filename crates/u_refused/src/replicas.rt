//! Rows of two replicas that exchange deltas, save, start again and merge.
use crate::machines::{Held, LIMIT, held_by, run_out};
use crate::rows::{TRIES, Trouble, must};
use crate::standing::lies_in;
use std::alloc::Global;
use u_check::Job;
use u_delta::{Ask, Delta, Mark, Message, read_message, write_message};
use u_machine::{ListRefusal, Machine, Ran, Refusal, StepIn};
use u_replica::{Ending, MergeRefusal, Replica, RestoreError};

/// How often the replicas fire in their buckets and ask each other.
const ROUNDS: usize = 12;

/// How much the replica has of the peer's log: none where that is no other replica.
pub fn mark_of(replica: &Replica<'_>, peer: u8) -> Option<Mark> {
    if peer < 1 || peer > 8 || peer == replica.number() {
        return None;
    }
    Some(replica.mark(peer))
}

/// Where a row stands: a machine at the end of its run.
#[derive(Clone, Copy)]
struct Row<'a, 'b> {
    alloc: Global,
    end: &'a Machine<'b>,
}

impl Row<'_, '_> {
    /// Sees that the replica holds no less than before, and nothing that no run has.
    fn look(&self, replica: &Replica<'_>, before: Held) -> Result<(), Trouble> {
        let machine = replica.machine();
        must(held_by(machine).has_kept(before), "something is lost")?;
        must(
            lies_in(machine.history(), self.end.history())?,
            "an entry of no run is held",
        )
    }

    /// Fires in those buckets until nothing is ready there.
    fn fire_out(&self, replica: &mut Replica<'_>, buckets: u64) -> Result<(), Trouble> {
        for _ in 0..LIMIT {
            let before = held_by(replica.machine());
            match replica.fire_in(buckets, 0) {
                Ok(StepIn::Fired(_)) => {}
                Err(Refusal::NoMemory) => self.look(replica, before)?,
                fired => return must(fired.is_ok(), "it does not fire"),
            }
        }
        Ok(())
    }

    /// Hands the delta on, again while that is refused.
    fn receive(&self, replica: &mut Replica<'_>, delta: &Delta) -> Result<(), Trouble> {
        let mark = mark_of(replica, delta.sender);
        for _ in 0..TRIES {
            let before = held_by(replica.machine());
            match replica.receive(delta) {
                Err(ListRefusal::NoMemory) => {
                    self.look(replica, before)?;
                    must(mark == mark_of(replica, delta.sender), "a mark moved")?;
                }
                taken => return must(taken.is_ok(), "it is not taken"),
            }
        }
        must(false, "it is not taken though memory is there")
    }

    /// The message that the text is.
    fn read(&self, text: &[u8]) -> Result<Message, Trouble> {
        match read_message(self.alloc, text) {
            Ok(message) => Ok(message),
            Err(_) => Err(Trouble::Memory),
        }
    }

    /// The message as it comes from its text.
    fn sent(&self, message: &Message) -> Result<Message, Trouble> {
        let mut text = Vec::new(self.alloc);
        write_message(message, &mut text)?;
        self.read(&text)
    }

    /// What the replica answers to the ask.
    fn answered(&self, replica: &Replica<'_>, ask: &Ask) -> Result<Delta, Trouble> {
        for _ in 0..TRIES {
            if let Ok(delta) = replica.answer(ask) {
                return Ok(delta);
            }
        }
        Err(Trouble::Wrong("it does not answer though memory is there"))
    }

    /// Hands on the delta as it comes from its text.
    fn hand_on(&self, one: &mut Replica<'_>, delta: &Message) -> Result<(), Trouble> {
        match self.sent(delta)? {
            Message::Delta(delta) => self.receive(one, &delta),
            Message::Ask(_) => must(false, "the delta comes as an ask"),
        }
    }

    /// Lets the one replica have what it lacks of the other one's log.
    fn catch_up(&self, one: &mut Replica<'_>, other: &Replica<'_>) -> Result<(), Trouble> {
        let Some(mark) = mark_of(one, other.number()) else {
            return must(false, "both replicas have one number");
        };
        let ask = Ask {
            asker: one.number(),
            asked: other.number(),
            life: mark.life,
            count: mark.count,
        };
        let delta = Message::Delta(self.answered(other, &ask)?);
        self.hand_on(one, &delta)
    }

    /// Merges the other replica into the one, again while that is refused.
    fn merge(&self, one: &mut Replica<'_>, other: &Replica<'_>) -> Result<(), Trouble> {
        for _ in 0..TRIES {
            let before = held_by(one.machine());
            match one.merge(other) {
                Err(MergeRefusal::NoMemory) => self.look(one, before)?,
                merged => return must(merged.is_ok(), "it is not merged"),
            }
        }
        must(false, "it is not merged though memory is there")
    }

    /// Runs the replica to its end, again while that is refused.
    fn run_out(&self, replica: &mut Replica<'_>) -> Result<(), Trouble> {
        for _ in 0..TRIES {
            let before = held_by(replica.machine());
            match replica.run(LIMIT) {
                Err(Refusal::NoMemory) => self.look(replica, before)?,
                ran => return must(ran == Ok(Ran::Quiet), "it is not quiet"),
            }
        }
        must(false, "it does not run though memory is there")
    }

    /// Runs the replica to the end, which is that of the run, and writes its history.
    fn tell_end(&self, replica: &mut Replica<'_>, out: &mut Vec<u8>) -> Result<(), Trouble> {
        self.run_out(replica)?;
        let history = replica.machine().history();
        must(
            history.len() == self.end.history().len() && replica.machine().parked().len() == 0,
            "the end is not that of the run",
        )?;
        self.look(replica, held_by(replica.machine()))?;
        history.write_text(out)?;
        Ok(())
    }

    /// The replica that starts again from what was saved.
    fn restored(&self, bytes: &[u8]) -> Result<Replica<'_>, Trouble> {
        match Replica::restore(self.alloc, self.end.job(), LIMIT, 1, 2, bytes) {
            Ok((replica, Ending::Whole)) => Ok(replica),
            Err(RestoreError::NoMemory) => Err(Trouble::Memory),
            _ => Err(Trouble::Wrong("it is not restored whole")),
        }
    }

    /// Lets both come to the end.
    fn tell_ends(
        &self,
        again: &mut Replica<'_>,
        other: &mut Replica<'_>,
        out: &mut Vec<u8>,
    ) -> Result<(), Trouble> {
        self.merge(again, other)?;
        self.tell_end(again, out)?;
        self.tell_end(other, out)
    }

    /// Lets a replica that starts again from what the one saved merge with the other.
    fn tell_again(
        &self,
        bytes: &[u8],
        other: &mut Replica<'_>,
        out: &mut Vec<u8>,
    ) -> Result<(), Trouble> {
        let mut again = self.restored(bytes)?;
        self.tell_ends(&mut again, other, out)
    }

    /// Lets the replicas fire in the buckets of even and of odd numbers, and ask each other.
    fn exchange(&self, one: &mut Replica<'_>, other: &mut Replica<'_>) -> Result<(), Trouble> {
        for _ in 0..ROUNDS {
            self.fire_out(one, 0x5555_5555_5555_5555)?;
            self.catch_up(other, one)?;
            self.fire_out(other, 0xAAAA_AAAA_AAAA_AAAA)?;
            self.catch_up(one, other)?;
        }
        Ok(())
    }

    /// Lets both go on, saves the one, and starts it again.
    fn tell_both(
        &self,
        one: &mut Replica<'_>,
        other: &mut Replica<'_>,
        out: &mut Vec<u8>,
    ) -> Result<(), Trouble> {
        self.exchange(one, other)?;
        let bytes = one.save()?;
        self.tell_again(&bytes, other, out)
    }

    /// Makes the second replica, and goes on with both.
    fn tell_with(&self, one: &mut Replica<'_>, out: &mut Vec<u8>) -> Result<(), Trouble> {
        let mut other = Replica::new(self.alloc, self.end.job(), LIMIT, 2)?;
        self.tell_both(one, &mut other, out)
    }

    /// Makes the first replica, and goes on.
    fn tell(&self, out: &mut Vec<u8>) -> Result<(), Trouble> {
        let mut one = Replica::new(self.alloc, self.end.job(), LIMIT, 1)?;
        self.tell_with(&mut one, out)
    }
}

/// Runs the machine to the end, and tells of the replicas.
fn tell_from(alloc: Global, end: &mut Machine<'_>, out: &mut Vec<u8>) -> Result<(), Trouble> {
    run_out(end)?;
    let row = Row { alloc, end };
    row.tell(out)
}

/// Writes the histories of both replicas at the end, which is that of the run.
pub fn tell(alloc: Global, job: &Job, out: &mut Vec<u8>) -> Result<(), Trouble> {
    let mut end = Machine::new(alloc, job, LIMIT)?;
    tell_from(alloc, &mut end, out)
}
