//! What an event does in a world.
//!
//! A replica is taken out of the list while it merges another one, and put back: two of one list can't be
//! lent for writing and reading at once.
ghost use Rattle.std.specs.Prelude.{◌≡◌, length};
ghost use Rattle.u_name.specs.Context.{IsBetween};
ghost use Rattle.u_replica.specs.Merging.{MergeAnswer};
ghost use Rattle.u_replica.specs.ReplicaState.{ReplicaState};
ghost use Rattle.u_world.specs.declared.event.Event.TheVariants as events;
ghost use Rattle.u_world.specs.Inside.{world_of};
ghost use Rattle.u_world.specs.Refusals.{of_merge};
ghost use Rattle.u_world.specs.Acts.{Answers};
ghost use Rattle.u_world.specs.WorldState.{At, ChangesAt, Has};
ghost use Rattle.u_world.specs.Worlds.{IsWorld};
ghost use Rattle.u_world.specs.Happenings.{EventAnswer, Replies, Arrives};

use crate::acts::{fire, merge, receive, start_again, take, take_all};
use crate::event::Event;
use crate::inside::Inside;
use crate::refused::Refused;
use crate::room::put_back;
use crate::saved::Saved;
use u_delta::{Ask, Message, ReadError, read_message};
use u_replica::Replica;
use u_rule::Firing;

/// One replica takes all that another one of the list took.
fn merge_at(replicas: &mut Vec<Replica<'_>>, number: u8, other: u8) -> Result<(), Refused>
    requires number { IsBetween 1 number (length replicas.old.items) }
    requires other { IsBetween 1 other (length replicas.old.items) }
    requires apart { number ≡ other → ⊥ }
    ensures { (o : ReplicaState) × At replicas.old.items other o × ChangesAt number
        (Answers of_merge (λ r m n. MergeAnswer m o.machine r n) result)
        replicas.old.items replicas.new.items }
{
    let (to, from) = (usize::from(number) - 1, usize::from(other) - 1);
    let mut replica = replicas.remove(to);
    let place = if to < from { from - 1 } else { from };
    let merged = merge(&mut replica, &replicas[place]);
    put_back(replicas, to, replica);
    merged
}

impl<'a> Inside<'a> {
    /// A replica fires.
    fn fire(&mut self, number: u8, pick: usize) -> Result<(), Refused>
        ensures { EventAnswer (world_of self.old) (events.Fire number pick) result
            (world_of self.new) }
    {
        if !self.has(number) {
            return Err(Refused::BadEvent);
        }
        fire(&mut self.replicas[usize::from(number) - 1], pick)
    }

    /// A replica takes a firing.
    fn take(&mut self, number: u8, firing: &Firing) -> Result<(), Refused>
        ensures { EventAnswer (world_of self.old) (events.Take number firing.now) result
            (world_of self.new) }
    {
        if !self.has(number) {
            return Err(Refused::BadEvent);
        }
        take(&mut self.replicas[usize::from(number) - 1], firing)
    }

    /// A replica asks another one.
    fn ask(&mut self, asker: u8, asked: u8) -> Result<(), Refused>
        requires { IsWorld (world_of self.old) }
        ensures { EventAnswer (world_of self.old) (events.Ask asker asked) result
            (world_of self.new) }
    {
        if !self.has(asker) || !self.has(asked) || asker == asked {
            return Err(Refused::BadEvent);
        }
        let ask = self.replicas[usize::from(asker) - 1].ask(asked);
        self.messages.push(Message::Ask(ask))?;
        Ok(())
    }

    /// The replica that is asked answers.
    fn answer(&mut self, ask: &Ask) -> Result<(), Refused>
        requires { Has (world_of self.old) ask.now.asked }
        ensures { Replies ask.now result (world_of self.old) (world_of self.new) }
    {
        let delta = self.replicas[usize::from(ask.asked) - 1].answer(ask)?;
        self.messages.push(Message::Delta(delta))?;
        Ok(())
    }

    /// A message is delivered.
    fn deliver(&mut self, place: usize) -> Result<(), Refused>
        requires { IsWorld (world_of self.old) }
        ensures { EventAnswer (world_of self.old) (events.Deliver place) result
            (world_of self.new) }
    {
        let Some(message) = self.messages.get(place) else {
            return Err(Refused::BadEvent);
        };
        match message {
            Message::Ask(ask) => {
                let ask = *ask;
                self.answer(&ask)
            }
            Message::Delta(delta) => {
                receive(&mut self.replicas[usize::from(delta.receiver) - 1], delta)
            }
        }
    }

    /// A replica takes all that another one took.
    fn merge(&mut self, number: u8, other: u8) -> Result<(), Refused>
        ensures { EventAnswer (world_of self.old) (events.Merge number other) result
            (world_of self.new) }
    {
        if !self.has(number) || !self.has(other) || number == other {
            return Err(Refused::BadEvent);
        }
        merge_at(&mut self.replicas, number, other)
    }

    /// A replica saves.
    fn save(&mut self, number: u8) -> Result<(), Refused>
        requires { IsWorld (world_of self.old) }
        ensures { EventAnswer (world_of self.old) (events.Save number) result
            (world_of self.new) }
    {
        if !self.has(number) {
            return Err(Refused::BadEvent);
        }
        let place = usize::from(number) - 1;
        let bytes = self.replicas[place].save()?;
        self.saves[place] = Saved::new(bytes);
        Ok(())
    }

    /// A replica starts again.
    fn restart(&mut self, number: u8, keep: usize) -> Result<(), Refused>
        requires { IsWorld (world_of self.old) }
        ensures { EventAnswer (world_of self.old) (events.Restart number keep) result
            (world_of self.new) }
    {
        if !self.has(number) {
            return Err(Refused::BadEvent);
        }
        let place = usize::from(number) - 1;
        let Some(life) = self.replicas[place].life().checked_add(1) else {
            return Err(Refused::BadEvent);
        };
        let bytes = self.saves[place].front(keep);
        match Replica::restore(self.alloc, self.job, self.limit, number, life, bytes) {
            Ok((replica, _)) => {
                start_again(&mut self.replicas[place], replica);
                Ok(())
            }
            Err(error) => Err(Refused::of_restore(error)),
        }
    }

    /// Bytes arrive at a replica.
    fn arrive(&mut self, number: u8, bytes: &[u8]) -> Result<(), Refused>
        requires { Has (world_of self.old) number }
        ensures { Arrives number bytes.now result (world_of self.old) (world_of self.new) }
    {
        match read_message(self.alloc, bytes) {
            Ok(Message::Delta(delta)) => {
                let replica = &mut self.replicas[usize::from(number) - 1];
                take_all(replica, delta.firings.as_slice())
            }
            Ok(Message::Ask(_)) => Ok(()),
            Err(ReadError::NoMemory) => Err(Refused::NoMemory),
            Err(_) => Ok(()),
        }
    }

    /// Bytes arrive at a replica, if it is there.
    fn arrive_at(&mut self, number: u8, bytes: &Vec<u8>) -> Result<(), Refused>
        ensures { EventAnswer (world_of self.old) (events.Bytes number bytes.now) result
            (world_of self.new) }
    {
        if !self.has(number) {
            return Err(Refused::BadEvent);
        }
        self.arrive(number, bytes)
    }

    /// Lets the event happen, or returns why it does not.
    pub(crate) fn happen(&mut self, event: &Event) -> Result<(), Refused>
        requires { IsWorld (world_of self.old) }
        ensures { EventAnswer (world_of self.old) event.now result (world_of self.new) }
    {
        match event {
            Event::Fire { replica, pick } => self.fire(*replica, *pick),
            Event::Take { replica, firing } => self.take(*replica, firing),
            Event::Ask { asker, asked } => self.ask(*asker, *asked),
            Event::Deliver { message } => self.deliver(*message),
            Event::Merge { replica, other } => self.merge(*replica, *other),
            Event::Save { replica } => self.save(*replica),
            Event::Restart { replica, keep } => self.restart(*replica, *keep),
            Event::Bytes { replica, bytes } => self.arrive_at(*replica, bytes),
        }
    }
}
