//! The marks of a replica.
//!
//! No mark counts more than 1,000,000 firings: a delta that would end beyond that is taken, and moves no
//! mark.
ghost use Rattle.std.specs.Prelude.{◌≡◌, ◌≤◌, true, false, MatchOption};
ghost use Rattle.u_name.specs.Context.{IsBetween};
ghost use Rattle.u_replica.specs.Marking.{fresh_marks, mark_of, end_of, moved, is_heeded, marks_after, AreMarks};

use std::cmp::max;
use std::marker::Model;
use u_delta::{Delta, Mark};

/// The greatest number of firings that a mark counts.
const MOST_COUNT: u64 = 1_000_000;

/// What a replica has of the logs of the replicas 1 to 8. Contracts see a list, with the mark of
/// replica 1 first.
#[derive(Drop)]
pub(crate) struct Marks {
    all: [Mark; 8],
}

impl Model for Marks {
    ghost use Rattle.std.specs.Prelude.{List};
    ghost use Rattle.u_delta.specs.declared.message.Mark.{Mark};
    ghost use Rattle.u_replica.specs.Marking.{AreMarks};

    ghost Value = { List Mark };

    ghost view = { λ m. m.all };

    ghost invariant = { λ m. AreMarks m.all };
}

/// Where the mark is once the delta was taken, which ends there in the sender's log.
fn after(mark: Mark, delta: &Delta, end: u64) -> Mark
    requires { end ≡ end_of delta.now }
    ensures { result ≡ moved delta.now mark }
{
    if delta.life == mark.life && delta.start <= mark.count {
        Mark {
            life: mark.life,
            count: max(mark.count, end),
        }
    } else if mark.life < delta.life && delta.start == 0 {
        Mark {
            life: delta.life,
            count: end,
        }
    } else {
        mark
    }
}

/// Where the delta ends in the sender's log, if its sender may have a mark and a mark may count so far.
#[tactic(auto, unfolding(crate::specs::Marking::most_count))]
fn heeded_end(own: u8, delta: &Delta) -> Option<u64>
    ensures { MatchOption result (is_heeded own delta.now ≡ false)
        (λ end. (is_heeded own delta.now ≡ true) × (end ≡ end_of delta.now)) }
{
    if delta.sender < 1 || delta.sender > 8 || delta.sender == own {
        return None;
    }
    let len = delta.firings.as_slice().len() as u64;
    let end = delta.start.checked_add(len)?;
    if end > MOST_COUNT {
        return None;
    }
    Some(end)
}

impl Marks {
    /// Nothing is known of any replica.
    pub(crate) fn new() -> Marks
        ensures { result ≡ fresh_marks }
    {
        Marks {
            all: [Mark { life: 0, count: 0 }; 8],
        }
    }

    /// The mark for a peer.
    pub(crate) fn of(&self, peer: u8) -> Mark
        requires { IsBetween 1 peer 8 }
        ensures { result ≡ mark_of self.now peer }
    {
        self.all[usize::from(peer) - 1]
    }

    /// That there are eight, and none counts too many. It does nothing, and callers cite its clause.
    pub(crate) fn holds(&self)
        ensures { AreMarks self.now }
    {
        // Brings in what the type keeps.
        let _all = &self.all;
    }

    /// The replica with the number `own` took the delta.
    #[tactic(auto, using(crate::proofs::MarkLaws::marks_kept, crate::proofs::MarkLaws::marks_move_so, crate::proofs::MarkLaws::marks_stay))]
    pub(crate) fn took(&mut self, own: u8, delta: &Delta)
        ensures { self.new ≡ marks_after own delta.now self.old }
    {
        let Some(end) = heeded_end(own, delta) else {
            return;
        };
        let place = usize::from(delta.sender) - 1;
        self.all[place] = after(self.all[place], delta, end);
    }
}
