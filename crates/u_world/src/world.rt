//! Replicas of one job, and lists of events.
//!
//! After every list of events the history of a replica is fixed by the set of firings that it took. It is
//! the history of one run of the job, a merge is the least upper bound of two replicas, and where a
//! replica finds nothing ready it holds the history of the whole job.
//!
//! A replica can be taken out of its world, to go on alone: no event fires until nothing is ready.
ghost use Rattle.std.specs.Prelude.{◌≡◌, IfOk, length};
ghost use Rattle.u_name.specs.Context.{IsBetween};
ghost use Rattle.u_world.specs.WorldState.{fresh_world, At, Has};
ghost use Rattle.u_world.specs.Worlds.{IsWorld};
ghost use Rattle.u_world.specs.Runs.{EventsAnswer};
ghost use Rattle.u_world.specs.Headline.{KeepsTheHeadline, AgreeOnSets, AllSettled, StaySettled, MergesAreLeast};
ghost use Rattle.u_world.specs.Rounds.{RoundsCatchUp, RoundsKeepUp};

use crate::event::Event;
use crate::inside::Inside;
use crate::refused::WorldError;
use std::alloc::{AllocError, Global};
use std::marker::Model;
use u_check::Job;
use u_replica::Replica;

/// One to eight replicas of one job, the messages that they sent, and what each of them saved last.
#[derive(Drop)]
pub struct World<'a> {
    inside: Inside<'a>,
}

impl<'a> Model for World<'a> {
    ghost use Rattle.u_world.specs.WorldState.{WorldState, world_code};
    ghost use Rattle.u_world.specs.Inside.{world_of};
    ghost use Rattle.u_world.specs.Worlds.{IsWorld};

    ghost Value = { WorldState };

    ghost coded = { world_code };

    ghost view = { λ w. world_of w.inside };

    ghost invariant = { λ w. IsWorld (world_of w.inside) };
}

impl<'a> World<'a> {
    /// A world of new replicas, numbered from 1, in which nothing was sent or saved. `count` is 1 to 8;
    /// `limit` is the greatest number of firings that a replica takes.
    ///
    /// # Errors
    /// `AllocError` where there is no memory.
    pub fn new(
        alloc: Global,
        job: &'a Job,
        count: u8,
        limit: usize,
    ) -> Result<World<'a>, AllocError>
        requires { IsBetween 1 count 8 }
        ensures state { IfOk result (λ w. w ≡ fresh_world job.now limit count) }
        ensures settled { IfOk result AllSettled }
    {
        let inside = Inside::new(alloc, job, count, limit)?;
        Ok(World { inside })
    }

    /// How many replicas there are, 1 to 8.
    pub fn count(&self) -> usize
        ensures { result ≡ length self.now.replicas }
    {
        self.inside.replicas.len()
    }

    /// The replica with that number. `number` is from 1 to how many there are.
    pub fn replica(&self, number: u8) -> &Replica<'a>
        requires { Has self.now number }
        ensures { At self.now.replicas number result.now }
    {
        &self.inside.replicas[usize::from(number) - 1]
    }

    /// The replica with that number, where the others are not needed any more. `number` is from 1 to
    /// how many there are.
    pub fn into_replica(self, number: u8) -> Replica<'a>
        requires { Has self number }
        ensures { At self.entry.replicas number result }
    {
        self.inside.into_replica(number)
    }

    /// What holds of each world, after all events. It does nothing, and callers cite its clauses.
    ///
    /// Promise fixed-by-the-set: a replica's history is fixed by the set of firings that it took: it is the
    /// closure of that set.
    ///
    /// Promise one-run: the applied firings of a replica are one run of the job, and its history is what that
    /// run holds.
    ///
    /// Promise quiet-is-whole: if nothing is ready, the history is all that any run of the job derives.
    ///
    /// Promise marks-are-honest: what a mark counts of a peer's log the replica took, after restarts too.
    ///
    /// Promise exchanged-in-full: two replicas that have heard all of each other, and park nothing, took the
    /// same firings.
    pub fn holds(&self)
        ensures is { IsWorld self.now }
        ensures headline { KeepsTheHeadline self.now }
    {
        // Brings in what the type's invariant says of its parts.
        let _ = &self.inside;
    }

    /// What holds of the replicas of two worlds. It does nothing, and callers cite its clause.
    ///
    /// Promise equal-sets-equal-histories: two settled replicas of one job that took the same firings have
    /// the same history, the very list, in whatever worlds they are.
    pub fn agrees_with(&self, other: &World<'_>)
        ensures { AgreeOnSets self.now other.now }
    {
        self.holds();
        other.holds();
    }

    /// Lets the events happen, one after another.
    ///
    /// Promise events-in-order: each event does what the call of its replica says; the first that does not
    /// happen is named, and later ones are not looked at.
    ///
    /// Promise merge-is-least: after each merge the replica took the union of what the two took, and is their
    /// least upper bound.
    ///
    /// Promise save-restart: a restart makes the replica's next life, which took the firings of the complete
    /// lines of what was kept and knows nothing of its peers.
    ///
    /// Promise forged-bytes: of bytes that are the text of a delta the firings are taken and no mark moves;
    /// other bytes change nothing.
    ///
    /// Promise rounds-catch-up: after n rounds with no other event of the two, the asker's mark counts 4096 n
    /// firings more of the other's log, or all of it.
    ///
    /// Promise rounds-keep-up: with other events between the rounds but no restart it counts as many more, or
    /// as far as the log went at first.
    ///
    /// # Errors
    /// `BadEvent`, `Full` and `NoMemory` with the place of the first event that does not happen. Those
    /// before it have happened, and those behind it are not looked at. `BadEvent` where its replica or
    /// message is not there, where a replica asks or merges itself, takes what is no firing of the job,
    /// or starts again in its last life. `Full` and `NoMemory` where the replica's call returned so;
    /// what that call leaves is left, and where a message or a checkpoint could not be kept nothing
    /// changes.
    pub fn run(&mut self, events: &[Event]) -> Result<(), WorldError>
        ensures answer { EventsAnswer self.old events.now result self.new }
        ensures merges { IfOk result (λ u. MergesAreLeast self.old events.now self.new) }
        ensures settled { StaySettled self.old result self.new }
        ensures rounds { RoundsCatchUp self.old events.now self.new }
        ensures rounds_among { RoundsKeepUp self.old events.now self.new }
        ensures is { IsWorld self.new }
        ensures headline { KeepsTheHeadline self.new }
    {
        self.holds();
        for (place, event) in events.iter().enumerate() {
            match self.inside.happen(event) {
                Ok(()) => {}
                Err(refused) => return Err(refused.at(place)),
            }
        }
        Ok(())
    }
}
