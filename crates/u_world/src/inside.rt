//! What a world is made of.
//!
//! A message that is kept is what was sent, so a delta has copies of its firings, which share their
//! contexts. A place in the sender's log would be void once the sender starts again.
ghost use Rattle.std.specs.Prelude.{◌≡◌, ◌↔◌, IfOk, IsTrue};
ghost use Rattle.u_name.specs.Context.{IsBetween};
ghost use Rattle.u_world.specs.WorldState.{fresh_world, At, Has};
ghost use Rattle.u_world.specs.Inside.{world_of, AllHold};

use crate::saved::Saved;
use std::alloc::{AllocError, Global};
use u_check::Job;
use u_delta::Message;
use u_replica::Replica;

/// The replicas in the order of their numbers, the messages in the order in which they were sent, and
/// what each replica saved last.
#[derive(Drop)]
pub(crate) struct Inside<'a> {
    pub(crate) alloc: Global,
    pub(crate) job: &'a Job,
    /// The greatest number of firings that a replica takes.
    pub(crate) limit: usize,
    pub(crate) replicas: Vec<Replica<'a>>,
    pub(crate) messages: Vec<Message>,
    pub(crate) saves: Vec<Saved>,
}

impl<'a> Inside<'a> {
    /// New replicas, and nothing sent or saved. `count` is 1 to 8.
    pub(crate) fn new(
        alloc: Global,
        job: &'a Job,
        count: u8,
        limit: usize,
    ) -> Result<Inside<'a>, AllocError>
        requires { IsBetween 1 count 8 }
        ensures state { IfOk result (λ i. world_of i ≡ fresh_world job.now limit count) }
        ensures hold { IfOk result (λ i. AllHold i.replicas.items) }
    {
        let mut replicas = Vec::new(alloc);
        let mut saves = Vec::new(alloc);
        for place in 0..count {
            let replica = Replica::new(alloc, job, limit, place + 1)?;
            replica.holds();
            replicas.push(replica)?;
            saves.push(Saved::nothing(alloc))?;
        }
        Ok(Inside {
            alloc,
            job,
            limit,
            replicas,
            messages: Vec::new(alloc),
            saves,
        })
    }

    /// Whether there is a replica with that number.
    pub(crate) fn has(&self, number: u8) -> bool
        ensures { IsTrue result ↔ Has (world_of self.now) number }
    {
        1 <= number && usize::from(number) <= self.replicas.len()
    }

    /// The replica with that number; the others are dropped.
    pub(crate) fn into_replica(self, number: u8) -> Replica<'a>
        requires { Has (world_of self) number }
        ensures { At (world_of self.entry).replicas number result }
    {
        let mut replicas = self.replicas;
        replicas.swap_remove(usize::from(number) - 1)
    }
}
