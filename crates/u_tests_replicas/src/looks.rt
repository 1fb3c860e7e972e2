//! Looks at worlds and at replicas.
use std::alloc::Global;
use u_check::Job;
use u_delta::Mark;
use u_replica::Replica;
use u_world::World;

/// A new world of `count` replicas, if there can be as many and there is memory for them.
pub fn world_of<'a>(alloc: Global, job: &'a Job, count: u8) -> Option<World<'a>> {
    if count < 1 || count > 8 {
        return None;
    }
    World::new(alloc, job, count, 1000).ok()
}

/// The replica of that number, if there is one.
pub fn replica_of<'w, 'a>(world: &'w World<'a>, number: u8) -> Option<&'w Replica<'a>> {
    if number < 1 || usize::from(number) > world.count() {
        return None;
    }
    Some(world.replica(number))
}

/// How much the replica has of the peer's log, if that is the number of a peer.
pub fn mark_of(replica: &Replica<'_>, peer: u8) -> Option<Mark> {
    if peer < 1 || peer > 8 || peer == replica.number() {
        return None;
    }
    Some(replica.mark(peer))
}

/// Whether the replica is settled, and has these numbers of applied firings, parked firings and entries.
pub fn has(replica: &Replica<'_>, counts: [usize; 3]) -> bool {
    let [applied, parked, entries] = counts;
    let machine = replica.machine();
    machine.is_settled()
        && machine.applied().len() == applied
        && machine.parked().len() == parked
        && machine.history().len() == entries
}
