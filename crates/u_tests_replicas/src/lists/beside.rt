//! A world beside a plain one: what has to be the same.
use crate::lists::plain_replica::{PlainReplica, Stage};
use crate::lists::plain_world::PlainWorld;
use crate::lists::table::{Table, is_held};
use crate::looks::{mark_of, replica_of};
use u_history::History;
use u_machine::{Machine, Parked};
use u_replica::Replica;
use u_rule::Firing;
use u_world::World;

/// Whether these are the firings with these numbers, in the same order.
fn is_list(table: &Table, numbers: &[usize], firings: &[Firing]) -> bool {
    for (place, number) in numbers.iter().enumerate() {
        if firings.get(place) != table.firings.get(*number) {
            return false;
        }
    }
    numbers.len() == firings.len()
}

/// Whether the parked firings are those that the plain replica parks.
fn is_parked(table: &Table, plain: &PlainReplica, parked: &Parked<'_>) -> bool {
    let mut count = 0usize;
    for (number, firing) in table.firings.iter().enumerate() {
        if plain.stage(number) == Stage::Parked {
            count = count.saturating_add(1);
            if !parked.contains(firing) {
                return false;
            }
        }
    }
    parked.len() == count
}

/// Whether the history has just the entries that the plain replica holds.
fn is_history(table: &Table, plain: &PlainReplica, history: &History) -> bool {
    let mut count = 0usize;
    for (number, entry) in table.entries.iter().enumerate() {
        if is_held(&plain.held, number) {
            count = count.saturating_add(1);
            if !history.contains(entry) {
                return false;
            }
        }
    }
    history.len() == count
}

/// Whether the machine is settled, with the plain replica's log, parked firings and entries.
fn machine_agrees(table: &Table, plain: &PlainReplica, machine: &Machine<'_>) -> bool {
    machine.is_settled()
        && is_list(table, &plain.log, machine.applied())
        && is_parked(table, plain, &machine.parked())
        && is_history(table, plain, machine.history())
}

/// Whether the mark for the peer is the plain replica's. No replica has one for itself.
fn mark_agrees(plain: &PlainReplica, replica: &Replica<'_>, peer: u8) -> bool {
    match mark_of(replica, peer) {
        Some(mark) => mark == plain.mark(peer),
        None => true,
    }
}

/// Whether the replica has the number, and the plain one's life and marks.
fn head_agrees(plain: &PlainReplica, replica: &Replica<'_>, number: u8) -> bool {
    for peer in 1..=8 {
        if !mark_agrees(plain, replica, peer) {
            return false;
        }
    }
    replica.number() == number && replica.life() == plain.life
}

/// Whether the replica with that number is as the plain one.
fn replica_agrees(table: &Table, world: &World<'_>, plain: &PlainWorld, number: u8) -> bool {
    match (replica_of(world, number), plain.replica(number)) {
        (Some(replica), Some(plain)) => {
            head_agrees(plain, replica, number) && machine_agrees(table, plain, replica.machine())
        }
        _ => false,
    }
}

/// Whether all replicas are as the plain ones, as many as there are.
pub fn all_agree(table: &Table, world: &World<'_>, plain: &PlainWorld, count: u8) -> bool {
    for number in 1..=count {
        if !replica_agrees(table, world, plain, number) {
            return false;
        }
    }
    world.count() == usize::from(count)
}
