//! Rows of a world whose events may be refused memory.
use crate::machines::{LIMIT, run_out};
use crate::rows::{TRIES, Trouble, must};
use crate::standing::lies_in;
use std::alloc::{AllocError, Global};
use u_check::Job;
use u_history::History;
use u_machine::Machine;
use u_world::{Event, World, WorldError, random_events};

/// How many replicas there are.
const REPLICAS: u8 = 2;

/// How many random events there are, and the seed of them.
const EVENTS: usize = 40;

const SEED: u64 = 4;

/// Adds so many firings by each replica.
fn add_firings(events: &mut Vec<Event>, firings: usize) -> Result<(), AllocError> {
    for _ in 0..firings {
        for replica in [1, 2] {
            events.push(Event::Fire { replica, pick: 0 })?;
        }
    }
    Ok(())
}

/// The random events, and then so many firings by each replica.
fn events_of(alloc: Global, firings: usize) -> Result<Vec<Event>, AllocError> {
    let mut events = random_events(alloc, SEED, REPLICAS, EVENTS)?;
    add_firings(&mut events, firings)?;
    Ok(events)
}

/// Sees that the replica holds nothing that no run has.
fn look_at(world: &World<'_>, number: u8, end: &History) -> Result<(), Trouble> {
    if number == 0 || usize::from(number) > world.count() {
        return must(false, "a replica is not there");
    }
    must(
        lies_in(world.replica(number).machine().history(), end)?,
        "an entry of no run is held",
    )
}

/// Lets the events happen. Returns how many happened before one that was refused.
fn run_some(world: &mut World<'_>, events: &[Event], end: &History) -> Result<usize, Trouble> {
    match world.run(events) {
        Err(WorldError::NoMemory(place)) => {
            look_at(world, 1, end)?;
            look_at(world, 2, end)?;
            Ok(place)
        }
        ran => {
            must(ran.is_ok(), "an event is refused otherwise")?;
            Ok(events.len())
        }
    }
}

/// Lets all events happen, again from where one is refused.
fn run_all(world: &mut World<'_>, events: &[Event], end: &History) -> Result<(), Trouble> {
    let mut rest = events;
    for _ in 0..TRIES {
        let place = run_some(world, rest, end)?;
        rest = rest.get(place..).unwrap_or(&[]);
        if rest.is_empty() {
            return Ok(());
        }
    }
    must(false, "the events do not go on though memory is there")
}

/// Writes the replica's history, which is that of the run.
fn tell_end(
    world: &World<'_>,
    number: u8,
    end: &History,
    out: &mut Vec<u8>,
) -> Result<(), Trouble> {
    if number == 0 || usize::from(number) > world.count() {
        return must(false, "a replica is not there");
    }
    let history = world.replica(number).machine().history();
    must(history.len() == end.len(), "the end is not that of the run")?;
    look_at(world, number, end)?;
    history.write_text(out)?;
    Ok(())
}

/// Lets the events happen in the world.
fn tell_world(
    world: &mut World<'_>,
    events: &[Event],
    end: &History,
    out: &mut Vec<u8>,
) -> Result<(), Trouble> {
    run_all(world, events, end)?;
    tell_end(world, 1, end, out)?;
    tell_end(world, 2, end, out)
}

/// Lets the events happen in a new world.
fn tell_events(
    alloc: Global,
    job: &Job,
    events: &[Event],
    end: &History,
    out: &mut Vec<u8>,
) -> Result<(), Trouble> {
    let mut world = World::new(alloc, job, REPLICAS, LIMIT)?;
    tell_world(&mut world, events, end, out)
}

/// Runs the machine to the end, and makes the events.
fn tell_from(alloc: Global, end: &mut Machine<'_>, out: &mut Vec<u8>) -> Result<(), Trouble> {
    run_out(end)?;
    let events = events_of(alloc, end.applied().len())?;
    tell_events(alloc, end.job(), &events, end.history(), out)
}

/// Writes the histories of both replicas at the end, which is that of the run.
pub fn tell(alloc: Global, job: &Job, out: &mut Vec<u8>) -> Result<(), Trouble> {
    let mut end = Machine::new(alloc, job, LIMIT)?;
    tell_from(alloc, &mut end, out)
}
