//! Random lists of events over worlds and plain worlds.
use crate::lists::beside::all_agree;
use crate::lists::listing::table_of;
use crate::lists::plain_world::PlainWorld;
use crate::lists::table::Table;
use crate::looks::world_of;
use std::alloc::{AllocError, Global};
use std::slice;
use std::test::Fail;
use u_check::Job;
use u_plain::examples::{FACTORIAL, SUM, TWO_WRITERS, job};
use u_world::{Event, World, random_events};

/// How many replicas the list of that number has, of four of each seed.
fn replicas_of(number: u64) -> u8 {
    match number % 4 {
        0 => 2,
        1 => 3,
        2 => 4,
        _ => 5,
    }
}

/// The place of the first event that one of the worlds does not do, or after which their replicas differ.
/// They are compared after each tenth event.
fn first_wrong(
    table: &Table,
    world: &mut World<'_>,
    plain: &mut PlainWorld,
    events: &[Event],
    replicas: u8,
) -> Option<usize> {
    for (place, event) in events.iter().enumerate() {
        if world.run(slice::from_ref(event)).is_err() || !plain.does(table, event) {
            return Some(place);
        }
        if place % 10 == 9 && !all_agree(table, world, plain, replicas) {
            return Some(place);
        }
    }
    None
}

/// The same with a new plain world; 0 where there is no memory for it.
fn wrong_beside(
    alloc: Global,
    table: &Table,
    world: &mut World<'_>,
    events: &[Event],
    replicas: u8,
) -> Option<usize> {
    match PlainWorld::new(alloc, table, replicas) {
        Ok(mut plain) => first_wrong(table, world, &mut plain, events, replicas),
        Err(_) => Some(0),
    }
}

/// The same with a new world of the job.
fn wrong_over(
    alloc: Global,
    job: &Job,
    table: &Table,
    events: &[Event],
    replicas: u8,
) -> Option<usize> {
    match world_of(alloc, job, replicas) {
        Some(mut world) => wrong_beside(alloc, table, &mut world, events, replicas),
        None => Some(0),
    }
}

/// The same of the list of that number, which has 200 events.
fn wrong_in(alloc: Global, job: &Job, table: &Table, number: u64) -> Option<usize> {
    let replicas = replicas_of(number);
    if replicas < 1 || replicas > 8 {
        return Some(0);
    }
    match random_events(alloc, number / 4, replicas, 200) {
        Ok(events) => wrong_over(alloc, job, table, &events, replicas),
        Err(_) => Some(0),
    }
}

/// The first of the lists of four seeds in which the worlds differ, and where.
fn first_bad(alloc: Global, job: &Job, table: &Table) -> Option<(u64, usize)> {
    for number in 0..16 {
        if let Some(place) = wrong_in(alloc, job, table, number) {
            return Some((number, place));
        }
    }
    None
}

/// The same of the job.
fn first_bad_over(alloc: Global, job: &Job) -> Result<Option<(u64, usize)>, AllocError> {
    let table = table_of(alloc, job)?;
    Ok(first_bad(alloc, job, &table))
}

/// The same of the program on the argument.
fn first_bad_of(
    alloc: Global,
    text: &[u8],
    argument: i64,
) -> Result<Option<(u64, usize)>, AllocError> {
    let job = job(alloc, text, argument)?;
    first_bad_over(alloc, &job)
}

#[test]
fn lists_over_the_sum_are_as_the_plain_world_says(rt: HostRuntime) -> Result<(), Fail> {
    let bad = first_bad_of(rt.alloc(), SUM, 3)?;
    assert!(rt; bad.is_none(), "{bad:?}");
    Ok(())
}

#[test]
fn lists_over_the_factorial_are_as_the_plain_world_says(rt: HostRuntime) -> Result<(), Fail> {
    let bad = first_bad_of(rt.alloc(), FACTORIAL, 1)?;
    assert!(rt; bad.is_none(), "{bad:?}");
    Ok(())
}

#[test]
fn lists_over_two_writers_are_as_the_plain_world_says(rt: HostRuntime) -> Result<(), Fail> {
    let bad = first_bad_of(rt.alloc(), TWO_WRITERS, 0)?;
    assert!(rt; bad.is_none(), "{bad:?}");
    Ok(())
}
