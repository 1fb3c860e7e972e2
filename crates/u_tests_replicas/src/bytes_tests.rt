//! Bytes that arrive at a replica of a world: an event that scripts and random lists don't have.
use crate::looks::{has, mark_of, replica_of, world_of};
use std::alloc::{AllocError, Global};
use std::slice;
use std::test::Fail;
use u_check::Job;
use u_delta::Mark;
use u_plain::examples::{DOUBLE, job};
use u_world::{Event, World};

/// What arrives at replica 1 of two, and how many applied firings, parked firings and entries it has then.
type Row = (&'static str, [usize; 3]);

const ROWS: &[Row] = &[
    ("u-delta 1 2 1 9 0 1\nf -.main.3.1 8\nend\n", [0, 1, 1]),
    ("u-delta 1 2 1 9 0 1\nf -.main.1.1 4\nend\n", [1, 0, 3]),
    ("u-delta 1 2 1 9 0 1\nf -.main.1.1 4\nend", [0, 0, 1]),
    ("u-delta 1 2 1 9 0 1\nf -.main.99.1 1\nend\n", [0, 0, 1]),
    ("u-ask 1 2 1 0 0\n", [0, 0, 1]),
    ("", [0, 0, 1]),
];

/// The rows. A proof that calls this knows none of them, and so is short.
fn rows() -> &'static [Row] {
    ROWS
}

/// The event that the text arrives at replica 1.
fn event_of(alloc: Global, text: &str) -> Result<Event, AllocError> {
    let bytes = text.as_bytes().to_vec(alloc)?;
    Ok(Event::Bytes { replica: 1, bytes })
}

/// Whether replica 1 has these numbers of firings and entries, and no mark of replica 2.
fn first_has(world: &World<'_>, counts: [usize; 3]) -> bool {
    match replica_of(world, 1) {
        Some(replica) => {
            has(replica, counts) && mark_of(replica, 2) == Some(Mark { life: 0, count: 0 })
        }
        None => false,
    }
}

/// Whether the row is so of the new world.
fn is_so_in(alloc: Global, world: &mut World<'_>, row: &Row) -> bool {
    match event_of(alloc, row.0) {
        Ok(event) => world.run(slice::from_ref(&event)).is_ok() && first_has(world, row.1),
        Err(_) => false,
    }
}

/// Whether the row is so of a new world of the job.
fn is_so(alloc: Global, job: &Job, row: &Row) -> bool {
    match world_of(alloc, job, 2) {
        Some(mut world) => is_so_in(alloc, &mut world, row),
        None => false,
    }
}

#[test]
fn bytes_bring_the_firings_of_a_whole_delta(rt: HostRuntime) -> Result<(), Fail> {
    let job = job(rt.alloc(), DOUBLE, 4)?;
    for row in rows() {
        assert!(rt; is_so(rt.alloc(), &job, row), "{}", row.0);
    }
    Ok(())
}
