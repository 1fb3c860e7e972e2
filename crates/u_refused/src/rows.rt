//! The rows: what is run, and how; and why a row is not told.
use crate::machines::Way;
use crate::machines::Way::{Backwards, Fires, Lists, Runs};
use crate::rows::Kind::{Machine, Replicas, Sets, Settled, World};
use crate::{machines, replicas, sets, worlds};
use std::alloc::{AllocError, AllocFailed, Global};
use u_check::Job;
use u_plain::examples::{DOUBLE, FACTORIAL, SUM, TWO_WRITERS as WRITERS, job};

/// How often a call or a row is tried while it is refused.
pub const TRIES: usize = 4;

/// Why a row is not told.
#[derive(Clone, Copy)]
pub enum Trouble {
    /// There was no memory for what is not under test, so that the row may be begun again.
    Memory,
    /// What does not hold that has to.
    Wrong(&'static str),
}

impl From<AllocError> for Trouble {
    fn from(_: AllocError) -> Trouble {
        Trouble::Memory
    }
}

impl<T: Drop> From<AllocFailed<T>> for Trouble {
    fn from(_: AllocFailed<T>) -> Trouble {
        Trouble::Memory
    }
}

/// Says what is wrong, unless it holds.
pub fn must(holds: bool, what: &'static str) -> Result<(), Trouble> {
    if holds {
        return Ok(());
    }
    Err(Trouble::Wrong(what))
}

/// What a row runs.
#[derive(Clone, Copy)]
pub enum Kind {
    /// A machine that comes to its end that way. A refused call is made again at once.
    Machine(Way),
    /// The same, where the machine is settled before the refused call is made again.
    Settled(Way),
    /// Two replicas.
    Replicas,
    /// A world of two replicas.
    World,
    /// A table of names, and histories.
    Sets,
}

/// A row: its name, what it runs, the program and its argument.
pub type Row = (&'static str, Kind, &'static [u8], i64);

const ROWS: &[Row] = &[
    ("double, fired", Machine(Fires), DOUBLE, 4),
    ("writers, fired", Machine(Fires), WRITERS, 0),
    ("writers, fired, settled", Settled(Fires), WRITERS, 0),
    ("writers, back", Machine(Backwards), WRITERS, 0),
    ("writers, back, settled", Settled(Backwards), WRITERS, 0),
    ("writers, lists", Machine(Lists), WRITERS, 0),
    ("writers, lists, settled", Settled(Lists), WRITERS, 0),
    ("sum, run", Machine(Runs), SUM, 1),
    ("sum, run, settled", Settled(Runs), SUM, 1),
    ("sum, back", Machine(Backwards), SUM, 0),
    ("factorial, lists", Machine(Lists), FACTORIAL, 0),
    ("double, replicas", Replicas, DOUBLE, 4),
    ("sum, replicas", Replicas, SUM, 0),
    ("writers, world", World, WRITERS, 0),
    ("sum, world", World, SUM, 0),
    ("sum, names and histories", Sets, SUM, 1),
];

/// The rows. A proof that calls this knows none of them, and so is short.
pub fn rows() -> &'static [Row] {
    ROWS
}

/// Writes the bytes of a row of that kind.
fn tell_job(alloc: Global, job: &Job, kind: Kind, out: &mut Vec<u8>) -> Result<(), Trouble> {
    match kind {
        Machine(way) => machines::tell(alloc, job, way, false, out),
        Settled(way) => machines::tell(alloc, job, way, true, out),
        Replicas => replicas::tell(alloc, job, out),
        World => worlds::tell(alloc, job, out),
        Sets => sets::tell(alloc, job, out),
    }
}

/// Writes the row's bytes.
fn tell(alloc: Global, row: &Row, out: &mut Vec<u8>) -> Result<(), Trouble> {
    let (_, kind, text, argument) = row;
    let job = job(alloc, text, *argument)?;
    tell_job(alloc, &job, *kind, out)
}

/// Writes the row's bytes, beginning again if it finds no memory.
pub fn tell_again(alloc: Global, row: &Row, out: &mut Vec<u8>) -> Result<(), Trouble> {
    for _ in 0..TRIES {
        match tell(alloc, row, out) {
            Err(Trouble::Memory) => out.clear(),
            told => return told,
        }
    }
    Err(Trouble::Memory)
}
