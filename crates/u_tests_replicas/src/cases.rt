//! A program, its argument, and what is tried with a machine that has run it. Without memory that is false.

use crate::fleets::{Fleet, fleets_report};
use crate::outlets::{Row, does_well};
use std::alloc::Global;
use std::sync::Wait;
use std::thread::Threads;
use u_check::Job;
use u_machine::Machine;
use u_plain::examples::job;

/// How many firings a machine may take here, and make in its run.
const LIMIT: usize = 2000;

/// What is tried.
#[derive(Clone, Copy)]
pub enum Trial<'a> {
    /// An outlet with its inlets.
    Outlet(Row),
    /// What fleets report.
    Fleets(&'a [Fleet]),
}

/// Whether what is tried with the machine goes as it has to.
fn passes<R: Threads + Wait + Sync>(
    rt: &R,
    alloc: Global,
    machine: &Machine<'_>,
    trial: Trial<'_>,
) -> bool {
    match trial {
        Trial::Outlet(row) => does_well(rt, alloc, machine, row),
        Trial::Fleets(fleets) => fleets_report(rt, alloc, machine, fleets),
    }
}

/// The same with a machine that has run the job.
fn passes_once_run<R: Threads + Wait + Sync>(
    rt: &R,
    alloc: Global,
    job: &Job,
    trial: Trial<'_>,
) -> bool {
    match Machine::new(alloc, job, LIMIT) {
        Ok(mut machine) => machine.run(LIMIT).is_ok() && passes(rt, alloc, &machine, trial),
        Err(_) => false,
    }
}

/// The same if the job is the program of that text on the argument.
pub fn passes_with<R: Threads + Wait + Sync>(
    rt: &R,
    alloc: Global,
    text: &[u8],
    argument: i64,
    trial: Trial<'_>,
) -> bool {
    match job(alloc, text, argument) {
        Ok(job) => passes_once_run(rt, alloc, &job, trial),
        Err(_) => false,
    }
}
