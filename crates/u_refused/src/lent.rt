//! The calls that take no memory. The line `call` stands before them and `answered` behind them, for the
//! library that counts allocations.
use crate::machines::LIMIT;
use crate::replicas::mark_of;
use crate::rows::TRIES;
use crate::standing::has_all;
use anyhow::{Result, anyhow};
use std::alloc::Global;
use u_check::Job;
use u_claims::bucket_of;
use u_history::History;
use u_machine::{Machine, Ran, Step, Took};
use u_match::Matcher;
use u_names::Names;
use u_plain::examples::{DOUBLE, job};
use u_replica::Replica;
use u_rule::{Entry, Firing, is_own};

/// Whether what is new and empty is so.
fn new_are_empty(alloc: Global) -> bool {
    History::new(alloc).len() == 0 && Names::new(alloc).len() == 0 && Matcher::new(alloc).len() == 0
}

/// What the calls are made with: the entries of a run, and its firings on another machine.
#[derive(Clone, Copy)]
struct End<'a> {
    entries: &'a [Entry],
    firings: &'a [Firing],
}

/// Whether the machine knows the firings, which are of its job and equal to themselves, and each has a
/// bucket.
fn knows_all(machine: &Machine<'_>, firings: &[Firing]) -> bool {
    for firing in firings {
        let known = machine.knows(firing) && is_own(machine.job(), firing);
        if !known || firing != firing || bucket_of(&firing.activity) >= 64 {
            return false;
        }
    }
    machine.applied().len() == firings.len() && machine.parked().len() == 0
}

/// Whether each firing, which the machine took before, is known to be taken.
fn take_again(machine: &mut Machine<'_>, firings: &[Firing]) -> bool {
    for firing in firings {
        if machine.take(firing) != Ok(Took::Known) {
            return false;
        }
    }
    true
}

/// Whether the calls of the quiet machine answer as they must.
fn machine_answers(machine: &mut Machine<'_>, end: &End<'_>) -> bool {
    machine.is_settled()
        && has_all(machine.history(), end.entries)
        && machine.history().len() == end.entries.len()
        && knows_all(machine, end.firings)
        && take_again(machine, end.firings)
        && machine.settle().is_ok()
        && machine.fire(0) == Ok(Step::Quiet)
        && machine.run(LIMIT) == Ok(Ran::Quiet)
}

/// Whether the calls of the new replica, whose number is 1, answer as they must.
fn replica_answers(replica: &Replica<'_>) -> bool {
    matches!(mark_of(replica, 2), Some(mark) if mark.count == 0)
        && replica.life() == 1
        && replica.machine().history().len() == 1
}

/// Makes the calls between the two lines.
fn call_all(
    rt: &HostRuntime,
    machine: &mut Machine<'_>,
    replica: &Replica<'_>,
    end: &End<'_>,
) -> Result<()> {
    println!(rt; "call")?;
    let right = new_are_empty(rt.alloc())
        && machine_answers(machine, end)
        && replica_answers(replica);
    println!(rt; "answered")?;
    println!(rt; "lent: {right}")?;
    Ok(())
}

/// Makes the calls on the quiet machine and a new replica, with what another machine has.
fn try_with(rt: &HostRuntime, machine: &mut Machine<'_>, other: &Machine<'_>) -> Result<()> {
    let replica = Replica::new(rt.alloc(), other.job(), LIMIT, 1)?;
    let entries = other.history().entries()?;
    let end = End {
        entries: &entries,
        firings: other.applied(),
    };
    call_all(rt, machine, &replica, &end)
}

/// Runs both machines to their end.
fn try_both(rt: &HostRuntime, machine: &mut Machine<'_>, other: &mut Machine<'_>) -> Result<()> {
    let is_quiet = machine.run(LIMIT) == Ok(Ran::Quiet) && other.run(LIMIT) == Ok(Ran::Quiet);
    if is_quiet {
        return try_with(rt, machine, other);
    }
    Err(anyhow!("it is not quiet"))
}

/// Makes another machine.
fn try_beside(rt: &HostRuntime, machine: &mut Machine<'_>) -> Result<()> {
    let mut other = Machine::new(rt.alloc(), machine.job(), LIMIT)?;
    try_both(rt, machine, &mut other)
}

/// Makes the calls on a machine of the job.
fn try_job(rt: &HostRuntime, job: &Job) -> Result<()> {
    let mut machine = Machine::new(rt.alloc(), job, LIMIT)?;
    try_beside(rt, &mut machine)
}

/// Makes the calls that take no memory, of the program of the double.
fn try_double(rt: &HostRuntime) -> Result<()> {
    match job(rt.alloc(), DOUBLE, 4) {
        Ok(job) => try_job(rt, &job),
        Err(_) => Err(anyhow!("there is no job")),
    }
}

/// Makes the calls that take no memory, again while there is none for what they are made on.
pub fn print(rt: &HostRuntime) {
    for _ in 0..TRIES {
        if try_double(rt).is_ok() {
            return;
        }
    }
}
