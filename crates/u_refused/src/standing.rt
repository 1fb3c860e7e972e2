//! What holds of each machine, after any calls, by the definitions as plain programs.
use crate::rows::{Trouble, must};
use std::alloc::{AllocError, Global};
use u_check::Job;
use u_history::History;
use u_machine::Machine;
use u_plain::{are_firings, are_in, held, is_enabled};
use u_rule::{Entry, Firing};

/// Whether each of the entries is in the history.
pub fn has_all(history: &History, entries: &[Entry]) -> bool {
    for entry in entries {
        if !history.contains(entry) {
            return false;
        }
    }
    true
}

/// Whether each entry of the history is in the other one.
pub fn lies_in(history: &History, other: &History) -> Result<bool, AllocError> {
    let entries = history.entries()?;
    Ok(has_all(other, &entries))
}

/// Whether a parked firing has all that it needs among the entries.
fn some_enabled(
    alloc: Global,
    machine: &Machine<'_>,
    entries: &[Entry],
) -> Result<bool, AllocError> {
    for firing in machine.parked().iter() {
        if is_enabled(alloc, machine.job(), entries, firing)? {
            return Ok(true);
        }
    }
    Ok(false)
}

/// Whether each firing stands once in the list.
fn are_apart(list: &[Firing]) -> bool {
    for (place, firing) in list.iter().enumerate() {
        for other in list.iter().take(place) {
            if other == firing {
                return false;
            }
        }
    }
    true
}

/// Whether no applied firing is parked.
fn parks_none_applied(machine: &Machine<'_>) -> bool {
    for firing in machine.applied() {
        if machine.parked().contains(firing) {
            return false;
        }
    }
    true
}

/// The entries that the firings, which are of the job, hold.
fn held_by(alloc: Global, job: &Job, firings: &[Firing]) -> Result<Vec<Entry>, Trouble> {
    if !are_firings(job, firings) {
        return Err(Trouble::Wrong("what is no firing was applied"));
    }
    Ok(held(alloc, job, firings)?)
}

/// Sees that the machine says rightly whether it is settled: it holds what its applied firings hold and
/// nothing else, and no parked firing is enabled.
fn compare(
    alloc: Global,
    machine: &Machine<'_>,
    applied: &[Entry],
    entries: &[Entry],
) -> Result<(), Trouble> {
    must(are_in(entries, applied), "what was applied is not held")?;
    let enabled = some_enabled(alloc, machine, entries)?;
    must(
        machine.is_settled() == (!enabled && are_in(applied, entries)),
        "it says wrongly whether it is settled",
    )
}

/// Compares the machine's entries.
fn compare_with(alloc: Global, machine: &Machine<'_>, applied: &[Entry]) -> Result<(), Trouble> {
    let entries = machine.history().entries()?;
    compare(alloc, machine, applied, &entries)
}

/// Sees that the machine has all that its applied firings hold and nothing that no run has, each firing
/// once, and that it says rightly whether it is settled.
pub fn stands(alloc: Global, machine: &Machine<'_>, end: &Machine<'_>) -> Result<(), Trouble> {
    must(
        lies_in(machine.history(), end.history())?,
        "an entry of no run is held",
    )?;
    must(
        are_apart(machine.applied()) && parks_none_applied(machine),
        "a firing is taken twice",
    )?;
    let applied = held_by(alloc, machine.job(), machine.applied())?;
    compare_with(alloc, machine, &applied)
}
