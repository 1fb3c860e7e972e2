//! The firings that give an entry over the history of a machine.
//!
//! Where nothing is ready, the machine applied each firing that is enabled over its history. So those
//! that give the entry are found among the applied ones, and no entry has to enter a matcher.
ghost use Rattle.std.specs.Prelude.{◌≡◌, ◌↔◌, IfOk, Contains, Err};
ghost use Rattle.u_rule.specs.Rule.{own_of};
ghost use Rattle.u_rule.specs.EntryOrder.{firing_cmp};
ghost use Rattle.u_sets.specs.Rising.{IsListOf};
ghost use Rattle.u_trace.specs.Causes.{IsCause, IsGiverIn};
ghost use Rattle.u_trace.specs.Givers.{AreFirings};
ghost use Rattle.u_trace.specs.declared.trace_error.TraceError.TheVariants as errors;

use crate::causing::{causes, keep_all};
use crate::trace_error::TraceError;
use std::alloc::{AllocError, Global};
use u_check::Job;
use u_machine::Machine;
use u_rule::{Entry, Firing};

/// Copies of the firings of the list that give the entry, in order and each once.
///
/// # Errors
/// `AllocError` where there is no memory.
fn givers_among(
    alloc: Global,
    job: &Job,
    log: &[Firing],
    entry: &Entry,
) -> Result<Vec<Firing>, AllocError>
    requires { AreFirings (own_of job.now) log.now }
    ensures { IfOk result
        (λ v. IsListOf firing_cmp (IsGiverIn job.now log.now entry.now) v.items) }
{
    let mut found = Vec::new(alloc);
    keep_all(alloc, job, entry, log, &mut found)?;
    Ok(found)
}

/// All firings of the machine's job whose needs lie in its history and that give the entry, in order and
/// each once: what `causes` returns of its history. Where nothing is ready they are found among the applied
/// firings, and no entry is copied.
///
/// # Errors
/// `NotHeld` exactly where the entry is not in the history. `NoMemory` where there is no memory.
pub fn machine_causes(
    alloc: Global,
    machine: &Machine<'_>,
    entry: &Entry,
) -> Result<Vec<Firing>, TraceError>
    ensures ok { IfOk result (λ v. IsListOf firing_cmp
        (IsCause machine.now.job machine.now.history entry.now) v.items) }
    ensures refused { result ≡ Err errors.NotHeld
        ↔ (Contains machine.now.history entry.now → ⊥) }
{
    let job = machine.job();
    let history = machine.history();
    if !machine.is_quiet() {
        return causes(alloc, job, history, entry);
    }
    if !history.contains(entry) {
        return Err(TraceError::NotHeld);
    }
    machine.holds();
    let found = givers_among(alloc, job, machine.applied(), entry)?;
    Ok(found)
}
