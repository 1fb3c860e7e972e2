//! The firings that give an entry over a history.
//!
//! The entries of the history enter a matcher one after another, but for those that no firing which
//! gives the entry can need. Each firing that is enabled over them is woken by the last of its needs to
//! enter, so the matcher's answers have each of them, and those that give the entry are kept. That is
//! one pass over the history, for any kind of statement.
ghost use Rattle.std.specs.Prelude.{◌≡◌, ◌↔◌, IfOk, OnOk, IsTrue, Contains, Err};
ghost use Rattle.u_rule.specs.Rule.{own_of};
ghost use Rattle.u_rule.specs.EntryOrder.{firing_cmp};
ghost use Rattle.u_rule.specs.declared.firing.Firing.{Firing};
ghost use Rattle.u_sets.specs.Rising.{Rises, IsListOf};
ghost use Rattle.u_sets.specs.Members.{Gains, SomeOf};
ghost use Rattle.u_trace.specs.Causes.{IsCause, IsKept};
ghost use Rattle.u_trace.specs.declared.trace_error.TraceError.TheVariants as errors;

use crate::sending::{matters, may_give};
use crate::trace_error::TraceError;
use std::alloc::{AllocError, Global};
use u_check::Job;
use u_history::History;
use u_match::Matcher;
use u_rule::{Entry, Firing, RuleError, gives};
use u_sets::{has, place_in};

/// Whether the firing of the job gives the entry. What it gives is made only where its statement can give
/// the entry.
///
/// # Errors
/// `AllocError` where there is no memory.
#[tactic(auto, using(crate::proofs::SendLaws::gives_may, u_rule::proofs::Firings::own_is_firing))]
fn does_give(alloc: Global, job: &Job, firing: &Firing, entry: &Entry) -> Result<bool, AllocError>
    requires { IsTrue ((own_of job.now).is_firing firing.now) }
    ensures { IfOk result
        (λ b. IsTrue b ↔ Contains ((own_of job.now).gives firing.now) entry.now) }
{
    if !may_give(job, &firing.activity, entry) {
        return Ok(false);
    }
    match gives(alloc, job, firing) {
        Ok(given) => Ok(has(&given, entry)),
        Err(RuleError::NotAFiring) => unreachable!(),
        Err(RuleError::NoMemory) => Err(AllocError),
    }
}

/// Puts a copy of the firing in its place, if it gives the entry.
fn keep(
    alloc: Global,
    job: &Job,
    entry: &Entry,
    firing: &Firing,
    found: &mut Vec<Firing>,
) -> Result<(), AllocError>
    requires rises { Rises firing_cmp found.old.items }
    requires firing { IsTrue ((own_of job.now).is_firing firing.now) }
    ensures rises { Rises firing_cmp found.new.items }
    ensures ok { OnOk result
        (Gains found.old.items (IsKept job.now entry.now firing.now) found.new.items) }
{
    let given = does_give(alloc, job, firing, entry)?;
    if !given {
        return Ok(());
    }
    let copy = firing.copy(alloc)?;
    place_in(found, copy)?;
    Ok(())
}

/// Puts copies of those firings in their places that give the entry.
pub(crate) fn keep_all(
    alloc: Global,
    job: &Job,
    entry: &Entry,
    firings: &[Firing],
    found: &mut Vec<Firing>,
) -> Result<(), AllocError>
    requires rises { Rises firing_cmp found.old.items }
    requires firings { (f : Firing) → Contains firings.now f
        → IsTrue ((own_of job.now).is_firing f) }
    ensures rises { Rises firing_cmp found.new.items }
    ensures ok { OnOk result
        (Gains found.old.items (SomeOf firings.now (IsKept job.now entry.now)) found.new.items) }
{
    for firing in firings {
        keep(alloc, job, entry, firing, found)?;
    }
    Ok(())
}

/// The firings of the job whose needs are among the entries, and that give the entry, in order and
/// each once.
fn causes_among(
    alloc: Global,
    job: &Job,
    entries: &[Entry],
    entry: &Entry,
) -> Result<Vec<Firing>, AllocError>
    ensures { IfOk result
        (λ v. IsListOf firing_cmp (IsCause job.now entries.now entry.now) v.items) }
{
    let mut matcher = Matcher::new(alloc);
    let mut found = Vec::new(alloc);
    for held in entries {
        if !matters(job, entry, held) {
            continue;
        }
        let woken = matcher.enter(job, held)?;
        keep_all(alloc, job, entry, &woken, &mut found)?;
    }
    Ok(found)
}

/// What can give the entry. Nothing gives the start token of a job, so for it there are none.
///
/// Promise causes: exactly the firings of the job are returned that give the entry and whose needs lie in the
/// history, in order, each once.
///
/// # Errors
/// `NotHeld` exactly where the entry is not in the history. `NoMemory` where there is no memory.
pub fn causes(
    alloc: Global,
    job: &Job,
    history: &History,
    entry: &Entry,
) -> Result<Vec<Firing>, TraceError>
    ensures ok { IfOk result
        (λ v. IsListOf firing_cmp (IsCause job.now history.now entry.now) v.items) }
    ensures refused { result ≡ Err errors.NotHeld ↔ (Contains history.now entry.now → ⊥) }
{
    if !history.contains(entry) {
        return Err(TraceError::NotHeld);
    }
    let entries = history.unordered_entries()?;
    let found = causes_among(alloc, job, &entries, entry)?;
    Ok(found)
}
