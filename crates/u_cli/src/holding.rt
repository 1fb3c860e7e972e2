//! The entries that some firings hold.
ghost use Rattle.std.specs.Prelude.{◌≡◌, ◌↔◌, ◌⊎◌, Contains, IfOk, OnOk, IsTrue};
ghost use Rattle.u_base.specs.Firing.{Held, Within};
ghost use Rattle.u_sets.specs.Members.{IsWith};
ghost use Rattle.u_sets.specs.Rising.{IsListOf};
ghost use Rattle.u_rule.specs.EntryOrder.{entry_cmp};
ghost use Rattle.u_rule.specs.Rule.{is_own_of, own_of};
ghost use Rattle.u_rule.specs.declared.entry.Entry.{Entry};

use std::alloc::{AllocError, Global};
use u_check::Job;
use u_history::History;
use u_rule::{Entry, Firing, given_by, start};

/// Puts the entry in.
fn put(history: &mut History, entry: Entry) -> Result<(), AllocError>
    ensures { OnOk result (IsWith history.old entry history.new) }
{
    match history.insert(entry) {
        Ok(_) => Ok(()),
        Err(_) => Err(AllocError),
    }
}

/// Puts copies of the entries in.
fn put_all(history: &mut History, entries: &[Entry]) -> Result<(), AllocError>
    ensures { OnOk result ((e : Entry) → Contains history.new e
        ↔ (Contains history.old e ⊎ Contains entries.now e)) }
{
    for entry in entries {
        put(history, entry.copy()?)?;
    }
    Ok(())
}

/// Puts in what the firing gives.
#[tactic(auto, using(u_rule::proofs::Firings::own_is_firing))]
fn put_given(
    alloc: Global,
    history: &mut History,
    job: &Job,
    firing: &Firing,
) -> Result<(), AllocError>
    requires { IsTrue (is_own_of job.now firing.now) }
    ensures { OnOk result ((e : Entry) → Contains history.new e
        ↔ (Contains history.old e ⊎ Contains ((own_of job.now).gives firing.now) e)) }
{
    let given = given_by(alloc, job, firing)?;
    put_all(history, &given)
}

/// The entries that the firings of a job hold, in order: the start token, and all that each of them gives.
pub fn held(alloc: Global, job: &Job, firings: &[Firing]) -> Result<Vec<Entry>, AllocError>
    requires { Within (λ f. IsTrue (is_own_of job.now f)) firings.now }
    ensures { IfOk result
        (λ v. IsListOf entry_cmp (Held (own_of job.now) firings.now) v.items) }
{
    let mut history = History::new(alloc);
    put(&mut history, start(job))?;
    for firing in firings {
        put_given(alloc, &mut history, job, firing)?;
    }
    history.entries()
}
