//! What a list of firings holds.
ghost use Rattle.std.specs.Prelude.{◌≡◌, ◌↔◌, ◌++◌, Contains, IfOk, OnOk, IsTrue};
ghost use Rattle.u_rule.specs.Rule.{own_of, is_own_of};
ghost use Rattle.u_rule.specs.declared.entry.Entry.{Entry};
ghost use Rattle.u_rule.specs.declared.firing.Firing.{Firing};
ghost use Rattle.u_base.specs.Firing.{Held, Within};

use std::alloc::{AllocError, Global};
use u_check::Job;
use u_rule::{Entry, Firing, gives, is_own, start};

/// Whether each of the list is a firing of the job.
pub fn are_firings(job: &Job, firings: &[Firing]) -> bool
    ensures { IsTrue result ↔ Within (λ f. IsTrue (is_own_of job.now f)) firings.now }
{
    for firing in firings {
        if !is_own(job, firing) {
            return false;
        }
    }
    true
}

/// The entries that a firing of the job gives. Want of memory is the one refusal that comes.
fn given_by(alloc: Global, job: &Job, firing: &Firing) -> Result<Vec<Entry>, AllocError>
    ensures { IfOk result (λ v. v.items ≡ (own_of job.now).gives firing.now) }
{
    match gives(alloc, job, firing) {
        Ok(entries) => Ok(entries),
        Err(_) => Err(AllocError),
    }
}

/// Adds copies of the entries at the end.
fn add_all(all: &mut Vec<Entry>, more: &[Entry]) -> Result<(), AllocError>
    ensures { OnOk result (all.new.items ≡ all.old.items ++ more.now) }
{
    for entry in more {
        all.push(entry.copy()?)?;
    }
    Ok(())
}

/// The entries that the firings of a job hold: the start token, and all that each of them gives. An
/// entry that more than one gives comes more than once.
///
/// # Errors
/// `AllocError` where there is no memory.
pub fn held(alloc: Global, job: &Job, firings: &[Firing]) -> Result<Vec<Entry>, AllocError>
    requires { Within (λ f. IsTrue (is_own_of job.now f)) firings.now }
    ensures { IfOk result
        (λ v. (e : Entry) → Contains v.items e ↔ Held (own_of job.now) firings.now e) }
{
    let mut all = Vec::new(alloc);
    all.push(start(job))?;
    for firing in firings {
        let given = given_by(alloc, job, firing)?;
        add_all(&mut all, &given)?;
    }
    Ok(all)
}
