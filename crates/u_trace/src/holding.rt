//! What firings hold.
ghost use Rattle.std.specs.Prelude.{IfOk, OnOk, Contains};
ghost use Rattle.u_rule.specs.Rule.{own_of};
ghost use Rattle.u_sets.specs.Members.{IsUnion};
ghost use Rattle.u_base.specs.Firing.{Held, Same};
ghost use Rattle.u_trace.specs.Givers.{AreFirings};
ghost use Rattle.u_trace.specs.Holding.{GainsGiven};

use std::alloc::{AllocError, Global};
use u_check::Job;
use u_history::History;
use u_rule::{Entry, Firing, given_by, start};

/// Puts copies of the entries in.
fn put_entries(held: &mut History, entries: &[Entry]) -> Result<(), AllocError>
    ensures { OnOk result (IsUnion held.old entries.now held.new) }
{
    for entry in entries {
        let _ = held.insert_copy(entry)?;
    }
    Ok(())
}

/// Puts what the firings give in.
fn put_given(
    alloc: Global,
    job: &Job,
    firings: &[Firing],
    held: &mut History,
) -> Result<(), AllocError>
    requires { AreFirings (own_of job.now) firings.now }
    ensures { OnOk result (GainsGiven (own_of job.now) held.old firings.now held.new) }
{
    for firing in firings {
        let given = given_by(alloc, job, firing)?;
        put_entries(held, &given)?;
    }
    Ok(())
}

/// What the firings hold: the start token of the job, and all that they give.
///
/// # Errors
/// `AllocError` where there is no memory.
pub(crate) fn held_by(alloc: Global, job: &Job, firings: &[Firing]) -> Result<History, AllocError>
    requires { AreFirings (own_of job.now) firings.now }
    ensures { IfOk result (λ h. Same (Contains h) (Held (own_of job.now) firings.now)) }
{
    let mut held = History::new(alloc);
    let _ = held.insert(start(job))?;
    put_given(alloc, job, firings, &mut held)?;
    Ok(held)
}
