//! An outlet is made with its inlets.
//!
//! If there are too few places for readers, the outlet is returned beside the error, to be closed: closing
//! may wait, so an outlet is not `Drop`.
ghost use Rattle.std.specs.Prelude.{◌≡◌, [], All, IsTrue, IfOk, vec_len};
ghost use Rattle.u_name.specs.Context.{IsBetween};
ghost use Rattle.u_outlet.specs.Ends.{published, pending, seen_by};

use crate::answer::NoReader;
use crate::ends::{Inlet, Outlet};
use crate::named::Named;
use std::alloc::{AllocError, Global};
use u_check::Job;

/// So many inlets of the outlet, into an empty list that has room for them. It returns whether there
/// was a place for each.
fn fill<J: Named>(outlet: &Outlet<J>, inlets: &mut Vec<Inlet<J>>, readers: usize) -> bool
    requires { inlets.old.items ≡ [] }
    ensures len { IsTrue result → vec_len inlets.new ≡ readers }
    ensures unseen { All (λ i. seen_by i ≡ []) inlets.new.items }
{
    for _ in 0..readers {
        let Some(inlet) = outlet.inlet() else {
            return false;
        };
        if inlets.push(inlet).is_err() {
            return false;
        }
    }
    true
}

/// An outlet for firings of the job, and so many inlets, 1 to 8. The outlet has room for as many notices
/// besides. Where it has no place for one of the inlets, it comes beside `NoReader`, to be closed.
///
/// Promise new-outlet: nothing is published or pending, and there are as many inlets as were asked for, which
/// have seen nothing.
///
/// # Errors
/// `AllocError` where there is no memory; nothing is left open.
pub fn outlet<J: Named>(
    alloc: Global,
    job: &Job,
    readers: usize,
) -> Result<(Outlet<J>, Result<Vec<Inlet<J>>, NoReader>), AllocError>
    requires job { J.job ≡ job.now }
    requires readers { IsBetween 1 readers 8 }
    ensures outlet { IfOk result (λ r. (published r.0 ≡ []) × (pending r.0 ≡ [])) }
    ensures len { IfOk result (λ r. IfOk r.1 (λ inlets. vec_len inlets ≡ readers)) }
    ensures unseen { IfOk result
        (λ r. IfOk r.1 (λ inlets. All (λ i. seen_by i ≡ []) inlets.items)) }
{
    let mut inlets = Vec::with_capacity(alloc, readers)?;
    let outlet = Outlet::<J>::new(alloc, 2 * readers)?;
    if fill(&outlet, &mut inlets, readers) {
        Ok((outlet, Ok(inlets)))
    } else {
        Ok((outlet, Err(NoReader)))
    }
}
