//! The firings of a list that are marked.
ghost use Rattle.std.specs.Prelude.{◌≡◌, ◌<◌, ◌+◌, IfOk, OnOk, length};
ghost use Rattle.u_trace.specs.Stories.{AreThoseAt, Below};
ghost use Rattle.u_trace.specs.Marks.{IsMarked};

use crate::marks::is_marked;
use std::alloc::{AllocError, Global};
use u_rule::Firing;

/// Adds a copy of the firing at that place, if it is marked.
fn pick(
    alloc: Global,
    log: &[Firing],
    marks: &[bool],
    place: usize,
    found: &mut Vec<Firing>,
) -> Result<(), AllocError>
    requires place { place < length log.now }
    requires count { length marks.now ≡ length log.now }
    requires before { AreThoseAt log.now (Below place (IsMarked marks.now)) found.old.items }
    ensures { OnOk result
        (AreThoseAt log.now (Below (place + 1) (IsMarked marks.now)) found.new.items) }
{
    if !is_marked(marks, place) {
        return Ok(());
    }
    let copy = log[place].copy(alloc)?;
    found.push(copy)?;
    Ok(())
}

/// Copies of those firings of the list that are marked, in their order.
///
/// # Errors
/// `AllocError` where there is no memory.
pub(crate) fn picked(
    alloc: Global,
    log: &[Firing],
    marks: &[bool],
) -> Result<Vec<Firing>, AllocError>
    requires { length marks.now ≡ length log.now }
    ensures { IfOk result (λ v. AreThoseAt log.now (IsMarked marks.now) v.items) }
{
    let mut found = Vec::new(alloc);
    for place in 0..log.len() {
        pick(alloc, log, marks, place, &mut found)?;
    }
    Ok(found)
}
