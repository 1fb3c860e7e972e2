//! Taking all that another machine took.
//!
//! Whether there is room is counted first, without memory, since no machine took a firing twice. So want of
//! room is answered before want of memory.
ghost use Rattle.std.specs.Prelude.{◌≡◌, ◌↔◌, IfOk, IsTrue};
ghost use Rattle.u_replica.specs.Merging.{all_of, MergeAnswer};

use crate::answer::MergeRefusal;
use std::alloc::{AllocError, Global};
use u_check::Job;
use u_machine::{ListRefusal, Machine};
use u_rule::Firing;

/// Copies of the firings, in their order.
fn copies(alloc: Global, firings: &[Firing]) -> Result<Vec<Firing>, AllocError>
    ensures { IfOk result (λ fs. fs.items ≡ firings.now) }
{
    let mut all = Vec::with_capacity(alloc, firings.len())?;
    for firing in firings {
        all.push(firing.copy(alloc)?)?;
    }
    Ok(all)
}

/// Copies of all firings that the machine took: the applied ones in their order, then the parked ones.
fn all_taken(alloc: Global, machine: &Machine<'_>) -> Result<Vec<Firing>, AllocError>
    ensures { IfOk result (λ fs. fs.items ≡ all_of machine.now) }
{
    let mut all = copies(alloc, machine.applied())?;
    for parked in machine.parked().iter() {
        all.push(parked.copy(alloc)?)?;
    }
    Ok(all)
}

/// Whether the two jobs are one, with one table: the same program on the same argument, and the same known
/// beforehand of the outside.
fn is_same(left: &Job, right: &Job) -> bool
    ensures { IsTrue result ↔ (right.now ≡ left.now) }
{
    // Brings in that the programs are within their limits.
    let _left = left.program().blocks();
    let _right = right.program().blocks();
    if *right == *left {
        return right.table().is_same(left.table());
    }
    false
}

/// Takes all that the other machine took, which runs the same job. Whether there is room for it is asked
/// before any memory is taken for it.
fn take_other(
    alloc: Global,
    machine: &mut Machine<'_>,
    other: &Machine<'_>,
) -> Result<(), MergeRefusal>
    requires { other.now.job ≡ machine.old.job }
    ensures { MergeAnswer machine.old other.now result machine.new }
{
    // Brings in what always holds of both.
    machine.holds();
    other.holds();
    machine.settle()?;
    if !machine.has_room_for(other) {
        return Err(MergeRefusal::Full);
    }
    let all = all_taken(alloc, other)?;
    let taken = machine.take_all(&all);
    // Brings in what holds after the call.
    machine.holds();
    match taken {
        Ok(()) => Ok(()),
        Err(refusal) => match refusal {
            ListRefusal::NotAFiring(_) => unreachable!(),
            ListRefusal::Full => Err(MergeRefusal::Full),
            ListRefusal::NoMemory => Err(MergeRefusal::NoMemory),
        },
    }
}

/// Takes all that the other machine took, its applied firings in their order and then its parked ones.
pub(crate) fn merge(
    alloc: Global,
    machine: &mut Machine<'_>,
    other: &Machine<'_>,
) -> Result<(), MergeRefusal>
    ensures { MergeAnswer machine.old other.now result machine.new }
{
    if is_same(machine.job(), other.job()) {
        take_other(alloc, machine, other)
    } else {
        Err(MergeRefusal::OtherJob)
    }
}
