//! What one line does.
ghost use Rattle.u_share.specs.Calls.{FiringAnswer, LineAnswer, TakeLineAnswer};

use crate::fault::ShareFault;
use crate::line_fault::LineFault;
use crate::splitting::LONGEST;
use crate::telling::tell;
use std::alloc::Global;
use std::io::Write;
use u_machine::{Machine, TakeRefusal};
use u_rule::{Firing, TextError};

/// Takes the firing, or says that it is none of the job.
fn take_firing(machine: &mut Machine<'_>, firing: &Firing) -> Result<Option<LineFault>, ShareFault>
    ensures { FiringAnswer machine.old firing.now result machine.new }
{
    // Brings in that what was taken is of the job.
    machine.holds();
    match machine.take(firing) {
        Ok(_) => Ok(None),
        Err(TakeRefusal::NotAFiring) => Ok(Some(LineFault::NotOfThisJob)),
        Err(TakeRefusal::Full) => Err(ShareFault::Full),
        Err(TakeRefusal::NoMemory) => Err(ShareFault::NoMemory),
    }
}

/// Takes the firing whose text the line is, if it is one of the job. An empty line is no fault.
fn look_at(
    alloc: Global,
    machine: &mut Machine<'_>,
    line: &[u8],
) -> Result<Option<LineFault>, ShareFault>
    ensures { LineAnswer machine.old line.now result machine.new }
{
    if line.is_empty() {
        return Ok(None);
    }
    if line.len() > LONGEST {
        return Ok(Some(LineFault::TooLong));
    }
    match Firing::read(alloc, line) {
        Ok(firing) => take_firing(machine, &firing),
        Err(TextError::BadText(_)) => Ok(Some(LineFault::NotAllowed)),
        Err(TextError::NoMemory) => Err(ShareFault::NoMemory),
    }
}

/// Takes the firing whose text the line is, or writes a notice of the line, which has that number.
pub(crate) fn take_line<N: Write>(
    alloc: Global,
    machine: &mut Machine<'_>,
    line: &[u8],
    number: u64,
    notices: &mut N,
) -> Result<(), ShareFault>
    ensures { TakeLineAnswer machine.old line.now number (N.contents notices.old) result
        machine.new (N.contents notices.new) }
{
    match look_at(alloc, machine, line)? {
        None => Ok(()),
        Some(fault) => tell(alloc, number, fault, notices),
    }
}
