//! Lines of a checkpoint that are not read: they are those of the firings that the machine fires by itself.
//!
//! A checkpoint of a run has its firings in the order in which one machine fired them. So a machine that
//! fires knows which firing the next line has, and compares the line with it. Where a line is another one,
//! it is read, and those behind it too.
//!
//! Contracts let bodies through that fire none of these lines: then all of them are read. The firings that are
//! taken are the same, and only what it costs changes.
ghost use Rattle.std.specs.Prelude.{◌≡◌, ◌<◌, ◌≤◌, IfOk, OnOk, MatchOption, length};
ghost use Rattle.u_machine.specs.State.{IsSettled};
ghost use Rattle.u_machine.specs.Calls.{IsFresh, Runs};
ghost use Rattle.u_replica.specs.FiredLines.{AreFired, FiresLine};

use crate::onlooker::Onlooker;
use crate::spelled_context::SpelledContext;
use crate::taking::PIECE;
use std::alloc::{AllocError, Global};
use u_delta::{Ahead, in_range, look_ahead};
use u_machine::{Machine, Refusal, Step};

/// Fires the firing of the line at the front, if the machine fires that one next. Returns what stands behind
/// the line then.
fn fire_line<'a>(
    machine: &mut Machine<'_>,
    spelled: &mut SpelledContext,
    bytes: &'a [u8],
) -> Result<Option<&'a [u8]>, AllocError>
    requires { IsSettled machine.old }
    ensures fires { IfOk result (λ found. MatchOption found
        (machine.new ≡ machine.old)
        (λ rest. FiresLine machine.old bytes.now rest.now machine.new)) }
    ensures shorter { IfOk result (λ found. MatchOption found (0 ≤ 0)
        (λ rest. length rest.now < length bytes.now)) }
{
    let Ahead::Line(line, others) = look_ahead(bytes) else {
        return Ok(None);
    };
    let Some(firing) = machine.next_ready() else {
        return Ok(None);
    };
    in_range(firing);
    let is_there = spelled.is_text(firing, line)?;
    if !is_there {
        return Ok(None);
    }
    match machine.fire(0) {
        Ok(Step::Fired(_)) => Ok(Some(others)),
        Ok(Step::Quiet) => Ok(None),
        Err(Refusal::Full) => Ok(None),
        Err(Refusal::NoMemory) => Err(AllocError),
    }
}

/// Fires the firings whose lines stand at the front of the bytes, as long as each is the one that the machine
/// fires next. Returns what stands behind these lines. The onlooker is shown the machine between pieces.
///
/// # Errors
/// `AllocError` where there is no memory; then some of them may be fired.
pub(crate) fn fire_lines<'a, S: Onlooker>(
    alloc: Global,
    machine: &mut Machine<'_>,
    bytes: &'a [u8],
    onlooker: &mut S,
) -> Result<&'a [u8], AllocError>
    requires fresh { IsFresh machine.old }
    requires settled { IsSettled machine.old }
    ensures lines { IfOk result (λ rest. AreFired bytes.now rest.now machine.new.log) }
    ensures runs { OnOk result (Runs machine.old machine.new.log machine.new) }
    ensures settled { OnOk result (IsSettled machine.new) }
{
    let mut spelled = SpelledContext::root(alloc)?;
    let mut rest = bytes;
    loop {
        match fire_line(machine, &mut spelled, rest)? {
            Some(others) => rest = others,
            None => return Ok(rest),
        }
        if machine.applied().len() % PIECE == 0 {
            onlooker.see(machine);
        }
    }
}
