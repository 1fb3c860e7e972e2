//! Firings that a member fires and prints.
ghost use Rattle.std.specs.Prelude.{◌≡◌, ◌++◌, [], OnOk, OnErr, IfOk, slice_get, Some, MatchResult};
ghost use Rattle.u_rule.specs.declared.firing.Firing.{Firing};
ghost use Rattle.u_share.specs.Calls.{Tells, line_of, FireNextAnswer, PutAnswer, BurstWith, BurstAnswer};

use crate::fault::ShareFault;
use crate::output::write_out;
use std::alloc::{AllocError, Global};
use std::io::Write;
use u_machine::{Machine, Ran, Refusal, Step};
use u_rule::Firing;

/// The greatest number of bytes that are written at once, save for a longer line. A pipe takes so many
/// whole or not at all.
pub(crate) const PIECE: usize = 4096;

/// The line is the firing's.
fn write_line(firing: &Firing, line: &mut Vec<u8>) -> Result<(), AllocError>
    ensures { OnOk result (line.new.items ≡ line_of firing.now) }
{
    line.clear();
    firing.write_text(line)?;
    line.push(b'\n')?;
    Ok(())
}

/// The line of the applied firing at that place.
fn line_at(machine: &Machine<'_>, place: usize, line: &mut Vec<u8>) -> Result<(), AllocError>
    ensures { OnOk result ((f : Firing) × (slice_get machine.now.log place ≡ Some f)
        × (line.new.items ≡ line_of f)) }
{
    match machine.applied().get(place) {
        Some(firing) => write_line(firing, line),
        None => Err(AllocError),
    }
}

/// Fires the least ready firing, whose line it writes. Answers whether there is one.
fn fire_next(machine: &mut Machine<'_>, line: &mut Vec<u8>) -> Result<bool, ShareFault>
    ensures { FireNextAnswer machine.old result machine.new line.new.items }
{
    match machine.fire(0) {
        Ok(Step::Quiet) => Ok(false),
        Ok(Step::Fired(place)) => {
            line_at(machine, place, line)?;
            Ok(true)
        }
        Err(Refusal::Full) => Err(ShareFault::Full),
        Err(Refusal::NoMemory) => Err(ShareFault::NoMemory),
    }
}

/// Puts the line to the end of the piece. What no longer fits beside it is written before.
fn put_line<W: Write>(writer: &mut W, piece: &mut Vec<u8>, line: &[u8]) -> Result<(), ShareFault>
    ensures { PutAnswer (W.contents writer.old) (piece.old.items ++ line.now) result
        (W.contents writer.new) piece.new.items }
{
    if PIECE.saturating_sub(piece.len()) < line.len() {
        match write_out(writer, piece) {
            Ok(()) => piece.clear(),
            Err(_) => return Err(ShareFault::NotWritten),
        }
    }
    piece.extend_from_slice(line)?;
    Ok(())
}

/// Fires so many times at most. The lines are written, but for those that the piece has then.
fn fire_into<W: Write>(
    alloc: Global,
    machine: &mut Machine<'_>,
    times: usize,
    writer: &mut W,
    piece: &mut Vec<u8>,
) -> Result<Ran, ShareFault>
    requires { piece.old.items ≡ [] }
    ensures { BurstWith piece.new.items machine.old times (W.contents writer.old) result
        machine.new (W.contents writer.new) }
{
    let mut line = Vec::new(alloc);
    for made in 0..times {
        if !fire_next(machine, &mut line)? {
            return Ok(Ran::Quiet);
        }
        put_line(writer, piece, &line)?;
    }
    Ok(Ran::Paused)
}

/// Writes the last piece.
fn write_last<W: Write>(writer: &mut W, piece: &[u8]) -> Result<(), ShareFault>
    ensures { Tells (W.contents writer.old) piece.now result (W.contents writer.new) }
{
    match write_out(writer, piece) {
        Ok(()) => {}
        Err(_) => return Err(ShareFault::NotWritten),
    }
    match writer.flush() {
        Ok(()) => Ok(()),
        Err(_) => Err(ShareFault::NotWritten),
    }
}

/// Fires so many times at most, the least ready firing each time, and writes what was fired, in order.
/// What was fired before there was no room is written too.
pub(crate) fn burst<W: Write>(
    alloc: Global,
    machine: &mut Machine<'_>,
    times: usize,
    writer: &mut W,
) -> Result<Ran, ShareFault>
    ensures { BurstAnswer machine.old times (W.contents writer.old) result machine.new
        (W.contents writer.new) }
{
    let mut piece = Vec::new(alloc);
    match fire_into(alloc, machine, times, writer, &mut piece) {
        Ok(ran) => {
            write_last(writer, &piece)?;
            Ok(ran)
        }
        Err(ShareFault::Full) => {
            write_last(writer, &piece)?;
            Err(ShareFault::Full)
        }
        Err(fault) => Err(fault),
    }
}
