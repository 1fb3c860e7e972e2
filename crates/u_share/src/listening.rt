//! The turns of a member: it fires, reads what is there, and takes the lines.
//!
//! All is done in one thread, so what a member read and printed is said of its reader and its writer.
ghost use Rattle.std.specs.Prelude.{◌≡◌, ◌≤◌, ◌<◌, ◌+◌, ◌-◌, ◌^◌, OnOk, length};
ghost use Rattle.u_share.specs.Lines.{open_notice};
ghost use Rattle.u_share.specs.Headline.{streams, member};
ghost use Rattle.u_share.specs.Calls.{IsBegun, Tells, HearAnswer, LeadAnswer, QuietAnswer, ReadAnswer, HeardAnswer, TurnAnswer, ListenAnswer};

use crate::bursting::burst;
use crate::bus::Bus;
use crate::ended::Ended;
use crate::fault::ShareFault;
use crate::hearing::hear;
use crate::leading::Lead;
use crate::line_fault::LineFault;
use crate::splitting::Splitter;
use crate::telling::tell;
use std::alloc::Global;
use std::io::{Read, Write};
use u_machine::{Machine, Ran, Refusal};

/// How many reads there are at most.
const READS: u64 = 1 << 47;

/// What a member keeps beside its machine.
#[derive(Drop)]
pub(crate) struct Ear {
    pub alloc: Global,
    pub splitter: Splitter,
    pub lead: Lead,
    pub burst: usize,
}

/// Whether nothing is ready.
fn is_quiet(machine: &mut Machine<'_>) -> Result<bool, ShareFault>
    ensures { QuietAnswer machine.old result machine.new }
{
    match machine.run(0) {
        Ok(Ran::Quiet) => Ok(true),
        Ok(Ran::Paused) => Ok(false),
        Err(Refusal::Full) => unreachable!(),
        Err(Refusal::NoMemory) => Err(ShareFault::NoMemory),
    }
}

/// Reads once, what is there. Answers how many bytes.
fn read_once<R: Read>(reader: &mut R, chunk: &mut [u8]) -> Result<usize, ShareFault>
    requires { length chunk.old ≡ 65536 }
    ensures { ReadAnswer (R.remaining reader.old) result chunk.new (R.remaining reader.new) }
{
    match reader.read(chunk) {
        Ok(count) => Ok(count),
        Err(_) => Err(ShareFault::NotReadable),
    }
}

/// A notice of the open line, if it has any byte.
fn tell_of_open<N: Write>(
    alloc: Global,
    splitter: &Splitter,
    notices: &mut N,
) -> Result<(), ShareFault>
    requires { splitter.now.ended < 2 ^ 64 - 1 }
    ensures { Tells (N.contents notices.old)
        (open_notice splitter.now.begun.items splitter.now.ended) result (N.contents notices.new) }
{
    if splitter.begun.is_empty() {
        return Ok(());
    }
    tell(alloc, splitter.ended + 1, LineFault::CutShort, notices)
}

/// Takes the lines that end within the bytes, and sees whether the member leads from now on.
fn hear_and_lead<N: Write>(
    machine: &mut Machine<'_>,
    ear: &mut Ear,
    bytes: &[u8],
    notices: &mut N,
) -> Result<(), ShareFault>
    requires begun { IsBegun ear.old.splitter.begun.items }
    requires room { ear.old.splitter.ended + length bytes.now < 2 ^ 64 }
    ensures answer { HearAnswer
        (member machine.old ear.old.splitter.begun.items ear.old.splitter.ended)
        bytes.now (N.contents notices.old) result
        (member machine.new ear.new.splitter.begun.items ear.new.splitter.ended)
        (N.contents notices.new) }
    ensures ended { OnOk result
        (ear.new.splitter.ended ≤ ear.old.splitter.ended + length bytes.now) }
{
    let before = machine.applied().len();
    let has_empty = hear(ear.alloc, machine, &mut ear.splitter, bytes, notices)?;
    let has_grown = machine.applied().len() != before;
    ear.lead.hear(has_grown, has_empty);
    Ok(())
}

/// Fires, if the member leads.
fn fire_if_leading<W: Write>(
    machine: &mut Machine<'_>,
    ear: &Ear,
    writer: &mut W,
) -> Result<(), ShareFault>
    ensures { LeadAnswer machine.old (W.contents writer.old) result machine.new
        (W.contents writer.new) }
{
    if ear.lead.leads {
        burst(ear.alloc, machine, ear.burst, writer)?;
    }
    Ok(())
}

/// Reads once, and takes the lines that end within what was read. Where there was nothing to read, a
/// notice of the open line is written. Answers whether the input ended.
fn read_and_hear<R: Read, N: Write>(
    machine: &mut Machine<'_>,
    ear: &mut Ear,
    chunk: &mut [u8],
    reader: &mut R,
    notices: &mut N,
) -> Result<bool, ShareFault>
    requires begun { IsBegun ear.old.splitter.begun.items }
    requires room { ear.old.splitter.ended + 65536 < 2 ^ 64 }
    requires chunk { length chunk.old ≡ 65536 }
    ensures answer { HeardAnswer
        (member machine.old ear.old.splitter.begun.items ear.old.splitter.ended)
        (R.remaining reader.old) (N.contents notices.old) result
        (member machine.new ear.new.splitter.begun.items ear.new.splitter.ended)
        (R.remaining reader.new) (N.contents notices.new) }
    ensures ended { OnOk result
        (ear.new.splitter.ended ≤ ear.old.splitter.ended + 65536) }
{
    let count = read_once(reader, chunk)?;
    if count == 0 {
        tell_of_open(ear.alloc, &ear.splitter, notices)?;
        return Ok(true);
    }
    hear_and_lead(machine, ear, &chunk[..count], notices)?;
    Ok(false)
}

/// Fires, if the member leads; reads, unless nothing is ready; and takes the lines.
fn turn<R: Read, W: Write, N: Write>(
    machine: &mut Machine<'_>,
    ear: &mut Ear,
    chunk: &mut [u8],
    bus: &mut Bus<R, W, N>,
) -> Result<Option<Ended>, ShareFault>
    requires begun { IsBegun ear.old.splitter.begun.items }
    requires room { ear.old.splitter.ended + 65536 < 2 ^ 64 }
    requires chunk { length chunk.old ≡ 65536 }
    ensures answer { TurnAnswer
        (member machine.old ear.old.splitter.begun.items ear.old.splitter.ended)
        (streams (R.remaining bus.old.reader) (W.contents bus.old.writer)
        (N.contents bus.old.notices))
        result
        (member machine.new ear.new.splitter.begun.items ear.new.splitter.ended)
        (streams (R.remaining bus.new.reader) (W.contents bus.new.writer)
        (N.contents bus.new.notices)) }
    ensures ended { OnOk result
        (ear.new.splitter.ended ≤ ear.old.splitter.ended + 65536) }
{
    fire_if_leading(machine, ear, &mut bus.writer)?;
    if is_quiet(machine)? {
        return Ok(Some(Ended::Quiet));
    }
    if read_and_hear(machine, ear, chunk, &mut bus.reader, &mut bus.notices)? {
        return Ok(Some(Ended::Input));
    }
    Ok(None)
}

/// Takes turns until nothing is ready or the input ends.
pub(crate) fn listen<R: Read, W: Write, N: Write>(
    machine: &mut Machine<'_>,
    ear: &mut Ear,
    chunk: &mut [u8],
    bus: &mut Bus<R, W, N>,
) -> Result<Ended, ShareFault>
    requires begun { IsBegun ear.old.splitter.begun.items }
    requires first { ear.old.splitter.ended ≡ 0 }
    requires chunk { length chunk.old ≡ 65536 }
    ensures answer { ListenAnswer
        (member machine.old ear.old.splitter.begun.items ear.old.splitter.ended)
        (streams (R.remaining bus.old.reader) (W.contents bus.old.writer)
        (N.contents bus.old.notices))
        result
        (member machine.new ear.new.splitter.begun.items ear.new.splitter.ended)
        (streams (R.remaining bus.new.reader) (W.contents bus.new.writer)
        (N.contents bus.new.notices)) }
{
    for made in 0..READS {
        if let Some(ended) = turn(machine, ear, chunk, bus)? {
            return Ok(ended);
        }
    }
    Err(ShareFault::NotReadable)
}
