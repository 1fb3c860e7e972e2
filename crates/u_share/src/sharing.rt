//! One member of a bus.
ghost use Rattle.std.specs.Prelude.{◌≡◌, ◌≤◌, [], length, take, IfOk};
ghost use Rattle.u_share.specs.Headline.{streams, member, ShareAnswer, Agree};
ghost use Rattle.u_share.specs.Calls.{IsBegun, PartAnswer};

use crate::bursting::burst;
use crate::bus::{Bus, Plan};
use crate::ended::Ended;
use crate::fault::ShareFault;
use crate::leading::Lead;
use crate::listening::{Ear, listen};
use crate::splitting::Splitter;
use std::alloc::Global;
use std::io::{Read, Write};
use u_check::Job;
use u_machine::{Machine, Ran};

/// Listens to the bus, and then fires all that is left.
fn take_part<R: Read, W: Write, N: Write>(
    machine: &mut Machine<'_>,
    ear: &mut Ear,
    chunk: &mut [u8],
    bus: &mut Bus<R, W, N>,
    limit: usize,
) -> Result<Ended, ShareFault>
    requires limit { machine.old.limit ≡ limit }
    requires range { limit ≤ 1000000 }
    requires begun { IsBegun ear.old.splitter.begun.items }
    requires first { ear.old.splitter.ended ≡ 0 }
    requires chunk { length chunk.old ≡ 65536 }
    ensures answer { PartAnswer
        (member machine.old ear.old.splitter.begun.items ear.old.splitter.ended)
        (streams (R.remaining bus.old.reader) (W.contents bus.old.writer)
        (N.contents bus.old.notices))
        result
        (member machine.new ear.new.splitter.begun.items ear.new.splitter.ended)
        (streams (R.remaining bus.new.reader) (W.contents bus.new.writer)
        (N.contents bus.new.notices)) }
{
    let ended = listen(machine, ear, chunk, bus)?;
    let ran = burst(ear.alloc, machine, limit + 1, &mut bus.writer)?;
    machine.holds();
    match ran {
        Ran::Quiet => Ok(ended),
        Ran::Paused => unreachable!(),
    }
}

/// Takes part in a run of the job, as a member of the bus: fires, reads what is there, takes the firings of
/// the lines that ended, and again, until nothing is ready or the input ends; and then fires all that is
/// left. Each firing of its own is printed as a line of its text. A line that is not empty and no firing of
/// the job is skipped, and a notice of it is written.
///
/// Promise member-takes: the machine took exactly the firings of the job among the lines of all bytes that
/// were read, and those that it printed.
///
/// Promise member-prints: each firing of its own is printed once, was the least ready one once so many lines
/// were read, no fewer than for those before it, and is one that some run makes.
///
/// Promise member-is-whole: if a machine is returned, nothing is ready in it, and its history is the job's
/// whole one, whatever was read.
///
/// Promise member-tells: exactly the lines that are not empty and no firing of the job are told of, in order,
/// each with its number and its fault; and where the input ended, an open line.
///
/// Promise member-stops: after an error the same is true of what was gone through, and a front of the output
/// is written. If a read failed, that is all that was read, and no open line is told of.
///
/// # Errors
/// `Full` where there is no room for a firing that is ready, or for one that was read. `NotReadable` where
/// a read failed. `NotWritten` where a write failed; then a front of the output is written. `NoMemory`
/// where there is no memory. What was printed before stands, and is true.
#[tactic(auto, using(crate::proofs::Steps::nothing_begun))]
pub fn share<'a, R: Read, W: Write, N: Write>(
    alloc: Global,
    job: &'a Job,
    plan: Plan,
    bus: &mut Bus<R, W, N>,
) -> Result<(Machine<'a>, Ended), ShareFault>
    requires { plan.limit ≤ 1000000 }
    ensures { ShareAnswer job.now plan.limit
        (streams (R.remaining bus.old.reader) (W.contents bus.old.writer)
        (N.contents bus.old.notices))
        result
        (streams (R.remaining bus.new.reader) (W.contents bus.new.writer)
        (N.contents bus.new.notices)) }
{
    let mut chunk = vec![in alloc; 0u8; 65_536]?;
    let mut machine = Machine::new(alloc, job, plan.limit)?;
    let mut ear = Ear {
        alloc,
        splitter: Splitter::new(alloc),
        lead: Lead::new(plan.follows),
        burst: plan.burst,
    };
    let part = take_part(&mut machine, &mut ear, &mut chunk, bus, plan.limit);
    machine.holds();
    match part {
        Ok(ended) => Ok((machine, ended)),
        Err(fault) => Err(fault),
    }
}

/// What holds of two members. Their reports differ by what is parked alone. It does nothing, and callers cite
/// its clause.
///
/// Promise members-agree: two members of one job that ended with nothing ready have the same history and
/// applied as many firings, whatever they read.
pub fn agree(one: &Machine<'_>, other: &Machine<'_>)
    ensures { Agree one.now other.now }
{
    // Brings in what always holds of both.
    one.holds();
    other.holds();
}
