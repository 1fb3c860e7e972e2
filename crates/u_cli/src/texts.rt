//! The commands over the texts of a program and an argument, with a writer: for callers who have bytes and no files.
//!
//! Each makes a job of the texts, asks one thing of it and writes what is told.
ghost use Rattle.std.specs.Prelude.{◌≤◌, [], MatchResult};
ghost use Rattle.u_name.specs.Context.{IsBetween};
ghost use Rattle.u_commands.specs.Outputs.{TextAnswer};
ghost use Rattle.u_commands.specs.Traces.{Traces, NotTraced};
ghost use Rattle.u_cli.specs.Texts.{TellsCheck, CheckNotTold, TellsRun, RunNotTold, TellsSave, TellsTrace, TraceNotTold};
ghost use Rattle.u_cli.specs.Texts.{TellsRestore, RestoreNotTold, TellsWorldOf, WorldNotTold, TellsFleetOf, FleetNotTold};

use crate::fleets::fleet;
use crate::worlds::{WorldPlan, world};
use std::alloc::Global;
use std::io::Write;
use std::sync::Wait;
use std::thread::Threads;
use u_check::Job;
use u_commands::{
    Asked, CommandError, Task, Told, Unwatched, check, checked_of, finish, job_of, restore, run,
    save, trace,
};

/// What `check` tells of the texts.
#[tactic(auto, using(crate::proofs::AskingLaws::both))]
fn check_told(alloc: Global, program: &[u8], asked: Asked) -> Result<Told, CommandError>
    ensures { MatchResult result
        (λ t. TellsCheck program.now asked t.text.items t.status)
        (CheckNotTold program.now) }
{
    match checked_of(alloc, program) {
        Ok(checked) => check(alloc, &checked, asked),
        Err(fault) => Err(fault),
    }
}

/// Writes what `check` tells of the program with this text. Returns the exit status.
///
/// Promise check-text: it is told exactly of the text of a program that breaks no rule.
///
/// # Errors
/// A fault of the program's text or of the checker, in that order, or want of memory: nothing is written.
/// `NotWritten`: a prefix is written.
#[tactic(auto, using(crate::proofs::TextLaws::answers))]
pub fn check_text<W: Write>(
    alloc: Global,
    program: &[u8],
    asked: Asked,
    writer: &mut W,
) -> Result<u8, CommandError>
    ensures { TextAnswer
        (TellsCheck program.now asked)
        (CheckNotTold program.now)
        (W.contents writer.old) result (W.contents writer.new) }
{
    finish(check_told(alloc, program, asked), writer)
}

/// What `run` tells of the texts.
#[tactic(auto, using(crate::proofs::AskingLaws::both))]
fn run_told(
    alloc: Global,
    program: &[u8],
    argument: &[u8],
    firings: usize,
) -> Result<Told, CommandError>
    requires { firings ≤ 1000000 }
    ensures { MatchResult result
        (λ t. TellsRun program.now argument.now firings t.text.items t.status)
        (RunNotTold program.now argument.now) }
{
    match job_of(alloc, program, argument) {
        Ok(job) => run(alloc, &job, firings, &mut Unwatched),
        Err(fault) => Err(fault),
    }
}

/// Writes what `run` tells of the program with this text on the argument that the word gives, with so many firings at
/// most. Returns the exit status.
///
/// Promise run-refuses: a text is refused only for the fault that it has, and only if the texts before it are
/// right.
///
/// # Errors
/// A fault of the program's text, of the checker or of the argument, in that order, or want of memory: nothing is
/// written. `NotWritten`: a prefix is written.
#[tactic(auto, using(crate::proofs::TextLaws::answers))]
pub fn run_text<W: Write>(
    alloc: Global,
    program: &[u8],
    argument: &[u8],
    firings: usize,
    writer: &mut W,
) -> Result<u8, CommandError>
    requires { firings ≤ 1000000 }
    ensures { TextAnswer
        (TellsRun program.now argument.now firings)
        (RunNotTold program.now argument.now)
        (W.contents writer.old) result (W.contents writer.new) }
{
    finish(run_told(alloc, program, argument, firings), writer)
}

/// What `save` tells of the texts.
#[tactic(auto, using(crate::proofs::AskingLaws::both))]
fn save_told(
    alloc: Global,
    program: &[u8],
    argument: &[u8],
    firings: usize,
) -> Result<Told, CommandError>
    requires { firings ≤ 1000000 }
    ensures { MatchResult result
        (λ t. TellsSave program.now argument.now firings t.text.items t.status)
        (RunNotTold program.now argument.now) }
{
    match job_of(alloc, program, argument) {
        Ok(job) => save(alloc, &job, firings, &mut Unwatched),
        Err(fault) => Err(fault),
    }
}

/// Writes what `save` tells, as `run_text` does.
///
/// # Errors
/// As `run_text`.
#[tactic(auto, using(crate::proofs::TextLaws::answers))]
pub fn save_text<W: Write>(
    alloc: Global,
    program: &[u8],
    argument: &[u8],
    firings: usize,
    writer: &mut W,
) -> Result<u8, CommandError>
    requires { firings ≤ 1000000 }
    ensures { TextAnswer
        (TellsSave program.now argument.now firings)
        (RunNotTold program.now argument.now)
        (W.contents writer.old) result (W.contents writer.new) }
{
    finish(save_told(alloc, program, argument, firings), writer)
}

/// What `trace` tells of the job.
fn trace_job(alloc: Global, job: Job, entry: &[u8], firings: usize) -> Result<Told, CommandError>
    requires { firings ≤ 1000000 }
    ensures { MatchResult result
        (λ t. Traces job [] entry.now firings t.text.items t.status)
        (λ fault. NotTraced job entry.now firings fault) }
{
    let origins = Vec::new(alloc);
    let task = Task { job, origins };
    trace(alloc, &task, entry, firings, &mut Unwatched)
}

/// What `trace` tells of the texts.
#[tactic(auto, using(crate::proofs::AskingLaws::both))]
fn trace_told(
    alloc: Global,
    program: &[u8],
    argument: &[u8],
    entry: &[u8],
    firings: usize,
) -> Result<Told, CommandError>
    requires { firings ≤ 1000000 }
    ensures { MatchResult result
        (λ t. TellsTrace program.now argument.now entry.now firings t.text.items t.status)
        (TraceNotTold program.now argument.now entry.now firings) }
{
    match job_of(alloc, program, argument) {
        Ok(job) => trace_job(alloc, job, entry, firings),
        Err(fault) => Err(fault),
    }
}

/// Writes what `trace` tells of the entry with this text, as `run_text` does.
///
/// # Errors
/// As `run_text`, and those of `trace`.
#[tactic(auto, using(crate::proofs::TextLaws::answers))]
pub fn trace_text<W: Write>(
    alloc: Global,
    program: &[u8],
    argument: &[u8],
    entry: &[u8],
    firings: usize,
    writer: &mut W,
) -> Result<u8, CommandError>
    requires { firings ≤ 1000000 }
    ensures { TextAnswer
        (TellsTrace program.now argument.now entry.now firings)
        (TraceNotTold program.now argument.now entry.now firings)
        (W.contents writer.old) result (W.contents writer.new) }
{
    finish(trace_told(alloc, program, argument, entry, firings), writer)
}

/// What `restore` tells of the texts.
#[tactic(auto, using(crate::proofs::AskingLaws::both))]
fn restore_told(
    alloc: Global,
    program: &[u8],
    argument: &[u8],
    checkpoint: &[u8],
    firings: usize,
) -> Result<Told, CommandError>
    ensures { MatchResult result
        (λ t. TellsRestore program.now argument.now checkpoint.now firings t.text.items t.status)
        (RestoreNotTold program.now argument.now checkpoint.now firings) }
{
    match job_of(alloc, program, argument) {
        Ok(job) => restore(alloc, &job, checkpoint, firings, &mut Unwatched),
        Err(fault) => Err(fault),
    }
}

/// Writes what `restore` tells of the checkpoint, as `run_text` does.
///
/// # Errors
/// As `run_text`, and those of `restore`.
#[tactic(auto, using(crate::proofs::TextLaws::answers))]
pub fn restore_text<W: Write>(
    alloc: Global,
    program: &[u8],
    argument: &[u8],
    checkpoint: &[u8],
    firings: usize,
    writer: &mut W,
) -> Result<u8, CommandError>
    ensures { TextAnswer
        (TellsRestore program.now argument.now checkpoint.now firings)
        (RestoreNotTold program.now argument.now checkpoint.now firings)
        (W.contents writer.old) result (W.contents writer.new) }
{
    finish(
        restore_told(alloc, program, argument, checkpoint, firings),
        writer,
    )
}

/// What `world` tells of the texts.
#[tactic(auto, using(crate::proofs::AskingLaws::both))]
fn world_told(
    alloc: Global,
    program: &[u8],
    argument: &[u8],
    plan: WorldPlan<'_>,
) -> Result<Told, CommandError>
    requires { IsBetween 1 plan.replicas 8 }
    ensures { MatchResult result
        (λ t. TellsWorldOf program.now argument.now plan.entry t.text.items t.status)
        (WorldNotTold program.now argument.now plan.entry) }
{
    match job_of(alloc, program, argument) {
        Ok(job) => world(alloc, &job, plan, &mut Unwatched),
        Err(fault) => Err(fault),
    }
}

/// Writes what `world` tells of the plan, as `run_text` does.
///
/// # Errors
/// As `run_text`, and those of `world`.
#[tactic(auto, using(crate::proofs::TextLaws::answers))]
pub fn world_text<W: Write>(
    alloc: Global,
    program: &[u8],
    argument: &[u8],
    plan: WorldPlan<'_>,
    writer: &mut W,
) -> Result<u8, CommandError>
    requires { IsBetween 1 plan.replicas 8 }
    ensures { TextAnswer
        (TellsWorldOf program.now argument.now plan.entry)
        (WorldNotTold program.now argument.now plan.entry)
        (W.contents writer.old) result (W.contents writer.new) }
{
    finish(world_told(alloc, program, argument, plan), writer)
}

/// What `fleet` tells of the texts.
#[tactic(auto, using(crate::proofs::AskingLaws::both))]
fn fleet_told<R: Threads + Wait + Sync>(
    rt: &R,
    alloc: Global,
    program: &[u8],
    argument: &[u8],
    workers: u8,
    rounds: u32,
) -> Result<Told, CommandError>
    requires workers { IsBetween 1 workers 8 }
    requires rounds { rounds ≤ 1000 }
    ensures { MatchResult result
        (λ t. TellsFleetOf program.now argument.now workers rounds t.text.items t.status)
        (FleetNotTold program.now argument.now) }
{
    match job_of(alloc, program, argument) {
        Ok(job) => fleet(rt, alloc, &job, workers, rounds),
        Err(fault) => Err(fault),
    }
}

/// Writes what `fleet` tells, as `run_text` does. It may wait.
///
/// # Errors
/// As `run_text`, and those of `fleet`.
#[tactic(auto, using(crate::proofs::TextLaws::answers))]
pub fn fleet_text<R: Threads + Wait + Sync, W: Write>(
    rt: &R,
    alloc: Global,
    program: &[u8],
    argument: &[u8],
    workers: u8,
    rounds: u32,
    writer: &mut W,
) -> Result<u8, CommandError>
    requires workers { IsBetween 1 workers 8 }
    requires rounds { rounds ≤ 1000 }
    ensures { TextAnswer
        (TellsFleetOf program.now argument.now workers rounds)
        (FleetNotTold program.now argument.now)
        (W.contents writer.old) result (W.contents writer.new) }
{
    finish(
        fleet_told(rt, alloc, program, argument, workers, rounds),
        writer,
    )
}
