//! What is asked of a file and of a job, and what is told.
//!
//! Each command that prints what it tells is one arm here. `tell_texts` goes the whole way, from the bytes of the files
//! and the words of the command line to what is told.
ghost use Rattle.std.specs.Prelude.{MatchResult};
ghost use Rattle.u_name.specs.Context.{IsBetween};
ghost use Rattle.u_cli.specs.Asking.{TellsCheck, TellsLift, TellsDraw, ProgramNotTold, TellsOfFile, FileRefused};
ghost use Rattle.u_cli.specs.Asking.{IsPlanOf, TellsPlan, PlanNotTold, TellsOfWorld, WorldNotTold};
ghost use Rattle.u_cli.specs.Asking.{JobAllowed, TellsOfJob, JobNotTold, OfTask, TextsRefused};

use crate::drawing::{draw_program, draw_story};
use crate::drawing_worlds::draw_world;
use crate::worlds::{Events, WorldPlan, world};
use std::alloc::Global;
use u_check::Job;
use u_commands::{
    Asked, CommandError, Input, Task, Told, Watch, blame, check, compile, explain, lift, restore,
    run, save, trace, waits,
};
use u_words::{FileRequest, JobRequest, WorldRequest};

/// What `check` tells of a file.
#[tactic(auto, using(crate::proofs::AskingLaws::both))]
fn tell_check(alloc: Global, path: &str, bytes: &[u8], asked: Asked) -> Result<Told, CommandError>
    ensures { MatchResult result
        (λ t. TellsCheck path.now bytes.now asked t.text.items t.status)
        (λ fault. ProgramNotTold path.now bytes.now fault) }
{
    match Input::read(alloc, path, bytes) {
        Ok(input) => check(alloc, &input.checked, asked),
        Err(fault) => Err(fault),
    }
}

/// What `lift` tells of a file.
#[tactic(auto, using(crate::proofs::AskingLaws::both))]
fn tell_lift(alloc: Global, path: &str, bytes: &[u8]) -> Result<Told, CommandError>
    ensures { MatchResult result
        (λ t. TellsLift path.now bytes.now t.text.items t.status)
        (λ fault. ProgramNotTold path.now bytes.now fault) }
{
    match Input::read(alloc, path, bytes) {
        Ok(input) => lift(alloc, input.checked),
        Err(fault) => Err(fault),
    }
}

/// What `draw` tells of a file.
#[tactic(auto, using(crate::proofs::AskingLaws::both))]
fn tell_draw(alloc: Global, path: &str, bytes: &[u8]) -> Result<Told, CommandError>
    ensures { MatchResult result
        (λ t. TellsDraw path.now bytes.now t.text.items t.status)
        (λ fault. ProgramNotTold path.now bytes.now fault) }
{
    match Input::read(alloc, path, bytes) {
        Ok(input) => draw_program(alloc, &input),
        Err(fault) => Err(fault),
    }
}

/// What is asked of the file with that path and these bytes. `check`, `lift` and `draw` tell of the program that the
/// file stands for; `compile` takes any file for a source.
///
/// Promise asked-of-a-file: what is told is what the asked command tells of the program that the file stands for.
///
/// # Errors
/// A file that stands for no program, but for `explain`, which tells why; `NoMemory`.
#[tactic(auto, using(crate::proofs::AskingLaws::both))]
pub fn tell_file(
    alloc: Global,
    path: &str,
    bytes: &[u8],
    ask: FileRequest,
) -> Result<Told, CommandError>
    ensures { MatchResult result
        (λ t. TellsOfFile path.now bytes.now ask t.text.items t.status)
        (λ fault. FileRefused path.now bytes.now ask fault) }
{
    match ask {
        FileRequest::Check {
            strict,
            determinate,
        } => {
            let asked = Asked {
                strict,
                determinate,
            };
            tell_check(alloc, path, bytes, asked)
        }
        FileRequest::Explain { strict } => explain(alloc, path, bytes, strict),
        FileRequest::Lift => tell_lift(alloc, path, bytes),
        FileRequest::Compile { map } => compile(alloc, bytes, map),
        FileRequest::Draw => tell_draw(alloc, path, bytes),
    }
}

/// What happens in the world that is asked for. If its events are not random, the script is `other`.
fn plan_of<'a>(ask: WorldRequest<'_>, other: &'a [u8]) -> WorldPlan<'a>
    ensures { IsPlanOf ask.entry other.now result }
{
    let events = match ask.script {
        Some(_) => Events::Script(other),
        None => Events::Random {
            seed: ask.seed,
            count: ask.events,
        },
    };
    WorldPlan {
        replicas: ask.replicas,
        events,
        firings: ask.firings,
    }
}

/// What is told of a world of the job, its picture if that is asked for.
fn tell_plan<V: Watch>(
    alloc: Global,
    job: &Job,
    plan: WorldPlan<'_>,
    draw: bool,
    watch: &mut V,
) -> Result<Told, CommandError>
    requires { IsBetween 1 plan.replicas 8 }
    ensures { MatchResult result
        (λ t. TellsPlan draw job.now plan.entry t.text.items t.status)
        (λ fault. PlanNotTold draw job.now plan.entry fault) }
{
    if draw {
        draw_world(alloc, job, plan, watch)
    } else {
        world(alloc, job, plan, watch)
    }
}

/// What is asked of a world of the job.
fn tell_world<V: Watch>(
    alloc: Global,
    job: &Job,
    ask: WorldRequest<'_>,
    other: &[u8],
    watch: &mut V,
) -> Result<Told, CommandError>
    requires { IsBetween 1 ask.replicas 8 }
    ensures { MatchResult result
        (λ t. TellsOfWorld job.now ask.entry other.now t.text.items t.status)
        (λ fault. WorldNotTold job.now ask.entry other.now fault) }
{
    let plan = plan_of(ask, other);
    tell_plan(alloc, job, plan, ask.draw, watch)
}

/// What is asked of the job. `other` has the bytes of the checkpoint or the script that is asked for, if one is. The
/// watch is told how far it has come.
///
/// Promise asked-of-a-job: what is told is what the asked command tells of this job, with the numbers and texts that
/// were asked for.
///
/// # Errors
/// Those of the asked command.
#[tactic(auto, using(crate::proofs::AskingLaws::both))]
pub fn tell_job<V: Watch>(
    alloc: Global,
    task: &Task,
    ask: JobRequest<'_>,
    other: &[u8],
    watch: &mut V,
) -> Result<Told, CommandError>
    requires { JobAllowed ask }
    ensures { MatchResult result
        (λ t. TellsOfJob ask.entry other.now task.now.job task.now.origins.items
        t.text.items t.status)
        (λ fault. JobNotTold ask.entry other.now task.now.job fault) }
{
    match ask {
        JobRequest::Run { firings } => run(alloc, &task.job, firings, watch),
        JobRequest::Save { firings } => save(alloc, &task.job, firings, watch),
        JobRequest::Restore { firings, .. } => restore(alloc, &task.job, other, firings, watch),
        JobRequest::Trace { entry, firings } => {
            trace(alloc, task, entry.as_bytes(), firings, watch)
        }
        JobRequest::Blame { activity, port } => {
            blame(alloc, task, activity.as_bytes(), port, watch)
        }
        JobRequest::Waits { firings } => waits(alloc, task, firings, watch),
        JobRequest::DrawStory { entry, firings } => {
            draw_story(alloc, task, entry.as_bytes(), firings)
        }
        JobRequest::World(ask) => tell_world(alloc, &task.job, ask, other, watch),
    }
}

/// The texts of a job: those of its files, and the word of its argument.
#[derive(Clone, Copy)]
pub struct Texts<'a> {
    /// The path of the program or source.
    pub path: &'a str,
    /// Its bytes.
    pub file: &'a [u8],
    /// The word that gives the argument.
    pub argument: &'a [u8],
    /// The bytes of the checkpoint or the script that is asked for; empty if none is.
    pub other: &'a [u8],
}

/// What is asked of the job that the texts give. The watch is told how far it has come.
///
/// Promise asked-of-texts: what is told is of the program that `compile` makes of these bytes, or that has exactly this
/// text, on the argument that the word gives.
///
/// # Errors
/// Those of `Task::read`, and then those of the asked command.
pub fn tell_texts<V: Watch>(
    alloc: Global,
    texts: Texts<'_>,
    ask: JobRequest<'_>,
    watch: &mut V,
) -> Result<Told, CommandError>
    requires { JobAllowed ask }
    ensures { MatchResult result
        (λ t. OfTask texts.entry (λ job origins.
        TellsOfJob ask.entry texts.entry.other.now job origins t.text.items t.status))
        (λ fault. TextsRefused texts.entry ask.entry fault) }
{
    let task = match Task::read(alloc, texts.path, texts.file, texts.argument) {
        Ok(task) => task,
        Err(fault) => return Err(fault),
    };
    tell_job(alloc, &task, ask, texts.other, watch)
}
