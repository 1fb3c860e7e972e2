//! The command `draw`: the pictures of a program, of a run, and of an entry's story.
//!
//! The picture of a story is that of a run of its firings alone, so it shows all that they give. What the picture of
//! a run leaves out is counted by its machine, which goes on once it is drawn.
ghost use Rattle.std.specs.Prelude.{◌≡◌, ◌≤◌, ◌-◌, length, IfOk, IfErr, MatchResult, IsTrue, List, ℕ};
ghost use Rattle.u_base.specs.Firing.{Plain, Within};
ghost use Rattle.u_rule.specs.Rule.{is_own_of, own_of};
ghost use Rattle.u_machine.specs.Calls.{firing_le};
ghost use Rattle.u_commands.specs.Runs.{RanTo};
ghost use Rattle.u_history.specs.declared.report.Ending.TheVariants as states;
ghost use Rattle.u_commands.specs.Traces.{RanPlainly, TraceRefused};
ghost use Rattle.u_commands.specs.declared.command_error.CommandError.TheVariants as faults;
ghost use Rattle.u_cli.specs.Drawings.{DrawsProgram, ShowsFirings, LeavesOut, DrawsRun};
ghost use Rattle.u_cli.specs.Drawings.{DrawsStoryOf, DrawsStory, StoryNotDrawn};

use crate::holding::held;
use std::alloc::{AllocError, Global};
use u_check::Job;
use u_commands::{
    CommandError, FIRING_LIMIT, Input, Task, Told, Unwatched, entry_of, ran, report_of, run_on,
    trace_fault,
};
use u_compile::BlockOrigins;
use u_history::Ending;
use u_machine::Machine;
use u_pictures::{write_picture, write_run};
use u_rule::{Entry, Firing};
use u_trace::story;

/// The picture of the program, as a text of DOT, the language of Graphviz. The exit status is 0.
///
/// Promise draw-command: it is exactly the picture of the program.
///
/// # Errors
/// `NoMemory`.
pub fn draw_program(alloc: Global, input: &Input) -> Result<Told, CommandError>
    ensures ok { IfOk result (λ t. DrawsProgram input.now.checked input.now.origins.items
        t.text.items t.status) }
    ensures memory { IfErr result (λ e. e ≡ faults.NoMemory) }
{
    let mut text = Vec::new(alloc);
    write_picture(&mut text, input.checked.program(), &input.origins)?;
    Ok(Told { text, status: 0 })
}

/// The picture of the firings of a job, and of all entries that they hold.
#[tactic(auto, using(u_rule::proofs::Firings::own_is_firing))]
fn picture_of(
    alloc: Global,
    job: &Job,
    origins: &[BlockOrigins],
    firings: &[Firing],
) -> Result<Vec<u8>, AllocError>
    requires { Within (λ f. IsTrue (is_own_of job.now f)) firings.now }
    ensures { IfOk result (λ v. ShowsFirings job.now origins.now firings.now v.items) }
{
    let entries = held(alloc, job, firings)?;
    let mut text = Vec::new(alloc);
    write_run(&mut text, job, firings, &entries, origins)?;
    Ok(text)
}

/// How many firings the machine of a paused run makes if it goes on, to 1000000 in all.
fn more_of(machine: &mut Machine<'_>, firings: usize) -> Result<usize, CommandError>
    requires ran { RanTo machine.old.job firings states.Paused machine.old }
    requires few { firings ≤ 1000000 }
    requires limit { machine.old.limit ≡ 1000000 }
    ensures ok { IfOk result
        (λ left. LeavesOut machine.old.job states.Paused machine.old.log left) }
    ensures memory { IfErr result (λ e. e ≡ faults.NoMemory) }
{
    let drawn = machine.applied().len();
    match run_on(machine, firings, FIRING_LIMIT, &mut Unwatched) {
        Ok(_) => Ok(machine.applied().len().saturating_sub(drawn)),
        Err(fault) => Err(fault),
    }
}

/// How many firings the picture of the machine leaves out.
fn left_out(machine: &mut Machine<'_>, firings: usize, state: Ending) -> Result<usize, CommandError>
    requires ran { RanTo machine.old.job firings state machine.old }
    requires few { firings ≤ 1000000 }
    requires limit { machine.old.limit ≡ 1000000 }
    ensures ok { IfOk result (λ left. LeavesOut machine.old.job state machine.old.log left) }
    ensures memory { IfErr result (λ e. e ≡ faults.NoMemory) }
{
    match state {
        Ending::Quiet => Ok(0),
        Ending::Paused => more_of(machine, firings),
    }
}

/// The picture of the job's run with so many firings at most, as a text of DOT. The exit status is that of `run`. And
/// how many firings the picture leaves out: those of the same run with 1000000 firings at most that come after the
/// ones in the picture.
///
/// Promise picture-of-a-run: the picture is of the firings of the plain run and of exactly the entries that
/// they hold, each once.
///
/// # Errors
/// `NoMemory`.
pub fn draw_run(alloc: Global, task: &Task, firings: usize) -> Result<(Told, usize), CommandError>
    requires { firings ≤ 1000000 }
    ensures ok { IfOk result (λ p. DrawsRun task.now.job task.now.origins.items firings
        p.0.text.items p.0.status p.1) }
    ensures memory { IfErr result (λ e. e ≡ faults.NoMemory) }
{
    let (mut machine, state) = ran(alloc, &task.job, firings, &mut Unwatched)?;
    machine.holds();
    let text = picture_of(alloc, &task.job, &task.origins, machine.applied())?;
    let status = report_of(alloc, &machine, state)?.status;
    match left_out(&mut machine, firings, state) {
        Ok(left) => Ok((Told { text, status }, left)),
        Err(fault) => Err(fault),
    }
}

/// The picture of the entry's story in the machine.
fn story_picture(
    alloc: Global,
    machine: &Machine<'_>,
    origins: &[BlockOrigins],
    entry: &Entry,
) -> Result<Vec<u8>, CommandError>
    ensures { MatchResult result
        (λ v. (n : ℕ) → RanPlainly machine.now.job n machine.now
        → DrawsStoryOf machine.now.job origins.now n entry.now v.items)
        (λ fault. (n : ℕ) → RanPlainly machine.now.job n machine.now
        → TraceRefused machine.now.job n entry.now fault) }
{
    machine.holds();
    let firings = match story(alloc, machine, entry) {
        Ok(firings) => firings,
        Err(error) => return Err(trace_fault(error)),
    };
    let text = picture_of(alloc, machine.job(), origins, &firings)?;
    Ok(text)
}

/// The picture of the entry's story, after a run of the job with so many firings at most.
fn drawn_story(
    alloc: Global,
    task: &Task,
    entry: &Entry,
    firings: usize,
) -> Result<Vec<u8>, CommandError>
    requires { firings ≤ 1000000 }
    ensures { MatchResult result
        (λ v. DrawsStoryOf task.now.job task.now.origins.items firings entry.now v.items)
        (λ fault. TraceRefused task.now.job firings entry.now fault) }
{
    let (machine, _) = ran(alloc, &task.job, firings, &mut Unwatched)?;
    story_picture(alloc, &machine, &task.origins, entry)
}

/// The picture of the story of how the job's run, with so many firings at most, came to the entry with this text. The
/// exit status is 0.
///
/// Promise picture-of-a-story: the picture is of the story that `trace` tells and of exactly the entries that its
/// firings hold.
///
/// # Errors
/// `EntryNotAllowed` if the text is no entry's, `EntryNotHeld` if the run does not hold the entry, `NoMemory`.
pub fn draw_story(
    alloc: Global,
    task: &Task,
    entry: &[u8],
    firings: usize,
) -> Result<Told, CommandError>
    requires { firings ≤ 1000000 }
    ensures { MatchResult result
        (λ t.
        DrawsStory task.now.job task.now.origins.items entry.now firings t.text.items t.status)
        (λ fault. StoryNotDrawn task.now.job entry.now firings fault) }
{
    let entry = match entry_of(alloc, entry) {
        Ok(entry) => entry,
        Err(fault) => return Err(fault),
    };
    match drawn_story(alloc, task, &entry, firings) {
        Ok(text) => Ok(Told { text, status: 0 }),
        Err(fault) => Err(fault),
    }
}
