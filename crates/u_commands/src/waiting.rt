//! The command `waits`.
//!
//! The state stands before the verdict, so lines of a run that was cut off are not taken for those of a run
//! that ended.
ghost use Rattle.std.specs.Prelude.{◌≡◌, ◌≤◌, ◌++◌, Contains, IfOk, IfErr, map};
ghost use Rattle.u_base.specs.Spaced.{ended};
ghost use Rattle.u_history.specs.Report.{state_line};
ghost use Rattle.u_commands.specs.Waits.{waiting_line, read_line, waiting_lines, TellsWaits, WaitsAfterRun};
ghost use Rattle.u_commands.specs.declared.command_error.CommandError.TheVariants as faults;

use crate::command_error::CommandError;
use crate::input::Task;
use crate::placing::push_place;
use crate::reporting::{ran, status};
use crate::told::Told;
use crate::watch::Watch;
use std::alloc::{AllocError, Global};
use u_compile::BlockOrigins;
use u_history::Ending;
use u_machine::Machine;
use u_trace::{DeferredRead, Waiting, WaitingActivity, push_read, push_waiting};

/// The line of a report that names its state.
#[tactic(auto, unfolding(u_history::specs::Report::state_line))]
fn state_line(state: Ending) -> &'static [u8]
    ensures { result.now ≡ state_line state }
{
    match state {
        Ending::Quiet => b"state quiet\n",
        Ending::Paused => b"state paused\n",
    }
}

/// Appends a line for each activity that waits, with the place of its statement.
fn push_activities(
    out: &mut Vec<u8>,
    origins: &[BlockOrigins],
    activities: &[WaitingActivity],
) -> Result<(), AllocError>
    ensures { IfOk result (λ u. out.new.items
        ≡ out.old.items ++ ended (map (waiting_line origins.now) activities.now)) }
{
    for waiting in activities {
        push_waiting(out, waiting)?;
        push_place(out, origins, &waiting.activity)?;
        out.push(b'\n')?;
    }
    Ok(())
}

/// Appends a line for each read of an unwritten cell, with the place of the reader's statement.
fn push_reads(
    out: &mut Vec<u8>,
    origins: &[BlockOrigins],
    reads: &[DeferredRead],
) -> Result<(), AllocError>
    ensures { IfOk result (λ u. out.new.items
        ≡ out.old.items ++ ended (map (read_line origins.now) reads.now)) }
{
    for read in reads {
        push_read(out, read)?;
        push_place(out, origins, &read.reader)?;
        out.push(b'\n')?;
    }
    Ok(())
}

/// Appends the lines of what waits.
#[tactic(auto, unfolding(crate::specs::Waits::waiting_lines), using(crate::proofs::Waited::join2))]
fn push_waits(
    out: &mut Vec<u8>,
    origins: &[BlockOrigins],
    waits: &Waiting,
) -> Result<(), AllocError>
    ensures { IfOk result
        (λ u. out.new.items ≡ out.old.items ++ waiting_lines origins.now waits.now) }
{
    push_activities(out, origins, &waits.activities)?;
    push_reads(out, origins, &waits.reads)
}

/// What the machine waits for, its state, the verdict on its history, and the exit status.
fn waiting_told(
    alloc: Global,
    machine: &Machine<'_>,
    origins: &[BlockOrigins],
    state: Ending,
) -> Result<Told, AllocError>
    ensures { IfOk result (λ t. TellsWaits machine.now.job origins.now
        (Contains machine.now.history) state t.text.items t.status) }
{
    let outcome = machine.history().outcome()?;
    let waits = u_trace::waits(alloc, machine.job(), machine.history())?;
    let mut text = Vec::new(alloc);
    push_waits(&mut text, origins, &waits)?;
    text.extend_from_slice(state_line(state))?;
    outcome.verdict().write_text(&mut text)?;
    let status = status(state, outcome.verdict());
    Ok(Told { text, status })
}

/// What waits after the job's run with so many firings at most: a line for each activity that has a token at some
/// port and lacks one at another, a line for each read of a cell that has no write, and the state and the verdict of
/// the run's report. Each line has the place of its statement, if the program is that of a source. The exit status
/// is that of `run`.
///
/// Promise waits-command: it tells exactly what waits in the history of the plain run, then the lines of the state
/// and of the verdict.
///
/// # Errors
/// `NoMemory`.
pub fn waits<V: Watch>(
    alloc: Global,
    task: &Task,
    firings: usize,
    watch: &mut V,
) -> Result<Told, CommandError>
    requires { firings ≤ 1000000 }
    ensures ok { IfOk result (λ t.
        WaitsAfterRun task.now.job task.now.origins.items firings t.text.items t.status) }
    ensures memory { IfErr result (λ e. e ≡ faults.NoMemory) }
{
    let (machine, state) = ran(alloc, &task.job, firings, watch)?;
    let told = waiting_told(alloc, &machine, &task.origins, state)?;
    Ok(told)
}
