//! The command `restore`.
ghost use Rattle.std.specs.Prelude.{◌≡◌, MatchResult, ℕ};
ghost use Rattle.u_replica.specs.Restoring.{IsRestored};
ghost use Rattle.u_commands.specs.Runs.{RunsBehind, RunRefused};
ghost use Rattle.u_commands.specs.Restores.{most_taken, fault_in, fault_of, ending_line, RestoresJob, CheckpointRefused};

use crate::command_error::CommandError;
use crate::output::joined;
use crate::reporting::{FIRING_LIMIT, ending_of, report_of};
use crate::running::run_watched;
use crate::told::Told;
use crate::watch::{Watch, show};
use std::alloc::Global;
use u_check::Job;
use u_machine::{Machine, Refusal};
use u_replica::{Ending, Onlooker, Replica, Restart, RestoreError};

/// A watch that is shown machines.
#[derive(Drop)]
struct Shown<'a, V: Watch> {
    watch: &'a mut V,
}

impl<V: Watch> Onlooker for Shown<'_, V> {
    fn see(&mut self, machine: &Machine<'_>) {
        show(machine, self.watch);
    }
}

/// The fault that is told of a checkpoint from which no replica was restored.
fn fault_in(error: RestoreError) -> CommandError
    ensures { result ≡ fault_in error }
{
    match error {
        RestoreError::BadLine(line) => CommandError::CheckpointLineNotAllowed(line),
        RestoreError::TooLong(line) => CommandError::CheckpointLineTooLong(line),
        RestoreError::NotAFiring(place) => CommandError::OtherFiring(place),
        RestoreError::Full => CommandError::Full,
        RestoreError::NoMemory => CommandError::NoMemory,
    }
}

/// A replica of the job that took the firings of the checkpoint, and how the checkpoint ended. The watch
/// is told how far it has come.
fn restored<'a, V: Watch>(
    alloc: Global,
    job: &'a Job,
    checkpoint: &[u8],
    watch: &mut V,
) -> Result<(Replica<'a>, Ending), CommandError>
    ensures { MatchResult result
        (λ p. IsRestored job.now most_taken 1 1 checkpoint.now p.1 p.0)
        (λ fault. (n : ℕ) → CheckpointRefused job.now n checkpoint.now fault) }
{
    let restart = Restart {
        number: 1,
        life: 1,
        checkpoint,
    };
    let mut shown = Shown { watch };
    match Replica::restore_watched(alloc, job, FIRING_LIMIT, restart, &mut shown) {
        Ok(found) => Ok(found),
        Err(error) => Err(fault_in(error)),
    }
}

/// The fault that is told of a run that was refused.
pub(crate) fn fault_of(refusal: Refusal) -> CommandError
    ensures { result ≡ fault_of refusal }
{
    match refusal {
        Refusal::Full => CommandError::Full,
        Refusal::NoMemory => CommandError::NoMemory,
    }
}

/// The line that tells how a checkpoint ended.
#[tactic(auto, unfolding(crate::specs::Restores::ending_line))]
fn ending_line(ending: Ending) -> &'static [u8]
    ensures { result.now ≡ ending_line ending }
{
    match ending {
        Ending::Whole => b"checkpoint whole\n",
        Ending::Torn => b"checkpoint torn\n",
    }
}

/// The front, and after it the report of a machine that fires so many times at most; and the exit status. The
/// watch is told how far it has come.
pub fn run_behind<V: Watch>(
    alloc: Global,
    front: &[u8],
    machine: &mut Machine<'_>,
    firings: usize,
    watch: &mut V,
) -> Result<Told, CommandError>
    ensures { MatchResult result
        (λ t. RunsBehind front.now machine.old firings t.text.items t.status)
        (λ fault. RunRefused machine.old firings fault) }
{
    let ran = run_watched(machine, firings, watch);
    machine.holds();
    let state = match ran {
        Ok(ran) => ending_of(ran),
        Err(refusal) => return Err(fault_of(refusal)),
    };
    let report = report_of(alloc, machine, state)?;
    let text = joined(alloc, front, &report.text)?;
    Ok(Told {
        text,
        status: report.status,
    })
}

/// How the checkpoint ended, and the report of a machine that goes on from it with so many firings at most. The
/// exit status is that of `run`.
///
/// Promise restore-command: the report is that of a machine that took exactly the firings of the checkpoint's
/// complete lines and then fired the least ready one each time.
///
/// # Errors
/// A line of the checkpoint that is not allowed or too long; a firing that is none of the job; `Full` if there
/// are more firings than the machine may take, or `NoMemory`.
pub fn restore<V: Watch>(
    alloc: Global,
    job: &Job,
    checkpoint: &[u8],
    firings: usize,
    watch: &mut V,
) -> Result<Told, CommandError>
    ensures { MatchResult result
        (λ t. RestoresJob job.now firings checkpoint.now t.text.items t.status)
        (λ fault. CheckpointRefused job.now firings checkpoint.now fault) }
{
    let (replica, ending) = match restored(alloc, job, checkpoint, watch) {
        Ok(restored) => restored,
        Err(fault) => return Err(fault),
    };
    let mut machine = replica.into_machine();
    run_behind(alloc, ending_line(ending), &mut machine, firings, watch)
}
