//! The command `save`.
ghost use Rattle.std.specs.Prelude.{◌≡◌, ◌≤◌, IfOk, IfErr};
ghost use Rattle.u_commands.specs.Saves.{SavesRunOfJob};
ghost use Rattle.u_commands.specs.declared.command_error.CommandError.TheVariants as faults;

use crate::command_error::CommandError;
use crate::reporting::ran;
use crate::told::Told;
use crate::watch::Watch;
use std::alloc::Global;
use u_check::Job;
use u_replica::write_checkpoint;

/// The checkpoint of the job's run with so many firings at most: all that was fired. The exit status is 0.
///
/// Promise save-command: the checkpoint is exactly that of the plain run of at most `firings` firings.
///
/// # Errors
/// `NoMemory`.
pub fn save<V: Watch>(
    alloc: Global,
    job: &Job,
    firings: usize,
    watch: &mut V,
) -> Result<Told, CommandError>
    requires { firings ≤ 1000000 }
    ensures ok { IfOk result (λ t. SavesRunOfJob job.now firings t.text.items t.status) }
    ensures memory { IfErr result (λ e. e ≡ faults.NoMemory) }
{
    let (machine, _) = ran(alloc, job, firings, watch)?;
    let version = job.program().version();
    let mut text = Vec::new(alloc);
    write_checkpoint(version, machine.applied(), &machine.parked(), &mut text)?;
    Ok(Told { text, status: 0 })
}
