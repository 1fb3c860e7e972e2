//! The command `lift`.
ghost use Rattle.std.specs.Prelude.{◌≡◌, IfOk, IfErr};
ghost use Rattle.u_commands.specs.Lifts.{Lifts};
ghost use Rattle.u_commands.specs.declared.command_error.CommandError.TheVariants as faults;

use crate::command_error::CommandError;
use crate::told::Told;
use std::alloc::Global;
use u_check::Checked;

/// The program's text under version 2: the same blocks, in which each `apply` says that it has one argument. It
/// runs alike, except that initiations go on after 4294967295. A program of version 2 stays as it is. The exit
/// status is 0.
///
/// Promise lift-command: the text is exactly that of the program's blocks under version 2.
///
/// # Errors
/// `NoMemory`.
pub fn lift(alloc: Global, checked: Checked) -> Result<Told, CommandError>
    ensures ok { IfOk result (λ t. Lifts checked.blocks t.text.items t.status) }
    ensures memory { IfErr result (λ e. e ≡ faults.NoMemory) }
{
    let lifted = checked.into_program().lift();
    let mut text = Vec::new(alloc);
    lifted.write_text(&mut text)?;
    Ok(Told { text, status: 0 })
}
