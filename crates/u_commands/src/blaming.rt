//! The command `blame`.
ghost use Rattle.std.specs.Prelude.{◌≡◌, ◌++◌, IfOk, MatchResult};
ghost use Rattle.u_name.specs.Context.{IsBetween};
ghost use Rattle.u_name.specs.NameReading.{IsNameOf};
ghost use Rattle.u_rule.specs.Parts.{most_ports};
ghost use Rattle.u_commands.specs.Traces.{RanPlainly};
ghost use Rattle.u_commands.specs.Blaming.{most_blamed, pair_text, write_lines, blamed_text, blame_fault};
ghost use Rattle.u_commands.specs.Blaming.{NameRefused, BlamesJob, BlameRefused, Blames, NotBlamed};

use crate::command_error::CommandError;
use crate::input::Task;
use crate::placing::push_place;
use crate::reporting::ran;
use crate::told::Told;
use crate::watch::Watch;
use std::alloc::{AllocError, Global};
use u_compile::BlockOrigins;
use u_machine::Machine;
use u_name::{Cell, Name, NameTextError};
use u_rule::Written;
use u_trace::{Blame, BlameError, BlamedWrite};

/// How many firings a run that is looked at has at most.
const BLAMED_FIRINGS: usize = 100_000;

/// The name with this text.
fn name_of(alloc: Global, word: &[u8]) -> Result<Name, CommandError>
    ensures { MatchResult result (λ n. IsNameOf word.now n) (λ fault. NameRefused word.now fault) }
{
    match Name::read(alloc, word) {
        Ok(name) => Ok(name),
        Err(NameTextError::BadName(offset)) => Err(CommandError::NameNotAllowed(offset)),
        Err(NameTextError::Deep) => Err(CommandError::NameTooDeep),
        Err(NameTextError::NoMemory) => Err(CommandError::NoMemory),
    }
}

/// The fault that is told if nothing is blamed.
fn blame_fault(error: BlameError) -> CommandError
    ensures { result ≡ blame_fault error }
{
    match error {
        BlameError::NotClashed => CommandError::PortNotClashed,
        BlameError::NoMemory => CommandError::NoMemory,
    }
}

/// Appends what a report says of a write in the cell.
#[tactic(auto, unfolding(crate::specs::Blaming::pair_text), using(crate::proofs::Blamed::join6))]
fn push_pair(out: &mut Vec<u8>, cell: &Cell, pair: &Written) -> Result<(), AllocError>
    ensures { IfOk result (λ u. out.new.items ≡ out.old.items ++ pair_text cell.now pair.now) }
{
    out.extend_from_slice(b"cell ")?;
    cell.write_text(out)?;
    out.push(b' ')?;
    pair.writer.write_text(out)?;
    out.push(b' ')?;
    pair.value.write_text(out)?;
    Ok(())
}

/// Appends the line of the write with the place of the structure's statement, and after it that of the firing which
/// gives the write.
#[tactic(auto, unfolding(crate::specs::Blaming::write_lines), using(crate::proofs::Blamed::join6))]
fn push_write(
    out: &mut Vec<u8>,
    origins: &[BlockOrigins],
    cell: &Cell,
    write: &BlamedWrite,
) -> Result<(), AllocError>
    ensures { IfOk result
        (λ u. out.new.items ≡ out.old.items ++ write_lines origins.now cell.now write.now) }
{
    push_pair(out, cell, &write.pair)?;
    push_place(out, origins, cell.name())?;
    out.push(b'\n')?;
    write.firing.write_text(out)?;
    push_place(out, origins, &write.firing.activity)?;
    out.push(b'\n')?;
    Ok(())
}

/// Appends the lines of both writes, or that there is no cell.
#[tactic(auto, unfolding(crate::specs::Blaming::blamed_text), using(std::proofs::lemmas::List::append_assoc))]
fn push_blamed(
    out: &mut Vec<u8>,
    origins: &[BlockOrigins],
    found: &Option<Blame>,
) -> Result<(), AllocError>
    ensures { IfOk result
        (λ u. out.new.items ≡ out.old.items ++ blamed_text origins.now found.now) }
{
    match found {
        None => out.extend_from_slice(b"no cell\n")?,
        Some(blame) => {
            push_write(out, origins, &blame.cell, &blame.first)?;
            push_write(out, origins, &blame.cell, &blame.second)?;
        }
    }
    Ok(())
}

/// Those lines alone.
fn blamed_text(
    alloc: Global,
    origins: &[BlockOrigins],
    found: &Option<Blame>,
) -> Result<Vec<u8>, AllocError>
    ensures { IfOk result (λ v. v.items ≡ blamed_text origins.now found.now) }
{
    let mut text = Vec::new(alloc);
    push_blamed(&mut text, origins, found)?;
    Ok(text)
}

/// What is to blame for two values at the port, in the machine's run.
fn blamed(
    alloc: Global,
    machine: &Machine<'_>,
    origins: &[BlockOrigins],
    activity: &Name,
    port: u8,
) -> Result<Vec<u8>, CommandError>
    requires ran { RanPlainly machine.now.job most_blamed machine.now }
    requires port { IsBetween 1 port most_ports }
    ensures { MatchResult result
        (λ v. BlamesJob machine.now.job origins.now activity.now port v.items)
        (λ fault. BlameRefused machine.now.job activity.now port fault) }
{
    let found = match u_trace::blame(alloc, machine, activity, port) {
        Ok(found) => found,
        Err(error) => return Err(blame_fault(error)),
    };
    match blamed_text(alloc, origins, &found) {
        Ok(text) => Ok(text),
        Err(_) => Err(CommandError::NoMemory),
    }
}

/// What is to blame for two values at the port, after a run of the job.
fn blame_port<V: Watch>(
    alloc: Global,
    task: &Task,
    activity: &Name,
    port: u8,
    watch: &mut V,
) -> Result<Vec<u8>, CommandError>
    requires { IsBetween 1 port most_ports }
    ensures { MatchResult result
        (λ v. BlamesJob task.now.job task.now.origins.items activity.now port v.items)
        (λ fault. BlameRefused task.now.job activity.now port fault) }
{
    let (machine, _) = ran(alloc, &task.job, BLAMED_FIRINGS, watch)?;
    blamed(alloc, &machine, &task.origins, activity, port)
}

/// What is to blame for the two least values at that port, 1 to 5, of the activity with that name in the job's run of
/// 100,000 firings at most: the least cell that has two writes in the stories of the two tokens, as two lines for
/// each of its two least writes, or `no cell`, which is never so if the program is strict or determinate. Each line
/// has the place of its statement, if the program is that of a source. The exit status is 0.
///
/// Promise blame-command: it tells exactly what `blame` returns of the plain run of at most 100000 firings.
///
/// # Errors
/// `NameNotAllowed` and `NameTooDeep` if the text is no name's, `PortNotClashed` if the run holds fewer than two
/// values at the port, `NoMemory`.
pub fn blame<V: Watch>(
    alloc: Global,
    task: &Task,
    name: &[u8],
    port: u8,
    watch: &mut V,
) -> Result<Told, CommandError>
    requires { IsBetween 1 port most_ports }
    ensures { MatchResult result
        (λ t. Blames task.now.job task.now.origins.items name.now port t.text.items t.status)
        (λ fault. NotBlamed task.now.job name.now port fault) }
{
    let activity = match name_of(alloc, name) {
        Ok(activity) => activity,
        Err(fault) => return Err(fault),
    };
    match blame_port(alloc, task, &activity, port, watch) {
        Ok(text) => Ok(Told { text, status: 0 }),
        Err(fault) => Err(fault),
    }
}
