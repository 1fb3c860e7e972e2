//! Calls of a machine, written as rows of a table, and what the machine answers.
use std::alloc::{AllocError, Global};
use u_machine::{Command, Machine, Reply};
use u_plain::worked::firing_of;
use u_rule::Firing;

/// One call. Firings stand there as their texts.
pub enum Call {
    Fire(usize),
    FireIn(u64, usize),
    Take(&'static str),
    TakeAll(&'static [&'static str]),
    Settle,
    Run(usize),
}

/// The firings of these texts.
fn firings_of(alloc: Global, texts: &[&str]) -> Result<Vec<Firing>, AllocError> {
    let mut list = Vec::new(alloc);
    for text in texts {
        list.push(firing_of(alloc, text)?)?;
    }
    Ok(list)
}

/// The call, as a machine obeys it.
fn command_of(alloc: Global, call: &Call) -> Result<Command, AllocError> {
    match call {
        Call::Fire(pick) => Ok(Command::Fire(*pick)),
        Call::FireIn(buckets, pick) => Ok(Command::FireIn(*buckets, *pick)),
        Call::Take(text) => Ok(Command::Take(firing_of(alloc, text)?)),
        Call::TakeAll(texts) => Ok(Command::TakeAll(firings_of(alloc, texts)?)),
        Call::Settle => Ok(Command::Settle),
        Call::Run(budget) => Ok(Command::Run(*budget)),
    }
}

/// Adds the calls, as a machine obeys them.
fn add_commands(
    alloc: Global,
    commands: &mut Vec<Command>,
    rows: &[(Call, Reply)],
) -> Result<(), AllocError> {
    for (call, _) in rows {
        commands.push(command_of(alloc, call)?)?;
    }
    Ok(())
}

/// Whether these are the replies that stand beside the calls.
fn are_as_said(replies: &[Reply], rows: &[(Call, Reply)]) -> bool {
    let mut rest = rows.iter();
    for reply in replies {
        match rest.next() {
            Some((_, wanted)) if reply == wanted => {}
            _ => return false,
        }
    }
    rest.next().is_none()
}

/// Whether the machine answers the commands as it is said in the rows.
fn obeys(
    alloc: Global,
    machine: &mut Machine<'_>,
    commands: &[Command],
    rows: &[(Call, Reply)],
) -> bool {
    match machine.obey_all(alloc, commands) {
        Ok(replies) => are_as_said(&replies, rows),
        Err(_) => false,
    }
}

/// Whether the machine answers the calls as it is said beside them.
pub fn answers(alloc: Global, machine: &mut Machine<'_>, rows: &[(Call, Reply)]) -> bool {
    let mut commands = Vec::new(alloc);
    add_commands(alloc, &mut commands, rows).is_ok() && obeys(alloc, machine, &commands, rows)
}

/// Whether the machine is settled and has these numbers of applied firings, parked firings and entries.
pub fn has(machine: &Machine<'_>, counts: [usize; 3]) -> bool {
    let [applied, parked, entries] = counts;
    machine.is_settled()
        && machine.applied().len() == applied
        && machine.parked().len() == parked
        && machine.history().len() == entries
}
