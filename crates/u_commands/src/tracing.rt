//! The command `trace`.
ghost use Rattle.std.specs.Prelude.{◌≡◌, ◌≤◌, ◌++◌, IfOk, MatchResult, ℕ, map};
ghost use Rattle.u_base.specs.Spaced.{ended};
ghost use Rattle.u_rule.specs.EntryReading.{IsEntryOf};
ghost use Rattle.u_commands.specs.Traces.{firing_line, counted, traced_text, trace_fault, RanPlainly};
ghost use Rattle.u_commands.specs.Traces.{EntryRefused, TracesJob, TraceRefused, Traces, NotTraced};

use crate::command_error::CommandError;
use crate::input::Task;
use crate::output::push_numbered;
use crate::placing::push_place;
use crate::reporting::ran;
use crate::told::Told;
use crate::watch::Watch;
use std::alloc::{AllocError, Global};
use u_compile::BlockOrigins;
use u_delta::write_firings;
use u_machine::Machine;
use u_rule::{Entry, Firing, TextError};
use u_trace::{TraceError, machine_causes, story};

/// The entry with this text.
pub fn entry_of(alloc: Global, word: &[u8]) -> Result<Entry, CommandError>
    ensures { MatchResult result (λ e. IsEntryOf word.now e)
        (λ fault. EntryRefused word.now fault) }
{
    match Entry::read(alloc, word) {
        Ok(entry) => Ok(entry),
        Err(TextError::BadText(offset)) => Err(CommandError::EntryNotAllowed(offset)),
        Err(TextError::NoMemory) => Err(CommandError::NoMemory),
    }
}

/// The fault that is told if nothing is traced.
pub fn trace_fault(error: TraceError) -> CommandError
    ensures { result ≡ trace_fault error }
{
    match error {
        TraceError::NotHeld => CommandError::EntryNotHeld,
        TraceError::NoMemory => CommandError::NoMemory,
    }
}

/// Appends a line for each firing, with the place of its statement.
fn push_placed(
    text: &mut Vec<u8>,
    origins: &[BlockOrigins],
    firings: &[Firing],
) -> Result<(), AllocError>
    ensures { IfOk result (λ u. text.new.items
        ≡ text.old.items ++ ended (map (firing_line origins.now) firings.now)) }
{
    for firing in firings {
        firing.write_text(text)?;
        push_place(text, origins, &firing.activity)?;
        text.push(b'\n')?;
    }
    Ok(())
}

/// Appends a line for each firing, with the place of its statement if that is known.
#[tactic(auto, using(crate::proofs::Traced::plain_more))]
fn push_firings(
    text: &mut Vec<u8>,
    origins: &[BlockOrigins],
    firings: &[Firing],
) -> Result<(), AllocError>
    ensures { IfOk result (λ u. text.new.items
        ≡ text.old.items ++ ended (map (firing_line origins.now) firings.now)) }
{
    if !origins.is_empty() {
        return push_placed(text, origins, firings);
    }
    write_firings(firings, text)?;
    Ok(())
}

/// Appends a line with the word and the number of firings, and a line for each firing.
fn push_counted(
    text: &mut Vec<u8>,
    origins: &[BlockOrigins],
    word: &[u8],
    firings: &[Firing],
) -> Result<(), AllocError>
    ensures { IfOk result
        (λ u. text.new.items ≡ text.old.items ++ counted origins.now word.now firings.now) }
{
    push_numbered(text, word, firings.len() as u64)?;
    text.push(b'\n')?;
    push_firings(text, origins, firings)
}

/// The lists of causes and of the story, one after the other.
#[tactic(auto, unfolding(crate::specs::Traces::traced_text))]
fn traced_text(
    alloc: Global,
    origins: &[BlockOrigins],
    causes: &[Firing],
    story: &[Firing],
) -> Result<Vec<u8>, AllocError>
    ensures { IfOk result (λ v. v.items ≡ traced_text origins.now causes.now story.now) }
{
    let mut text = Vec::new(alloc);
    push_counted(&mut text, origins, b"causes ", causes)?;
    push_counted(&mut text, origins, b"story ", story)?;
    Ok(text)
}

/// The causes and the story of an entry of the machine.
fn traced(
    alloc: Global,
    machine: &Machine<'_>,
    origins: &[BlockOrigins],
    entry: &Entry,
) -> Result<Vec<u8>, CommandError>
    ensures { MatchResult result
        (λ v. (n : ℕ) → RanPlainly machine.now.job n machine.now
        → TracesJob machine.now.job origins.now n entry.now v.items)
        (λ fault. (n : ℕ) → RanPlainly machine.now.job n machine.now
        → TraceRefused machine.now.job n entry.now fault) }
{
    let told = match story(alloc, machine, entry) {
        Ok(told) => told,
        Err(error) => return Err(trace_fault(error)),
    };
    let found = match machine_causes(alloc, machine, entry) {
        Ok(found) => found,
        Err(error) => return Err(trace_fault(error)),
    };
    let text = traced_text(alloc, origins, &found, &told)?;
    Ok(text)
}

/// The causes and the story of the entry, after a run of the job with so many firings at most.
fn trace_entry<V: Watch>(
    alloc: Global,
    task: &Task,
    entry: &Entry,
    firings: usize,
    watch: &mut V,
) -> Result<Vec<u8>, CommandError>
    requires { firings ≤ 1000000 }
    ensures { MatchResult result
        (λ v. TracesJob task.now.job task.now.origins.items firings entry.now v.items)
        (λ fault. TraceRefused task.now.job firings entry.now fault) }
{
    let (machine, _) = ran(alloc, &task.job, firings, watch)?;
    traced(alloc, &machine, &task.origins, entry)
}

/// All firings that give the entry with this text, and the story of how the job's run, with so many firings at
/// most, came to it. Each line has the place of its statement, if the program is that of a source. The exit
/// status is 0.
///
/// Promise trace-command: it tells exactly the causes of the entry and its story in the plain run, each with its
/// count.
///
/// # Errors
/// `EntryNotAllowed` if the text is no entry's, `EntryNotHeld` if the run does not hold the entry, `NoMemory`.
pub fn trace<V: Watch>(
    alloc: Global,
    task: &Task,
    entry: &[u8],
    firings: usize,
    watch: &mut V,
) -> Result<Told, CommandError>
    requires { firings ≤ 1000000 }
    ensures { MatchResult result
        (λ t. Traces task.now.job task.now.origins.items entry.now firings t.text.items t.status)
        (λ fault. NotTraced task.now.job entry.now firings fault) }
{
    let entry = match entry_of(alloc, entry) {
        Ok(entry) => entry,
        Err(fault) => return Err(fault),
    };
    match trace_entry(alloc, task, &entry, firings, watch) {
        Ok(text) => Ok(Told { text, status: 0 }),
        Err(fault) => Err(fault),
    }
}
