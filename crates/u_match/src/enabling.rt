//! Whether a history has all that a firing needs. An entry that is looked up is made of copies that
//! share what they have, so it takes no memory.
ghost use Rattle.std.specs.Prelude.{◌≡◌, ◌↔◌, ◌≤◌, ◌+◌, [], ◌∷◌, IfOk, IsTrue, Contains, Ok, length};
ghost use Rattle.u_name.specs.Context.{IsBetween};
ghost use Rattle.u_name.specs.Cell.{CellOf};
ghost use Rattle.u_rule.specs.declared.entry.Entry.{Entry};
ghost use Rattle.u_rule.specs.declared.entry.Entry.TheVariants as entries;
ghost use Rattle.u_rule.specs.Parts.{token, most_ports};
ghost use Rattle.u_rule.specs.Rule.{own_of, tokens_from};
ghost use Rattle.u_rule.specs.Structures.{cell_named, wrote, read_from, write_read};
ghost use Rattle.u_base.specs.Firing.{Enabled, Within};

use std::alloc::AllocError;
use u_check::Job;
use u_history::History;
use u_name::{Cell, Name};
use u_rule::{Entry, Firing, Token, Write, Written, cell_at, is_own};
use u_value::Value;

/// That token.
fn token_of(activity: &Name, port: u8, value: &Value) -> Result<Entry, AllocError>
    requires { IsBetween 1 port most_ports }
    ensures { IfOk result (λ e. e ≡ entries.Token (token activity.now port value.now)) }
{
    let activity = activity.copy()?;
    let value = value.copy()?;
    Ok(Entry::Token(Token::new(activity, port, value)))
}

/// Whether the history has that token.
fn has_token(
    history: &History,
    activity: &Name,
    port: u8,
    value: &Value,
) -> Result<bool, AllocError>
    requires { IsBetween 1 port most_ports }
    ensures { IfOk result (λ b. IsTrue b
        ↔ Contains history.now (entries.Token (token activity.now port value.now))) }
{
    let token = token_of(activity, port, value)?;
    Ok(history.contains(&token))
}

/// Whether the history has the activity's tokens with these values, from that port on.
fn has_tokens(
    history: &History,
    activity: &Name,
    port: u8,
    values: &[Value],
) -> Result<bool, AllocError>
    requires from { 1 ≤ port }
    requires to { port + length values.now ≤ most_ports + 1 }
    ensures { IfOk result (λ b. IsTrue b
        ↔ Within (Contains history.now) (tokens_from activity.now port values.now)) }
{
    let [first, rest @ ..] = values else {
        return Ok(true);
    };
    let there = has_token(history, activity, port, first)?;
    if !there {
        return Ok(false);
    }
    let others = has_tokens(history, activity, port + 1, rest)?;
    Ok(others)
}

/// That write of the cell.
fn write_of(cell: Cell, by: &Written) -> Result<Entry, AllocError>
    ensures { IfOk result (λ e. e ≡ wrote cell by.now.writer by.now.value) }
{
    let writer = by.writer.copy()?;
    let value = by.value.copy()?;
    Ok(Entry::Write(Write {
        cell,
        writer,
        value,
    }))
}

/// Whether the history has that write of the cell that the two values name, where they name one.
fn has_write(
    history: &History,
    structure: &Value,
    index: &Value,
    by: &Written,
) -> Result<bool, AllocError>
    ensures { IfOk result (λ b. IsTrue b
        ↔ Within (Contains history.now)
        (read_from (cell_named (structure.now ∷ index.now ∷ [])) by.now)) }
{
    let found = cell_at(structure, index)?;
    match found {
        None => Ok(true),
        Some(cell) => {
            let write = write_of(cell, by)?;
            Ok(history.contains(&write))
        }
    }
}

/// Whether the history has the write that the firing read, where it read one.
fn has_read(history: &History, firing: &Firing) -> Result<bool, AllocError>
    ensures { IfOk result (λ b. IsTrue b
        ↔ Within (Contains history.now) (write_read firing.now.values firing.now.write)) }
{
    let Some(by) = &firing.write else {
        return Ok(true);
    };
    let [structure, index, ..] = firing.values.as_slice() else {
        return Ok(true);
    };
    let there = has_write(history, structure, index, by.get())?;
    Ok(there)
}

/// Whether it is a firing of the job, and the history has all that it needs.
///
/// # Errors
/// `AllocError` where so many share a name or a value already that no copy can be made.
pub(crate) fn has_all_of(history: &History, job: &Job, firing: &Firing) -> Result<bool, AllocError>
    ensures { IfOk result
        (λ b. IsTrue b ↔ Enabled (own_of job.now) (Contains history.now) firing.now) }
{
    let there = has_tokens(history, &firing.activity, 1, firing.values.as_slice())?;
    if !there {
        return Ok(false);
    }
    if !is_own(job, firing) {
        return Ok(false);
    }
    let read = has_read(history, firing)?;
    Ok(read)
}
