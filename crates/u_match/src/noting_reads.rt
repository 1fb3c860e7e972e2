//! How the reads that an entry makes go into the table, each once. Where memory runs out the table may
//! have more than before, and nothing is lost.
ghost use Rattle.std.specs.Prelude.{◌<◌, ◌⊎◌, OnOk, IsFalse, Contains};
ghost use Rattle.u_value.specs.declared.value.Value.{Value};
ghost use Rattle.u_base.specs.Firing.{Within};
ghost use Rattle.u_sets.specs.Columns.{MayNumber};
ghost use Rattle.u_match.specs.Keys.{IsMet, Notes, NamesNone, IsCompleteWith};
ghost use Rattle.u_match.specs.Numbers.{NumbersEntry};

use crate::meeting::{Read, Reads, met_at};
use std::alloc::AllocError;
use u_history::NumberedHistory;
use u_rule::{Entry, NameRef, TokenRef, cell_at};
use u_value::Value;

/// Notes the read of the cell that the structure and the index name, where they name one.
fn note_read(
    reads: &mut Reads,
    activity: &NameRef<'_>,
    structure: &Value,
    index: &Value,
) -> Result<(), AllocError>
    ensures kept { Within (Contains reads.new) reads.old }
    ensures ok { OnOk result (Notes activity.now structure.now index.now reads.new) }
{
    let named = cell_at(structure, index)?;
    let cell = match named {
        None => return Ok(()),
        Some(cell) => cell,
    };
    let read = Read {
        activity: activity.name()?,
        structure: structure.copy()?,
        index: index.copy()?,
    };
    reads.insert(&cell, read)?;
    Ok(())
}

/// Notes the reads of the cells that the structure names with one of the indices.
fn note_indices(
    reads: &mut Reads,
    activity: &NameRef<'_>,
    structure: &Value,
    indices: &[Value],
) -> Result<(), AllocError>
    ensures kept { Within (Contains reads.new) reads.old }
    ensures ok { OnOk result
        ((w : Value) → Contains indices.now w → Notes activity.now structure.now w reads.new) }
{
    for index in indices {
        note_read(reads, activity, structure, index)?;
    }
    Ok(())
}

/// Notes the reads of the cells that one of the structures names with one of the indices.
#[inline(never)]
fn note_reads(
    reads: &mut Reads,
    activity: &NameRef<'_>,
    structures: &[Value],
    indices: &[Value],
) -> Result<(), AllocError>
    ensures kept { Within (Contains reads.new) reads.old }
    ensures ok { OnOk result
        ((v : Value) → Contains structures.now v → (w : Value) → Contains indices.now w
        → Notes activity.now v w reads.new) }
{
    for structure in structures {
        note_indices(reads, activity, structure, indices)?;
    }
    Ok(())
}

/// Whether the token may name a cell with what it meets: a structure at the first port, or an index at
/// the second.
#[tactic(auto, using(crate::proofs::Naming::names_none))]
fn may_name(token: &TokenRef<'_>) -> bool
    ensures { IsFalse result → NamesNone token.now }
{
    let port = token.port();
    match token.value() {
        Value::Ref(_structure) => port == 1,
        Value::Int(_index) => port == 2,
        Value::Bool(_truth) => false,
        Value::Proc(_block) => false,
    }
}

/// Notes the reads that the token, whose activity has the number, makes with what it meets. A token
/// beyond the second port makes none.
///
/// # Errors
/// `AllocError` where there is no memory; what the table had it still has.
pub(crate) fn note_reads_of(
    history: &NumberedHistory,
    number: usize,
    reads: &mut Reads,
    token: &TokenRef<'_>,
) -> Result<(), AllocError>
    requires { MayNumber history.now.names token.now.activity number }
    ensures kept { Within (Contains reads.new) reads.old }
    ensures ok { OnOk result
        ((v w : Value) → IsMet (Contains history.now.entries) token.now 1 v
        → IsMet (Contains history.now.entries) token.now 2 w
        → (2 < token.now.port) ⊎ Notes token.now.activity v w reads.new) }
{
    if !may_name(token) {
        return Ok(());
    }
    let structures = met_at(history, number, token, 1);
    let indices = met_at(history, number, token, 2);
    note_reads(reads, token.activity(), structures, indices)?;
    Ok(())
}

/// Notes the reads that the entry makes with what it meets in the history. If it is a token, its activity
/// has the number.
///
/// # Errors
/// `AllocError` where there is no memory; what the table had it still has.
pub(crate) fn note(
    history: &NumberedHistory,
    number: usize,
    reads: &mut Reads,
    entry: &Entry,
) -> Result<(), AllocError>
    requires { NumbersEntry history.now.names entry.now number }
    ensures kept { Within (Contains reads.new) reads.old }
    ensures ok { OnOk result (IsCompleteWith reads.old history.now.entries entry.now reads.new) }
{
    match entry {
        Entry::Token(token) => {
            note_reads_of(history, number, reads, &TokenRef::of(token))?;
            Ok(())
        }
        Entry::Write(_write) => Ok(()),
        Entry::Fault(_fault) => Ok(()),
        Entry::Answer(_value) => Ok(()),
    }
}
