//! Structures of cells.
//!
//! They are the I-structures of Arvind and Nikhil (1990): a structure is made without values, each of
//! its cells is written by a `store`, and a `fetch` fires once its cell has a write. That a cell with
//! several writes is read once for each of them, and the greatest length, is this project's profile.
ghost use Rattle.std.specs.Prelude.{◌≡◌, ◌↔◌, ◌≤◌, [], ◌∷◌, ◌++◌, IsTrue, IfOk, OnOk, MatchResult, Ok, Err, Some, is_some};
ghost use Rattle.std.specs.List.{list_all};
ghost use Rattle.u_name.specs.Cell.{CellOf, cell_of};
ghost use Rattle.u_rule.specs.Structures.{is_index, cell_named, reads_cell, has_its_write, is_plain, answers, is_answer, wrote, write_read, replied};

use crate::entry::Entry;
use crate::firing::Firing;
use crate::parts::Write;
use std::alloc::AllocError;
use u_check::is_ask;
use u_name::{Cell, Name};
use u_program::Kind;
use u_value::{FaultKind, Reference, Value};

/// Whether the index is that of a cell of a structure of that length.
fn is_index(index: i64, length: u32) -> bool
    ensures { result ≡ is_index index length }
{
    0 <= index && index < i64::from(length)
}

/// The structure and the index that the first two values are, where they name a cell.
///
/// # Errors
/// `Kind` where they are no structure and number. Else `Bounds` where the index is below 0 or not
/// below the structure's length.
pub(crate) fn cell_named(values: &[Value]) -> Result<(&Reference, u32), FaultKind>
    ensures cell { MatchResult result (λ t. cell_named values.now ≡ Ok (cell_of t.0.now.name t.1))
        (λ k. cell_named values.now ≡ Err k) }
    ensures bound { IfOk result (λ t. t.1 ≤ 999999) }
{
    match values {
        [Value::Ref(structure), Value::Int(index), ..] => {
            if is_index(*index, structure.length()) {
                Ok((structure, *index as u32))
            } else {
                Err(FaultKind::Bounds)
            }
        }
        _ => Err(FaultKind::Kind),
    }
}

/// Whether a statement of that kind reads a cell on these values.
fn reads_cell(kind: &Kind, values: &[Value]) -> bool
    ensures { result ≡ reads_cell kind.now values.now }
{
    matches!(kind, Kind::Fetch) && cell_named(values).is_ok()
}

/// Whether the firing has a write exactly where a statement of that kind reads a cell.
pub(crate) fn has_its_write(kind: &Kind, firing: &Firing) -> bool
    ensures { result ≡ has_its_write kind.now firing.now.values firing.now.write }
{
    if reads_cell(kind, firing.values.as_slice()) {
        firing.write.is_some()
    } else {
        firing.write.is_none()
    }
}

/// Whether it is a number or a truth value.
pub(crate) fn is_plain(value: &Value) -> bool
    ensures { result ≡ is_plain value.now }
{
    matches!(value, Value::Int(_) | Value::Bool(_))
}

/// Whether each of the values is a number or a truth value.
pub(crate) fn are_plain(values: &[Value]) -> bool
    ensures { result ≡ list_all is_plain values.now }
{
    values.iter().all(|value| is_plain(value))
}

/// Whether the firing has a write that its activity makes of a plain value, and plain values.
pub(crate) fn answers(firing: &Firing) -> bool
    ensures { result ≡ answers firing.now.activity firing.now.values firing.now.write }
{
    match &firing.write {
        None => false,
        Some(write) => {
            let written = write.get();
            written.writer == firing.activity
                && (are_plain(firing.values.as_slice()) && is_plain(&written.value))
        }
    }
}

/// Whether a firing of a statement of that kind is a reply: of an `ask`, where it has a write.
pub(crate) fn is_answer(kind: &Kind, firing: &Firing) -> bool
    ensures { result ≡ is_answer kind.now firing.now.write }
{
    is_ask(kind) && firing.write.is_some()
}

/// What a reply gives: the write into the one cell of what its activity asked for.
pub(crate) fn replied(firing: &Firing) -> Result<Entry, AllocError>
    requires { IsTrue (is_some firing.now.write) }
    ensures { IfOk result (λ e. replied firing.now.activity firing.now.write ≡ e ∷ []) }
{
    let Some(write) = &firing.write else {
        unreachable!();
    };
    let written = write.get();
    let cell = Cell::new(firing.activity.copy()?, 0);
    let writer = written.writer.copy()?;
    let value = written.value.copy()?;
    Ok(Entry::Write(Write {
        cell,
        writer,
        value,
    }))
}

/// That the activity wrote the value into the structure's cell at that index.
pub(crate) fn wrote(
    structure: &Reference,
    index: u32,
    writer: &Name,
    value: &Value,
) -> Result<Entry, AllocError>
    requires { index ≤ 999999 }
    ensures { IfOk result (λ e. e ≡ wrote (cell_of structure.now.name index) writer.now value.now) }
{
    let cell = Cell::new(structure.name().copy()?, index);
    let writer = writer.copy()?;
    let value = value.copy()?;
    Ok(Entry::Write(Write {
        cell,
        writer,
        value,
    }))
}

/// Adds the write that the firing read, where it has one.
#[tactic(auto, using(crate::proofs::Lists::nothing_more))]
pub(crate) fn add_write(entries: &mut Vec<Entry>, firing: &Firing) -> Result<(), AllocError>
    ensures { OnOk result
        (entries.new.items ≡ entries.old.items ++ write_read firing.now.values firing.now.write) }
{
    let Some(write) = &firing.write else {
        return Ok(());
    };
    let Ok((structure, index)) = cell_named(firing.values.as_slice()) else {
        return Ok(());
    };
    let written = write.get();
    entries.push(wrote(structure, index, &written.writer, &written.value)?)?;
    Ok(())
}

/// The cell that a structure and an index name, where they name one.
///
/// # Errors
/// `AllocError` where there is no memory.
pub fn cell_at(structure: &Value, index: &Value) -> Result<Option<Cell>, AllocError>
    ensures { IfOk result (λ o. (c : CellOf) → (o ≡ Some c)
        ↔ (cell_named (structure.now ∷ index.now ∷ []) ≡ Ok c)) }
{
    let Value::Ref(structure) = structure else {
        return Ok(None);
    };
    let Value::Int(index) = index else {
        return Ok(None);
    };
    if !is_index(*index, structure.length()) {
        return Ok(None);
    }
    let name = structure.name().copy()?;
    Ok(Some(Cell::new(name, *index as u32)))
}

/// Whether it is a cell of the structure.
#[tactic(auto, using(crate::proofs::Cells::same_name))]
fn is_of(structure: &Reference, cell: &Cell) -> bool
    ensures { IsTrue result ↔ (structure.now.name ≡ cell.now.name) }
{
    structure.name() == cell.name()
}

/// Whether it is the structure's cell at that index.
#[tactic(auto, using(crate::proofs::Cells::one_cell))]
fn is_cell(structure: &Reference, index: u32, cell: &Cell) -> bool
    ensures { IsTrue result ↔ (cell_of structure.now.name index ≡ cell.now) }
{
    is_of(structure, cell) && index == cell.index()
}

/// Whether the values are a structure and an index in it, and name that cell.
#[tactic(auto, using(crate::proofs::Cells::named_or))]
pub fn names_cell(structure: &Value, index: &Value, cell: &Cell) -> bool
    ensures { IsTrue result ↔ (cell_named (structure.now ∷ index.now ∷ []) ≡ Ok cell.now) }
{
    match (structure, index) {
        (Value::Ref(structure), Value::Int(index)) => {
            is_index(*index, structure.length()) && is_cell(structure, *index as u32, cell)
        }
        _ => false,
    }
}
