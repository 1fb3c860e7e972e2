//! Reads of cells that have no write.
ghost use Rattle.std.specs.Prelude.{◌≡◌, ◌↔◌, Contains, IsTrue, OnOk, IfOk};
ghost use Rattle.u_sets.specs.Rising.{Rises, IsListOf};
ghost use Rattle.u_sets.specs.Members.{Gains, SomeOf};
ghost use Rattle.u_base.specs.Firing.{Same};
ghost use Rattle.u_trace.specs.Deferred.{IsDeferred, IsUnwritten};
ghost use Rattle.u_trace.specs.Orders.{read_order, by_reader};
ghost use Rattle.u_trace.specs.Gathering.{ReadsOn, ReadsAt, IsFetchIn};

use crate::statements::executed;
use std::alloc::{AllocError, Global};
use u_history::{History, Port};
use u_name::{Cell, Name};
use u_program::{Kind, Program};
use u_rule::{Entry, Token, cell_at};
use u_sets::place_in;
use u_value::Value;

/// A read of a cell that has no write.
#[derive(PartialEq, Eq, PartialOrd, Ord, Hash, Drop)]
pub struct DeferredRead {
    /// The activity that reads: a `fetch`.
    pub reader: Name,
    /// The cell.
    pub cell: Cell,
}

/// Whether the cell has no write.
fn is_unwritten(history: &History, cell: &Cell) -> bool
    ensures { IsTrue result ↔ IsUnwritten (Contains history.now) cell.now }
{
    history.writes_to(cell).is_empty()
}

/// Adds the read of the cell that the structure and the index name, if they name one and it has no
/// write.
fn add_read(
    history: &History,
    reader: &Name,
    structure: &Value,
    index: &Value,
    found: &mut Vec<DeferredRead>,
) -> Result<(), AllocError>
    requires { Rises read_order found.old.items }
    ensures rises { Rises read_order found.new.items }
    ensures ok { OnOk result
        (Gains found.old.items
        (ReadsOn (Contains history.now) reader.now structure.now index.now) found.new.items) }
{
    let named = cell_at(structure, index)?;
    let cell = match named {
        None => return Ok(()),
        Some(cell) => cell,
    };
    if !is_unwritten(history, &cell) {
        return Ok(());
    }
    let reader = reader.copy()?;
    place_in(found, DeferredRead { reader, cell })?;
    Ok(())
}

/// The same with each of the indices.
fn add_reads_with(
    history: &History,
    reader: &Name,
    structure: &Value,
    indices: &[Value],
    found: &mut Vec<DeferredRead>,
) -> Result<(), AllocError>
    requires { Rises read_order found.old.items }
    ensures rises { Rises read_order found.new.items }
    ensures ok { OnOk result
        (Gains found.old.items
        (SomeOf indices.now (ReadsOn (Contains history.now) reader.now structure.now))
        found.new.items) }
{
    for index in indices {
        add_read(history, reader, structure, index, found)?;
    }
    Ok(())
}

/// Whether the activity is one of a `fetch`.
fn is_fetch(program: &Program, activity: &Name) -> bool
    ensures { IsTrue result ↔ IsFetchIn program.now.blocks activity.now }
{
    match executed(program, activity) {
        Some(statement) => matches!(statement.kind(), Kind::Fetch),
        None => false,
    }
}

/// Whether the token stands at the first port of a `fetch`, where the structure comes.
fn is_structure(program: &Program, token: &Token) -> bool
    ensures { IsTrue result
        ↔ ((token.now.port ≡ 1) × IsFetchIn program.now.blocks token.now.activity) }
{
    token.port() == 1 && is_fetch(program, token.activity())
}

/// Adds the deferred reads of the entry's value as the structure, if it is a token at the first
/// port of a `fetch`.
fn add_reads(
    program: &Program,
    history: &History,
    entry: &Entry,
    found: &mut Vec<DeferredRead>,
) -> Result<(), AllocError>
    requires { Rises read_order found.old.items }
    ensures rises { Rises read_order found.new.items }
    ensures ok { OnOk result
        (Gains found.old.items (ReadsAt program.now.blocks (Contains history.now) entry.now)
        found.new.items) }
{
    let Entry::Token(token) = entry else {
        return Ok(());
    };
    if !is_structure(program, token) {
        return Ok(());
    }
    let reader = token.activity();
    let activity = reader.copy()?;
    let port = Port {
        activity,
        number: 2,
    };
    let indices = history.values_at(&port);
    add_reads_with(history, reader, token.value(), indices, found)
}

/// The deferred reads of the history, in order. The entries are those of the history.
///
/// # Errors
/// `AllocError` where there is no memory.
pub(crate) fn deferred_reads(
    alloc: Global,
    program: &Program,
    history: &History,
    entries: &[Entry],
) -> Result<Vec<DeferredRead>, AllocError>
    requires { Same (Contains entries.now) (Contains history.now) }
    ensures { IfOk result
        (λ v. IsListOf by_reader
        (IsDeferred program.now.blocks (Contains history.now)) v.items) }
{
    let mut found = Vec::new(alloc);
    for entry in entries {
        add_reads(program, history, entry, &mut found)?;
    }
    Ok(found)
}
