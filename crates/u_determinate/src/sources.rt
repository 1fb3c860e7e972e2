//! What the arcs to a port come from, counted in one pass over a block.
ghost use Rattle.std.specs.Prelude.{◌≡◌, ℕ, ◌+◌, ◌-◌, ◌<◌, ◌≤◌, ◌==◌, ◌&&◌, if◌then◌else◌, length, slice_index_or, replicate, IfOk};
ghost use Rattle.u_check.specs.Rules.{list_of};
ghost use Rattle.u_determinate.specs.Tables.{are_enter_and_next, with_source, list_number, ArcsBefore, AreSources};

use crate::kinds::way_of;
use std::alloc::{AllocError, Global};
use u_program::{Destination, Statement};

/// The way into a loop's turn that an arc is.
#[derive(Clone, Copy)]
pub enum Way {
    /// From an `enter`.
    Enter,
    /// From a `next`.
    Next,
    /// From any other statement.
    Other,
}

/// Where an arc comes from.
#[derive(Clone, Copy)]
pub struct Source {
    /// The number of its statement, from 1.
    pub statement: usize,
    /// Whether it stands in the list on which a `switch` sends on false.
    pub on_false: bool,
    /// The way into a loop's turn that it is.
    pub way: Way,
}

/// What the arcs to a port come from.
#[derive(Clone, Copy)]
pub enum Sources {
    /// There is no arc.
    Nothing,
    /// There is one, which comes from there.
    One(Source),
    /// There are two, one from an `enter` and one from a `next`.
    EnterAndNext,
    /// There are others or more.
    Many,
}

/// Whether of two arcs one is from an `enter` and one from a `next`.
fn are_enter_and_next(first: Way, second: Way) -> bool
    ensures { result ≡ are_enter_and_next first second }
{
    matches!(
        (first, second),
        (Way::Enter, Way::Next) | (Way::Next, Way::Enter)
    )
}

/// What the arcs come from where there is one more.
fn with(sources: Sources, source: Source) -> Sources
    ensures { result ≡ with_source sources source }
{
    match sources {
        Sources::Nothing => Sources::One(source),
        Sources::One(first) if are_enter_and_next(first.way, source.way) => Sources::EnterAndNext,
        _ => Sources::Many,
    }
}

/// Adds an arc to the statement of that number, where there is one.
fn add(table: &mut [Sources], number: usize, source: Source)
    ensures { (n : ℕ)
        → 1 ≤ n
        → n ≤ length table.old
        → slice_index_or table.new (n - 1) Sources.Nothing
        ≡ (if n == number
        then with_source (slice_index_or table.old (n - 1) Sources.Nothing) source
        else slice_index_or table.old (n - 1) Sources.Nothing) }
{
    if number >= 1 && number <= table.len() {
        let place = number - 1;
        table[place] = with(table[place], source);
    }
}

/// Where a statement sends, or where a `switch` sends on false.
fn sent_by(statement: &Statement, on_false: bool) -> &[Destination]
    ensures { result.now ≡ list_of statement.now on_false }
{
    if on_false {
        statement.otherwise()
    } else {
        statement.destinations()
    }
}

/// Adds the arcs to that port of any statement from one list of the statement at that place.
fn add_list(table: &mut [Sources], port: u8, statements: &[Statement], place: usize, on_false: bool)
    requires there { place < length statements.now }
    requires known { ArcsBefore statements.now port (list_number (place + 1) on_false) 0 table.old }
    ensures { ArcsBefore statements.now port (list_number (place + 1) on_false + 1) 0 table.new }
{
    let statement = &statements[place];
    let source = Source {
        statement: place + 1,
        on_false,
        way: way_of(statement.kind()),
    };
    for destination in sent_by(statement, on_false) {
        if destination.port == port {
            add(table, usize::from(destination.statement), source);
        }
    }
}

/// So many statements to which no arc leads.
///
/// # Errors
/// `AllocError` where there is no memory.
fn unfed(alloc: Global, count: usize) -> Result<Vec<Sources>, AllocError>
    ensures { IfOk result (λ v. v.items ≡ replicate count Sources.Nothing) }
{
    let table = vec![in alloc; Sources::Nothing; count]?;
    Ok(table)
}

/// Adds all arcs to that port of any statement.
fn add_all(table: &mut [Sources], port: u8, statements: &[Statement])
    requires { ArcsBefore statements.now port 2 0 table.old }
    ensures { AreSources statements.now port table.new }
{
    for place in 0..statements.len() {
        add_list(table, port, statements, place, false);
        add_list(table, port, statements, place, true);
    }
}

/// What the arcs to that port of each statement come from.
///
/// # Errors
/// `AllocError` where there is no memory.
pub fn sources_of(
    alloc: Global,
    statements: &[Statement],
    port: u8,
) -> Result<Vec<Sources>, AllocError>
    ensures { IfOk result (λ t. AreSources statements.now port t.items) }
{
    let mut table = unfed(alloc, statements.len())?;
    add_all(&mut table, port, statements);
    Ok(table)
}
