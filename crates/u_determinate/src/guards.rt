//! What the tests of the `next`s and `last`s of each loop are, found in one pass over a block.
ghost use Rattle.std.specs.Prelude.{◌≡◌, ℕ, ◌+◌, ◌-◌, ◌<◌, ◌≤◌, ◌==◌, ◌&&◌, if◌then◌else◌, length, slice_index_or, replicate, IfOk};
ghost use Rattle.u_program.specs.Parts.{StatementParts};
ghost use Rattle.u_check.specs.Rules.{statement_at};
ghost use Rattle.u_determinate.specs.Strict.{IsGuarded};
ghost use Rattle.u_determinate.specs.Tables.{side_of, only_source, with_guard, GuardsBefore, AreSources, GuardOf, is_switch_of};

use crate::kinds::side_of;
use crate::numbers::statement_at;
use crate::sources::{Source, Sources};
use std::alloc::{AllocError, Global};
use u_program::{Block, Kind, Statement};

/// What the tests of the `next`s and `last`s of a loop are.
#[derive(Clone, Copy)]
pub enum Guards {
    /// There is no `next` and no `last`.
    Nothing,
    /// Each has the same one: the statement of that number.
    One(usize),
    /// One has none, or two differ.
    Many,
}

/// What they are where there is one more `next` or `last`, with that test.
fn with_guard(guards: Guards, test: Option<usize>) -> Guards
    ensures { result ≡ with_guard guards test }
{
    match (guards, test) {
        (Guards::Nothing, Some(test)) => Guards::One(test),
        (Guards::One(first), Some(test)) if first == test => Guards::One(first),
        _ => Guards::Many,
    }
}

/// Where the only arc comes from.
fn only_source(sources: Sources) -> Option<Source>
    ensures { result ≡ only_source sources }
{
    match sources {
        Sources::One(source) => Some(source),
        _ => None,
    }
}

/// Where the only arc comes from that leads to the statement of that number.
fn only_source_at(table: &[Sources], number: usize) -> Option<Source>
    ensures { 1 ≤ number
        → number ≤ length table.now
        → result ≡ only_source (slice_index_or table.now (number - 1) Sources.Nothing) }
{
    if number == 0 || number > table.len() {
        return None;
    }
    only_source(table[number - 1])
}

/// Whether the statement of that number is a `switch` of the region.
fn is_switch_of(statements: &[Statement], number: usize, region: u8) -> bool
    ensures { result ≡ is_switch_of (statement_at statements.now number) region }
{
    match statement_at(statements, number) {
        Some(statement) => {
            matches!(statement.kind(), Kind::Switch) && statement.region() == region
        }
        None => false,
    }
}

/// The number of the statement on which the `next` or `last` at that place depends, by a `switch`
/// that sends to it from that list.
fn guard_of(
    inputs: &[Sources],
    controls: &[Sources],
    statements: &[Statement],
    place: usize,
    on_false: bool,
) -> Option<usize>
    requires there { place < length statements.now }
    requires inputs { AreSources statements.now 1 inputs.now }
    requires controls { AreSources statements.now 2 controls.now }
    ensures { GuardOf statements.now (place + 1) on_false result }
{
    let region = statements[place].region();
    let Some(input) = only_source_at(inputs, place + 1) else {
        return None;
    };
    if input.on_false != on_false || !is_switch_of(statements, input.statement, region) {
        return None;
    }
    let Some(control) = only_source_at(controls, input.statement) else {
        return None;
    };
    Some(control.statement)
}

/// Adds the test to the loop of that number, where there is one.
fn add_guard(table: &mut [Guards], number: usize, test: Option<usize>)
    ensures { (n : ℕ)
        → 1 ≤ n
        → n ≤ length table.old
        → slice_index_or table.new (n - 1) Guards.Nothing
        ≡ (if n == number
        then with_guard (slice_index_or table.old (n - 1) Guards.Nothing) test
        else slice_index_or table.old (n - 1) Guards.Nothing) }
{
    if number >= 1 && number <= table.len() {
        let place = number - 1;
        table[place] = with_guard(table[place], test);
    }
}

/// So many loops without a `next` and a `last`.
///
/// # Errors
/// `AllocError` where there is no memory.
fn unguarded(alloc: Global, count: usize) -> Result<Vec<Guards>, AllocError>
    ensures { IfOk result (λ v. v.items ≡ replicate count Guards.Nothing) }
{
    let table = vec![in alloc; Guards::Nothing; count]?;
    Ok(table)
}

/// Adds the tests of all `next`s and `last`s.
fn add_guards(
    table: &mut [Guards],
    inputs: &[Sources],
    controls: &[Sources],
    statements: &[Statement],
)
    requires none { GuardsBefore statements.now (length table.old) 0 table.old }
    requires inputs { AreSources statements.now 1 inputs.now }
    requires controls { AreSources statements.now 2 controls.now }
    ensures { GuardsBefore statements.now (length table.old) (length statements.now) table.new }
{
    for place in 0..statements.len() {
        let statement = &statements[place];
        if let Some(on_false) = side_of(statement.kind()) {
            let test = guard_of(inputs, controls, statements, place, on_false);
            add_guard(table, usize::from(statement.region()), test);
        }
    }
}

/// What the tests of the `next`s and `last`s of each loop are.
///
/// # Errors
/// `AllocError` where there is no memory.
pub fn guards_of(
    alloc: Global,
    inputs: &[Sources],
    controls: &[Sources],
    block: &Block,
) -> Result<Vec<Guards>, AllocError>
    requires inputs { AreSources block.now.statements 1 inputs.now }
    requires controls { AreSources block.now.statements 2 controls.now }
    ensures { IfOk result (λ t. GuardsBefore block.now.statements (length block.now.loops)
        (length block.now.statements) t.items) }
{
    let mut table = unguarded(alloc, block.loops().len())?;
    add_guards(&mut table, inputs, controls, block.statements());
    Ok(table)
}
