//! The first `back` that not one call returns to, by the calls counted in one pass over a block.
//!
//! Two `apply` that name one `back` are two calls, whatever their number of arguments.
ghost use Rattle.std.specs.Prelude.{◌≡◌, ℕ, ◌+◌, ◌-◌, ◌<◌, ◌≤◌, ◌==◌, ◌||◌, not, if◌then◌else◌, IfOk, length, slice_index_or, replicate};
ghost use Rattle.u_check.specs.Kinds.{is_back};
ghost use Rattle.u_determinate.specs.Breaches.{ReturnsOneCall, Asks, IsFirstFailing};
ghost use Rattle.u_determinate.specs.Tables.{with_call, is_one_call, CallsBefore};

use crate::kinds::is_back;
use crate::rule::StrictRule;
use std::alloc::{AllocError, Global};
use u_program::{Block, Kind, Statement};

/// How many `apply`s name a statement.
#[derive(Clone, Copy)]
pub enum Calls {
    /// None does.
    Nothing,
    /// One does.
    One,
    /// More do.
    Many,
}

/// How many do where there is one more.
fn with_call(calls: Calls) -> Calls
    ensures { result ≡ with_call calls }
{
    match calls {
        Calls::Nothing => Calls::One,
        Calls::One | Calls::Many => Calls::Many,
    }
}

/// Adds an `apply` that names the statement of that number, where there is one.
fn add_call(table: &mut [Calls], number: usize)
    ensures { (n : ℕ)
        → 1 ≤ n
        → n ≤ length table.old
        → slice_index_or table.new (n - 1) Calls.Nothing
        ≡ (if n == number
        then with_call (slice_index_or table.old (n - 1) Calls.Nothing)
        else slice_index_or table.old (n - 1) Calls.Nothing) }
{
    if number >= 1 && number <= table.len() {
        let place = number - 1;
        table[place] = with_call(table[place]);
    }
}

/// So many statements that no `apply` names.
///
/// # Errors
/// `AllocError` where there is no memory.
fn uncalled(alloc: Global, count: usize) -> Result<Vec<Calls>, AllocError>
    ensures { IfOk result (λ v. v.items ≡ replicate count Calls.Nothing) }
{
    let table = vec![in alloc; Calls::Nothing; count]?;
    Ok(table)
}

/// Adds all `apply`s.
fn add_calls(table: &mut [Calls], statements: &[Statement])
    requires { CallsBefore statements.now 0 table.old }
    ensures { CallsBefore statements.now (length statements.now) table.new }
{
    for statement in statements {
        if let Kind::Apply(number, _) = statement.kind() {
            add_call(table, usize::from(*number));
        }
    }
}

/// How many `apply`s name each statement.
///
/// # Errors
/// `AllocError` where there is no memory.
#[tactic(auto, using(crate::proofs::CallTables::none_yet))]
fn calls_of(alloc: Global, statements: &[Statement]) -> Result<Vec<Calls>, AllocError>
    ensures { IfOk result (λ t. CallsBefore statements.now (length statements.now) t.items) }
{
    let mut table = uncalled(alloc, statements.len())?;
    add_calls(&mut table, statements);
    Ok(table)
}

/// Whether a statement of that kind is no `back`, or one `apply` names it.
fn returns_one_call(kind: &Kind, calls: Calls) -> bool
    ensures { result ≡ (not (is_back kind.now) || is_one_call calls) }
{
    !is_back(kind) || matches!(calls, Calls::One)
}

/// The number of the first `back` that not one `apply` names.
fn first_back(table: &[Calls], statements: &[Statement]) -> Option<usize>
    requires { CallsBefore statements.now (length statements.now) table.now }
    ensures { IsFirstFailing (ReturnsOneCall statements.now) result }
{
    for place in 0..statements.len() {
        if !returns_one_call(statements[place].kind(), table[place]) {
            return Some(place + 1);
        }
    }
    None
}

/// The number of the first `back` of the block that not one `apply` names.
///
/// # Errors
/// `AllocError` where there is no memory.
pub fn first_called_amiss(alloc: Global, block: &Block) -> Result<Option<usize>, AllocError>
    ensures { IfOk result (IsFirstFailing (Asks StrictRule.OneApply block.now)) }
{
    let statements = block.statements();
    let table = calls_of(alloc, statements)?;
    Ok(first_back(&table, statements))
}
