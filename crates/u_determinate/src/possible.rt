//! Which loops have a statement that can be a test, found in one pass over a block.
ghost use Rattle.std.specs.Prelude.{◌≡◌, ℕ, ◌+◌, ◌-◌, ◌<◌, ◌≤◌, ◌==◌, ◌||◌, false, length, slice_index_or, replicate, IfOk};
ghost use Rattle.u_determinate.specs.Tables.{PossibleBefore};

use crate::kinds::is_test;
use std::alloc::{AllocError, Global};
use u_program::{Block, Statement};

/// Marks the loop of that number, where there is one.
fn mark(table: &mut [bool], number: usize)
    ensures { (n : ℕ)
        → 1 ≤ n
        → n ≤ length table.old
        → slice_index_or table.new (n - 1) false
        ≡ (n == number || slice_index_or table.old (n - 1) false) }
{
    if number >= 1 && number <= table.len() {
        table[number - 1] = true;
    }
}

/// So many loops that are not marked.
///
/// # Errors
/// `AllocError` where there is no memory.
fn unmarked(alloc: Global, count: usize) -> Result<Vec<bool>, AllocError>
    ensures { IfOk result (λ v. v.items ≡ replicate count false) }
{
    let marks = vec![in alloc; false; count]?;
    Ok(marks)
}

/// Marks the loops of all statements that can be a test.
fn mark_all(table: &mut [bool], statements: &[Statement])
    requires { PossibleBefore statements.now (length table.old) 0 table.old }
    ensures { PossibleBefore statements.now (length table.old) (length statements.now) table.new }
{
    for statement in statements {
        if is_test(statement.kind()) {
            mark(table, usize::from(statement.region()));
        }
    }
}

/// Whether each loop has a statement that can be a test.
///
/// # Errors
/// `AllocError` where there is no memory.
pub fn possible_tests(alloc: Global, block: &Block) -> Result<Vec<bool>, AllocError>
    ensures { IfOk result (λ t. PossibleBefore block.now.statements (length block.now.loops)
        (length block.now.statements) t.items) }
{
    let mut table = unmarked(alloc, block.loops().len())?;
    mark_all(&mut table, block.statements());
    Ok(table)
}
