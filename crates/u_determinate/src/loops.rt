//! The first loop without one test.
ghost use Rattle.std.specs.Prelude.{◌≡◌, ℕ, ◌==◌, ◌&&◌, ◌+◌, ◌-◌, ◌<◌, ◌≤◌, IfOk, length, slice_index_or};
ghost use Rattle.u_check.specs.Rules.{statement_at};
ghost use Rattle.u_determinate.specs.Breaches.{LoopIsTested, Asks, IsFirstFailing};
ghost use Rattle.u_determinate.specs.Tables.{GuardsBefore, PossibleBefore, is_test_of, is_tested};

use crate::guards::{Guards, guards_of};
use crate::kinds::is_test;
use crate::numbers::statement_at;
use crate::possible::possible_tests;
use crate::rule::StrictRule;
use crate::sources::sources_of;
use std::alloc::{AllocError, Global};
use u_program::{Block, Statement};

/// Whether the statement of that number lies in the region and can be a test.
fn is_test_of(statements: &[Statement], number: usize, region: usize) -> bool
    ensures { result ≡ is_test_of (statement_at statements.now number) region }
{
    match statement_at(statements, number) {
        Some(statement) => {
            usize::from(statement.region()) == region && is_test(statement.kind())
        }
        None => false,
    }
}

/// Whether the loop of that number has one test, where these are the tests of its `next`s and
/// `last`s, and that is whether it has a statement that can be one.
fn is_tested(guards: Guards, possible: bool, statements: &[Statement], number: usize) -> bool
    ensures { result ≡ is_tested statements.now number guards possible }
{
    match guards {
        Guards::Nothing => possible,
        Guards::One(test) => is_test_of(statements, test, number),
        Guards::Many => false,
    }
}

/// The number of the first loop without one test.
fn first_loop(table: &[Guards], possible: &[bool], block: &Block) -> Option<usize>
    requires guards { GuardsBefore block.now.statements (length block.now.loops)
        (length block.now.statements) table.now }
    requires possible { PossibleBefore block.now.statements (length block.now.loops)
        (length block.now.statements) possible.now }
    ensures { IsFirstFailing (LoopIsTested block.now) result }
{
    for place in 0..block.loops().len() {
        if !is_tested(table[place], possible[place], block.statements(), place + 1) {
            return Some(place + 1);
        }
    }
    None
}

/// The number of the first loop of the block without one test.
///
/// # Errors
/// `AllocError` where there is no memory.
pub fn first_untested(alloc: Global, block: &Block) -> Result<Option<usize>, AllocError>
    ensures { IfOk result (IsFirstFailing (Asks StrictRule.OneTest block.now)) }
{
    let statements = block.statements();
    let inputs = sources_of(alloc, statements, 1)?;
    let controls = sources_of(alloc, statements, 2)?;
    let table = guards_of(alloc, &inputs, &controls, block)?;
    let possible = possible_tests(alloc, block)?;
    Ok(first_loop(&table, &possible, block))
}
