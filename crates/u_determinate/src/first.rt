//! The first place where a program is not strict.
//!
//! Arcs are counted in tables, one pass each, so that no statement is looked for. So this takes memory,
//! which the check does not.
ghost use Rattle.std.specs.Prelude.{◌≡◌, IfOk};
ghost use Rattle.u_determinate.specs.Breaches.{Asks, IsFirstFailing, IsFirstIn, IsAnswer, IsExact};

use crate::answer::Strictness;
use crate::calls::first_called_amiss;
use crate::ends::second_end;
use crate::loops::first_untested;
use crate::ports::first_fed_amiss;
use crate::rule::StrictRule;
use std::alloc::{AllocError, Global};
use u_check::{Checked, Job};
use u_program::Block;

/// The rules, in the order of their numbers.
const RULES: [StrictRule; 4] = [
    StrictRule::OneSource,
    StrictRule::OneEnd,
    StrictRule::OneApply,
    StrictRule::OneTest,
];

/// The first number of the block at which it breaks the rule.
fn first_in_block(
    alloc: Global,
    rule: StrictRule,
    block: &Block,
) -> Result<Option<usize>, AllocError>
    ensures { IfOk result (IsFirstFailing (Asks rule block.now)) }
{
    match rule {
        StrictRule::OneSource => first_fed_amiss(alloc, block),
        StrictRule::OneEnd => Ok(second_end(block)),
        StrictRule::OneApply => first_called_amiss(alloc, block),
        StrictRule::OneTest => first_untested(alloc, block),
    }
}

/// The first block that breaks the rule, and the first number there at which it does.
fn first_of_rule(
    alloc: Global,
    rule: StrictRule,
    blocks: &[Block],
) -> Result<Option<(usize, usize)>, AllocError>
    ensures { IfOk result (IsFirstIn blocks.now rule) }
{
    for (i, block) in blocks.iter().enumerate() {
        if let Some(at) = first_in_block(alloc, rule, block)? {
            return Ok(Some((i + 1, at)));
        }
    }
    Ok(None)
}

/// Whether the blocks are strict, or the first place where they are not.
fn strictness_of(alloc: Global, blocks: &[Block]) -> Result<Strictness, AllocError>
    ensures answer { IfOk result (IsAnswer blocks.now) }
    ensures exact { IfOk result (IsExact blocks.now) }
{
    for rule in RULES {
        if let Some((block, at)) = first_of_rule(alloc, rule, blocks)? {
            return Ok(Strictness::Loose { rule, block, at });
        }
    }
    Ok(Strictness::Strict)
}

/// Whether the program is strict, or the first place where it is not. The time is linear in the size of the
/// program.
///
/// Promise strictness-is-exact: `Strict` is returned exactly if the program is strict.
///
/// Promise first-loose-place: of another program the first place is returned that breaks a rule: by the
/// rule's number, then the block, then the statement or the loop.
///
/// # Errors
/// `AllocError` where there is no memory.
pub fn strictness(alloc: Global, checked: &Checked) -> Result<Strictness, AllocError>
    ensures answer { IfOk result (IsAnswer checked.now.blocks) }
    ensures exact { IfOk result (IsExact checked.now.blocks) }
{
    strictness_of(alloc, checked.program().blocks())
}

/// Whether the program of the job is strict, or the first place where it is not, as `strictness`
/// says of a checked program.
///
/// # Errors
/// `AllocError` where there is no memory.
pub fn strictness_of_job(alloc: Global, job: &Job) -> Result<Strictness, AllocError>
    ensures answer { IfOk result (IsAnswer job.now.program.blocks) }
    ensures exact { IfOk result (IsExact job.now.program.blocks) }
{
    strictness_of(alloc, job.program().blocks())
}
