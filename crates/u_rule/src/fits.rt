//! Which places fit: where a statement's activity lies.
//!
//! Contexts are those of Arvind and Gostelow (1982): a loop and a call each make one. That a place
//! is judged by the program alone, and not by the run so far, is this project's profile.
//!
//! It is a function of the context, by recursion: a loop's context fits if the place that entered it does,
//! a call's if the place of its `apply` does. Whether a run ever comes there is not asked.
ghost use Rattle.std.specs.Prelude.{◌≡◌, IfSome};
ghost use Rattle.std.specs.Option.{option_copied};
ghost use Rattle.u_program.specs.Limits.{IsBlockOf, IsStatement, the_limits};
ghost use Rattle.u_check.specs.Rules.{block_named, names_block};
ghost use Rattle.u_rule.specs.Fits.{statement_of, holder_of, calling_region, fits};

use u_check::{held_by, is_apply, statement_at};
use u_name::{BlockName, Context, Node};
use u_program::{Block, Kind, Program, Statement};

/// The block of that name, where the program has it.
pub(crate) fn block_of<'a>(program: &'a Program, name: &BlockName) -> Option<&'a Block>
    ensures block { option_copied result ≡ block_named program.now.blocks name.now }
    ensures limits { IfSome result (λ b. IsBlockOf the_limits b.now) }
{
    program.blocks().iter().find(|block| block.name() == name)
}

/// Whether the program has a block of that name.
fn names_block(program: &Program, name: &BlockName) -> bool
    ensures { result ≡ names_block program.now.blocks name.now }
{
    program.blocks().iter().any(|block| block.name() == name)
}

/// The statement of that number in the block of that name, where the program has it.
pub(crate) fn statement_of<'a>(
    program: &'a Program,
    block: &BlockName,
    number: u16,
) -> Option<&'a Statement>
    ensures statement { option_copied result ≡ statement_of program.now.blocks block.now number }
    ensures limits { IfSome result (λ s. IsStatement the_limits s.now) }
{
    let block = block_of(program, block)?;
    let statement = statement_at(block.statements(), number)?;
    Some(statement)
}

/// The region that holds that loop of the block, where the program has it.
fn holder_of(program: &Program, block: &BlockName, number: u8) -> Option<u8>
    ensures { result ≡ holder_of program.now.blocks block.now number }
{
    let block = block_of(program, block)?;
    held_by(block.loops(), number)
}

/// The region of a statement, where the program has it and it is an `apply`.
fn calling_region(program: &Program, block: &BlockName, number: u16) -> Option<u8>
    ensures { result ≡ calling_region (statement_of program.now.blocks block.now number) }
{
    match statement_of(program, block, number) {
        Some(statement) if is_apply(statement.kind()) => Some(statement.region()),
        _ => None,
    }
}

/// Whether an activity of that context, block and initiation may execute a statement of that region.
pub(crate) fn fits(
    program: &Program,
    context: &Context,
    block: &BlockName,
    region: u8,
    initiation: u64,
) -> bool
    ensures { result ≡ fits program.now.blocks context.now block.now region initiation }
{
    match context.node() {
        Node::Root => {
            let main = BlockName::new(b"main");
            region == 0 && (initiation == 1 && *block == main)
        }
        Node::Loop {
            outer,
            block: from,
            number,
            initiation: turn,
        } => {
            if region == 0 || number != region || from != block {
                return false;
            }
            match holder_of(program, block, region) {
                None => false,
                Some(holder) => fits(program, outer, block, holder, turn),
            }
        }
        Node::Call {
            outer,
            block: from,
            statement: caller,
            initiation: turn,
        } => {
            if region != 0 || initiation != 1 || !names_block(program, block) {
                return false;
            }
            match calling_region(program, from, caller) {
                None => false,
                Some(calling) => fits(program, outer, from, calling, turn),
            }
        }
    }
}
