//! The statements that activities execute.
ghost use Rattle.std.specs.Prelude.{◌≡◌};
ghost use Rattle.std.specs.Option.{option_copied};
ghost use Rattle.u_check.specs.Rules.{block_named};
ghost use Rattle.u_rule.specs.Fits.{statement_of};

use u_check::statement_at;
use u_name::{BlockName, Name};
use u_program::{Block, Program, Statement};

/// The block of that name, where the program has it.
fn block_of<'a>(program: &'a Program, name: &BlockName) -> Option<&'a Block>
    ensures { option_copied result ≡ block_named program.now.blocks name.now }
{
    program.blocks().iter().find(|block| block.name() == name)
}

/// The statement that the activity executes, where the program has it.
pub(crate) fn executed<'a>(program: &'a Program, activity: &Name) -> Option<&'a Statement>
    ensures { option_copied result
        ≡ statement_of program.now.blocks activity.now.block activity.now.statement }
{
    let block = block_of(program, activity.block())?;
    let statement = statement_at(block.statements(), activity.statement())?;
    Some(statement)
}
