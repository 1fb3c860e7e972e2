//! How many parameters a procedure has.
//!
//! That a procedure has several parameters, at most four, is this project's profile.
ghost use Rattle.std.specs.Prelude.{◌≡◌, ◌≤◌};
ghost use Rattle.std.specs.Option.{option_copied};
ghost use Rattle.u_rule.specs.Parameters.{one_param, parameters_of};

use u_check::statement_at;
use u_program::{Block, Kind, Statement};

/// 1 where the statement is a `param`, else 0.
fn one_param(statement: Option<&Statement>) -> usize
    ensures number { result ≡ one_param (option_copied statement.entry) }
    ensures bound { one_param (option_copied statement.entry) ≤ 1 }
{
    match statement {
        Some(statement) if matches!(statement.kind(), Kind::Param(_)) => 1,
        _ => 0,
    }
}

/// How many parameters the procedure of that block has, 1 to 4: `begin` takes the first of them, and each
/// `param` takes another.
pub(crate) fn parameters_of(block: &Block) -> usize
    ensures number { result ≡ parameters_of block.now }
    ensures bound { parameters_of block.now ≤ 4 }
{
    let statements = block.statements();
    let second = one_param(statement_at(statements, 2));
    let third = one_param(statement_at(statements, 3));
    let fourth = one_param(statement_at(statements, 4));
    1 + (second + (third + fourth))
}
