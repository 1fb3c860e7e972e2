//! Statements by their numbers.
ghost use Rattle.std.specs.Prelude.{◌≡◌, ◌-◌, ◌<◌, ◌≤◌};
ghost use Rattle.std.specs.Option.{option_copied};
ghost use Rattle.u_check.specs.Rules.{statement_at};

use u_program::Statement;

/// The statement of that number, which counts from 1: none where there is no such statement.
#[tactic(auto, unfolding(u_check::specs::Rules::statement_at))]
pub fn statement_at(statements: &[Statement], number: usize) -> Option<&Statement>
    ensures { option_copied result ≡ statement_at statements.now number }
{
    if number == 0 {
        return None;
    }
    statements.get(number - 1)
}
