//! The second `end` of a block.
ghost use Rattle.std.specs.Prelude.{◌≡◌, ℕ, ◌+◌, ◌<◌, ◌≤◌};
ghost use Rattle.u_determinate.specs.Breaches.{Asks, IsFirstFailing};

use crate::kinds::is_end;
use crate::rule::StrictRule;
use u_program::Block;

/// The number of the second `end` of the block.
pub fn second_end(block: &Block) -> Option<usize>
    ensures { IsFirstFailing (Asks StrictRule.OneEnd block.now) result }
{
    let mut ended = false;
    for (i, statement) in block.statements().iter().enumerate() {
        if is_end(statement.kind()) {
            if ended {
                return Some(i + 1);
            }
            ended = true;
        }
    }
    None
}
