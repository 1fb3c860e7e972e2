//! Which statements share a list.
ghost use Rattle.std.specs.Prelude.{◌≡◌};
ghost use Rattle.u_pictures.specs.Sharing.{same_list, has_list, times, shares};

use u_program::{Destination, Statement, has_otherwise};

/// Whether the lists have the same destinations in the same order.
fn same_list(left: &[Destination], right: &[Destination]) -> bool
    ensures { result ≡ same_list left.now right.now }
{
    match (left.split_first(), right.split_first()) {
        (None, None) => true,
        (Some((first, others)), Some((second, more))) => {
            *first == *second && same_list(others, more)
        }
        _ => false,
    }
}

/// Whether the statement has this list, and no second one.
fn has_list(statement: &Statement, to: &[Destination]) -> bool
    ensures { result ≡ has_list to.now statement.now }
{
    !has_otherwise(statement.kind()) && same_list(to, statement.destinations())
}

/// How many of the statements have this list, and no second one.
#[tactic(auto, using(std::proofs::lemmas::List::Sums::count_by_more_no, std::proofs::lemmas::List::Sums::count_by_more_yes))]
pub fn times(statements: &[Statement], to: &[Destination]) -> usize
    ensures { result ≡ times to.now statements.now }
{
    let mut count = 0;
    for statement in statements {
        if has_list(statement, to) {
            count += 1;
        }
    }
    count
}

/// Whether the statement, one of these, shares its list: it has two or more destinations, and another of
/// them has the same list. A `switch` has two lists, and shares none.
pub fn shares(statements: &[Statement], statement: &Statement) -> bool
    ensures { result ≡ shares statements.now statement.now }
{
    !has_otherwise(statement.kind())
        && statement.destinations().len() >= 2
        && times(statements, statement.destinations()) >= 2
}
