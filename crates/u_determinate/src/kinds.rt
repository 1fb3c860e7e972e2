//! What the rules of strict programs ask of a statement's kind.
ghost use Rattle.std.specs.Prelude.{◌≡◌};
ghost use Rattle.u_check.specs.Kinds.{is_back, is_end, comes_from_outside};
ghost use Rattle.u_determinate.specs.Strict.{is_test};
ghost use Rattle.u_determinate.specs.Tables.{way_of, side_of};

use crate::sources::Way;
use u_program::Kind;

/// Whether its value comes from outside: of a `begin`, a `param` or a `back`.
pub fn comes_from_outside(kind: &Kind) -> bool
    ensures { result ≡ comes_from_outside kind.now }
{
    matches!(kind, Kind::Begin | Kind::Param(_) | Kind::Back)
}

/// Whether it is `end`.
pub fn is_end(kind: &Kind) -> bool
    ensures { result ≡ is_end kind.now }
{
    matches!(kind, Kind::End)
}

/// Whether it is `back`.
pub fn is_back(kind: &Kind) -> bool
    ensures { result ≡ is_back kind.now }
{
    matches!(kind, Kind::Back)
}

/// The way into a loop's turn that an arc from a statement of that kind is.
pub fn way_of(kind: &Kind) -> Way
    ensures { result ≡ way_of kind.now }
{
    match kind {
        Kind::Enter(_) => Way::Enter,
        Kind::Next => Way::Next,
        _ => Way::Other,
    }
}

/// The list of a `switch` from which a `next` or a `last` has its value; other kinds have it from
/// anywhere.
pub fn side_of(kind: &Kind) -> Option<bool>
    ensures { result ≡ side_of kind.now }
{
    match kind {
        Kind::Next => Some(false),
        Kind::Last => Some(true),
        _ => None,
    }
}

/// Whether a statement of that kind can be a loop's test.
pub fn is_test(kind: &Kind) -> bool
    ensures { result ≡ is_test kind.now }
{
    !matches!(
        kind,
        Kind::Enter(_)
            | Kind::Next
            | Kind::Last
            | Kind::Leave
            | Kind::Switch
            | Kind::Apply(_, _)
            | Kind::Store
            | Kind::End
    )
}
