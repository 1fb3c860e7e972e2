//! What the checker and the firing rule ask of a statement's kind.
ghost use Rattle.std.specs.Prelude.{◌≡◌};
ghost use Rattle.u_check.specs.Kinds.{ports_of, is_begin, is_back, is_last, is_leave, is_apply, is_param, back_named, is_end, is_ask, comes_from_outside, is_of_loop, crosses};

use u_program::Kind;

/// How many ports a statement of that kind has.
pub fn ports_of(kind: &Kind) -> usize
    ensures { result ≡ ports_of kind.now }
{
    match kind {
        Kind::Apply(_, arguments) => 1 + arguments.count() as usize,
        Kind::Select | Kind::Store => 3,
        Kind::Binary(_) | Kind::Switch | Kind::Fetch => 2,
        Kind::Ask(_, operands) => operands.count() as usize,
        _ => 1,
    }
}

/// Whether it is `ask`.
pub fn is_ask(kind: &Kind) -> bool
    ensures { result ≡ is_ask kind.now }
{
    matches!(kind, Kind::Ask(_, _))
}

/// Whether it is `begin`.
pub fn is_begin(kind: &Kind) -> bool
    ensures { result ≡ is_begin kind.now }
{
    matches!(kind, Kind::Begin)
}

/// Whether it is `back`.
pub fn is_back(kind: &Kind) -> bool
    ensures { result ≡ is_back kind.now }
{
    matches!(kind, Kind::Back)
}

/// Whether it is `last`.
pub fn is_last(kind: &Kind) -> bool
    ensures { result ≡ is_last kind.now }
{
    matches!(kind, Kind::Last)
}

/// Whether it is `leave`.
pub fn is_leave(kind: &Kind) -> bool
    ensures { result ≡ is_leave kind.now }
{
    matches!(kind, Kind::Leave)
}

/// Whether it is `apply`.
pub fn is_apply(kind: &Kind) -> bool
    ensures { result ≡ is_apply kind.now }
{
    matches!(kind, Kind::Apply(_, _))
}

/// Whether it is `param`.
pub fn is_param(kind: &Kind) -> bool
    ensures { result ≡ is_param kind.now }
{
    matches!(kind, Kind::Param(_))
}

/// The number of the `back` that an `apply` names; other kinds name none.
pub fn back_named(kind: &Kind) -> Option<u16>
    ensures { result ≡ back_named kind.now }
{
    match kind {
        Kind::Apply(number, _) => Some(*number),
        _ => None,
    }
}

/// Whether it is `end`.
pub fn is_end(kind: &Kind) -> bool
    ensures { result ≡ is_end kind.now }
{
    matches!(kind, Kind::End)
}

/// Whether its value comes from no statement of its block: `begin` and `param`, which take the arguments
/// of a call, and `back`, which takes the result of one.
pub fn comes_from_outside(kind: &Kind) -> bool
    ensures { result ≡ comes_from_outside kind.now }
{
    matches!(kind, Kind::Begin | Kind::Param(_) | Kind::Back)
}

/// Whether it stands only in loops: `next`, `last` and `leave`.
pub fn is_of_loop(kind: &Kind) -> bool
    ensures { result ≡ is_of_loop kind.now }
{
    matches!(kind, Kind::Next | Kind::Last | Kind::Leave)
}

/// Whether it sends from one region into another: `enter` and `leave`.
pub fn crosses(kind: &Kind) -> bool
    ensures { result ≡ crosses kind.now }
{
    matches!(kind, Kind::Enter(_) | Kind::Leave)
}
