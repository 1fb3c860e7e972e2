//! The kinds of values.
ghost use Rattle.std.specs.Prelude.{◌≡◌};
ghost use Rattle.u_scope.specs.Kinds.{same_kind, common};

use std::fmt;

/// The kind of a value.
#[derive(Clone, Copy, Debug, PartialEq, Eq)]
pub enum Kind {
    /// A number.
    Number,
    /// A truth value.
    Truth,
    /// A procedure.
    Procedure,
    /// A structure.
    Structure,
}

impl fmt::Display for Kind {
    fn fmt<W: fmt::Write>(&self, f: &mut fmt::Formatter<W>) -> fmt::Result {
        match self {
            Kind::Number => f.write_str("a number"),
            Kind::Truth => f.write_str("a truth value"),
            Kind::Procedure => f.write_str("a procedure"),
            Kind::Structure => f.write_str("a structure"),
        }
    }
}

/// Whether two kinds are the same.
pub(crate) fn is_same(kind: Kind, other: Kind) -> bool
    ensures { result ≡ same_kind kind other }
{
    match (kind, other) {
        (Kind::Number, Kind::Number) => true,
        (Kind::Truth, Kind::Truth) => true,
        (Kind::Procedure, Kind::Procedure) => true,
        (Kind::Structure, Kind::Structure) => true,
        _ => false,
    }
}

/// The kind that both are, if it is one.
pub(crate) fn common(left: Option<Kind>, right: Option<Kind>) -> Option<Kind>
    ensures { result ≡ common left right }
{
    match (left, right) {
        (Some(kind), Some(other)) => {
            if is_same(kind, other) {
                Some(kind)
            } else {
                None
            }
        }
        _ => None,
    }
}
