//! Why the kinds of a source's values are not allowed.
ghost use Rattle.std.specs.Prelude.{◌≡◌};

use crate::kind::Kind;
use std::alloc::AllocFailed;
use std::fmt;
use thiserror::Error;
use u_name::BlockName;
use u_source::Position;

/// What clashes at a place.
#[derive(Clone, Copy, PartialEq, Eq)]
pub enum KindProblem {
    /// A value where one of another kind is expected: the kind that is expected, and the one that is found.
    Unexpected(Kind, Kind),
    /// A variable of a loop whose next value is of another kind than the value that it begins with: its name, the
    /// kind that it begins with, and that of its next value.
    Changed(BlockName, Kind, Kind),
}

impl fmt::Display for KindProblem {
    fn fmt<W: fmt::Write>(&self, f: &mut fmt::Formatter<W>) -> fmt::Result {
        match self {
            KindProblem::Unexpected(expected, found) => {
                write!(f, "{} expected, {} found", expected, found)
            }
            KindProblem::Changed(name, first, next) => {
                f.write_char('`')?;
                for byte in name.as_bytes() {
                    f.write_char(char::from(*byte))?;
                }
                write!(f, "` begins as {} and goes on as {}", first, next)
            }
        }
    }
}

impl fmt::Debug for KindProblem {
    fn fmt<W: fmt::Write>(&self, f: &mut fmt::Formatter<W>) -> fmt::Result {
        write!(f, "{}", self)
    }
}

/// Why the kinds of a source's values are refused.
#[derive(Clone, Copy, Debug, PartialEq, Eq, Error)]
pub enum KindError {
    /// The first clash, by its place, and which one.
    #[error("source line {} column {}: {}", .0.line, .0.column, .1)]
    Refused(Position, KindProblem),
    /// There is no memory left.
    #[error("no memory")]
    NoMemory,
}

impl<T: Drop> From<AllocFailed<T>> for KindError {
    ghost use Rattle.u_scope.specs.declared.kind_error.KindError.TheVariants as errors;

    ghost from_gives = { λ _ e. e ≡ errors.NoMemory };

    fn from(_: AllocFailed<T>) -> KindError {
        KindError::NoMemory
    }
}
