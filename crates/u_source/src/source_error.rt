//! Why bytes are not a source.
ghost use Rattle.std.specs.Prelude.{◌≡◌};

use crate::mark::Mark;
use crate::place::Position;
use std::alloc::AllocFailed;
use std::fmt;
use thiserror::Error;
use u_name::BlockName;

/// What would have been allowed at a place.
#[derive(Clone, Copy, Debug, PartialEq, Eq)]
pub enum Expected {
    /// A keyword or a sign.
    Mark(Mark),
    /// A name.
    Name,
    /// An expression.
    Expression,
}

impl fmt::Display for Expected {
    fn fmt<W: fmt::Write>(&self, f: &mut fmt::Formatter<W>) -> fmt::Result {
        match self {
            Expected::Mark(mark) => write_quoted(f, mark.text()),
            Expected::Name => f.write_str("a name"),
            Expected::Expression => f.write_str("an expression"),
        }
    }
}

/// Writes bytes of ASCII between backquotes.
fn write_quoted<W: fmt::Write>(f: &mut fmt::Formatter<W>, bytes: &[u8]) -> fmt::Result {
    f.write_char('`')?;
    for byte in bytes {
        f.write_char(char::from(*byte))?;
    }
    f.write_char('`')
}

/// What stands at a place.
#[derive(Clone, Copy, PartialEq, Eq)]
pub enum Found {
    /// A name.
    Name(BlockName),
    /// A number from 0 to 2^63.
    Number(u64),
    /// A keyword or a sign.
    Mark(Mark),
    /// The end of the text.
    End,
}

impl fmt::Display for Found {
    fn fmt<W: fmt::Write>(&self, f: &mut fmt::Formatter<W>) -> fmt::Result {
        match self {
            Found::Name(name) => {
                f.write_str("the name ")?;
                write_quoted(f, name.as_bytes())
            }
            Found::Number(number) => write!(f, "the number {}", number),
            Found::Mark(mark) => write_quoted(f, mark.text()),
            Found::End => f.write_str("the end"),
        }
    }
}

impl fmt::Debug for Found {
    fn fmt<W: fmt::Write>(&self, f: &mut fmt::Formatter<W>) -> fmt::Result {
        write!(f, "{}", self)
    }
}

/// What is not allowed at a place.
#[derive(Clone, Copy, Debug, PartialEq, Eq, Error)]
pub enum Problem {
    /// A byte that begins no token.
    #[error("byte not allowed")]
    BadByte,
    /// A number with a leading zero, or with a letter or `_` right behind it.
    #[error("number not allowed")]
    BadNumber,
    /// A number above 2^63, or 2^63 without a minus before it.
    #[error("number out of range")]
    NumberRange,
    /// A name of more than 16 bytes.
    #[error("name has more than 16 bytes")]
    LongName,
    /// A token that does not go on with what stands before it.
    #[error("{} expected, {} found", .0, .1)]
    Unexpected(Expected, Found),
    /// A fifth parameter.
    #[error("more than 4 parameters")]
    MoreParameters,
    /// A fifth argument.
    #[error("more than 4 arguments")]
    MoreArguments,
    /// More than 60 levels of nesting.
    #[error("nested too deep")]
    TooDeep,
    /// A `;` behind a value which is no call.
    #[error("value goes nowhere")]
    Nowhere,
}

/// Why bytes are not a source.
#[derive(Clone, Copy, Debug, PartialEq, Eq, Error)]
pub enum SourceError {
    /// The first place where something is not allowed, and what.
    #[error("source line {} column {}: {}", .0.line, .0.column, .1)]
    Refused(Position, Problem),
    /// There is no memory left.
    #[error("no memory")]
    NoMemory,
}

impl<T: Drop> From<AllocFailed<T>> for SourceError {
    ghost use Rattle.u_source.specs.declared.source_error.SourceError.TheVariants as errors;

    ghost from_gives = { λ _ e. e ≡ errors.NoMemory };

    fn from(_: AllocFailed<T>) -> SourceError {
        SourceError::NoMemory
    }
}
