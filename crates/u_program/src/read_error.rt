//! Why bytes are not the text of a program.
//!
//! A list of 17 destinations has too many only if all of them are right. If one is wrong, the line is not
//! allowed.
ghost use Rattle.std.specs.Prelude.{◌≡◌};

use std::alloc::{AllocError, AllocFailed};
use thiserror::Error;

/// Why no program was read. Lines are counted from 1.
#[derive(Clone, Copy, Debug, PartialEq, Eq, Error)]
pub enum ReadError {
    /// The first line that is not allowed where it stands.
    #[error("program line {0} not allowed")]
    BadLine(usize),
    /// The first line that is not allowed, and is so only for the number of blocks, loops,
    /// statements or destinations.
    #[error("program line {0} has too many")]
    TooMany(usize),
    /// All lines that end with a newline are allowed, and the program does not end with them.
    #[error("program cut short")]
    Truncated,
    /// There is no memory left for the program.
    #[error("no memory")]
    NoMemory,
}

impl From<AllocError> for ReadError {
    ghost use Rattle.u_program.specs.declared.read_error.ReadError.TheVariants as errors;

    ghost from_gives = { λ _ e. e ≡ errors.NoMemory };

    fn from(_: AllocError) -> ReadError {
        ReadError::NoMemory
    }
}

impl<T: Drop> From<AllocFailed<T>> for ReadError {
    ghost use Rattle.u_program.specs.declared.read_error.ReadError.TheVariants as errors;

    ghost from_gives = { λ _ e. e ≡ errors.NoMemory };

    fn from(_: AllocFailed<T>) -> ReadError {
        ReadError::NoMemory
    }
}
