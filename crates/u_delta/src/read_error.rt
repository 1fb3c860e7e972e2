//! Why bytes are not the text of a message.
ghost use Rattle.std.specs.Prelude.{◌≡◌};

use std::alloc::AllocFailed;
use thiserror::Error;

/// Why no message was read. Lines are counted from 1.
#[derive(Clone, Copy, Debug, PartialEq, Eq, Error)]
pub enum ReadError {
    /// The first line that is not allowed where it stands.
    #[error("message line {0} not allowed")]
    BadLine(usize),
    /// The first line that is longer than 32,768 bytes, where all before it are allowed.
    #[error("message line {0} too long")]
    TooLong(usize),
    /// All lines that end with a newline are allowed, and the message is not complete.
    #[error("message cut short")]
    Truncated,
    /// There is no memory left for the message.
    #[error("no memory")]
    NoMemory,
}

impl<T: Drop> From<AllocFailed<T>> for ReadError {
    ghost use Rattle.u_delta.specs.declared.read_error.ReadError.TheVariants as errors;

    ghost from_gives = { λ _ e. e ≡ errors.NoMemory };

    fn from(_: AllocFailed<T>) -> ReadError {
        ReadError::NoMemory
    }
}
