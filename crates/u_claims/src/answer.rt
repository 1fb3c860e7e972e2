//! What the calls of a board answer. Each answer is this project's profile.
//!
//! When `NoSeat` comes can't be said: seats get their numbers one after another, before any thread has the
//! board.
ghost use Rattle.std.specs.Prelude.{◌≡◌};
ghost use Rattle.u_claims.specs.declared.answer.BoardError.TheVariants.{NoMemory};

use std::alloc::{AllocError, AllocFailed};
use thiserror::Error;

/// Why there is no board.
#[derive(Clone, Copy, PartialEq, Eq, Debug, Error)]
pub enum BoardError {
    /// The exchange that draws a seat's number found another count than the last one.
    #[error("no seat")]
    NoSeat,
    /// There is no memory.
    #[error("no memory")]
    NoMemory,
}

impl From<AllocError> for BoardError {
    ghost from_gives = { λ _ e. e ≡ NoMemory };

    fn from(_: AllocError) -> BoardError {
        BoardError::NoMemory
    }
}

impl<T: Drop> From<AllocFailed<T>> for BoardError {
    ghost from_gives = { λ _ e. e ≡ NoMemory };

    fn from(_: AllocFailed<T>) -> BoardError {
        BoardError::NoMemory
    }
}

/// What `claim` did.
#[derive(Clone, Copy, PartialEq, Eq, Debug)]
pub enum Claimed {
    /// The seat holds the bucket, since this call or since an earlier one.
    Held,
    /// Another seat's number stood in the bucket's word: this one, 1 to 8.
    Busy(u8),
}

/// What `release` did.
#[derive(Clone, Copy, PartialEq, Eq, Debug)]
pub enum Released {
    /// The seat held the bucket, and holds it no longer.
    Done,
    /// The seat did not hold the bucket, and nothing changed.
    NotMine,
}
