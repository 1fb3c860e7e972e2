//! Why nothing is said of what is to blame.
ghost use Rattle.std.specs.Prelude.{◌≡◌};
ghost use Rattle.u_trace.specs.declared.blame_error.BlameError.TheVariants.{NoMemory};

use std::alloc::AllocError;
use thiserror::Error;

/// Why nothing is said of what is to blame.
#[derive(Clone, Copy, PartialEq, Eq, Debug, Error)]
pub enum BlameError {
    /// The port has fewer than two values.
    #[error("port not clashed")]
    NotClashed,
    /// There is no memory.
    #[error("no memory")]
    NoMemory,
}

impl From<AllocError> for BlameError {
    ghost from_gives = { λ _ e. e ≡ NoMemory };

    fn from(_: AllocError) -> BlameError {
        BlameError::NoMemory
    }
}
