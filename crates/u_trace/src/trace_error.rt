//! Why no trace is given.
ghost use Rattle.std.specs.Prelude.{◌≡◌};
ghost use Rattle.u_trace.specs.declared.trace_error.TraceError.TheVariants.{NoMemory};

use std::alloc::AllocError;
use thiserror::Error;

/// Why no trace is given.
#[derive(Clone, Copy, PartialEq, Eq, Debug, Error)]
pub enum TraceError {
    /// The entry is not held.
    #[error("entry not held")]
    NotHeld,
    /// There is no memory.
    #[error("no memory")]
    NoMemory,
}

impl From<AllocError> for TraceError {
    ghost from_gives = { λ _ e. e ≡ NoMemory };

    fn from(_: AllocError) -> TraceError {
        TraceError::NoMemory
    }
}
