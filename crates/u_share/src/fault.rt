//! Why a member ends before its report.
ghost use Rattle.std.specs.Prelude.{◌≡◌};

use std::alloc::AllocError;
use thiserror::Error;

/// Why a member ends before its report. It prints as the text that stands behind `u: `.
#[derive(Clone, Copy, PartialEq, Eq, Debug, Error)]
pub enum ShareFault {
    /// A firing, taken or its own, had no room.
    #[error("full")]
    Full,
    /// The bus could not be read.
    #[error("not readable")]
    NotReadable,
    /// The bus took no more, or a notice could not be written.
    #[error("not written")]
    NotWritten,
    /// There is no memory.
    #[error("no memory")]
    NoMemory,
}

impl From<AllocError> for ShareFault {
    ghost use Rattle.u_share.specs.declared.fault.ShareFault.TheVariants as faults;

    ghost from_gives = { λ _ e. e ≡ faults.NoMemory };

    fn from(_: AllocError) -> ShareFault {
        ShareFault::NoMemory
    }
}
