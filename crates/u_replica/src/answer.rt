//! What the calls of a replica answer, beside those of its machine. Each answer is this project's choice.
ghost use Rattle.std.specs.Prelude.{◌≡◌};
ghost use Rattle.u_replica.specs.declared.answer.MergeRefusal.TheVariants as merges;
ghost use Rattle.u_replica.specs.declared.answer.RestoreError.TheVariants as restores;

use std::alloc::AllocError;
use thiserror::Error;

/// Why a replica was not merged.
#[derive(Clone, Copy, PartialEq, Eq, Debug, Error)]
pub enum MergeRefusal {
    /// The other replica runs another program, or runs it on another argument or with another table.
    #[error("another job")]
    OtherJob,
    /// The replica may not have as many firings besides as the other has new ones.
    #[error("full")]
    Full,
    /// There is no memory.
    #[error("no memory")]
    NoMemory,
}

impl From<AllocError> for MergeRefusal {
    ghost from_gives = { λ _ e. e ≡ merges.NoMemory };

    fn from(_: AllocError) -> MergeRefusal {
        MergeRefusal::NoMemory
    }
}

/// Why no replica was restored. Lines count from 1, places from 0.
#[derive(Clone, Copy, PartialEq, Eq, Debug, Error)]
pub enum RestoreError {
    /// The first line of the checkpoint that is not allowed where it stands.
    #[error("checkpoint line {0} not allowed")]
    BadLine(usize),
    /// The first line that is longer than 32,768 bytes, where all before it are allowed.
    #[error("checkpoint line {0} too long")]
    TooLong(usize),
    /// The firing at this place is the first that is no firing of the job.
    #[error("firing {0} not of this job")]
    NotAFiring(usize),
    /// The checkpoint has more firings than the replica may take.
    #[error("full")]
    Full,
    /// There is no memory.
    #[error("no memory")]
    NoMemory,
}

impl From<AllocError> for RestoreError {
    ghost from_gives = { λ _ e. e ≡ restores.NoMemory };

    fn from(_: AllocError) -> RestoreError {
        RestoreError::NoMemory
    }
}
