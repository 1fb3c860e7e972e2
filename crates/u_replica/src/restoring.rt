//! Replicas that start again from a checkpoint.
//!
//! The life is given by the caller, who alone knows which lives were lived.
ghost use Rattle.std.specs.Prelude.{◌≡◌, ◌≤◌};
ghost use Rattle.u_replica.specs.Restoring.{error_of_reading, error_of_taking, refusal_behind, FitsBehind};

use crate::answer::RestoreError;
use crate::checkpoint::CheckpointError;
use u_machine::ListRefusal;

/// Which replica starts again, and from what.
#[derive(Clone, Copy)]
pub struct Restart<'a> {
    /// Its number, 1 to 8.
    pub number: u8,
    /// Its life, at least 1: one that it did not live before.
    pub life: u64,
    /// The bytes of a checkpoint, or of a front of one.
    pub checkpoint: &'a [u8],
}

/// Why the bytes are no checkpoint, as an error of restoring.
pub(crate) fn unread(error: CheckpointError) -> RestoreError
    ensures { result ≡ error_of_reading error }
{
    match error {
        CheckpointError::BadLine(line) => RestoreError::BadLine(line),
        CheckpointError::TooLong(line) => RestoreError::TooLong(line),
        CheckpointError::NoMemory => RestoreError::NoMemory,
    }
}

/// Why the firings behind so many that were fired were not taken, as an error of restoring.
pub(crate) fn untaken(fired: usize, refusal: ListRefusal) -> RestoreError
    requires { FitsBehind fired refusal }
    ensures { result ≡ error_of_taking (refusal_behind fired refusal) }
{
    match refusal {
        ListRefusal::NotAFiring(place) => RestoreError::NotAFiring(fired + place),
        ListRefusal::Full => RestoreError::Full,
        ListRefusal::NoMemory => RestoreError::NoMemory,
    }
}
