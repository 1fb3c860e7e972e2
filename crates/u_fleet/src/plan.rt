//! What a fleet is to do, and how its workers end.
ghost use Rattle.std.specs.Prelude.{◌≡◌};
ghost use Rattle.u_fleet.specs.declared.plan.FleetFault.TheVariants.{NoMemory};

use std::alloc::AllocError;
use thiserror::Error;

/// What a fleet is to do. The ranges are this project's profile.
#[derive(Clone, Copy, PartialEq, Eq, Debug)]
pub struct FleetPlan {
    /// How many workers there are, 1 to 8, each of them a thread.
    pub workers: u8,
    /// How many rounds a worker has before its last run, 0 to 1,000.
    pub rounds: u32,
    /// How many firings a worker makes in a round at most, 1 to 1,000,000.
    pub budget: usize,
    /// How many firings each worker takes at most, 1 to 1,000,000.
    pub limit: usize,
}

/// How a worker ended.
#[derive(Clone, Copy, PartialEq, Eq, Debug)]
pub enum End {
    /// Its last run left nothing ready, and all that it applied is published.
    Done,
    /// The gate stopped it.
    Stopped,
    /// It had no room for a firing.
    Full,
    /// There was no memory.
    NoMemory,
}

/// Why a fleet has no report.
#[derive(Clone, Copy, PartialEq, Eq, Debug, Error)]
pub enum FleetFault {
    /// The runtime made no thread. It does not come: where no thread can be made, a worker runs on the
    /// thread that was to make it.
    #[error("no thread")]
    NoThread,
    /// An outlet had no place for an inlet, or the board no seat for a worker.
    #[error("no reader")]
    NoReader,
    /// Some firing had no room.
    #[error("full")]
    Full,
    /// There was no memory.
    #[error("no memory")]
    NoMemory,
}

impl From<AllocError> for FleetFault {
    ghost from_gives = { λ _ e. e ≡ NoMemory };

    fn from(_: AllocError) -> FleetFault {
        FleetFault::NoMemory
    }
}
