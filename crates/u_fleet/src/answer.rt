//! What the parts of a round answer.

use thiserror::Error;

/// Why `gather` took nothing, or not all.
#[derive(Clone, Copy, PartialEq, Eq, Debug, Error)]
pub enum GatherFault {
    /// The outlet gives no reading, since it is closed.
    #[error("no reading")]
    NoReading,
    /// The replica may not take as many firings besides as there are new ones.
    #[error("full")]
    Full,
    /// There is no memory.
    #[error("no memory")]
    NoMemory,
}

/// What `work` did.
#[derive(Clone, Copy, PartialEq, Eq, Debug)]
pub struct Work {
    /// The buckets that the seat held as it fired, as a mask in which bit b stands for bucket b.
    pub held: u64,
    /// How many firings were made.
    pub fired: usize,
}

/// Why `work` stopped.
#[derive(Clone, Copy, PartialEq, Eq, Debug, Error)]
pub enum WorkFault {
    /// A firing is ready in a held bucket, and the replica has taken as many as it may.
    #[error("full")]
    Full,
    /// There is no memory.
    #[error("no memory")]
    NoMemory,
}
