//! Why an outlet has no inlets, and why an inlet shows nothing.

use thiserror::Error;

/// An outlet has no place for a further reader.
#[derive(Clone, Copy, PartialEq, Eq, Debug, Error)]
#[error("no reader")]
pub struct NoReader;

/// Why a pull returns no firings.
#[derive(Clone, Copy, PartialEq, Eq, Debug, Error)]
pub enum PullFault {
    /// The outlet gives no reading, since it is closed.
    #[error("no reading")]
    NoReading,
    /// There is no memory.
    #[error("no memory")]
    NoMemory,
}
