//! What replicas of one run send to each other: asks, and deltas, which are parts of a log.
//!
//! A replica that lacks a part of a peer's log asks the peer for it. Its mark says how much of
//! which of the peer's lives it has. The peer answers with a delta: what its log has from there
//! on.
#![tactic(auto)]

mod firings;
mod head;
mod lines;
mod log_part;
mod message;
mod ranges;
mod read_error;
mod reading;
mod writing;
mod written_context;

pub use firings::Firings;
pub use lines::{Ahead, look_ahead};
pub use log_part::delta;
pub use message::{Ask, Delta, Mark, Message};
pub use ranges::{all_in_range, in_range};
pub use read_error::ReadError;
pub use reading::read_message;
pub use writing::{write_firings, write_message};
