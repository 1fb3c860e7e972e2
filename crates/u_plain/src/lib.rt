//! The definitions of the theory of firing systems as plain, slow programs.
//!
//! Each is proved against its definition alone, and says nothing of how the machine works. So what
//! the machine answers can be compared with what they answer on worked programs.
#![tactic(auto)]

mod among;
mod enabling;
pub mod examples;
mod holding;
mod ready;
pub mod shuffling;
pub mod worked;

pub use among::are_among;
pub use enabling::{are_in, enabled, is_enabled};
pub use holding::{are_firings, held};
pub use ready::ready_firings;
