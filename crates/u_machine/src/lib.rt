//! One machine: it takes firings, applies those that are enabled, and parks the others.
#![tactic(auto)]

mod answer;
mod applying;
mod commands;
mod firing;
mod late_tokens;
mod machine;
mod masks;
mod parked;
mod parts;
mod priority_queue;
mod taking;
mod turning;

pub use answer::{ListRefusal, Ran, Refusal, Step, StepIn, TakeRefusal, Took};
pub use commands::{Command, Reply};
pub use machine::Machine;
pub use parked::{Parked, ParkedFirings};
