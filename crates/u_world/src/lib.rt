//! Worlds: replicas of one job, the messages that they send, and lists of events.
//!
//! An event is one step of one replica: it fires, takes, asks, gets a message, merges, saves or starts
//! again. Messages are kept, so that each of them may be delivered at any time, again, or never. After
//! each list of events a replica's history is fixed by the set of firings that it took.
#![tactic(auto)]

mod acts;
mod event;
mod happening;
mod inside;
mod random;
mod refused;
mod room;
mod saved;
mod script;
mod world;

pub use event::Event;
pub use random::random_events;
pub use refused::WorldError;
pub use script::{ScriptError, read_script};
pub use world::World;
