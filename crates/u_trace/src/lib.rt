//! Where an entry came from, and what a run waits for.
//!
//! `causes` asks a history: which firings of the job have all that they need there, and give the entry?
//! There may be several, as where two activities send the same value to one port. `story` asks a
//! machine: which of its applied firings does the entry need? Of each entry that is needed it takes the
//! one giver that was applied first, so a story is one run of the job, and the least that this choice
//! allows. `blame` finds the cell behind two values at one port. These questions and the choice of the first
//! giver are this project's.
//!
//! `waits` asks a history what is missing. In a tagged-token machine an activity waits until each of its
//! ports has a token (Arvind and Gostelow, 1982), and a read of a cell waits besides until the cell is
//! written: it is a deferred read (Arvind and Nikhil, 1990). Where nothing more can fire and there is no
//! answer, these say why. The question is this project's.
#![tactic(auto)]

mod activities;
mod answer;
mod blame_error;
mod blamed;
mod blaming;
mod causing;
mod exact;
mod filling;
mod finding;
mod firsts;
mod givers;
mod holding;
mod joining;
mod machine_causing;
mod marks;
mod picking;
mod places;
mod ports;
mod reads;
mod sending;
mod statements;
mod table;
mod telling;
mod token_key;
mod token_places;
mod trace_error;
mod waiting_exact;
mod writing;

pub use activities::WaitingActivity;
pub use answer::{Waiting, waits};
pub use blame_error::BlameError;
pub use blamed::{Blame, BlamedWrite};
pub use blaming::blame;
pub use causing::causes;
pub use machine_causing::machine_causes;
pub use ports::Ports;
pub use reads::DeferredRead;
pub use telling::story;
pub use trace_error::TraceError;
pub use writing::{push_read, push_waiting};
