//! One replica of a run: a machine with a number, a life and marks, which sends and receives parts of
//! logs, merges, and is saved and restored.
#![tactic(auto)]

mod answer;
mod calls;
mod checkpoint;
mod checkpoint_reading;
mod firing_lines;
mod listed_lines;
mod marks;
mod merging;
mod onlooker;
mod replica;
mod restoring;
mod room;
mod spelled_context;
mod taking;

pub use answer::{MergeRefusal, RestoreError};
pub use calls::{Answer, Call};
pub use checkpoint::{Checkpoint, CheckpointError, Ending, write_checkpoint};
pub use checkpoint_reading::read_checkpoint;
pub use onlooker::{Nobody, Onlooker};
pub use replica::Replica;
pub use restoring::Restart;
