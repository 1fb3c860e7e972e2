//! Incremental matching: which firings an entry enables as it enters a set of entries.
//!
//! It is the waiting-matching store of a tagged-token machine (Arvind and Gostelow, 1982): a token
//! waits at its port until the other ports of its activity have one. A read of a cell waits besides
//! until the cell has a write, which is the deferred read of an I-structure (Arvind and Nikhil, 1990).
//! That entries stay once they met, so that a port with several values makes a firing for each choice
//! and each write of a cell one for each read, is this project's profile.
//!
//! `Matcher` has a history, which says what stands at each port and in each cell, and a table of the
//! reads that wait for each cell. The table may name more than the history has; what it names is tested
//! before it is returned.
#![tactic(auto)]

mod enabling;
mod halt;
mod joining_tokens;
mod making_firings;
mod matcher;
mod meeting;
mod noting_reads;
mod ordering;
mod waking_reads;

pub use matcher::{Entered, Matcher};
