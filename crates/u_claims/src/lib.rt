//! Claims: buckets of work that no two seats hold at once.
//!
//! Each name of an activity belongs to one of 64 buckets. A board has a word for each, which is 0
//! while the bucket is free. A thread is given a seat, which has a number, and claims a bucket by
//! one compare-and-exchange of its word from 0 to that number; it waits for nobody. `specs/Held.antt`
//! is the rule that holds of the words and of all seats between any two such steps, whatever threads
//! take them, and `proofs/Exclusive.antt` has what follows: no two seats hold one bucket.
#![tactic(auto)]

mod answer;
mod board;
mod buckets;
mod mask;
mod rule;
mod seats;

pub use answer::{BoardError, Claimed, Released};
pub use buckets::bucket_of;
pub use seats::{Board, ClaimSeat};
