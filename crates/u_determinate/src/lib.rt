//! Programs in which two values at one port, or two answers, come from two writes of one cell.
//!
//! A program is **determinate** if, where two arcs lead to one port, at most one of them delivers in each
//! place. `only_writes_clash` is what that is good for: in the runs of such a program only writes clash.
//! `determinacy` says whether a checked program is determinate, or the first place where it is not: by what
//! meets there, then the block, then the statement. The guards of a block's statements are found along its
//! arcs, and then in rounds until nothing is new: a guard is a control and a truth value without which a
//! statement does not fire (`marking`, `hints`, `incoming`, `sides`, `trail`, `first_meeting`).
//!
//! A program is **strict** if each port has one source, each procedure one end, each return one call, and
//! each loop one test. Strict programs are determinate; so are programs in which two sides of a conditional
//! meet in one port, and loops that compute their next values on two sides. `strictness` says whether a
//! checked program is strict, or the first place where it is not: by the rule's number, then the block, then
//! the statement or the loop. `sources`, `calls`, `guards` and `possible` make the tables that it looks
//! things up in, each in one pass over a block; `ports`, `ends`, `calls` and `loops` find the first place in
//! a block.
#![tactic(auto)]

mod answer;
mod calls;
mod clashes;
mod ends;
mod first;
mod first_meeting;
mod guards;
mod hints;
mod incoming;
mod keeps;
mod kinds;
mod loops;
mod marking;
mod numbers;
mod ports;
mod possible;
mod rule;
mod sides;
mod sources;
mod trail;
mod verdict;

pub use answer::Strictness;
pub use clashes::only_writes_clash;
pub use first::{strictness, strictness_of_job};
pub use first_meeting::determinacy;
pub use rule::StrictRule;
pub use verdict::{Determinacy, Meeting, MeetingPoint};
