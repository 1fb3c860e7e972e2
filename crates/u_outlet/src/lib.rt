//! Outlets and inlets: firings of one job, published by one thread and read by others.
//!
//! An outlet publishes its list of firings batch by batch, over the two copies of `left_right`. Each of
//! its inlets reads the list with no lock, and waits for nobody; the outlet alone may wait, as it
//! publishes and as it is closed. What is published only grows: whatever threads do, and in whatever
//! order, what an inlet sees begins with all that it saw before. `specs/Fronts.antt` is the rule that
//! holds between any two such steps.
//!
//! Each firing that passes is sound, one that some run of the job could make. So who pulls firings can
//! take them in any order, and no other firing comes. All of this is this project's profile.
#![tactic(auto)]

mod answer;
mod ends;
mod making;
mod named;
mod published;
mod publishing;
mod pulling;
mod reading;
mod rule;

pub use answer::{NoReader, PullFault};
pub use ends::{Inlet, Notice, Outlet, OutletOf};
pub use making::outlet;
pub use named::Named;
pub use published::Published;
