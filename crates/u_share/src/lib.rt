//! Members of a message bus: machines of one job, each of which takes the firings that others printed,
//! fires on its own, and prints what it fired.
//!
//! A bus is anything that carries lines to all who listen. A line is the text of a firing, in any
//! order, late or repeated; any of them may be lost. No line can make a member hold a wrong history,
//! and a member that finds nothing ready holds the whole history of the job by itself. That a run is
//! divided so, and what a member prints and when, are this project's profile.
#![tactic(auto)]

mod bursting;
mod bus;
mod ended;
mod fault;
mod hearing;
mod leading;
mod line_fault;
mod listening;
mod output;
mod sharing;
mod splitting;
mod taking;
mod telling;

pub use bus::{Bus, Plan};
pub use ended::Ended;
pub use fault::ShareFault;
pub use line_fault::LineFault;
pub use sharing::{agree, share};
