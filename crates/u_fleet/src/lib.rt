//! Fleets: replicas of one job as threads, which publish their logs, pull those of their peers, and claim
//! what they fire.
//!
//! The parts of a round are calls of their own: `gather` takes what an inlet shows, `work` claims buckets
//! and applies ready firings of them, and `send` publishes what is new in a log. `run_fleet` runs workers
//! that go by these parts, each in a thread of its own. A gate may stop a worker after any round, or have
//! it start again from what it saved. `specs/Headline.antt` is what the report promises, for every gate
//! and every schedule of the threads. All of this is this project's profile.
#![tactic(auto)]

mod answer;
mod closing;
mod fleet;
mod gate;
mod gathering;
mod making;
mod plan;
mod report;
mod restarting;
mod rounds;
mod sending;
mod shares;
mod threads;
mod worker;
mod working;

pub use answer::{GatherFault, Work, WorkFault};
pub use fleet::run_fleet;
pub use gate::{Always, Gate, Turn};
pub use gathering::gather;
pub use plan::{End, FleetFault, FleetPlan};
pub use report::Report;
pub use sending::send;
pub use u_outlet::{Inlet, Named, NoReader, Notice, Outlet, Published, PullFault, outlet};
pub use working::work;
