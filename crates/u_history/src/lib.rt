//! Histories: sets of entries, what they say, and the report of it.
#![tactic(auto)]

mod clash;
mod exact;
mod history;
mod listed;
mod lookup;
mod merging;
mod numbered;
mod outcome;
mod place;
mod report;
mod tables;
mod verdict;

pub use clash::{CellClash, Port, PortClash};
pub use history::History;
pub use listed::Listed;
pub use numbered::NumberedHistory;
pub use outcome::Outcome;
pub use report::{Counts, Ending, report_of_outcome, report_text};
pub use verdict::Verdict;
