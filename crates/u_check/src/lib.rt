//! The checker of programs, tables of replies, and jobs.
#![tactic(auto)]

mod checker;
mod job;
mod keeps;
mod kinds;
mod places;
mod question;
mod rule;
mod table;

pub use checker::{Refused, check};
pub use job::{Checked, Job};
pub use kinds::{is_apply, is_ask, ports_of};
pub use places::{held_by, statement_at};
pub use question::{Operands, Plain, Question};
pub use rule::{Breach, Rule};
pub use table::Table;
