//! Entries, firings and the firing rule.
//!
//! The rule is that of Arvind and Gostelow (1982): an activity, one execution of one statement, is
//! enabled once each of its ports has a token, and firing it gives tokens for its successors, by
//! linkage also into a loop, from turn to turn, out of it, into a call and back. A read of a cell needs
//! a write of it too, as in Arvind and Nikhil (1990). That a firing may
//! also give a fault or an answer, that an activity fires once for each choice of values where a
//! port has several, where the places of activities fit, and all orders are this project's profile.
//! So a job is a firing system: a start token, and for each firing what it needs and what it gives.
#![tactic(auto)]

mod entry;
mod exact;
mod firing;
mod firing_reading;
mod fits;
mod giving;
mod held;
mod initiations;
mod lent;
mod parameters;
mod parts;
mod reading;
mod replies;
mod rule;
mod shared_written;
mod structures;
mod values;
mod writing;

pub use entry::Entry;
pub use firing::Firing;
pub use held::{Given, Sending};
pub use lent::{NameRef, TokenRef};
pub use parts::{Fault, MOST_PORTS, Token, Write, Written};
pub use reading::TextError;
pub use replies::{question_of, reply_to, told_to};
pub use rule::{
    RuleError, given, given_by, gives, is_firing, is_fitting, is_own, is_own_of_statement,
    is_reply, needed_by, needs, start, statement_at,
};
pub use shared_written::SharedWritten;
pub use structures::{cell_at, names_cell};
pub use values::Values;
