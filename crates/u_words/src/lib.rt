//! The words of the command line: what they ask for, with the numbers among them, and their help.
#![tactic(auto)]

mod line;
mod number;
mod options;
mod parsing;
mod request;
mod shapes;

pub use line::{NoRequest, arguments, request_in};
pub use number::{firings_of, number_of};
pub use parsing::{below_zero, not_text, parse};
pub use request::{FileRequest, JobRequest, Request, WorldRequest};
