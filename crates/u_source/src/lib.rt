//! The notation with names, read.
#![tactic(auto)]

mod choosing;
mod form;
mod lexing;
mod mark;
mod parsing;
mod part;
mod place;
mod rule;
mod source;
mod source_error;
mod token;

pub use form::{Form, Node};
pub use lexing::tokens;
pub use mark::Mark;
pub use place::Position;
pub use source::Source;
pub use source_error::{Expected, Found, Problem, SourceError};
pub use token::{Token, Word};
