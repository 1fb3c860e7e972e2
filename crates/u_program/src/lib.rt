//! Programs and their texts.
#![tactic(auto)]

mod equality;
mod kind_words;
mod part;
mod program;
mod read_error;
mod reading;
mod text;
mod writing;

pub use kind_words::{count_word, has_otherwise, kind_word, place_word, plain_kinds};
pub use program::{
    Arguments, Block, Constant, Destination, Kind, Parameter, Program, Statement, Version,
};
pub use read_error::ReadError;
pub use text::read;
pub use writing::{push_kind, push_list, push_tail};
