//! What every other crate rests on, and what knows nothing of programs: the theory of firing systems, exact
//! orders, and exact texts.
//!
//! - **Firing systems** have no code. `specs/Firing.antt` says what one is: entries, firings, what each firing
//!   needs and what it gives. It is an abstract view of the rule of Arvind and Gostelow (1982), in which an
//!   activity that has all its tokens may fire; that nothing which was given is taken away is this project's
//!   profile. `proofs/` has its laws: derivations and what they hold (`Held`), the closure of a set of firings
//!   and of two sets together (`Closure`), runs that fire the least ready firing each time (`Plain`,
//!   `PlainFrom`), and where clashes come from (`Determinate`).
//! - **Exact orders** (`ExactOrd`): nothing ties with anything but itself.
//! - **Exact texts** are read and written so that each value has one text. A reader is built of readers of
//!   parts: one after another, a choice by the first byte, a number, fixed bytes. It reads the longest text
//!   that stands at the front of some bytes, and knows no grammar.
#![tactic(auto)]

mod cutting;
mod exact;
mod numbers;
mod words;
mod writing;

pub use cutting::cut;
pub use exact::ExactOrd;
pub use numbers::{
    after, after_all, long_number_at, long_number0_at, number_at, number0_at, signed_at,
};
pub use words::{BadWord, Words, long_word, negative_word, number_word, number0_word, signed_word};
pub use writing::{
    cut_back, push_behind, push_long, push_long_behind, push_number, push_signed, push_spaced,
};
