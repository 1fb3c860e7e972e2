//! What only a call of the library shows of one machine, of the commands over bytes, and of sources: their trees,
//! what their names mean, and what is made of them. Sources that are refused are rows of tests/sources/refused.txt,
//! programs and maps of sources of tests/cases. A crate is proved once more for its tests, so they stand here.
//!
//! Most functions here only borrow, and return whether something is so, and false without memory. So each
//! of them has few ways out, and is proved safe in a moment.
#![tactic(auto)]

#[cfg(test)]
mod call_tests;
#[cfg(test)]
mod calls;
#[cfg(test)]
mod command_tests;
#[cfg(test)]
mod compile_tests;
#[cfg(test)]
mod name_tests;
#[cfg(test)]
mod tree_tests;
