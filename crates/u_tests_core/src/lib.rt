//! What only a call of the library shows of names, values, programs, the checker, the firing rule, the
//! matcher, histories, messages and claims: each public function once. Texts that are refused, verdicts
//! and reports are rows of tests/cases.
#![tactic(auto)]

#[cfg(test)]
mod answers;
#[cfg(test)]
mod call_tests;
#[cfg(test)]
mod firing_tests;
#[cfg(test)]
mod history_tests;
#[cfg(test)]
mod matching_tests;
#[cfg(test)]
mod message_tests;
#[cfg(test)]
mod names_tests;
#[cfg(test)]
mod operator_tests;
#[cfg(test)]
mod program_tests;
#[cfg(test)]
mod sets_tests;
#[cfg(test)]
mod table_tests;
#[cfg(test)]
mod text_tests;
#[cfg(test)]
mod thread_tests;
