//! Verdicts.
use u_value::Value;

/// What is said of an outcome in one word.
#[derive(Clone, Copy)]
pub enum Verdict<'a> {
    /// A port or a cell has more than one value, or there is more than one answer.
    Clashed,
    /// Nothing clashes, and some activity gave a fault.
    Faulted,
    /// Nothing clashes, there is no fault, and this is the answer.
    Answer(&'a Value),
    /// Nothing clashes, and there is neither a fault nor an answer.
    NoAnswer,
}
