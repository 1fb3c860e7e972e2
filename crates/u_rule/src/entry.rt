//! Entries: what a history has.
//!
//! Tokens are those of Arvind and Gostelow (1982). That faults and answers stand beside them in the
//! history, and the order of all entries, is this project's profile.
ghost use Rattle.std.specs.Prelude.{◌≡◌, IfOk};
ghost use Rattle.u_rule.specs.Orders.{entry_order};

use crate::parts::{Fault, Token, Write};
use std::alloc::AllocError;
use std::cmp::Ordering;
use u_value::Value;

/// What a history has: a token, a write, a fault or an answer. Entries are ordered by kind, as the
/// kinds stand here, and then by what they are made of, part by part.
#[derive(PartialEq, Eq, PartialOrd, Ord, Hash, Drop)]
pub enum Entry {
    /// A value at a port of an activity.
    Token(Token),
    /// A value in a cell.
    Write(Write),
    /// An activity that gave no value.
    Fault(Fault),
    /// What the program answers.
    Answer(Value),
}

impl Entry {
    /// By kind, and then part by part, as `cmp`.
    #[tactic(auto, using(crate::proofs::Orders::derived_entry_cmp))]
    pub fn compare(&self, other: &Entry) -> Ordering
        ensures { result ≡ entry_order self.now other.now }
    {
        self.cmp(other)
    }

    /// An equal entry.
    ///
    /// # Errors
    /// `AllocError` where there is no memory.
    pub fn copy(&self) -> Result<Entry, AllocError>
        ensures { IfOk result (λ e. e ≡ self.now) }
    {
        Ok(match self {
            Entry::Token(token) => Entry::Token(token.copy()?),
            Entry::Write(write) => Entry::Write(write.copy()?),
            Entry::Fault(fault) => Entry::Fault(fault.copy()?),
            Entry::Answer(value) => Entry::Answer(value.copy()?),
        })
    }
}
