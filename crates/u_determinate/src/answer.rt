//! Whether a program is strict, or where it is not.
use crate::rule::StrictRule;
use std::fmt;

/// Whether a program is strict.
#[derive(Clone, Copy, Debug, PartialEq, Eq)]
pub enum Strictness {
    /// Each block keeps each rule.
    Strict,
    /// A rule is broken.
    Loose {
        /// The first rule, by number, that some block breaks.
        rule: StrictRule,
        /// The number of the first block that breaks it, from 1.
        block: usize,
        /// The first number there at which it is broken, from 1: that of a statement, or of a loop.
        at: usize,
    },
}

/// Prints `strict`, or `not strict` with the rule's number, the block's and the place.
impl fmt::Display for Strictness {
    ghost use Rattle.std.specs.Prelude.{Some};
    ghost use Rattle.u_determinate.specs.Breaches.{words_of};

    ghost output = { λ s. Some (words_of s) };

    fn fmt<W: fmt::Write>(&self, f: &mut fmt::Formatter<W>) -> fmt::Result {
        match self {
            Strictness::Strict => write!(f, "strict"),
            Strictness::Loose { rule, block, at } => {
                write!(f, "not strict rule {rule} block {block} at {at}")
            }
        }
    }
}
