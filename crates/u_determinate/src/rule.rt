//! The rules of strict programs.
//!
//! A breach is the denial of what a rule asks of one statement or loop, so one definition for each rule
//! makes the answer exact both ways.
ghost use Rattle.std.specs.Prelude.{◌≡◌};
ghost use Rattle.u_determinate.specs.Breaches.{number_of};

use std::fmt;

/// What a strict program keeps beyond the rules of the checker.
#[derive(Clone, Copy, Debug, PartialEq, Eq)]
pub enum StrictRule {
    /// Each port of a statement but `begin`, `param` and `back` has one arc, or one from an `enter`
    /// and one from a `next`. Broken by the statement of the port.
    OneSource,
    /// A block has one `end` at most. Broken by the second.
    OneEnd,
    /// A `back` is named by one `apply`. Broken by the `back`.
    OneApply,
    /// Whether a loop goes on depends on one statement of it. Broken by the loop.
    OneTest,
}

impl StrictRule {
    /// The rule's number, 1 to 4, by which rules are ordered.
    pub fn number(self) -> u8
        ensures { result ≡ number_of self }
    {
        match self {
            StrictRule::OneSource => 1,
            StrictRule::OneEnd => 2,
            StrictRule::OneApply => 3,
            StrictRule::OneTest => 4,
        }
    }
}

/// Prints the rule's number.
impl fmt::Display for StrictRule {
    ghost use Rattle.std.specs.Prelude.{Some};
    ghost use Rattle.std.specs.Fmt.{decimal};

    ghost output = { λ r. Some (decimal (number_of r)) };

    fn fmt<W: fmt::Write>(&self, f: &mut fmt::Formatter<W>) -> fmt::Result {
        write!(f, "{}", self.number())
    }
}
