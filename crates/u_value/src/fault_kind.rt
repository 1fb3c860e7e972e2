//! Why a firing gives a fault.
ghost use Rattle.std.specs.Prelude.{◌≡◌};
ghost use Rattle.u_value.specs.FaultKinds.{fault_kind_cmp, fault_kind_text};

use std::cmp::Ordering;

/// Why a firing gives a fault and no value, in the order in which faults are listed.
#[derive(Clone, Copy, Debug, PartialEq, Eq, PartialOrd, Ord, Hash)]
pub enum FaultKind {
    /// An operand is of another kind than the operator takes.
    Kind,
    /// The result is no signed number of 64 bits.
    Overflow,
    /// The divisor is 0.
    Zero,
    /// The new context would be deeper than 64.
    Deep,
    /// The initiation is the greatest one already.
    Initiation,
    /// The length is outside 0 to 1000000.
    Length,
    /// The index is below 0 or not below the length.
    Bounds,
    /// A procedure takes another number of arguments than the call has.
    Arity,
}

impl FaultKind {
    /// By the place in the list of the kinds, as `cmp`.
    #[tactic(auto, using(crate::specs::ExactOrders::derived_fault_kind_cmp))]
    pub fn compare(self, other: FaultKind) -> Ordering
        ensures { result ≡ fault_kind_cmp self other }
    {
        self.cmp(&other)
    }

    /// The word for the kind, as a report has it.
    pub fn text(self) -> &'static str
        ensures { result.now ≡ fault_kind_text self }
    {
        match self {
            FaultKind::Kind => "kind",
            FaultKind::Overflow => "overflow",
            FaultKind::Zero => "zero",
            FaultKind::Deep => "deep",
            FaultKind::Initiation => "initiation",
            FaultKind::Length => "length",
            FaultKind::Bounds => "bounds",
            FaultKind::Arity => "arity",
        }
    }
}
