//! Sets of ports.
ghost use Rattle.std.specs.Prelude.{◌≡◌, ◌≤◌, ◌↔◌, ◌⊎◌, ◌==◌, ℕ, IsTrue, IsFalse};
ghost use Rattle.std.specs.Int.{bit_at};
ghost use Rattle.u_name.specs.Context.{IsBetween};
ghost use Rattle.u_rule.specs.Parts.{most_ports};
ghost use Rattle.u_trace.specs.Ports.{has_port};

/// The greatest number of ports that an activity has; a set has room for 7.
pub(crate) const MOST_PORTS: u8 = u_rule::MOST_PORTS as u8;

/// Some of the ports of an activity. Ports are numbered from 1.
#[derive(Clone, Copy, PartialEq, Eq, PartialOrd, Ord, Hash, Debug)]
pub struct Ports {
    /// The bit of a port that is there is 1. The lowest is that of no port, the next that of port 1.
    pub(crate) bits: u8,
}

impl Ports {
    /// No port.
    pub(crate) fn none() -> Ports
        ensures { (k : ℕ) → IsTrue (has_port result k) → ⊥ }
    {
        Ports { bits: 0 }
    }

    /// The ports from 1 to that number.
    pub(crate) fn up_to(count: usize) -> Ports
        requires { count ≤ most_ports }
        ensures { (k : ℕ) → IsTrue (has_port result k) ↔ IsBetween 1 k count }
    {
        Ports {
            bits: (2 << count) - 2,
        }
    }

    /// The ports, and that one.
    pub(crate) fn with(self, port: u8) -> Ports
        requires { port ≤ most_ports }
        ensures { (k : ℕ) → IsTrue (has_port result k)
            ↔ (IsTrue (has_port self k) ⊎ (k ≡ port)) }
    {
        Ports {
            bits: self.bits | (1 << port),
        }
    }

    /// Whether it has the port.
    pub fn contains(&self, port: u8) -> bool
        ensures { result ≡ has_port self.now port }
    {
        has_bit(self.bits, port)
    }

    /// Whether it has no port.
    pub fn is_empty(&self) -> bool
        ensures empty { IsTrue result → (k : ℕ) → IsTrue (has_port self.now k) → ⊥ }
        ensures other { IsFalse result → (k : ℕ) × IsTrue (has_port self.now k) }
    {
        self.bits == 0
    }

    /// The ports that the other has too.
    pub(crate) fn and(self, other: Ports) -> Ports
        ensures { (k : ℕ) → IsTrue (has_port result k)
            ↔ (IsTrue (has_port self k) × IsTrue (has_port other k)) }
    {
        Ports {
            bits: self.bits & other.bits,
        }
    }

    /// The ports that the other lacks.
    pub(crate) fn without(self, other: Ports) -> Ports
        ensures { (k : ℕ) → IsTrue (has_port result k)
            ↔ (IsTrue (has_port self k) × (IsTrue (has_port other k) → ⊥)) }
    {
        Ports {
            bits: self.bits ^ (self.bits & other.bits),
        }
    }
}

/// Whether that bit of the number, counted from the lowest, is 1.
fn has_bit(bits: u8, place: u8) -> bool
    ensures { result ≡ (bit_at bits place == 1) }
{
    if place > 7 {
        return false;
    }
    (bits >> place) & 1 == 1
}
