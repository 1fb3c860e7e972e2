//! Bytes that come in pieces, split into lines.
ghost use Rattle.std.specs.Prelude.{◌≡◌, ◌≤◌, ◌<◌, ◌+◌, ◌-◌, ◌^◌, ◌++◌, [], OnOk, length, take, IsTrue, ◌↔◌};
ghost use Rattle.u_share.specs.Lines.{longest, first_of};

use std::alloc::{AllocError, Global};

/// The greatest number of bytes of a line.
pub(crate) const LONGEST: usize = 32_768;

/// The line that is open, and how many lines ended before it. Of a line that is too long, no more is
/// kept than shows that.
#[derive(Drop)]
pub(crate) struct Splitter {
    pub begun: Vec<u8>,
    pub ended: u64,
}

impl Splitter {
    /// No line ended yet, and the open one is empty.
    pub fn new(alloc: Global) -> Splitter
        ensures begun { result.begun.items ≡ [] }
        ensures ended { result.ended ≡ 0 }
    {
        Splitter {
            begun: Vec::new(alloc),
            ended: 0,
        }
    }

    /// The bytes go to the end of the open line.
    ///
    /// # Errors
    /// `AllocError` where there is no memory.
    #[tactic(auto, unfolding(crate::specs::Lines::longest))]
    pub fn extend(&mut self, bytes: &[u8]) -> Result<(), AllocError>
        requires { length self.old.begun.items ≤ longest + 1 }
        ensures begun { OnOk result
            (self.new.begun.items ≡ first_of (self.old.begun.items ++ bytes.now)) }
        ensures ended { self.new.ended ≡ self.old.ended }
    {
        let room = (LONGEST + 1).saturating_sub(self.begun.len());
        let count = room.min(bytes.len());
        self.begun.extend_from_slice(&bytes[..count])
    }

    /// The open line ends, and the next one is open.
    pub fn end(&mut self)
        requires { self.old.ended < 2 ^ 64 - 1 }
        ensures begun { self.new.begun.items ≡ [] }
        ensures ended { self.new.ended ≡ self.old.ended + 1 }
    {
        self.begun.clear();
        self.ended += 1;
    }
}
