//! What a replica saved.
ghost use Rattle.std.specs.Prelude.{◌≡◌, [], take};

use std::alloc::Global;
use std::marker::Model;

/// The bytes of a checkpoint, or none where nothing was saved. Contracts see a list.
#[derive(Drop)]
pub(crate) struct Saved {
    bytes: Vec<u8>,
}

impl Model for Saved {
    ghost use Rattle.std.specs.Prelude.{List, ℕ};

    ghost Value = { List ℕ };

    ghost view = { λ s. s.bytes.items };
}

impl Saved {
    /// Nothing was saved yet.
    pub(crate) fn nothing(alloc: Global) -> Saved
        ensures { result ≡ [] }
    {
        Saved {
            bytes: Vec::new(alloc),
        }
    }

    /// These bytes were saved.
    pub(crate) fn new(bytes: Vec<u8>) -> Saved
        ensures { result ≡ bytes.items }
    {
        Saved { bytes }
    }

    /// The first bytes, as many as are kept.
    pub(crate) fn front(&self, keep: usize) -> &[u8]
        ensures { result.now ≡ take keep self.now }
    {
        if keep < self.bytes.len() {
            &self.bytes[..keep]
        } else {
            &self.bytes
        }
    }
}
