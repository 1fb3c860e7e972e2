//! Marks, asks, deltas and messages.
ghost use Rattle.std.specs.Prelude.{◌≡◌};

use crate::firings::Firings;

/// How much of a peer's log a replica has: so many of the first firings, of that one of the peer's
/// lives.
#[derive(Clone, Copy, Debug, PartialEq, Eq)]
pub struct Mark {
    /// The life of the peer.
    pub life: u64,
    /// How many of the first firings of its log.
    pub count: u64,
}

/// What a replica asks a peer for: the peer's log behind the firings that the asker has.
#[derive(Clone, Copy, Debug, PartialEq, Eq)]
pub struct Ask {
    /// The number of the replica that asks.
    pub asker: u8,
    /// The number of the replica that is asked.
    pub asked: u8,
    /// The life that the asker knows of the asked one.
    pub life: u64,
    /// How many of the first firings of that life's log the asker has.
    pub count: u64,
}

/// A part of a replica's log, sent to another replica.
#[derive(Drop)]
pub struct Delta {
    /// The number of the replica whose log it is.
    pub sender: u8,
    /// The number of the replica that it is sent to.
    pub receiver: u8,
    /// The sender's life.
    pub life: u64,
    /// How many firings of the log stand before the part.
    pub start: u64,
    /// The part.
    pub firings: Firings,
}

/// What one replica sends to another.
#[derive(Drop)]
pub enum Message {
    /// It asks for what it lacks.
    Ask(Ask),
    /// It brings a part of the sender's log.
    Delta(Delta),
}

impl Ask {
    /// What the asker has of the asked one's log.
    pub fn mark(&self) -> Mark
        ensures { (result.life ≡ self.now.life) × (result.count ≡ self.now.count) }
    {
        Mark {
            life: self.life,
            count: self.count,
        }
    }
}
