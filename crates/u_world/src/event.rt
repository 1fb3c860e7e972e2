//! What may happen in a world.
//!
//! Each event owns what it brings, so a list can be kept, repeated and cut.
use u_rule::Firing;

/// One event. Replicas are numbered from 1, messages from 0 in the order in which they were sent.
#[derive(Drop)]
pub enum Event {
    /// The replica fires the ready firing at place `pick`, modulo their number.
    Fire {
        /// The replica's number.
        replica: u8,
        /// The place among the sorted ready firings.
        pick: usize,
    },
    /// The replica takes the firing.
    Take {
        /// The replica's number.
        replica: u8,
        /// The firing.
        firing: Firing,
    },
    /// One replica asks another for what it lacks of the other's log. The ask is the next message.
    Ask {
        /// The number of the replica that asks.
        asker: u8,
        /// The number of the replica that is asked.
        asked: u8,
    },
    /// The message is delivered. The one that an ask is for answers with a delta, which is the next
    /// message; the one that a delta is for receives it.
    Deliver {
        /// The message's place among all that were sent.
        message: usize,
    },
    /// The replica takes all that the other one took.
    Merge {
        /// The replica's number.
        replica: u8,
        /// The other replica's number.
        other: u8,
    },
    /// The replica saves a checkpoint, in place of the one that it saved before.
    Save {
        /// The replica's number.
        replica: u8,
    },
    /// The replica stops, and starts again in its next life from the first bytes of its checkpoint.
    Restart {
        /// The replica's number.
        replica: u8,
        /// How many bytes are left of the checkpoint; all of them where it has fewer.
        keep: usize,
    },
    /// Bytes arrive at the replica from wherever. Where they are the text of a delta, it takes the
    /// delta's firings, and no mark moves; other bytes change nothing.
    Bytes {
        /// The replica's number.
        replica: u8,
        /// The bytes.
        bytes: Vec<u8>,
    },
}
