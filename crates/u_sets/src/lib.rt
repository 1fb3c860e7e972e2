//! Sets that are kept in order or found by hashes, lists that rise, and lists that have room.
//!
//! `specs/` says when a list rises and what its members are after a key was put in or taken out;
//! `proofs/` has the laws: one set has one list that rises, and how unions of such lists agree.
//! Members are things that tie with nothing but themselves, so that a set never answers for a key
//! that is merely alike: this is the fact of the trait `ExactOrd` of `u_base`.
#![tactic(auto)]

mod column;
mod falling;
mod few;
mod keyed_set;
mod listed_set;
mod ordered_set;
mod placed_set;
mod rising;
mod room;
mod tree_set;

pub use column::Column;
pub use keyed_set::KeyedSet;
pub use listed_set::ListedSet;
pub use ordered_set::{OrderedKeys, OrderedSet};
pub use placed_set::PlacedSet;
pub use rising::{has, place_in, put_in_order};
pub use room::push_into_room;
