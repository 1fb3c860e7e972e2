//! Sets whose keys have places.
ghost use Rattle.std.specs.Prelude.{◌≡◌, ◌↔◌, [], OnOk, OnErr, IfOk, IfErr, IfSome, IfNone, Contains, IsTrue, length, slice_get, Some};
ghost use Rattle.std.specs.Option.{option_copied};
ghost use Rattle.u_base.specs.Firing.{Distinct};
ghost use Rattle.u_sets.specs.Members.{GoesLast};

use indexmap::IndexSet;
use std::alloc::{AllocFailed, Global};
use std::hash::Hash;
use std::marker::Model;
use u_base::ExactOrd;

/// A set of keys in the order in which they were put in, so that each has a place, counted from 0,
/// which it keeps. Keys are found by their hashes. Contracts see the list of the keys.
#[derive(Drop)]
pub struct PlacedSet<K: ExactOrd + Hash + Drop> {
    keys: IndexSet<K>,
}

impl<K: ExactOrd + Hash + Drop> Model for PlacedSet<K> {
    ghost use Rattle.std.specs.Prelude.{List};
    ghost use Rattle.u_base.specs.Firing.{Distinct};

    ghost Value = { List K };

    ghost view = { λ s. s.keys.keys };

    ghost invariant = { λ s. Distinct s.keys.keys };
}

impl<K: ExactOrd + Hash + Drop> PlacedSet<K> {
    /// The empty set. It takes no memory.
    pub fn new(alloc: Global) -> PlacedSet<K>
        ensures { result ≡ [] }
    {
        PlacedSet {
            keys: IndexSet::new(alloc),
        }
    }

    /// How many keys there are.
    pub fn len(&self) -> usize
        ensures len { result ≡ length self.now }
        ensures distinct { Distinct self.now }
    {
        self.keys.len()
    }

    /// Whether the key is there.
    pub fn contains(&self, key: &K) -> bool
        ensures { IsTrue result ↔ Contains self.now key.now }
    {
        self.keys.contains(key)
    }

    /// The place of the key, if it is there.
    pub fn place_of(&self, key: &K) -> Option<usize>
        ensures place { IfSome result (λ i. slice_get self.now i ≡ Some key.now) }
        ensures none { IfNone result (Contains self.now key.now → ⊥) }
    {
        self.keys.get_index_of(key)
    }

    /// The key at that place, if there is one.
    pub fn get(&self, place: usize) -> Option<&K>
        ensures { option_copied result ≡ slice_get self.now place }
    {
        self.keys.get_index(place)
    }

    /// The keys, in the order in which they were put in.
    pub fn as_slice(&self) -> &[K]
        ensures { result.now ≡ self.now }
    {
        self.keys.as_slice()
    }

    /// Puts the key in. Returns its place, and whether it was new.
    ///
    /// Promise placed-sets: a new key gets the place after all others, and every other key keeps its place.
    ///
    /// # Errors
    /// `AllocFailed` with the key where there is no memory; the set stays as it was.
    pub fn insert(&mut self, key: K) -> Result<(usize, bool), AllocFailed<K>>
        ensures ok { OnOk result (GoesLast self.old key self.new) }
        ensures place { IfOk result (λ r. slice_get self.new r.0 ≡ Some key) }
        ensures new { IfOk result (λ r. IsTrue r.1 ↔ (Contains self.old key → ⊥)) }
        ensures err { OnErr result (self.new ≡ self.old) }
        ensures back { IfErr result (λ e. e.value ≡ key) }
        ensures distinct { Distinct self.new }
    {
        let placed = self.keys.insert_full(key)?;
        Ok(placed)
    }
}
