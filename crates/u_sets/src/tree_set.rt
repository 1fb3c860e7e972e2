//! Trees of keys in order.
//!
//! It keeps its least keys in another way than `OrderedSet`, and promises the same.
ghost use Rattle.std.specs.Prelude.{◌≡◌, ◌↔◌, ◌+◌, ◌^◌, ◌<◌, [], ◌∷◌, OnOk, OnErr, IfOk, IfErr, IfSome, IfNone, Contains, IsTrue, IsFalse, length, slice_get};
ghost use Rattle.std.specs.Option.{option_copied};
ghost use Rattle.std.specs.Map.Iter.{ShowsInOrder, deref};
ghost use Rattle.u_sets.specs.Rising.{Rises};
ghost use Rattle.u_sets.specs.Members.{IsWith, IsWithout};

use std::alloc::{AllocFailed, Global};
use std::collections::BTreeSet;
use std::collections::btree_set::Iter;
use std::marker::Model;
use u_base::ExactOrd;

/// A set of keys in ascending order, in a tree. Contracts see the ascending list of its keys.
#[derive(Drop)]
pub struct TreeSet<K: ExactOrd + Drop> {
    keys: BTreeSet<K>,
}

impl<K: ExactOrd + Drop> Model for TreeSet<K> {
    ghost use Rattle.std.specs.Prelude.{List};
    ghost use Rattle.u_sets.specs.Rising.{Rises};

    ghost Value = { List K };

    ghost view = { λ s. s.keys.keys };

    ghost invariant = { λ s. Rises K.cmp s.keys.keys };
}

impl<K: ExactOrd + Drop> TreeSet<K> {
    /// The empty set. It takes no memory.
    pub fn new(alloc: Global) -> TreeSet<K>
        ensures { result ≡ [] }
    {
        TreeSet {
            keys: BTreeSet::new(alloc),
        }
    }

    /// How many keys there are.
    pub fn len(&self) -> usize
        ensures len { result ≡ length self.now }
        ensures small { result < 2 ^ 63 }
        ensures rises { Rises K.cmp self.now }
    {
        self.keys.len()
    }

    /// Whether the key is there.
    pub fn contains(&self, key: &K) -> bool
        ensures { IsTrue result ↔ Contains self.now key.now }
    {
        self.keys.contains(key)
    }

    /// Puts the key in. Returns whether it was new.
    ///
    /// # Errors
    /// `AllocFailed` with the key where there is no memory; the set stays as it was.
    #[inline(never)]
    pub fn insert(&mut self, key: K) -> Result<bool, AllocFailed<K>>
        ensures ok { OnOk result (IsWith self.old key self.new) }
        ensures new { IfOk result (λ b. IsTrue b ↔ (Contains self.old key → ⊥)) }
        ensures still { IfOk result (λ b. (IsTrue b → ⊥) → self.new ≡ self.old) }
        ensures err { OnErr result (self.new ≡ self.old) }
        ensures back { IfErr result (λ e. e.value ≡ key) }
        ensures rises { Rises K.cmp self.new }
        ensures count { IfOk result (λ b. IsTrue b → length self.new ≡ length self.old + 1) }
    {
        let added = self.keys.insert(key)?;
        Ok(added)
    }

    /// Takes the key out. Returns whether it was there.
    pub fn remove(&mut self, key: &K) -> bool
        ensures without { IsWithout self.old key.now self.new }
        ensures was { IsTrue result ↔ Contains self.old key.now }
        ensures still { IsFalse result → self.new ≡ self.old }
        ensures rises { Rises K.cmp self.new }
        ensures count { IsTrue result → length self.old ≡ length self.new + 1 }
    {
        self.keys.remove(key)
    }

    /// The least key.
    pub fn first(&self) -> Option<&K>
        ensures { option_copied result ≡ slice_get self.now 0 }
    {
        self.keys.first()
    }

    /// Takes the least key out.
    #[inline(never)]
    pub fn pop_first(&mut self) -> Option<K>
        ensures some { IfSome result (λ k. self.old ≡ k ∷ self.new) }
        ensures without { IfSome result (λ k. IsWithout self.old k self.new) }
        ensures none { IfNone result ((self.old ≡ []) × (self.new ≡ [])) }
        ensures rises { Rises K.cmp self.new }
    {
        self.keys.pop_first()
    }

    /// Takes all keys out.
    pub fn clear(&mut self)
        ensures { self.new ≡ [] }
    {
        self.keys.clear();
    }

    /// The keys, in order.
    pub fn iter(&self) -> Iter<'_, K>
        ensures rest { result ≡ self.now }
        ensures runs { ShowsInOrder (deref {X = K}) }
    {
        self.keys.iter()
    }

    /// The key at that place, counted from 0 in ascending order. It goes over those before it.
    pub fn nth(&self, place: usize) -> Option<&K>
        ensures { option_copied result ≡ slice_get self.now place }
    {
        self.keys.iter().nth(place)
    }
}
