//! Sets that are put in order where they are listed.
//!
//! It has the interface of `OrderedSet` over another table. A trait would state the clauses a third time.
ghost use Rattle.std.specs.Prelude.{◌≡◌, ◌↔◌, ◌+◌, [], OnOk, OnErr, IfOk, IfErr, Contains, IsTrue, length, map};
ghost use Rattle.std.specs.Map.Iter.{deref};
ghost use Rattle.indexmap.specs.IndexSet.{IsUnique};
ghost use Rattle.u_base.specs.Firing.{Same};
ghost use Rattle.u_sets.specs.Rising.{Rises};
ghost use Rattle.u_sets.specs.Members.{IsWith};

use indexmap::IndexSet;
use std::alloc::{AllocError, AllocFailed, Global};
use std::hash::Hash;
use std::marker::Model;
use u_base::ExactOrd;

/// A set of keys that are found by their hashes, and that are put in ascending order where they are
/// listed. Contracts see the ascending list of its keys.
#[derive(Drop)]
pub struct ListedSet<K: ExactOrd + Hash + Drop> {
    keys: IndexSet<K>,
}

impl<K: ExactOrd + Hash + Drop> Model for ListedSet<K> {
    ghost use Rattle.std.specs.Prelude.{List};
    ghost use Rattle.u_sets.specs.Rising.{in_order};

    ghost Value = { List K };

    ghost view = { λ s. in_order K.cmp s.keys.keys };
}

impl<K: ExactOrd + Hash + Drop> ListedSet<K> {
    /// The empty set. It takes no memory.
    pub fn new(alloc: Global) -> ListedSet<K>
        ensures { result ≡ [] }
    {
        ListedSet {
            keys: IndexSet::new(alloc),
        }
    }

    /// How many keys there are.
    pub fn len(&self) -> usize
        ensures len { result ≡ length self.now }
        ensures rises { Rises K.cmp self.now }
    {
        self.keys.len()
    }

    /// Whether the key is there.
    pub fn contains(&self, key: &K) -> bool
        ensures { IsTrue result ↔ Contains self.now key.now }
    {
        self.keys.contains(key)
    }

    /// Puts the key in. Returns whether it was new.
    ///
    /// # Errors
    /// `AllocFailed` with the key where there is no memory; the set stays as it was.
    pub fn insert(&mut self, key: K) -> Result<bool, AllocFailed<K>>
        ensures ok { OnOk result (IsWith self.old key self.new) }
        ensures new { IfOk result (λ b. IsTrue b ↔ (Contains self.old key → ⊥)) }
        ensures still { IfOk result (λ b. (IsTrue b → ⊥) → self.new ≡ self.old) }
        ensures err { OnErr result (self.new ≡ self.old) }
        ensures back { IfErr result (λ e. e.value ≡ key) }
        ensures rises { Rises K.cmp self.new }
    {
        let (_, added) = self.keys.insert_full(key)?;
        Ok(added)
    }

    /// The keys, in the order in which they were put in.
    pub fn as_slice(&self) -> &[K]
        ensures { Same (Contains result.now) (Contains self.now) }
    {
        self.keys.as_slice()
    }

    /// References to the keys, in ascending order.
    ///
    /// Promise sets-in-order: exactly the keys of the set are returned, each once.
    ///
    /// # Errors
    /// `AllocError` where there is no memory.
    pub fn in_order(&self, alloc: Global) -> Result<Vec<&K>, AllocError>
        ensures all { IfOk result (λ v. map (deref {X = K}) v.items ≡ self.now) }
        ensures rises { Rises K.cmp self.now }
    {
        let mut all = references(&self.keys, alloc)?;
        all.sort_unstable();
        Ok(all)
    }
}

/// References to the keys, in the order in which they were put in.
fn references<K: ExactOrd + Hash + Drop>(
    keys: &IndexSet<K>,
    alloc: Global,
) -> Result<Vec<&K>, AllocError>
    ensures all { IfOk result (λ v. map (deref {X = K}) v.items ≡ keys.now.keys) }
    ensures unique { IsUnique K.eq keys.now }
{
    keys.iter().collect(alloc)
}
