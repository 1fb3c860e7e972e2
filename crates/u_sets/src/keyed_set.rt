//! Sets of pairs of a key and a value, by key.
ghost use Rattle.std.specs.Prelude.{◌≡◌, ◌↔◌, ◌++◌, [], OnOk, OnErr, IfOk, IfErr, Contains, IsTrue, map, length};
ghost use Rattle.std.specs.Map.Iter.{deref_pair};
ghost use Rattle.std.specs.Mem.{FitsInMemory};
ghost use Rattle.u_base.specs.Firing.{Distinct};
ghost use Rattle.u_sets.specs.Members.{IsWith};
ghost use Rattle.u_sets.specs.Pairs.{items_of, group_pairs, pairs_of_many, GroupsAreDistinct, HasAnother};

use crate::few::Few;
use indexmap::IndexMap;
use std::alloc::{AllocError, AllocFailed, Global};
use std::hash::Hash;
use std::marker::Model;
use std::mem;
use u_base::ExactOrd;

/// A set of pairs of a key and a value, by key: the pairs of a key are found by its hash. Contracts
/// see the list of the pairs.
#[derive(Drop)]
pub struct KeyedSet<K: ExactOrd + Hash + Drop, V: ExactOrd + Hash + Drop> {
    alloc: Global,
    groups: IndexMap<K, Few<V>>,
}

impl<K: ExactOrd + Hash + Drop, V: ExactOrd + Hash + Drop> Model for KeyedSet<K, V> {
    ghost use Rattle.std.specs.Prelude.{List};
    ghost use Rattle.indexmap.specs.IndexMap.{IsUnique};
    ghost use Rattle.u_sets.specs.Pairs.{pairs_of};

    ghost Value = { List (K × V) };

    ghost view = { λ s. pairs_of s.groups.entries };

    ghost invariant = { λ s. IsUnique K.eq s.groups };
}

/// Adds the pairs of the key, if there are at least so many.
fn push_pairs<'a, K, V: ExactOrd + Hash + Drop>(
    list: &mut Vec<(&'a K, &'a V)>,
    key: &'a K,
    few: &'a Few<V>,
    least: usize,
) -> Result<(), AllocError>
    requires { FitsInMemory V.row }
    ensures ok { OnOk result
        (map deref_pair list.new.items
        ≡ map deref_pair list.old.items ++ group_pairs least (key.now, few.now)) }
    ensures distinct { Distinct (items_of few.now) }
{
    let values = few.as_slice();
    if values.len() < least {
        return Ok(());
    }
    for value in values {
        list.push((key, value))?;
    }
    Ok(())
}

/// The pairs of each key that has at least so many.
fn gather<K: ExactOrd + Hash + Drop, V: ExactOrd + Hash + Drop>(
    groups: &IndexMap<K, Few<V>>,
    alloc: Global,
    least: usize,
) -> Result<Vec<(&K, &V)>, AllocError>
    requires { FitsInMemory V.row }
    ensures all { IfOk result
        (λ v. map deref_pair v.items ≡ pairs_of_many least groups.now.entries) }
    ensures apart { IfOk result (λ _. GroupsAreDistinct groups.now.entries) }
{
    let mut list = Vec::new(alloc);
    for place in 0..groups.len() {
        let Some((key, few)) = groups.get_index(place) else {
            unreachable!()
        };
        push_pairs(&mut list, key, few, least)?;
    }
    Ok(list)
}

impl<K: ExactOrd + Hash + Drop, V: ExactOrd + Hash + Drop> KeyedSet<K, V> {
    /// The empty set. It takes no memory.
    pub fn new(alloc: Global) -> KeyedSet<K, V>
        ensures { result ≡ [] }
    {
        KeyedSet {
            alloc,
            groups: IndexMap::new(alloc),
        }
    }

    /// Whether the pair is there.
    pub fn contains(&self, key: &K, value: &V) -> bool
        ensures { IsTrue result ↔ Contains self.now (key.now, value.now) }
    {
        match self.groups.get(key) {
            Some(few) => few.contains(value),
            None => false,
        }
    }

    /// The values under the key.
    pub fn under(&self, key: &K) -> &[V]
        requires { FitsInMemory V.row }
        ensures all { (v : V) → Contains result.now v ↔ Contains self.now (key.now, v) }
        ensures distinct { Distinct result.now }
    {
        match self.groups.get(key) {
            Some(few) => few.as_slice(),
            None => &[],
        }
    }

    /// Puts the pair in. Returns whether it was new.
    ///
    /// Promise keyed-sets: the set has afterwards exactly the pairs that it had and this one.
    ///
    /// # Errors
    /// `AllocFailed` with the pair where there is no memory; the set stays as it was.
    pub fn insert(&mut self, key: K, value: V) -> Result<bool, AllocFailed<(K, V)>>
        ensures ok { OnOk result (IsWith self.old (key, value) self.new) }
        ensures new { IfOk result (λ b. IsTrue b ↔ (Contains self.old (key, value) → ⊥)) }
        ensures still { IfOk result (λ b. (IsTrue b → ⊥) → self.new ≡ self.old) }
        ensures err { OnErr result (self.new ≡ self.old) }
        ensures back { IfErr result (λ e. e.value ≡ (key, value)) }
    {
        let alloc = self.alloc;
        if let Some(few) = self.groups.get_mut(&key) {
            match few.insert(alloc, value) {
                Ok(added) => return Ok(added),
                Err(failed) => {
                    return Err(AllocFailed {
                        value: (key, failed.value),
                    });
                }
            }
        }
        match self.groups.insert(key, Few::One(value)) {
            Ok(_) => Ok(true),
            Err(failed) => {
                let (key, few) = failed.value;
                let Few::One(value) = few else { unreachable!() };
                Err(AllocFailed {
                    value: (key, value),
                })
            }
        }
    }

    /// Puts the pair in, as `insert` does, and looks for the key once. Returns whether it was new.
    ///
    /// # Errors
    /// `AllocError` where there is no memory; the set stays as it was.
    pub fn put(&mut self, key: K, value: V) -> Result<bool, AllocError>
        ensures ok { OnOk result (IsWith self.old (key, value) self.new) }
        ensures new { IfOk result (λ b. IsTrue b ↔ (Contains self.old (key, value) → ⊥)) }
        ensures still { IfOk result (λ b. (IsTrue b → ⊥) → self.new ≡ self.old) }
        ensures err { OnErr result (self.new ≡ self.old) }
    {
        let alloc = self.alloc;
        let (place, before) = self.groups.insert_full(key, Few::One(value))?;
        let Some(few) = before else {
            return Ok(true);
        };
        let Some(there) = self.groups.get_index_mut(place) else {
            unreachable!()
        };
        let Few::One(value) = mem::replace(there, few) else {
            unreachable!()
        };
        let added = there.insert(alloc, value)?;
        Ok(added)
    }

    /// References to the pairs.
    ///
    /// # Errors
    /// `AllocError` where there is no memory.
    pub fn pairs(&self, alloc: Global) -> Result<Vec<(&K, &V)>, AllocError>
        requires { FitsInMemory V.row }
        ensures all { IfOk result (λ v. map deref_pair v.items ≡ self.now) }
        ensures distinct { IfOk result (λ v. Distinct (map deref_pair v.items)) }
    {
        gather(&self.groups, alloc, 0)
    }

    /// References to the pairs of the keys that have several values.
    ///
    /// # Errors
    /// `AllocError` where there is no memory.
    pub fn shared_pairs(&self, alloc: Global) -> Result<Vec<(&K, &V)>, AllocError>
        requires { FitsInMemory V.row }
        ensures all { IfOk result
            (λ v. (k : K) (x : V) → Contains (map deref_pair v.items) (k, x)
            ↔ (Contains self.now (k, x) × HasAnother (λ y. Contains self.now (k, y)) x)) }
        ensures distinct { IfOk result (λ v. Distinct (map deref_pair v.items)) }
    {
        gather(&self.groups, alloc, 2)
    }
}
