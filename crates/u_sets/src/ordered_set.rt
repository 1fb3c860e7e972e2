//! Sets that are kept in order.
//!
//! A run parks one firing at a time, puts a few among the ready ones and takes the least out; a short list
//! does that without a node of the tree. An item alone that comes before all keys moves from the list that
//! it lies in (`insert_last_of`), since a call by value moves a firing twice.
ghost use Rattle.std.specs.Prelude.{◌≡◌, ◌↔◌, ◌+◌, ◌<◌, ◌≤◌, ◌++◌, [], ◌∷◌, reverse, OnOk, OnErr, IfOk, IfErr, IfSome, IfNone, Contains, IsTrue, IsFalse, length, slice_get};
ghost use Rattle.std.specs.Option.{option_copied};
ghost use Rattle.std.specs.Iterator.{at_most};
ghost use Rattle.std.specs.declared.cmp.Ordering.TheVariants.{Less};
ghost use Rattle.std.specs.Map.Iter.{ShowsInOrder, TakesFirst, deref};
ghost use Rattle.u_sets.specs.Rising.{Rises};
ghost use Rattle.u_sets.specs.Members.{IsWith, IsWithout, TakesLast};
ghost use Rattle.u_sets.specs.Fronted.{IsFronted};

use crate::falling::{place_of, put_in_place};
use crate::room::push_into_room;
use crate::tree_set::TreeSet;
use std::alloc::{AllocError, AllocFailed, Global};
use std::collections::btree_set::Iter;
use std::iter::Iterator;
use std::marker::Model;
use u_base::ExactOrd;

/// The most keys that stand in the list of the least ones.
const MOST_IN_FRONT: usize = 8;

/// A set of keys in ascending order. A few of the least ones stand in a list, the least one last, so
/// that it comes off the end. The others, which are all greater, stand in a tree. Contracts see the
/// ascending list of its keys.
#[derive(Drop)]
pub struct OrderedSet<K: ExactOrd + Drop> {
    front: Vec<K>,
    others: TreeSet<K>,
}

impl<K: ExactOrd + Drop> Model for OrderedSet<K> {
    ghost use Rattle.std.specs.Prelude.{List, ◌++◌, reverse};
    ghost use Rattle.u_sets.specs.Fronted.{IsFronted};

    ghost Value = { List K };

    ghost view = { λ s. reverse s.front.items ++ s.others };

    ghost invariant = { λ s. IsFronted K.cmp (reverse s.front.items) s.others };
}

/// The keys of a set, in order. Those in front are taken from the end.
#[derive(Drop)]
pub struct OrderedKeys<'a, K> {
    front: &'a [K],
    others: Iter<'a, K>,
}

impl<'a, K> Model for OrderedKeys<'a, K> {
    ghost use Rattle.std.specs.Prelude.{List, ◌++◌, reverse};

    ghost Value = { List K };

    ghost view = { λ k. reverse k.front.now ++ k.others };
}

impl<'a, K> Iterator for OrderedKeys<'a, K> {
    type Item = &'a K;

    ghost next_gives = { TakesFirst deref };

    ghost remaining = { λ s. at_most (length s) };

    fn next(&mut self) -> Option<&'a K> {
        match self.front.split_last() {
            Some((first, front)) => {
                self.front = front;
                Some(first)
            }
            None => self.others.next(),
        }
    }
}

/// Whether the least of the keys stands before this one, or is it.
fn goes_behind<K: ExactOrd + Drop>(keys: &TreeSet<K>, key: &K) -> bool
    requires { Rises K.cmp keys.now }
    ensures behind { IsTrue result
        → (x : K) → ((y : K) → Contains keys.now y → K.cmp x y ≡ Less) → K.cmp x key.now ≡ Less }
    ensures before { IsFalse result → (y : K) → Contains keys.now y → K.cmp key.now y ≡ Less }
{
    match keys.first() {
        Some(first) => first.cmp(key).is_le(),
        None => false,
    }
}

/// Puts the greatest key of a full front, which stands first, before the others, which are all
/// greater.
#[inline(never)]
fn move_greatest<K: ExactOrd + Drop>(
    front: &mut Vec<K>,
    others: &mut TreeSet<K>,
) -> Result<(), AllocError>
    requires fronted { IsFronted K.cmp (reverse front.old.items) others.old }
    requires full { 8 ≤ length front.old.items }
    ensures same { reverse front.new.items ++ others.new ≡ reverse front.old.items ++ others.old }
    ensures fronted { IsFronted K.cmp (reverse front.new.items) others.new }
    ensures room { OnOk result (length front.new.items < 8) }
{
    let greatest = front.remove(0);
    match others.insert(greatest) {
        Ok(_) => Ok(()),
        Err(refused) => {
            front.insert(0, refused.value).unwrap();
            Err(AllocError)
        }
    }
}

/// Makes room in the front for one more.
fn make_room<K: ExactOrd + Drop>(
    front: &mut Vec<K>,
    others: &mut TreeSet<K>,
) -> Result<(), AllocError>
    requires { IsFronted K.cmp (reverse front.old.items) others.old }
    ensures same { reverse front.new.items ++ others.new ≡ reverse front.old.items ++ others.old }
    ensures fronted { IsFronted K.cmp (reverse front.new.items) others.new }
    ensures room { OnOk result (length front.new.items < 8) }
{
    if front.len() < MOST_IN_FRONT {
        return Ok(());
    }
    move_greatest(front, others)
}

/// Whether the key stands before all others, and the front has room for it.
fn goes_first<K: ExactOrd + Drop>(front: &[K], others: &TreeSet<K>, key: &K) -> bool
    requires { IsFronted K.cmp (reverse front.now) others.now }
    ensures { IsTrue result → IsFronted K.cmp (key.now ∷ reverse front.now) others.now }
{
    let many = front.len();
    if many == 0 {
        return others.len() == 0;
    }
    if many >= MOST_IN_FRONT {
        return false;
    }
    key.cmp(&front[many - 1]).is_lt()
}

impl<K: ExactOrd + Drop> OrderedSet<K> {
    /// The empty set. It takes no memory.
    pub fn new(alloc: Global) -> OrderedSet<K>
        ensures { result ≡ [] }
    {
        OrderedSet {
            front: Vec::new(alloc),
            others: TreeSet::new(alloc),
        }
    }

    /// How many keys there are.
    pub fn len(&self) -> usize
        ensures len { result ≡ length self.now }
        ensures rises { Rises K.cmp self.now }
    {
        self.front.len() + self.others.len()
    }

    /// Whether there is no key.
    pub fn is_empty(&self) -> bool
        ensures none { IsTrue result → self.now ≡ [] }
        ensures some { IsFalse result → 0 < length self.now }
        ensures rises { Rises K.cmp self.now }
    {
        self.len() == 0
    }

    /// Whether the key is there.
    pub fn contains(&self, key: &K) -> bool
        ensures { IsTrue result ↔ Contains self.now key.now }
    {
        match place_of(&self.front, key) {
            Ok(_) => true,
            Err(_) => self.others.contains(key),
        }
    }

    /// Puts the key in. Returns whether it was new.
    ///
    /// Promise sets-gain-one-item: the set has afterwards exactly what it had and the key.
    ///
    /// # Errors
    /// `AllocFailed` with the key where there is no memory; the set stays as it was.
    pub fn insert(&mut self, key: K) -> Result<bool, AllocFailed<K>>
        ensures ok { OnOk result (IsWith self.old key self.new) }
        ensures new { IfOk result (λ b. IsTrue b ↔ (Contains self.old key → ⊥)) }
        ensures still { IfOk result (λ b. (IsTrue b → ⊥) → self.new ≡ self.old) }
        ensures err { OnErr result (self.new ≡ self.old) }
        ensures back { IfErr result (λ e. e.value ≡ key) }
        ensures rises { Rises K.cmp self.new }
        ensures count { IfOk result (λ b. IsTrue b → length self.new ≡ length self.old + 1) }
    {
        let Ok(()) = make_room(&mut self.front, &mut self.others) else {
            return Err(AllocFailed { value: key });
        };
        if goes_behind(&self.others, &key) {
            let added_behind = self.others.insert(key)?;
            return Ok(added_behind);
        }
        let added_in_front = put_in_place(&mut self.front, key)?;
        Ok(added_in_front)
    }

    /// Takes the last item out of the list, and puts it in.
    #[inline(never)]
    fn insert_taken(&mut self, list: &mut Vec<K>) -> Result<(), AllocError>
        requires { 0 < length list.old.items }
        ensures ok { OnOk result (TakesLast self.old list.old.items self.new list.new.items) }
        ensures err { OnErr result ((self.new ≡ self.old) × (list.new.items ≡ list.old.items)) }
        ensures rises { Rises K.cmp self.new }
    {
        let Some(last) = list.pop() else {
            unreachable!();
        };
        match self.insert(last) {
            Ok(_) => Ok(()),
            Err(refused) => {
                push_into_room(list, refused.value);
                Err(AllocError)
            }
        }
    }

    /// Takes the last item out of the list, and puts it in, unless it is there. An item alone that stands
    /// before all keys is not looked for.
    ///
    /// # Errors
    /// `AllocError` where there is no memory; the set and the list stay as they were.
    pub fn insert_last_of(&mut self, list: &mut Vec<K>) -> Result<(), AllocError>
        requires { 0 < length list.old.items }
        ensures ok { OnOk result (TakesLast self.old list.old.items self.new list.new.items) }
        ensures err { OnErr result ((self.new ≡ self.old) × (list.new.items ≡ list.old.items)) }
        ensures rises { Rises K.cmp self.new }
    {
        if list.len() == 1 && goes_first(&self.front, &self.others, &list[0]) {
            self.front.append(list)?;
            return Ok(());
        }
        self.insert_taken(list)
    }

    /// Takes the key out. Returns whether it was there.
    ///
    /// Promise sets-lose-one-item: the set has afterwards exactly what it had, without the key.
    pub fn remove(&mut self, key: &K) -> bool
        ensures without { IsWithout self.old key.now self.new }
        ensures was { IsTrue result ↔ Contains self.old key.now }
        ensures still { IsFalse result → self.new ≡ self.old }
        ensures rises { Rises K.cmp self.new }
        ensures count { IsTrue result → length self.old ≡ length self.new + 1 }
    {
        let Ok(place) = place_of(&self.front, key) else {
            return self.others.remove(key);
        };
        self.front.remove(place);
        true
    }

    /// The least key.
    pub fn first(&self) -> Option<&K>
        ensures { option_copied result ≡ slice_get self.now 0 }
    {
        match self.front.last() {
            Some(first) => Some(first),
            None => self.others.first(),
        }
    }

    /// Takes the least key out.
    pub fn pop_first(&mut self) -> Option<K>
        ensures some { IfSome result (λ k. self.old ≡ k ∷ self.new) }
        ensures without { IfSome result (λ k. IsWithout self.old k self.new) }
        ensures none { IfNone result ((self.old ≡ []) × (self.new ≡ [])) }
        ensures rises { Rises K.cmp self.new }
    {
        if self.front.len() == 0 {
            return self.others.pop_first();
        }
        self.front.pop()
    }

    /// Takes out a key that is there. The only key is found without comparing.
    pub fn take_out(&mut self, key: &K)
        requires { Contains self.old key.now }
        ensures without { IsWithout self.old key.now self.new }
        ensures rises { Rises K.cmp self.new }
        ensures count { length self.old ≡ length self.new + 1 }
    {
        if self.len() == 1 {
            self.pop_first();
            return;
        }
        self.remove(key);
    }

    /// Takes all keys out. The room of the least ones stays.
    pub fn clear(&mut self)
        ensures { self.new ≡ [] }
    {
        self.front.clear();
        self.others.clear();
    }

    /// The keys, in order.
    pub fn iter(&self) -> OrderedKeys<'_, K>
        ensures rest { result ≡ self.now }
        ensures runs { ShowsInOrder (deref {X = K}) }
    {
        OrderedKeys {
            front: self.front.as_slice(),
            others: self.others.iter(),
        }
    }

    /// The key at that place, counted from 0 in ascending order. It goes over those before it.
    pub fn nth(&self, place: usize) -> Option<&K>
        ensures { option_copied result ≡ slice_get self.now place }
    {
        if place < self.front.len() {
            return self.front.get(self.front.len() - 1 - place);
        }
        self.others.nth(place - self.front.len())
    }
}
