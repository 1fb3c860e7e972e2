//! Priority queues: of distinct items the least one comes out first.
//!
//! Most woken firings are less than all that are ready, or greater than all. An item that belongs within
//! the run ends it: all of the run goes into the set, and so it does before an item is taken out that is
//! not the least. So each item goes from the run into the set at most once.
ghost use Rattle.std.specs.Prelude.{◌≡◌, ◌↔◌, ◌%◌, ◌<◌, ◌++◌, [], ◌∷◌, OnOk, OnErr, IfSome, IfNone, Contains, IsTrue, IsFalse, length, slice_get};
ghost use Rattle.std.specs.Option.{option_copied};
ghost use Rattle.std.specs.Iterator.{at_most};
ghost use Rattle.std.specs.Map.Iter.{ShowsInOrder, TakesFirst, deref};
ghost use Rattle.u_sets.specs.Rising.{Rises};
ghost use Rattle.u_sets.specs.Members.{IsWith, IsWithout, TakesLast};
ghost use Rattle.u_machine.specs.Queues.{IsBelow, IsAbove, IsBelowSome, Goes, MovesLast};

use std::alloc::{AllocError, Global};
use std::collections::VecDeque;
use std::iter::Iterator;
use std::marker::Model;
use u_base::ExactOrd;
use u_sets::{OrderedKeys, OrderedSet, has, push_into_room};

/// Distinct items in ascending order. The greatest ones stand in a list, the run, to the end of which goes
/// an item that is greater than all, without a search. The others, which are all less, stand in a set.
/// Contracts see the ascending list of the items.
#[derive(Drop)]
pub(crate) struct PriorityQueue<K: ExactOrd + Drop> {
    least: OrderedSet<K>,
    run: VecDeque<K>,
}

impl<K: ExactOrd + Drop> Model for PriorityQueue<K> {
    ghost use Rattle.std.specs.Prelude.{List, ◌++◌};
    ghost use Rattle.u_sets.specs.Rising.{Rises};

    ghost Value = { List K };

    ghost view = { λ q. q.least ++ q.run.items };

    ghost invariant = { λ q. Rises K.cmp (q.least ++ q.run.items) };
}

/// The items of a queue, in order. The run lies in two slices.
#[derive(Drop)]
pub(crate) struct QueuedItems<'a, K> {
    least: OrderedKeys<'a, K>,
    run: &'a [K],
    rest: &'a [K],
}

impl<'a, K> Model for QueuedItems<'a, K> {
    ghost use Rattle.std.specs.Prelude.{List, ◌++◌};

    ghost Value = { List K };

    ghost view = { λ q. q.least ++ (q.run.now ++ q.rest.now) };
}

impl<'a, K> Iterator for QueuedItems<'a, K> {
    type Item = &'a K;

    ghost next_gives = { TakesFirst deref };

    ghost remaining = { λ s. at_most (length s) };

    fn next(&mut self) -> Option<&'a K> {
        if let Some(first) = self.least.next() {
            return Some(first);
        }
        if let Some((first, run)) = self.run.split_first() {
            self.run = run;
            return Some(first);
        }
        let (first, rest) = self.rest.split_first()?;
        self.rest = rest;
        Some(first)
    }
}

/// Where an item goes.
#[derive(Clone, Copy)]
enum Position {
    /// Before all others, or into the set while there is no run.
    Least,
    /// Into the set, before the run, and not before all others.
    Among,
    /// Behind all others.
    Last,
    /// It is to be looked for.
    Within,
}

/// Whether the item is less than the least one of the set.
fn is_least<K: ExactOrd + Drop>(set: &OrderedSet<K>, item: &K) -> bool
    ensures { IsTrue result → IsBelowSome K.cmp item.now set.now }
{
    match set.first() {
        Some(first) => item.cmp(first).is_lt(),
        None => false,
    }
}

/// Whether the set has one item alone, and that is less.
fn is_above_only<K: ExactOrd + Drop>(set: &OrderedSet<K>, item: &K) -> bool
    ensures { IsTrue result → IsAbove K.cmp item.now set.now }
{
    if set.len() != 1 {
        return false;
    }
    match set.first() {
        Some(only) => only.cmp(item).is_lt(),
        None => false,
    }
}

/// Whether the item is less than all of the run.
fn is_before<K: ExactOrd + Drop>(run: &VecDeque<K>, item: &K) -> bool
    requires { Rises K.cmp run.now.items }
    ensures { IsTrue result → IsBelow K.cmp item.now run.now.items }
{
    match run.front() {
        Some(first) => item.cmp(first).is_lt(),
        None => true,
    }
}

/// Whether the item is greater than all of a run that has some.
fn is_behind<K: ExactOrd + Drop>(run: &VecDeque<K>, item: &K) -> bool
    requires { Rises K.cmp run.now.items }
    ensures some { IsTrue result → 0 < length run.now.items }
    ensures above { IsTrue result → IsAbove K.cmp item.now run.now.items }
{
    match run.back() {
        Some(last) => last.cmp(item).is_lt(),
        None => false,
    }
}

/// Where the item goes. Behind a set without a run it begins one, if it is greater than the only item.
fn position_of<K: ExactOrd + Drop>(least: &OrderedSet<K>, run: &VecDeque<K>, item: &K) -> Position
    requires { Rises K.cmp (least.now ++ run.now.items) }
    ensures { Goes K.cmp least.now run.now.items item.now result }
{
    if run.is_empty() {
        if is_above_only(least, item) {
            return Position::Last;
        }
        return Position::Least;
    }
    if is_least(least, item) {
        return Position::Least;
    }
    if is_before(run, item) {
        if least.is_empty() {
            return Position::Least;
        }
        return Position::Among;
    }
    if is_behind(run, item) {
        return Position::Last;
    }
    Position::Within
}

/// Takes the last item out of the list, and puts it into the set, unless it is there.
#[inline(never)]
fn insert_last<K: ExactOrd + Drop>(
    set: &mut OrderedSet<K>,
    list: &mut Vec<K>,
) -> Result<(), AllocError>
    requires { 0 < length list.old.items }
    ensures ok { OnOk result (TakesLast set.old list.old.items set.new list.new.items) }
    ensures err { OnErr result ((set.new ≡ set.old) × (list.new.items ≡ list.old.items)) }
    ensures rises { Rises K.cmp set.new }
{
    let Some(last) = list.pop() else {
        unreachable!();
    };
    match set.insert(last) {
        Ok(_) => Ok(()),
        Err(refused) => {
            push_into_room(list, refused.value);
            Err(AllocError)
        }
    }
}

/// Takes the last item out of the list, and puts it at the end of the run.
fn move_last<K: ExactOrd + Drop>(run: &mut VecDeque<K>, list: &mut Vec<K>) -> Result<(), AllocError>
    requires { 0 < length list.old.items }
    ensures ok { OnOk result
        (MovesLast run.old.items list.old.items run.new.items list.new.items) }
    ensures err { OnErr result
        ((run.new.items ≡ run.old.items) × (list.new.items ≡ list.old.items)) }
{
    run.reserve(1)?;
    let Some(last) = list.pop() else {
        unreachable!();
    };
    run.push_back_reserved(last);
    Ok(())
}

/// Takes the first item of the run out, and puts it into the set.
fn move_first<K: ExactOrd + Drop>(
    least: &mut OrderedSet<K>,
    run: &mut VecDeque<K>,
) -> Result<(), AllocError>
    requires rises { Rises K.cmp (least.old ++ run.old.items) }
    requires some { 0 < length run.old.items }
    ensures same { least.new ++ run.new.items ≡ least.old ++ run.old.items }
    ensures ok { OnOk result (length run.new.items < length run.old.items) }
{
    let Some(first) = run.pop_front() else {
        unreachable!();
    };
    match least.insert(first) {
        Ok(_) => Ok(()),
        Err(refused) => {
            run.push_front_reserved(refused.value);
            Err(AllocError)
        }
    }
}

/// Puts all of the run into the set.
#[inline(never)]
fn move_all<K: ExactOrd + Drop>(
    least: &mut OrderedSet<K>,
    run: &mut VecDeque<K>,
) -> Result<(), AllocError>
    requires { Rises K.cmp (least.old ++ run.old.items) }
    ensures same { least.new ++ run.new.items ≡ least.old ++ run.old.items }
    ensures ok { OnOk result (run.new.items ≡ []) }
{
    while !run.is_empty() {
        move_first(least, run)?;
    }
    Ok(())
}

/// Whether the item is in the run.
fn is_in<K: ExactOrd + Drop>(run: &VecDeque<K>, item: &K) -> bool
    requires { Rises K.cmp run.now.items }
    ensures { IsTrue result ↔ Contains run.now.items item.now }
{
    let (front, back) = run.as_slices();
    if has(front, item) {
        return true;
    }
    has(back, item)
}

/// Takes the item out of the run. Returns whether it was there.
fn take_from<K: ExactOrd + Drop>(run: &mut VecDeque<K>, item: &K) -> bool
    requires { Rises K.cmp run.old.items }
    ensures without { IsWithout run.old.items item.now run.new.items }
    ensures was { IsTrue result ↔ Contains run.old.items item.now }
    ensures rises { Rises K.cmp run.new.items }
{
    match run.binary_search(item) {
        Ok(place) => {
            let Some(_taken) = run.remove(place) else {
                unreachable!();
            };
            true
        }
        Err(_) => false,
    }
}

impl<K: ExactOrd + Drop> PriorityQueue<K> {
    /// The empty queue. It takes no memory.
    pub(crate) fn new(alloc: Global) -> PriorityQueue<K>
        ensures { result ≡ [] }
    {
        PriorityQueue {
            least: OrderedSet::new(alloc),
            run: VecDeque::new(alloc),
        }
    }

    /// Whether there is no item.
    pub(crate) fn is_empty(&self) -> bool
        ensures none { IsTrue result → self.now ≡ [] }
        ensures some { IsFalse result → 0 < length self.now }
        ensures rises { Rises K.cmp self.now }
    {
        self.least.is_empty() && self.run.is_empty()
    }

    /// The least item.
    pub(crate) fn first(&self) -> Option<&K>
        ensures { option_copied result ≡ slice_get self.now 0 }
    {
        match self.least.first() {
            Some(first) => Some(first),
            None => self.run.front(),
        }
    }

    /// Whether the item is there.
    pub(crate) fn contains(&self, item: &K) -> bool
        ensures { IsTrue result ↔ Contains self.now item.now }
    {
        if self.least.contains(item) {
            return true;
        }
        is_in(&self.run, item)
    }

    /// The item at that place, counted from 0 in ascending order. It may go over those before it.
    pub(crate) fn nth(&self, place: usize) -> Option<&K>
        ensures { option_copied result ≡ slice_get self.now place }
    {
        let count = self.least.len();
        if place < count {
            return self.least.nth(place);
        }
        self.run.get(place - count)
    }

    /// The number modulo how many items there are, of which there is one.
    pub(crate) fn picked_place(&self, pick: usize) -> usize
        requires { 0 < length self.now }
        ensures place { result ≡ pick % length self.now }
        ensures rises { Rises K.cmp self.now }
    {
        match self.least.len().checked_add(self.run.len()) {
            Some(count) => pick % count,
            // No number is greater than how many there are.
            None => pick,
        }
    }

    /// The items, in order.
    pub(crate) fn iter(&self) -> QueuedItems<'_, K>
        ensures rest { result ≡ self.now }
        ensures runs { ShowsInOrder (deref {X = K}) }
    {
        let (run, rest) = self.run.as_slices();
        QueuedItems {
            least: self.least.iter(),
            run,
            rest,
        }
    }

    /// Takes the least item out.
    pub(crate) fn pop_first(&mut self) -> Option<K>
        ensures some { IfSome result (λ k. self.old ≡ k ∷ self.new) }
        ensures without { IfSome result (λ k. IsWithout self.old k self.new) }
        ensures none { IfNone result ((self.old ≡ []) × (self.new ≡ [])) }
        ensures rises { Rises K.cmp self.new }
    {
        if self.least.is_empty() {
            return self.run.pop_front();
        }
        self.least.pop_first()
    }

    /// Puts the item in, unless it is there.
    ///
    /// # Errors
    /// `AllocError` where there is no memory; the queue stays as it was.
    pub(crate) fn insert(&mut self, item: K) -> Result<(), AllocError>
        ensures ok { OnOk result (IsWith self.old item self.new) }
        ensures err { OnErr result (self.new ≡ self.old) }
        ensures rises { Rises K.cmp self.new }
    {
        move_all(&mut self.least, &mut self.run)?;
        self.least.insert(item)?;
        Ok(())
    }

    /// Takes the last item out of the list, and puts it in, unless it is there. What is less or greater than
    /// all others is not looked for.
    ///
    /// # Errors
    /// `AllocError` where there is no memory; the queue and the list stay as they were.
    pub(crate) fn insert_last_of(&mut self, list: &mut Vec<K>) -> Result<(), AllocError>
        requires { 0 < length list.old.items }
        ensures ok { OnOk result (TakesLast self.old list.old.items self.new list.new.items) }
        ensures err { OnErr result ((self.new ≡ self.old) × (list.new.items ≡ list.old.items)) }
        ensures rises { Rises K.cmp self.new }
    {
        let Some(item) = list.last() else {
            unreachable!();
        };
        match position_of(&self.least, &self.run, item) {
            Position::Least => self.least.insert_last_of(list)?,
            Position::Among => insert_last(&mut self.least, list)?,
            Position::Last => move_last(&mut self.run, list)?,
            Position::Within => {
                move_all(&mut self.least, &mut self.run)?;
                insert_last(&mut self.least, list)?;
            }
        }
        Ok(())
    }

    /// Makes it dear no longer to take an item out that is not the least one: all items stand in the set.
    ///
    /// # Errors
    /// `AllocError` where there is no memory.
    pub(crate) fn end_run(&mut self) -> Result<(), AllocError>
        ensures { self.new ≡ self.old }
    {
        move_all(&mut self.least, &mut self.run)
    }

    /// Takes the item out. Returns whether it was there.
    pub(crate) fn remove(&mut self, item: &K) -> bool
        ensures without { IsWithout self.old item.now self.new }
        ensures was { IsTrue result ↔ Contains self.old item.now }
        ensures rises { Rises K.cmp self.new }
    {
        if self.least.remove(item) {
            return true;
        }
        take_from(&mut self.run, item)
    }
}
