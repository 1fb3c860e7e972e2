//! Values by number.
ghost use Rattle.std.specs.Prelude.{◌≡◌, ◌↔◌, ◌<◌, ◌++◌, ℕ, [], OnOk, OnErr, IfOk, IfErr, Contains, IsTrue, map, length};
ghost use Rattle.std.specs.Mem.{FitsInMemory};
ghost use Rattle.u_base.specs.Firing.{Distinct};
ghost use Rattle.u_sets.specs.Members.{IsWith};
ghost use Rattle.u_sets.specs.Pairs.{items_of, group_pairs, pairs_of_many, GroupsAreDistinct, HasAnother};
ghost use Rattle.u_sets.specs.Columns.{numbered_from, numbered_pairs, deref_value};

use crate::few::Few;
use std::alloc::{AllocError, AllocFailed, Global};
use std::hash::Hash;
use std::marker::Model;
use u_base::ExactOrd;

/// A set of pairs of a number and a value. The values of a number stand at its place in a list, so that
/// nothing is looked for; behind the list's end no number has any. Contracts see the list of the pairs.
#[derive(Drop)]
pub struct Column<V: ExactOrd + Hash + Drop> {
    alloc: Global,
    places: Vec<Few<V>>,
}

impl<V: ExactOrd + Hash + Drop> Model for Column<V> {
    ghost use Rattle.std.specs.Prelude.{List, ℕ};
    ghost use Rattle.u_sets.specs.Columns.{numbered_pairs};

    ghost Value = { List (ℕ × V) };

    ghost view = { λ c. numbered_pairs c.places.items };
}

/// Adds empty places, until the number has one.
fn reach<V: ExactOrd + Hash + Drop>(
    places: &mut Vec<Few<V>>,
    number: usize,
) -> Result<(), AllocError>
    ensures same { numbered_pairs places.new.items ≡ numbered_pairs places.old.items }
    ensures ok { OnOk result (number < length places.new.items) }
{
    while places.len() <= number {
        places.push(Few::Empty)?;
    }
    Ok(())
}

/// Adds the pairs of the number, if there are at least so many.
fn push_values<'a, V: ExactOrd + Hash + Drop>(
    list: &mut Vec<(usize, &'a V)>,
    number: usize,
    few: &'a Few<V>,
    least: usize,
) -> Result<(), AllocError>
    requires { FitsInMemory V.row }
    ensures ok { OnOk result
        (map deref_value list.new.items
        ≡ map deref_value list.old.items ++ group_pairs least (number, few.now)) }
    ensures distinct { Distinct (items_of few.now) }
{
    let values = few.as_slice();
    if values.len() < least {
        return Ok(());
    }
    for value in values {
        list.push((number, value))?;
    }
    Ok(())
}

/// The pairs of each number that has at least so many.
fn gather<V: ExactOrd + Hash + Drop>(
    places: &[Few<V>],
    alloc: Global,
    least: usize,
) -> Result<Vec<(usize, &V)>, AllocError>
    requires { FitsInMemory V.row }
    ensures all { IfOk result
        (λ v. map deref_value v.items ≡ pairs_of_many least (numbered_from 0 places.now)) }
    ensures apart { IfOk result (λ _. GroupsAreDistinct (numbered_from 0 places.now)) }
{
    let mut list = Vec::new(alloc);
    for place in 0..places.len() {
        push_values(&mut list, place, &places[place], least)?;
    }
    Ok(list)
}

impl<V: ExactOrd + Hash + Drop> Column<V> {
    /// The empty set. It takes no memory.
    pub fn new(alloc: Global) -> Column<V>
        ensures { result ≡ [] }
    {
        Column {
            alloc,
            places: Vec::new(alloc),
        }
    }

    /// The values of the number.
    pub fn at(&self, number: usize) -> &[V]
        requires { FitsInMemory V.row }
        ensures all { (v : V) → Contains result.now v ↔ Contains self.now (number, v) }
        ensures distinct { Distinct result.now }
    {
        match self.places.get(number) {
            Some(few) => few.as_slice(),
            None => &[],
        }
    }

    /// Whether the number has the value.
    pub fn contains(&self, number: usize, value: &V) -> bool
        ensures { IsTrue result ↔ Contains self.now (number, value.now) }
    {
        match self.places.get(number) {
            Some(few) => few.contains(value),
            None => false,
        }
    }

    /// Puts the pair in. Returns whether it was new.
    ///
    /// Promise values-by-number: the set has afterwards exactly the pairs that it had and this one.
    ///
    /// # Errors
    /// `AllocFailed` with the value where there is no memory; the set stays as it was.
    pub fn put(&mut self, number: usize, value: V) -> Result<bool, AllocFailed<V>>
        ensures ok { OnOk result (IsWith self.old (number, value) self.new) }
        ensures new { IfOk result (λ b. IsTrue b ↔ (Contains self.old (number, value) → ⊥)) }
        ensures still { IfOk result (λ b. (IsTrue b → ⊥) → self.new ≡ self.old) }
        ensures err { OnErr result (self.new ≡ self.old) }
        ensures back { IfErr result (λ e. e.value ≡ value) }
    {
        let alloc = self.alloc;
        let Ok(()) = reach(&mut self.places, number) else {
            return Err(AllocFailed { value });
        };
        self.places[number].insert(alloc, value)
    }

    /// The pairs, with references to the values.
    ///
    /// # Errors
    /// `AllocError` where there is no memory.
    pub fn pairs(&self, alloc: Global) -> Result<Vec<(usize, &V)>, AllocError>
        requires { FitsInMemory V.row }
        ensures all { IfOk result (λ v. map deref_value v.items ≡ self.now) }
        ensures distinct { IfOk result (λ _. Distinct self.now) }
    {
        gather(&self.places, alloc, 0)
    }

    /// The pairs of the numbers that have several values, with references to these.
    ///
    /// # Errors
    /// `AllocError` where there is no memory.
    pub fn shared_pairs(&self, alloc: Global) -> Result<Vec<(usize, &V)>, AllocError>
        requires { FitsInMemory V.row }
        ensures all { IfOk result
            (λ v. (n : ℕ) (x : V) → Contains (map deref_value v.items) (n, x)
            ↔ (Contains self.now (n, x) × HasAnother (λ y. Contains self.now (n, y)) x)) }
        ensures distinct { IfOk result (λ v. Distinct (map deref_value v.items)) }
    {
        gather(&self.places, alloc, 2)
    }
}
