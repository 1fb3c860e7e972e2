//! Pairs of a cell and a value, by spots.
ghost use Rattle.std.specs.Prelude.{◌≡◌, ◌↔◌, ◌<◌, [], OnOk, OnErr, IfOk, IfErr, IfSome, IfNone, Contains, IsTrue, map, length, slice_get, Some};
ghost use Rattle.std.specs.Map.Iter.{deref_pair};
ghost use Rattle.std.specs.Mem.{FitsInMemory};
ghost use Rattle.u_base.specs.Firing.{Distinct};
ghost use Rattle.u_sets.specs.Members.{IsWith};
ghost use Rattle.u_sets.specs.Pairs.{HasAnother};
ghost use Rattle.u_name.specs.Cell.{CellOf};
ghost use Rattle.u_names.specs.Spots.{SpotParts, spot};
ghost use Rattle.u_names.specs.CellPairs.{cell_at, pairs_at, HaveStructures, deref_at_cell};

use crate::names::Names;
use crate::spots::Spot;
use std::alloc::{AllocError, AllocFailed, Global};
use std::hash::Hash;
use std::marker::Model;
use u_base::ExactOrd;
use u_name::Cell;
use u_sets::KeyedSet;

/// Pairs of a cell and a value: structures have numbers, and the pairs of a cell are found by its
/// structure's number and its index. Contracts see the list of the pairs.
#[derive(Drop)]
pub(crate) struct Cells<V: ExactOrd + Hash + Drop> {
    structures: Names,
    pairs: KeyedSet<Spot, V>,
}

impl<V: ExactOrd + Hash + Drop> Model for Cells<V> {
    ghost use Rattle.std.specs.Prelude.{List};
    ghost use Rattle.u_name.specs.Cell.{CellOf};
    ghost use Rattle.u_names.specs.CellPairs.{pairs_at, ArePairs};
    ghost use Rattle.std.specs.Coded.{codes};
    ghost use Rattle.u_name.specs.Cell.{cell_code};

    ghost Value = { List (CellOf × V) };

    ghost coded = { Prim.hlevel (codes, cell_code) };

    ghost view = { λ s. pairs_at s.structures s.pairs };

    ghost invariant = { λ s. ArePairs s.structures s.pairs };
}

/// The spot of the cell, if its structure has a number.
fn spot_of(structures: &Names, cell: &Cell) -> Option<Spot>
    ensures structure { IfSome result
        (λ s. slice_get structures.now s.structure ≡ Some cell.now.name) }
    ensures index { IfSome result (λ s. s.index ≡ cell.now.index) }
    ensures none { IfNone result (Contains structures.now cell.now.name → ⊥) }
{
    let structure = structures.find(cell.name())?;
    Some(Spot::of(structure, cell))
}

/// The cell of the spot.
fn cell_of(structures: &Names, place: &Spot) -> Result<Cell, AllocError>
    requires { place.now.structure < length structures.now }
    ensures { IfOk result (λ c. c ≡ cell_at structures.now place.now) }
{
    let found = structures.name_of(place.structure())?;
    let Some(name) = found else { unreachable!() };
    Ok(Cell::new(name, place.index()))
}

/// Puts the pair in. Returns whether it was new, or gives the value back.
fn put<V: ExactOrd + Hash + Drop>(
    pairs: &mut KeyedSet<Spot, V>,
    place: Spot,
    value: V,
) -> Result<bool, AllocFailed<V>>
    ensures ok { OnOk result (IsWith pairs.old (place, value) pairs.new) }
    ensures new { IfOk result (λ b. IsTrue b ↔ (Contains pairs.old (place, value) → ⊥)) }
    ensures still { IfOk result (λ b. (IsTrue b → ⊥) → pairs.new ≡ pairs.old) }
    ensures err { OnErr result (pairs.new ≡ pairs.old) }
    ensures back { IfErr result (λ e. e.value ≡ value) }
{
    match pairs.insert(place, value) {
        Ok(added) => Ok(added),
        Err(failed) => {
            let (_, value) = failed.value;
            Err(AllocFailed { value })
        }
    }
}

/// The pairs, with cells in place of their spots.
fn with_cells<'a, V: ExactOrd + Hash + Drop>(
    alloc: Global,
    structures: &Names,
    pairs: &[(&Spot, &'a V)],
) -> Result<Vec<(Cell, &'a V)>, AllocError>
    requires { HaveStructures structures.now (map deref_pair pairs.now) }
    ensures { IfOk result
        (λ v. map deref_at_cell v.items ≡ pairs_at structures.now (map deref_pair pairs.now)) }
{
    let mut list = Vec::new(alloc);
    for pair in pairs {
        list.push((cell_of(structures, pair.0)?, pair.1))?;
    }
    Ok(list)
}

impl<V: ExactOrd + Hash + Drop> Cells<V> {
    /// The empty set. It takes no memory.
    pub(crate) fn new(alloc: Global) -> Cells<V>
        ensures { result ≡ [] }
    {
        Cells {
            structures: Names::new(alloc),
            pairs: KeyedSet::new(alloc),
        }
    }

    /// Whether the pair is there. It takes no memory.
    pub(crate) fn contains(&self, cell: &Cell, value: &V) -> bool
        ensures { IsTrue result ↔ Contains self.now (cell.now, value.now) }
    {
        match spot_of(&self.structures, cell) {
            Some(place) => self.pairs.contains(&place, value),
            None => false,
        }
    }

    /// The values under the cell. It takes no memory.
    pub(crate) fn under(&self, cell: &Cell) -> &[V]
        requires { FitsInMemory V.row }
        ensures all { (v : V) → Contains result.now v ↔ Contains self.now (cell.now, v) }
        ensures distinct { Distinct result.now }
    {
        match spot_of(&self.structures, cell) {
            Some(place) => self.pairs.under(&place),
            None => &[],
        }
    }

    /// Puts the pair in. Returns whether it was new.
    ///
    /// # Errors
    /// `AllocFailed` with the value where there is no memory; the set stays as it was.
    pub(crate) fn insert(&mut self, cell: &Cell, value: V) -> Result<bool, AllocFailed<V>>
        ensures ok { OnOk result (IsWith self.old (cell.now, value) self.new) }
        ensures new { IfOk result (λ b. IsTrue b ↔ (Contains self.old (cell.now, value) → ⊥)) }
        ensures still { IfOk result (λ b. (IsTrue b → ⊥) → self.new ≡ self.old) }
        ensures err { OnErr result (self.new ≡ self.old) }
        ensures back { IfErr result (λ e. e.value ≡ value) }
    {
        let Ok(structure) = self.structures.id_of(cell.name()) else {
            return Err(AllocFailed { value });
        };
        let added = put(&mut self.pairs, Spot::of(structure, cell), value)?;
        Ok(added)
    }

    /// The pairs, with references to the values.
    ///
    /// # Errors
    /// `AllocError` where there is no memory.
    pub(crate) fn pairs(&self, alloc: Global) -> Result<Vec<(Cell, &V)>, AllocError>
        requires { FitsInMemory V.row }
        ensures all { IfOk result (λ v. map deref_at_cell v.items ≡ self.now) }
        ensures distinct { IfOk result (λ _. Distinct self.now) }
    {
        let pairs = self.pairs.pairs(alloc)?;
        with_cells(alloc, &self.structures, &pairs)
    }

    /// The pairs of the cells that have several values, with references to these.
    ///
    /// # Errors
    /// `AllocError` where there is no memory.
    pub(crate) fn shared_pairs(&self, alloc: Global) -> Result<Vec<(Cell, &V)>, AllocError>
        requires { FitsInMemory V.row }
        ensures all { IfOk result
            (λ v. (c : CellOf) (x : V) → Contains (map deref_at_cell v.items) (c, x)
            ↔ (Contains self.now (c, x) × HasAnother (λ y. Contains self.now (c, y)) x)) }
        ensures distinct { IfOk result (λ v. Distinct (map deref_at_cell v.items)) }
    {
        let pairs = self.pairs.shared_pairs(alloc)?;
        with_cells(alloc, &self.structures, &pairs)
    }
}
