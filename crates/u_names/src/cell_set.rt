//! Sets of pairs of a cell and a value, by cell.
ghost use Rattle.std.specs.Prelude.{◌≡◌, ◌↔◌, [], OnOk, OnErr, IfOk, IfErr, Contains, IsTrue, map};
ghost use Rattle.std.specs.Mem.{FitsInMemory};
ghost use Rattle.u_base.specs.Firing.{Distinct};
ghost use Rattle.u_sets.specs.Members.{IsWith};
ghost use Rattle.u_sets.specs.Pairs.{HasAnother};
ghost use Rattle.u_name.specs.Cell.{CellOf};
ghost use Rattle.u_names.specs.CellPairs.{deref_at_cell};

use crate::cells::Cells;
use std::alloc::{AllocError, AllocFailed, Global};
use std::hash::Hash;
use std::marker::Model;
use u_base::ExactOrd;
use u_name::Cell;

/// A set of pairs of a cell and a value, by cell: structures have numbers, and the pairs of a cell are
/// found by its structure's number and its index. Contracts see the list of the pairs.
#[derive(Drop)]
pub struct CellSet<V: ExactOrd + Hash + Drop> {
    /// The pairs. Whatever an array has is dropped by one call, which keeps the proofs of functions
    /// that own it short.
    cells: [Cells<V>; 1],
}

impl<V: ExactOrd + Hash + Drop> Model for CellSet<V> {
    ghost use Rattle.std.specs.Prelude.{◌≡◌, List, length};
    ghost use Rattle.u_name.specs.Cell.{CellOf};
    ghost use Rattle.u_names.specs.CellPairs.{pairs_of_one};
    ghost use Rattle.std.specs.Coded.{codes};
    ghost use Rattle.u_name.specs.Cell.{cell_code};

    ghost Value = { List (CellOf × V) };

    ghost coded = { Prim.hlevel (codes, cell_code) };

    ghost view = { λ s. pairs_of_one s.cells };

    ghost invariant = { λ s. length s.cells ≡ 1 };
}

impl<V: ExactOrd + Hash + Drop> CellSet<V> {
    /// The empty set. It takes no memory.
    pub fn new(alloc: Global) -> CellSet<V>
        ensures { result ≡ [] }
    {
        CellSet {
            cells: [Cells::new(alloc)],
        }
    }

    /// Whether the pair is there. It takes no memory.
    pub fn contains(&self, cell: &Cell, value: &V) -> bool
        ensures { IsTrue result ↔ Contains self.now (cell.now, value.now) }
    {
        self.cells[0].contains(cell, value)
    }

    /// The values under the cell. It takes no memory.
    pub fn under(&self, cell: &Cell) -> &[V]
        requires { FitsInMemory V.row }
        ensures all { (v : V) → Contains result.now v ↔ Contains self.now (cell.now, v) }
        ensures distinct { Distinct result.now }
    {
        self.cells[0].under(cell)
    }

    /// Puts the pair in. Returns whether it was new.
    ///
    /// Promise sets-by-cell: the set has afterwards exactly the pairs that it had and this one.
    ///
    /// # Errors
    /// `AllocFailed` with the value where there is no memory; the set stays as it was.
    pub fn insert(&mut self, cell: &Cell, value: V) -> Result<bool, AllocFailed<V>>
        ensures ok { OnOk result (IsWith self.old (cell.now, value) self.new) }
        ensures new { IfOk result (λ b. IsTrue b ↔ (Contains self.old (cell.now, value) → ⊥)) }
        ensures still { IfOk result (λ b. (IsTrue b → ⊥) → self.new ≡ self.old) }
        ensures err { OnErr result (self.new ≡ self.old) }
        ensures back { IfErr result (λ e. e.value ≡ value) }
    {
        self.cells[0].insert(cell, value)
    }

    /// The pairs, with references to the values.
    ///
    /// # Errors
    /// `AllocError` where there is no memory.
    pub fn pairs(&self, alloc: Global) -> Result<Vec<(Cell, &V)>, AllocError>
        requires { FitsInMemory V.row }
        ensures all { IfOk result (λ v. map deref_at_cell v.items ≡ self.now) }
        ensures distinct { IfOk result (λ _. Distinct self.now) }
    {
        self.cells[0].pairs(alloc)
    }

    /// The pairs of the cells that have several values, with references to these.
    ///
    /// # Errors
    /// `AllocError` where there is no memory.
    pub fn shared_pairs(&self, alloc: Global) -> Result<Vec<(Cell, &V)>, AllocError>
        requires { FitsInMemory V.row }
        ensures all { IfOk result
            (λ v. (c : CellOf) (x : V) → Contains (map deref_at_cell v.items) (c, x)
            ↔ (Contains self.now (c, x) × HasAnother (λ y. Contains self.now (c, y)) x)) }
        ensures distinct { IfOk result (λ v. Distinct (map deref_at_cell v.items)) }
    {
        self.cells[0].shared_pairs(alloc)
    }
}
