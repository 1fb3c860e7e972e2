//! Tables of names.
ghost use Rattle.std.specs.Prelude.{◌≡◌, ℕ, [], OnOk, OnErr, IfOk, IfSome, IfNone, Contains, length, slice_get, Some};
ghost use Rattle.u_sets.specs.Members.{GoesLast};
ghost use Rattle.u_base.specs.Firing.{Distinct};
ghost use Rattle.u_name.specs.Context.{IsBetween};
ghost use Rattle.u_name.specs.Name.{Activity};
ghost use Rattle.u_names.specs.Frames.{beside};

use crate::name_table::NameTable;
use std::alloc::{AllocError, Global};
use std::marker::Model;
use u_name::Name;

/// A table of distinct names. The number of a name is its place, counted from 0, which it keeps. A
/// context stands once in it, and a name takes two words. Contracts see the list of the names.
#[derive(Drop)]
pub struct Names {
    /// The table. Whatever an array has is dropped by one call, which keeps the proofs of functions
    /// that own it short.
    table: [NameTable; 1],
}

impl Model for Names {
    ghost use Rattle.std.specs.Prelude.{◌≡◌, List, length};
    ghost use Rattle.u_name.specs.Name.{Activity};
    ghost use Rattle.u_names.specs.NameLists.{names_code, names_of_one};

    ghost Value = { List Activity };

    ghost coded = { names_code };

    ghost view = { λ n. names_of_one n.table };

    ghost invariant = { λ n. length n.table ≡ 1 };
}

impl Names {
    /// The table without names. It takes no memory.
    pub fn new(alloc: Global) -> Names
        ensures { result ≡ [] }
    {
        Names {
            table: [NameTable::new(alloc)],
        }
    }

    /// How many names there are.
    pub fn len(&self) -> usize
        ensures { result ≡ length self.now }
    {
        self.table[0].len()
    }

    /// The number of the name. A name that is new goes last.
    ///
    /// Promise numbers-of-names: equal names have one number and different names different ones, and every
    /// name keeps its number, after an error too.
    ///
    /// # Errors
    /// `AllocError` where there is no memory, or where 2^32 contexts or 2^32 blocks in contexts have
    /// numbers already; the names and their numbers stay as they were.
    pub fn id_of(&mut self, name: &Name) -> Result<usize, AllocError>
        ensures number { IfOk result (λ i. slice_get self.new i ≡ Some name.now) }
        ensures ok { OnOk result (GoesLast self.old name.now self.new) }
        ensures err { OnErr result (self.new ≡ self.old) }
        ensures distinct { Distinct self.new }
    {
        self.number_beside(name, name.statement())
    }

    /// The number of the name with that statement in place of its own. A name that is new goes last.
    ///
    /// # Errors
    /// As `id_of`.
    pub(crate) fn number_beside(&mut self, name: &Name, statement: u16) -> Result<usize, AllocError>
        requires { IsBetween 1 statement 999 }
        ensures number { IfOk result
            (λ i. slice_get self.new i ≡ Some (beside name.now statement)) }
        ensures ok { OnOk result (GoesLast self.old (beside name.now statement) self.new) }
        ensures err { OnErr result (self.new ≡ self.old) }
        ensures distinct { Distinct self.new }
    {
        self.table[0].number_beside(name, statement)
    }

    /// The number of the name, if it is there. It takes no memory.
    pub fn find(&self, name: &Name) -> Option<usize>
        ensures number { IfSome result (λ i. slice_get self.now i ≡ Some name.now) }
        ensures none { IfNone result (Contains self.now name.now → ⊥) }
    {
        self.find_beside(name, name.statement())
    }

    /// The number of the name with that statement in place of its own, if it is there. It takes no
    /// memory.
    pub(crate) fn find_beside(&self, name: &Name, statement: u16) -> Option<usize>
        requires { IsBetween 1 statement 999 }
        ensures number { IfSome result
            (λ i. slice_get self.now i ≡ Some (beside name.now statement)) }
        ensures none { IfNone result (Contains self.now (beside name.now statement) → ⊥) }
    {
        self.table[0].find_beside(name, statement)
    }

    /// A name that is equal to the one that has that number, if there is one.
    ///
    /// # Errors
    /// `AllocError` where so many share the context already, 2^63, that no copy can be made.
    pub fn name_of(&self, id: usize) -> Result<Option<Name>, AllocError>
        ensures { IfOk result (λ n. n ≡ slice_get self.now id) }
    {
        self.table[0].name_of(id)
    }

    /// Different numbers have different names, so that a name has one number. It does nothing, and
    /// callers cite its clause.
    pub fn are_distinct(&self)
        ensures { (i j : ℕ) (n : Activity) → slice_get self.now i ≡ Some n
            → slice_get self.now j ≡ Some n → i ≡ j }
    {
        self.table[0].are_distinct()
    }
}
