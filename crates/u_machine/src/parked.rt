//! How the parked firings of a machine are lent.
//!
//! They are lent as the ordered set that they stand in, or as the one that is in flight. So no body of the
//! machine can lend them out of order.
ghost use Rattle.std.specs.Prelude.{◌≡◌, ◌↔◌, [], ◌∷◌, IsTrue, Contains, length};
ghost use Rattle.std.specs.Map.Iter.{ShowsInOrder, TakesFirst, deref};
ghost use Rattle.std.specs.Iterator.{at_most};
ghost use Rattle.u_rule.specs.declared.firing.Firing.{Firing};

use crate::taking::is_same;
use std::iter::Iterator;
use std::marker::Model;
use u_rule::Firing;
use u_sets::{OrderedKeys, OrderedSet};

/// The firings that a machine took and did not apply, in order. Contracts see the list of them.
#[derive(Drop)]
pub struct Parked<'a> {
    /// A firing in flight. Then the set has none.
    flying: Option<&'a Firing>,
    waiting: &'a OrderedSet<Firing>,
}

impl<'a> Model for Parked<'a> {
    ghost use Rattle.std.specs.Prelude.{◌++◌};
    ghost use Rattle.u_rule.specs.EntryOrder.{FiringList, firing_list_code};
    ghost use Rattle.u_machine.specs.Lent.{flying_first, FliesAlone};

    ghost Value = { FiringList };

    ghost coded = { firing_list_code };

    ghost view = { λ p. flying_first p.flying ++ p.waiting.now };

    ghost invariant = { λ p. FliesAlone p.flying p.waiting.now };
}

/// The firings that a machine took and did not apply, one after another, in order.
#[derive(Drop)]
pub struct ParkedFirings<'a> {
    flying: Option<&'a Firing>,
    waiting: OrderedKeys<'a, Firing>,
}

impl<'a> Model for ParkedFirings<'a> {
    ghost use Rattle.std.specs.Prelude.{◌++◌};
    ghost use Rattle.u_rule.specs.EntryOrder.{FiringList, firing_list_code};
    ghost use Rattle.u_machine.specs.Lent.{flying_first};

    ghost Value = { FiringList };

    ghost coded = { firing_list_code };

    ghost view = { λ p. flying_first p.flying ++ p.waiting };
}

impl<'a> Iterator for ParkedFirings<'a> {
    type Item = &'a Firing;

    ghost next_gives = { TakesFirst deref };

    ghost remaining = { λ s. at_most (length s) };

    fn next(&mut self) -> Option<&'a Firing> {
        match self.flying.take() {
            Some(firing) => Some(firing),
            None => self.waiting.next(),
        }
    }
}

impl<'a> Parked<'a> {
    /// The firing in flight, which is parked alone.
    pub(crate) fn flying(firing: &'a Firing, none: &'a OrderedSet<Firing>) -> Parked<'a>
        requires { none.now ≡ [] }
        ensures { result ≡ firing.now ∷ [] }
    {
        Parked {
            flying: Some(firing),
            waiting: none,
        }
    }

    /// The firings of the set.
    pub fn waiting(firings: &'a OrderedSet<Firing>) -> Parked<'a>
        ensures { result ≡ firings.now }
    {
        Parked {
            flying: None,
            waiting: firings,
        }
    }

    /// How many there are.
    pub fn len(&self) -> usize
        ensures { result ≡ length self.now }
    {
        match self.flying {
            Some(_) => 1,
            None => self.waiting.len(),
        }
    }

    /// Whether the firing is among them.
    pub fn contains(&self, firing: &Firing) -> bool
        ensures { IsTrue result ↔ Contains self.now firing.now }
    {
        match self.flying {
            Some(other) => is_same(other, firing),
            None => self.waiting.contains(firing),
        }
    }

    /// The firings, in order.
    pub fn iter(&self) -> ParkedFirings<'a>
        ensures rest { result ≡ self.now }
        ensures runs { ShowsInOrder (deref {X = Firing}) }
    {
        ParkedFirings {
            flying: self.flying,
            waiting: self.waiting.iter(),
        }
    }
}
