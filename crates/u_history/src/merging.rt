//! The laws of merging. Each stands as the clause of a function that does nothing, and callers cite
//! it: it speaks of the sets that `History::merge` makes, which are unions.
ghost use Rattle.std.specs.Prelude.{◌≡◌, ◌↔◌, List, [], Contains};
ghost use Rattle.u_sets.specs.Rising.{Rises};
ghost use Rattle.u_sets.specs.Members.{IsUnion};
ghost use Rattle.u_rule.specs.EntryOrder.{entry_cmp};
ghost use Rattle.u_rule.specs.declared.entry.Entry.{Entry};

use crate::history::History;

impl History {
    /// A union of two histories, as the list of its entries in order, is one: so two merges of sets
    /// that are the same are equal histories, and each law below is an equation of histories.
    pub fn merges_are_one(&self, other: &History)
        ensures { (u w : List Entry) → Rises entry_cmp u → Rises entry_cmp w
            → IsUnion self.now other.now u → IsUnion self.now other.now w → u ≡ w }
    {}

    /// Merging commutes: what is a union of this history and the other is one of the other and this.
    pub fn merges_commute(&self, other: &History)
        ensures { (u : List Entry) → IsUnion self.now other.now u ↔ IsUnion other.now self.now u }
    {}

    /// Merging associates: of three histories it does not matter which two are merged first.
    pub fn merges_associate(&self, other: &History, third: &History)
        ensures { (front back u : List Entry) → IsUnion self.now other.now front
            → IsUnion other.now third.now back
            → IsUnion front third.now u ↔ IsUnion self.now back u }
    {}

    /// Merging is idempotent: a history is the union of itself and itself.
    pub fn merges_with_itself(&self)
        ensures { IsUnion self.now self.now self.now }
    {}

    /// The empty history changes nothing: a history is the union of itself and none.
    pub fn merges_with_none(&self)
        ensures { IsUnion self.now [] self.now }
    {}

    /// A merge has both sets, and lies in every set that has both.
    ///
    /// Promise laws-of-union: merging commutes, associates, changes nothing with the history itself or the
    /// empty one, and makes the least that has both.
    pub fn merge_is_least(&self, other: &History)
        ensures left { (u : List Entry) → IsUnion self.now other.now u
            → (e : Entry) → Contains self.now e → Contains u e }
        ensures right { (u : List Entry) → IsUnion self.now other.now u
            → (e : Entry) → Contains other.now e → Contains u e }
        ensures least { (u above : List Entry) → IsUnion self.now other.now u
            → ((e : Entry) → Contains self.now e → Contains above e)
            → ((e : Entry) → Contains other.now e → Contains above e)
            → (e : Entry) → Contains u e → Contains above e }
    {}
}
