//! Histories whose activities have numbers: who has the number of an activity looks for nothing.
//!
//! A number says nothing of an order, so merging and copying carry none over.
ghost use Rattle.std.specs.Prelude.{◌≡◌, ◌↔◌, [], OnOk, OnErr, IfOk, IfErr, Contains, IsTrue, length, map};
ghost use Rattle.std.specs.Map.Iter.{deref};
ghost use Rattle.u_base.specs.Firing.{Distinct, Same};
ghost use Rattle.u_name.specs.Name.{Activity};
ghost use Rattle.u_value.specs.declared.value.Value.{Value};
ghost use Rattle.u_rule.specs.declared.parts.Written.{Written};
ghost use Rattle.u_sets.specs.Rising.{Rises};
ghost use Rattle.u_sets.specs.Members.{IsWith};
ghost use Rattle.u_names.specs.Groups.{Grows};
ghost use Rattle.u_sets.specs.Columns.{IsNumberOf, MayNumber};
ghost use Rattle.u_rule.specs.EntryOrder.{entry_cmp};
ghost use Rattle.u_rule.specs.declared.entry.Entry.{Entry};
ghost use Rattle.u_rule.specs.declared.entry.Entry.TheVariants as kinds;
ghost use Rattle.u_history.specs.Outcomes.{PairIn, ValueAt};
ghost use Rattle.u_history.specs.OutcomeParts.{IsOutcomeOf};

use crate::outcome::Outcome;
use crate::tables::Tables;
use std::alloc::{AllocError, AllocFailed, Global};
use std::marker::Model;
use u_name::{Cell, Name};
use u_rule::{Entry, NameRef, TokenRef, Written};
use u_value::Value;

/// A set of entries whose activities have numbers, which they keep. Contracts see the entries, in order,
/// and the activities, each at the place of its number.
#[derive(Drop)]
pub struct NumberedHistory {
    alloc: Global,
    count: usize,
    tables: Tables,
}

impl Model for NumberedHistory {
    ghost use Rattle.u_history.specs.Numbered.{NumberedEntries, numbered_code};

    ghost Value = { NumberedEntries };

    ghost coded = { numbered_code };

    ghost use Rattle.u_history.specs.Tables.{contents_of, all_entries, AreCounted};
    ghost use Rattle.u_history.specs.Numbered.{numbered};

    ghost view = { λ h. numbered h.tables.names (all_entries (contents_of h.tables)) };

    ghost invariant = { λ h. AreCounted h.tables h.count };
}

impl NumberedHistory {
    /// The empty set, in which no activity has a number. It takes no memory.
    pub fn new(alloc: Global) -> NumberedHistory
        ensures { result.entries ≡ [] }
    {
        NumberedHistory {
            alloc,
            count: 0,
            tables: Tables::new(alloc),
        }
    }

    /// How many entries there are.
    pub fn len(&self) -> usize
        ensures len { result ≡ length self.now.entries }
        ensures rises { Rises entry_cmp self.now.entries }
    {
        self.count
    }

    /// Whether the entry is there.
    pub fn contains(&self, entry: &Entry) -> bool
        ensures { IsTrue result ↔ Contains self.now.entries entry.now }
    {
        self.tables.contains(entry)
    }

    /// The number of the activity, which it gets where it has none. The others keep theirs.
    ///
    /// Promise numbers-of-activities: the number leads back to the activity, and the entries stay what they
    /// are.
    ///
    /// # Errors
    /// `AllocError` where there is no memory; all have the numbers that they had.
    pub fn number_at(&mut self, activity: &NameRef<'_>) -> Result<usize, AllocError>
        ensures number { IfOk result (IsNumberOf self.new.names activity.now) }
        ensures names { Grows self.old.names self.new.names }
        ensures same { self.new.entries ≡ self.old.entries }
    {
        let number = self.tables.number_at(activity)?;
        Ok(number)
    }

    /// The number of the activity, or one that no activity has.
    pub fn number_for(&self, activity: &Name) -> usize
        ensures { MayNumber self.now.names activity.now result }
    {
        self.tables.number_for(activity)
    }

    /// The values of the tokens at that port of the activity that has the number, each once, in no order.
    pub fn values_of(&self, number: usize, port: u8) -> &[Value]
        ensures all { (a : Activity) → MayNumber self.now.names a number → (v : Value)
            → Contains result.now v ↔ ValueAt (Contains self.now.entries) a port v }
        ensures distinct { Distinct result.now }
    {
        self.tables.values_of(number, port)
    }

    /// The values of the tokens at that port of the activity, each once, in no order.
    pub fn values_under(&self, activity: &Name, port: u8) -> &[Value]
        ensures all { (v : Value) → Contains result.now v
            ↔ ValueAt (Contains self.now.entries) activity.now port v }
        ensures distinct { Distinct result.now }
    {
        self.tables.values_at(activity, port)
    }

    /// The writers and values of the writes of the cell, each pair once, in no order.
    pub fn writes_to(&self, cell: &Cell) -> &[Written]
        ensures all { (w : Written) → Contains result.now w
            ↔ PairIn (Contains self.now.entries) cell.now w }
        ensures distinct { Distinct result.now }
    {
        self.tables.writes.under(cell)
    }

    /// Puts the entry in. Returns whether it was new.
    ///
    /// # Errors
    /// The entry is handed back where memory runs out, and the set has the entries that it had.
    pub fn insert(&mut self, entry: Entry) -> Result<bool, AllocFailed<Entry>>
        ensures ok { OnOk result (IsWith self.old.entries entry self.new.entries) }
        ensures new { IfOk result (λ b. IsTrue b ↔ (Contains self.old.entries entry → ⊥)) }
        ensures still { IfOk result (λ b. (IsTrue b → ⊥) → self.new.entries ≡ self.old.entries) }
        ensures err { OnErr result (self.new.entries ≡ self.old.entries) }
        ensures back { IfErr result (λ e. e.value ≡ entry) }
    {
        let Some(next) = self.count.checked_add(1) else {
            return Err(AllocFailed { value: entry });
        };
        let added = self.tables.insert(entry)?;
        if !added {
            return Ok(false);
        }
        self.count = next;
        Ok(true)
    }

    /// Puts a copy of the entry in. Returns whether it was new.
    ///
    /// # Errors
    /// `AllocError` where there is no memory; the set has the entries that it had.
    pub fn insert_copy(&mut self, entry: &Entry) -> Result<bool, AllocError>
        ensures ok { OnOk result (IsWith self.old.entries entry.now self.new.entries) }
        ensures new { IfOk result (λ b. IsTrue b ↔ (Contains self.old.entries entry.now → ⊥)) }
        ensures still { IfOk result (λ b. (IsTrue b → ⊥) → self.new.entries ≡ self.old.entries) }
        ensures err { OnErr result (self.new.entries ≡ self.old.entries) }
    {
        let Some(next) = self.count.checked_add(1) else {
            return Err(AllocError);
        };
        let added = self.tables.insert_copy(entry)?;
        if !added {
            return Ok(false);
        }
        self.count = next;
        Ok(true)
    }

    /// Puts a copy of the token in, whose activity has the number. Returns whether it was new.
    ///
    /// # Errors
    /// `AllocError` where there is no memory; the set stays as it was.
    pub fn put_at(&mut self, number: usize, item: &TokenRef<'_>) -> Result<bool, AllocError>
        requires { IsNumberOf self.old.names item.now.activity number }
        ensures ok { OnOk result
            (IsWith self.old.entries (kinds.Token item.now) self.new.entries) }
        ensures new { IfOk result
            (λ b. IsTrue b ↔ (Contains self.old.entries (kinds.Token item.now) → ⊥)) }
        ensures still { IfOk result (λ b. (IsTrue b → ⊥) → self.new ≡ self.old) }
        ensures err { OnErr result (self.new ≡ self.old) }
        ensures names { self.new.names ≡ self.old.names }
    {
        let Some(next) = self.count.checked_add(1) else {
            return Err(AllocError);
        };
        let added = self.tables.put_at(number, item)?;
        if !added {
            return Ok(false);
        }
        self.count = next;
        Ok(true)
    }

    /// Copies of the entries, in order.
    ///
    /// # Errors
    /// `AllocError` where there is no memory.
    pub fn entries(&self) -> Result<Vec<Entry>, AllocError>
        ensures all { IfOk result (λ v. v.items ≡ self.now.entries) }
        ensures rises { Rises entry_cmp self.now.entries }
    {
        self.tables.entries(self.alloc)
    }

    /// Copies of the entries, each once, in no order.
    ///
    /// # Errors
    /// `AllocError` where there is no memory.
    pub fn unordered_entries(&self) -> Result<Vec<Entry>, AllocError>
        ensures all { IfOk result (λ v. Same (Contains v.items) (Contains self.now.entries)) }
        ensures distinct { IfOk result (λ v. Distinct v.items) }
    {
        let entries = self.tables.listed(self.alloc)?;
        Ok(entries)
    }

    /// What the entries say: the answers, the clashes in cells and at ports, and the faults.
    ///
    /// # Errors
    /// `AllocError` where there is no memory.
    pub fn outcome(&self) -> Result<Outcome, AllocError>
        ensures { IfOk result (IsOutcomeOf (Contains self.now.entries)) }
    {
        let entries = self.tables.telling(self.alloc)?;
        let lent = references(self.alloc, &entries)?;
        Outcome::of(self.alloc, &lent)
    }
}

/// References to the entries.
pub(crate) fn references(alloc: Global, entries: &[Entry]) -> Result<Vec<&Entry>, AllocError>
    ensures { IfOk result (λ v. map (deref {X = Entry}) v.items ≡ entries.now) }
{
    entries.iter().collect(alloc)
}
