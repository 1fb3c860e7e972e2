//! Sets of entries.
//!
//! It promises of the entries alone what `NumberedHistory` promises, for callers who know nothing of
//! numbers.
ghost use Rattle.std.specs.Prelude.{◌≡◌, ◌↔◌, ◌++◌, [], ◌∷◌, OnOk, OnErr, IfOk, IfErr, Contains, ◌⊎◌, IsTrue, length, map};
ghost use Rattle.std.specs.Borrow.{sem};
ghost use Rattle.u_base.specs.Firing.{Distinct, Same};
ghost use Rattle.u_value.specs.declared.value.Value.{Value};
ghost use Rattle.u_rule.specs.declared.parts.Written.{Written};
ghost use Rattle.u_sets.specs.Rising.{Rises, IsListOf};
ghost use Rattle.u_sets.specs.Members.{IsWith, IsUnion};
ghost use Rattle.u_rule.specs.EntryOrder.{entry_cmp};
ghost use Rattle.u_rule.specs.declared.entry.Entry.{Entry};
ghost use Rattle.u_history.specs.Orders.{value_order, written_order};
ghost use Rattle.u_base.specs.Appending.{Extends};
ghost use Rattle.u_rule.specs.EntryText.{entry_text};
ghost use Rattle.u_history.specs.Text.{history_text};
ghost use Rattle.u_history.specs.Outcomes.{PairIn, ValueAt, lent};
ghost use Rattle.u_history.specs.OutcomeParts.{IsOutcomeOf};
ghost use Rattle.u_history.specs.Lending.{LendsNumbered};

use crate::clash::Port;
use crate::lookup::{pairs_in, values_at};
use crate::numbered::{NumberedHistory, references};
use crate::outcome::Outcome;
use std::alloc::{AllocError, AllocFailed, Global};
use std::marker::Model;
use u_base::cut_back;
use u_name::{Cell, Name};
use u_rule::{Entry, Written};
use u_value::Value;

/// A set of entries. Contracts see it as the list of its entries, in order.
#[derive(Drop)]
pub struct History {
    alloc: Global,
    numbered: NumberedHistory,
}

impl Model for History {
    ghost use Rattle.std.specs.Prelude.{List};
    ghost use Rattle.u_rule.specs.declared.entry.Entry.{Entry};
    ghost use Rattle.u_history.specs.Stored.{entries_code};

    ghost Value = { List Entry };

    ghost coded = { entries_code };

    ghost view = { λ h. h.numbered.entries };
}

impl History {
    /// The empty set. It takes no memory.
    pub fn new(alloc: Global) -> History
        ensures { result ≡ [] }
    {
        History {
            alloc,
            numbered: NumberedHistory::new(alloc),
        }
    }

    /// How many entries there are.
    pub fn len(&self) -> usize
        ensures len { result ≡ length self.now }
        ensures rises { Rises entry_cmp self.now }
    {
        self.numbered.len()
    }

    /// Whether the entry is there.
    pub fn contains(&self, entry: &Entry) -> bool
        ensures { IsTrue result ↔ Contains self.now entry.now }
    {
        self.numbered.contains(entry)
    }

    /// The history with the numbers of its activities.
    pub fn numbered(&self) -> &NumberedHistory
        ensures { result.now.entries ≡ self.now }
    {
        &self.numbered
    }

    /// The history with the numbers of its activities, to be changed.
    pub fn numbered_mut(&mut self) -> &mut NumberedHistory
        ensures* lends { sem 𝓛 (LendsNumbered self.entry result) }
        ensures entries { result.now.entries ≡ self.old }
    {
        &mut self.numbered
    }

    /// Puts the entry in. Returns whether it was new.
    ///
    /// Promise history-is-a-set: the history has afterwards exactly the entries that it had and this one.
    ///
    /// # Errors
    /// The entry is handed back where memory runs out, and the set stays as it was.
    pub fn insert(&mut self, entry: Entry) -> Result<bool, AllocFailed<Entry>>
        ensures ok { OnOk result (IsWith self.old entry self.new) }
        ensures new { IfOk result (λ b. IsTrue b ↔ (Contains self.old entry → ⊥)) }
        ensures still { IfOk result (λ b. (IsTrue b → ⊥) → self.new ≡ self.old) }
        ensures err { OnErr result (self.new ≡ self.old) }
        ensures back { IfErr result (λ e. e.value ≡ entry) }
    {
        self.numbered.insert(entry)
    }

    /// Puts a copy of the entry in. Returns whether it was new.
    ///
    /// # Errors
    /// `AllocError` where there is no memory; the set stays as it was.
    pub fn insert_copy(&mut self, entry: &Entry) -> Result<bool, AllocError>
        ensures ok { OnOk result (IsWith self.old entry.now self.new) }
        ensures new { IfOk result (λ b. IsTrue b ↔ (Contains self.old entry.now → ⊥)) }
        ensures still { IfOk result (λ b. (IsTrue b → ⊥) → self.new ≡ self.old) }
        ensures err { OnErr result (self.new ≡ self.old) }
    {
        self.numbered.insert_copy(entry)
    }

    /// The values of the tokens at that port of the activity, each once, in no order.
    pub fn values_under(&self, activity: &Name, port: u8) -> &[Value]
        ensures all { (v : Value) → Contains result.now v
            ↔ ValueAt (Contains self.now) activity.now port v }
        ensures distinct { Distinct result.now }
    {
        self.numbered.values_under(activity, port)
    }

    /// The values of the tokens at the port, each once, in no order.
    pub fn values_at(&self, port: &Port) -> &[Value]
        ensures all { (v : Value) → Contains result.now v
            ↔ ValueAt (Contains self.now) port.now.activity port.now.number v }
        ensures distinct { Distinct result.now }
    {
        self.numbered.values_under(&port.activity, port.number)
    }

    /// The writers and values of the writes of the cell, each pair once, in no order.
    pub fn writes_to(&self, cell: &Cell) -> &[Written]
        ensures all { (w : Written) → Contains result.now w
            ↔ PairIn (Contains self.now) cell.now w }
        ensures distinct { Distinct result.now }
    {
        self.numbered.writes_to(cell)
    }

    /// Copies of the entries, in order.
    ///
    /// Promise entries-of-a-history: exactly the entries of the history are returned, each once.
    ///
    /// # Errors
    /// `AllocError` where there is no memory.
    pub fn entries(&self) -> Result<Vec<Entry>, AllocError>
        ensures all { IfOk result (λ v. v.items ≡ self.now) }
        ensures rises { Rises entry_cmp self.now }
    {
        self.numbered.entries()
    }

    /// Copies of the entries, each once, in no order. Putting many in order takes longer than copying
    /// them.
    ///
    /// # Errors
    /// `AllocError` where there is no memory.
    pub fn unordered_entries(&self) -> Result<Vec<Entry>, AllocError>
        ensures all { IfOk result (λ v. Same (Contains v.items) (Contains self.now)) }
        ensures distinct { IfOk result (λ v. Distinct v.items) }
    {
        self.numbered.unordered_entries()
    }

    /// The values of the tokens at that port of the activity, in order.
    ///
    /// Promise values-and-writes: `values` and `writes` return exactly what the history has at the port or in
    /// the cell, each once.
    ///
    /// # Errors
    /// `AllocError` where there is no memory.
    pub fn values(&self, activity: &Name, port: u8) -> Result<Vec<Value>, AllocError>
        ensures { IfOk result
            (λ v. IsListOf value_order (ValueAt (Contains self.now) activity.now port) v.items) }
    {
        let entries = self.entries()?;
        let lent = references(self.alloc, &entries)?;
        values_at(self.alloc, &lent, activity, port)
    }

    /// The writers and values of the writes of the cell, in order.
    ///
    /// # Errors
    /// `AllocError` where there is no memory.
    pub fn writes(&self, cell: &Cell) -> Result<Vec<Written>, AllocError>
        ensures { IfOk result
            (λ v. IsListOf written_order (PairIn (Contains self.now) cell.now) v.items) }
    {
        let entries = self.entries()?;
        let lent = references(self.alloc, &entries)?;
        pairs_in(self.alloc, &lent, cell)
    }

    /// Appends the text of each entry, in order, with a newline behind it. On an error a part of it
    /// may stand there.
    #[tactic(auto, using(u_base::proofs::AppendingLaws::extends_same))]
    fn append(&self, out: &mut Vec<u8>) -> Result<(), AllocError>
        ensures ok { OnOk result (out.new.items ≡ out.old.items ++ history_text self.now) }
        ensures err { OnErr result (Extends out.old.items out.new.items) }
    {
        let entries = self.entries()?;
        let lent = references(self.alloc, &entries)?;
        push_lines(out, &lent)
    }

    /// Appends a line for each entry, its text and a newline.
    ///
    /// Promise text-of-a-history: exactly the line of each entry is appended, in order.
    ///
    /// # Errors
    /// `AllocError` where there is no memory. Then `out` is as it was.
    #[tactic(auto, using(u_base::proofs::AppendingLaws::extends_cut))]
    pub fn write_text(&self, out: &mut Vec<u8>) -> Result<(), AllocError>
        ensures ok { OnOk result (out.new.items ≡ out.old.items ++ history_text self.now) }
        ensures err { OnErr result (out.new.items ≡ out.old.items) }
    {
        let len = out.len();
        let written = self.append(out);
        cut_back(out, len, written)
    }

    /// What the entries say.
    ///
    /// Promise outcome: exactly the answers, the cells with two writes or more, the ports with two values or
    /// more, and the faults are returned.
    ///
    /// # Errors
    /// `AllocError` where there is no memory.
    pub fn outcome(&self) -> Result<Outcome, AllocError>
        ensures { IfOk result (IsOutcomeOf (Contains self.now)) }
    {
        self.numbered.outcome()
    }

    /// Puts copies of the entries in.
    fn put_all(&mut self, entries: &[Entry]) -> Result<(), AllocError>
        ensures { OnOk result (IsUnion self.old entries.now self.new) }
    {
        for entry in entries {
            let _ = self.insert_copy(entry)?;
        }
        Ok(())
    }

    /// Puts copies of the other set's entries in.
    fn take_in(&mut self, other: &History) -> Result<(), AllocError>
        ensures { OnOk result (IsUnion self.old other.now self.new) }
    {
        let entries = other.unordered_entries()?;
        self.put_all(&entries)?;
        Ok(())
    }

    /// An equal set.
    ///
    /// # Errors
    /// `AllocError` where there is no memory.
    pub fn copy(&self) -> Result<History, AllocError>
        ensures { IfOk result (λ h. h ≡ self.now) }
    {
        let mut copied = History::new(self.alloc);
        copied.take_in(self)?;
        // Bring in that the entries of both rise.
        let _ = self.len();
        let _ = copied.len();
        Ok(copied)
    }

    /// Puts the other set's entries in.
    ///
    /// Promise union-of-histories: the history has afterwards exactly the entries that it had and those of
    /// the other.
    ///
    /// # Errors
    /// `AllocError` where memory runs out, and the set stays as it was.
    pub fn merge(&mut self, other: &History) -> Result<(), AllocError>
        ensures ok { OnOk result (IsUnion self.old other.now self.new) }
        ensures err { OnErr result (self.new ≡ self.old) }
    {
        let mut union = self.copy()?;
        union.take_in(other)?;
        *self = union;
        Ok(())
    }
}

/// Appends the text of the entry, with a newline behind it. On an error a part of it may stand there.
#[tactic(auto, using(u_base::proofs::AppendingLaws::extends_by, u_base::proofs::AppendingLaws::extends_behind, u_base::proofs::AppendingLaws::extends_same))]
fn push_line(out: &mut Vec<u8>, entry: &Entry) -> Result<(), AllocError>
    ensures ok { OnOk result
        (out.new.items ≡ out.old.items ++ (entry_text entry.now ++ (10 ∷ []))) }
    ensures err { OnErr result (Extends out.old.items out.new.items) }
{
    entry.write_text(out)?;
    out.push(b'\n')?;
    Ok(())
}

/// Appends the text of each entry, with a newline behind it. On an error a part of it may stand there.
#[tactic(auto, using(u_base::proofs::AppendingLaws::extends_behind))]
fn push_lines(out: &mut Vec<u8>, entries: &[&Entry]) -> Result<(), AllocError>
    ensures ok { OnOk result (out.new.items ≡ out.old.items ++ history_text (lent entries.now)) }
    ensures err { OnErr result (Extends out.old.items out.new.items) }
{
    for entry in entries {
        push_line(out, entry)?;
    }
    Ok(())
}
