//! Where the entries of a history stand: tokens under their activities, writes under their cells.
//!
//! An activity has a number from the moment that a token of it enters. A list for each port has the values
//! by number; writes are found by the number of their structure and their index. So an activity is looked
//! up once, and what it meets is found by its number. The entries are made, and put in order, only if they
//! are listed.
ghost use Rattle.std.specs.Prelude.{◌≡◌, ◌↔◌, ◌<◌, [], length, OnOk, OnErr, IfOk, IfErr, Contains, IsTrue, ◌++◌, map};
ghost use Rattle.std.specs.Map.Iter.{deref};
ghost use Rattle.u_names.specs.CellPairs.{deref_at_cell};
ghost use Rattle.u_base.specs.Firing.{Distinct};
ghost use Rattle.u_name.specs.Context.{IsBetween};
ghost use Rattle.u_name.specs.Name.{Activity};
ghost use Rattle.u_value.specs.declared.value.Value.{Value};
ghost use Rattle.u_rule.specs.Parts.{token, most_ports};
ghost use Rattle.u_rule.specs.EntryOrder.{entry_cmp, write_of, written};
ghost use Rattle.u_rule.specs.declared.entry.Entry.{Entry};
ghost use Rattle.u_rule.specs.declared.entry.Entry.TheVariants as kinds;
ghost use Rattle.u_sets.specs.Members.{IsWith};
ghost use Rattle.u_names.specs.Groups.{Grows};
ghost use Rattle.u_sets.specs.Rising.{Rises};
ghost use Rattle.u_sets.specs.Columns.{named, deref_value, AreBelow, IsNumberOf, MayNumber};
ghost use Rattle.u_history.specs.Tables.{PortTables, AreTables, contents_of};
ghost use Rattle.u_history.specs.Tables.{Holds, HoldsMore, HoldsTheSame};
ghost use Rattle.u_history.specs.Tables.{token_entry, write_entry, listed_tokens};
ghost use Rattle.u_history.specs.Tables.{listed_entries, all_entries, Matters, AreSharing, AreDistinct};

use std::alloc::{AllocError, AllocFailed, Global};
use std::array;
use u_name::{Cell, Name};
use u_names::{Activities, CellSet};
use u_rule::{Entry, MOST_PORTS, NameRef, Token, TokenRef, Write, Written};
use u_sets::{Column, ListedSet, put_in_order};
use u_value::Value;

/// The entries of a history.
#[derive(Drop)]
pub struct Tables {
    /// The activities. The number of one is its place.
    pub names: Activities,
    /// For each port, the first being port 1, the values there, by the number of the activity.
    pub columns: [Column<Value>; MOST_PORTS],
    /// The writes, by cell.
    pub writes: CellSet<Written>,
    /// The faults and the answers.
    pub rest: ListedSet<Entry>,
}

/// Puts the write into the table.
fn put_write(table: &mut CellSet<Written>, write: Write) -> Result<bool, AllocFailed<Entry>>
    ensures ok { OnOk result
        (IsWith table.old (write.cell, written write.writer write.value) table.new) }
    ensures new { IfOk result
        (λ b. IsTrue b
        ↔ (Contains table.old (write.cell, written write.writer write.value) → ⊥)) }
    ensures still { IfOk result (λ b. (IsTrue b → ⊥) → table.new ≡ table.old) }
    ensures err { OnErr result (table.new ≡ table.old) }
    ensures back { IfErr result (λ e. e.value ≡ kinds.Write write) }
{
    let Write {
        cell,
        writer,
        value,
    } = write;
    match table.insert(&cell, Written { writer, value }) {
        Ok(added) => Ok(added),
        Err(failed) => {
            let Written { writer, value } = failed.value;
            Err(AllocFailed {
                value: Entry::Write(Write {
                    cell,
                    writer,
                    value,
                }),
            })
        }
    }
}

/// The token of a copy of the value.
fn token_at(activity: Name, port: u8, value: &Value) -> Result<Entry, AllocError>
    requires { IsBetween 1 port most_ports }
    ensures { IfOk result (λ e. e ≡ kinds.Token (token activity port value.now)) }
{
    let value = value.copy()?;
    Ok(Entry::Token(Token::new(activity, port, value)))
}

/// The write, of copies of its parts.
fn write_copy(cell: &Cell, pair: &Written) -> Result<Entry, AllocError>
    ensures { IfOk result
        (λ e. e ≡ kinds.Write (write_of cell.now pair.now.writer pair.now.value)) }
{
    Ok(Entry::Write(Write {
        cell: cell.copy()?,
        writer: pair.writer.copy()?,
        value: pair.value.copy()?,
    }))
}

/// Adds copies of the tokens at the port. The pairs have the numbers of their activities.
fn push_tokens(
    list: &mut Vec<Entry>,
    names: &Activities,
    pairs: &[(usize, &Value)],
    port: u8,
) -> Result<(), AllocError>
    requires port { IsBetween 1 port most_ports }
    requires below { AreBelow (length names.now) (map deref_value pairs.now) }
    ensures { OnOk result
        (list.new.items
        ≡ list.old.items ++ map (token_entry port) (named names.now (map deref_value pairs.now))) }
{
    for pair in pairs {
        let found = names.name_of(pair.0)?;
        let Some(activity) = found else {
            unreachable!()
        };
        list.push(token_at(activity, port, pair.1)?)?;
    }
    Ok(())
}

/// Adds copies of the writes.
fn push_writes(list: &mut Vec<Entry>, pairs: &[(Cell, &Written)]) -> Result<(), AllocError>
    ensures { OnOk result
        (list.new.items ≡ list.old.items ++ map write_entry (map deref_at_cell pairs.now)) }
{
    for pair in pairs {
        list.push(write_copy(&pair.0, pair.1)?)?;
    }
    Ok(())
}

/// Adds copies of the entries.
fn push_others(list: &mut Vec<Entry>, others: &[&Entry]) -> Result<(), AllocError>
    ensures { OnOk result
        (list.new.items ≡ list.old.items ++ map (deref {X = Entry}) others.now) }
{
    for entry in others {
        list.push(entry.copy()?)?;
    }
    Ok(())
}

/// The writer and the value of the write.
fn pair_of(write: &Write) -> Result<Written, AllocError>
    ensures { IfOk result (λ w. w ≡ written write.now.writer write.now.value) }
{
    Ok(Written {
        writer: write.writer.copy()?,
        value: write.value.copy()?,
    })
}

/// Whether the pair is that of the write.
#[tactic(auto, using(crate::proofs::Neighbours::same_name))]
fn is_pair(pair: &Written, write: &Write) -> bool
    ensures { IsTrue result
        ↔ ((pair.now.writer ≡ write.now.writer) × (pair.now.value ≡ write.now.value)) }
{
    pair.writer == write.writer && pair.value == write.value
}

/// Whether one of the pairs is that of the write.
fn has_pair(pairs: &[Written], write: &Write) -> bool
    ensures { IsTrue result ↔ Contains pairs.now (written write.now.writer write.now.value) }
{
    for pair in pairs {
        if is_pair(pair, write) {
            return true;
        }
    }
    false
}

impl Tables {
    /// No entries. It takes no memory.
    pub fn new(alloc: Global) -> Tables
        ensures held { (e : Entry) → Holds result e → ⊥ }
        ensures tables { AreTables result }
    {
        Tables {
            names: Activities::new(alloc),
            columns: array::from_fn(
                |_|
                    ensures { result ≡ [] }
                { Column::new(alloc) },
            ),
            writes: CellSet::new(alloc),
            rest: ListedSet::new(alloc),
        }
    }

    /// The number of the activity, which it gets where it has none.
    pub fn number_at(&mut self, activity: &NameRef<'_>) -> Result<usize, AllocError>
        requires { AreTables self.old }
        ensures number { IfOk result (IsNumberOf self.new.names activity.now) }
        ensures names { Grows self.old.names self.new.names }
        ensures same { HoldsTheSame self.old self.new }
        ensures tables { AreTables self.new }
    {
        let (near, statement) = activity.parts();
        let number = self.names.number_beside(near, statement)?;
        Ok(number)
    }

    /// The number of the activity, or the one that it would get.
    pub fn number_for(&self, activity: &Name) -> usize
        ensures { MayNumber self.now.names activity.now result }
    {
        match self.names.find(activity) {
            Some(number) => number,
            None => self.names.len(),
        }
    }

    /// The values at that port of the activity that has the number, each once.
    pub fn values_of(&self, number: usize, port: u8) -> &[Value]
        requires { AreTables self.now }
        ensures all { (a : Activity) → MayNumber self.now.names a number → (v : Value)
            → Contains result.now v ↔ Holds self.now (kinds.Token (token a port v)) }
        ensures distinct { Distinct result.now }
    {
        if port == 0 {
            return &[];
        }
        match self.columns.get(usize::from(port) - 1) {
            Some(column) => column.at(number),
            None => &[],
        }
    }

    /// The values of the activity at that port, each once.
    pub fn values_at(&self, activity: &Name, port: u8) -> &[Value]
        requires { AreTables self.now }
        ensures all { (v : Value) → Contains result.now v
            ↔ Holds self.now (kinds.Token (token activity.now port v)) }
        ensures distinct { Distinct result.now }
    {
        self.values_of(self.number_for(activity), port)
    }

    /// Whether the token is there.
    fn has_token(&self, item: &Token) -> bool
        requires { AreTables self.now }
        ensures { IsTrue result ↔ Holds self.now (kinds.Token item.now) }
    {
        let number = self.number_for(item.activity());
        let place = usize::from(item.port()) - 1;
        self.columns[place].contains(number, item.value())
    }

    /// Whether the write is there.
    fn has_write(&self, write: &Write) -> bool
        ensures { IsTrue result ↔ Holds self.now (kinds.Write write.now) }
    {
        match pair_of(write) {
            Ok(pair) => self.writes.contains(&write.cell, &pair),
            Err(_) => has_pair(self.writes.under(&write.cell), write),
        }
    }

    /// Whether the entry is there.
    pub fn contains(&self, entry: &Entry) -> bool
        requires { AreTables self.now }
        ensures { IsTrue result ↔ Holds self.now entry.now }
    {
        match entry {
            Entry::Token(token) => self.has_token(token),
            Entry::Write(write) => self.has_write(write),
            Entry::Fault(_) | Entry::Answer(_) => self.rest.contains(entry),
        }
    }

    /// Puts the value in at that port of the activity that has the number. Returns whether it was new.
    fn put(&mut self, number: usize, port: u8, value: Value) -> Result<bool, AllocFailed<Value>>
        requires tables { AreTables self.old }
        requires number { number < length self.old.names }
        requires port { IsBetween 1 port most_ports }
        ensures ok { OnOk result ((a : Activity) → IsNumberOf self.old.names a number
            → HoldsMore self.old (kinds.Token (token a port value)) self.new) }
        ensures new { IfOk result (λ b. (a : Activity) → IsNumberOf self.old.names a number
            → IsTrue b ↔ (Holds self.old (kinds.Token (token a port value)) → ⊥)) }
        ensures still { IfOk result (λ b. (IsTrue b → ⊥) → self.new ≡ self.old) }
        ensures err { OnErr result (self.new ≡ self.old) }
        ensures back { IfErr result (λ e. e.value ≡ value) }
        ensures names { self.new.names ≡ self.old.names }
        ensures tables { AreTables self.new }
    {
        let place = usize::from(port) - 1;
        self.columns[place].put(number, value)
    }

    /// Puts a copy of the token in, whose activity has the number. Returns whether it was new.
    pub fn put_at(&mut self, number: usize, item: &TokenRef<'_>) -> Result<bool, AllocError>
        requires tables { AreTables self.old }
        requires number { IsNumberOf self.old.names item.now.activity number }
        ensures ok { OnOk result (HoldsMore self.old (kinds.Token item.now) self.new) }
        ensures new { IfOk result
            (λ b. IsTrue b ↔ (Holds self.old (kinds.Token item.now) → ⊥)) }
        ensures still { IfOk result (λ b. (IsTrue b → ⊥) → self.new ≡ self.old) }
        ensures err { OnErr result (self.new ≡ self.old) }
        ensures names { self.new.names ≡ self.old.names }
        ensures tables { AreTables self.new }
    {
        let value = item.value().copy()?;
        let added = self.put(number, item.port(), value)?;
        Ok(added)
    }

    /// Puts the token in. Returns whether it was new.
    fn insert_token(&mut self, item: Token) -> Result<bool, AllocFailed<Entry>>
        requires { AreTables self.old }
        ensures ok { OnOk result (HoldsMore self.old (kinds.Token item) self.new) }
        ensures new { IfOk result (λ b. IsTrue b ↔ (Holds self.old (kinds.Token item) → ⊥)) }
        ensures still { IfOk result (λ b. (IsTrue b → ⊥) → HoldsTheSame self.old self.new) }
        ensures err { OnErr result (HoldsTheSame self.old self.new) }
        ensures back { IfErr result (λ e. e.value ≡ kinds.Token item) }
        ensures tables { AreTables self.new }
    {
        let Ok(number) = self.number_at(&NameRef::of(item.activity())) else {
            return Err(AllocFailed {
                value: Entry::Token(item),
            });
        };
        let (activity, port, value) = item.into_parts();
        match self.put(number, port, value) {
            Ok(added) => Ok(added),
            Err(failed) => Err(AllocFailed {
                value: Entry::Token(Token::new(activity, port, failed.value)),
            }),
        }
    }

    /// Puts the entry in. Returns whether it was new.
    pub fn insert(&mut self, entry: Entry) -> Result<bool, AllocFailed<Entry>>
        requires { AreTables self.old }
        ensures ok { OnOk result (HoldsMore self.old entry self.new) }
        ensures new { IfOk result (λ b. IsTrue b ↔ (Holds self.old entry → ⊥)) }
        ensures still { IfOk result (λ b. (IsTrue b → ⊥) → HoldsTheSame self.old self.new) }
        ensures err { OnErr result (HoldsTheSame self.old self.new) }
        ensures back { IfErr result (λ e. e.value ≡ entry) }
        ensures tables { AreTables self.new }
    {
        match entry {
            Entry::Token(token) => self.insert_token(token),
            Entry::Write(write) => put_write(&mut self.writes, write),
            Entry::Fault(fault) => self.rest.insert(Entry::Fault(fault)),
            Entry::Answer(value) => self.rest.insert(Entry::Answer(value)),
        }
    }

    /// Puts a copy of the token in. Returns whether it was new.
    fn insert_token_copy(&mut self, item: &TokenRef<'_>) -> Result<bool, AllocError>
        requires { AreTables self.old }
        ensures ok { OnOk result (HoldsMore self.old (kinds.Token item.now) self.new) }
        ensures new { IfOk result
            (λ b. IsTrue b ↔ (Holds self.old (kinds.Token item.now) → ⊥)) }
        ensures still { IfOk result (λ b. (IsTrue b → ⊥) → HoldsTheSame self.old self.new) }
        ensures err { OnErr result (HoldsTheSame self.old self.new) }
        ensures tables { AreTables self.new }
    {
        let number = self.number_at(item.activity())?;
        let added = self.put_at(number, item)?;
        Ok(added)
    }

    /// Puts a copy of the entry in. Returns whether it was new.
    pub fn insert_copy(&mut self, entry: &Entry) -> Result<bool, AllocError>
        requires { AreTables self.old }
        ensures ok { OnOk result (HoldsMore self.old entry.now self.new) }
        ensures new { IfOk result (λ b. IsTrue b ↔ (Holds self.old entry.now → ⊥)) }
        ensures still { IfOk result (λ b. (IsTrue b → ⊥) → HoldsTheSame self.old self.new) }
        ensures err { OnErr result (HoldsTheSame self.old self.new) }
        ensures tables { AreTables self.new }
    {
        if let Entry::Token(token) = entry {
            return self.insert_token_copy(&TokenRef::of(token));
        }
        let copy = entry.copy()?;
        let added = self.insert(copy)?;
        Ok(added)
    }

    /// Copies of the tokens, port by port.
    fn tokens_listed(&self, alloc: Global) -> Result<Vec<Entry>, AllocError>
        requires { AreTables self.now }
        ensures all { IfOk result (λ v. v.items ≡ listed_tokens 1 (contents_of self.now).tokens) }
        ensures distinct { IfOk result (λ _. AreDistinct (contents_of self.now).tokens) }
    {
        let mut list = Vec::new(alloc);
        for place in 0..MOST_PORTS {
            let pairs = self.columns[place].pairs(alloc)?;
            push_tokens(&mut list, &self.names, &pairs, place as u8 + 1)?;
        }
        Ok(list)
    }

    /// Copies of the tokens that are not alone at their port, port by port.
    fn tokens_sharing(&self, alloc: Global) -> Result<Vec<Entry>, AllocError>
        requires { AreTables self.now }
        ensures { IfOk result (λ v. (shared : PortTables)
            × AreSharing (contents_of self.now).tokens shared
            × (v.items ≡ listed_tokens 1 shared)) }
    {
        let mut list = Vec::new(alloc);
        for place in 0..MOST_PORTS {
            let pairs = self.columns[place].shared_pairs(alloc)?;
            push_tokens(&mut list, &self.names, &pairs, place as u8 + 1)?;
        }
        Ok(list)
    }

    /// Copies of the entries, table by table.
    pub fn listed(&self, alloc: Global) -> Result<Vec<Entry>, AllocError>
        requires { AreTables self.now }
        ensures all { IfOk result
            (λ v. v.items
            ≡ listed_entries (contents_of self.now).tokens self.now.writes self.now.rest) }
        ensures distinct { IfOk result (λ v. Distinct v.items) }
    {
        let writes = self.writes.pairs(alloc)?;
        let others = self.rest.in_order(alloc)?;
        let mut list = self.tokens_listed(alloc)?;
        push_writes(&mut list, &writes)?;
        push_others(&mut list, &others)?;
        Ok(list)
    }

    /// Copies of the entries, in order.
    pub fn entries(&self, alloc: Global) -> Result<Vec<Entry>, AllocError>
        requires { AreTables self.now }
        ensures { IfOk result (λ v. v.items ≡ all_entries (contents_of self.now)) }
    {
        let mut list = self.listed(alloc)?;
        put_in_order(&mut list);
        Ok(list)
    }

    /// Copies of the entries that tell in an outcome, in order: of the tokens and the writes only those
    /// that are not alone at their place. It goes over the others and leaves them where they are.
    pub fn telling(&self, alloc: Global) -> Result<Vec<Entry>, AllocError>
        requires { AreTables self.now }
        ensures rises { IfOk result (λ v. Rises entry_cmp v.items) }
        ensures all { IfOk result
            (λ v. (e : Entry) → Contains v.items e ↔ Matters (Holds self.now) e) }
    {
        let writes = self.writes.shared_pairs(alloc)?;
        let others = self.rest.in_order(alloc)?;
        let mut list = self.tokens_sharing(alloc)?;
        push_writes(&mut list, &writes)?;
        push_others(&mut list, &others)?;
        put_in_order(&mut list);
        Ok(list)
    }
}
