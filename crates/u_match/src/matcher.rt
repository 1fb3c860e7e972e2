//! Sets of entries that say what each new entry enables.
//!
//! The history gains the entry last: first the firings are made, then the reads are noted, and one
//! insertion ends the call. If memory runs out before, the history is as it was. What a refused call leaves
//! in the table of reads does no harm, since each firing that the table proposes is tested.
ghost use Rattle.std.specs.Prelude.{◌≡◌, ◌↔◌, [], IfOk, IfErr, OnOk, OnErr, IsTrue, Contains, ◌⊎◌, length};
ghost use Rattle.u_rule.specs.declared.entry.Entry.{Entry};
ghost use Rattle.u_rule.specs.declared.entry.Entry.TheVariants.{Token as token_entry};
ghost use Rattle.u_rule.specs.declared.firing.Firing.{Firing};
ghost use Rattle.u_rule.specs.EntryOrder.{firing_cmp};
ghost use Rattle.u_rule.specs.Rule.{own_of};
ghost use Rattle.u_rule.specs.Fits.{IsFitting};
ghost use Rattle.u_base.specs.Firing.{Enabled};
ghost use Rattle.u_sets.specs.Rising.{Rises};
ghost use Rattle.u_sets.specs.Members.{IsWith, AreThose, HasOr};
ghost use Rattle.u_sets.specs.Columns.{IsNumberOf, MayNumber};
ghost use Rattle.u_match.specs.Keys.{IsComplete};
ghost use Rattle.u_match.specs.Numbers.{IsNumberOfEntry, NumbersEntry};
ghost use Rattle.u_match.specs.Waking.{IsWokenBy, WakesSome, Enters, EnterAnswer, IsLeft};

use crate::enabling::has_all_of;
use crate::halt::Halt;
use crate::joining_tokens::{Joining, Making};
use crate::meeting::Reads;
use crate::noting_reads::{note, note_reads_of};
use crate::waking_reads::Entering;
use std::alloc::{AllocError, Global};
use std::marker::Model;
use u_check::Job;
use u_history::{History, NumberedHistory};
use u_rule::{Entry, Firing, NameRef, TokenRef, statement_at};

/// As many firings are made as a token enters, and no more.
const MOST_AT_ONCE: usize = 16;

/// So the firings of a token that fits the job are made as it enters.
const FEW: Making = Making {
    most: MOST_AT_ONCE,
    is_executable: true,
};

/// So all the firings of a token are made, which may be one that fits no job.
const ALL: Making = Making {
    most: usize::MAX,
    is_executable: false,
};

/// What came of an entry that enters.
#[derive(Clone, Copy)]
pub enum Entered {
    /// It was there already.
    Known,
    /// It is new, and the firings that it wakes are made.
    Woken,
    /// It is a new token and wakes so many firings that they were not made, and it did not enter.
    Many,
}

/// A history, with the reads that wait in it. Contracts see the list of its entries, in order.
#[derive(Drop)]
pub struct Matcher {
    alloc: Global,
    history: History,
    reads: Reads,
}

impl Model for Matcher {
    ghost use Rattle.u_rule.specs.EntryOrder.{EntryList, entry_list_code};
    ghost use Rattle.u_match.specs.Keys.{IsComplete};

    ghost Value = { EntryList };

    ghost coded = { entry_list_code };

    ghost view = { λ m. m.history };

    ghost invariant = { λ m. IsComplete m.reads m.history };
}

/// The number of the entry's activity, if it is a token. An activity that has none gets one.
fn number_of(history: &mut NumberedHistory, entry: &Entry) -> Result<usize, AllocError>
    ensures number { IfOk result (IsNumberOfEntry history.new.names entry.now) }
    ensures same { history.new.entries ≡ history.old.entries }
{
    match entry {
        Entry::Token(token) => {
            let number = history.number_at(&NameRef::of(token.activity()))?;
            Ok(number)
        }
        _ => Ok(0),
    }
}

/// The number of the entry's activity, or one that no activity has, if it is a token.
fn number_for(history: &NumberedHistory, entry: &Entry) -> usize
    ensures { NumbersEntry history.now.names entry.now result }
{
    match entry {
        Entry::Token(token) => history.number_for(token.activity()),
        _ => 0,
    }
}

/// Puts a copy of the entry in. If it is a token, its activity has the number.
fn put(history: &mut NumberedHistory, number: usize, entry: &Entry) -> Result<bool, AllocError>
    requires { IsNumberOfEntry history.old.names entry.now number }
    ensures ok { OnOk result (IsWith history.old.entries entry.now history.new.entries) }
    ensures new { IfOk result (λ b. IsTrue b ↔ (Contains history.old.entries entry.now → ⊥)) }
    ensures still { IfOk result
        (λ b. (IsTrue b → ⊥) → history.new.entries ≡ history.old.entries) }
    ensures err { OnErr result (history.new.entries ≡ history.old.entries) }
{
    match entry {
        Entry::Token(token) => history.put_at(number, &TokenRef::of(token)),
        _ => history.insert_copy(entry),
    }
}

/// Lets the entry enter the history, with the reads that it makes. If it is a token, its activity has the
/// number. Returns whether it was new.
fn admit(
    history: &mut NumberedHistory,
    number: usize,
    reads: &mut Reads,
    entry: &Entry,
) -> Result<bool, AllocError>
    requires number { IsNumberOfEntry history.old.names entry.now number }
    requires complete { IsComplete reads.old history.old.entries }
    ensures ok { OnOk result (IsWith history.old.entries entry.now history.new.entries) }
    ensures new { IfOk result (λ b. IsTrue b ↔ (Contains history.old.entries entry.now → ⊥)) }
    ensures still { IfOk result
        (λ b. (IsTrue b → ⊥) → history.new.entries ≡ history.old.entries) }
    ensures err { OnErr result (history.new.entries ≡ history.old.entries) }
    ensures complete { IsComplete reads.new history.new.entries }
{
    note(history, number, reads, entry)?;
    let added = put(history, number, entry)?;
    Ok(added)
}

/// Lets the token, whose activity has the number, enter the history, with the reads that it makes. Returns
/// whether it was new.
fn admit_token(
    history: &mut NumberedHistory,
    number: usize,
    reads: &mut Reads,
    token: &TokenRef<'_>,
) -> Result<bool, AllocError>
    requires number { IsNumberOf history.old.names token.now.activity number }
    requires complete { IsComplete reads.old history.old.entries }
    ensures ok { OnOk result
        (IsWith history.old.entries (token_entry token.now) history.new.entries) }
    ensures new { IfOk result
        (λ b. IsTrue b ↔ (Contains history.old.entries (token_entry token.now) → ⊥)) }
    ensures still { IfOk result
        (λ b. (IsTrue b → ⊥) → history.new.entries ≡ history.old.entries) }
    ensures err { OnErr result (history.new.entries ≡ history.old.entries) }
    ensures complete { IsComplete reads.new history.new.entries }
{
    note_reads_of(history, number, reads, token)?;
    let added = history.put_at(number, token)?;
    Ok(added)
}

/// Whether the history has the token.
#[inline(never)]
fn has_token(history: &NumberedHistory, token: &TokenRef<'_>) -> Result<bool, AllocError>
    ensures { IfOk result
        (λ b. IsTrue b ↔ Contains history.now.entries (token_entry token.now)) }
{
    let entry = Entry::Token(token.token()?);
    Ok(history.contains(&entry))
}

/// An entry that enters a history, where the firings of a job that it wakes are made. If it is a token,
/// its activity has the number.
#[derive(Clone, Copy)]
struct Waking<'a> {
    alloc: Global,
    job: &'a Job,
    history: &'a NumberedHistory,
    entry: &'a Entry,
    number: usize,
}

impl Waking<'_> {
    /// The firings that the token, which is the entry, wakes where it enters. They go into the empty list.
    /// More than the largest `usize` have no room. An activity that has no statement fires never.
    fn firings_of_token(
        &self,
        token: &TokenRef<'_>,
        found: &mut Vec<Firing>,
    ) -> Result<(), AllocError>
        requires number { MayNumber self.now.history.now.names token.now.activity self.now.number }
        requires empty { found.old.items ≡ [] }
        ensures exact { OnOk result
            (AreThose
            (IsWokenBy self.now.job.now (token_entry token.now)
            (HasOr self.now.history.now.entries (token_entry token.now)))
            found.new.items) }
        ensures rises { OnOk result (Rises firing_cmp found.new.items) }
    {
        let Some(statement) = statement_at(self.job, token.activity()) else {
            return Ok(());
        };
        let joining = Joining {
            alloc: self.alloc,
            job: self.job,
            history: self.history,
            activity: token.activity(),
            statement,
            number: self.number,
            making: ALL,
        };
        match joining.woken_by(token, found) {
            Ok(()) => Ok(()),
            Err(_) => Err(AllocError),
        }
    }

    /// The firings that the entry wakes where it enters. They go into the empty list.
    fn firings(&self, reads: &Reads, found: &mut Vec<Firing>) -> Result<(), AllocError>
        requires number { NumbersEntry self.now.history.now.names self.now.entry.now
            self.now.number }
        requires complete { IsComplete reads.now self.now.history.now.entries }
        requires empty { found.old.items ≡ [] }
        ensures exact { OnOk result
            (AreThose
            (IsWokenBy self.now.job.now self.now.entry.now
            (HasOr self.now.history.now.entries self.now.entry.now))
            found.new.items) }
        ensures rises { OnOk result (Rises firing_cmp found.new.items) }
    {
        match self.entry {
            Entry::Token(token) => self.firings_of_token(&TokenRef::of(token), found),
            Entry::Write(write) => {
                let entering = Entering {
                    alloc: self.alloc,
                    job: self.job,
                    entries: self.history,
                    entry: self.entry,
                };
                entering.woken_by_write(reads, write, found)
            }
            Entry::Fault(_fault) => Ok(()),
            Entry::Answer(_value) => Ok(()),
        }
    }
}

/// Empties the list, unless the entry that came woke the firings in it.
fn keep_woken(came: Result<Entered, AllocError>, firings: &mut Vec<Firing>)
    ensures { IsLeft came firings.old.items firings.new.items }
{
    if !matches!(came, Ok(Entered::Woken)) {
        firings.clear();
    }
}

impl Matcher {
    /// The empty set. It takes no memory.
    pub fn new(alloc: Global) -> Matcher
        ensures { result ≡ [] }
    {
        Matcher {
            alloc,
            history: History::new(alloc),
            reads: Reads::new(alloc),
        }
    }

    /// The entries.
    pub fn history(&self) -> &History
        ensures { result.now ≡ self.now }
    {
        &self.history
    }

    /// How many entries there are.
    pub fn len(&self) -> usize
        ensures { result ≡ length self.now }
    {
        self.history.len()
    }

    /// Whether the entry is there.
    pub fn contains(&self, entry: &Entry) -> bool
        ensures { IsTrue result ↔ Contains self.now entry.now }
    {
        self.history.contains(entry)
    }

    /// Whether it is a firing of the job of which all needs are there. It takes no memory.
    ///
    /// Promise has-all-needs: the answer is true exactly if the firing is enabled over the set.
    ///
    /// # Errors
    /// `AllocError` where so many share a name or a value already, 2^63, that no copy can be made.
    pub fn has_all_of(&self, job: &Job, firing: &Firing) -> Result<bool, AllocError>
        ensures { IfOk result
            (λ b. IsTrue b ↔ Enabled (own_of job.now) (Contains self.now) firing.now) }
    {
        has_all_of(&self.history, job, firing)
    }

    /// Lets the entry enter the set, and returns the firings of the job that it wakes. For an entry that was
    /// there already they are the same again. An activity fires once its ports have tokens (Arvind and
    /// Gostelow, 1982), and a read of a cell once the cell has a write (Arvind and Nikhil, 1990); that each
    /// choice of values and of a write is a firing of its own is this project's profile.
    ///
    /// Promise what-an-entry-wakes: exactly the firings are returned that need the entry and whose needs are
    /// all in the set then, in order, each once.
    ///
    /// Promise matcher-without-memory: after an error the set is as it was, so a later call returns what this
    /// one would have.
    ///
    /// # Errors
    /// `AllocError` where there is no memory; the set stays as it was.
    pub fn enter(&mut self, job: &Job, entry: &Entry) -> Result<Vec<Firing>, AllocError>
        ensures exact { IfOk result
            (λ v. AreThose (IsWokenBy job.now entry.now (Contains self.new)) v.items) }
        ensures order { IfOk result (λ v. Rises firing_cmp v.items) }
        ensures ok { OnOk result (IsWith self.old entry.now self.new) }
        ensures err { OnErr result (self.new ≡ self.old) }
    {
        let history = self.history.numbered_mut();
        let number = number_of(history, entry)?;
        let waking = Waking {
            alloc: self.alloc,
            job,
            history,
            entry,
            number,
        };
        let mut found = Vec::new(self.alloc);
        waking.firings(&self.reads, &mut found)?;
        admit(history, number, &mut self.reads, entry)?;
        Ok(found)
    }

    /// Lets the entry enter the set, unless it is there already. All the firings that it wakes are made, and
    /// go into the empty list; where it does not answer `Woken`, that may have some of them.
    fn let_in(
        &mut self,
        job: &Job,
        entry: &Entry,
        found: &mut Vec<Firing>,
    ) -> Result<Entered, AllocError>
        requires { found.old.items ≡ [] }
        ensures { Enters job.now self.old entry.now result found.new.items self.new }
    {
        let history = self.history.numbered_mut();
        let number = number_of(history, entry)?;
        let waking = Waking {
            alloc: self.alloc,
            job,
            history,
            entry,
            number,
        };
        waking.firings(&self.reads, found)?;
        let added = admit(history, number, &mut self.reads, entry)?;
        if !added {
            return Ok(Entered::Known);
        }
        Ok(Entered::Woken)
    }

    /// Lets a token enter as `enter_token` does, but the list is empty at first, and where it does not answer
    /// `Woken`, that may have some of the firings.
    fn let_token_in(
        &mut self,
        job: &Job,
        token: &TokenRef<'_>,
        found: &mut Vec<Firing>,
    ) -> Result<Entered, AllocError>
        requires fits { IsFitting job.now.program.blocks (token_entry token.now) }
        requires empty { found.old.items ≡ [] }
        ensures { Enters job.now self.old (token_entry token.now) result found.new.items self.new }
    {
        let Some(statement) = statement_at(job, token.activity()) else {
            unreachable!();
        };
        let history = self.history.numbered_mut();
        let number = history.number_at(token.activity())?;
        let joining = Joining {
            alloc: self.alloc,
            job,
            history,
            activity: token.activity(),
            statement,
            number,
            making: FEW,
        };
        match joining.woken_by(token, found) {
            Ok(()) => {}
            Err(Halt::TooMany) => {
                let known = has_token(history, token)?;
                if known {
                    return Ok(Entered::Known);
                }
                return Ok(Entered::Many);
            }
            Err(Halt::NoMemory) => return Err(AllocError),
        }
        let added = admit_token(history, number, &mut self.reads, token)?;
        if !added {
            return Ok(Entered::Known);
        }
        Ok(Entered::Woken)
    }

    /// Lets an entry enter as `enter_few` does, but it never answers `Many`: all that the entry wakes is made.
    #[inline(never)]
    fn enter_whole(
        &mut self,
        job: &Job,
        entry: &Entry,
        found: &mut Vec<Firing>,
    ) -> Result<Entered, AllocError>
        ensures { EnterAnswer job.now self.old entry.now result found.new.items self.new }
    {
        found.clear();
        let came = self.let_in(job, entry, found);
        keep_woken(came, found);
        came
    }

    /// Lets an entry that fits the job enter the set, unless it is there already or is a token that wakes
    /// more than 16 firings. Of these no more than that are made before `Many` is returned. What a write
    /// wakes is always made. The list is emptied and its room is used.
    ///
    /// Promise what-a-new-entry-wakes: after `Woken` the entry is new, and the list has exactly the firings
    /// that it wakes, in order, each once; after `Many` it did not enter.
    ///
    /// # Errors
    /// `AllocError` where there is no memory; the set stays as it was.
    pub fn enter_few(
        &mut self,
        job: &Job,
        entry: &Entry,
        woken: &mut Vec<Firing>,
    ) -> Result<Entered, AllocError>
        requires { IsFitting job.now.program.blocks entry.now }
        ensures { EnterAnswer job.now self.old entry.now result woken.new.items self.new }
    {
        match entry {
            Entry::Token(token) => self.enter_token(job, &TokenRef::of(token), woken),
            _ => self.enter_whole(job, entry, woken),
        }
    }

    /// `enter_few` of the token, which comes by reference: neither it nor the name of its activity is made.
    ///
    /// # Errors
    /// As `enter_few`.
    pub fn enter_token(
        &mut self,
        job: &Job,
        token: &TokenRef<'_>,
        woken: &mut Vec<Firing>,
    ) -> Result<Entered, AllocError>
        requires { IsFitting job.now.program.blocks (token_entry token.now) }
        ensures { EnterAnswer job.now self.old (token_entry token.now) result woken.new.items
            self.new }
    {
        woken.clear();
        let came = self.let_token_in(job, token, woken);
        keep_woken(came, woken);
        came
    }

    /// Lets the entry enter the set. The firings that it wakes are not made: `woken_by` makes them.
    ///
    /// # Errors
    /// `AllocError` where there is no memory; the set stays as it was.
    pub fn enter_alone(&mut self, entry: &Entry) -> Result<(), AllocError>
        ensures ok { OnOk result (IsWith self.old entry.now self.new) }
        ensures err { OnErr result (self.new ≡ self.old) }
    {
        let history = self.history.numbered_mut();
        let number = number_of(history, entry)?;
        admit(history, number, &mut self.reads, entry)?;
        Ok(())
    }

    /// The firings of the job that an entry of the set wakes, in order and each once: those that need
    /// it, and whose needs are all in the set.
    ///
    /// Promise entries-alone: exactly the firings are returned that `enter` would return for the entry.
    ///
    /// # Errors
    /// `AllocError` where there is no memory.
    pub fn woken_by(&self, job: &Job, entry: &Entry) -> Result<Vec<Firing>, AllocError>
        requires { Contains self.now entry.now }
        ensures exact { IfOk result
            (λ v. AreThose (IsWokenBy job.now entry.now (Contains self.now)) v.items) }
        ensures order { IfOk result (λ v. Rises firing_cmp v.items) }
    {
        let history = self.history.numbered();
        let waking = Waking {
            alloc: self.alloc,
            job,
            history,
            entry,
            number: number_for(history, entry),
        };
        let mut found = Vec::new(self.alloc);
        waking.firings(&self.reads, &mut found)?;
        Ok(found)
    }
}
