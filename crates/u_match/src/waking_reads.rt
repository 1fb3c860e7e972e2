//! The firings that a write wakes: of those that are made of a read that waits for its cell, the ones
//! whose needs are there. The table of reads may have more than the history, so each need is looked up.
ghost use Rattle.std.specs.Prelude.{◌≡◌, ◌↔◌, ◌⊎◌, [], IfOk, OnOk, IsTrue, Contains};
ghost use Rattle.u_rule.specs.declared.entry.Entry.TheVariants.{Write as write_entry};
ghost use Rattle.u_rule.specs.declared.entry.Entry.{Entry};
ghost use Rattle.u_rule.specs.declared.firing.Firing.{Firing};
ghost use Rattle.u_rule.specs.EntryOrder.{firing_cmp, written};
ghost use Rattle.u_sets.specs.Rising.{Rises};
ghost use Rattle.u_match.specs.Waking.{IsWokenBy};
ghost use Rattle.u_base.specs.Firing.{Within};
ghost use Rattle.u_sets.specs.Members.{SomeOf, AreThose, Gains, HasOr, IsWith};
ghost use Rattle.u_match.specs.Joins.{IsWoken};
ghost use Rattle.u_match.specs.Keys.{IsComplete};

use crate::making_firings::of_read;
use crate::meeting::{Read, Reads};
use crate::ordering::put_in_order;
use std::alloc::{AllocError, Global};
use u_check::Job;
use u_history::NumberedHistory;
use u_rule::{Entry, Firing, NameRef, Write, Written, is_own, needed_by};
use u_sets::{has, place_in};

/// Whether the two are one entry.
#[tactic(auto, using(crate::proofs::Wakes::same_entry))]
fn is_same(left: &Entry, right: &Entry) -> bool
    ensures { IsTrue result ↔ (left.now ≡ right.now) }
{
    left.cmp(right).is_eq()
}

/// Whether it is the entry, or in the set.
fn is_held(entries: &NumberedHistory, entry: &Entry, need: &Entry) -> bool
    ensures { IsTrue result ↔ HasOr entries.now.entries entry.now need.now }
{
    if is_same(entry, need) {
        return true;
    }
    entries.contains(need)
}

/// Whether each of the needs is the entry, or in the set.
fn are_held(entries: &NumberedHistory, entry: &Entry, needs: &[Entry]) -> bool
    ensures { IsTrue result ↔ Within (HasOr entries.now.entries entry.now) needs.now }
{
    for need in needs {
        if !is_held(entries, entry, need) {
            return false;
        }
    }
    true
}

/// Adds the firing.
fn add(found: &mut Vec<Firing>, firing: Firing) -> Result<(), AllocError>
    ensures { OnOk result (IsWith found.old.items firing found.new.items) }
{
    found.push(firing)?;
    Ok(())
}

/// Who wrote the write, and what.
fn written_by(write: &Write) -> Result<Written, AllocError>
    ensures { IfOk result (λ w. w ≡ written write.now.writer write.now.value) }
{
    Ok(Written {
        writer: write.writer.copy()?,
        value: write.value.copy()?,
    })
}

/// The firings of the reads, each with the write.
fn wake_each(alloc: Global, write: &Write, reads: &[Read]) -> Result<Vec<Firing>, AllocError>
    ensures { IfOk result (λ v. AreThose (SomeOf reads.now (IsWoken write.now)) v.items) }
{
    let by = written_by(write)?;
    let mut found = Vec::new(alloc);
    for read in reads {
        let activity = NameRef::of(&read.activity);
        let woken = of_read(alloc, &activity, &read.structure, &read.index, &by)?;
        add(&mut found, woken)?;
    }
    Ok(found)
}

/// A job, a set of entries, and an entry that enters it.
#[derive(Clone, Copy)]
pub(crate) struct Entering<'a> {
    pub(crate) alloc: Global,
    pub(crate) job: &'a Job,
    pub(crate) entries: &'a NumberedHistory,
    pub(crate) entry: &'a Entry,
}

impl Entering<'_> {
    /// Whether it is an own firing of the job that needs the entry, and the set has all else that it needs.
    fn is_woken(&self, firing: &Firing) -> Result<bool, AllocError>
        ensures { IfOk result
            (λ b. IsTrue b
            ↔ IsWokenBy self.now.job.now self.now.entry.now
            (HasOr self.now.entries.now.entries self.now.entry.now) firing.now) }
    {
        if !is_own(self.job, firing) {
            return Ok(false);
        }
        let needs = needed_by(self.alloc, firing)?;
        if !has(&needs, self.entry) {
            return Ok(false);
        }
        let held = are_held(self.entries, self.entry, &needs);
        Ok(held)
    }

    /// Puts a copy of the firing in its place, if the entry wakes it.
    fn add_woken(&self, firing: &Firing, found: &mut Vec<Firing>) -> Result<(), AllocError>
        requires { Rises firing_cmp found.old.items }
        ensures rises { Rises firing_cmp found.new.items }
        ensures ok { OnOk result
            (Gains found.old.items
            (λ (f : Firing). (firing.now ≡ f)
            × IsWokenBy self.now.job.now self.now.entry.now
            (HasOr self.now.entries.now.entries self.now.entry.now) f) found.new.items) }
    {
        let woken = self.is_woken(firing)?;
        if !woken {
            return Ok(());
        }
        let copy = firing.copy(self.alloc)?;
        place_in(found, copy)?;
        Ok(())
    }

    /// Adds those of the firings that the entry wakes to the empty list, in order and each once. Of firings
    /// that stand in order each goes behind those that were found before.
    ///
    /// # Errors
    /// `AllocError` where there is no memory.
    fn add_woken_of(&self, firings: &[Firing], found: &mut Vec<Firing>) -> Result<(), AllocError>
        requires { found.old.items ≡ [] }
        ensures exact { OnOk result
            (AreThose
            (λ (f : Firing). Contains firings.now f
            × IsWokenBy self.now.job.now self.now.entry.now
            (HasOr self.now.entries.now.entries self.now.entry.now) f) found.new.items) }
        ensures rises { OnOk result (Rises firing_cmp found.new.items) }
    {
        for firing in firings {
            self.add_woken(firing, found)?;
        }
        Ok(())
    }

    /// The firings of the job that the write wakes where it enters. They stand in order, each once, in the
    /// list, which was empty. The reads are those that wait in the set.
    ///
    /// # Errors
    /// `AllocError` where there is no memory. The list may have some of the firings then.
    pub(crate) fn woken_by_write(
        &self,
        reads: &Reads,
        write: &Write,
        found: &mut Vec<Firing>,
    ) -> Result<(), AllocError>
        requires complete { IsComplete reads.now self.now.entries.now.entries }
        requires is { self.now.entry.now ≡ write_entry write.now }
        requires empty { found.old.items ≡ [] }
        ensures exact { OnOk result
            (AreThose
            (IsWokenBy self.now.job.now self.now.entry.now
            (HasOr self.now.entries.now.entries self.now.entry.now)) found.new.items) }
        ensures rises { OnOk result (Rises firing_cmp found.new.items) }
    {
        let waiting = reads.under(&write.cell);
        let mut met = wake_each(self.alloc, write, waiting)?;
        put_in_order(&mut met);
        self.add_woken_of(&met, found)?;
        Ok(())
    }
}
