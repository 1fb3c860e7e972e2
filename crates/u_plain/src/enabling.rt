//! The firings that are enabled over a list of entries, in any order.
//!
//! Each is found at its first token: what has that value alone, and then what has one more value, as
//! long as there are tokens of the same activity at the next port.
//!
//! No table is kept, since this is compared with code that is clever.
ghost use Rattle.std.specs.Prelude.{◌≡◌, ◌↔◌, ◌⊎◌, ◌+◌, ◌<◌, [], ◌∷◌, length, Contains, IfOk, OnOk, IsTrue, None, MatchOption};
ghost use Rattle.u_rule.specs.Rule.{own_of, needs_of};
ghost use Rattle.u_rule.specs.EntryOrder.{firing};
ghost use Rattle.u_rule.specs.Parts.{TokenParts, most_ports};
ghost use Rattle.u_rule.specs.declared.entry.Entry.TheVariants as entries;
ghost use Rattle.u_rule.specs.declared.entry.Entry.{Entry};
ghost use Rattle.u_rule.specs.declared.firing.Firing.{Firing};
ghost use Rattle.u_sets.specs.Members.{SomeOf};
ghost use Rattle.u_base.specs.Firing.{Enabled};
ghost use Rattle.u_plain.specs.Tries.{EnabledOver, Extends, with_write, longer, FitsItself, IsReplyTo, FitsRead, FitsLonger, FitsFirst};

use crate::among::add_new;
use std::alloc::{AllocError, Global};
use u_check::Job;
use u_rule::{
    Entry, Firing, MOST_PORTS, NameRef, SharedWritten, Token, Values, Write, Written, is_own,
    needed_by, statement_at, told_to,
};
use u_value::Value;

/// Whether the two entries are equal.
#[tactic(auto, using(crate::proofs::Entries::entry_tied_exact))]
fn is_same(left: &Entry, right: &Entry) -> bool
    ensures { IsTrue result ↔ (left.now ≡ right.now) }
{
    left.cmp(right).is_eq()
}

/// Whether the entry is in the list.
fn is_in(list: &[Entry], entry: &Entry) -> bool
    ensures { IsTrue result ↔ Contains list.now entry.now }
{
    for other in list {
        if is_same(other, entry) {
            return true;
        }
    }
    false
}

/// Whether each of these entries is in the list.
pub fn are_in(list: &[Entry], entries: &[Entry]) -> bool
    ensures { IsTrue result ↔ ((e : Entry) → Contains entries.now e → Contains list.now e) }
{
    for entry in entries {
        if !is_in(list, entry) {
            return false;
        }
    }
    true
}

/// Whether it is an own firing of the job that is enabled over the entries: all that it needs is there.
///
/// # Errors
/// `AllocError` where there is no memory.
pub fn is_enabled(
    alloc: Global,
    job: &Job,
    held: &[Entry],
    firing: &Firing,
) -> Result<bool, AllocError>
    ensures { IfOk result
        (λ b. IsTrue b ↔ Enabled (own_of job.now) (Contains held.now) firing.now) }
{
    if !is_own(job, firing) {
        return Ok(false);
    }
    let needed = needed_by(alloc, firing)?;
    Ok(are_in(held, &needed))
}

/// The record of the token's activity with its value.
fn record_of(alloc: Global, token: &Token) -> Result<Firing, AllocError>
    ensures { IfOk result (λ f. f ≡ firing token.now.activity (token.now.value ∷ []) None) }
{
    Ok(Firing {
        activity: token.activity().copy()?,
        values: Values::one(alloc, token.value().copy()?)?,
        write: None,
    })
}

/// The record with one more value behind its own, and without a write.
fn longer(alloc: Global, made: &Firing, value: &Value) -> Result<Firing, AllocError>
    requires { length made.now.values < most_ports }
    ensures { IfOk result (λ f. f ≡ longer made.now value.now) }
{
    let mut values = Vec::new(alloc);
    for known in made.values.as_slice() {
        values.push(known.copy()?)?;
    }
    values.push(value.copy()?)?;
    Ok(Firing {
        activity: made.activity.copy()?,
        values: Values::of(alloc, &values)?,
        write: None,
    })
}

/// The record with that write.
fn with_write(alloc: Global, made: &Firing, write: &Write) -> Result<Firing, AllocError>
    ensures { IfOk result (λ f. f ≡ with_write made.now write.now) }
{
    let by = Written {
        writer: write.writer.copy()?,
        value: write.value.copy()?,
    };
    Ok(Firing {
        activity: made.activity.copy()?,
        values: made.values.copy(alloc)?,
        write: Some(SharedWritten::new(alloc, by)?),
    })
}

/// Adds the record, if it is an enabled firing, unless it is there.
fn add(job: &Job, held: &[Entry], made: Firing, found: &mut Vec<Firing>) -> Result<(), AllocError>
    ensures { OnOk result
        ((f : Firing)
        → Contains found.new.items f
        ↔ (Contains found.old.items f ⊎ ((made ≡ f) × EnabledOver job.now held.now f))) }
{
    let enabled = is_enabled(*found.allocator(), job, held, &made)?;
    if enabled {
        add_new(found, made)?;
    }
    Ok(())
}

/// The reply to the record that the table of the job has, if it has one.
fn told(alloc: Global, job: &Job, made: &Firing) -> Result<Option<Firing>, AllocError>
    ensures { IfOk result (λ o. IsReplyTo job.now made.now o) }
{
    let Some(statement) = statement_at(job, &NameRef::of(&made.activity)) else {
        return Ok(None);
    };
    let reply = told_to(alloc, job, statement, made)?;
    Ok(reply)
}

/// Adds the record, and the reply to it that the table of the job has, as far as they are enabled firings.
fn add_itself(
    job: &Job,
    held: &[Entry],
    made: &Firing,
    found: &mut Vec<Firing>,
) -> Result<(), AllocError>
    ensures { OnOk result
        ((f : Firing)
        → Contains found.new.items f
        ↔ (Contains found.old.items f ⊎ FitsItself job.now held.now made.now f)) }
{
    let alloc = *found.allocator();
    let reply = told(alloc, job, made)?;
    let alone = made.copy(alloc)?;
    add(job, held, alone, found)?;
    if let Some(known) = reply {
        add(job, held, known, found)?;
    }
    Ok(())
}

/// Adds the record with the entry as its write, if it is one and that is an enabled firing.
fn add_read(
    job: &Job,
    held: &[Entry],
    made: &Firing,
    entry: &Entry,
    found: &mut Vec<Firing>,
) -> Result<(), AllocError>
    ensures { OnOk result
        ((f : Firing)
        → Contains found.new.items f
        ↔ (Contains found.old.items f ⊎ FitsRead job.now held.now made.now entry.now f)) }
{
    let Entry::Write(write) = entry else {
        return Ok(());
    };
    let reading = with_write(*found.allocator(), made, write)?;
    add(job, held, reading, found)?;
    Ok(())
}

/// Adds the enabled firings that are the record with a write.
fn add_reads(
    job: &Job,
    held: &[Entry],
    made: &Firing,
    found: &mut Vec<Firing>,
) -> Result<(), AllocError>
    ensures { OnOk result
        ((f : Firing)
        → Contains found.new.items f
        ↔ (Contains found.old.items f ⊎ SomeOf held.now (FitsRead job.now held.now made.now) f)) }
{
    for entry in held {
        add_read(job, held, made, entry, found)?;
    }
    Ok(())
}

/// The token, if the entry is one of the record's activity at the port behind its values.
#[tactic(auto, using(crate::proofs::Names::name_eq_exact))]
fn next_token<'a>(made: &Firing, entry: &'a Entry) -> Option<&'a Token>
    ensures { MatchOption result
        ((t : TokenParts) → entry.now ≡ entries.Token t → t.activity ≡ made.now.activity
        → t.port ≡ length made.now.values + 1 → ⊥)
        (λ t. (entry.now ≡ entries.Token t.now) × (t.now.activity ≡ made.now.activity)
        × (t.now.port ≡ length made.now.values + 1)) }
{
    let Entry::Token(token) = entry else {
        return None;
    };
    let next = made.values.as_slice().len() + 1;
    if usize::from(token.port()) == next && *token.activity() == made.activity {
        return Some(token);
    }
    None
}

/// Adds the enabled firings that the record grows into: itself, the table's reply to it, itself with a write,
/// and those with more values.
fn grow(job: &Job, held: &[Entry], made: &Firing, found: &mut Vec<Firing>) -> Result<(), AllocError>
    requires { made.now.write ≡ None }
    ensures { OnOk result
        ((f : Firing)
        → Contains found.new.items f
        ↔ (Contains found.old.items f ⊎ (Extends made.now f × EnabledOver job.now held.now f))) }
{
    add_itself(job, held, made, found)?;
    add_reads(job, held, made, found)?;
    if made.values.as_slice().len() == MOST_PORTS {
        return Ok(());
    }
    for entry in held {
        if let Some(token) = next_token(made, entry) {
            let more = longer(*found.allocator(), made, token.value())?;
            grow(job, held, &more, found)?;
        }
    }
    Ok(())
}

/// Adds the enabled firings that have this entry first.
fn add_firings(
    job: &Job,
    held: &[Entry],
    entry: &Entry,
    found: &mut Vec<Firing>,
) -> Result<(), AllocError>
    ensures { OnOk result
        ((f : Firing)
        → Contains found.new.items f
        ↔ (Contains found.old.items f ⊎ FitsFirst job.now held.now entry.now f)) }
{
    let Entry::Token(token) = entry else {
        return Ok(());
    };
    if token.port() != 1 {
        return Ok(());
    }
    let made = record_of(*found.allocator(), token)?;
    grow(job, held, &made, found)?;
    Ok(())
}

/// All firings of the job that are enabled over the entries, which may stand in any order. None comes
/// twice.
///
/// # Errors
/// `AllocError` where there is no memory.
pub fn enabled(alloc: Global, job: &Job, held: &[Entry]) -> Result<Vec<Firing>, AllocError>
    ensures { IfOk result
        (λ v. (f : Firing)
        → Contains v.items f ↔ Enabled (own_of job.now) (Contains held.now) f) }
{
    let mut found = Vec::new(alloc);
    for left in held {
        add_firings(job, held, left, &mut found)?;
    }
    Ok(found)
}
