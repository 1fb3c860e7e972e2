//! How ready firings are fired by a mask: a number of 64 bits, one for each bucket of work.
//!
//! The ready firings are kept in one set whatever their buckets, and gone over where a mask is given:
//! this project's choice, since most are fired without one.
//!
//! How many there are in the mask is counted only if the pick goes beyond them.
ghost use Rattle.std.specs.Prelude.{◌≡◌, ◌↔◌, ◌+◌, ◌%◌, [], OnOk, IfOk, IfErr, IfSome, IfNone, IsTrue, IsFalse, ◌<◌, Contains, length, slice_get, Some};
ghost use Rattle.u_rule.specs.declared.entry.Entry.{Entry};
ghost use Rattle.u_rule.specs.declared.firing.Firing.{Firing};
ghost use Rattle.u_machine.specs.State.{IsPickIn, IsReadyIn};
ghost use Rattle.u_machine.specs.Masks.{has_bucket, those_in, IsTokenIn};
ghost use Rattle.u_machine.specs.Calls.{FireInAnswer};
ghost use Rattle.u_machine.specs.Invariant.{state_of, Invariant, MakesMore};

use crate::answer::{Refusal, StepIn};
use crate::parts::Parts;
use crate::priority_queue::PriorityQueue;
use std::alloc::AllocError;
use u_claims::bucket_of;
use u_name::Name;
use u_rule::{Entry, Firing};
use u_sets::OrderedSet;

/// Whether the activity's bucket is in the mask.
fn is_within(buckets: u64, activity: &Name) -> bool
    ensures { result ≡ has_bucket buckets activity.now }
{
    (buckets >> bucket_of(activity)) % 2 == 1
}

/// The firing that has so many of those in the mask before it; else how many are missing. It goes over
/// the firings up to that one.
fn nth_in(ready: &PriorityQueue<Firing>, buckets: u64, before: usize) -> Result<&Firing, usize>
    ensures ok { IfOk result (λ f. slice_get (those_in buckets ready.now) before ≡ Some f.now) }
    ensures err { IfErr result (λ left. length (those_in buckets ready.now) + left ≡ before) }
{
    let mut left = before;
    for firing in ready.iter() {
        if is_within(buckets, &firing.activity) {
            if left == 0 {
                return Ok(firing);
            }
            left -= 1;
        }
    }
    Err(left)
}

/// The firing at that place of those in the mask, which has a place.
fn at_in(ready: &PriorityQueue<Firing>, buckets: u64, place: usize) -> &Firing
    requires { place < length (those_in buckets ready.now) }
    ensures { slice_get (those_in buckets ready.now) place ≡ Some result.now }
{
    match nth_in(ready, buckets, place) {
        Ok(firing) => firing,
        Err(_) => unreachable!(),
    }
}

/// The firing at place `pick` of those in the mask, modulo their number, where there is any. They are
/// counted only where `pick` is not below their number.
fn picked_in(ready: &PriorityQueue<Firing>, buckets: u64, pick: usize) -> Option<&Firing>
    ensures some { IfSome result (λ f. slice_get (those_in buckets ready.now)
        (pick % length (those_in buckets ready.now)) ≡ Some f.now) }
    ensures none { IfNone result (those_in buckets ready.now ≡ []) }
{
    let left = match nth_in(ready, buckets, pick) {
        Ok(firing) => return Some(firing),
        Err(left) => left,
    };
    let count = pick - left;
    if count == 0 {
        return None;
    }
    Some(at_in(ready, buckets, left % count))
}

/// Whether it is a token whose activity has its bucket in the mask.
fn is_token_within(buckets: u64, entry: &Entry) -> bool
    ensures { IsTrue result ↔ IsTokenIn buckets entry.now }
{
    match entry {
        Entry::Token(token) => is_within(buckets, token.activity()),
        Entry::Write(_write) => false,
        Entry::Fault(_fault) => false,
        Entry::Answer(_value) => false,
    }
}

/// Whether a late token's activity has its bucket in the mask, and so has each firing that it wakes.
fn has_late_in(late: &OrderedSet<Entry>, buckets: u64) -> bool
    ensures some { IsTrue result → (e : Entry) × Contains late.now e × IsTokenIn buckets e }
    ensures none { IsFalse result
        → (e : Entry) → Contains late.now e → IsTokenIn buckets e → ⊥ }
{
    for entry in late.iter() {
        if is_token_within(buckets, entry) {
            return true;
        }
    }
    false
}

impl<'a> Parts<'a> {
    /// Whether a ready firing, made or not, has its bucket in the mask. All that was begun is applied.
    fn has_any_in(&self, buckets: u64) -> bool
        requires kept { Invariant self.now }
        requires settled { self.now.applied_count ≡ length self.now.log.items }
        ensures some { IsTrue result → (f : Firing) × IsReadyIn (state_of self.now) buckets f }
        ensures none { IsFalse result
            → (f : Firing) → IsReadyIn (state_of self.now) buckets f → ⊥ }
    {
        match nth_in(&self.ready, buckets, 0) {
            Ok(_firing) => true,
            Err(_missing) => has_late_in(&self.late, buckets),
        }
    }

    /// A copy of the picked one of all ready firings in the mask, of which there is one. The firings of
    /// all late tokens are made before. All that was begun is applied.
    fn picked(&mut self, buckets: u64, pick: usize) -> Result<Firing, AllocError>
        requires kept { Invariant self.old }
        requires settled { self.old.applied_count ≡ length self.old.log.items }
        requires ready { (f : Firing) × IsReadyIn (state_of self.old) buckets f }
        ensures kept { Invariant self.new }
        ensures makes { MakesMore self.old self.new }
        ensures made { OnOk result (self.new.late ≡ []) }
        ensures picked { IfOk result
            (λ f. IsPickIn (state_of self.old) buckets pick f × Contains self.new.ready f) }
    {
        self.make_all()?;
        // Brings in that the ready firings rise.
        let _none = self.ready.is_empty();
        let Some(firing) = picked_in(&self.ready, buckets, pick) else {
            unreachable!();
        };
        let copy = firing.copy(self.alloc)?;
        Ok(copy)
    }

    /// Applies one ready firing whose bucket is in the mask, and what becomes enabled by it and was
    /// taken.
    pub(crate) fn fire_in(&mut self, buckets: u64, pick: usize) -> Result<StepIn, Refusal>
        requires { Invariant self.old }
        ensures kept { Invariant self.new }
        ensures answer { FireInAnswer (state_of self.old) buckets pick result (state_of self.new) }
    {
        self.settle()?;
        if self.is_quiet() {
            return Ok(StepIn::Quiet);
        }
        if !self.has_any_in(buckets) {
            return Ok(StepIn::Elsewhere);
        }
        if self.is_full() {
            return Err(Refusal::Full);
        }
        let firing = self.picked(buckets, pick)?;
        let place = self.log.len();
        self.begin(firing)?;
        self.settle()?;
        Ok(StepIn::Fired(place))
    }
}
