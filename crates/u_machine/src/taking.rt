//! How firings are taken, one or a list: the first of three things that a machine does with its
//! parts, each of which has a file of its own. A firing that is taken and is enabled begins to be
//! applied, which `applying` goes on with.
//!
//! No table of the taken firings is kept. A woken firing needs the entry that has just entered, so it was
//! taken exactly if it is parked. Any other was taken if it is enabled and neither ready nor still to be
//! sorted out, or if it is parked.
//!
//! A list is taken as a whole, or refused as a whole. Its new firings are counted only if the whole list
//! would be too long: in a set, or, without memory for one, by comparing each with those before it.
ghost use Rattle.std.specs.Prelude.{◌≡◌, ◌↔◌, ◌<◌, ◌≤◌, ◌+◌, ◌++◌, [], ◌∷◌, OnOk, OnErr, IfOk, IfErr, Ok, IfSome, IfNone, IsTrue, IsFalse, Contains, length, slice_get, Some};
ghost use Rattle.u_rule.specs.Rule.{own_of};
ghost use Rattle.u_machine.specs.State.{Taken, count_of};
ghost use Rattle.u_machine.specs.Calls.{Takes, TakeAnswer};
ghost use Rattle.u_machine.specs.Taking.{AreFirings, IsFirstOther, AreNew, HasSoManyNew, GainsNew, Fits, IsTooLong, TakeAllAnswer};
ghost use Rattle.u_machine.specs.Invariant.{state_of, woken_of, Invariant, Begins, NeedsNoLate, parked_of};
ghost use Rattle.u_rule.specs.declared.firing.Firing.{Firing};
ghost use Rattle.u_machine.specs.declared.answer.Took.TheVariants as answers;

use crate::answer::{ListRefusal, TakeRefusal, Took};
use crate::parts::Parts;
use std::alloc::AllocError;
use u_check::Job;
use u_rule::{Firing, is_own};
use u_sets::{PlacedSet, push_into_room};

/// The place of the first that is no firing of the job.
fn first_other(job: &Job, firings: &[Firing]) -> Option<usize>
    ensures some { IfSome result (λ k. IsFirstOther job.now firings.now k) }
    ensures none { IfNone result (AreFirings job.now firings.now) }
{
    for (place, firing) in firings.iter().enumerate() {
        if !is_own(job, firing) {
            return Some(place);
        }
    }
    None
}

/// Whether the two are one firing.
#[tactic(auto, using(crate::proofs::Once::same_firing))]
pub(crate) fn is_same(left: &Firing, right: &Firing) -> bool
    ensures { IsTrue result ↔ (left.now ≡ right.now) }
{
    left.cmp(right).is_eq()
}

/// Whether the firing is in the list.
fn is_among(firings: &[Firing], firing: &Firing) -> bool
    ensures { IsTrue result ↔ Contains firings.now firing.now }
{
    for other in firings {
        if is_same(other, firing) {
            return true;
        }
    }
    false
}

impl<'a> Parts<'a> {
    /// Whether the firing was woken and is still to be sorted out.
    fn is_woken(&self, firing: &Firing) -> bool
        ensures { IsTrue result ↔ Contains (woken_of self.now) firing.now }
    {
        is_among(&self.woken, firing)
    }

    /// Whether the firing is in the log. It is compared with each of those there.
    fn is_logged(&self, firing: &Firing) -> bool
        ensures { IsTrue result ↔ Contains self.now.log.items firing.now }
    {
        is_among(&self.log, firing)
    }

    /// Whether the firing was applied or is being applied. Each firing that has all that it needs is in
    /// the log, or ready, or still to be sorted out, or needs a late token, and the log has no others.
    fn has_begun(&self, firing: &Firing) -> bool
        requires { Invariant self.now }
        ensures { IsTrue result ↔ Contains self.now.log.items firing.now }
    {
        let Ok(held) = self.matcher.has_all_of(self.job, firing) else {
            return self.is_logged(firing);
        };
        if !held {
            return false;
        }
        let is_ready = self.ready.contains(firing);
        if is_ready {
            return false;
        }
        if self.is_woken(firing) {
            return false;
        }
        let Ok(late) = self.needs_late(firing) else {
            return self.is_logged(firing);
        };
        if late {
            return false;
        }
        true
    }

    /// Whether the firing was taken.
    pub(crate) fn knows(&self, firing: &Firing) -> bool
        requires { Invariant self.now }
        ensures { IsTrue result ↔ Taken (state_of self.now) firing.now }
    {
        self.has_begun(firing) || self.parked.contains(firing)
    }

    /// Whether no further firing may be taken. All that was begun is applied.
    pub(crate) fn is_full(&self) -> bool
        requires kept { Invariant self.now }
        requires settled { self.now.applied_count ≡ length self.now.log.items }
        ensures full { IsTrue result → count_of (state_of self.now) ≡ self.now.limit }
        ensures room { IsFalse result → count_of (state_of self.now) < self.now.limit }
    {
        self.limit <= self.log.len() + self.parked.len()
    }

    /// A ready firing begins to be applied. All that was begun before is applied.
    pub(crate) fn begin(&mut self, firing: Firing) -> Result<(), AllocError>
        requires kept { Invariant self.old }
        requires settled { self.old.applied_count ≡ length self.old.log.items }
        requires ready { Contains self.old.ready firing }
        requires made { NeedsNoLate self.old firing }
        requires room { count_of (state_of self.old) < self.old.limit }
        ensures kept { Invariant self.new }
        ensures takes { OnOk result (Takes (state_of self.old) firing (state_of self.new)) }
        ensures err { OnErr result (state_of self.new ≡ state_of self.old) }
        ensures log { OnOk result (self.new.log.items ≡ self.old.log.items ++ firing ∷ []) }
    {
        let waiting = firing.copy(self.alloc)?;
        self.log.reserve(1)?;
        self.ready.end_run()?;
        self.parked.insert(waiting)?;
        self.ready.remove(&firing);
        push_into_room(&mut self.log, firing);
        Ok(())
    }

    /// The least ready firing begins to be applied, where nothing is parked: it is in flight.
    fn launch_least(&mut self) -> Result<(), AllocError>
        requires kept { Invariant self.old }
        requires settled { self.old.applied_count ≡ length self.old.log.items }
        requires unparked { self.old.parked ≡ [] }
        requires ready { 0 < length self.old.ready }
        requires made { (f : Firing) → slice_get self.old.ready 0 ≡ Some f
            → NeedsNoLate self.old f }
        requires room { count_of (state_of self.old) < self.old.limit }
        ensures kept { Invariant self.new }
        ensures ok { OnOk result (Begins self.old 0 self.new) }
        ensures err { OnErr result (state_of self.new ≡ state_of self.old) }
    {
        self.log.reserve(1)?;
        // Brings in that the ready firings rise.
        let _none = self.ready.is_empty();
        let Some(firing) = self.ready.pop_first() else {
            unreachable!();
        };
        push_into_room(&mut self.log, firing);
        self.in_flight = true;
        Ok(())
    }

    /// The least ready firing begins to be applied, as in `begin`. It is found without comparing.
    pub(crate) fn begin_least(&mut self) -> Result<(), AllocError>
        requires kept { Invariant self.old }
        requires settled { self.old.applied_count ≡ length self.old.log.items }
        requires ready { 0 < length self.old.ready }
        requires made { (f : Firing) → slice_get self.old.ready 0 ≡ Some f
            → NeedsNoLate self.old f }
        requires room { count_of (state_of self.old) < self.old.limit }
        ensures kept { Invariant self.new }
        ensures ok { OnOk result (Begins self.old 0 self.new) }
        ensures err { OnErr result (state_of self.new ≡ state_of self.old) }
    {
        if self.parked.is_empty() {
            return self.launch_least();
        }
        let Some(least) = self.ready.first() else {
            unreachable!();
        };
        let copy_of_least = least.copy(self.alloc)?;
        self.log.reserve(1)?;
        self.parked.insert(copy_of_least)?;
        let Some(firing) = self.ready.pop_first() else {
            unreachable!();
        };
        push_into_room(&mut self.log, firing);
        Ok(())
    }

    /// Whether the firing is the least ready one.
    fn is_least(&self, firing: &Firing) -> bool
        ensures { IsTrue result ↔ (slice_get self.now.ready 0 ≡ Some firing.now) }
    {
        match self.ready.first() {
            Some(least) => is_same(least, firing),
            None => false,
        }
    }

    /// A ready firing begins to be applied, as in `begin`. The least one is not looked for.
    fn begin_ready(&mut self, firing: &Firing, is_least: bool) -> Result<(), AllocError>
        requires kept { Invariant self.old }
        requires settled { self.old.applied_count ≡ length self.old.log.items }
        requires ready { Contains self.old.ready firing.now }
        requires made { NeedsNoLate self.old firing.now }
        requires least { IsTrue is_least → slice_get self.old.ready 0 ≡ Some firing.now }
        requires room { count_of (state_of self.old) < self.old.limit }
        ensures kept { Invariant self.new }
        ensures takes { OnOk result (Takes (state_of self.old) firing.now (state_of self.new)) }
        ensures err { OnErr result (state_of self.new ≡ state_of self.old) }
        ensures log { OnOk result (self.new.log.items ≡ self.old.log.items ++ firing.now ∷ []) }
    {
        if is_least {
            self.begin_least()?;
            return Ok(());
        }
        let copy = firing.copy(self.alloc)?;
        self.begin(copy)?;
        Ok(())
    }

    /// Takes a ready firing that needs no late token, and applies it, and what becomes enabled by it and
    /// was taken. All that was begun before is applied.
    fn take_made(&mut self, firing: &Firing, is_least: bool) -> Result<Took, TakeRefusal>
        requires kept { Invariant self.old }
        requires settled { self.old.applied_count ≡ length self.old.log.items }
        requires ready { Contains self.old.ready firing.now }
        requires made { NeedsNoLate self.old firing.now }
        requires least { IsTrue is_least → slice_get self.old.ready 0 ≡ Some firing.now }
        requires room { count_of (state_of self.old) < self.old.limit }
        ensures kept { Invariant self.new }
        ensures answer { TakeAnswer (state_of self.old) firing.now result (state_of self.new) }
    {
        self.begin_ready(firing, is_least)?;
        self.settle()?;
        Ok(Took::Taken)
    }

    /// Takes a ready firing and applies it, and what becomes enabled by it and was taken. All that was
    /// begun before is applied.
    fn take_ready(&mut self, firing: &Firing, is_least: bool) -> Result<Took, TakeRefusal>
        requires kept { Invariant self.old }
        requires settled { self.old.applied_count ≡ length self.old.log.items }
        requires ready { Contains self.old.ready firing.now }
        requires least { IsTrue is_least → slice_get self.old.ready 0 ≡ Some firing.now }
        ensures kept { Invariant self.new }
        ensures answer { TakeAnswer (state_of self.old) firing.now result (state_of self.new) }
    {
        if self.is_full() {
            return Err(TakeRefusal::Full);
        }
        if self.late.len() == 0 {
            return self.take_made(firing, is_least);
        }
        self.make_for(firing)?;
        self.take_made(firing, false)
    }

    /// Parks a firing of the job that is neither applied nor ready and needs no late token, unless it is
    /// parked already. All that was begun before is applied.
    fn park(&mut self, firing: &Firing) -> Result<Took, AllocError>
        requires kept { Invariant self.old }
        requires settled { self.old.applied_count ≡ length self.old.log.items }
        requires unapplied { Contains self.old.log.items firing.now → ⊥ }
        requires unready { Contains self.old.ready firing.now → ⊥ }
        requires made { NeedsNoLate self.old firing.now }
        requires firing { IsTrue ((own_of self.old.job.now).is_firing firing.now) }
        requires room { count_of (state_of self.old) < self.old.limit }
        ensures kept { Invariant self.new }
        ensures answer { IfOk result
            (λ t. TakeAnswer (state_of self.old) firing.now (Ok t) (state_of self.new)) }
        ensures err { OnErr result (self.new ≡ self.old) }
    {
        let copy = firing.copy(self.alloc)?;
        let is_new = self.parked.insert(copy)?;
        if is_new {
            return Ok(Took::Parked);
        }
        Ok(Took::Known)
    }

    /// The refusal, unless the firing is parked and so was taken.
    fn unless_parked(&self, firing: &Firing, refusal: TakeRefusal) -> Result<Took, TakeRefusal>
        requires kept { Invariant self.now }
        requires settled { self.now.applied_count ≡ length self.now.log.items }
        ensures known { IfOk result
            (λ t. (t ≡ answers.Known) × Contains (parked_of self.now) firing.now) }
        ensures refused { IfErr result
            (λ e. (e ≡ refusal) × (Contains (parked_of self.now) firing.now → ⊥)) }
    {
        if self.parked.contains(firing) {
            Ok(Took::Known)
        } else {
            Err(refusal)
        }
    }

    /// Parks a firing of the job, as `park` does; it is looked for among the parked ones only where it
    /// can't be put there.
    fn park_or_known(&mut self, firing: &Firing) -> Result<Took, TakeRefusal>
        requires kept { Invariant self.old }
        requires settled { self.old.applied_count ≡ length self.old.log.items }
        requires unapplied { Contains self.old.log.items firing.now → ⊥ }
        requires unready { Contains self.old.ready firing.now → ⊥ }
        requires made { NeedsNoLate self.old firing.now }
        requires firing { IsTrue ((own_of self.old.job.now).is_firing firing.now) }
        requires room { count_of (state_of self.old) < self.old.limit }
        ensures kept { Invariant self.new }
        ensures answer { TakeAnswer (state_of self.old) firing.now result (state_of self.new) }
    {
        match self.park(firing) {
            Ok(took) => Ok(took),
            Err(AllocError) => self.unless_parked(firing, TakeRefusal::NoMemory),
        }
    }

    /// Takes a firing of the job that is not applied, while tokens are late: the firings of those that
    /// it needs are made, and it is among them or is parked. All that was begun before is applied.
    fn take_late(&mut self, firing: &Firing) -> Result<Took, TakeRefusal>
        requires kept { Invariant self.old }
        requires settled { self.old.applied_count ≡ length self.old.log.items }
        requires unapplied { Contains self.old.log.items firing.now → ⊥ }
        requires firing { IsTrue ((own_of self.old.job.now).is_firing firing.now) }
        requires room { count_of (state_of self.old) < self.old.limit }
        ensures kept { Invariant self.new }
        ensures answer { TakeAnswer (state_of self.old) firing.now result (state_of self.new) }
    {
        let Ok(()) = self.make_for(firing) else {
            return self.unless_parked(firing, TakeRefusal::NoMemory);
        };
        let was_late = self.ready.contains(firing);
        if was_late {
            return self.take_made(firing, false);
        }
        self.park_or_known(firing)
    }

    /// Takes a firing of the job that is neither applied nor ready as far as firings were made, unless it
    /// is parked already. All that was begun before is applied.
    fn take_early(&mut self, firing: &Firing) -> Result<Took, TakeRefusal>
        requires kept { Invariant self.old }
        requires settled { self.old.applied_count ≡ length self.old.log.items }
        requires unapplied { Contains self.old.log.items firing.now → ⊥ }
        requires unready { Contains self.old.ready firing.now → ⊥ }
        requires firing { IsTrue ((own_of self.old.job.now).is_firing firing.now) }
        ensures kept { Invariant self.new }
        ensures answer { TakeAnswer (state_of self.old) firing.now result (state_of self.new) }
    {
        if self.is_full() {
            return self.unless_parked(firing, TakeRefusal::Full);
        }
        if self.late.len() == 0 {
            return self.park_or_known(firing);
        }
        self.take_late(firing)
    }

    /// Takes the firing, unless it was taken. All that was begun before is applied. The least ready one
    /// is looked at first.
    fn take_settled(&mut self, firing: &Firing) -> Result<Took, TakeRefusal>
        requires kept { Invariant self.old }
        requires settled { self.old.applied_count ≡ length self.old.log.items }
        ensures kept { Invariant self.new }
        ensures answer { TakeAnswer (state_of self.old) firing.now result (state_of self.new) }
    {
        if self.is_least(firing) {
            return self.take_ready(firing, true);
        }
        if self.ready.contains(firing) {
            return self.take_ready(firing, false);
        }
        if self.has_begun(firing) {
            return Ok(Took::Known);
        }
        if !is_own(self.job, firing) {
            return Err(TakeRefusal::NotAFiring);
        }
        self.take_early(firing)
    }

    /// Takes the firing, unless it was taken.
    pub(crate) fn take(&mut self, firing: &Firing) -> Result<Took, TakeRefusal>
        requires { Invariant self.old }
        ensures kept { Invariant self.new }
        ensures answer { TakeAnswer (state_of self.old) firing.now result (state_of self.new) }
    {
        self.settle()?;
        self.take_settled(firing)
    }

    /// Puts a copy of the firing into the set, unless the firing was taken.
    fn add_new(&self, news: &mut PlacedSet<Firing>, firing: &Firing) -> Result<(), AllocError>
        requires { Invariant self.now }
        ensures { OnOk result (GainsNew (state_of self.now) firing.now news.old news.new) }
    {
        if self.knows(firing) {
            return Ok(());
        }
        news.insert(firing.copy(self.alloc)?)?;
        Ok(())
    }

    /// Those of the list that were not taken.
    fn new_of(&self, firings: &[Firing]) -> Result<PlacedSet<Firing>, AllocError>
        requires { Invariant self.now }
        ensures { IfOk result (λ s. AreNew (state_of self.now) firings.now s) }
    {
        let mut news = PlacedSet::new(self.alloc);
        for firing in firings {
            self.add_new(&mut news, firing)?;
        }
        // Brings in that the set has no firing twice.
        let _count = news.len();
        Ok(news)
    }

    /// Whether so many more firings may be taken. All that was begun is applied.
    fn has_room(&self, more: usize) -> bool
        requires kept { Invariant self.now }
        requires settled { self.now.applied_count ≡ length self.now.log.items }
        ensures room { IsTrue result → count_of (state_of self.now) + more ≤ self.now.limit }
        ensures full { IsFalse result → self.now.limit < count_of (state_of self.now) + more }
    {
        more <= self.limit - self.log.len() - self.parked.len()
    }

    /// Whether the firing was not taken and is not among those before it.
    fn is_new(&self, before: &[Firing], firing: &Firing) -> bool
        requires { Invariant self.now }
        ensures { IsTrue result ↔ ((Taken (state_of self.now) firing.now → ⊥)
            × (Contains before.now firing.now → ⊥)) }
    {
        if self.knows(firing) {
            return false;
        }
        if is_among(before, firing) {
            return false;
        }
        true
    }

    /// How many of the list were not taken, each counted once. It takes no memory, and compares each
    /// firing with those before it.
    fn compare_all_new(&self, firings: &[Firing]) -> usize
        requires { Invariant self.now }
        ensures { HasSoManyNew (state_of self.now) firings.now result }
    {
        let mut count = 0;
        let mut place = 0;
        while place < firings.len() {
            if self.is_new(&firings[..place], &firings[place]) {
                count += 1;
            }
            place += 1;
        }
        count
    }

    /// How many of the list were not taken, each counted once. Where there is memory for a set of them,
    /// each is looked up in it.
    fn new_count(&self, firings: &[Firing]) -> usize
        requires { Invariant self.now }
        ensures { HasSoManyNew (state_of self.now) firings.now result }
    {
        match self.new_of(firings) {
            Ok(news) => news.len(),
            Err(AllocError) => self.compare_all_new(firings),
        }
    }

    /// Whether those of the list may be taken that were not. They are counted only where the whole list
    /// would be too long. All that was begun is applied.
    fn may_take(&self, firings: &[Firing]) -> bool
        requires kept { Invariant self.now }
        requires settled { self.now.applied_count ≡ length self.now.log.items }
        ensures fits { IsTrue result → Fits (state_of self.now) firings.now }
        ensures long { IsFalse result → IsTooLong (state_of self.now) firings.now }
    {
        if self.has_room(firings.len()) {
            return true;
        }
        let count = self.new_count(firings);
        self.has_room(count)
    }

    /// Takes the firings of the list in their order.
    pub(crate) fn take_all(&mut self, firings: &[Firing]) -> Result<(), ListRefusal>
        requires { Invariant self.old }
        ensures kept { Invariant self.new }
        ensures answer { TakeAllAnswer (state_of self.old) firings.now result (state_of self.new) }
    {
        self.settle()?;
        if let Some(place) = first_other(self.job, firings) {
            return Err(ListRefusal::NotAFiring(place));
        }
        if !self.may_take(firings) {
            return Err(ListRefusal::Full);
        }
        for firing in firings {
            match self.take(firing) {
                Ok(_) => {}
                Err(TakeRefusal::NoMemory) => return Err(ListRefusal::NoMemory),
                Err(TakeRefusal::NotAFiring) => unreachable!(),
                Err(TakeRefusal::Full) => unreachable!(),
            }
        }
        Ok(())
    }
}
