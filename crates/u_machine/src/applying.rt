//! How firings are applied: the second of three things that a machine does with its parts, each of
//! which has a file of its own.
//!
//! A firing that begins to be applied goes to the end of the log, and its entries enter one after
//! another. Until they have it is parked: the set of the parked firings has a copy of it, unless nothing
//! else is parked; then it is in flight.
//! Each entry that is new enters the matcher. Of the firings that it wakes, those that were taken go to
//! the end of the log, and the others are ready from then on; a token that wakes many is put off, and
//! its firings are made later (`late_tokens`). So entries enter in the order in which they were given:
//! this project's profile. The firings of the log whose entries have all entered leave the parked ones
//! together, once the log has no more or memory runs out. Then what is left to do is remembered, and
//! the next call goes on from there.
//!
//! A firing stands in the log before its entries enter. Else half of its entries could enable a firing,
//! which would then stand before it.
ghost use Rattle.std.specs.Prelude.{◌≡◌, ◌↔◌, ◌<◌, ◌≤◌, ◌+◌, [], ◌∷◌, OnOk, IfOk, IsOk, IsTrue, IsFalse, Contains, ◌-◌, length, true, false};
ghost use Rattle.u_rule.specs.Rule.{own_of};
ghost use Rattle.u_rule.specs.Fits.{IsFitting, AllFit};
ghost use Rattle.u_rule.specs.HeldEntries.{entries_given};
ghost use Rattle.u_rule.specs.declared.entry.Entry.{Entry};
ghost use Rattle.u_rule.specs.declared.entry.Entry.TheVariants as entries;
ghost use Rattle.u_rule.specs.declared.firing.Firing.{Firing};
ghost use Rattle.u_sets.specs.Members.{HasOr};
ghost use Rattle.u_match.specs.Waking.{WakesSome};
ghost use Rattle.u_machine.specs.Calls.{Applies};
ghost use Rattle.u_machine.specs.Invariant.{state_of, woken_of, IsNext, Invariant, Gives, HasEntered, EnteredBefore, GoesOn, SameButApplied, Lengthens, parked_of};

use crate::parts::Parts;
use crate::turning::{first_of, take_first, turn_round};
use std::alloc::AllocError;
use u_check::Job;
use u_match::Entered;
use u_rule::{Entry, Firing, Given, Sending, TokenRef, given};
use u_sets::push_into_room;

impl<'a> Parts<'a> {
    /// Whether a firing is parked that is not being applied, since it waits for its needs.
    fn has_waiting(&self) -> bool
        requires { Invariant self.now }
        ensures { IsFalse result → length (parked_of self.now)
            ≤ length self.now.log.items - self.now.applied_count }
    {
        if self.in_flight {
            return false;
        }
        if self.log.len() - self.applied_count < self.parked.len() {
            return true;
        }
        false
    }

    /// Lets an entry enter, unless it did, with all firings made that late tokens wake. What it wakes is
    /// to be sorted out then.
    fn put_made(&mut self, entry: &Entry) -> Result<(), AllocError>
        requires kept { Invariant self.old }
        requires idle { woken_of self.old ≡ [] }
        requires gives { Gives self.old entry.now }
        ensures kept { Invariant self.new }
        ensures applies { Applies (state_of self.old) (state_of self.new) }
        ensures goes { GoesOn self.old self.new }
        ensures has { OnOk result (Contains self.new.matcher entry.now) }
    {
        self.make_all()?;
        if self.matcher.contains(entry) {
            return Ok(());
        }
        let mut found = self.matcher.enter(self.job, entry)?;
        turn_round(&mut found);
        self.woken = found;
        Ok(())
    }

    /// Lets an entry enter that the firing gives which is being applied, unless it did. What it wakes is
    /// to be sorted out then, or the entry is a late token.
    fn put(&mut self, entry: &Entry) -> Result<(), AllocError>
        requires kept { Invariant self.old }
        requires idle { woken_of self.old ≡ [] }
        requires gives { Gives self.old entry.now }
        requires fits { IsFitting self.old.job.now.program.blocks entry.now }
        ensures kept { Invariant self.new }
        ensures applies { Applies (state_of self.old) (state_of self.new) }
        ensures goes { GoesOn self.old self.new }
        ensures has { OnOk result (Contains self.new.matcher entry.now) }
    {
        if self.has_waiting() {
            return self.put_made(entry);
        }
        match self.matcher.enter_few(self.job, entry, &mut self.woken)? {
            Entered::Known => Ok(()),
            Entered::Woken => {
                turn_round(&mut self.woken);
                Ok(())
            }
            Entered::Many => self.put_late(entry),
        }
    }

    /// Lets a token enter as `put_made` does. It is made for this.
    #[inline(never)]
    fn put_token_made(&mut self, token: &TokenRef<'_>) -> Result<(), AllocError>
        requires kept { Invariant self.old }
        requires idle { woken_of self.old ≡ [] }
        requires gives { Gives self.old (entries.Token token.now) }
        ensures kept { Invariant self.new }
        ensures applies { Applies (state_of self.old) (state_of self.new) }
        ensures goes { GoesOn self.old self.new }
        ensures has { OnOk result (Contains self.new.matcher (entries.Token token.now)) }
    {
        let made = token.token()?;
        self.put_made(&Entry::Token(made))
    }

    /// Lets a token enter as `put_late` does. It is made for this.
    #[inline(never)]
    fn put_token_late(&mut self, token: &TokenRef<'_>) -> Result<(), AllocError>
        requires kept { Invariant self.old }
        requires idle { woken_of self.old ≡ [] }
        requires gives { Gives self.old (entries.Token token.now) }
        requires new { Contains self.old.matcher (entries.Token token.now) → ⊥ }
        requires wakes { WakesSome self.old.job.now (entries.Token token.now)
            (HasOr self.old.matcher (entries.Token token.now)) }
        requires unparked { length (parked_of self.old)
            ≤ length self.old.log.items - self.old.applied_count }
        ensures kept { Invariant self.new }
        ensures applies { Applies (state_of self.old) (state_of self.new) }
        ensures goes { GoesOn self.old self.new }
        ensures has { OnOk result (Contains self.new.matcher (entries.Token token.now)) }
    {
        let made = token.token()?;
        self.put_late(&Entry::Token(made))
    }

    /// Lets a token enter that the firing gives which is being applied, as `put` does.
    fn put_token(&mut self, token: &TokenRef<'_>) -> Result<(), AllocError>
        requires kept { Invariant self.old }
        requires idle { woken_of self.old ≡ [] }
        requires gives { Gives self.old (entries.Token token.now) }
        requires fits { IsFitting self.old.job.now.program.blocks (entries.Token token.now) }
        ensures kept { Invariant self.new }
        ensures applies { Applies (state_of self.old) (state_of self.new) }
        ensures goes { GoesOn self.old self.new }
        ensures has { OnOk result (Contains self.new.matcher (entries.Token token.now)) }
    {
        if self.has_waiting() {
            return self.put_token_made(token);
        }
        match self.matcher.enter_token(self.job, token, &mut self.woken)? {
            Entered::Known => Ok(()),
            Entered::Woken => {
                turn_round(&mut self.woken);
                Ok(())
            }
            Entered::Many => self.put_token_late(token),
        }
    }

    /// The next firing that was woken was taken: it begins to be applied.
    #[inline(never)]
    fn begin_next(&mut self) -> Result<(), AllocError>
        requires kept { Invariant self.old }
        requires logged { self.old.in_flight ≡ false }
        requires some { 0 < length (woken_of self.old) }
        requires taken { (f : Firing) → IsNext self.old f → Contains (parked_of self.old) f }
        ensures kept { Invariant self.new }
        ensures same { state_of self.new ≡ state_of self.old }
        ensures goes { GoesOn self.old self.new }
        ensures ok { OnOk result (length (woken_of self.new) < length (woken_of self.old)) }
    {
        self.log.reserve(1)?;
        let Some(firing) = take_first(&mut self.woken) else {
            unreachable!();
        };
        push_into_room(&mut self.log, firing);
        Ok(())
    }

    /// The next firing that was woken was not taken: it is ready.
    fn ready_next(&mut self) -> Result<(), AllocError>
        requires kept { Invariant self.old }
        requires some { 0 < length (woken_of self.old) }
        requires new { (f : Firing) → IsNext self.old f → Contains (parked_of self.old) f → ⊥ }
        ensures kept { Invariant self.new }
        ensures same { state_of self.new ≡ state_of self.old }
        ensures goes { GoesOn self.old self.new }
        ensures ok { OnOk result (length (woken_of self.new) < length (woken_of self.old)) }
    {
        self.ready.insert_last_of(&mut self.woken)?;
        Ok(())
    }

    /// Whether a firing that was woken is parked. None is where no more are parked than are being
    /// applied.
    fn is_parked(&self, firing: &Firing) -> bool
        requires kept { Invariant self.now }
        requires woken { Contains (woken_of self.now) firing.now }
        ensures parked { IsTrue result ↔ Contains (parked_of self.now) firing.now }
        ensures logged { IsTrue result → self.now.in_flight ≡ false }
    {
        if self.in_flight {
            return false;
        }
        if self.parked.len() <= self.log.len() - self.applied_count {
            return false;
        }
        self.parked.contains(firing)
    }

    /// Sorts out the next firing that was woken: where it was taken it begins to be applied, else it is
    /// ready. It needs the entry that entered last, so it was not applied, and is parked where it was
    /// taken.
    fn sort_next(&mut self) -> Result<(), AllocError>
        requires kept { Invariant self.old }
        requires some { 0 < length (woken_of self.old) }
        ensures kept { Invariant self.new }
        ensures same { state_of self.new ≡ state_of self.old }
        ensures goes { GoesOn self.old self.new }
        ensures ok { OnOk result (length (woken_of self.new) < length (woken_of self.old)) }
    {
        let Some(firing) = first_of(&self.woken) else {
            unreachable!();
        };
        if self.is_parked(firing) {
            return self.begin_next();
        }
        self.ready_next()
    }

    /// Sorts out all firings that were woken.
    fn sort_all(&mut self) -> Result<(), AllocError>
        requires { Invariant self.old }
        ensures kept { Invariant self.new }
        ensures same { state_of self.new ≡ state_of self.old }
        ensures goes { GoesOn self.old self.new }
        ensures ok { OnOk result (woken_of self.new ≡ []) }
    {
        while self.woken.len() > 0 {
            self.sort_next()?;
        }
        Ok(())
    }

    /// Lets an entry enter, unless it did, and does what follows from it.
    fn enter(&mut self, entry: &Entry) -> Result<(), AllocError>
        requires kept { Invariant self.old }
        requires idle { woken_of self.old ≡ [] }
        requires gives { Gives self.old entry.now }
        requires fits { IsFitting self.old.job.now.program.blocks entry.now }
        ensures kept { Invariant self.new }
        ensures applies { Applies (state_of self.old) (state_of self.new) }
        ensures goes { GoesOn self.old self.new }
        ensures idle { OnOk result (woken_of self.new ≡ []) }
        ensures has { OnOk result (Contains self.new.matcher entry.now) }
    {
        self.put(entry)?;
        self.sort_all()?;
        Ok(())
    }

    /// Lets a token enter, unless it did, and does what follows from it.
    fn enter_token(&mut self, token: &TokenRef<'_>) -> Result<(), AllocError>
        requires kept { Invariant self.old }
        requires idle { woken_of self.old ≡ [] }
        requires gives { Gives self.old (entries.Token token.now) }
        requires fits { IsFitting self.old.job.now.program.blocks (entries.Token token.now) }
        ensures kept { Invariant self.new }
        ensures applies { Applies (state_of self.old) (state_of self.new) }
        ensures goes { GoesOn self.old self.new }
        ensures idle { OnOk result (woken_of self.new ≡ []) }
        ensures has { OnOk result (Contains self.new.matcher (entries.Token token.now)) }
    {
        self.put_token(token)?;
        self.sort_all()?;
        Ok(())
    }

    /// Lets all these entries enter.
    #[inline(never)]
    fn enter_all(&mut self, given: &[Entry]) -> Result<(), AllocError>
        requires kept { Invariant self.old }
        requires idle { woken_of self.old ≡ [] }
        requires gives { (e : Entry) → Contains given.now e → Gives self.old e }
        requires fit { AllFit self.old.job.now.program.blocks given.now }
        ensures kept { Invariant self.new }
        ensures applies { Applies (state_of self.old) (state_of self.new) }
        ensures goes { GoesOn self.old self.new }
        ensures idle { OnOk result (woken_of self.new ≡ []) }
        ensures has { OnOk result
            ((e : Entry) → Contains given.now e → Contains self.new.matcher e) }
    {
        for entry in given {
            self.enter(entry)?;
        }
        Ok(())
    }

    /// Lets all these tokens enter.
    fn enter_sent(&mut self, sent: &Sending<'_>) -> Result<(), AllocError>
        requires kept { Invariant self.old }
        requires idle { woken_of self.old ≡ [] }
        requires gives { (e : Entry) → Contains sent.now e → Gives self.old e }
        requires fit { AllFit self.old.job.now.program.blocks sent.now }
        ensures kept { Invariant self.new }
        ensures applies { Applies (state_of self.old) (state_of self.new) }
        ensures goes { GoesOn self.old self.new }
        ensures idle { OnOk result (woken_of self.new ≡ []) }
        ensures has { OnOk result
            ((e : Entry) → Contains sent.now e → Contains self.new.matcher e) }
    {
        for place in 0..sent.len() {
            self.enter_token(&sent.token(place))?;
        }
        Ok(())
    }

    /// Lets all enter that a firing gives.
    fn enter_what(&mut self, given: &Given<'_>) -> Result<(), AllocError>
        requires kept { Invariant self.old }
        requires idle { woken_of self.old ≡ [] }
        requires gives { (e : Entry) → Contains (entries_given given.now) e → Gives self.old e }
        requires fit { AllFit self.old.job.now.program.blocks (entries_given given.now) }
        ensures kept { Invariant self.new }
        ensures applies { Applies (state_of self.old) (state_of self.new) }
        ensures goes { GoesOn self.old self.new }
        ensures idle { OnOk result (woken_of self.new ≡ []) }
        ensures has { OnOk result
            ((e : Entry) → Contains (entries_given given.now) e → Contains self.new.matcher e) }
    {
        match given {
            Given::Sent(sent) => self.enter_sent(sent),
            Given::Alone(token) => self.enter_token(&TokenRef::of(token)),
            Given::Listed(entries) => self.enter_all(entries),
        }
    }

    /// Lets all enter that the firing at that place of the log gives, one of those that are being
    /// applied.
    #[tactic(auto, using(u_rule::proofs::Firings::own_is_firing))]
    fn enter_given(&mut self, place: usize) -> Result<(), AllocError>
        requires kept { Invariant self.old }
        requires idle { woken_of self.old ≡ [] }
        requires from { self.old.applied_count ≤ place }
        requires to { place < length self.old.log.items }
        ensures kept { Invariant self.new }
        ensures applies { Applies (state_of self.old) (state_of self.new) }
        ensures goes { GoesOn self.old self.new }
        ensures idle { OnOk result (woken_of self.new ≡ []) }
        ensures has { OnOk result (HasEntered self.new place) }
    {
        let all = given(self.alloc, self.job, &self.log[place])?;
        self.enter_what(&all)?;
        Ok(())
    }

    /// The firing in flight is applied: all that it gives has entered.
    fn land(&mut self)
        requires kept { Invariant self.old }
        requires flight { self.old.in_flight ≡ true }
        requires idle { woken_of self.old ≡ [] }
        requires all { HasEntered self.old self.old.applied_count }
        ensures kept { Invariant self.new }
        ensures applies { Applies (state_of self.old) (state_of self.new) }
        ensures same { self.new.log.items ≡ self.old.log.items }
        ensures all { self.new.applied_count ≡ length self.new.log.items }
    {
        self.in_flight = false;
        let all = self.log.len();
        self.applied_count = all;
    }

    /// The firing in flight is applied.
    fn settle_flying(&mut self) -> Result<(), AllocError>
        requires kept { Invariant self.old }
        requires flight { self.old.in_flight ≡ true }
        requires idle { woken_of self.old ≡ [] }
        ensures kept { Invariant self.new }
        ensures applies { Applies (state_of self.old) (state_of self.new) }
        ensures log { Lengthens self.old.log.items self.new.log.items }
        ensures ok { OnOk result (self.new.applied_count ≡ length self.new.log.items) }
    {
        self.enter_given(self.applied_count)?;
        self.land();
        Ok(())
    }

    /// The next firing of the log is applied: all that it gives has entered.
    fn close(&mut self)
        requires kept { Invariant self.old }
        requires logged { self.old.in_flight ≡ false }
        requires some { self.old.applied_count < length self.old.log.items }
        requires idle { self.old.applied_count + 1 ≡ length self.old.log.items
            → woken_of self.old ≡ [] }
        requires all { HasEntered self.old self.old.applied_count }
        ensures kept { Invariant self.new }
        ensures applies { Applies (state_of self.old) (state_of self.new) }
        ensures still { SameButApplied self.old self.new }
        ensures applied_count { self.new.applied_count ≡ self.old.applied_count + 1 }
    {
        self.parked.take_out(&self.log[self.applied_count]);
        self.applied_count += 1;
    }

    /// All firings of the log are applied: all that they give has entered. No others are parked.
    fn close_all(&mut self)
        requires kept { Invariant self.old }
        requires logged { self.old.in_flight ≡ false }
        requires idle { woken_of self.old ≡ [] }
        requires none { self.old.applied_count + length (parked_of self.old)
            ≡ length self.old.log.items }
        requires all { EnteredBefore self.old (length self.old.log.items) }
        ensures kept { Invariant self.new }
        ensures applies { Applies (state_of self.old) (state_of self.new) }
        ensures still { SameButApplied self.old self.new }
        ensures applied_count { self.new.applied_count ≡ length self.old.log.items }
    {
        self.parked.clear();
        self.applied_count = self.log.len();
    }

    /// The firings that stand before that place of the log are applied: all that they give has
    /// entered. Where nothing else is parked, none of them is looked for.
    fn close_before(&mut self, place: usize)
        requires kept { Invariant self.old }
        requires logged { self.old.in_flight ≡ false }
        requires from { self.old.applied_count ≤ place }
        requires to { place ≤ length self.old.log.items }
        requires idle { place ≡ length self.old.log.items → woken_of self.old ≡ [] }
        requires all { EnteredBefore self.old place }
        ensures kept { Invariant self.new }
        ensures applies { Applies (state_of self.old) (state_of self.new) }
        ensures still { SameButApplied self.old self.new }
        ensures applied_count { self.new.applied_count ≡ place }
    {
        if self.parked.len() == place - self.applied_count {
            self.close_all();
            return;
        }
        while self.applied_count < place {
            self.close();
        }
    }

    /// Goes on with the firings of the log until all are applied. Those that were woken are sorted out.
    #[inline(never)]
    fn settle_logged(&mut self) -> Result<(), AllocError>
        requires kept { Invariant self.old }
        requires logged { self.old.in_flight ≡ false }
        requires idle { woken_of self.old ≡ [] }
        ensures kept { Invariant self.new }
        ensures applies { Applies (state_of self.old) (state_of self.new) }
        ensures log { Lengthens self.old.log.items self.new.log.items }
        ensures ok { OnOk result (self.new.applied_count ≡ length self.new.log.items) }
    {
        let mut place = self.applied_count;
        while place < self.log.len() {
            let Ok(()) = self.enter_given(place) else {
                self.close_before(place);
                return Err(AllocError);
            };
            place += 1;
        }
        self.close_before(place);
        Ok(())
    }

    /// Goes on until all that was begun is applied.
    pub(crate) fn settle(&mut self) -> Result<(), AllocError>
        requires { Invariant self.old }
        ensures kept { Invariant self.new }
        ensures applies { Applies (state_of self.old) (state_of self.new) }
        ensures log { Lengthens self.old.log.items self.new.log.items }
        ensures ok { OnOk result (self.new.applied_count ≡ length self.new.log.items) }
        ensures still { self.old.applied_count ≡ length self.old.log.items
            → IsOk result × (self.new ≡ self.old) }
    {
        if self.is_settled() {
            return Ok(());
        }
        self.sort_all()?;
        if self.in_flight {
            self.settle_flying()?;
            return Ok(());
        }
        self.settle_logged()?;
        Ok(())
    }
}
