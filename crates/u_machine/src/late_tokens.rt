//! Late tokens: tokens that were put off. Each has entered, and the many firings that it wakes are not
//! made.
//!
//! Where many values meet at the ports of an activity, each new token wakes a firing for each choice
//! among them. Most of these firings are of no use for a long time, and a list of them would take the
//! square of the memory that the tokens take. So the machine keeps the token in their place, and makes
//! them once one of them may be the next: this project's choice. A token is put off only while no
//! firing is parked that waits for its needs, so that none of these is overlooked.
ghost use Rattle.std.specs.Prelude.{◌≡◌, ◌<◌, ◌≤◌, ◌+◌, ◌-◌, [], OnOk, OnErr, IfOk, IfSome, IfNone, IsTrue, IsFalse, Contains, length};
ghost use Rattle.u_name.specs.Context.{IsBetween};
ghost use Rattle.u_rule.specs.Parts.{token, most_ports};
ghost use Rattle.u_rule.specs.Rule.{own_of, tokens_from};
ghost use Rattle.u_rule.specs.declared.entry.Entry.{Entry};
ghost use Rattle.u_rule.specs.declared.entry.Entry.TheVariants.{Token as token_entry};
ghost use Rattle.u_sets.specs.Members.{HasOr, IsUnion};
ghost use Rattle.u_match.specs.Waking.{WakesSome};
ghost use Rattle.u_machine.specs.Calls.{Applies};
ghost use Rattle.u_machine.specs.Invariant.{state_of, woken_of, Invariant, Gives, GoesOn, MakesMore, GainsSome, HasNoneOf, NeedsNoLate, KnowsLeast, parked_of};

use crate::parts::Parts;
use crate::priority_queue::PriorityQueue;
use std::alloc::{AllocError, Global};
use u_name::Name;
use u_rule::{Entry, Firing, Token};
use u_sets::OrderedSet;
use u_value::Value;

/// Puts copies of the firings into the set. On an error some of them may be there.
fn add_all(
    alloc: Global,
    ready: &mut PriorityQueue<Firing>,
    firings: &[Firing],
) -> Result<(), AllocError>
    ensures some { GainsSome ready.old firings.now ready.new }
    ensures ok { OnOk result (IsUnion ready.old firings.now ready.new) }
{
    for firing in firings {
        ready.insert(firing.copy(alloc)?)?;
    }
    Ok(())
}

/// That token of the activity.
fn token_at(activity: &Name, port: u8, value: &Value) -> Result<Entry, AllocError>
    requires { IsBetween 1 port most_ports }
    ensures { IfOk result (λ e. e ≡ token_entry (token activity.now port value.now)) }
{
    let activity = activity.copy()?;
    let value = value.copy()?;
    Ok(Entry::Token(Token::new(activity, port, value)))
}

/// The first of the activity's tokens with these values, from that port on, that is in the set.
fn first_in(
    set: &OrderedSet<Entry>,
    activity: &Name,
    port: u8,
    values: &[Value],
) -> Result<Option<Entry>, AllocError>
    requires from { 1 ≤ port }
    requires to { port + length values.now ≤ most_ports + 1 }
    ensures some { IfOk result (λ o. IfSome o (λ e. Contains set.now e
        × Contains (tokens_from activity.now port values.now) e)) }
    ensures none { IfOk result
        (λ o. IfNone o (HasNoneOf set.now (tokens_from activity.now port values.now))) }
{
    let [first, rest @ ..] = values else {
        return Ok(None);
    };
    let token = token_at(activity, port, first)?;
    if set.contains(&token) {
        return Ok(Some(token));
    }
    let found = first_in(set, activity, port + 1, rest)?;
    Ok(found)
}

impl<'a> Parts<'a> {
    /// Makes the firings that a late token wakes: they are ready, and the token is late no more. On an
    /// error some of them may be made, and the token stays late.
    fn make(&mut self, token: &Entry) -> Result<(), AllocError>
        requires kept { Invariant self.old }
        requires idle { woken_of self.old ≡ [] }
        requires late { Contains self.old.late token.now }
        ensures kept { Invariant self.new }
        ensures makes { MakesMore self.old self.new }
        ensures ok { OnOk result (length self.new.late < length self.old.late) }
    {
        let firings = self.matcher.woken_by(self.job, token)?;
        add_all(self.alloc, &mut self.ready, &firings)?;
        self.late.take_out(token);
        Ok(())
    }

    /// Makes the firings of the least late token.
    fn make_first(&mut self) -> Result<(), AllocError>
        requires kept { Invariant self.old }
        requires idle { woken_of self.old ≡ [] }
        requires late { 0 < length self.old.late }
        ensures kept { Invariant self.new }
        ensures makes { MakesMore self.old self.new }
        ensures ok { OnOk result (length self.new.late < length self.old.late) }
    {
        let Some(first) = self.late.first() else {
            unreachable!();
        };
        let token = first.copy()?;
        self.make(&token)
    }

    /// Makes the firings of all late tokens.
    pub(crate) fn make_all(&mut self) -> Result<(), AllocError>
        requires kept { Invariant self.old }
        requires idle { woken_of self.old ≡ [] }
        ensures kept { Invariant self.new }
        ensures makes { MakesMore self.old self.new }
        ensures ok { OnOk result (self.new.late ≡ []) }
    {
        while self.late.len() > 0 {
            self.make_first()?;
        }
        Ok(())
    }

    /// The first late token that the firing needs.
    fn late_need(&self, firing: &Firing) -> Result<Option<Entry>, AllocError>
        requires { Invariant self.now }
        ensures some { IfOk result (λ o. IfSome o (λ e. Contains self.now.late e
            × Contains ((own_of self.now.job.now).needs firing.now) e)) }
        ensures none { IfOk result (λ o. IfNone o (NeedsNoLate self.now firing.now)) }
    {
        if self.late.len() == 0 {
            return Ok(None);
        }
        let values = firing.values.as_slice();
        let found = first_in(&self.late, &firing.activity, 1, values)?;
        Ok(found)
    }

    /// Whether the firing needs a late token.
    pub(crate) fn needs_late(&self, firing: &Firing) -> Result<bool, AllocError>
        requires { Invariant self.now }
        ensures late { IfOk result (λ b. IsTrue b → (e : Entry) × Contains self.now.late e
            × Contains ((own_of self.now.job.now).needs firing.now) e) }
        ensures none { IfOk result (λ b. IsFalse b → NeedsNoLate self.now firing.now) }
    {
        match self.late_need(firing)? {
            Some(_token) => Ok(true),
            None => Ok(false),
        }
    }

    /// Makes the firings of the late tokens that the firing needs.
    pub(crate) fn make_for(&mut self, firing: &Firing) -> Result<(), AllocError>
        requires kept { Invariant self.old }
        requires idle { woken_of self.old ≡ [] }
        ensures kept { Invariant self.new }
        ensures makes { MakesMore self.old self.new }
        ensures ok { OnOk result (NeedsNoLate self.new firing.now) }
    {
        let mut need = self.late_need(firing)?;
        while let Some(token) = need {
            self.make(&token)?;
            need = self.late_need(firing)?;
        }
        Ok(())
    }

    /// Whether no late token's firing may stand before the first ready one that was made.
    pub(crate) fn knows_least(&self) -> bool
        requires { Invariant self.now }
        ensures least { IsTrue result → KnowsLeast self.now }
        ensures some { IsTrue result → 0 < length self.now.late → 0 < length self.now.ready }
        ensures late { IsFalse result → 0 < length self.now.late }
    {
        if self.late.len() == 0 {
            return true;
        }
        let Some(late) = self.late.first() else {
            unreachable!();
        };
        let Entry::Token(token) = late else {
            unreachable!();
        };
        let Some(firing) = self.ready.first() else {
            return false;
        };
        firing.activity.cmp(token.activity()).is_lt()
    }

    /// Makes firings of late tokens until the least of all that is ready is made.
    pub(crate) fn make_least(&mut self) -> Result<(), AllocError>
        requires kept { Invariant self.old }
        requires idle { woken_of self.old ≡ [] }
        ensures kept { Invariant self.new }
        ensures makes { MakesMore self.old self.new }
        ensures least { OnOk result (KnowsLeast self.new) }
        ensures some { OnOk result (0 < length self.new.late → 0 < length self.new.ready) }
    {
        while !self.knows_least() {
            self.make_first()?;
        }
        Ok(())
    }

    /// Lets a token enter whose firings are not made: it is late. No firing that it wakes was taken.
    pub(crate) fn put_late(&mut self, entry: &Entry) -> Result<(), AllocError>
        requires kept { Invariant self.old }
        requires idle { woken_of self.old ≡ [] }
        requires gives { Gives self.old entry.now }
        requires new { Contains self.old.matcher entry.now → ⊥ }
        requires wakes { WakesSome self.old.job.now entry.now (HasOr self.old.matcher entry.now) }
        requires unparked { length (parked_of self.old)
            ≤ length self.old.log.items - self.old.applied_count }
        ensures kept { Invariant self.new }
        ensures applies { Applies (state_of self.old) (state_of self.new) }
        ensures goes { GoesOn self.old self.new }
        ensures has { OnOk result (Contains self.new.matcher entry.now) }
    {
        let copy = entry.copy()?;
        self.late.insert(copy)?;
        match self.matcher.enter_alone(entry) {
            Ok(()) => Ok(()),
            Err(refused) => {
                self.late.remove(entry);
                Err(refused)
            }
        }
    }
}
