//! How ready firings are fired: the third of three things that a machine does with its parts, each of
//! which has a file of its own.
//!
//! The ready firings are kept, not searched: only a pick above 0 goes over them. Whether anything is left
//! is looked at after the last firing of a budget, so a run of exactly as many firings as there are is
//! quiet.
ghost use Rattle.std.specs.Prelude.{◌≡◌, ◌<◌, ◌%◌, [], IfOk, OnOk, OnErr, IsOk, IfSome, IsTrue, IsFalse, length, slice_get, Some};
ghost use Rattle.u_rule.specs.declared.firing.Firing.{Firing};
ghost use Rattle.u_machine.specs.State.{IsSettled, NothingReady, IsReady, IsPick, count_of};
ghost use Rattle.u_machine.specs.Calls.{FireAnswer, RunAnswer};
ghost use Rattle.u_machine.specs.Invariant.{state_of, Invariant, Begins, BeginsPicked};

use crate::answer::{Ran, Refusal, Step};
use crate::parts::Parts;
use std::alloc::AllocError;
use u_rule::Firing;

impl<'a> Parts<'a> {
    /// A copy of the ready firing at that place.
    #[tactic(auto, using(crate::proofs::Lists::some_at))]
    fn ready_at(&self, place: usize) -> Result<Firing, AllocError>
        requires { place < length self.now.ready }
        ensures { IfOk result (λ f. slice_get self.now.ready place ≡ Some f) }
    {
        match self.ready.nth(place) {
            Some(firing) => firing.copy(self.alloc),
            None => unreachable!(),
        }
    }

    /// The ready firing at that place begins to be applied. All that was begun before is applied, and
    /// no token is late.
    fn begin_at(&mut self, place: usize) -> Result<(), AllocError>
        requires kept { Invariant self.old }
        requires settled { self.old.applied_count ≡ length self.old.log.items }
        requires made { self.old.late ≡ [] }
        requires ready { place < length self.old.ready }
        requires room { count_of (state_of self.old) < self.old.limit }
        ensures kept { Invariant self.new }
        ensures ok { OnOk result (Begins self.old place self.new) }
        ensures err { OnErr result (state_of self.new ≡ state_of self.old) }
    {
        if place == 0 {
            return self.begin_least();
        }
        let firing = self.ready_at(place)?;
        self.begin(firing)?;
        Ok(())
    }

    /// The picked one of all that is ready begins to be applied. Firings of late tokens are made before
    /// as far as they have to be known. All that was begun before is applied.
    fn begin_picked(&mut self, pick: usize) -> Result<(), AllocError>
        requires kept { Invariant self.old }
        requires settled { self.old.applied_count ≡ length self.old.log.items }
        requires ready { (f : Firing) × IsReady (state_of self.old) f }
        requires room { count_of (state_of self.old) < self.old.limit }
        ensures kept { Invariant self.new }
        ensures ok { OnOk result (BeginsPicked self.old pick self.new) }
        ensures err { OnErr result (state_of self.new ≡ state_of self.old) }
    {
        if pick == 0 {
            self.make_least()?;
            // Brings in that the ready firings rise.
            let _none = self.ready.is_empty();
            self.begin_least()?;
            return Ok(());
        }
        self.make_all()?;
        let place = self.ready.picked_place(pick);
        self.begin_at(place)?;
        Ok(())
    }

    /// Applies one ready firing, and what becomes enabled by it and was taken.
    pub(crate) fn fire(&mut self, pick: usize) -> Result<Step, Refusal>
        requires { Invariant self.old }
        ensures kept { Invariant self.new }
        ensures answer { FireAnswer (state_of self.old) pick result (state_of self.new) }
    {
        self.settle()?;
        let quiet = self.is_quiet();
        if quiet {
            return Ok(Step::Quiet);
        }
        if self.is_full() {
            return Err(Refusal::Full);
        }
        let place = self.log.len();
        self.begin_picked(pick)?;
        self.settle()?;
        Ok(Step::Fired(place))
    }

    /// The least ready firing, where all that was begun is applied and no late token's firing may stand
    /// before it.
    pub(crate) fn next_ready(&self) -> Option<&Firing>
        requires { Invariant self.now }
        ensures { IfSome result (λ f. IsPick (state_of self.now) 0 f.now) }
    {
        if !self.is_settled() {
            return None;
        }
        if !self.knows_least() {
            return None;
        }
        // Brings in that the ready firings rise.
        let _none = self.ready.is_empty();
        match self.ready.first() {
            Some(firing) => Some(firing),
            None => None,
        }
    }

    /// Whether nothing is ready, made or not. All that was begun is applied.
    pub(crate) fn is_quiet(&self) -> bool
        requires kept { Invariant self.now }
        requires settled { self.now.applied_count ≡ length self.now.log.items }
        ensures quiet { IsTrue result → NothingReady (state_of self.now) }
        ensures ready { IsFalse result → (f : Firing) × IsReady (state_of self.now) f }
    {
        if !self.ready.is_empty() {
            return false;
        }
        if self.late.len() > 0 {
            return false;
        }
        true
    }

    /// Fires the least ready firing again and again.
    pub(crate) fn run(&mut self, budget: usize) -> Result<Ran, Refusal>
        requires { Invariant self.old }
        ensures kept { Invariant self.new }
        ensures answer { RunAnswer (state_of self.old) budget result (state_of self.new) }
        ensures quiet { IsSettled (state_of self.old) → NothingReady (state_of self.old)
            → IsOk result }
    {
        for made in 0..budget {
            let fired = self.fire(0)?;
            match fired {
                Step::Quiet => return Ok(Ran::Quiet),
                Step::Fired(_) => {}
            }
        }
        self.settle()?;
        if self.is_quiet() {
            return Ok(Ran::Quiet);
        }
        Ok(Ran::Paused)
    }
}
