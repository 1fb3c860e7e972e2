//! One machine, whose log has the applied firings and whose history has their entries.
//!
//! A machine takes any firing of its job at any time. One whose needs are not held yet is parked, and
//! is applied once they are. All that was applied forms a derivation: each firing needs only the start
//! token and what earlier firings of the log give. So the history is fixed by the set of taken
//! firings, in whatever order they came, and once nothing is ready it is all that can be derived from
//! the job.
//!
//! Each call that fires or takes settles first. If it finds no memory for that, it returns so at once, and
//! nothing is taken.
ghost use Rattle.std.specs.Prelude.{◌≡◌, ◌↔◌, ◌++◌, [], ◌∷◌, IfOk, IfSome, IsFalse, IsOk, IsTrue, OnOk};
ghost use Rattle.u_base.specs.Firing.{Distinct};
ghost use Rattle.u_rule.specs.Rule.{own_of};
ghost use Rattle.u_machine.specs.State.{state, IsMachine, IsPick, IsSettled, IsQuiet, NothingReady, Taken};
ghost use Rattle.u_machine.specs.Headline.{KeepsItsPromise, Agree};
ghost use Rattle.u_machine.specs.Calls.{FireAnswer, FireInAnswer, RunAnswer, TakeAnswer, Applies, IsFresh, RunsPlainly};
ghost use Rattle.u_machine.specs.Taking.{Fits, HasSoManyNew, IsTooLong, TakeAllAnswer};

use crate::answer::{ListRefusal, Ran, Refusal, Step, StepIn, TakeRefusal, Took};
use crate::parked::Parked;
use crate::parts::Parts;
use std::alloc::{AllocError, Global};
use std::marker::Model;
use u_check::Job;
use u_history::History;
use u_rule::Firing;

/// A job with its taken firings and its history.
///
/// The applied firings stand in the order in which they were applied.
#[derive(Drop)]
pub struct Machine<'a> {
    parts: Box<Parts<'a>>,
}

impl<'a> Model for Machine<'a> {
    ghost use Rattle.u_machine.specs.State.{State, state_code};
    ghost use Rattle.u_machine.specs.Invariant.{state_of, Invariant};

    ghost Value = { State };

    ghost coded = { state_code };

    ghost view = { λ m. state_of m.parts.value };

    ghost invariant = { λ m. Invariant m.parts.value };
}

impl<'a> Machine<'a> {
    /// A machine of the job. `limit` is the greatest number of firings that it takes; any number may stand
    /// there.
    ///
    /// Promise new-machine: it has taken nothing and holds the start token alone.
    ///
    /// # Errors
    /// `AllocError` where there is no memory.
    pub fn new(alloc: Global, job: &'a Job, limit: usize) -> Result<Machine<'a>, AllocError>
        ensures { IfOk result
            (λ m. m ≡ state job.now limit [] [] ((own_of job.now).start ∷ [])) }
    {
        let parts = Box::new(alloc, Parts::new(alloc, job, limit)?)?;
        Ok(Machine { parts })
    }

    /// Takes a firing, from wherever it comes. Where it is enabled it is applied, and each parked one
    /// that is enabled by it; else it is parked until it is.
    ///
    /// Promise take: a firing of the job is taken if it is new and there is room, and is applied exactly if
    /// it is enabled over what the machine holds.
    ///
    /// # Errors
    /// `NotAFiring` exactly where it is no firing of the job. `Full` where it is new and the machine has
    /// taken as many as it may. In both cases nothing is taken. `NoMemory` where there is no memory;
    /// then it may have been taken, with something that it began not yet applied, which the next call
    /// sees to.
    pub fn take(&mut self, firing: &Firing) -> Result<Took, TakeRefusal>
        ensures { TakeAnswer self.old firing.now result self.new }
    {
        let took = self.parts.take(firing)?;
        Ok(took)
    }

    /// Takes the firings of the list one after another, each as `take` does, or none of them.
    ///
    /// Promise take-all: all of the list are taken; none if one is no firing of the job or the new ones do
    /// not fit; a front of it if memory runs out.
    ///
    /// # Errors
    /// `NotAFiring` with the place of the first that is no firing of the job. `Full` where the machine
    /// may not take as many besides as the list has firings that it did not take yet. In both cases
    /// nothing is taken. `NoMemory` where there is room and no memory; then those before some place of
    /// the list are taken, and the next call goes on with what is not yet applied.
    pub fn take_all(&mut self, firings: &[Firing]) -> Result<(), ListRefusal>
        ensures { TakeAllAnswer self.old firings.now result self.new }
    {
        self.parts.take_all(firings)?;
        Ok(())
    }

    /// Whether the firing was not taken.
    fn is_new(&self, firing: &Firing) -> bool
        ensures { IsTrue result ↔ (Taken self.now firing.now → ⊥) }
    {
        !self.knows(firing)
    }

    /// How many of the firings were not taken, of a list that has none twice.
    fn new_among(&self, firings: &[Firing]) -> usize
        requires { Distinct firings.now }
        ensures { HasSoManyNew self.now firings.now result }
    {
        let mut count = 0;
        for firing in firings {
            if self.is_new(firing) {
                count += 1;
            }
        }
        count
    }

    /// How many of the firings that the other machine took were not taken here.
    fn new_from(&self, other: &Machine<'_>) -> usize
        ensures { HasSoManyNew self.now (other.now.log ++ other.now.parked) result }
    {
        // Brings in that the other machine took none twice, and no more than it may.
        other.holds();
        // Counted down from what it may take, so that no sum is made.
        let mut rest = other.parts.limit - self.new_among(other.applied());
        for firing in other.parked().iter() {
            if self.is_new(firing) {
                rest -= 1;
            }
        }
        other.parts.limit - rest
    }

    /// Whether the machine may take besides all that the other one took. It takes no memory.
    pub fn has_room_for(&self, other: &Machine<'_>) -> bool
        ensures fits { IsTrue result → Fits self.now (other.now.log ++ other.now.parked) }
        ensures long { IsFalse result → IsTooLong self.now (other.now.log ++ other.now.parked) }
    {
        // Brings in that no more are taken than may be.
        self.holds();
        let new = self.new_from(other);
        new <= self.parts.limit - self.applied().len() - self.parked().len()
    }

    /// Goes on where an earlier call found no memory, until all that was begun is applied.
    ///
    /// Promise nothing-is-lost: a call that finds no memory keeps what was taken and what has entered, and
    /// the next call goes on.
    ///
    /// Promise when-memory-is-refused: on a settled machine this call succeeds without memory and changes
    /// nothing.
    ///
    /// # Errors
    /// `AllocError` where there is no memory; the entries that have entered stay.
    pub fn settle(&mut self) -> Result<(), AllocError>
        ensures applies { Applies self.old self.new }
        ensures ok { OnOk result (IsSettled self.new) }
        ensures still { IsSettled self.old → IsOk result × (self.new ≡ self.old) }
    {
        self.parts.settle()?;
        Ok(())
    }

    /// Whether each taken firing that is enabled is applied, and all that they give has entered.
    pub fn is_settled(&self) -> bool
        ensures { IsTrue result ↔ IsSettled self.now }
    {
        self.parts.is_settled()
    }

    /// Whether the machine has nothing left to do: then the history is all that can be derived from the job.
    /// It takes no memory.
    ///
    /// Promise whether-it-is-quiet: the answer is true exactly if the machine is settled and nothing is
    /// ready.
    pub fn is_quiet(&self) -> bool
        ensures { IsTrue result ↔ IsQuiet self.now }
    {
        if !self.parts.is_settled() {
            return false;
        }
        self.parts.is_quiet()
    }

    /// Applies one ready firing, and then each parked one that is enabled by it. The ready firings stand in
    /// order; `pick` modulo their number is the place of the one that is applied, so any number may stand
    /// there.
    ///
    /// Promise fire: the ready firing at the place is taken and no other; `Quiet` is returned only if nothing
    /// is ready, and then the history is whole.
    ///
    /// # Errors
    /// `Full` where a firing is ready and the machine has taken as many as it may, and nothing is
    /// applied. `NoMemory` where there is no memory; then either no firing was taken, or the picked one
    /// was and something that it began is not yet applied, which the next call sees to.
    pub fn fire(&mut self, pick: usize) -> Result<Step, Refusal>
        ensures { FireAnswer self.old pick result self.new }
    {
        let fired = self.parts.fire(pick)?;
        Ok(fired)
    }

    /// The firing that `fire(0)` applies, if there is room. It takes no memory. There is none where something
    /// that was begun is not yet applied, where nothing is ready, or where many firings would have to be made
    /// to know which is the least.
    ///
    /// Promise what-is-fired-next: a firing that is returned is the least of all ready ones.
    pub fn next_ready(&self) -> Option<&Firing>
        ensures { IfSome result (λ f. IsPick self.now 0 f.now) }
    {
        self.parts.next_ready()
    }

    /// Applies one ready firing whose bucket is in the mask, and then each parked one that is enabled by
    /// it. Bit b of `buckets` stands for bucket b, of those that `bucket_of` gives the names of
    /// activities. As in `fire`, the ready firings in the mask stand in order, and `pick` modulo their
    /// number is the place of the one that is applied. That a worker fires by buckets is this project's
    /// profile.
    ///
    /// `Quiet` is returned if nothing is ready at all, and then the history is all that can be derived from
    /// the job.
    ///
    /// Promise fire-in-a-mask: of the ready firings in the mask the one at the place is taken; `Elsewhere` is
    /// returned only if some are ready and none is in the mask.
    ///
    /// # Errors
    /// `Full` where a firing in the mask is ready and the machine has taken as many as it may, and
    /// nothing is applied. `NoMemory` where there is no memory, as for `fire`.
    pub fn fire_in(&mut self, buckets: u64, pick: usize) -> Result<StepIn, Refusal>
        ensures { FireInAnswer self.old buckets pick result self.new }
    {
        let fired = self.parts.fire_in(buckets, pick)?;
        Ok(fired)
    }

    /// Applies the least ready firing again and again, until nothing is ready or it has done so `budget`
    /// times. The plain run of a job is what one machine alone applies so.
    ///
    /// Promise run: each firing that it fires is the least that is ready then; `Paused` is returned only if
    /// it fired `budget` times and something is ready.
    ///
    /// Promise plain-run: a machine that had taken nothing before has the plain run of its job afterwards.
    ///
    /// # Errors
    /// `Full` where a firing is ready and the machine has taken as many as it may; a machine that had
    /// taken nothing before is never full within a budget of its limit. `NoMemory` where there is no
    /// memory. What was applied before a refusal stays applied. A settled machine of which nothing is
    /// ready answers `Quiet`, with no memory.
    pub fn run(&mut self, budget: usize) -> Result<Ran, Refusal>
        ensures answer { RunAnswer self.old budget result self.new }
        ensures plain { IsFresh self.old → RunsPlainly self.old budget result self.new }
        ensures quiet { IsSettled self.old → NothingReady self.old → IsOk result }
    {
        let ran = self.parts.run(budget);
        // Brings in what always holds.
        self.holds();
        ran
    }

    /// The job that the machine runs.
    pub fn job(&self) -> &'a Job
        ensures { result.now ≡ self.now.job }
    {
        self.parts.job
    }

    /// The history: each entry that the machine holds.
    pub fn history(&self) -> &History
        ensures { result.now ≡ self.now.history }
    {
        self.parts.matcher.history()
    }

    /// The applied firings, in the order in which they were applied.
    pub fn applied(&self) -> &[Firing]
        ensures { result.now ≡ self.now.log }
    {
        &self.parts.log.as_slice()[..self.parts.applied_count]
    }

    /// The firings that were taken and not applied, in order.
    pub fn parked(&self) -> Parked<'_>
        ensures { result ≡ self.now.parked }
    {
        self.parts.lent_parked()
    }

    /// Whether the firing was taken, so that it is not to be taken again.
    pub fn knows(&self, firing: &Firing) -> bool
        ensures { IsTrue result ↔ Taken self.now firing.now }
    {
        self.parts.knows(firing)
    }

    /// The headline of one machine, which holds after all calls. It does nothing, and callers cite its
    /// clauses.
    ///
    /// Promise machine-one-run: the applied firings, in their order, are one run of the job.
    ///
    /// Promise machine-fixed-by-its-set: the history of a settled machine is the closure of the firings that
    /// it took, whatever their order.
    ///
    /// Promise machine-quiet-is-whole: if a settled machine has nothing ready, its history is all that any
    /// run of the job derives.
    ///
    /// Promise machine-always: what was taken are firings of the job, each once, no more than the limit, and
    /// the history has nothing that they do not derive.
    pub fn holds(&self)
        ensures is { IsMachine self.now }
        ensures promise { KeepsItsPromise self.now }
    {
        // Brings in that both rise.
        let _entries = self.parts.matcher.history().len();
        let _parked = self.parts.parked.len();
    }

    /// What holds of two machines, in whatever orders they took firings. It does nothing, and callers cite
    /// its clause.
    ///
    /// Promise machines-agree: two settled machines of one job that took the same firings have the same
    /// history, the very list.
    pub fn agrees_with(&self, other: &Machine<'_>)
        ensures { Agree self.now other.now }
    {
        // Brings in what always holds of both.
        self.holds();
        other.holds();
    }
}
