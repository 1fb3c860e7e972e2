//! The parts of a machine.
//!
//! What a machine does with them is written in three files: `taking` takes firings, `applying` lets
//! entries enter and firings be applied, and `firing` fires what is ready. `masks` fires by buckets, and
//! `late_tokens` makes the firings of tokens that were put off.
ghost use Rattle.std.specs.Prelude.{◌≡◌, ◌↔◌, [], ◌∷◌, IfOk, IsTrue, Contains, length};
ghost use Rattle.u_rule.specs.Rule.{own_of};
ghost use Rattle.u_machine.specs.State.{IsSettled, state};
ghost use Rattle.u_base.specs.Firing.{Same};
ghost use Rattle.u_machine.specs.Invariant.{state_of, Invariant, parked_of};

use crate::parked::Parked;
use crate::priority_queue::PriorityQueue;
use std::alloc::{AllocError, Global};
use u_check::Job;
use u_match::Matcher;
use u_rule::{Entry, Firing, start};
use u_sets::OrderedSet;

/// The parts of a machine.
#[derive(Drop)]
pub(crate) struct Parts<'a> {
    pub(crate) alloc: Global,
    pub(crate) job: &'a Job,
    /// The greatest number of taken firings.
    pub(crate) limit: usize,
    /// The applied firings, and behind them those that are being applied.
    pub(crate) log: Vec<Firing>,
    /// How many firings of the log were applied.
    pub(crate) applied_count: usize,
    /// The firings that were taken and not applied, without one in flight.
    pub(crate) parked: OrderedSet<Firing>,
    /// Whether a firing is in flight: it stands at the end of the log, is being applied, and nothing else
    /// is parked. So it is never copied.
    pub(crate) in_flight: bool,
    /// The firings that are enabled and not taken, as far as they were made.
    pub(crate) ready: PriorityQueue<Firing>,
    /// The tokens that were put off: the firings that they wake are enabled, and not made.
    pub(crate) late: OrderedSet<Entry>,
    /// The firings that the last entry woke and that are still to be sorted out, the last one first. Once
    /// they are, the list's room is used for what the next entry wakes.
    pub(crate) woken: Vec<Firing>,
    /// The history, with what each of its entries may meet.
    pub(crate) matcher: Matcher,
}

/// The set of these firings.
fn set_of(alloc: Global, firings: &[Firing]) -> Result<PriorityQueue<Firing>, AllocError>
    ensures { IfOk result (λ s. Same (Contains s) (Contains firings.now)) }
{
    let mut set = PriorityQueue::new(alloc);
    for firing in firings {
        set.insert(firing.copy(alloc)?)?;
    }
    Ok(set)
}

impl<'a> Parts<'a> {
    /// The parts of a machine that holds the start token alone.
    pub(crate) fn new(alloc: Global, job: &'a Job, limit: usize) -> Result<Parts<'a>, AllocError>
        ensures kept { IfOk result Invariant }
        ensures state { IfOk result
            (λ p. state_of p ≡ state job.now limit [] [] ((own_of job.now).start ∷ [])) }
    {
        let mut matcher = Matcher::new(alloc);
        let woken = matcher.enter(job, &start(job))?;
        let ready = set_of(alloc, &woken)?;
        // Brings in that the entries rise.
        let _count = matcher.history().len();
        Ok(Parts {
            alloc,
            job,
            limit,
            log: Vec::new(alloc),
            applied_count: 0,
            parked: OrderedSet::new(alloc),
            in_flight: false,
            ready,
            late: OrderedSet::new(alloc),
            woken: Vec::new(alloc),
            matcher,
        })
    }

    /// The firings that were taken and not applied, in order.
    pub(crate) fn lent_parked(&self) -> Parked<'_>
        requires { Invariant self.now }
        ensures { result ≡ parked_of self.now }
    {
        if self.in_flight {
            return Parked::flying(&self.log[self.applied_count], &self.parked);
        }
        Parked::waiting(&self.parked)
    }

    /// Whether all that was begun is applied.
    pub(crate) fn is_settled(&self) -> bool
        requires { Invariant self.now }
        ensures settled { IsTrue result ↔ IsSettled (state_of self.now) }
        ensures applied_count { IsTrue result
            ↔ (self.now.applied_count ≡ length self.now.log.items) }
    {
        if self.applied_count < self.log.len() {
            return false;
        }
        true
    }
}
