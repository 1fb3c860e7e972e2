//! The report of a fleet, and the machine that takes what its workers published.
//!
//! If a worker is done, its list alone is taken: it has every published firing. If none is done, all lists
//! are taken.
ghost use Rattle.std.specs.Prelude.{◌≡◌, ◌<◌, ◌⊎◌, ℕ, [], IfOk, IfErr, OnOk, IfSome, IsNone, Contains, length, slice_index_or};
ghost use Rattle.u_base.specs.Firing.{Derivation, Same};
ghost use Rattle.u_rule.specs.Rule.{own_of};
ghost use Rattle.u_machine.specs.State.{Taken, NothingReady};
ghost use Rattle.u_machine.specs.Headline.{IsWhole};
ghost use Rattle.u_machine.specs.Taking.{TakesAll};
ghost use Rattle.u_fleet.specs.Gains.{TookNone, Gains, MayBeFull};
ghost use Rattle.u_fleet.specs.Headline.{MoreThan, IsWholeList, AreRuns, IsPublished, TookPublished, HaveEnded, IsReport, AreStopped};
ghost use Rattle.u_fleet.specs.declared.plan.End.{End};
ghost use Rattle.u_fleet.specs.declared.plan.End.TheVariants.{Done, Stopped, Full};

use crate::closing::Ended;
use crate::gate::Gate;
use crate::gathering::take_sound;
use crate::plan::{End, FleetFault, FleetPlan};
use std::alloc::Global;
use u_check::Job;
use u_delta::Firings;
use u_machine::{ListRefusal, Machine};
use u_outlet::Named;
use u_replica::Replica;

/// What the workers of a fleet published, how each of them ended, both in the order of their numbers,
/// and a machine that took what is published.
#[derive(Drop)]
pub struct Report<'a> {
    pub machine: Machine<'a>,
    pub published: Vec<Firings>,
    pub ends: Vec<End>,
}

/// Takes the firings of one run of the job.
fn take_run<J: Named>(replica: &mut Replica<'_>, run: &Firings) -> Result<(), FleetFault>
    requires job { replica.old.machine.job ≡ J.job }
    requires run { Derivation (own_of J.job) run.now }
    ensures takes { OnOk result (TakesAll replica.old.machine run.now replica.new.machine) }
    ensures gains { Gains replica.old.machine replica.new.machine }
    ensures full { IfErr result (λ e. e ≡ FleetFault.Full → MayBeFull replica.old.machine) }
{
    match take_sound::<J>(replica, run.as_slice()) {
        Ok(()) => Ok(()),
        Err(ListRefusal::NotAFiring(_)) => unreachable!(),
        Err(ListRefusal::Full) => Err(FleetFault::Full),
        Err(ListRefusal::NoMemory) => Err(FleetFault::NoMemory),
    }
}

/// Takes the firings of all lists, each of which is one run of the job.
fn take_lists<J: Named>(replica: &mut Replica<'_>, lists: &[Firings]) -> Result<(), FleetFault>
    requires job { replica.old.machine.job ≡ J.job }
    requires none { TookNone replica.old.machine }
    requires runs { AreRuns J.job lists.now }
    ensures taken { OnOk result (Same (Taken replica.new.machine) (IsPublished lists.now)) }
    ensures gains { Gains replica.old.machine replica.new.machine }
    ensures full { IfErr result (λ e. e ≡ FleetFault.Full → MayBeFull replica.old.machine) }
{
    for list in lists {
        match take_run::<J>(replica, list) {
            Ok(()) => {}
            Err(fault) => return Err(fault),
        }
    }
    Ok(())
}

/// Takes the firings of all lists, and applies what was begun.
fn take_published<J: Named>(replica: &mut Replica<'_>, lists: &[Firings]) -> Result<(), FleetFault>
    requires job { replica.old.machine.job ≡ J.job }
    requires none { TookNone replica.old.machine }
    requires runs { AreRuns J.job lists.now }
    ensures took { OnOk result (TookPublished J.job lists.now replica.new.machine) }
    ensures full { IfErr result (λ e. e ≡ FleetFault.Full → MayBeFull replica.old.machine) }
{
    let taken = take_lists::<J>(replica, lists);
    let settled = replica.settle();
    replica.holds();
    match (taken, settled) {
        (Ok(()), Ok(())) => Ok(()),
        (Err(fault), _) => Err(fault),
        (Ok(()), Err(_)) => Err(FleetFault::NoMemory),
    }
}

/// A machine of the job that takes the firings of all lists, each of which is one run of the job, and
/// fires nothing.
fn machine_of<'a, J: Named>(
    alloc: Global,
    job: &'a Job,
    limit: usize,
    lists: &[Firings],
) -> Result<Machine<'a>, FleetFault>
    requires job { job.now ≡ J.job }
    requires runs { AreRuns J.job lists.now }
    ensures took { IfOk result (TookPublished J.job lists.now) }
    ensures full { IfErr result (λ e. e ≡ FleetFault.Full → MoreThan J.job limit) }
{
    let mut replica = Replica::new(alloc, job, limit, 1)?;
    match take_published::<J>(&mut replica, lists) {
        Ok(()) => Ok(replica.into_machine()),
        Err(fault) => {
            drop(replica);
            Err(fault)
        }
    }
}

/// The place of the first worker that is done.
fn first_done(ends: &[End]) -> Option<usize>
    ensures found { IfSome result
        (λ place. (place < length ends.now) × (slice_index_or ends.now place Done ≡ Done)) }
    ensures none { IsNone result → Contains ends.now Done → ⊥ }
{
    for (place, end) in ends.iter().enumerate() {
        if let End::Done = end {
            return Some(place);
        }
    }
    None
}

/// Why there is no machine of workers none of which is done: one of them had no room, or no memory.
fn all_stopped(ends: &[End]) -> Result<(), FleetFault>
    requires { Contains ends.now Done → ⊥ }
    ensures ok { OnOk result (AreStopped ends.now) }
    ensures full { IfErr result (λ e. e ≡ FleetFault.Full → Contains ends.now Full) }
{
    let mut memory = true;
    for end in ends {
        match end {
            End::Done | End::Stopped => {}
            End::Full => return Err(FleetFault::Full),
            End::NoMemory => memory = false,
        }
    }
    if memory {
        Ok(())
    } else {
        Err(FleetFault::NoMemory)
    }
}

/// The machine that takes the list of a worker that is done: it has all that is published.
fn machine_of_done<'a, J: Named>(
    alloc: Global,
    job: &'a Job,
    limit: usize,
    lists: &[Firings],
    place: usize,
) -> Result<Machine<'a>, FleetFault>
    requires job { job.now ≡ J.job }
    requires runs { AreRuns J.job lists.now }
    requires place { place < length lists.now }
    requires whole { IsWholeList J.job (slice_index_or lists.now place []) }
    ensures took { IfOk result (TookPublished J.job lists.now) }
    ensures whole { IfOk result (λ m. NothingReady m × IsWhole m) }
    ensures full { IfErr result (λ e. e ≡ FleetFault.Full → MoreThan J.job limit) }
{
    let machine = machine_of::<J>(alloc, job, limit, &lists[place..place + 1])?;
    machine.holds();
    Ok(machine)
}

/// The machine of the report: it takes what is published, and nothing else.
fn merged<'a, J: Named, G: Gate>(
    alloc: Global,
    job: &'a Job,
    plan: &FleetPlan,
    ended: &Ended,
) -> Result<Machine<'a>, FleetFault>
    requires job { job.now ≡ J.job }
    requires ended { HaveEnded G.may J.job plan.now ended.now.published.items ended.now.ends.items }
    ensures took { IfOk result (TookPublished J.job ended.now.published.items) }
    ensures done { IfOk result
        (λ m. Contains ended.now.ends.items Done → NothingReady m × IsWhole m) }
    ensures none_done { IfOk result
        (λ _. (Contains ended.now.ends.items Done → ⊥) → AreStopped ended.now.ends.items) }
    ensures full { IfErr result (λ e. e ≡ FleetFault.Full → MoreThan J.job plan.now.limit) }
{
    let lists = ended.published.as_slice();
    let ends = ended.ends.as_slice();
    match first_done(ends) {
        Some(place) => machine_of_done::<J>(alloc, job, plan.limit, lists, place),
        None => {
            all_stopped(ends)?;
            machine_of::<J>(alloc, job, plan.limit, lists)
        }
    }
}

/// The report of workers that have ended.
pub fn report_of<'a, J: Named, G: Gate>(
    alloc: Global,
    job: &'a Job,
    plan: &FleetPlan,
    ended: Ended,
) -> Result<Report<'a>, FleetFault>
    requires job { job.now ≡ J.job }
    requires ended { HaveEnded G.may J.job plan.now ended.published.items ended.ends.items }
    ensures report { IfOk result
        (λ r. IsReport G.may J.job plan.now r.machine r.published.items r.ends.items) }
    ensures full { IfErr result (λ e. e ≡ FleetFault.Full → MoreThan J.job plan.now.limit) }
{
    let machine = merged::<J, G>(alloc, job, plan, &ended)?;
    let Ended { published, ends } = ended;
    Ok(Report {
        machine,
        published,
        ends,
    })
}
