//! A fleet: workers as threads, and their report.
ghost use Rattle.std.specs.Prelude.{◌≡◌, ◌≤◌, [], IfOk, IfErr, vec_capacity};
ghost use Rattle.u_fleet.specs.Plans.{IsPlan};
ghost use Rattle.u_fleet.specs.Headline.{MoreThan, IsReport};

use crate::closing::{Ended, close_all};
use crate::gate::Gate;
use crate::making::make;
use crate::plan::{FleetFault, FleetPlan};
use crate::report::{Report, report_of};
use crate::threads::run_all;
use crate::worker::Setting;
use std::alloc::Global;
use std::marker::Brand;
use std::sync::Wait;
use std::thread::Threads;
use u_check::Job;
use u_outlet::Named;

/// Empty lists for what so many workers leave, with room for them.
fn room_for(alloc: Global, workers: u8) -> Result<Ended, FleetFault>
    ensures empty { IfOk result (λ e. (e.published.items ≡ []) × (e.ends.items ≡ [])) }
    ensures lists { IfOk result (λ e. workers ≤ vec_capacity e.published) }
    ensures ends { IfOk result (λ e. workers ≤ vec_capacity e.ends) }
    ensures memory { IfErr result (λ e. e ≡ FleetFault.NoMemory) }
{
    let count = usize::from(workers);
    Ok(Ended {
        published: Vec::with_capacity(alloc, count)?,
        ends: Vec::with_capacity(alloc, count)?,
    })
}

/// A fleet for the job that `J` names.
fn fleet_of<'a, J: Named + Send + Sync, G: Gate + Sync, R: Threads + Wait + Sync>(
    rt: &R,
    alloc: Global,
    job: &'a Job,
    plan: &FleetPlan,
    gate: &G,
) -> Result<Report<'a>, FleetFault>
    requires job { job.now ≡ J.job }
    requires plan { IsPlan plan.now }
    ensures report { IfOk result
        (λ r. IsReport G.may J.job plan.now r.machine r.published.items r.ends.items) }
    ensures full { IfErr result (λ e. e ≡ FleetFault.Full → MoreThan J.job plan.now.limit) }
{
    let room = room_for(alloc, plan.workers)?;
    let (board, mut pairs) = match make::<J, R>(rt, alloc, plan.workers) {
        Ok(made) => made,
        Err(FleetFault::NoReader) => return Err(FleetFault::NoReader),
        Err(_) => return Err(FleetFault::NoMemory),
    };
    let setting = Setting {
        alloc,
        job,
        plan: *plan,
        board: &board,
        gate,
    };
    run_all(rt, &setting, pairs.as_mut_slice());
    let ended = close_all(rt, pairs, room);
    report_of::<J, G>(alloc, job, plan, ended)
}

/// Runs the job on a fleet of workers, each in a thread of its own.
///
/// A worker has a replica and an outlet. In each round it takes what the others' outlets show, applies
/// firings of its share of the 64 buckets, publishes what is new in its log, and passes the gate. After
/// its rounds it runs until nothing is ready, and publishes the rest. When all have ended, a machine
/// takes what is published and fires nothing. It may wait.
///
/// Promise fleet-lists: each worker has one published list, which is one run of the job.
///
/// Promise fleet-done-is-whole: the list of a worker that is done has every sound firing, and holds the job's
/// whole history.
///
/// Promise fleet-ends: a worker is stopped only if the gate may stop it, and full only if more firings are
/// sound than it may take.
///
/// Promise fleet-machine: the machine of the report took exactly the published firings, and if a worker is
/// done, its history is whole.
///
/// Promise fleet-full: `Full` is returned only if more firings of the job are sound than the plan's limit.
///
/// # Errors
/// `NoReader` where an outlet has no place for an inlet or the board no seat. `Full` where no worker is
/// done and one had no room, or what is published has no room; then the job has more firings than
/// `limit`. `NoMemory` where there is no memory for the fleet or its report, or no worker is done and
/// one had no memory. All threads have ended then.
pub fn run_fleet<'a, G: Gate + Sync, R: Threads + Wait + Sync>(
    rt: &R,
    alloc: Global,
    job: &'a Job,
    plan: &FleetPlan,
    gate: &G,
) -> Result<Report<'a>, FleetFault>
    requires { IsPlan plan.now }
    ensures report { IfOk result
        (λ r. IsReport G.may job.now plan.now r.machine r.published.items r.ends.items) }
    ensures full { IfErr result (λ e. e ≡ FleetFault.Full → MoreThan job.now plan.now.limit) }
{
    fleet_of::<Brand, G, R>(rt, alloc, job, plan, gate)
}
