//! Fleets by rows, and what is looked for in their reports. Without memory the result is false.
ghost use Rattle.std.specs.Prelude.{IfSome};
ghost use Rattle.u_fleet.specs.Plans.{IsPlan};

use crate::gates::{Script, Scripted};
use crate::logs::begins_with;
use std::alloc::Global;
use std::sync::Wait;
use std::thread::Threads;
use u_check::Job;
use u_delta::Firings;
use u_fleet::{End, FleetPlan, Report, run_fleet};
use u_machine::Machine;
use u_plain::worked::text_of;

/// What is looked for in the report of a fleet.
#[derive(Clone, Copy)]
pub enum Look {
    /// Some worker is done, and the machine's history is the one that is held.
    Held,
    /// The one worker was stopped. It published six firings twice, and the machine applied them once.
    SixTwice,
    /// The one worker was stopped. It published the 45 firings of the sum from 3.
    AllOfSum,
    /// Worker 1 published two firings, and no more.
    TwoOfFirst,
    /// Worker 2 published four firings or more.
    FourOfSecond,
}

/// A fleet: its workers, their rounds and the budget of a round, what its gate says, and what is looked
/// for in its report.
pub type Fleet = (u8, u32, usize, Script, Look);

/// The plan of a fleet, if it is one.
fn plan_of(fleet: &Fleet) -> Option<FleetPlan>
    ensures { IfSome result IsPlan }
{
    let (workers, rounds, budget, _, _) = *fleet;
    if workers < 1 || 8 < workers || 1000 < rounds || budget < 1 || 1_000_000 < budget {
        return None;
    }
    Some(FleetPlan {
        workers,
        rounds,
        budget,
        limit: 100_000,
    })
}

/// Whether the machine's history has this text.
fn holds(alloc: Global, machine: &Machine<'_>, held: &[u8]) -> bool {
    match text_of(alloc, machine.history()) {
        Ok(own) => own.as_slice() == held,
        Err(_) => false,
    }
}

/// Whether one worker was stopped, and published that number of firings.
fn left(lists: &[Firings], ends: &[End], count: usize) -> bool {
    match (lists, ends) {
        ([list], [End::Stopped]) => list.as_slice().len() == count,
        _ => false,
    }
}

/// Whether the second half of a list of twelve has the firings of the first one, and so has the machine.
fn has_half(machine: &Machine<'_>, lists: &[Firings]) -> bool {
    match lists {
        [list] if list.as_slice().len() == 12 => {
            let half = &list.as_slice()[..6];
            begins_with(&list.as_slice()[6..], half)
                && begins_with(machine.applied(), half)
                && machine.applied().len() == 6
        }
        _ => false,
    }
}

/// Whether the report has what is looked for.
fn has(alloc: Global, report: &Report<'_>, held: &[u8], look: Look) -> bool {
    let ends = report.ends.as_slice();
    let lists = report.published.as_slice();
    match look {
        Look::Held => ends.contains(&End::Done) && holds(alloc, &report.machine, held),
        Look::SixTwice => left(lists, ends, 12) && has_half(&report.machine, lists),
        Look::AllOfSum => left(lists, ends, 45),
        Look::TwoOfFirst => match lists.first() {
            Some(list) => list.as_slice().len() == 2,
            None => false,
        },
        Look::FourOfSecond => match lists.get(1) {
            Some(list) => list.as_slice().len() >= 4,
            None => false,
        },
    }
}

/// Whether the fleet reports what is looked for. What is held is the text of the job's whole history.
fn reports<R: Threads + Wait + Sync>(
    rt: &R,
    alloc: Global,
    job: &Job,
    held: &[u8],
    fleet: &Fleet,
) -> bool {
    let Some(plan) = plan_of(fleet) else {
        return false;
    };
    let gate = Scripted::new(fleet.3);
    match run_fleet(rt, alloc, job, &plan, &gate) {
        Ok(report) => has(alloc, &report, held, fleet.4) && gate.is_over(),
        Err(_) => false,
    }
}

/// Whether each of the fleets does.
fn all_report<R: Threads + Wait + Sync>(
    rt: &R,
    alloc: Global,
    job: &Job,
    held: &[u8],
    fleets: &[Fleet],
) -> bool {
    for fleet in fleets {
        if !reports(rt, alloc, job, held, fleet) {
            return false;
        }
    }
    true
}

/// The same beside the history of the machine.
pub fn fleets_report<R: Threads + Wait + Sync>(
    rt: &R,
    alloc: Global,
    machine: &Machine<'_>,
    fleets: &[Fleet],
) -> bool {
    match text_of(alloc, machine.history()) {
        Ok(held) => all_report(rt, alloc, machine.job(), held.as_slice(), fleets),
        Err(_) => false,
    }
}
