//! The command `fleet`.
//!
//! No gate stops a worker here, so the report is that of `run`. The budget of 100 firings a round and the
//! limit of 100,000 are this project's.
ghost use Rattle.std.specs.Prelude.{◌≡◌, ◌≤◌, MatchResult};
ghost use Rattle.u_name.specs.Context.{IsBetween};
ghost use Rattle.u_fleet.specs.Plans.{IsPlan};
ghost use Rattle.u_cli.specs.Fleets.{fleet_plan, fleet_fault, TellsFleet, FleetRefused};

use std::alloc::Global;
use std::sync::Wait;
use std::thread::Threads;
use u_check::Job;
use u_commands::{CommandError, Told, report_of};
use u_fleet::{Always, FleetFault, FleetPlan, run_fleet};
use u_history::Ending;

/// How many firings a worker of a fleet makes in a round at most.
pub const FLEET_BUDGET: usize = 100;

/// How many firings a worker of a fleet takes at most.
pub const FLEET_FIRINGS: usize = 100_000;

/// The plan of a fleet of so many workers, each of which has so many rounds.
fn plan_of(workers: u8, rounds: u32) -> FleetPlan
    requires workers { IsBetween 1 workers 8 }
    requires rounds { rounds ≤ 1000 }
    ensures is { result ≡ fleet_plan workers rounds }
    ensures plan { IsPlan result }
{
    FleetPlan {
        workers,
        rounds,
        budget: FLEET_BUDGET,
        limit: FLEET_FIRINGS,
    }
}

/// The fault that is told of a fleet without a report.
fn fault_of(fault: FleetFault) -> CommandError
    ensures { result ≡ fleet_fault fault }
{
    match fault {
        FleetFault::NoThread => CommandError::NoThread,
        FleetFault::NoReader => CommandError::NoReader,
        FleetFault::Full => CommandError::Full,
        FleetFault::NoMemory => CommandError::NoMemory,
    }
}

/// The report of a machine that took all that a fleet of so many workers published, each in a thread of its own. It
/// is the report that `run` tells, and does not depend on `workers`, which is 1 to 8, nor on `rounds`, which is at
/// most 1,000: how many rounds a worker has, of 100 firings each at most, before its last run. A worker takes
/// 100,000 firings at most. The exit status is that of `run`. It may wait.
///
/// Promise fleet-command: the report is quiet and of the whole history, whatever the workers, the rounds and
/// the schedule.
///
/// # Errors
/// `Full` if the job has more than 100,000 firings; `NoThread` and `NoReader` if the runtime has no thread, or a
/// published log no place for a reader; `NoMemory`.
pub fn fleet<R: Threads + Wait + Sync>(
    rt: &R,
    alloc: Global,
    job: &Job,
    workers: u8,
    rounds: u32,
) -> Result<Told, CommandError>
    requires workers { IsBetween 1 workers 8 }
    requires rounds { rounds ≤ 1000 }
    ensures { MatchResult result
        (λ t. TellsFleet job.now workers rounds t.text.items t.status)
        (λ fault. FleetRefused job.now fault) }
{
    let plan = plan_of(workers, rounds);
    let report = match run_fleet(rt, alloc, job, &plan, &Always) {
        Ok(report) => report,
        Err(fault) => return Err(fault_of(fault)),
    };
    // Brings in that it is a machine, which took each firing once.
    report.machine.holds();
    match report_of(alloc, &report.machine, Ending::Quiet) {
        Ok(told) => Ok(told),
        Err(_) => Err(CommandError::NoMemory),
    }
}
