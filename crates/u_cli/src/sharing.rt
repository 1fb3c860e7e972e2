//! The command `share`.
ghost use Rattle.std.specs.Prelude.{◌≡◌, ◌≤◌, MatchResult};
ghost use Rattle.u_share.specs.Headline.{streams};
ghost use Rattle.u_cli.specs.Shares.{most_shared, share_fault, IsShared, IsNotShared};

use std::alloc::Global;
use std::io::{Read, Write};
use u_check::Job;
use u_commands::{CommandError, Told, report_of};
use u_history::Ending;
use u_share::{Bus, Plan, ShareFault};

/// How many firings a member takes at most.
pub const SHARED_FIRINGS: usize = 1_000_000;

/// How a member takes part that fires so many firings at most between two reads.
pub fn member_plan(burst: usize, follows: bool) -> Plan
    ensures limit { result.limit ≡ most_shared }
    ensures burst { result.burst ≡ burst }
    ensures follows { result.follows ≡ follows }
{
    Plan {
        limit: SHARED_FIRINGS,
        burst,
        follows,
    }
}

/// The fault that is told of a member that ends before its report.
fn fault_of(fault: ShareFault) -> CommandError
    ensures { result ≡ share_fault fault }
{
    match fault {
        ShareFault::Full => CommandError::Full,
        ShareFault::NotReadable => CommandError::NotReadable,
        ShareFault::NotWritten => CommandError::NotWritten,
        ShareFault::NoMemory => CommandError::NoMemory,
    }
}

/// Takes part in a run of the job, with others who read what this member writes to the bus, and write what it reads: a
/// line for each firing. Any line may be late, repeated or lost, and a line that is no firing of the job is told of
/// and skipped. Tells the report of `run`, which is quiet. The exit status is that of `run`. It may wait for the
/// reader.
///
/// Promise share-command: the report is quiet and whole, of a machine that took exactly the firings of the
/// job among the lines and those that it printed.
///
/// # Errors
/// `Full` if a firing has no room; `NotReadable` if the bus can't be read; `NotWritten` if it takes no more;
/// `NoMemory`. What was written before stands.
pub fn share<R: Read, W: Write, N: Write>(
    alloc: Global,
    job: &Job,
    plan: Plan,
    bus: &mut Bus<R, W, N>,
) -> Result<Told, CommandError>
    requires { plan.limit ≤ 1000000 }
    ensures { MatchResult result
        (λ t. IsShared job.now plan.limit
        (streams (R.remaining bus.old.reader) (W.contents bus.old.writer)
        (N.contents bus.old.notices))
        t.text.items t.status
        (streams (R.remaining bus.new.reader) (W.contents bus.new.writer)
        (N.contents bus.new.notices)))
        (λ fault. IsNotShared job.now plan.limit
        (streams (R.remaining bus.old.reader) (W.contents bus.old.writer)
        (N.contents bus.old.notices))
        fault
        (streams (R.remaining bus.new.reader) (W.contents bus.new.writer)
        (N.contents bus.new.notices))) }
{
    let (machine, _) = match u_share::share(alloc, job, plan, bus) {
        Ok(shared) => shared,
        Err(fault) => return Err(fault_of(fault)),
    };
    // Brings in that it is a machine, which took each firing once.
    machine.holds();
    match report_of(alloc, &machine, Ending::Quiet) {
        Ok(told) => Ok(told),
        Err(_) => Err(CommandError::NoMemory),
    }
}
