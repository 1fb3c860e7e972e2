//! Claimed work is done: ready firings in held buckets are fired.
//!
//! A bucket of the share is left only to another seat (`LeavesToOthers`). Without this a body that claims
//! nothing, and so fires nothing, would keep the contract.
ghost use Rattle.std.specs.Prelude.{◌≡◌, IfErr};
ghost use Rattle.u_claims.specs.Answers.{HoldsNone};
ghost use Rattle.u_claims.specs.Seats.{view_of, IsSeatOf};
ghost use Rattle.u_replica.specs.ReplicaState.{ChangesMachine};
ghost use Rattle.u_fleet.specs.Gains.{Gains, MayBeFull};
ghost use Rattle.u_fleet.specs.Shares.{KeepsNumber, ClaimsBelow};
ghost use Rattle.u_fleet.specs.Working.{FireHeldAnswer, WorkAnswer};

use crate::answer::{Work, WorkFault};
use u_claims::{Board, ClaimSeat};
use u_machine::{Refusal, StepIn};
use u_replica::Replica;

/// Claims each bucket of the mask that no other seat holds.
fn claim_share(board: &Board, seat: &mut ClaimSeat, share: u64)
    requires { IsSeatOf board.now seat.old }
    ensures board { IsSeatOf board.now seat.new }
    ensures number { KeepsNumber (view_of seat.old) (view_of seat.new) }
    ensures claims { ClaimsBelow 64 share (view_of seat.old) (view_of seat.new) }
{
    for bucket in 0..64 {
        if (share >> bucket) % 2 == 1 {
            board.claim(seat, bucket);
        }
    }
}

/// Fires ready firings whose bucket is in the mask, the least first, until none is there or `budget`
/// were fired.
fn fire_held(replica: &mut Replica<'_>, held: u64, budget: usize) -> Result<Work, WorkFault>
    ensures answer { FireHeldAnswer replica.old.machine held budget result replica.new.machine }
    ensures alone { ChangesMachine replica.old replica.new }
{
    for fired in 0..budget {
        match replica.fire_in(held, 0) {
            Ok(StepIn::Fired(_)) => {}
            Ok(StepIn::Quiet) => return Ok(Work { held, fired }),
            Ok(StepIn::Elsewhere) => return Ok(Work { held, fired }),
            Err(Refusal::Full) => return Err(WorkFault::Full),
            Err(Refusal::NoMemory) => return Err(WorkFault::NoMemory),
        }
    }
    Ok(Work {
        held,
        fired: budget,
    })
}

/// Claims the buckets of the mask `share`, in which bit b stands for bucket b; fires ready firings
/// whose bucket is held and in the mask, the least first, until none is ready there or `budget` were
/// fired; and releases all that the seat holds. The seat is one of the board's. A bucket that another
/// seat holds is passed over, and nothing is waited for.
///
/// Promise work: each firing is the least of those in held buckets that are ready then, and at most `budget`
/// are fired.
///
/// Promise what-work-leaves: the seat holds nothing afterwards, and if fewer than `budget` were fired,
/// nothing that is ready is in a bucket that was held.
///
/// # Errors
/// `Full` where a firing is ready in a held bucket and the replica has taken as many as it may.
/// `NoMemory` where there is no memory. What was fired before stays fired, and the seat holds nothing.
pub fn work(
    replica: &mut Replica<'_>,
    board: &Board,
    seat: &mut ClaimSeat,
    share: u64,
    budget: usize,
) -> Result<Work, WorkFault>
    requires { IsSeatOf board.now seat.old }
    ensures board { IsSeatOf board.now seat.new }
    ensures empty { HoldsNone (view_of seat.old) (view_of seat.new) }
    ensures answer { WorkAnswer (view_of seat.old) share budget
        replica.old.machine result replica.new.machine }
    ensures alone { ChangesMachine replica.old replica.new }
    ensures gains { Gains replica.old.machine replica.new.machine }
    ensures full { IfErr result (λ e. e ≡ WorkFault.Full → MayBeFull replica.old.machine) }
{
    claim_share(board, seat, share);
    let held = seat.held() & share;
    let done = fire_held(replica, held, budget);
    board.release_all(seat);
    // Brings in what always holds.
    replica.holds();
    done
}
