//! What a seat works on while another seat holds a bucket, and once it doesn't.
ghost use Rattle.u_claims.specs.Seats.{IsSeatOf};

use std::alloc::Global;
use std::test::Fail;
use u_check::Job;
use u_claims::{Board, ClaimSeat, Claimed, Released};
use u_fleet::{Work, work};
use u_plain::examples::{SUM, job};
use u_replica::Replica;

/// The mask of bucket 2, which the first firing of the sum is in, and the two after it are not.
const SHARE: u64 = 1 << 2;

/// Whether the seat's work in that bucket holds those buckets, and fires that number of firings.
fn does(
    replica: &mut Replica<'_>,
    board: &Board,
    seat: &mut ClaimSeat,
    held: u64,
    fired: usize,
) -> bool
    requires { IsSeatOf board.now seat.old }
    ensures { IsSeatOf board.now seat.new }
{
    work(replica, board, seat, SHARE, 9) == Ok(Work { held, fired })
}

/// Whether the first seat's work waits until the second seat releases the bucket, and leaves it free.
fn waits_in_turn(
    replica: &mut Replica<'_>,
    board: &Board,
    one: &mut ClaimSeat,
    two: &mut ClaimSeat,
) -> bool
    requires one { IsSeatOf board.now one.old }
    requires two { IsSeatOf board.now two.old }
{
    board.claim(two, 2) == Claimed::Held
        && does(replica, board, one, 0, 0)
        && board.release(two, 2) == Released::Done
        && does(replica, board, one, SHARE, 1)
        && board.claim(two, 2) == Claimed::Held
}

/// The same with a new replica of the job. Without memory the result is false.
fn waits_with_new(
    alloc: Global,
    job: &Job,
    board: &Board,
    one: &mut ClaimSeat,
    two: &mut ClaimSeat,
) -> bool
    requires one { IsSeatOf board.now one.old }
    requires two { IsSeatOf board.now two.old }
{
    match Replica::new(alloc, job, 100, 1) {
        Ok(mut replica) => waits_in_turn(&mut replica, board, one, two),
        Err(_) => false,
    }
}

/// The same with the two seats of a new board.
fn waits_on_board(alloc: Global, job: &Job) -> bool {
    let Ok((board, mut seats)) = Board::new(alloc, 2) else {
        return false;
    };
    let two = seats.pop();
    let one = seats.pop();
    match (one, two) {
        (Some(mut one), Some(mut two)) => waits_with_new(alloc, job, &board, &mut one, &mut two),
        _ => false,
    }
}

#[test]
fn work_passes_over_what_another_seat_holds(rt: HostRuntime) -> Result<(), Fail> {
    let job = job(rt.alloc(), SUM, 3)?;
    assert!(rt; waits_on_board(rt.alloc(), &job));
    Ok(())
}
