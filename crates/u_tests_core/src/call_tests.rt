//! Calls of two seats of one board, one after another, and buckets of names.
ghost use Rattle.u_claims.specs.Seats.{IsSeatOf};

use std::test::Fail;
use u_claims::{Board, ClaimSeat, Claimed, Released, bucket_of};
use u_name::Name;

/// Whether a bucket goes from the first seat to the second.
fn goes_over(board: &Board, one: &mut ClaimSeat, two: &mut ClaimSeat) -> bool
    requires one { IsSeatOf board.now one.old }
    requires two { IsSeatOf board.now two.old }
    ensures one { IsSeatOf board.now one.new }
    ensures two { IsSeatOf board.now two.new }
{
    board.claim(one, 7) == Claimed::Held
        && board.claim(one, 7) == Claimed::Held
        && board.claim(two, 7) == Claimed::Busy(1)
        && board.release(two, 7) == Released::NotMine
        && board.release(one, 7) == Released::Done
        && board.claim(two, 7) == Claimed::Held
}

/// Whether the second seat gives back all that it holds, which is free then.
fn gives_back(board: &Board, one: &mut ClaimSeat, two: &mut ClaimSeat) -> bool
    requires one { IsSeatOf board.now one.old }
    requires two { IsSeatOf board.now two.old }
{
    let both = board.claim(two, 0) == Claimed::Held && board.claim(two, 63) == Claimed::Held;
    let held = two.held();
    board.release_all(two);
    both && held == (1 << 63) + (1 << 7) + 1
        && two.held() == 0
        && board.claim(one, 63) == Claimed::Held
        && one.held() == 1 << 63
}

/// Whether both seats answer as they have to.
fn answer_rightly(board: &Board, one: &mut ClaimSeat, two: &mut ClaimSeat) -> bool
    requires one { IsSeatOf board.now one.old }
    requires two { IsSeatOf board.now two.old }
{
    one.number() == 1
        && two.number() == 2
        && goes_over(board, one, two)
        && gives_back(board, one, two)
}

#[test]
fn two_seats_answer_in_turn(rt: HostRuntime) -> Result<(), Fail> {
    let (board, mut seats) = Board::new(rt.alloc(), 2)?;
    let two = seats.pop();
    let one = seats.pop();
    let (Some(mut one), Some(mut two)) = (one, two) else {
        return Err(Fail::from("there are not two seats"));
    };
    assert!(rt; answer_rightly(&board, &mut one, &mut two));
    Ok(())
}

#[test]
fn a_bucket_is_a_sum(rt: HostRuntime) -> Result<(), Fail> {
    for (text, bucket) in [("((-.main.3.1).fact.7.1).rec.5.1", 8), ("-.main.60.4", 0)] {
        let name = Name::read(rt.alloc(), text.as_bytes())?;
        assert!(rt; bucket_of(&name) == bucket, "{text}");
    }
    Ok(())
}
