//! Eight seats of one board in threads of their own, which claim and release at random.
ghost use Rattle.std.specs.Prelude.{◌<◌};
ghost use Rattle.u_claims.specs.Seats.{IsSeatOf};

use rand_core::utils::NextWord;
use rand_pcg::Pcg32;
use std::alloc::{AllocError, Global};
use std::sync::atomic::AtomicU64;
use std::sync::atomic::Ordering::SeqCst;
use std::test::Fail;
use std::thread;
use u_claims::{Board, ClaimSeat, Claimed, Released};

/// How often each seat claims or releases a bucket: a million times all together.
const STEPS: usize = 125_000;

/// What the holders themselves write down, beside the board.
#[derive(Drop)]
struct Holders {
    /// For each bucket the number of the seat that says that it holds it, or 0.
    numbers: Vec<AtomicU64>,
    /// How often a seat found another number there than it had to.
    clashes: AtomicU64,
    /// How often a seat claimed a bucket.
    claims: AtomicU64,
}

impl Holders {
    /// Nobody holds a bucket.
    fn new(alloc: Global) -> Result<Holders, AllocError> {
        let mut numbers = Vec::with_capacity(alloc, 64)?;
        for _bucket in 0..64 {
            numbers.push(AtomicU64::new(0))?;
        }
        Ok(Holders {
            numbers,
            clashes: AtomicU64::new(0),
            claims: AtomicU64::new(0),
        })
    }

    /// The number of the bucket was `old`, and is `new` from now on.
    fn change(&self, bucket: u64, old: u64, new: u64) {
        let found = match self.numbers.get(bucket as usize) {
            Some(number) => number.swap(new, SeqCst),
            None => u64::MAX,
        };
        if found != old {
            self.clashes.fetch_add(1, SeqCst);
        }
    }

    /// Whether all went well, and nobody holds a bucket.
    fn is_over(&self) -> bool {
        self.clashes.load(SeqCst) == 0
            && self.claims.load(SeqCst) > 0
            && self.numbers.iter().all(|number| number.load(SeqCst) == 0)
    }
}

/// Releases the bucket where the seat holds it, and else claims it.
fn turn(board: &Board, seat: &mut ClaimSeat, bucket: u64, holders: &Holders)
    requires bucket { bucket < 64 }
    requires board { IsSeatOf board.now seat.old }
    ensures { IsSeatOf board.now seat.new }
{
    let number = u64::from(seat.number());
    if (seat.held() >> bucket) % 2 == 1 {
        holders.change(bucket, number, 0);
        if board.release(seat, bucket) == Released::NotMine {
            holders.clashes.fetch_add(1, SeqCst);
        }
    } else if board.claim(seat, bucket) == Claimed::Held {
        holders.claims.fetch_add(1, SeqCst);
        holders.change(bucket, 0, number);
    }
}

/// Takes the seat's numbers back, and releases all its buckets.
fn leave(board: &Board, seat: &mut ClaimSeat, holders: &Holders)
    requires { IsSeatOf board.now seat.old }
{
    for bucket in 0..64 {
        if (seat.held() >> bucket) % 2 == 1 {
            holders.change(bucket, u64::from(seat.number()), 0);
        }
    }
    board.release_all(seat);
}

/// Claims and releases buckets, at random by the seat's number, and releases all in the end.
fn play(board: &Board, seat: &mut ClaimSeat, holders: &Holders)
    requires { IsSeatOf board.now seat.old }
{
    let mut random = Pcg32::new(u64::from(seat.number()), 54);
    for _step in 0..STEPS {
        turn(board, seat, u64::from(random.next_word() % 64), holders);
    }
    leave(board, seat, holders);
}

#[test]
fn no_two_seats_hold_one_bucket(rt: HostRuntime) -> Result<(), Fail> {
    let (board, mut seats) = Board::new(rt.alloc(), 8)?;
    let holders = Holders::new(rt.alloc())?;
    thread::for_each_mut(
        &rt,
        seats.as_mut_slice(),
        8,
        &|_, seat| play(&board, seat, &holders),
    );
    assert!(rt; holders.is_over());
    assert!(rt; seats.iter().all(|seat| seat.held() == 0));
    Ok(())
}
