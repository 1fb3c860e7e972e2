//! What is done on a board: numbers are drawn, and buckets claimed and released.
//!
//! No clause sees a board's words, since another thread may change them at any moment. So no contract says
//! that a bucket is free, that a claim of a free one is won, or that the owner in `Busy` still holds it.
ghost use Rattle.std.specs.Prelude.{◌≡◌, ◌<◌, ◌≤◌, ◌+◌, [], IfOk, All, vec_len};
ghost use Rattle.u_name.specs.Context.{IsBetween};
ghost use Rattle.u_claims.specs.Held.{newcomer, has_bucket, IsMaskOf};
ghost use Rattle.u_claims.specs.Seats.{view_of, IsSeatOf, IsFresh, AreNumbered};
ghost use Rattle.u_claims.specs.Answers.{ClaimAnswer, ReleaseAnswer, HoldsNone};

use crate::answer::{BoardError, Claimed, Released};
use crate::mask::{is_in, with, without};
use crate::rule::{Claims, Draws, Hand, Releases, Twice};
use crate::seats::{Board, ClaimSeat};
use atomic_table::{Seat, Table};
use std::alloc::{AllocError, Global};

/// A board, and a seat that has no number.
fn open(alloc: Global, seats: u64) -> Result<(Board, Seat<(), Hand>), AllocError>
    requires { seats ≤ 8 }
    ensures board { IfOk result (λ r. r.0.table.shared.key ≡ seats) }
    ensures seat { IfOk result (λ r. r.1.table_id ≡ r.0.table.shared.table_id) }
    ensures new { IfOk result (λ r. r.1.me ≡ (newcomer seats, [])) }
{
    let words = [0u64; 65];
    let (table, first) = Table::of_words(alloc, words.as_slice(), &seats)?;
    Ok((Board { table }, first))
}

/// Draws the next number for a seat that has none.
fn draw(board: &Board, mut seat: Seat<(), Hand>, drawn: u64) -> Result<ClaimSeat, BoardError>
    requires board { seat.table_id ≡ board.now.table.shared.table_id }
    requires new { seat.me ≡ (newcomer board.now.table.shared.key, []) }
    requires room { drawn < board.now.table.shared.key }
    ensures board { IfOk result (IsSeatOf board.now) }
    ensures new { IfOk result (IsFresh board.now.table.shared.key (drawn + 1)) }
{
    let number = drawn + 1;
    let found = board
        .table
        .shared
        .compare_exchange::<Draws>(&mut seat, 64, drawn, number);
    if found != drawn {
        return Err(BoardError::NoSeat);
    }
    Ok(ClaimSeat {
        seat,
        number,
        held: 0,
    })
}

/// So many seats, each split from the first and with a number of its own.
fn number_all(
    alloc: Global,
    board: &Board,
    mut first: Seat<(), Hand>,
    seats: u64,
) -> Result<Vec<ClaimSeat>, BoardError>
    requires seats { board.now.table.shared.key ≡ seats }
    requires board { first.table_id ≡ board.now.table.shared.table_id }
    requires new { first.me ≡ (newcomer seats, []) }
    ensures len { IfOk result (λ all. vec_len all ≡ seats) }
    ensures board { IfOk result (λ all. All (IsSeatOf board.now) all.items) }
    ensures numbers { IfOk result (λ all. AreNumbered seats all.items) }
{
    let mut all = Vec::new(alloc);
    for drawn in 0..seats {
        let seat = board.table.shared.split_seat::<Twice>(&mut first);
        all.push(draw(board, seat, drawn)?)?;
    }
    Ok(all)
}

impl Board {
    /// A board, and that number of seats of it, 1 to 8. The bounds are this project's profile.
    ///
    /// Promise new-board: its seats are numbered 1, 2, and so on in order, and no bucket is held.
    ///
    /// # Errors
    /// `NoSeat` where the exchange that draws a number is not won, which nobody else could win;
    /// `NoMemory` where there is no memory.
    pub fn new(alloc: Global, seats: u8) -> Result<(Board, Vec<ClaimSeat>), BoardError>
        requires { IsBetween 1 seats 8 }
        ensures len { IfOk result (λ r. vec_len r.1 ≡ seats) }
        ensures board { IfOk result (λ r. All (IsSeatOf r.0) r.1.items) }
        ensures numbers { IfOk result (λ r. AreNumbered seats r.1.items) }
    {
        let count = u64::from(seats);
        let (board, first) = open(alloc, count)?;
        let all = number_all(alloc, &board, first, count)?;
        Ok((board, all))
    }

    /// Claims the bucket, 0 to 63, for a seat of this board: by one compare-and-exchange, or by none
    /// where the seat holds the bucket already. It takes no memory and waits for nobody.
    ///
    /// Promise claim: after `Held` the seat holds the bucket besides what it held; after `Busy` it holds what
    /// it held, and the number is another seat's.
    pub fn claim(&self, seat: &mut ClaimSeat, bucket: u64) -> Claimed
        requires bucket { bucket < 64 }
        requires board { IsSeatOf self.now seat.old }
        ensures board { IsSeatOf self.now seat.new }
        ensures answer { ClaimAnswer (view_of seat.old) bucket result (view_of seat.new) }
    {
        if seat.has(bucket) {
            return Claimed::Held;
        }
        let word = bucket as usize;
        let found = self
            .table
            .shared
            .compare_exchange::<Claims>(&mut seat.seat, word, 0, seat.number);
        if found == 0 {
            seat.held = with(seat.held, bucket);
            return Claimed::Held;
        }
        Claimed::Busy(found as u8)
    }

    /// Releases the bucket, 0 to 63, where this seat of the board holds it: by one
    /// compare-and-exchange. It takes no memory and waits for nobody.
    ///
    /// Promise release: `Done` is returned exactly if the seat held the bucket, and then it no longer does;
    /// `NotMine` changes nothing.
    pub fn release(&self, seat: &mut ClaimSeat, bucket: u64) -> Released
        requires bucket { bucket < 64 }
        requires board { IsSeatOf self.now seat.old }
        ensures board { IsSeatOf self.now seat.new }
        ensures answer { ReleaseAnswer (view_of seat.old) bucket result (view_of seat.new) }
    {
        if !seat.has(bucket) {
            return Released::NotMine;
        }
        let word = bucket as usize;
        self.table
            .shared
            .compare_exchange::<Releases>(&mut seat.seat, word, seat.number, 0);
        seat.held = without(seat.held, bucket);
        Released::Done
    }

    /// Releases each bucket that this seat of the board holds, one compare-and-exchange after
    /// another.
    ///
    /// Promise release-all: the seat holds no bucket afterwards, and has its number.
    pub fn release_all(&self, seat: &mut ClaimSeat)
        requires board { IsSeatOf self.now seat.old }
        ensures board { IsSeatOf self.now seat.new }
        ensures empty { HoldsNone (view_of seat.old) (view_of seat.new) }
    {
        for bucket in 0..64 {
            self.release(seat, bucket);
        }
    }
}

impl ClaimSeat {
    /// The number of the seat, 1 to 8.
    ///
    /// Promise numbers-differ: no two seats of a board have one number.
    pub fn number(&self) -> u8
        ensures value { result ≡ (view_of self.now).number }
        ensures bounds { IsBetween 1 result 8 }
    {
        self.number as u8
    }

    /// The buckets that the seat holds, as a mask in which bit b stands for bucket b.
    pub fn held(&self) -> u64
        ensures { IsMaskOf result (view_of self.now) }
    {
        self.held
    }

    /// Whether the seat holds the bucket.
    fn has(&self, bucket: u64) -> bool
        requires { bucket < 64 }
        ensures { result ≡ has_bucket (view_of self.now) bucket }
    {
        is_in(self.held, bucket)
    }
}
