//! A board and its seats.
//!
//! A seat keeps its buckets as a mask, so asking takes no step. Seats are never joined, and one that is
//! dropped keeps its buckets: nobody else can release them. The contracts of the calls stand in another
//! file, since a struct with ghost fields imports all that its file cites.
ghost use Rattle.std.specs.Prelude.{◌≡◌, ◌≤◌, [], length};
ghost use Rattle.u_name.specs.Context.{IsBetween};
ghost use Rattle.u_claims.specs.Held.{IsMaskOf};

use crate::rule::{Hand, Holding};
use atomic_table::{Seat, Table};
use std::alloc::Global;

/// 64 buckets, numbered from 0. Threads share a board by reference. It is made with its seats, and has no
/// others.
///
/// Promise no-two-hold-a-bucket: at every moment at most one seat holds a bucket, for any number of threads
/// and in any order of their calls.
#[derive(Drop)]
pub struct Board {
    pub(crate) table: Table<(), Hand, u64, Holding, Global>,
    // 64 words for the buckets, and one that counts the numbers that were drawn.
    ghost wide: { table.shared.table_id.words ≡ 65 },
    ghost few: { table.shared.key ≤ 8 },
}

/// A seat of a board: what claims and releases its buckets. One thread has it at a time. The
/// buckets of a seat that is dropped stay held by it.
#[derive(Drop)]
pub struct ClaimSeat {
    pub(crate) seat: Seat<(), Hand>,
    pub(crate) number: u64,
    pub(crate) held: u64,
    ghost bare: { seat.me.1 ≡ [] },
    ghost few: { seat.me.0.seats ≤ 8 },
    ghost numbered: { IsBetween 1 number 8 },
    ghost number_known: { seat.me.0.number ≡ number },
    ghost wide: { length seat.me.0.held ≡ 64 },
    ghost held_known: { IsMaskOf held seat.me.0 },
}
