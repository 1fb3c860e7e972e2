//! The rule of a board's words and seats, and its kinds of step.
use atomic_table::{Play, Split, TableRule};

/// What a seat knows: how many seats the board has, its own number, or 0 before one is drawn, and
/// for each bucket whether it holds it. Only proofs speak of such a view; none is ever made.
pub struct Hand {
    pub seats: u64,
    pub number: u64,
    // A clause reads an array as a list, of any length. This one has 64 members.
    pub held: [bool; 0],
}

/// The rule: a bucket's word is a seat's number exactly where that seat holds the bucket.
pub struct Holding;

impl TableRule<(), Hand, u64> for Holding {
    ghost use Rattle.u_claims.specs.Held.{IsBoard, newcomer};

    ghost holds = { IsBoard };

    ghost first = { newcomer };
}

/// Splits a seat that has no number into two such seats.
pub struct Twice;

impl Split<Hand> for Twice {
    ghost left = { λ v. v };

    ghost right = { λ v. v };
}

/// Draws a number.
pub struct Draws;

impl Play<(), Hand> for Draws {
    ghost use Rattle.u_claims.specs.Held.{DrawsNumber};

    ghost then = { DrawsNumber };
}

/// Claims a bucket.
pub struct Claims;

impl Play<(), Hand> for Claims {
    ghost use Rattle.u_claims.specs.Held.{ClaimsBucket};

    ghost then = { ClaimsBucket };
}

/// Releases a bucket.
pub struct Releases;

impl Play<(), Hand> for Releases {
    ghost use Rattle.u_claims.specs.Held.{ReleasesBucket};

    ghost then = { ReleasesBucket };
}
