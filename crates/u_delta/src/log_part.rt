//! The part of a log that a peer lacks.
ghost use Rattle.std.specs.Prelude.{◌≡◌, IfOk, take};
ghost use Rattle.u_delta.specs.Marks.{most_firings, starts_at, IsDelta};

use crate::firings::Firings;
use crate::message::{Delta, Mark};
use std::alloc::{AllocError, Global};
use u_rule::Firing;

/// Where the part begins: behind the firings of the mark, if it is of this life and the log has
/// them.
fn start_of(log: &[Firing], life: u64, mark: Mark) -> usize
    ensures { result ≡ starts_at log.now life mark }
{
    let len = log.len() as u64;
    if mark.life == life && mark.count <= len {
        mark.count as usize
    } else {
        0
    }
}

/// How many firings a delta has at most.
#[tactic(auto, unfolding(crate::specs::Marks::most_firings))]
fn most() -> usize
    ensures { result ≡ most_firings }
{
    4096
}

/// The first firings, as many as a delta may have.
#[tactic(auto, using(crate::proofs::DeltaLaws::long_part, crate::proofs::DeltaLaws::short_part))]
fn first_firings(firings: &[Firing]) -> &[Firing]
    ensures { result.now ≡ take most_firings firings.now }
{
    let most = most();
    if firings.len() > most {
        &firings[..most]
    } else {
        firings
    }
}

/// Returns the delta of the sender's log for a receiver that has what the mark says.
///
/// Promise deltas: it brings the log from the mark on, or from the front if the mark is of another life or
/// beyond the log, at most 4096 firings.
///
/// # Errors
/// `AllocError` where there is no memory.
pub fn delta(
    alloc: Global,
    log: &[Firing],
    sender: u8,
    receiver: u8,
    life: u64,
    mark: Mark,
) -> Result<Delta, AllocError>
    ensures { IfOk result (λ d. IsDelta log.now sender receiver life mark d) }
{
    let start = start_of(log, life, mark);
    let firings = Firings::copied(alloc, first_firings(&log[start..]))?;
    Ok(Delta {
        sender,
        receiver,
        life,
        start: start as u64,
        firings,
    })
}
