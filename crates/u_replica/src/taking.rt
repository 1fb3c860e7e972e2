//! Lists of firings that a machine takes in pieces, between which an onlooker is shown how far it has come.
ghost use Rattle.std.specs.Prelude.{◌+◌, ◌++◌, ◌≤◌, MatchResult, length};
ghost use Rattle.u_machine.specs.State.{State};
ghost use Rattle.u_machine.specs.Calls.{IsFresh};
ghost use Rattle.u_rule.specs.EntryOrder.{FiringList};
ghost use Rattle.u_replica.specs.Restoring.{refusal_behind};
ghost use Rattle.u_replica.specs.Takings.{TookFront, IsTaken, IsUntaken};

use crate::onlooker::Onlooker;
use u_machine::{ListRefusal, Machine};
use u_rule::Firing;

/// How many firings a piece has at most.
pub(crate) const PIECE: usize = 1_000;

/// Lets the machine take firings of the list from its front, in pieces, until one is refused or no more
/// are left than a piece has. Returns how many were taken so.
fn take_front<S: Onlooker>(machine: &mut Machine<'_>, firings: &[Firing], onlooker: &mut S) -> usize
    ensures front { (base : State) (before : FiringList)
        → TookFront base (before ++ firings.now) (length before) machine.old
        → TookFront base (before ++ firings.now) (length before + result) machine.new }
    ensures few { result ≤ length firings.now }
{
    let mut count = 0;
    while firings.len() - count > PIECE {
        if let Err(_) = machine.take_all(&firings[count..count + PIECE]) {
            return count;
        }
        count += PIECE;
        onlooker.see(machine);
    }
    count
}

/// Lets a machine that took those `before` them take the firings of the list, in pieces. Where a piece is
/// refused, it is asked to take all of them, so what is told is why the whole list is not taken.
pub(crate) fn take_behind<S: Onlooker>(
    machine: &mut Machine<'_>,
    firings: &[Firing],
    onlooker: &mut S,
) -> Result<(), ListRefusal>
    ensures { (base : State) (before : FiringList) → IsFresh base
        → TookFront base (before ++ firings.now) (length before) machine.old
        → MatchResult result
        (λ u. IsTaken base (before ++ firings.now) machine.new)
        (λ e. IsUntaken base (before ++ firings.now) (refusal_behind (length before) e)) }
{
    let count = take_front(machine, firings, onlooker);
    if let Ok(()) = machine.take_all(&firings[count..]) {
        return Ok(());
    }
    // Brings in what always holds.
    machine.holds();
    machine.take_all(firings)
}
