//! Runs in pieces, between which a watch is told how far they have come.
//!
//! A piece has 1,000 firings, since one may be dear; a piece costs one look at the clock.
ghost use Rattle.std.specs.Prelude.{◌≡◌, ◌≤◌};
ghost use Rattle.u_machine.specs.Calls.{IsFresh, RunAnswer, RunsPlainly};

use crate::watch::{Watch, show};
use u_machine::{Machine, Ran, Refusal};

/// How many firings a piece of a run has at most.
const PIECE: usize = 1_000;

/// Lets the machine fire so many times at most, in pieces.
fn run_pieces<V: Watch>(
    machine: &mut Machine<'_>,
    firings: usize,
    watch: &mut V,
) -> Result<Ran, Refusal>
    ensures { RunAnswer machine.old firings result machine.new }
{
    let mut left = firings;
    while left > PIECE {
        match machine.run(PIECE) {
            Ok(Ran::Paused) => {}
            Ok(Ran::Quiet) => return Ok(Ran::Quiet),
            Err(refusal) => return Err(refusal),
        }
        left -= PIECE;
        show(machine, watch);
    }
    machine.run(left)
}

/// Lets the machine fire so many times at most, the least ready firing each time, as its `run` does. The
/// watch is asked after each 1,000 firings whether it is to be told how many there are.
pub(crate) fn run_watched<V: Watch>(
    machine: &mut Machine<'_>,
    firings: usize,
    watch: &mut V,
) -> Result<Ran, Refusal>
    ensures answer { RunAnswer machine.old firings result machine.new }
    ensures plain { IsFresh machine.old → RunsPlainly machine.old firings result machine.new }
{
    let ran = run_pieces(machine, firings, watch);
    // Brings in what always holds.
    machine.holds();
    ran
}
