//! The first statement with a port that lacks one source.
//!
//! The statements are gone through once for each port, and of two breaches the earlier one is kept, so no
//! table has a column for each port.
ghost use Rattle.std.specs.Prelude.{◌≡◌, ℕ, ◌+◌, ◌-◌, ◌<◌, ◌≤◌, ◌↔◌, IsTrue, IfOk, length, slice_index_or};
ghost use Rattle.u_determinate.specs.Breaches.{PortsHaveOneSource, Asks, IsFirstFailing};
ghost use Rattle.u_determinate.specs.Tables.{is_one_source, has_one_source, first_of_both, AreSources, PortIsFed};

use crate::kinds::comes_from_outside;
use crate::rule::StrictRule;
use crate::sources::{Sources, sources_of};
use std::alloc::{AllocError, Global};
use u_check::ports_of;
use u_program::{Block, Kind, Statement};

/// The first number behind those of ports: a statement has five ports at most.
const BEHIND_PORTS: u8 = 6;

/// Whether the arcs to a port are one, or one from an `enter` and one from a `next`.
fn is_one_source(sources: Sources) -> bool
    ensures { result ≡ is_one_source sources }
{
    matches!(sources, Sources::One(_) | Sources::EnterAndNext)
}

/// Whether that port of a statement of the kind has one source, where these are its sources. A port
/// that the statement lacks, and one whose value comes from outside, needs none.
fn has_one_source(kind: &Kind, port: u8, sources: Sources) -> bool
    ensures { result ≡ has_one_source kind.now port sources }
{
    comes_from_outside(kind) || ports_of(kind) < usize::from(port) || is_one_source(sources)
}

/// The number of the first statement that has that port and lacks one source there.
fn first_at(port: u8, sources: &[Sources], statements: &[Statement]) -> Option<usize>
    requires { AreSources statements.now port sources.now }
    ensures { IsFirstFailing (PortIsFed statements.now port) result }
{
    for place in 0..statements.len() {
        if !has_one_source(statements[place].kind(), port, sources[place]) {
            return Some(place + 1);
        }
    }
    None
}

/// The earlier of two numbers, where there are any.
fn first_of_both(first: Option<usize>, second: Option<usize>) -> Option<usize>
    ensures { result ≡ first_of_both first second }
{
    match (first, second) {
        (None, _) => second,
        (Some(one), Some(other)) if other < one => second,
        _ => first,
    }
}

/// The number of the first statement of the block with a port that lacks one source.
///
/// # Errors
/// `AllocError` where there is no memory.
pub fn first_fed_amiss(alloc: Global, block: &Block) -> Result<Option<usize>, AllocError>
    ensures { IfOk result (IsFirstFailing (Asks StrictRule.OneSource block.now)) }
{
    let statements = block.statements();
    let mut first = None;
    for port in 1..BEHIND_PORTS {
        let sources = sources_of(alloc, statements, port)?;
        first = first_of_both(first, first_at(port, &sources, statements));
    }
    Ok(first)
}
