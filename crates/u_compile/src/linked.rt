//! Which ports the links of a graph lead to.
ghost use Rattle.std.specs.Prelude.{◌≡◌, ◌≤◌, IsTrue};
ghost use Rattle.u_check.specs.Kinds.{comes_from_outside};
ghost use Rattle.u_compile.specs.Graphs.{link};
ghost use Rattle.u_compile.specs.Scoped.{IsOf};
ghost use Rattle.u_compile.specs.Placed.{IsAlone, IsLinked, AreLinked, IsFull};

use crate::graph::{Draft, Link, Output};
use u_check::ports_of;
use u_program::{Destination, Kind};

/// Whether the output leads to the port.
#[tactic(auto, using(crate::proofs::Links::same_is))]
pub fn leads(links: &[Link], from: Output, to: Destination) -> bool
    ensures { IsTrue result → IsOf links.now (link from to.statement to.port) }
{
    let mut rest = links;
    while let Some((link, others)) = rest.split_first() {
        if link.from.is(from) && link.to.statement == to.statement && link.to.port == to.port {
            return true;
        }
        rest = others;
    }
    false
}

/// Whether no other output leads to the port.
#[tactic(auto, using(crate::proofs::PlacedTests::alone_more, crate::proofs::Links::same_is))]
pub fn leads_alone(links: &[Link], from: Output, to: Destination) -> bool
    ensures { IsTrue result → IsAlone links.now from to }
{
    let mut rest = links;
    while let Some((link, others)) = rest.split_first() {
        if link.to.statement == to.statement && link.to.port == to.port && !link.from.is(from) {
            return false;
        }
        rest = others;
    }
    true
}

/// Whether the value of a statement of the kind comes from outside: from a call of its block, or from one that it made.
pub fn comes_from_outside(kind: &Kind) -> bool
    ensures { result ≡ comes_from_outside kind.now }
{
    matches!(kind, Kind::Begin | Kind::Param(_) | Kind::Back)
}

/// Whether some output leads to the port.
fn is_linked(links: &[Link], statement: u16, port: u8) -> bool
    ensures { IsTrue result → IsLinked links.now statement port }
{
    let mut rest = links;
    while let Some((link, others)) = rest.split_first() {
        if link.to.statement == statement && link.to.port == port {
            return true;
        }
        rest = others;
    }
    false
}

/// Whether so many ports of the statement are linked, of at most 5.
fn are_linked(links: &[Link], statement: u16, ports: usize) -> bool
    requires { ports ≤ 5 }
    ensures { IsTrue result → AreLinked links.now statement ports }
{
    let mut port: u8 = 1;
    while port as usize <= ports {
        if !is_linked(links, statement, port) {
            return false;
        }
        port += 1;
    }
    true
}

/// Whether each port of the statement is linked, unless its value comes from outside.
#[tactic(auto, using(crate::proofs::Links::at_most_five))]
pub fn is_full(links: &[Link], statement: u16, draft: &Draft) -> bool
    ensures { IsTrue result → IsFull links.now statement draft.now }
{
    let kind = draft.kind();
    if comes_from_outside(&kind) {
        return true;
    }
    are_linked(links, statement, ports_of(&kind))
}
