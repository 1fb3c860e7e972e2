//! Where entries meet: tokens at the ports of an activity, and reads with writes at a cell.
ghost use Rattle.std.specs.Prelude.{◌≡◌, ◌≤◌, IfOk, Contains, length};
ghost use Rattle.u_rule.specs.Parts.{most_ports};
ghost use Rattle.u_sets.specs.Members.{AreThose};
ghost use Rattle.u_sets.specs.Columns.{MayNumber};
ghost use Rattle.u_match.specs.Keys.{IsMet, AreMetFrom, lent_lists};
ghost use Rattle.u_match.specs.ReadOrder.{read_ties};

use std::alloc::{AllocError, Global};
use std::slice;
use u_base::ExactOrd;
use u_history::NumberedHistory;
use u_name::Name;
use u_names::CellSet;
use u_rule::TokenRef;
use u_value::Value;

/// A read of a cell, which waits for the cell's writes: an activity, with the structure and the index
/// that stand at its first two ports.
#[derive(PartialEq, Eq, PartialOrd, Ord, Hash, Drop)]
pub(crate) struct Read {
    /// The activity that reads.
    pub activity: Name,
    /// The structure.
    pub structure: Value,
    /// The index.
    pub index: Value,
}

impl ExactOrd for Read {
    ghost exact = { read_ties };
}

/// The reads that wait for each cell, each once.
pub(crate) type Reads = CellSet<Read>;

/// The values that the token meets at that port of its activity, which has the number.
pub(crate) fn met_at<'a>(
    history: &'a NumberedHistory,
    number: usize,
    token: &'a TokenRef<'a>,
    port: u8,
) -> &'a [Value]
    requires { MayNumber history.now.names token.now.activity number }
    ensures { AreThose (IsMet (Contains history.now.entries) token.now port) result.now }
{
    if token.port() == port {
        return slice::from_ref(token.value());
    }
    history.values_of(number, port)
}

/// The values that the token meets at each of the first ports of its activity, which has the number; of
/// so many ports.
#[inline(never)]
pub(crate) fn met_at_each<'a>(
    alloc: Global,
    history: &'a NumberedHistory,
    number: usize,
    token: &'a TokenRef<'a>,
    ports: usize,
) -> Result<Vec<&'a [Value]>, AllocError>
    requires number { MayNumber history.now.names token.now.activity number }
    requires ports { ports ≤ most_ports }
    ensures each { IfOk result
        (λ v. AreMetFrom (Contains history.now.entries) token.now 1 (lent_lists v.items)) }
    ensures count { IfOk result (λ v. length v.items ≡ ports) }
{
    let mut lists = Vec::with_capacity(alloc, ports)?;
    for place in 0..ports {
        lists.push(met_at(history, number, token, place as u8 + 1))?;
    }
    Ok(lists)
}
