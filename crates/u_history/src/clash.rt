//! Clashes: cells with several writes, and ports with several values.
//!
//! By Arvind and Nikhil (1990) a cell is written once, and a second write is an error. Here both
//! stay in the history, which says that they clash, and so with ports: this project's profile.
ghost use Rattle.std.specs.Prelude.{◌≡◌, ◌<◌, ◌+◌, ◌-◌, ◌↔◌, ◌⊎◌, OnOk, IfOk, Contains, IsTrue, length, map};
ghost use Rattle.std.proofs.Common.{get_or};
ghost use Rattle.std.specs.List.{AllZip};
ghost use Rattle.u_name.specs.Cell.{CellOf, cell_cmp};
ghost use Rattle.u_sets.specs.Rising.{Rises, IsListOf};
ghost use Rattle.u_rule.specs.EntryOrder.{entry_cmp};
ghost use Rattle.u_rule.specs.declared.entry.Entry.{Entry};
ghost use Rattle.u_history.specs.declared.clash.Port.{Port};
ghost use Rattle.u_history.specs.Outcomes.{lent, PairIn, ValueAt, HasTwo, IsCellClash, IsPortClash, cell_clash_order, port_clash_order};
ghost use Rattle.u_history.specs.Places.{AtOnePlace, IsClashing, IsWriteOf, IsTokenAt};
ghost use Rattle.u_history.specs.Clashes.{port_order, cell_pairs, port_values, HasPairsOf, HasValuesOf};
ghost use Rattle.u_sets.specs.Members.{Gains};

use crate::listed::Listed;
use crate::lookup::{pairs_in, values_at};
use crate::place::{entry_at, is_at_port, is_in_cell};
use std::alloc::{AllocError, Global};
use u_name::{Cell, Name};
use u_rule::{Entry, Written};
use u_sets::place_in;
use u_value::Value;

/// A cell that has two pairs of a writer and a value, or more. Two writers of equal values clash too.
#[derive(Drop)]
pub struct CellClash {
    /// The cell.
    pub cell: Cell,
    /// All its pairs, in order.
    pub pairs: Listed<Written>,
}

/// A port of an activity that has two values or more.
#[derive(Drop)]
pub struct PortClash {
    /// The activity.
    pub activity: Name,
    /// Its port, 1 to 5.
    pub port: u8,
    /// All values at the port, in order.
    pub values: Listed<Value>,
}

/// A port of an activity. Ports are ordered by activity, and then by number.
#[derive(PartialEq, Eq, PartialOrd, Ord, Hash, Drop)]
pub struct Port {
    /// The activity.
    pub activity: Name,
    /// Its port, 1 to 5.
    pub number: u8,
}

/// Whether the two are values of one port of one activity, or of one cell.
fn at_one_place(left: &Entry, right: &Entry) -> bool
    ensures { IsTrue result ↔ AtOnePlace left.now right.now }
{
    match (left, right) {
        (Entry::Token(left), Entry::Token(right)) => {
            is_at_port(left, right.activity(), right.port())
        }
        (Entry::Write(left), Entry::Write(right)) => is_in_cell(left, &right.cell),
        _ => false,
    }
}

/// Whether the entry before that index is at the same place.
fn joins_before(entries: &[&Entry], index: usize) -> bool
    requires { index < length entries.now }
    ensures { (d : Entry) → IsTrue result
        ↔ ((0 < index) × AtOnePlace (get_or (lent entries.now) index d)
        (get_or (lent entries.now) (index - 1) d)) }
{
    if index == 0 {
        return false;
    }
    at_one_place(entry_at(entries, index), entry_at(entries, index - 1))
}

/// Whether the entry after that index is at the same place.
fn joins_after(entries: &[&Entry], index: usize) -> bool
    requires { index < length entries.now }
    ensures { (d : Entry) → IsTrue result
        ↔ ((index + 1 < length entries.now) × AtOnePlace (get_or (lent entries.now) index d)
        (get_or (lent entries.now) (index + 1) d)) }
{
    let next = index + 1;
    if next >= entries.len() {
        return false;
    }
    at_one_place(entry_at(entries, index), entry_at(entries, next))
}

/// Whether the entry at that index has a neighbour at its place.
fn is_clashing(entries: &[&Entry], index: usize) -> bool
    requires index { index < length entries.now }
    requires rises { Rises entry_cmp (lent entries.now) }
    ensures { (d : Entry) → IsTrue result
        ↔ IsClashing (Contains (lent entries.now)) (get_or (lent entries.now) index d) }
{
    let before = joins_before(entries, index);
    let after = joins_after(entries, index);
    if before {
        return true;
    }
    after
}

/// Adds the entry's cell, if it is a write that clashes.
fn add_cell(list: &mut Vec<Cell>, entry: &Entry, clashing: bool) -> Result<(), AllocError>
    requires { Rises cell_cmp list.old.items }
    ensures rises { Rises cell_cmp list.new.items }
    ensures ok { OnOk result
        (Gains list.old.items
        (λ (c : CellOf). IsTrue clashing × IsWriteOf c entry.now) list.new.items) }
{
    if let Entry::Write(item) = entry {
        if clashing {
            place_in(list, item.cell.copy()?)?;
        }
    }
    Ok(())
}

/// Adds the entry's port, if it is a token that clashes.
fn add_port(list: &mut Vec<Port>, entry: &Entry, clashing: bool) -> Result<(), AllocError>
    requires { Rises port_order list.old.items }
    ensures rises { Rises port_order list.new.items }
    ensures ok { OnOk result
        (Gains list.old.items
        (λ (p : Port). IsTrue clashing × IsTokenAt p.activity p.number entry.now) list.new.items) }
{
    if let Entry::Token(item) = entry {
        if clashing {
            let port = Port {
                activity: item.activity().copy()?,
                number: item.port(),
            };
            place_in(list, port)?;
        }
    }
    Ok(())
}

/// The cells with two pairs or more, in order.
fn clashing_cells(alloc: Global, entries: &[&Entry]) -> Result<Vec<Cell>, AllocError>
    requires { Rises entry_cmp (lent entries.now) }
    ensures { IfOk result
        (λ v. IsListOf cell_cmp (λ c. HasTwo (PairIn (Contains (lent entries.now)) c)) v.items) }
{
    let mut list = Vec::new(alloc);
    for index in 0..entries.len() {
        let clashing = is_clashing(entries, index);
        add_cell(&mut list, entry_at(entries, index), clashing)?;
    }
    Ok(list)
}

/// The ports with two values or more, in order.
fn clashing_ports(alloc: Global, entries: &[&Entry]) -> Result<Vec<Port>, AllocError>
    requires { Rises entry_cmp (lent entries.now) }
    ensures { IfOk result
        (λ v. IsListOf port_order
        (λ (p : Port). HasTwo
        (ValueAt (Contains (lent entries.now)) p.activity p.number)) v.items) }
{
    let mut list = Vec::new(alloc);
    for index in 0..entries.len() {
        let clashing = is_clashing(entries, index);
        add_port(&mut list, entry_at(entries, index), clashing)?;
    }
    Ok(list)
}

/// The cell, with all its pairs.
fn with_pairs(alloc: Global, entries: &[&Entry], cell: &Cell) -> Result<CellClash, AllocError>
    requires { Rises entry_cmp (lent entries.now) }
    ensures { IfOk result (HasPairsOf (Contains (lent entries.now)) cell.now) }
{
    let pairs = pairs_in(alloc, entries, cell)?;
    Ok(CellClash {
        cell: cell.copy()?,
        pairs: Listed::new(pairs),
    })
}

/// The port, with all its values.
fn with_values(alloc: Global, entries: &[&Entry], port: &Port) -> Result<PortClash, AllocError>
    requires { Rises entry_cmp (lent entries.now) }
    ensures { IfOk result (HasValuesOf (Contains (lent entries.now)) port.now) }
{
    let values = values_at(alloc, entries, &port.activity, port.number)?;
    Ok(PortClash {
        activity: port.activity.copy()?,
        port: port.number,
        values: Listed::new(values),
    })
}

/// Each cell, with all its pairs.
fn all_with_pairs(
    alloc: Global,
    entries: &[&Entry],
    cells: &[Cell],
) -> Result<Vec<CellClash>, AllocError>
    requires { Rises entry_cmp (lent entries.now) }
    ensures { IfOk result
        (λ v. AllZip (HasPairsOf (Contains (lent entries.now))) cells.now v.items) }
{
    let mut list = Vec::new(alloc);
    for cell in cells {
        list.push(with_pairs(alloc, entries, cell)?)?;
    }
    Ok(list)
}

/// Each port, with all its values.
fn all_with_values(
    alloc: Global,
    entries: &[&Entry],
    ports: &[Port],
) -> Result<Vec<PortClash>, AllocError>
    requires { Rises entry_cmp (lent entries.now) }
    ensures { IfOk result
        (λ v. AllZip (HasValuesOf (Contains (lent entries.now))) ports.now v.items) }
{
    let mut list = Vec::new(alloc);
    for port in ports {
        list.push(with_values(alloc, entries, port)?)?;
    }
    Ok(list)
}

/// The cells that have two pairs or more, each with all its pairs, in order.
pub fn cell_clashes(alloc: Global, entries: &[&Entry]) -> Result<Vec<CellClash>, AllocError>
    requires { Rises entry_cmp (lent entries.now) }
    ensures { IfOk result
        (λ v. IsListOf cell_clash_order (IsCellClash (Contains (lent entries.now)))
        (map cell_pairs v.items)) }
{
    let cells = clashing_cells(alloc, entries)?;
    let list = all_with_pairs(alloc, entries, &cells)?;
    Ok(list)
}

/// The ports that have two values or more, each with all its values, in order.
pub fn port_clashes(alloc: Global, entries: &[&Entry]) -> Result<Vec<PortClash>, AllocError>
    requires { Rises entry_cmp (lent entries.now) }
    ensures { IfOk result
        (λ v. IsListOf port_clash_order (IsPortClash (Contains (lent entries.now)))
        (map port_values v.items)) }
{
    let ports = clashing_ports(alloc, entries)?;
    let list = all_with_values(alloc, entries, &ports)?;
    Ok(list)
}
