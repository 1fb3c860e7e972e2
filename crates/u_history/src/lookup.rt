//! What stands at one port, and in one cell.
ghost use Rattle.std.specs.Prelude.{◌≡◌, ◌↔◌, ◌⊎◌, OnOk, IfOk, Contains};
ghost use Rattle.u_sets.specs.Rising.{Rises, IsListOf};
ghost use Rattle.u_value.specs.declared.value.Value.{Value};
ghost use Rattle.u_rule.specs.Parts.{token};
ghost use Rattle.u_rule.specs.EntryOrder.{entry_cmp, write_of};
ghost use Rattle.u_rule.specs.declared.parts.Written.{Written};
ghost use Rattle.u_rule.specs.declared.entry.Entry.TheVariants as kinds;
ghost use Rattle.u_history.specs.Orders.{value_order, written_order};
ghost use Rattle.u_history.specs.Outcomes.{lent, PairIn, ValueAt};
ghost use Rattle.u_sets.specs.Members.{Gains};

use crate::place::{MeetingPlace, entry_at, first_at, is_at, is_at_port, is_in_cell};
use std::alloc::{AllocError, Global};
use u_name::{Cell, Name};
use u_rule::{Entry, Written};
use u_sets::place_in;
use u_value::Value;

/// Adds the entry's value, if it is a token at that port.
fn add_value(
    list: &mut Vec<Value>,
    entry: &Entry,
    activity: &Name,
    port: u8,
) -> Result<(), AllocError>
    requires { Rises value_order list.old.items }
    ensures rises { Rises value_order list.new.items }
    ensures ok { OnOk result
        (Gains list.old.items
        (λ (x : Value). entry.now ≡ kinds.Token (token activity.now port x)) list.new.items) }
{
    if let Entry::Token(item) = entry {
        if is_at_port(item, activity, port) {
            place_in(list, item.value().copy()?)?;
        }
    }
    Ok(())
}

/// The values at that port, in order. It looks at the entries of that port alone, once they are found.
pub fn values_at(
    alloc: Global,
    entries: &[&Entry],
    activity: &Name,
    port: u8,
) -> Result<Vec<Value>, AllocError>
    requires { Rises entry_cmp (lent entries.now) }
    ensures { IfOk result
        (λ v. IsListOf value_order
        (ValueAt (Contains (lent entries.now)) activity.now port) v.items) }
{
    let mut list = Vec::new(alloc);
    let place = MeetingPlace::Port(activity, port);
    for index in first_at(entries, place)..entries.len() {
        let entry = entry_at(entries, index);
        if !is_at(entry, place) {
            return Ok(list);
        }
        add_value(&mut list, entry, activity, port)?;
    }
    Ok(list)
}

/// Adds the entry's writer and value, if it is a write of that cell.
fn add_pair(list: &mut Vec<Written>, entry: &Entry, cell: &Cell) -> Result<(), AllocError>
    requires { Rises written_order list.old.items }
    ensures rises { Rises written_order list.new.items }
    ensures ok { OnOk result
        (Gains list.old.items
        (λ (x : Written). entry.now
        ≡ kinds.Write (write_of cell.now x.writer x.value)) list.new.items) }
{
    if let Entry::Write(item) = entry {
        if is_in_cell(item, cell) {
            let pair = Written {
                writer: item.writer.copy()?,
                value: item.value.copy()?,
            };
            place_in(list, pair)?;
        }
    }
    Ok(())
}

/// The pairs of a writer and a value in that cell, in order. It looks at the writes of that cell
/// alone, once they are found.
pub fn pairs_in(alloc: Global, entries: &[&Entry], cell: &Cell) -> Result<Vec<Written>, AllocError>
    requires { Rises entry_cmp (lent entries.now) }
    ensures { IfOk result
        (λ v. IsListOf written_order (PairIn (Contains (lent entries.now)) cell.now) v.items) }
{
    let mut list = Vec::new(alloc);
    let place = MeetingPlace::Cell(cell);
    for index in first_at(entries, place)..entries.len() {
        let entry = entry_at(entries, index);
        if !is_at(entry, place) {
            return Ok(list);
        }
        add_pair(&mut list, entry, cell)?;
    }
    Ok(list)
}
