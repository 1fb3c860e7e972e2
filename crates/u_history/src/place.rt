//! Places, and where their entries stand.
ghost use Rattle.std.specs.Prelude.{◌≡◌, ◌<◌, ◌≤◌, ◌↔◌, ℕ, IsTrue, length};
ghost use Rattle.std.specs.Ordering.{ordering_then, nat_cmp};
ghost use Rattle.std.specs.declared.cmp.Ordering.TheVariants.{Less};
ghost use Rattle.u_name.specs.NameOrder.{name_cmp};
ghost use Rattle.u_name.specs.Cell.{cell_cmp};
ghost use Rattle.std.proofs.Common.{get_or};
ghost use Rattle.u_sets.specs.Rising.{Rises};
ghost use Rattle.u_rule.specs.EntryOrder.{entry_cmp};
ghost use Rattle.u_rule.specs.declared.entry.Entry.{Entry};
ghost use Rattle.u_history.specs.Outcomes.{lent};
ghost use Rattle.u_history.specs.Places.{IsAt, IsBefore};

use u_name::{Cell, Name};
use u_rule::{Entry, Token, Write};

/// Where values meet: a port of an activity, or a cell.
#[derive(Clone, Copy)]
pub enum MeetingPlace<'a> {
    /// The activity, and its port.
    Port(&'a Name, u8),
    /// The cell.
    Cell(&'a Cell),
}

/// The entry at that index.
pub fn entry_at<'a>(entries: &[&'a Entry], index: usize) -> &'a Entry
    requires { index < length entries.now }
    ensures { (d : Entry) → get_or (lent entries.now) index d ≡ result.now }
{
    entries[index]
}

/// Whether the token is at that port.
#[tactic(auto, using(crate::proofs::Neighbours::same_name))]
pub fn is_at_port(token: &Token, activity: &Name, port: u8) -> bool
    ensures { IsTrue result ↔ ((token.now.activity ≡ activity.now) × (token.now.port ≡ port)) }
{
    token.activity() == activity && token.port() == port
}

/// Whether the write is of that cell.
pub fn is_in_cell(write: &Write, cell: &Cell) -> bool
    ensures { IsTrue result ↔ (write.now.cell ≡ cell.now) }
{
    write.cell == *cell
}

/// Whether the entry stands at the place.
pub fn is_at(entry: &Entry, place: MeetingPlace<'_>) -> bool
    ensures { IsTrue result ↔ IsAt place.entry entry.now }
{
    match (place, entry) {
        (MeetingPlace::Port(activity, port), Entry::Token(token)) => is_at_port(
            token, activity, port,
        ),
        (MeetingPlace::Cell(cell), Entry::Write(write)) => is_in_cell(write, cell),
        _ => false,
    }
}

/// Whether the token stands before all tokens at that port.
fn is_before_port(token: &Token, activity: &Name, port: u8) -> bool
    ensures { IsTrue result
        ↔ (ordering_then (name_cmp token.now.activity activity.now) (nat_cmp token.now.port port)
        ≡ Less) }
{
    token
        .activity()
        .cmp(activity)
        .then(token.port().cmp(&port))
        .is_lt()
}

/// Whether the write stands before all writes of that cell.
fn is_before_cell(write: &Write, cell: &Cell) -> bool
    ensures { IsTrue result ↔ (cell_cmp write.now.cell cell.now ≡ Less) }
{
    write.cell.cmp(cell).is_lt()
}

/// Whether the entry stands before all entries at the place.
fn is_before(entry: &Entry, place: MeetingPlace<'_>) -> bool
    ensures { IsTrue result ↔ IsBefore place.entry entry.now }
{
    match (place, entry) {
        (MeetingPlace::Port(activity, port), Entry::Token(token)) => is_before_port(
            token, activity, port,
        ),
        (MeetingPlace::Cell(_), Entry::Token(_)) => true,
        (MeetingPlace::Cell(cell), Entry::Write(write)) => is_before_cell(write, cell),
        _ => false,
    }
}

/// The index of the first entry that does not stand before the place, or how many entries there are.
pub fn first_at(entries: &[&Entry], place: MeetingPlace<'_>) -> usize
    requires { Rises entry_cmp (lent entries.now) }
    ensures bound { result ≤ length entries.now }
    ensures before { (k : ℕ) (d : Entry) → k < result
        → IsBefore place.entry (get_or (lent entries.now) k d) }
    ensures behind { (k : ℕ) (d : Entry) → result ≤ k → k < length entries.now
        → IsBefore place.entry (get_or (lent entries.now) k d) → ⊥ }
{
    let mut low = 0;
    let mut high = entries.len();
    while low < high {
        let middle = low + (high - low) / 2;
        if is_before(entry_at(entries, middle), place) {
            low = middle + 1;
        } else {
            high = middle;
        }
    }
    low
}
