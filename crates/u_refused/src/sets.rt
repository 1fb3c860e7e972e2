//! Rows of tables of names and of histories, which stay as they were where memory is refused.
use crate::machines::{LIMIT, run_out};
use crate::rows::{TRIES, Trouble, must};
use std::alloc::Global;
use u_check::Job;
use u_history::History;
use u_machine::Machine;
use u_name::Name;
use u_names::Names;
use u_rule::{Entry, Firing};

/// Gives the name a number, again while that is refused.
fn number(names: &mut Names, name: &Name) -> Result<(), Trouble> {
    let before = names.len();
    let found = names.find(name);
    for _ in 0..TRIES {
        if names.id_of(name).is_ok() {
            return must(names.find(name).is_some(), "the name has no number");
        }
        must(
            names.len() == before && names.find(name) == found,
            "a refused name has a number",
        )?;
    }
    must(false, "the name is refused though memory is there")
}

/// Gives the activity of each firing a number, in the order in which they come.
fn number_all(names: &mut Names, firings: &[Firing]) -> Result<(), Trouble> {
    for firing in firings {
        number(names, &firing.activity)?;
    }
    must(
        names.len() == firings.len(),
        "there are more or fewer names",
    )
}

/// Numbers the activities twice.
fn number_again(names: &mut Names, firings: &[Firing]) -> Result<(), Trouble> {
    number_all(names, firings)?;
    number_all(names, firings)
}

/// Sees that the activities have their numbers in the order in which they came, and keep them.
fn tell_names(alloc: Global, firings: &[Firing]) -> Result<(), Trouble> {
    let mut names = Names::new(alloc);
    number_again(&mut names, firings)
}

/// Puts a copy of the entry into the history, again while that is refused.
fn put(history: &mut History, entry: &Entry) -> Result<(), Trouble> {
    let before = history.len();
    for _ in 0..TRIES {
        let copy = entry.copy()?;
        if history.insert(copy).is_ok() {
            return Ok(());
        }
        must(history.len() == before, "a refused entry is held")?;
    }
    must(false, "the entry is refused though memory is there")
}

/// Puts every second entry into the history, from that place on.
fn put_half(history: &mut History, entries: &[Entry], from: usize) -> Result<(), Trouble> {
    for (place, entry) in entries.iter().enumerate() {
        if place % 2 == from {
            put(history, entry)?;
        }
    }
    Ok(())
}

/// Merges the other history into the one, again while that is refused.
fn merge(one: &mut History, other: &History) -> Result<(), Trouble> {
    let before = one.len();
    for _ in 0..TRIES {
        if one.merge(other).is_ok() {
            return Ok(());
        }
        must(one.len() == before, "a refused merge adds an entry")?;
    }
    must(false, "the merge is refused though memory is there")
}

/// Puts the other half into the other history, merges it, and writes the text of the union.
fn join(
    one: &mut History,
    other: &mut History,
    entries: &[Entry],
    out: &mut Vec<u8>,
) -> Result<(), Trouble> {
    put_half(one, entries, 0)?;
    put_half(other, entries, 1)?;
    merge(one, other)?;
    must(
        one.len() == entries.len(),
        "the union has more or fewer entries",
    )?;
    one.write_text(out)?;
    Ok(())
}

/// Makes two halves of the history.
fn tell_halves(alloc: Global, entries: &[Entry], out: &mut Vec<u8>) -> Result<(), Trouble> {
    let mut one = History::new(alloc);
    let mut other = History::new(alloc);
    join(&mut one, &mut other, entries, out)
}

/// Numbers the names of the run, and makes two halves of its history.
fn tell_end(alloc: Global, end: &mut Machine<'_>, out: &mut Vec<u8>) -> Result<(), Trouble> {
    run_out(end)?;
    tell_names(alloc, end.applied())?;
    let entries = end.history().entries()?;
    tell_halves(alloc, &entries, out)
}

/// Writes the union of two halves of the run's history.
pub fn tell(alloc: Global, job: &Job, out: &mut Vec<u8>) -> Result<(), Trouble> {
    let mut end = Machine::new(alloc, job, LIMIT)?;
    tell_end(alloc, &mut end, out)
}
