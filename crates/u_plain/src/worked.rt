//! Worked names, entries and firings, read from texts, and texts of firings and histories.
use std::alloc::{AllocError, Global};
use u_history::History;
use u_name::Name;
use u_rule::{Entry, Firing};
use u_sets::OrderedSet;

/// The name of that text. Another text is answered by want of memory.
pub fn name_of(alloc: Global, text: &[u8]) -> Result<Name, AllocError> {
    match Name::read(alloc, text) {
        Ok(name) => Ok(name),
        Err(_) => Err(AllocError),
    }
}

/// The entry of that text. Another text is answered by want of memory.
pub fn entry_of(alloc: Global, text: &str) -> Result<Entry, AllocError> {
    match Entry::read(alloc, text.as_bytes()) {
        Ok(entry) => Ok(entry),
        Err(_) => Err(AllocError),
    }
}

/// The firing of that text. Another text is answered by want of memory.
pub fn firing_of(alloc: Global, text: &str) -> Result<Firing, AllocError> {
    match Firing::read(alloc, text.as_bytes()) {
        Ok(firing) => Ok(firing),
        Err(_) => Err(AllocError),
    }
}

/// A line for the firing: its text.
pub fn put_firing(out: &mut Vec<u8>, firing: &Firing) -> Result<(), AllocError> {
    firing.write_text(out)?;
    out.push(b'\n')?;
    Ok(())
}

/// A line for each of the firings.
pub fn put_firings(out: &mut Vec<u8>, firings: &[Firing]) -> Result<(), AllocError> {
    for firing in firings {
        put_firing(out, firing)?;
    }
    Ok(())
}

/// Adds a copy of the firing.
pub fn add_firing(
    alloc: Global,
    firings: &mut OrderedSet<Firing>,
    firing: &Firing,
) -> Result<(), AllocError> {
    let copy = firing.copy(alloc)?;
    firings.insert(copy)?;
    Ok(())
}

/// The text of the history.
pub fn text_of(alloc: Global, history: &History) -> Result<Vec<u8>, AllocError> {
    let mut text = Vec::new(alloc);
    history.write_text(&mut text)?;
    Ok(text)
}
