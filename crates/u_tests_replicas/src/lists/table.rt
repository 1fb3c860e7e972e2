//! All entries and firings that can be derived from a job, each with a number: its place in order; and which
//! entries are held.
use std::alloc::Global;
use u_rule::{Entry, Firing};

/// The firings in order and the entries in order, and which entries each firing needs and gives.
#[derive(Drop)]
pub struct Table {
    /// Where memory comes from.
    pub alloc: Global,
    /// The firings.
    pub firings: Vec<Firing>,
    /// The entries.
    pub entries: Vec<Entry>,
    /// The numbers of the entries that each firing needs.
    pub needs: Vec<Vec<usize>>,
    /// The numbers of the entries that each firing gives, in order.
    pub gives: Vec<Vec<usize>>,
    /// The number of the start token.
    pub start: usize,
}

impl Table {
    /// A table of nothing.
    pub fn empty(alloc: Global) -> Table {
        Table {
            alloc,
            firings: Vec::new(alloc),
            entries: Vec::new(alloc),
            needs: Vec::new(alloc),
            gives: Vec::new(alloc),
            start: 0,
        }
    }

    /// How many firings there are.
    pub fn count(&self) -> usize {
        self.firings.len()
    }

    /// The numbers of the entries that the firing needs.
    pub fn needs_of(&self, firing: usize) -> &[usize] {
        match self.needs.get(firing) {
            Some(needs) => needs,
            None => &[],
        }
    }

    /// The numbers of the entries that the firing gives, in order.
    pub fn gives_of(&self, firing: usize) -> &[usize] {
        match self.gives.get(firing) {
            Some(gives) => gives,
            None => &[],
        }
    }
}

/// Whether the entry is held.
pub fn is_held(held: &[bool], entry: usize) -> bool {
    held.get(entry) == Some(&true)
}

/// Whether all these entries are held.
pub fn are_held(held: &[bool], entries: &[usize]) -> bool {
    for entry in entries {
        if !is_held(held, *entry) {
            return false;
        }
    }
    true
}

/// The entry is held. Returns whether it was not.
pub fn hold(held: &mut Vec<bool>, entry: usize) -> bool {
    match held.get_mut(entry) {
        Some(place) if !*place => {
            *place = true;
            true
        }
        _ => false,
    }
}
