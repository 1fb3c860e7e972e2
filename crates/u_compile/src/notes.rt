//! What is noted of statements while a procedure is drawn: where they come from, and their names.

use std::alloc::{AllocFailed, Global};
use u_name::BlockName;
use u_source::Position;

/// The name of a statement, or that it gets none.
#[derive(Clone, Copy)]
pub(crate) struct Named {
    /// The number of the statement.
    pub statement: usize,
    /// The name, if it has one.
    pub text: Option<BlockName>,
}

/// The places and the names of the statements of a procedure, in their order.
#[derive(Drop)]
pub(crate) struct Notes {
    places: Vec<Position>,
    names: Vec<Named>,
}

/// What the name of the statement with this number is, if that is settled.
fn name_in(names: &[Named], number: usize) -> Option<Named> {
    for named in names {
        if named.statement == number {
            return Some(*named);
        }
    }
    None
}

impl Notes {
    /// Those of no statement.
    pub fn new(alloc: Global) -> Notes {
        Notes {
            places: Vec::new(alloc),
            names: Vec::new(alloc),
        }
    }

    /// How many statements come from somewhere.
    pub fn len(&self) -> usize {
        self.places.len()
    }

    /// The place from which the statement with this number comes.
    pub fn place_of(&self, number: usize) -> Option<Position> {
        let Some(before) = number.checked_sub(1) else {
            return None;
        };
        match self.places.get(before) {
            Some(place) => Some(*place),
            None => None,
        }
    }

    /// The name of the statement with this number, if it has one.
    pub fn name_of(&self, number: usize) -> Option<BlockName> {
        match name_in(&self.names, number) {
            Some(named) => named.text,
            None => None,
        }
    }

    /// Lets the statements up to this number come from there, but those that come from somewhere already.
    pub fn note(&mut self, number: usize, place: Position) -> Result<(), AllocFailed<Position>> {
        for _ in self.places.len()..number {
            self.places.push(place)?;
        }
        Ok(())
    }

    /// Settles the name of the statement with this number, if it is not settled: it is this one, or there is none.
    pub fn settle(
        &mut self,
        number: usize,
        text: Option<BlockName>,
    ) -> Result<(), AllocFailed<Named>> {
        if name_in(&self.names, number).is_none() {
            self.names.push(Named {
                statement: number,
                text,
            })?;
        }
        Ok(())
    }

    /// Gives the statements behind so many this name, if theirs is not settled.
    pub fn name_from(&mut self, first: usize, text: &BlockName) -> Result<(), AllocFailed<Named>> {
        for before in first..self.places.len() {
            self.settle(before + 1, Some(*text))?;
        }
        Ok(())
    }
}
