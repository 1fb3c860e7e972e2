//! Spots: what a cell is in a set by cell.
ghost use Rattle.std.specs.Prelude.{◌≡◌};
ghost use Rattle.u_names.specs.Spots.{spot, IsSpot};

use std::marker::Model;
use u_name::Cell;

/// A cell whose structure has a number: that number, and the cell's index.
#[derive(PartialEq, Eq, PartialOrd, Ord, Hash, Drop)]
pub(crate) struct Spot {
    structure: usize,
    index: u32,
}

impl Model for Spot {
    ghost use Rattle.u_names.specs.Spots.{SpotParts, spot, IsSpot, spot_code};

    ghost Value = { SpotParts };

    ghost coded = { spot_code };

    ghost view = { λ s. spot s.structure s.index };

    ghost invariant = { λ s. IsSpot (spot s.structure s.index) };

    ghost inverse = { λ s. record { structure = s.structure; index = s.index } };
}

impl Spot {
    /// The spot of the cell, whose structure has that number.
    pub(crate) fn of(structure: usize, cell: &Cell) -> Spot
        ensures spot { result ≡ spot structure cell.now.index }
        ensures range { IsSpot result }
    {
        Spot {
            structure,
            index: cell.index(),
        }
    }

    /// The number of its structure.
    pub(crate) fn structure(&self) -> usize
        ensures { result ≡ self.now.structure }
    {
        self.structure
    }

    /// The cell's index, 0 to 999999.
    pub(crate) fn index(&self) -> u32
        ensures value { result ≡ self.now.index }
        ensures bound { IsSpot self.now }
    {
        self.index
    }
}
