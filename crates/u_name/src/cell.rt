//! Cells of structures.
ghost use Rattle.std.specs.Prelude.{◌≡◌, ◌≤◌, IfOk};
ghost use Rattle.u_name.specs.Cell.{cell_of, cell_cmp, IsCell};

use crate::name::Name;
use std::alloc::AllocError;
use std::cmp::Ordering;
use std::marker::Model;

/// A cell of a structure: the name of the activity that made the structure, and the cell's index,
/// 0 to 999999. Cells are ordered by name, and then by index.
#[derive(PartialEq, Eq, PartialOrd, Ord, Hash, Drop)]
pub struct Cell {
    name: Name,
    index: u32,
}

impl Model for Cell {
    ghost use Rattle.u_name.specs.Cell.{CellOf, cell_of, IsCell, cell_code};

    ghost Value = { CellOf };

    ghost coded = { cell_code };

    ghost view = { λ c. cell_of c.name c.index };

    ghost invariant = { λ c. IsCell (cell_of c.name c.index) };

    ghost inverse = { λ c. record { name = c.name; index = c.index } };
}

impl Cell {
    /// The cell of that structure at that index.
    pub fn new(name: Name, index: u32) -> Cell
        requires { index ≤ 999999 }
        ensures { result ≡ cell_of name index }
    {
        Cell { name, index }
    }

    /// The name of the activity that made the structure.
    pub fn name(&self) -> &Name
        ensures value { result.now ≡ self.now.name }
    {
        &self.name
    }

    /// Where in the structure the cell is, 0 to 999999.
    pub fn index(&self) -> u32
        ensures value { result ≡ self.now.index }
        ensures bound { IsCell self.now }
    {
        self.index
    }

    /// By name, and then by index, as `cmp`.
    pub fn compare(&self, other: &Cell) -> Ordering
        ensures { result ≡ cell_cmp self.now other.now }
    {
        self.cmp(other)
    }

    /// An equal cell.
    pub fn copy(&self) -> Result<Cell, AllocError>
        ensures { IfOk result (λ c. c ≡ self.now) }
    {
        let name = self.name.copy()?;
        Ok(Cell {
            name,
            index: self.index,
        })
    }
}
