//! What is to blame for several values at a port.
use u_name::Cell;
use u_rule::{Firing, Written};

/// A write, with the firing that made it.
#[derive(Drop)]
pub struct BlamedWrite {
    /// Who wrote, and what.
    pub pair: Written,
    /// The firing that gives the write.
    pub firing: Firing,
}

/// A cell that was written twice, or more often, with two of its writes.
#[derive(Drop)]
pub struct Blame {
    /// The cell.
    pub cell: Cell,
    /// The write of the least pair of a writer and a value.
    pub first: BlamedWrite,
    /// The write of the least of the other pairs.
    pub second: BlamedWrite,
}
