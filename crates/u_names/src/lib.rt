//! Tables of names, in which each name has a number, and sets by cell.
#![tactic(auto)]

mod activities;
mod cell_set;
mod cells;
mod context_keys;
mod contexts;
mod exact;
mod frames;
mod name_table;
mod names;
mod places;
mod spots;

pub use activities::Activities;
pub use cell_set::CellSet;
pub use names::Names;
