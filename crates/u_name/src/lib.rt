//! Names of activities: blocks, contexts, names and cells, with their orders and texts.
#![tactic(auto)]

mod block_name;
mod block_text;
mod cell;
mod context;
mod exact;
mod kept_context;
mod name;
mod path;
mod reading;
mod writing;

pub use block_name::BlockName;
pub use cell::Cell;
pub use context::{Context, Node};
pub use kept_context::{KeptContext, behind_text, front_name_beside};
pub use name::{Name, NameError};
pub use reading::{Front, NameTextError, front_block, front_name};
