//! Programs of sources: their procedures are drawn as graphs of statements.
#![tactic(auto)]

mod blocks;
mod compile_error;
mod compiled;
mod compiling;
mod drafting;
mod drawing;
mod fanning;
mod graph;
mod linked;
mod lowering;
mod map_text;
mod mapping;
mod naming;
mod notes;
mod operands;
mod orderly;
mod origins;
mod place;
mod placed;
mod places;
mod procedures;
mod sides;
mod tree;
mod turns;
mod writing;

pub use compile_error::{CompileError, CompileProblem};
pub use compiled::Compiled;
pub use compiling::compile;
pub use origins::{BlockOrigins, Origin, Role};
pub use places::push_place;
