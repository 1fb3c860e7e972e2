//! Pictures, as texts of DOT, the language of Graphviz.
//!
//! `write_picture` draws a program: its statements with their ports, and its arcs. `write_run` draws a run: the
//! firings, the entries that they hold, and which needs and gives which. `write_world` draws a world in space and
//! time: a column for each replica, a row for each event, and the ways of the messages; `live` lets events happen and
//! says what each of them did.
#![tactic(auto)]

mod arcs;
mod clusters;
mod dot;
mod entries;
mod firings;
mod happening;
mod living;
mod looks;
mod names;
mod nodes;
mod picture;
mod places;
mod program;
mod program_arcs;
mod program_names;
mod program_words;
mod run;
mod sharing;
mod styles;
mod tips;
mod words;
mod world_looks;

pub use dot::{push_arc, push_attribute, push_cluster, push_node, push_opened, push_quoted};
pub use happening::{Deed, Happening, Spot};
pub use living::{Sent, live};
pub use picture::write_world;
pub use program::write_picture;
pub use run::write_run;
