//! What the names of a source mean and where values are wanted (`CheckedSource::check`), and the kinds of its
//! values with the first place where two of them clash (`check_kinds`).
#![tactic(auto)]

mod check_error;
mod checked;
mod checking;
mod clash;
mod counting;
mod entry;
mod finding;
mod kind;
mod kind_error;
mod kinded;
mod naming;
mod spot;
mod values;

pub use check_error::{CheckError, CheckProblem};
pub use checked::{CheckedSource, Meaning};
pub use checking::check_kinds;
pub use clash::name_at;
pub use kind::Kind;
pub use kind_error::{KindError, KindProblem};
