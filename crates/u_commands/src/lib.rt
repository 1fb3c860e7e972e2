//! The commands of one machine: what a file stands for, and what each command tells of it.
#![tactic(auto)]

mod argument;
mod blaming;
mod checking;
mod command_error;
mod compiling;
mod explaining;
mod input;
mod lifting;
mod output;
mod placing;
mod reading;
mod reporting;
mod restoring;
mod running;
mod saving;
mod telling;
mod told;
mod tracing;
mod waiting;
mod watch;

pub use argument::argument_of;
pub use blaming::blame;
pub use checking::{Asked, check};
pub use command_error::CommandError;
pub use compiling::compile;
pub use explaining::explain;
pub use input::{Input, Task, checked_of, is_source};
pub use lifting::lift;
pub use output::{Unwritten, push_numbered, write_whole};
pub use reading::{INPUT_LIMIT, read_file, read_input, read_path, tell_not_readable};
pub use reporting::{FIRING_LIMIT, job_of, ran, report_of, run, run_on};
pub use restoring::{restore, run_behind};
pub use saving::save;
pub use telling::Telling;
pub use told::{Told, finish, print};
pub use tracing::{entry_of, trace, trace_fault};
pub use waiting::waits;
pub use watch::{Progress, Unwatched, Watch};

/// The program that runs if no word is given: it doubles its argument.
pub const STORED_PROGRAM: &[u8] =
    b"u-program 1\nblock main\n1 0 begin -> 2.1 2.2\n2 0 add -> 3.1\n3 0 end ->\n";
