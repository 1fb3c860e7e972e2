//! What the program tells of files and jobs. The commands of one machine are those of `u_commands`, and the words of the
//! command line those of `u_words`, which this crate passes on. Here stand those of several replicas, in a world, in
//! threads and over a message bus, those that draw, and the way from a request to what is told.
#![tactic(auto)]

mod asking;
mod drawing;
mod drawing_worlds;
mod fleets;
mod holding;
mod sharing;
mod texts;
mod worlds;

pub use asking::{Texts, tell_file, tell_job, tell_texts};
pub use drawing::{draw_program, draw_run, draw_story};
pub use drawing_worlds::draw_world;
pub use fleets::{FLEET_BUDGET, FLEET_FIRINGS, fleet};
pub use sharing::{SHARED_FIRINGS, member_plan, share};
pub use texts::{
    check_text, fleet_text, restore_text, run_text, save_text, trace_text, world_text,
};
pub use u_commands::{
    Asked, CommandError, FIRING_LIMIT, INPUT_LIMIT, Input, Progress, STORED_PROGRAM, Task, Telling,
    Told, Unwatched, Unwritten, Watch, argument_of, blame, check, checked_of, compile, explain,
    finish, is_source, job_of, lift, print, read_file, read_input, read_path, report_of, restore,
    run, save, tell_not_readable, trace, waits, write_whole,
};
pub use u_compile::{BlockOrigins, CompileError, Origin, Role};
pub use u_share::{Bus, Plan};
pub use u_words::{
    FileRequest, JobRequest, NoRequest, Request, WorldRequest, arguments, below_zero, firings_of,
    not_text, number_of, parse, request_in,
};
pub use worlds::{Events, WorldPlan, world};
