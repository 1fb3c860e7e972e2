//! Workers run, each in a thread of its own.
//!
//! Each worker makes its replica in its own thread, since no law says that a machine may cross threads. If
//! a thread can't be made, the library runs the worker on the thread that was to make it.
ghost use Rattle.std.specs.Prelude.{◌≡◌, ◌<◌, All, length};
ghost use Rattle.u_fleet.specs.Fleets.{MayRun, HasWorked, HaveWorked};

use crate::gate::Gate;
use crate::rounds::run_worker;
use crate::worker::{Pair, Setting};
use std::sync::Wait;
use std::thread;
use std::thread::Threads;
use u_outlet::Named;

/// Runs each worker in a thread of its own, and joins them all. Where a thread cannot be made, its
/// worker runs on the thread that was to make it.
pub fn run_all<J: Named + Send + Sync, G: Gate + Sync, R: Threads + Wait + Sync>(
    rt: &R,
    setting: &Setting<'_, G>,
    pairs: &mut [Pair<J>],
)
    requires some { 0 < length pairs.old }
    requires job { setting.now.job.now ≡ J.job }
    requires new { All (MayRun setting.now.plan setting.now.board.now) pairs.old }
    ensures { HaveWorked G.may J.job setting.now.plan pairs.old pairs.new }
{
    let count = pairs.len();
    let one = |_: usize, pair: &mut Pair<J>|
        requires { (setting.now.job.now ≡ J.job)
            × MayRun setting.now.plan setting.now.board.now pair.now }
        ensures { HasWorked G.may J.job setting.entry.now.plan pair.entry.now pair.exit.now }
    { run_worker(rt, setting, pair) };
    thread::for_each_mut(rt, pairs, count, &one);
}
