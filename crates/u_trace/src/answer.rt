//! What a history waits for.
//!
//! An activity waits only if it has a token. If a port clashes, each pair of values of a `fetch` counts, so
//! one reader may wait for several cells.
ghost use Rattle.std.specs.Prelude.{Contains, IfOk};
ghost use Rattle.u_trace.specs.Waits.{AreWaits};
ghost use Rattle.u_trace.specs.Still.{AreStill};

use crate::activities::{WaitingActivity, waiting_activities};
use crate::reads::{DeferredRead, deferred_reads};
use std::alloc::{AllocError, Global};
use u_check::Job;
use u_history::History;

/// What a history waits for. Each list is in order, and has each thing once.
#[derive(Drop)]
pub struct Waiting {
    /// The activities that have a token at some port and none at another, by name.
    pub activities: Vec<WaitingActivity>,
    /// The reads of cells that have no write, by the reader's name and then by cell.
    pub reads: Vec<DeferredRead>,
}

/// What the history waits for. An activity whose statement the program does not have has no ports, so it
/// waits for nothing.
///
/// No firing of an activity that waits has all that it needs in the history, and none by which a deferred
/// read's activity reads that cell.
///
/// Promise waiting-activities: exactly the activities are listed that have a token at some port and none at
/// another, in order, each once.
///
/// Promise deferred-reads: exactly the reads are listed whose activity has the structure and the index of a
/// cell without a write, in order, each once.
///
/// Promise what-waits-stays: nothing that is listed can fire over the history.
///
/// # Errors
/// `AllocError` where there is no memory.
#[tactic(auto, using(crate::proofs::StillLaws::are_still))]
pub fn waits(alloc: Global, job: &Job, history: &History) -> Result<Waiting, AllocError>
    ensures exact { IfOk result (AreWaits job.now (Contains history.now)) }
    ensures still { AreStill job.now (Contains history.now) }
{
    let program = job.program();
    let entries = history.unordered_entries()?;
    let activities = waiting_activities(alloc, program, history, &entries)?;
    let reads = deferred_reads(alloc, program, history, &entries)?;
    Ok(Waiting { activities, reads })
}
