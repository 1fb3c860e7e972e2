//! The applied firings that an entry rests on.
//!
//! After want of memory a history may have an entry whose giver is not applied yet. It has causes and no
//! story.
ghost use Rattle.std.specs.Prelude.{◌≡◌, ◌↔◌, ◌⊎◌, IfOk, IsTrue, IsSome};
ghost use Rattle.u_rule.specs.Rule.{own_of, start_of};
ghost use Rattle.u_base.specs.Firing.{Derivation};
ghost use Rattle.u_trace.specs.Table.{place_in, Owns};
ghost use Rattle.u_trace.specs.Givers.{AreGivers};
ghost use Rattle.u_trace.specs.Stories.{IsStory};
ghost use Rattle.u_trace.specs.Answers.{StoryOf, StoryAnswer};

use crate::givers::givers_of;
use crate::marks::{is_same, marks_of};
use crate::picking::picked;
use crate::table::Givers;
use crate::trace_error::TraceError;
use std::alloc::{AllocError, Global};
use u_check::Job;
use u_machine::Machine;
use u_rule::{Entry, Firing, start};

/// Whether the entry is the start token or has a giver.
fn is_known(job: &Job, givers: &Givers, entry: &Entry) -> Result<bool, AllocError>
    ensures { IfOk result (λ b. IsTrue b
        ↔ ((entry.now ≡ start_of job.now) ⊎ IsSome (place_in givers.now entry.now))) }
{
    let first = start(job);
    if is_same(entry, &first) {
        return Ok(true);
    }
    let place = givers.of(entry)?;
    Ok(place.is_some())
}

/// The firings of the list that the entry's story has, in their order.
///
/// # Errors
/// `AllocError` where there is no memory.
pub(crate) fn applied_story(
    alloc: Global,
    job: &Job,
    log: &[Firing],
    givers: &Givers,
    entry: &Entry,
) -> Result<Vec<Firing>, AllocError>
    requires derivation { Derivation (own_of job.now) log.now }
    requires givers { AreGivers (own_of job.now) log.now (place_in givers.now) }
    requires owners { Owns givers.now log.now }
    ensures { IfOk result (λ v. IsStory (own_of job.now) log.now entry.now v.items) }
{
    let marks = marks_of(alloc, job, log, givers, entry)?;
    let found = picked(alloc, log, &marks)?;
    Ok(found)
}

/// The story of the entry in a derivation of the job.
///
/// # Errors
/// `NotHeld` where the list does not hold the entry. `NoMemory` where there is no memory.
fn story_of(
    alloc: Global,
    job: &Job,
    log: &[Firing],
    entry: &Entry,
) -> Result<Vec<Firing>, TraceError>
    requires { Derivation (own_of job.now) log.now }
    ensures { StoryOf job.now log.now entry.now result }
{
    let givers = givers_of(alloc, job, log)?;
    let known = is_known(job, &givers, entry)?;
    if !known {
        return Err(TraceError::NotHeld);
    }
    let found = applied_story(alloc, job, log, &givers, entry)?;
    Ok(found)
}

/// The story of the entry, of the applied firings of the machine. The giver of an entry is the first that was
/// applied and gives it. The start token has no giver, and its story is empty.
///
/// Promise story: it has the entry's giver, and with each firing the givers of all that it needs, and no
/// others, in the order of the log.
///
/// Promise story-is-least: it is a run of its own whose last firing gives the entry, and none can be left out
/// with these givers.
///
/// # Errors
/// `NotHeld` where the entry is not the start token, and no applied firing gives it; also where it is
/// in the history already, but a call that wants memory did not get on to apply its giver. `NoMemory`
/// where there is no memory.
pub fn story(alloc: Global, machine: &Machine<'_>, entry: &Entry) -> Result<Vec<Firing>, TraceError>
    ensures { StoryAnswer machine.now entry.now result }
{
    machine.holds();
    let job = machine.job();
    let log = machine.applied();
    story_of(alloc, job, log, entry)
}
