//! Two stories, one behind the other.
ghost use Rattle.std.specs.Prelude.{IfOk};
ghost use Rattle.u_rule.specs.Rule.{own_of};
ghost use Rattle.u_base.specs.Firing.{Held, Derivation};
ghost use Rattle.u_trace.specs.Table.{place_in};
ghost use Rattle.u_trace.specs.Givers.{AreGivers};
ghost use Rattle.u_trace.specs.Stories.{IsStory};
ghost use Rattle.u_trace.specs.Blames.{JoinsStories};

use crate::givers::givers_of;
use crate::telling::applied_story;
use std::alloc::{AllocError, Global};
use u_check::Job;
use u_rule::{Entry, Firing};

/// The stories of the two entries in a derivation of the job, that of the first in front.
///
/// # Errors
/// `AllocError` where there is no memory.
pub(crate) fn joined_stories(
    alloc: Global,
    job: &Job,
    log: &[Firing],
    one: &Entry,
    other: &Entry,
) -> Result<Vec<Firing>, AllocError>
    requires derivation { Derivation (own_of job.now) log.now }
    requires one { Held (own_of job.now) log.now one.now }
    requires other { Held (own_of job.now) log.now other.now }
    ensures { IfOk result
        (λ v. JoinsStories (own_of job.now) log.now one.now other.now v.items) }
{
    let givers = givers_of(alloc, job, log)?;
    let mut joined = applied_story(alloc, job, log, &givers, one)?;
    let mut behind = applied_story(alloc, job, log, &givers, other)?;
    joined.append(&mut behind)?;
    Ok(joined)
}
