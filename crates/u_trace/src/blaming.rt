//! What is to blame for several values at a port: a cell that was written twice.
//!
//! The cell is looked for among what the two stories give, and not in the whole history: stories are runs
//! of their own, so in a determinate program they have a cell with two writes. Of several values the two
//! least are taken, so the answer is fixed by the log.
ghost use Rattle.std.specs.Prelude.{◌≡◌, IfOk};
ghost use Rattle.u_rule.specs.Rule.{own_of};
ghost use Rattle.u_rule.specs.Parts.{token, most_ports};
ghost use Rattle.u_rule.specs.declared.entry.Entry.TheVariants as entries;
ghost use Rattle.u_name.specs.Context.{IsBetween};
ghost use Rattle.u_base.specs.Firing.{Held, Derivation};
ghost use Rattle.u_trace.specs.Givers.{AreFirings};
ghost use Rattle.u_trace.specs.Blames.{AreFirstTokens, AreLeastTokens, IsFoundAmong};
ghost use Rattle.u_trace.specs.Blames.{BlameOf, BlameAnswer, BlamesByWrites};

use crate::blame_error::BlameError;
use crate::blamed::Blame;
use crate::finding::blame_among;
use crate::holding::held_by;
use crate::joining::joined_stories;
use std::alloc::{AllocError, Global};
use u_check::Job;
use u_determinate::only_writes_clash;
use u_machine::Machine;
use u_name::Name;
use u_rule::{Entry, Firing, Token};
use u_value::Value;

/// The token of that value at the port.
fn token_at(activity: &Name, port: u8, value: &Value) -> Result<Entry, AllocError>
    requires { IsBetween 1 port most_ports }
    ensures { IfOk result (λ e. e ≡ entries.Token (token activity.now port value.now)) }
{
    let activity = activity.copy()?;
    let value = value.copy()?;
    Ok(Entry::Token(Token::new(activity, port, value)))
}

/// The tokens of the first two of the values, at the port. `None` where there are fewer.
fn first_tokens(
    activity: &Name,
    port: u8,
    values: &[Value],
) -> Result<Option<(Entry, Entry)>, AllocError>
    requires { IsBetween 1 port most_ports }
    ensures { IfOk result (AreFirstTokens activity.now port values.now) }
{
    match values {
        [one, other, ..] => {
            let one = token_at(activity, port, one)?;
            let other = token_at(activity, port, other)?;
            Ok(Some((one, other)))
        }
        _ => Ok(None),
    }
}

/// The tokens of the two least values at the port, of those that the firings hold. `None` where they
/// hold fewer.
fn two_least(
    alloc: Global,
    job: &Job,
    log: &[Firing],
    activity: &Name,
    port: u8,
) -> Result<Option<(Entry, Entry)>, AllocError>
    requires port { IsBetween 1 port most_ports }
    requires firings { AreFirings (own_of job.now) log.now }
    ensures { IfOk result (AreLeastTokens job.now log.now activity.now port) }
{
    let held = held_by(alloc, job, log)?;
    let values = held.values(activity, port)?;
    let tokens = first_tokens(activity, port, &values)?;
    Ok(tokens)
}

/// What is to blame among the joined stories of the two tokens, in a derivation of the job.
fn blame_stories(
    alloc: Global,
    job: &Job,
    log: &[Firing],
    one: &Entry,
    other: &Entry,
) -> Result<Option<Blame>, AllocError>
    requires derivation { Derivation (own_of job.now) log.now }
    requires one { Held (own_of job.now) log.now one.now }
    requires other { Held (own_of job.now) log.now other.now }
    ensures { IfOk result (IsFoundAmong job.now log.now one.now other.now) }
{
    let joined = joined_stories(alloc, job, log, one, other)?;
    let found = blame_among(alloc, job, &joined)?;
    Ok(found)
}

/// What is to blame for the two least values at the port, in a derivation of the job.
///
/// # Errors
/// `NotClashed` exactly where it holds fewer than two values at the port. `NoMemory` where there is no
/// memory.
fn blame_in(
    alloc: Global,
    job: &Job,
    log: &[Firing],
    activity: &Name,
    port: u8,
) -> Result<Option<Blame>, BlameError>
    requires port { IsBetween 1 port most_ports }
    requires derivation { Derivation (own_of job.now) log.now }
    ensures { BlameOf job.now log.now activity.now port result }
{
    match two_least(alloc, job, log, activity, port)? {
        Some((one, other)) => {
            let found = blame_stories(alloc, job, log, &one, &other)?;
            Ok(found)
        }
        None => Err(BlameError::NotClashed),
    }
}

/// What is to blame for the two least values at that port, 1 to 5, of the activity. Of the applied firings
/// the stories of the two tokens are joined, one behind the other. It is `None` where no cell has two writes
/// there. That a cell is blamed, and which one, is this project's profile.
///
/// Promise blame: the answer is the least cell with two writes in the two stories, with its two least writes
/// and the first firings that give these.
///
/// Promise blame-finds: if the program is strict or determinate, the answer is never `None`.
///
/// # Errors
/// `NotClashed` exactly where the applied firings hold fewer than two values at the port; a value does
/// not count that is in the history already, where a call that wants memory did not get on to apply its
/// giver. `NoMemory` where there is no memory.
pub fn blame(
    alloc: Global,
    machine: &Machine<'_>,
    activity: &Name,
    port: u8,
) -> Result<Option<Blame>, BlameError>
    requires { IsBetween 1 port most_ports }
    ensures answer { BlameAnswer machine.now activity.now port result }
    ensures cell { IfOk result (BlamesByWrites machine.now.job) }
{
    machine.holds();
    let job = machine.job();
    only_writes_clash(job);
    let log = machine.applied();
    blame_in(alloc, job, log, activity, port)
}
