//! Which firing of a list is the first to give each entry.
ghost use Rattle.std.specs.Prelude.{IfOk, OnOk};
ghost use Rattle.u_rule.specs.Rule.{own_of};
ghost use Rattle.u_rule.specs.HeldEntries.{entries_given};
ghost use Rattle.u_trace.specs.Table.{place_in, Owns, StillOwns};
ghost use Rattle.u_trace.specs.Givers.{Notes, AreGivers, AreFirings};

use crate::table::Givers;
use std::alloc::{AllocError, Global};
use u_check::Job;
use u_rule::{Entry, Firing, Given, Sending, TokenRef, given};

/// Gives each of the entries that place, unless it has one.
fn note_all(givers: &mut Givers, entries: &[Entry], place: usize) -> Result<(), AllocError>
    ensures notes { OnOk result
        (Notes (place_in givers.old) entries.now place (place_in givers.new)) }
    ensures owns { StillOwns givers.old givers.new }
{
    for entry in entries {
        givers.note(entry, place)?;
    }
    Ok(())
}

/// Gives each of the tokens that place, unless it has one.
fn note_sent(givers: &mut Givers, sent: &Sending<'_>, place: usize) -> Result<(), AllocError>
    ensures notes { OnOk result
        (Notes (place_in givers.old) sent.now place (place_in givers.new)) }
    ensures owns { StillOwns givers.old givers.new }
{
    for at in 0..sent.len() {
        givers.note_token(&sent.token(at), place)?;
    }
    Ok(())
}

/// Gives all that a firing gives that place, unless it has one.
fn note_given(givers: &mut Givers, all: &Given<'_>, place: usize) -> Result<(), AllocError>
    ensures notes { OnOk result
        (Notes (place_in givers.old) (entries_given all.now) place (place_in givers.new)) }
    ensures owns { StillOwns givers.old givers.new }
{
    match all {
        Given::Sent(sent) => note_sent(givers, sent, place),
        Given::Alone(token) => givers.note_token(&TokenRef::of(token), place),
        Given::Listed(entries) => note_all(givers, entries, place),
    }
}

/// For each entry that a firing of the list gives, the place of the first that does, and the numbers of
/// the activities of the firings.
///
/// # Errors
/// `AllocError` where there is no memory.
pub(crate) fn givers_of(alloc: Global, job: &Job, log: &[Firing]) -> Result<Givers, AllocError>
    requires { AreFirings (own_of job.now) log.now }
    ensures givers { IfOk result (λ t. AreGivers (own_of job.now) log.now (place_in t)) }
    ensures owners { IfOk result (λ t. Owns t log.now) }
{
    let mut givers = Givers::new(alloc);
    for (place, firing) in log.iter().enumerate() {
        givers.own(firing)?;
        let all = given(alloc, job, firing)?;
        note_given(&mut givers, &all, place)?;
    }
    Ok(givers)
}
