//! Which entries a firing that gives an entry can need.
//!
//! A statement sends along its arcs to others of its block, and few kinds of statements give anything
//! else. So by the statement that an activity executes it is known of most activities that no firing
//! of theirs gives the entry.
ghost use Rattle.std.specs.Prelude.{◌≡◌};
ghost use Rattle.u_trace.specs.Sending.{leads_to, sends_far, may_send, may_give, matters};

use u_check::Job;
use u_name::Name;
use u_program::{Destination, Kind, Statement};
use u_rule::{Entry, NameRef, statement_at};

/// Whether one of the destinations is of that statement.
fn leads_to(destinations: &[Destination], statement: u16) -> bool
    ensures { result ≡ leads_to destinations.now statement }
{
    destinations
        .iter()
        .any(|destination| destination.statement == statement)
}

/// Whether a statement of that kind can give what does not go to its destinations.
fn sends_far(kind: &Kind) -> bool
    ensures { result ≡ sends_far kind.now }
{
    matches!(
        kind,
        Kind::Apply(_, _) | Kind::End | Kind::Store | Kind::Leave
    )
}

/// Whether a firing of the statement can give the entry.
fn may_send(statement: &Statement, entry: &Entry) -> bool
    ensures { result ≡ may_send statement.now entry.now }
{
    match entry {
        Entry::Token(token) => {
            let number = token.activity().statement();
            sends_far(statement.kind())
                || (leads_to(statement.destinations(), number)
                    || leads_to(statement.otherwise(), number))
        }
        Entry::Answer(_) => sends_far(statement.kind()),
        Entry::Write(_) | Entry::Fault(_) => true,
    }
}

/// Whether a firing of the activity can give the entry.
pub(crate) fn may_give(job: &Job, activity: &Name, entry: &Entry) -> bool
    ensures { result ≡ may_give job.now activity.now entry.now }
{
    match statement_at(job, &NameRef::of(activity)) {
        Some(statement) => may_send(statement, entry),
        None => true,
    }
}

/// Whether a firing that gives the entry can need the other, which is held.
pub(crate) fn matters(job: &Job, entry: &Entry, held: &Entry) -> bool
    ensures { result ≡ matters job.now entry.now held.now }
{
    match held {
        Entry::Token(token) => may_give(job, token.activity(), entry),
        Entry::Write(_) | Entry::Fault(_) | Entry::Answer(_) => true,
    }
}
