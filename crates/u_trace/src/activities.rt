//! Activities that wait for tokens.
ghost use Rattle.std.specs.Prelude.{◌≡◌, ◌↔◌, Contains, OnOk, IfOk, Some};
ghost use Rattle.u_sets.specs.Rising.{Rises, IsListOf};
ghost use Rattle.u_sets.specs.Members.{Gains, SomeOf};
ghost use Rattle.u_base.specs.Firing.{Same};
ghost use Rattle.u_trace.specs.declared.activities.WaitingActivity.{WaitingActivity};
ghost use Rattle.u_trace.specs.Waiting.{IsWaiting};
ghost use Rattle.u_trace.specs.Orders.{waiting_order, by_activity};
ghost use Rattle.u_trace.specs.Gathering.{WaitsAt};

use crate::filling::{filled, ports_in};
use crate::ports::Ports;
use std::alloc::{AllocError, Global};
use u_history::History;
use u_name::Name;
use u_program::Program;
use u_rule::Entry;
use u_sets::place_in;

/// An activity that has a token at some port and none at another.
#[derive(PartialEq, Eq, PartialOrd, Ord, Hash, Drop)]
pub struct WaitingActivity {
    /// The activity.
    pub activity: Name,
    /// Its ports that have a token.
    pub has: Ports,
    /// Its ports that lack one.
    pub lacks: Ports,
}

/// The activity with its ports that have a token and those that lack one, if it waits.
fn waiting(
    program: &Program,
    history: &History,
    activity: &Name,
) -> Result<Option<WaitingActivity>, AllocError>
    ensures { IfOk result (λ o. (w : WaitingActivity) → (o ≡ Some w)
        ↔ ((activity.now ≡ w.activity)
        × IsWaiting program.now.blocks (Contains history.now) w)) }
{
    let all = ports_in(program, activity);
    let tokens = filled(history, activity)?;
    let has = all.and(tokens);
    let lacks = all.without(tokens);
    if has.is_empty() {
        return Ok(None);
    }
    if lacks.is_empty() {
        return Ok(None);
    }
    Ok(Some(WaitingActivity {
        activity: activity.copy()?,
        has,
        lacks,
    }))
}

/// Adds the activity of the entry, if it is a token and its activity waits.
fn add_waiting(
    program: &Program,
    history: &History,
    entry: &Entry,
    found: &mut Vec<WaitingActivity>,
) -> Result<(), AllocError>
    requires { Rises waiting_order found.old.items }
    ensures rises { Rises waiting_order found.new.items }
    ensures ok { OnOk result
        (Gains found.old.items (WaitsAt program.now.blocks (Contains history.now) entry.now)
        found.new.items) }
{
    let Entry::Token(token) = entry else {
        return Ok(());
    };
    let waits = waiting(program, history, token.activity())?;
    let item = match waits {
        None => return Ok(()),
        Some(item) => item,
    };
    place_in(found, item)?;
    Ok(())
}

/// The activities that wait in the history, in order. The entries are those of the history.
///
/// # Errors
/// `AllocError` where there is no memory.
pub(crate) fn waiting_activities(
    alloc: Global,
    program: &Program,
    history: &History,
    entries: &[Entry],
) -> Result<Vec<WaitingActivity>, AllocError>
    requires { Same (Contains entries.now) (Contains history.now) }
    ensures { IfOk result
        (λ v. IsListOf by_activity
        (IsWaiting program.now.blocks (Contains history.now)) v.items) }
{
    let mut found = Vec::new(alloc);
    for entry in entries {
        add_waiting(program, history, entry, &mut found)?;
    }
    Ok(found)
}
