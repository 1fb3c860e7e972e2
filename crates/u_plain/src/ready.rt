//! The firings that are enabled over a history and have not been taken.
ghost use Rattle.std.specs.Prelude.{◌≡◌, ◌⊎◌, IfOk, OnOk, Contains};
ghost use Rattle.u_rule.specs.Rule.{own_of};
ghost use Rattle.u_rule.specs.declared.firing.Firing.{Firing};
ghost use Rattle.u_rule.specs.EntryOrder.{firing_cmp};
ghost use Rattle.u_base.specs.Firing.{Enabled};
ghost use Rattle.u_sets.specs.Rising.{Rises};

use crate::enabling::enabled;
use std::alloc::{AllocError, Global};
use u_check::Job;
use u_history::History;
use u_rule::Firing;
use u_sets::{OrderedSet, place_in};

/// Those firings of the list that are not in the set, in order.
pub fn not_among(
    alloc: Global,
    found: &[Firing],
    taken: &OrderedSet<Firing>,
) -> Result<Vec<Firing>, AllocError>
    ensures exact { IfOk result
        (λ v. (f : Firing) → Contains v.items f
        → Contains found.now f × (Contains taken.now f → ⊥)) }
    ensures all { IfOk result
        (λ v. (f : Firing) → Contains found.now f → Contains v.items f ⊎ Contains taken.now f) }
    ensures rises { IfOk result (λ v. Rises firing_cmp v.items) }
{
    let mut rest = Vec::new(alloc);
    for firing in found {
        add_new(alloc, &mut rest, taken, firing)?;
    }
    Ok(rest)
}

/// Adds the firing in its place, unless it is in the list or the set.
fn add_new(
    alloc: Global,
    rest: &mut Vec<Firing>,
    taken: &OrderedSet<Firing>,
    firing: &Firing,
) -> Result<(), AllocError>
    requires { Rises firing_cmp rest.old.items }
    ensures exact { (f : Firing) → Contains rest.new.items f
        → Contains rest.old.items f ⊎ ((firing.now ≡ f) × (Contains taken.now f → ⊥)) }
    ensures kept { (f : Firing) → Contains rest.old.items f → Contains rest.new.items f }
    ensures there { OnOk result
        (Contains rest.new.items firing.now ⊎ Contains taken.now firing.now) }
    ensures rises { Rises firing_cmp rest.new.items }
{
    if taken.contains(firing) {
        return Ok(());
    }
    let copy = firing.copy(alloc)?;
    place_in(rest, copy)?;
    Ok(())
}

/// The firings of the job that are enabled over the history and are not in the set, in order.
///
/// # Errors
/// `AllocError` where there is no memory.
pub fn ready_firings(
    alloc: Global,
    job: &Job,
    history: &History,
    taken: &OrderedSet<Firing>,
) -> Result<Vec<Firing>, AllocError>
    ensures exact { IfOk result
        (λ v. (f : Firing) → Contains v.items f
        → Enabled (own_of job.now) (Contains history.now) f × (Contains taken.now f → ⊥)) }
    ensures all { IfOk result
        (λ v. (f : Firing) → Enabled (own_of job.now) (Contains history.now) f
        → Contains v.items f ⊎ Contains taken.now f) }
    ensures rises { IfOk result (λ v. Rises firing_cmp v.items) }
{
    let entries = history.entries()?;
    let found = enabled(alloc, job, &entries)?;
    let ready = not_among(alloc, &found, taken)?;
    Ok(ready)
}
