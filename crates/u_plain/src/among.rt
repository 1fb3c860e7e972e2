//! Lists of firings.
ghost use Rattle.std.specs.Prelude.{◌≡◌, ◌↔◌, ◌⊎◌, Contains, OnOk, IsTrue};
ghost use Rattle.u_rule.specs.declared.firing.Firing.{Firing};
ghost use Rattle.u_base.specs.Firing.{Within};

use std::alloc::AllocError;
use u_rule::Firing;

/// Whether the two firings are equal.
fn is_same(left: &Firing, right: &Firing) -> bool
    ensures { IsTrue result ↔ (left.now ≡ right.now) }
{
    left.cmp(right).is_eq()
}

/// Whether the firing is in the list.
fn is_among(list: &[Firing], firing: &Firing) -> bool
    ensures { IsTrue result ↔ Contains list.now firing.now }
{
    for other in list {
        if is_same(other, firing) {
            return true;
        }
    }
    false
}

/// Whether each of these firings is in the list.
pub fn are_among(list: &[Firing], firings: &[Firing]) -> bool
    ensures { IsTrue result ↔ Within (Contains list.now) firings.now }
{
    for firing in firings {
        if !is_among(list, firing) {
            return false;
        }
    }
    true
}

/// Adds the firing at the end, unless it is there.
pub fn add_new(list: &mut Vec<Firing>, firing: Firing) -> Result<(), AllocError>
    ensures { OnOk result
        ((f : Firing) → Contains list.new.items f ↔ (Contains list.old.items f ⊎ (firing ≡ f))) }
{
    if is_among(list, &firing) {
        return Ok(());
    }
    list.push(firing)?;
    Ok(())
}
