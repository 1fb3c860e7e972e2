//! Lists that rise: what is in them, and how an item is put in its place.
ghost use Rattle.std.specs.Prelude.{◌≡◌, ◌↔◌, ◌+◌, OnOk, OnErr, IfOk, IfErr, Contains, IsTrue, length};
ghost use Rattle.u_base.specs.Firing.{Same, Distinct};
ghost use Rattle.u_sets.specs.Rising.{Rises};
ghost use Rattle.u_sets.specs.Members.{IsWith};

use std::alloc::AllocFailed;
use u_base::ExactOrd;

/// Whether the item is in the list, which rises.
pub fn has<T: ExactOrd>(list: &[T], item: &T) -> bool
    requires { Rises T.cmp list.now }
    ensures { IsTrue result ↔ Contains list.now item.now }
{
    match list.binary_search(item) {
        Ok(_) => true,
        Err(_) => false,
    }
}

/// Puts the item in its place in a list that rises, unless it is there. Returns whether it was new.
///
/// # Errors
/// `AllocFailed` with the item where there is no memory; the list stays as it was.
pub fn place_in<T: ExactOrd + Drop>(list: &mut Vec<T>, item: T) -> Result<bool, AllocFailed<T>>
    requires { Rises T.cmp list.old.items }
    ensures rises { Rises T.cmp list.new.items }
    ensures ok { OnOk result (IsWith list.old.items item list.new.items) }
    ensures new { IfOk result (λ b. IsTrue b ↔ (Contains list.old.items item → ⊥)) }
    ensures still { IfOk result (λ b. (IsTrue b → ⊥) → list.new.items ≡ list.old.items) }
    ensures err { OnErr result (list.new.items ≡ list.old.items) }
    ensures back { IfErr result (λ e. e.value ≡ item) }
    ensures count { IfOk result
        (λ b. IsTrue b → length list.new.items ≡ length list.old.items + 1) }
{
    match list.binary_search(&item) {
        Ok(_) => Ok(false),
        Err(place) => {
            list.insert(place, item)?;
            Ok(true)
        }
    }
}

/// Puts the items, of which none comes twice, in ascending order.
pub fn put_in_order<T: ExactOrd + Drop>(list: &mut Vec<T>)
    requires { Distinct list.old.items }
    ensures rises { Rises T.cmp list.new.items }
    ensures same { Same (Contains list.new.items) (Contains list.old.items) }
{
    list.sort_unstable();
}
