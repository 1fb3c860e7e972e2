//! Lists that fall: the least item stands last.
ghost use Rattle.std.specs.Prelude.{◌≡◌, ◌↔◌, ◌+◌, OnOk, OnErr, IfOk, IfErr, Contains, IsTrue, length, reverse, slice_get, Some};
ghost use Rattle.std.specs.List.{insert};
ghost use Rattle.std.specs.List.Sorted.{IsSearchInRange};
ghost use Rattle.u_sets.specs.Rising.{Rises};
ghost use Rattle.u_sets.specs.Members.{IsWith};

use std::alloc::AllocFailed;
use std::cmp::Ordering;
use u_base::ExactOrd;

/// The place of the item, or the place where it would go. An item above all of a list of three or more
/// is compared with the greatest alone; else it is looked for from the least item on.
pub(crate) fn place_of<T: ExactOrd>(list: &[T], item: &T) -> Result<usize, usize>
    requires { Rises T.cmp (reverse list.now) }
    ensures found { IfOk result (λ i. slice_get list.now i ≡ Some item.now) }
    ensures within { IsSearchInRange result (length list.now) }
    ensures rises { IfErr result (λ i. Rises T.cmp (reverse (insert list.now i item.now))) }
    ensures absent { OnErr result (Contains list.now item.now → ⊥) }
{
    if list.len() > 2 && list[0].cmp(item).is_lt() {
        return Err(0);
    }
    let mut place = list.len();
    while place > 0 {
        match list[place - 1].cmp(item) {
            Ordering::Less => place -= 1,
            Ordering::Equal => return Ok(place - 1),
            Ordering::Greater => return Err(place),
        }
    }
    Err(place)
}

/// Puts the item in its place in a list that falls, unless it is there. Returns whether it was new.
///
/// # Errors
/// `AllocFailed` with the item where there is no memory; the list stays as it was.
pub(crate) fn put_in_place<T: ExactOrd + Drop>(
    list: &mut Vec<T>,
    item: T,
) -> Result<bool, AllocFailed<T>>
    requires { Rises T.cmp (reverse list.old.items) }
    ensures rises { Rises T.cmp (reverse list.new.items) }
    ensures ok { OnOk result (IsWith list.old.items item list.new.items) }
    ensures new { IfOk result (λ b. IsTrue b ↔ (Contains list.old.items item → ⊥)) }
    ensures still { IfOk result (λ b. (IsTrue b → ⊥) → list.new.items ≡ list.old.items) }
    ensures err { OnErr result (list.new.items ≡ list.old.items) }
    ensures back { IfErr result (λ e. e.value ≡ item) }
    ensures count { IfOk result
        (λ b. IsTrue b → length list.new.items ≡ length list.old.items + 1) }
{
    match place_of(list, &item) {
        Ok(_) => Ok(false),
        Err(place) => {
            list.insert(place, item)?;
            Ok(true)
        }
    }
}
