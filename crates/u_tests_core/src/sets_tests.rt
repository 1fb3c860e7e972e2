//! Worked lists and sets of numbers.
use std::alloc::{AllocError, Global};
use std::test::Fail;
use u_sets::{OrderedSet, has, place_in};

/// Numbers as they are put in, with whether each is new.
const PUT_IN: &[(u32, bool)] = &[(7, true), (5, true), (7, false), (6, true)];

/// Whether a list that 7, 5, 7 and 6 are put into in order is 5, 6 and 7.
fn list_has(alloc: Global) -> Result<bool, AllocError> {
    let mut list = Vec::new(alloc);
    let is_new = place_in(&mut list, 7_u32)? && place_in(&mut list, 5_u32)?;
    let is_known = !place_in(&mut list, 7_u32)? && place_in(&mut list, 6_u32)?;
    let has_all = list.as_slice() == [5, 6, 7].as_slice();
    Ok(is_new && is_known && has_all && has(&list, &6) && !has(&list, &8))
}

/// Whether an ordered set that they are put into has 5, 6 and 7, and then 6 and 7.
fn ordered_set_has(alloc: Global) -> Result<bool, AllocError> {
    let mut set = OrderedSet::new(alloc);
    for (number, is_new) in PUT_IN {
        if set.insert(*number)? != *is_new {
            return Ok(false);
        }
    }
    let whole = set.len() == 3 && set.iter().count() == 3 && !set.contains(&8);
    Ok(whole && set.nth(0) == Some(&5) && set.remove(&5) && set.nth(0) == Some(&6))
}

/// Whether an ordered set of one key shows it, and lets it go.
fn single_key_is_shown(alloc: Global) -> Result<bool, AllocError> {
    let mut set = OrderedSet::new(alloc);
    let is_new = set.insert(7_u32)?;
    let is_known = !set.insert(7)?;
    let whole = set.len() == 1 && set.iter().count() == 1 && set.contains(&7) && !set.contains(&8);
    let places = set.nth(0) == Some(&7) && set.nth(1) == None && set.first() == Some(&7);
    let stays = !set.remove(&8) && set.len() == 1;
    let goes = set.remove(&7) && set.len() == 0 && set.pop_first() == None;
    Ok(is_new && is_known && whole && places && stays && goes)
}

#[test]
fn sets_have_what_was_put_in(rt: HostRuntime) -> Result<(), Fail> {
    assert!(rt; list_has(rt.alloc())?);
    assert!(rt; ordered_set_has(rt.alloc())?);
    assert!(rt; single_key_is_shown(rt.alloc())?);
    Ok(())
}
