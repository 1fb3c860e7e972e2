//! Lists that have room.
ghost use Rattle.std.specs.Prelude.{◌≡◌, ◌<◌, ◌≤◌, vec_len, vec_capacity};
ghost use Rattle.std.specs.List.{insert};

/// Puts the item at that place of a list that has room for it; the later ones move up.
pub(crate) fn put_back<T: Drop>(list: &mut Vec<T>, place: usize, item: T)
    requires place { place ≤ vec_len list.old }
    requires room { vec_len list.old < vec_capacity list.old }
    ensures { list.new.items ≡ insert list.old.items place item }
{
    list.insert(place, item).unwrap();
}
