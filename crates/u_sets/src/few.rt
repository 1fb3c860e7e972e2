//! The values in one place.
ghost use Rattle.std.specs.Prelude.{◌≡◌, ◌↔◌, [], ◌∷◌, ◌<◌, OnOk, OnErr, IfOk, IfErr, Contains, IsTrue};
ghost use Rattle.std.specs.Mem.{FitsInMemory};
ghost use Rattle.indexmap.specs.IndexSet.{spare};
ghost use Rattle.u_base.specs.Firing.{Distinct};
ghost use Rattle.u_sets.specs.Members.{IsWith};
ghost use Rattle.u_sets.specs.Pairs.{items_of, IsOne};

use indexmap::IndexSet;
use std::alloc::{AllocFailed, Global};
use std::hash::Hash;
use std::{mem, slice};
use u_base::ExactOrd;

/// The values in one place: none, a single one, which stands in place, or several, which are found by
/// their hashes.
#[derive(Drop)]
pub(crate) enum Few<V: ExactOrd + Hash + Drop> {
    Empty,
    One(V),
    Many(Box<IndexSet<V>>),
}

/// The set of that value, with room for one more.
fn with_room<V: ExactOrd + Hash + Drop>(
    alloc: Global,
    value: V,
) -> Result<Box<IndexSet<V>>, AllocFailed<V>>
    ensures keys { IfOk result (λ s. s.value.keys ≡ value ∷ []) }
    ensures room { IfOk result (λ s. 0 < spare s.value) }
    ensures back { IfErr result (λ e. e.value ≡ value) }
{
    let Ok(all) = IndexSet::with_capacity(alloc, 2) else {
        return Err(AllocFailed { value });
    };
    let Ok(mut all) = Box::new(alloc, all) else {
        return Err(AllocFailed { value });
    };
    let _ = all.insert(value)?;
    Ok(all)
}

impl<V: ExactOrd + Hash + Drop> Few<V> {
    /// The values.
    pub(crate) fn as_slice(&self) -> &[V]
        requires { FitsInMemory V.row }
        ensures items { result.now ≡ items_of self.now }
        ensures distinct { Distinct (items_of self.now) }
    {
        match self {
            Few::Empty => &[],
            Few::One(value) => slice::from_ref(value),
            Few::Many(all) => all.as_slice(),
        }
    }

    /// Whether the value is there.
    pub(crate) fn contains(&self, value: &V) -> bool
        ensures { IsTrue result ↔ Contains (items_of self.now) value.now }
    {
        match self {
            Few::Empty => false,
            Few::One(there) => there == value,
            Few::Many(all) => all.contains(value),
        }
    }

    /// Puts another value beside the single one.
    fn join(&mut self, alloc: Global, value: V) -> Result<bool, AllocFailed<V>>
        requires one { IsOne self.old }
        requires other { Contains (items_of self.old) value → ⊥ }
        ensures ok { OnOk result (IsWith (items_of self.old) value (items_of self.new)) }
        ensures new { IfOk result (λ b. IsTrue b) }
        ensures err { OnErr result (self.new ≡ self.old) }
        ensures back { IfErr result (λ e. e.value ≡ value) }
    {
        let all = with_room(alloc, value)?;
        let first = mem::replace(self, Few::Many(all));
        let (Few::Many(all), Few::One(first)) = (self, first) else {
            unreachable!()
        };
        let Ok(added) = all.insert(first) else {
            unreachable!()
        };
        Ok(added)
    }

    /// Puts the value in. Returns whether it was new.
    pub(crate) fn insert(&mut self, alloc: Global, value: V) -> Result<bool, AllocFailed<V>>
        ensures ok { OnOk result (IsWith (items_of self.old) value (items_of self.new)) }
        ensures new { IfOk result (λ b. IsTrue b ↔ (Contains (items_of self.old) value → ⊥)) }
        ensures still { IfOk result (λ b. (IsTrue b → ⊥) → self.new ≡ self.old) }
        ensures err { OnErr result (items_of self.new ≡ items_of self.old) }
        ensures back { IfErr result (λ e. e.value ≡ value) }
    {
        if self.contains(&value) {
            return Ok(false);
        }
        match self {
            Few::Empty => {
                *self = Few::One(value);
                Ok(true)
            }
            Few::One(_) => self.join(alloc, value),
            Few::Many(all) => {
                let added = all.insert(value)?;
                Ok(added)
            }
        }
    }
}
