//! The places of keys.
ghost use Rattle.std.specs.Prelude.{◌≡◌, OnOk, OnErr, IsTrue, None};
ghost use Rattle.u_trace.specs.Places.{place_of, IsPut};

use std::alloc::{AllocError, Global};
use std::collections::HashMap;
use std::hash::Hash;
use u_base::ExactOrd;

/// A place for each of some keys.
#[derive(Drop)]
pub(crate) struct Places<K: ExactOrd + Hash + Drop> {
    map: HashMap<K, usize>,
}

impl<K: ExactOrd + Hash + Drop> Places<K> {
    /// No key has a place. It takes no memory.
    #[tactic(auto, unfolding(crate::specs::Places::place_of))]
    pub(crate) fn new(alloc: Global) -> Places<K>
        ensures { (q : K) → place_of K.eq result q ≡ None }
    {
        Places {
            map: HashMap::new(alloc),
        }
    }

    /// Whether the map is empty. Then no key has a place.
    #[tactic(auto, unfolding(crate::specs::Places::place_of))]
    pub(crate) fn is_empty(&self) -> bool
        ensures { IsTrue result → (q : K) → place_of K.eq self.now q ≡ None }
    {
        self.map.is_empty()
    }

    /// The place of the key, if it has one.
    #[tactic(auto, unfolding(crate::specs::Places::place_of))]
    pub(crate) fn of(&self, key: &K) -> Option<usize>
        ensures { result ≡ place_of K.eq self.now key.now }
    {
        self.map.get(key).copied()
    }

    /// Gives the key that place.
    ///
    /// # Errors
    /// `AllocError` where there is no memory; all keys have the places that they had.
    #[tactic(auto, unfolding(crate::specs::Places::place_of))]
    pub(crate) fn put(&mut self, key: K, place: usize) -> Result<(), AllocError>
        ensures ok { OnOk result (IsPut K.eq self.old key place self.new) }
        ensures err { OnErr result
            ((q : K) → place_of K.eq self.new q ≡ place_of K.eq self.old q) }
    {
        self.map.insert(key, place)?;
        Ok(())
    }
}
