//! Contexts, each of which has a number.
//!
//! A context is hashed by its kind, its outer context's number and its parts. The context itself stands
//! beside its number, so a name that leads back from its number shares it. Of each depth the context that
//! was asked for last is looked at first.
ghost use Rattle.std.specs.Prelude.{◌≡◌, ◌<◌, [], ◌∷◌, IfOk, IfSome, IfNone, IsTrue, Contains, length, slice_get, Some};
ghost use Rattle.std.specs.Option.{option_copied};
ghost use Rattle.u_base.specs.Firing.{Distinct};
ghost use Rattle.u_name.specs.Context.{Top};
ghost use Rattle.u_names.specs.Groups.{Grows};
ghost use Rattle.u_names.specs.Contexts.{tree_at};

use crate::context_keys::ContextKey;
use std::alloc::{AllocError, Global};
use std::marker::Model;
use u_name::Context;
use u_sets::{PlacedSet, push_into_room};

/// How many depths there are: contexts are at most 64 deep.
const DEPTHS: usize = 65;

/// The number of the root.
const ROOT: u32 = 0;

/// The most contexts beside the root: with as many their numbers still fit.
const MOST: usize = u32::MAX as usize;

/// Distinct contexts, by keys. The number of a context is its place, counted from 0, which it keeps,
/// and the root has 0. Contracts see the list of the contexts.
#[derive(Drop)]
pub(crate) struct Contexts {
    root: Context,
    /// The keys of the others, in the order of their numbers.
    keys: PlacedSet<ContextKey>,
    /// The contexts of the keys, at the same places, so that none is made again to give out a name.
    others: Vec<Context>,
    /// For each depth the number that was asked for last, which is looked at first, and then the next.
    latest: [u32; DEPTHS],
}

impl Model for Contexts {
    ghost use Rattle.std.specs.Prelude.{List, ◌∷◌};
    ghost use Rattle.u_name.specs.Context.{Tree};
    ghost use Rattle.u_names.specs.Contexts.{AreContexts, trees_code};

    ghost Value = { List Tree };

    ghost coded = { trees_code };

    ghost view = { λ c. c.root ∷ c.others.items };

    ghost invariant = { λ c. AreContexts c.root c.others.items c.keys };
}

impl Contexts {
    /// The root alone. It takes no memory.
    pub(crate) fn new(alloc: Global) -> Contexts
        ensures { result ≡ Top ∷ [] }
    {
        Contexts {
            root: Context::root(),
            keys: PlacedSet::new(alloc),
            others: Vec::new(alloc),
            latest: [ROOT; DEPTHS],
        }
    }

    /// The context that has that number, if there is one.
    pub(crate) fn get(&self, number: u32) -> Option<&Context>
        ensures { option_copied result ≡ slice_get self.now number }
    {
        if number == ROOT {
            return Some(&self.root);
        }
        self.others.get((number - 1) as usize)
    }

    /// Whether the context has that number.
    fn is_at(&self, number: u32, context: &Context) -> bool
        ensures { IsTrue result → slice_get self.now number ≡ Some context.now }
    {
        match self.get(number) {
            Some(there) => there == context,
            None => false,
        }
    }

    /// The number that was asked for last of a context as deep, or the next one, if it is that of the
    /// context. Contexts of one depth mostly come again in the order in which they came first.
    fn latest_of(&self, context: &Context) -> Option<u32>
        ensures { IfSome result (λ n. slice_get self.now n ≡ Some context.now) }
    {
        let latest = self.latest[context.depth() as usize];
        if self.is_at(latest, context) {
            return Some(latest);
        }
        let next = latest.checked_add(1)?;
        if self.is_at(next, context) {
            return Some(next);
        }
        None
    }

    /// The number of the context with that key. If it is new, it goes last.
    fn number_by(&mut self, context: &Context, key: ContextKey) -> Result<u32, AllocError>
        requires key { tree_at self.old key ≡ context.now }
        requires outer { key.outer < length self.old }
        ensures number { IfOk result (λ n. slice_get self.new n ≡ Some context.now) }
        ensures grows { Grows self.old self.new }
        ensures distinct { Distinct self.new }
    {
        if self.others.len() >= MOST {
            return Err(AllocError);
        }
        let copy = context.copy()?;
        self.others.reserve(1)?;
        let (place, is_new) = self.keys.insert(key)?;
        if !is_new {
            return Ok(place as u32 + 1);
        }
        push_into_room(&mut self.others, copy);
        Ok(place as u32 + 1)
    }

    /// The number of the context. If it has none, it and those of its outer contexts that have none get
    /// theirs, behind all numbers that there are.
    ///
    /// # Errors
    /// `AllocError` where there is no memory, or where 2^32 contexts have numbers already. All have the
    /// numbers that they had, and outer contexts may have got theirs.
    pub(crate) fn number_of(&mut self, context: &Context) -> Result<u32, AllocError>
        ensures number { IfOk result (λ n. slice_get self.new n ≡ Some context.now) }
        ensures grows { Grows self.old self.new }
        ensures distinct { Distinct self.new }
    {
        // Brings in that the root stands first, and that no context stands twice.
        let _ = &self.root;
        if let Some(number) = self.latest_of(context) {
            self.latest[context.depth() as usize] = number;
            return Ok(number);
        }
        let Some((outer, key)) = ContextKey::apart(context) else {
            return Ok(ROOT);
        };
        let outer = self.number_of(outer)?;
        let number = self.number_by(context, key.within(outer))?;
        self.latest[context.depth() as usize] = number;
        Ok(number)
    }

    /// The number of the context, if it has one. It takes no memory.
    pub(crate) fn find(&self, context: &Context) -> Option<u32>
        ensures number { IfSome result (λ n. slice_get self.now n ≡ Some context.now) }
        ensures none { IfNone result (Contains self.now context.now → ⊥) }
    {
        // Brings in that the root stands first.
        let _ = &self.root;
        if let Some(number) = self.latest_of(context) {
            return Some(number);
        }
        let Some((outer, key)) = ContextKey::apart(context) else {
            return Some(ROOT);
        };
        let outer = self.find(outer)?;
        let place = self.keys.place_of(&key.within(outer))?;
        Some(place as u32 + 1)
    }
}
