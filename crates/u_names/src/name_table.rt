//! Names in frames.
//!
//! The frame that was asked for last is looked at first, and so are the last few places. So most names are
//! found without hashing, and looking for a name takes no memory.
ghost use Rattle.std.specs.Prelude.{◌≡◌, ℕ, [], OnOk, OnErr, IfOk, IfSome, IfNone, IsTrue, Contains, length, slice_get, Some};
ghost use Rattle.u_sets.specs.Members.{GoesLast};
ghost use Rattle.u_base.specs.Firing.{Distinct};
ghost use Rattle.u_name.specs.Context.{IsBetween};
ghost use Rattle.u_name.specs.Name.{Activity};
ghost use Rattle.u_names.specs.Frames.{beside};

use crate::frames::Frames;
use crate::places::NamePlace;
use std::alloc::{AllocError, Global};
use std::marker::Model;
use u_name::Name;
use u_sets::PlacedSet;

/// How many numbers that were asked for lately are kept.
const RECENT: usize = 8;

/// Distinct names, by frames and places. The number of a name is its place, counted from 0, which it
/// keeps. Contracts see the list of the names.
#[derive(Drop)]
pub(crate) struct NameTable {
    frames: Frames,
    places: PlacedSet<NamePlace>,
    /// Numbers that were asked for lately, which are looked at first.
    recent: [usize; RECENT],
}

impl Model for NameTable {
    ghost use Rattle.std.specs.Prelude.{List};
    ghost use Rattle.u_name.specs.Name.{Activity};
    ghost use Rattle.u_names.specs.NameLists.{names_code, names_at, AreNames};

    ghost Value = { List Activity };

    ghost coded = { names_code };

    ghost view = { λ n. names_at n.frames n.places };

    ghost invariant = { λ n. AreNames n.frames n.places };
}

/// Whether the place has that number.
fn is_at(places: &PlacedSet<NamePlace>, number: usize, place: &NamePlace) -> bool
    ensures { IsTrue result → slice_get places.now number ≡ Some place.now }
{
    match places.get(number) {
        Some(there) => there == place,
        None => false,
    }
}

/// The number of the place, which goes last if it is new. Of the places with such a statement the one
/// that was asked for last is looked at first.
fn number_of_place(
    places: &mut PlacedSet<NamePlace>,
    recent: &mut [usize; RECENT],
    place: NamePlace,
) -> Result<usize, AllocError>
    ensures number { IfOk result (λ i. slice_get places.new i ≡ Some place) }
    ensures ok { OnOk result (GoesLast places.old place places.new) }
    ensures err { OnErr result (places.new ≡ places.old) }
    ensures distinct { Distinct places.new }
{
    let slot = usize::from(place.statement()) % RECENT;
    let last = recent[slot];
    if is_at(places, last, &place) {
        // Brings in that no place stands twice.
        let _len = places.len();
        return Ok(last);
    }
    let (number, _) = places.insert(place)?;
    recent[slot] = number;
    Ok(number)
}

impl NameTable {
    /// The table without names. It takes no memory.
    pub(crate) fn new(alloc: Global) -> NameTable
        ensures { result ≡ [] }
    {
        NameTable {
            frames: Frames::new(alloc),
            places: PlacedSet::new(alloc),
            recent: [0; RECENT],
        }
    }

    /// How many names there are.
    pub(crate) fn len(&self) -> usize
        ensures { result ≡ length self.now }
    {
        self.places.len()
    }

    /// The number of the name with that statement in place of its own. A name that is new goes last.
    ///
    /// # Errors
    /// `AllocError` where there is no memory, or where 2^32 contexts or 2^32 blocks in contexts have
    /// numbers already; the names and their numbers stay as they were.
    pub(crate) fn number_beside(&mut self, name: &Name, statement: u16) -> Result<usize, AllocError>
        requires { IsBetween 1 statement 999 }
        ensures number { IfOk result
            (λ i. slice_get self.new i ≡ Some (beside name.now statement)) }
        ensures ok { OnOk result (GoesLast self.old (beside name.now statement) self.new) }
        ensures err { OnErr result (self.new ≡ self.old) }
        ensures distinct { Distinct self.new }
    {
        let frame = self.frames.number_of(name)?;
        let Some(place) = NamePlace::of(frame, name, statement) else {
            return Err(AllocError);
        };
        let id = number_of_place(&mut self.places, &mut self.recent, place)?;
        Ok(id)
    }

    /// The number of the name with that statement in place of its own, if it is there. It takes no
    /// memory.
    pub(crate) fn find_beside(&self, name: &Name, statement: u16) -> Option<usize>
        requires { IsBetween 1 statement 999 }
        ensures number { IfSome result
            (λ i. slice_get self.now i ≡ Some (beside name.now statement)) }
        ensures none { IfNone result (Contains self.now (beside name.now statement) → ⊥) }
    {
        let frame = self.frames.find(name)?;
        let place = NamePlace::of(frame, name, statement)?;
        self.places.place_of(&place)
    }

    /// A name that is equal to the one that has that number, if there is one.
    ///
    /// # Errors
    /// `AllocError` where so many share the context already, 2^63, that no copy can be made.
    pub(crate) fn name_of(&self, id: usize) -> Result<Option<Name>, AllocError>
        ensures { IfOk result (λ n. n ≡ slice_get self.now id) }
    {
        let Some(place) = self.places.get(id) else {
            return Ok(None);
        };
        let frame = place.frame();
        let name = self
            .frames
            .name(frame, place.statement(), place.initiation())?;
        Ok(Some(name))
    }

    /// Different numbers have different names, so that a name has one number. It does nothing, and
    /// callers cite its clause.
    pub(crate) fn are_distinct(&self)
        ensures { (i j : ℕ) (n : Activity) → slice_get self.now i ≡ Some n
            → slice_get self.now j ≡ Some n → i ≡ j }
    {
        // Brings in that no name stands twice.
        let _len = self.places.len();
    }
}
