//! Places: what a name is in a table of names.
ghost use Rattle.std.specs.Prelude.{◌≡◌, ◌≤◌, ◌^◌, IfSome, IfNone};
ghost use Rattle.u_name.specs.Context.{IsBetween};
ghost use Rattle.u_names.specs.Places.{place, IsPlace, place_of};
ghost use Rattle.u_names.specs.Frames.{beside};

use std::hash::{Hash, Hasher};
use std::marker::Model;
use u_name::Name;

/// How many initiations in a row have one hash.
const RUN: u64 = 4;

/// How many numbers a word of 64 bits can be: what is hashed of a place is two words.
const ROUND: u128 = 1 << 64;

/// A name whose frame has a number: that number, the name's statement and its initiation. Initiations in a row
/// have one hash, four by four, so a set that finds places by hashes has those of neighbouring turns of a loop
/// side by side in memory.
#[derive(PartialEq, Eq, PartialOrd, Ord, Drop)]
pub(crate) struct NamePlace {
    frame: u32,
    statement: u16,
    initiation: u64,
}

impl Model for NamePlace {
    ghost use Rattle.u_names.specs.Places.{NamePlaceParts, place, IsPlace, place_code};

    ghost Value = { NamePlaceParts };

    ghost coded = { place_code };

    ghost view = { λ p. place p.frame p.statement p.initiation };

    ghost invariant = { λ p. IsPlace (place p.frame p.statement p.initiation) };

    ghost inverse = { λ p. record { frame = p.frame; statement = p.statement; initiation = p.initiation } };
}

impl Hash for NamePlace {
    ghost use Rattle.std.proofs.Common.{rules};
    ghost use Rattle.std.specs.Cmp.Rules.{comparing, hashing};
    ghost use Rattle.u_names.specs.Places.{place_writes};

    ghost hash_input = { place_writes };

    ghost respects_eq = { Prim.search (comparing, hashing, rules) };

    fn hash<H: Hasher>(&self, state: &mut H) {
        let place = u64::from(self.frame) * 65536 + u64::from(self.statement);
        state.write_u128(u128::from(place) * ROUND + u128::from(self.initiation / RUN));
    }
}

impl NamePlace {
    /// The place of the name with that statement in place of its own, whose frame has that number.
    /// There is none from 2^32 on.
    pub(crate) fn of(frame: usize, name: &Name, statement: u16) -> Option<NamePlace>
        requires { IsBetween 1 statement 999 }
        ensures place { IfSome result (λ p. p ≡ place_of frame (beside name.now statement)) }
        ensures range { IfSome result IsPlace }
        ensures none { IfNone result (2 ^ 32 ≤ frame) }
    {
        let frame = u32::try_from(frame).ok()?;
        Some(NamePlace {
            frame,
            statement,
            initiation: name.initiation(),
        })
    }

    /// The number of its frame.
    pub(crate) fn frame(&self) -> usize
        ensures value { result ≡ self.now.frame }
        ensures bound { IsPlace self.now }
    {
        self.frame as usize
    }

    /// The number of its statement, 1 to 999.
    pub(crate) fn statement(&self) -> u16
        ensures value { result ≡ self.now.statement }
        ensures bound { IsPlace self.now }
    {
        self.statement
    }

    /// The number of its initiation, 1 to 18446744073709551615.
    pub(crate) fn initiation(&self) -> u64
        ensures value { result ≡ self.now.initiation }
        ensures bound { IsPlace self.now }
    {
        self.initiation
    }
}
