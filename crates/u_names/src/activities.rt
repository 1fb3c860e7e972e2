//! Numbers of activities.
ghost use Rattle.std.specs.Prelude.{◌≡◌, ◌<◌, ◌-◌, [], IfOk, IfSome, IfNone, Contains, length, slice_get, Some};
ghost use Rattle.u_base.specs.Firing.{Distinct};
ghost use Rattle.u_name.specs.Context.{IsBetween};
ghost use Rattle.u_names.specs.Frames.{beside};
ghost use Rattle.u_names.specs.Groups.{behind, Grows};

use crate::names::Names;
use std::alloc::{AllocError, Global};
use std::marker::Model;
use u_name::Name;

/// How many activities get numbers together.
const GROUP: usize = 3;

/// The most groups: with as many their numbers still fit.
const MOST_GROUPS: usize = 1 << 62;

/// Distinct activities with numbers. The statements of a block stand in groups of three, from the first
/// one on, and the activities of a group in one context, at one initiation, get their numbers together:
/// so most activities are found beside one that was asked for lately. The number of an activity is its
/// place, counted from 0, which it keeps. Contracts see the list of the activities.
#[derive(Drop)]
pub struct Activities {
    /// The first ones of the groups.
    leaders: Names,
}

impl Model for Activities {
    ghost use Rattle.std.specs.Prelude.{List};
    ghost use Rattle.u_name.specs.Name.{Activity};
    ghost use Rattle.u_names.specs.NameLists.{names_code};
    ghost use Rattle.u_names.specs.Groups.{groups, AreLeaders};

    ghost Value = { List Activity };

    ghost coded = { names_code };

    ghost view = { λ a. groups a.leaders };

    ghost invariant = { λ a. AreLeaders a.leaders };
}

/// How far the statement stands behind the first one of its group.
fn behind_of(statement: u16) -> u16
    requires { IsBetween 1 statement 999 }
    ensures value { result ≡ behind statement }
    ensures first { IsBetween 1 (statement - result) 999 }
    ensures below { result < 3 }
{
    (statement - 1) % (GROUP as u16)
}

impl Activities {
    /// No activities. It takes no memory.
    pub fn new(alloc: Global) -> Activities
        ensures { result ≡ [] }
    {
        Activities {
            leaders: Names::new(alloc),
        }
    }

    /// How many activities have numbers.
    pub fn len(&self) -> usize
        ensures { result ≡ length self.now }
    {
        GROUP * self.leaders.len()
    }

    /// The number of the activity. If it has none, it and the others of its group get theirs, behind
    /// all numbers that there are.
    ///
    /// Promise activities-keep-numbers: no two activities have one number, and every activity keeps its
    /// number, after an error too.
    ///
    /// # Errors
    /// `AllocError` where there is no memory; all have the numbers that they had.
    pub fn number_of(&mut self, activity: &Name) -> Result<usize, AllocError>
        ensures number { IfOk result (λ n. slice_get self.new n ≡ Some activity.now) }
        ensures grows { Grows self.old self.new }
        ensures distinct { Distinct self.new }
    {
        let number = self.number_beside(activity, activity.statement())?;
        Ok(number)
    }

    /// The number of the activity of that statement, 1 to 999, beside the other: that of the same context,
    /// block and initiation. If it has none, it gets one as by `number_of`.
    ///
    /// # Errors
    /// As `number_of`.
    pub fn number_beside(&mut self, near: &Name, statement: u16) -> Result<usize, AllocError>
        requires { IsBetween 1 statement 999 }
        ensures number { IfOk result
            (λ n. slice_get self.new n ≡ Some (beside near.now statement)) }
        ensures grows { Grows self.old self.new }
        ensures distinct { Distinct self.new }
    {
        if self.leaders.len() >= MOST_GROUPS {
            return Err(AllocError);
        }
        let behind = behind_of(statement);
        let first = statement - behind;
        let place = self.leaders.number_beside(near, first)?;
        Ok(GROUP * place + usize::from(behind))
    }

    /// The number of the activity, if it has one. It takes no memory.
    pub fn find(&self, activity: &Name) -> Option<usize>
        ensures number { IfSome result (λ n. slice_get self.now n ≡ Some activity.now) }
        ensures none { IfNone result (Contains self.now activity.now → ⊥) }
    {
        let behind = behind_of(activity.statement());
        let first = activity.statement() - behind;
        let place = self.leaders.find_beside(activity, first)?;
        Some(GROUP * place + usize::from(behind))
    }

    /// A name that is equal to that of the activity with that number, if there is one.
    ///
    /// # Errors
    /// `AllocError` where so many share the context already, 2^63, that no copy can be made.
    pub fn name_of(&self, number: usize) -> Result<Option<Name>, AllocError>
        ensures { IfOk result (λ n. n ≡ slice_get self.now number) }
    {
        let found = self.leaders.name_of(number / GROUP)?;
        let Some(first) = found else {
            return Ok(None);
        };
        let behind = (number % GROUP) as u16;
        match first.plain(first.statement() + behind) {
            Ok(name) => Ok(Some(name)),
            Err(_) => Err(AllocError),
        }
    }
}
