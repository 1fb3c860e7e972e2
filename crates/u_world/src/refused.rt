//! Why an event does not happen.
//!
//! To take what is no firing of the job is a bad event, and settles the replica as its `take` does. A
//! restart is never refused for want of room: what was saved was taken under the same limit.
ghost use Rattle.std.specs.Prelude.{◌≡◌};
ghost use Rattle.u_world.specs.Refusals.{of_fire, of_take, of_list, of_merge, of_restore, error_at};
ghost use Rattle.u_world.specs.declared.refused.Refused.TheVariants as refusals;

use std::alloc::{AllocError, AllocFailed};
use thiserror::Error;
use u_machine::{ListRefusal, Refusal, TakeRefusal};
use u_replica::{MergeRefusal, RestoreError};

/// Why a world stopped in a list of events. The number is the event's place in the list, from 0. The
/// events before it have happened, and those behind it were not looked at.
#[derive(Clone, Copy, PartialEq, Eq, Debug, Error)]
pub enum WorldError {
    /// There is no such replica or message, a replica asks or merges itself, what is to be taken is no
    /// firing of the job, or the replica that starts again lives its last life.
    #[error("event {0} cannot be done")]
    BadEvent(usize),
    /// The replica may not take as many firings.
    #[error("event {0} finds a replica full")]
    Full(usize),
    /// There is no memory.
    #[error("event {0} finds no memory")]
    NoMemory(usize),
}

/// Why one event does not happen.
#[derive(Clone, Copy, PartialEq, Eq, Debug)]
pub(crate) enum Refused {
    /// It cannot be done in this world.
    BadEvent,
    /// The replica may not take as many firings.
    Full,
    /// There is no memory.
    NoMemory,
}

impl From<AllocError> for Refused {
    ghost from_gives = { λ _ e. e ≡ refusals.NoMemory };

    fn from(_: AllocError) -> Refused {
        Refused::NoMemory
    }
}

impl<T: Drop> From<AllocFailed<T>> for Refused {
    ghost from_gives = { λ _ e. e ≡ refusals.NoMemory };

    fn from(_: AllocFailed<T>) -> Refused {
        Refused::NoMemory
    }
}

impl Refused {
    /// Why the replica did not fire.
    pub(crate) fn of_fire(refusal: Refusal) -> Refused
        ensures { result ≡ of_fire refusal }
    {
        match refusal {
            Refusal::Full => Refused::Full,
            Refusal::NoMemory => Refused::NoMemory,
        }
    }

    /// Why the replica did not take the firing.
    pub(crate) fn of_take(refusal: TakeRefusal) -> Refused
        ensures { result ≡ of_take refusal }
    {
        match refusal {
            TakeRefusal::NotAFiring => Refused::BadEvent,
            TakeRefusal::Full => Refused::Full,
            TakeRefusal::NoMemory => Refused::NoMemory,
        }
    }

    /// Why the replica did not take the firings.
    pub(crate) fn of_list(refusal: ListRefusal) -> Refused
        ensures { result ≡ of_list refusal }
    {
        match refusal {
            ListRefusal::NotAFiring(_) => Refused::BadEvent,
            ListRefusal::Full => Refused::Full,
            ListRefusal::NoMemory => Refused::NoMemory,
        }
    }

    /// Why the replica did not merge the other one.
    pub(crate) fn of_merge(refusal: MergeRefusal) -> Refused
        ensures { result ≡ of_merge refusal }
    {
        match refusal {
            MergeRefusal::OtherJob => Refused::BadEvent,
            MergeRefusal::Full => Refused::Full,
            MergeRefusal::NoMemory => Refused::NoMemory,
        }
    }

    /// Why the replica did not start again.
    pub(crate) fn of_restore(error: RestoreError) -> Refused
        ensures { result ≡ of_restore error }
    {
        match error {
            RestoreError::Full => Refused::Full,
            RestoreError::NoMemory => Refused::NoMemory,
            _ => Refused::BadEvent,
        }
    }

    /// The same of the event at that place of a list.
    pub(crate) fn at(self, place: usize) -> WorldError
        ensures { result ≡ error_at self place }
    {
        match self {
            Refused::BadEvent => WorldError::BadEvent(place),
            Refused::Full => WorldError::Full(place),
            Refused::NoMemory => WorldError::NoMemory(place),
        }
    }
}
