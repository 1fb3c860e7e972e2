//! What the calls of a machine answer. Each answer is this project's choice.
//!
//! That the ready firings are elsewhere is an answer of `fire_in` alone (`StepIn`), so `fire` and `run`
//! have no answer that they never give.
ghost use Rattle.std.specs.Prelude.{◌≡◌};
ghost use Rattle.u_machine.specs.declared.answer.Refusal.TheVariants.{NoMemory};
ghost use Rattle.u_machine.specs.declared.answer.TakeRefusal.TheVariants as takes;
ghost use Rattle.u_machine.specs.declared.answer.ListRefusal.TheVariants as lists;

use std::alloc::AllocError;
use thiserror::Error;

/// What `fire` did.
#[derive(Clone, Copy, PartialEq, Eq, Debug)]
pub enum Step {
    /// It applied a firing, which has this place in the list of applied firings; places count from 0.
    Fired(usize),
    /// Nothing is ready.
    Quiet,
}

/// What `fire_in` did.
#[derive(Clone, Copy, PartialEq, Eq, Debug)]
pub enum StepIn {
    /// It applied a firing, which has this place in the list of applied firings; places count from 0.
    Fired(usize),
    /// Nothing is ready.
    Quiet,
    /// Something is ready, and nothing that is ready has its bucket in the mask.
    Elsewhere,
}

/// Where `run` ended.
#[derive(Clone, Copy, PartialEq, Eq, Debug)]
pub enum Ran {
    /// Nothing is ready.
    Quiet,
    /// It fired as often as it may, and more is ready.
    Paused,
}

/// Why nothing was done.
#[derive(Clone, Copy, PartialEq, Eq, Debug, Error)]
pub enum Refusal {
    /// The machine has as many firings as it may.
    #[error("full")]
    Full,
    /// There is no memory.
    #[error("no memory")]
    NoMemory,
}

impl From<AllocError> for Refusal {
    ghost from_gives = { λ _ e. e ≡ NoMemory };

    fn from(_: AllocError) -> Refusal {
        Refusal::NoMemory
    }
}

/// What `take` did.
#[derive(Clone, Copy, PartialEq, Eq, Debug)]
pub enum Took {
    /// The firing was taken before.
    Known,
    /// It is taken, and it was applied.
    Taken,
    /// It is taken, and waits until what it needs is held.
    Parked,
}

/// Why a firing was not taken.
#[derive(Clone, Copy, PartialEq, Eq, Debug, Error)]
pub enum TakeRefusal {
    /// It is no firing of the job.
    #[error("not a firing of this job")]
    NotAFiring,
    /// The machine has as many firings as it may.
    #[error("full")]
    Full,
    /// There is no memory.
    #[error("no memory")]
    NoMemory,
}

impl From<AllocError> for TakeRefusal {
    ghost from_gives = { λ _ e. e ≡ takes.NoMemory };

    fn from(_: AllocError) -> TakeRefusal {
        TakeRefusal::NoMemory
    }
}

/// Why a list of firings was not taken.
#[derive(Clone, Copy, PartialEq, Eq, Debug, Error)]
pub enum ListRefusal {
    /// The one at this place, counted from 0, is the first that is no firing of the job.
    #[error("firing {0} not of this job")]
    NotAFiring(usize),
    /// The machine may not have as many firings besides as the list has new ones.
    #[error("full")]
    Full,
    /// There is no memory.
    #[error("no memory")]
    NoMemory,
}

impl From<AllocError> for ListRefusal {
    ghost from_gives = { λ _ e. e ≡ lists.NoMemory };

    fn from(_: AllocError) -> ListRefusal {
        ListRefusal::NoMemory
    }
}
