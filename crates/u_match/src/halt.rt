//! Why the firings that an entry wakes are not made.
ghost use Rattle.std.specs.Prelude.{◌≡◌};
ghost use Rattle.u_match.specs.declared.halt.Halt.TheVariants.{NoMemory};

use std::alloc::{AllocError, AllocFailed};

/// Why no more firings are made.
#[derive(Clone, Copy, PartialEq, Eq)]
pub(crate) enum Halt {
    /// There is no memory.
    NoMemory,
    /// There would be more of them than were asked for.
    TooMany,
}

impl From<AllocError> for Halt {
    ghost from_gives = { λ _ e. e ≡ NoMemory };

    fn from(_: AllocError) -> Halt {
        Halt::NoMemory
    }
}

impl<T: Drop> From<AllocFailed<T>> for Halt {
    ghost from_gives = { λ _ e. e ≡ NoMemory };

    fn from(_: AllocFailed<T>) -> Halt {
        Halt::NoMemory
    }
}
