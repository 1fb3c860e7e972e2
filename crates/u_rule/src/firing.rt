//! Firings: which activity fires, on which values.
//!
//! By Arvind and Gostelow (1982) an activity fires once each of its ports has a token. Here a firing
//! is a record of its values, so that it can be named, ordered and sent: this project's profile.
ghost use Rattle.std.specs.Prelude.{◌≡◌, IfOk};
ghost use Rattle.u_rule.specs.Orders.{firing_order};

use crate::shared_written::SharedWritten;
use crate::values::Values;
use std::alloc::{AllocError, Global};
use std::cmp::Ordering;
use u_name::Name;

/// A firing: an activity, one value for each of its ports, and for a read of a cell one write.
/// Firings are ordered by activity, then by the list of values, then by the write, where none comes first.
#[derive(PartialEq, Eq, PartialOrd, Ord, Hash, Drop)]
pub struct Firing {
    /// The activity that fires.
    pub activity: Name,
    /// The values at its ports.
    pub values: Values,
    /// The write that it read.
    pub write: Option<SharedWritten>,
}

impl Firing {
    /// By activity, values and write, as `cmp`.
    #[tactic(auto, using(crate::proofs::Orders::derived_firing_cmp))]
    pub fn compare(&self, other: &Firing) -> Ordering
        ensures { result ≡ firing_order self.now other.now }
    {
        self.cmp(other)
    }

    /// An equal firing.
    ///
    /// # Errors
    /// `AllocError` where there is no memory.
    pub fn copy(&self, alloc: Global) -> Result<Firing, AllocError>
        ensures { IfOk result (λ f. f ≡ self.now) }
    {
        let activity = self.activity.copy()?;
        let values = self.values.copy(alloc)?;
        let write = match &self.write {
            None => None,
            Some(write) => Some(write.copy()?),
        };
        Ok(Firing {
            activity,
            values,
            write,
        })
    }
}
