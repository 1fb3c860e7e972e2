//! The firings that a delta brings.
ghost use Rattle.std.specs.Prelude.{◌≡◌, IfOk};

use std::alloc::{AllocError, Global};
use std::marker::Model;
use u_rule::Firing;

/// Firings in the order of the log that they come from. Contracts see a list.
#[derive(Drop)]
pub struct Firings {
    all: Vec<Firing>,
}

impl Model for Firings {
    ghost use Rattle.std.specs.Prelude.{List};
    ghost use Rattle.u_rule.specs.declared.firing.Firing.{Firing};
    ghost use Rattle.u_rule.specs.EntryOrder.{firing_list_code};

    ghost Value = { List Firing };

    ghost coded = { firing_list_code };

    ghost view = { λ f. f.all.items };
}

impl Firings {
    /// These firings, in their order.
    pub fn new(all: Vec<Firing>) -> Firings
        ensures { result ≡ all.items }
    {
        Firings { all }
    }

    /// The firings, in the order of their log.
    pub fn as_slice(&self) -> &[Firing]
        ensures { result.now ≡ self.now }
    {
        &self.all
    }

    /// Equal firings, in the same order.
    ///
    /// # Errors
    /// `AllocError` where there is no memory.
    pub fn copy(&self, alloc: Global) -> Result<Firings, AllocError>
        ensures { IfOk result (λ f. f ≡ self.now) }
    {
        Firings::copied(alloc, &self.all)
    }

    /// Copies of these firings, in their order.
    ///
    /// # Errors
    /// `AllocError` where there is no memory.
    pub fn copied(alloc: Global, firings: &[Firing]) -> Result<Firings, AllocError>
        ensures { IfOk result (λ f. f ≡ firings.now) }
    {
        let mut all = Vec::with_capacity(alloc, firings.len())?;
        for firing in firings {
            all.push(firing.copy(alloc)?)?;
        }
        Ok(Firings { all })
    }
}
