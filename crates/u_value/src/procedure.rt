//! Procedures, as values.
ghost use Rattle.std.specs.Prelude.{◌≡◌, ◌==◌, IfOk};
ghost use Rattle.std.proofs.Common.{rules};
ghost use Rattle.std.specs.Cmp.Lexicographic.{slice_cmp};
ghost use Rattle.std.specs.Cmp.{partial_order_from_own_ties};
ghost use Rattle.std.specs.Cmp.Rules.{comparing, hashing};
ghost use Rattle.std.specs.Ordering.{nat_cmp, as_partial_cmp};
ghost use Rattle.std.specs.Hash as fed;
ghost use lib.Pointwise.{pointwise};

use std::alloc::{AllocError, Global};
use std::cmp::Ordering;
use std::hash::{Hash, Hasher};
use std::marker::Model;
use std::sync::Arc;
use u_name::BlockName;

/// A procedure: the name of its block, which copies share. Procedures are ordered by the bytes of the
/// name. Contracts see these bytes.
#[derive(Drop)]
pub struct Procedure {
    block: Arc<BlockName, Global>,
}

impl Model for Procedure {
    ghost use Rattle.std.specs.Prelude.{List, ℕ};

    ghost Value = { List ℕ };

    ghost view = { λ p. p.block.value };
}

impl Procedure {
    /// The procedure of that block.
    ///
    /// # Errors
    /// `AllocError` where there is no memory.
    pub fn new(alloc: Global, block: BlockName) -> Result<Procedure, AllocError>
        ensures { IfOk result (λ p. p ≡ block) }
    {
        let block = Arc::new(alloc, block)?;
        Ok(Procedure { block })
    }

    /// The name of its block.
    pub fn block(&self) -> &BlockName
        ensures { result.now ≡ self.now }
    {
        &self.block
    }

    /// An equal procedure, which shares the name with this one.
    ///
    /// # Errors
    /// `AllocError` where so many share it already, 2^63, that no copy can be made.
    pub fn copy(&self) -> Result<Procedure, AllocError>
        ensures { IfOk result (λ p. p ≡ self.now) }
    {
        let block = Arc::try_clone(&self.block)?;
        Ok(Procedure { block })
    }
}

impl PartialEq for Procedure {
    ghost eq = { pointwise ◌==◌ };

    ghost laws = { Prim.search (comparing, rules) };

    fn eq(&self, other: &Procedure) -> bool {
        self.block() == other.block()
    }
}

impl Eq for Procedure {
    ghost laws = { Prim.search (comparing, rules) };
}

impl Ord for Procedure {
    ghost cmp = { slice_cmp nat_cmp };

    ghost total = { Prim.search (comparing, rules) };

    ghost matches_partial_cmp = { Prim.search (comparing, rules) };

    ghost matches_eq = { Prim.search (comparing, rules) };

    fn cmp(&self, other: &Procedure) -> Ordering {
        self.block().cmp(other.block())
    }
}

impl PartialOrd for Procedure {
    ghost partial_cmp = { as_partial_cmp (slice_cmp nat_cmp) };

    ghost laws = { partial_order_from_own_ties (Prim.search (comparing, rules)) (Prim.search (comparing, rules)) };

    fn partial_cmp(&self, other: &Procedure) -> Option<Ordering> {
        Some(self.cmp(other))
    }
}

impl Hash for Procedure {
    ghost hash_input = { λ a. fed.slice fed.u8 a };

    ghost respects_eq = { Prim.search (hashing, rules) };

    fn hash<H: Hasher>(&self, state: &mut H) {
        self.block().hash(state);
    }
}
