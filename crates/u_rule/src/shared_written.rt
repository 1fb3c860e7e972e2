//! What firings read, shared by their copies.
//!
//! Few firings have a write. In place it would make each firing half as large again.
ghost use Rattle.std.specs.Prelude.{◌≡◌, IfOk};
ghost use Rattle.std.proofs.Common.{rules};
ghost use Rattle.std.specs.Cmp.{partial_order_from_own_ties};
ghost use Rattle.std.specs.Cmp.Rules.{comparing};
ghost use Rattle.std.specs.Ordering.{eq_by_cmp, as_partial_cmp};
ghost use Rattle.std.proofs.lemmas.Cmp.{eq_by_cmp_equiv};
ghost use Rattle.u_rule.specs.WrittenOrder.{written_order, written_order_total, written_hash, written_hash_alike};

use crate::parts::Written;
use std::alloc::{AllocError, Global};
use std::cmp::Ordering;
use std::hash::{Hash, Hasher};
use std::marker::Model;
use std::sync::Arc;

/// A writer and what it wrote. Copies share both. They are ordered by writer and value.
#[derive(Drop)]
pub struct SharedWritten {
    written: Arc<Written, Global>,
}

impl Model for SharedWritten {
    ghost use Rattle.u_rule.specs.declared.parts.Written.{Written};
    ghost use Rattle.u_rule.specs.WrittenOrder.{written_code};

    ghost Value = { Written };

    ghost coded = { written_code };

    ghost view = { λ w. w.written.value };
}

impl SharedWritten {
    /// The writer and what it wrote.
    ///
    /// # Errors
    /// `AllocError` where there is no memory.
    pub fn new(alloc: Global, written: Written) -> Result<SharedWritten, AllocError>
        ensures { IfOk result (λ w. w ≡ written) }
    {
        let written = Arc::new(alloc, written)?;
        Ok(SharedWritten { written })
    }

    /// The writer and what it wrote.
    pub fn get(&self) -> &Written
        ensures { result.now ≡ self.now }
    {
        &self.written
    }

    /// An equal one, which shares both.
    ///
    /// # Errors
    /// `AllocError` where there is no memory.
    pub fn copy(&self) -> Result<SharedWritten, AllocError>
        ensures { IfOk result (λ w. w ≡ self.now) }
    {
        let written = Arc::try_clone(&self.written)?;
        Ok(SharedWritten { written })
    }
}

impl PartialEq for SharedWritten {
    ghost eq = { eq_by_cmp written_order };

    ghost laws = { Prim.search (comparing, rules, written_order_total, eq_by_cmp_equiv) };

    fn eq(&self, other: &SharedWritten) -> bool {
        self.get().cmp(other.get()).is_eq()
    }
}

impl Eq for SharedWritten {
    ghost laws = { eq_by_cmp_equiv written_order_total };
}

impl Ord for SharedWritten {
    ghost cmp = { written_order };

    ghost total = { written_order_total };

    ghost matches_partial_cmp = { Prim.search (comparing, rules) };

    ghost matches_eq = { Prim.search (comparing, rules) };

    fn cmp(&self, other: &SharedWritten) -> Ordering {
        self.get().cmp(other.get())
    }
}

impl PartialOrd for SharedWritten {
    ghost partial_cmp = { as_partial_cmp written_order };

    ghost laws = { partial_order_from_own_ties (Prim.search (comparing, rules, written_order_total)) (Prim.search (comparing, rules)) };

    fn partial_cmp(&self, other: &SharedWritten) -> Option<Ordering> {
        Some(self.cmp(other))
    }
}

impl Hash for SharedWritten {
    ghost hash_input = { written_hash };

    ghost respects_eq = { written_hash_alike };

    fn hash<H: Hasher>(&self, state: &mut H) {
        self.get().hash(state);
    }
}
