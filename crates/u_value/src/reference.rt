//! References to structures.
//!
//! What is longer than a word lies behind a count of owners, so a value takes 16 bytes of whatever kind it
//! is. `Reference::new` may find no memory; copies take none.
ghost use Rattle.std.specs.Prelude.{◌≡◌, ◌≤◌, ◌++◌, IfOk, OnOk, OnErr};
ghost use Rattle.std.proofs.Common.{rules};
ghost use Rattle.std.specs.Cmp.{partial_order_from_own_ties};
ghost use Rattle.std.specs.Cmp.Rules.{comparing, hashing};
ghost use Rattle.std.specs.Ordering.{eq_by_cmp, as_partial_cmp};
ghost use Rattle.std.proofs.lemmas.Cmp.{eq_by_cmp_equiv};
ghost use Rattle.u_base.specs.Appending.{Extends};
ghost use Rattle.u_value.specs.PointerOrder.{pointer_cmp, pointer_cmp_total, pointer_hash, pointers_hash_alike};
ghost use Rattle.u_value.specs.Values.{pointer_text};
ghost use Rattle.u_value.specs.Pointer.{pointer, IsPointer};

use std::alloc::{AllocError, Global};
use std::cmp::Ordering;
use std::hash::{Hash, Hasher};
use std::marker::Model;
use std::sync::Arc;
use u_base::{cut_back, push_behind};
use u_name::Name;

/// A structure: the name of the activity that made it, and its length, 0 to 1000000. Copies share both.
/// References are ordered by name, and then by length.
#[derive(Drop)]
pub struct Reference {
    parts: Arc<Parts, Global>,
}

/// What a reference has.
#[derive(Drop)]
struct Parts {
    name: Name,
    length: u32,
}

impl Model for Reference {
    ghost use Rattle.u_value.specs.Pointer.{Pointer, pointer, IsPointer, pointer_code};

    ghost Value = { Pointer };

    ghost coded = { pointer_code };

    ghost view = { λ r. pointer r.parts.value.name r.parts.value.length };

    ghost invariant = { λ r. IsPointer (pointer r.parts.value.name r.parts.value.length) };
}

impl Reference {
    /// The structure of that name and length.
    ///
    /// # Errors
    /// `AllocError` where there is no memory.
    pub fn new(alloc: Global, name: Name, length: u32) -> Result<Reference, AllocError>
        requires { length ≤ 1000000 }
        ensures { IfOk result (λ r. r ≡ pointer name length) }
    {
        let parts = Arc::new(alloc, Parts { name, length })?;
        Ok(Reference { parts })
    }

    /// The name of the activity that made it.
    pub fn name(&self) -> &Name
        ensures { result.now ≡ self.now.name }
    {
        &self.parts.name
    }

    /// How many cells it has.
    pub fn length(&self) -> u32
        ensures value { result ≡ self.now.length }
        ensures bound { IsPointer self.now }
    {
        self.parts.length
    }

    /// An equal reference, which shares all with this one.
    pub fn copy(&self) -> Result<Reference, AllocError>
        ensures { IfOk result (λ r. r ≡ self.now) }
    {
        let parts = Arc::try_clone(&self.parts)?;
        Ok(Reference { parts })
    }

    /// By name, and then by length.
    fn compare(&self, other: &Reference) -> Ordering
        ensures { result ≡ pointer_cmp self.now other.now }
    {
        self.name()
            .cmp(other.name())
            .then(self.length().cmp(&other.length()))
    }

    /// Appends the text of the reference: `&name#length`.
    ///
    /// # Errors
    /// `AllocError` where there is no memory. Then `out` is as it was.
    #[tactic(auto, using(u_base::proofs::AppendingLaws::extends_cut))]
    pub fn write_text(&self, out: &mut Vec<u8>) -> Result<(), AllocError>
        ensures ok { OnOk result (out.new.items ≡ out.old.items ++ pointer_text self.now) }
        ensures err { OnErr result (out.new.items ≡ out.old.items) }
    {
        let len = out.len();
        let written = push_reference(out, self);
        cut_back(out, len, written)
    }
}

/// Appends the text of the reference. On an error a part of it may stand there.
#[tactic(auto, using(crate::proofs::Written::pointer_more, u_base::proofs::AppendingLaws::extends_same, u_base::proofs::AppendingLaws::extends_by, u_base::proofs::AppendingLaws::extends_behind))]
fn push_reference(out: &mut Vec<u8>, reference: &Reference) -> Result<(), AllocError>
    ensures ok { OnOk result (out.new.items ≡ out.old.items ++ pointer_text reference.now) }
    ensures err { OnErr result (Extends out.old.items out.new.items) }
{
    out.push(b'&')?;
    reference.name().write_text(out)?;
    push_behind(out, b'#', reference.length())
}

impl PartialEq for Reference {
    ghost eq = { eq_by_cmp pointer_cmp };

    ghost laws = { Prim.search (comparing, rules, pointer_cmp_total, eq_by_cmp_equiv) };

    /// The names come last, since they are longer.
    #[tactic(auto, using(crate::proofs::EqualReferences::other_length, crate::proofs::EqualReferences::same_but_name))]
    fn eq(&self, other: &Reference) -> bool {
        if self.length() != other.length() {
            return false;
        }
        self.name() == other.name()
    }
}

impl Eq for Reference {
    ghost laws = { eq_by_cmp_equiv pointer_cmp_total };
}

impl Ord for Reference {
    ghost cmp = { pointer_cmp };

    ghost total = { pointer_cmp_total };

    ghost matches_partial_cmp = { Prim.search (comparing, rules) };

    ghost matches_eq = { Prim.search (comparing, rules) };

    fn cmp(&self, other: &Reference) -> Ordering {
        self.compare(other)
    }
}

impl PartialOrd for Reference {
    ghost partial_cmp = { as_partial_cmp pointer_cmp };

    ghost laws = { partial_order_from_own_ties (Prim.search (comparing, rules, pointer_cmp_total)) (Prim.search (comparing, rules)) };

    fn partial_cmp(&self, other: &Reference) -> Option<Ordering> {
        Some(self.compare(other))
    }
}

impl Hash for Reference {
    ghost hash_input = { pointer_hash };

    ghost respects_eq = { pointers_hash_alike };

    fn hash<H: Hasher>(&self, state: &mut H) {
        self.name().hash(state);
        self.length().hash(state);
    }
}
