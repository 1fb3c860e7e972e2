//! Values.
ghost use Rattle.std.specs.Prelude.{◌≡◌, ◌++◌, ◌∷◌, IfOk, OnOk, OnErr};
ghost use Rattle.u_base.specs.Appending.{Extends};
ghost use Rattle.u_value.specs.Values.{value_cmp, value_text};

use crate::procedure::Procedure;
use crate::reference::Reference;
use std::alloc::AllocError;
use std::cmp::Ordering;
use u_base::{cut_back, push_signed};
use u_name::BlockName;

/// A value, as a token carries one. The kinds come in this order, and then the values by number,
/// false before true, the bytes of the block's name, and the reference's name and length. A value takes two
/// words: what is longer is shared by its copies.
#[derive(PartialEq, Eq, PartialOrd, Ord, Hash, Drop)]
pub enum Value {
    /// A signed number of 64 bits.
    Int(i64),
    /// A truth value.
    Bool(bool),
    /// A procedure.
    Proc(Procedure),
    /// A structure.
    Ref(Reference),
}

impl Value {
    /// By kind, and then by the value, as `cmp`.
    ///
    /// Promise values-in-order: the order is total, and only equal values compare as equal.
    #[tactic(auto, using(crate::specs::ExactOrders::derived_value_cmp))]
    pub fn compare(&self, other: &Value) -> Ordering
        ensures { result ≡ value_cmp self.now other.now }
    {
        self.cmp(other)
    }

    /// An equal value.
    pub fn copy(&self) -> Result<Value, AllocError>
        ensures { IfOk result (λ v. v ≡ self.now) }
    {
        Ok(match self {
            Value::Int(number) => Value::Int(*number),
            Value::Bool(truth) => Value::Bool(*truth),
            Value::Proc(procedure) => Value::Proc(procedure.copy()?),
            Value::Ref(reference) => Value::Ref(reference.copy()?),
        })
    }

    /// Appends the text of the value: `-7`, `true`, `@block` or `&name#length`.
    ///
    /// # Errors
    /// `AllocError` where there is no memory. Then `out` is as it was.
    #[tactic(auto, using(u_base::proofs::AppendingLaws::extends_cut))]
    pub fn write_text(&self, out: &mut Vec<u8>) -> Result<(), AllocError>
        ensures ok { OnOk result (out.new.items ≡ out.old.items ++ value_text self.now) }
        ensures err { OnErr result (out.new.items ≡ out.old.items) }
    {
        let len = out.len();
        let written = push_value(out, self);
        cut_back(out, len, written)
    }
}

/// Appends the text of the value. On an error a part of it may stand there.
#[tactic(auto, unfolding(crate::specs::Values::value_text), using(u_base::proofs::AppendingLaws::extends_same))]
fn push_value(out: &mut Vec<u8>, value: &Value) -> Result<(), AllocError>
    ensures ok { OnOk result (out.new.items ≡ out.old.items ++ value_text value.now) }
    ensures err { OnErr result (Extends out.old.items out.new.items) }
{
    match value {
        Value::Int(number) => push_signed(out, *number),
        Value::Bool(true) => out.extend_from_slice(b"true"),
        Value::Bool(false) => out.extend_from_slice(b"false"),
        Value::Proc(procedure) => push_block(out, procedure.block()),
        Value::Ref(reference) => reference.write_text(out),
    }
}

/// Appends `@block`. On an error a part of it may stand there.
#[tactic(auto, using(crate::proofs::Written::proc_more, u_base::proofs::AppendingLaws::extends_same, u_base::proofs::AppendingLaws::extends_by))]
fn push_block(out: &mut Vec<u8>, block: &BlockName) -> Result<(), AllocError>
    ensures ok { OnOk result (out.new.items ≡ out.old.items ++ (64 ∷ block.now)) }
    ensures err { OnErr result (Extends out.old.items out.new.items) }
{
    out.push(b'@')?;
    out.extend_from_slice(block.as_bytes())
}
