//! Lines that are compared, part by part, with the text of a firing that is there, so that no firing is made
//! of them.
ghost use Rattle.std.specs.Prelude.{◌≡◌, ◌↔◌, ◌++◌, IfOk, OnOk, IfSome, IsTrue};
ghost use Rattle.std.specs.Fmt.{decimal, signed_decimal};
ghost use Rattle.u_name.specs.NameText.{context_text, call_part, name_text};
ghost use Rattle.u_value.specs.Values.{value_text};
ghost use Rattle.u_rule.specs.FiringText.{values_text, firing_text};

use std::alloc::{AllocError, Global};
use u_base::{long_number0_at, signed_at};
use u_name::{Context, Name, behind_text};
use u_rule::Firing;
use u_value::Value;

/// A context with its text. Neighbours in a checkpoint mostly stand in one context, so that its text is written
/// once for all of them.
#[derive(Drop)]
pub(crate) struct SpelledContext {
    alloc: Global,
    context: Context,
    text: Vec<u8>,
    ghost spelled: { text.items ≡ context_text context },
}

/// What stands behind the number, where the bytes begin with it and no digit comes then.
fn behind_number(bytes: &[u8], number: u64) -> Option<&[u8]>
    ensures { IfSome result (λ rest. bytes.now ≡ decimal number ++ rest.now) }
{
    match long_number0_at(bytes, u64::MAX) {
        Ok((read, rest)) if read == number => Some(rest),
        _ => None,
    }
}

/// What stands behind the signed number, where the bytes begin with it and no digit comes then.
fn behind_signed(bytes: &[u8], number: i64) -> Option<&[u8]>
    ensures { IfSome result (λ rest. bytes.now ≡ signed_decimal number ++ rest.now) }
{
    match signed_at(bytes) {
        Ok((read, rest)) if read == number => Some(rest),
        _ => None,
    }
}

/// What stands behind the value, where it is a number or a truth value and the bytes begin with it.
#[tactic(auto, unfolding(u_value::specs::Values::value_text))]
fn behind_value<'a>(bytes: &'a [u8], value: &Value) -> Option<&'a [u8]>
    ensures { IfSome result (λ rest. bytes.now ≡ value_text value.now ++ rest.now) }
{
    match value {
        Value::Int(number) => behind_signed(bytes, *number),
        Value::Bool(true) => behind_text(bytes, b"true"),
        Value::Bool(false) => behind_text(bytes, b"false"),
        Value::Proc(_) | Value::Ref(_) => None,
    }
}

/// Whether the bytes are the values, each a number or a truth value behind a space.
fn are_values(bytes: &[u8], values: &[Value]) -> bool
    ensures { IsTrue result → bytes.now ≡ values_text values.now }
{
    let [first, others @ ..] = values else {
        return bytes.is_empty();
    };
    let Some(spaced) = behind_text(bytes, b" ") else {
        return false;
    };
    match behind_value(spaced, first) {
        Some(rest) => are_values(rest, others),
        None => false,
    }
}

/// What stands behind the parts of the name that follow its context, where the bytes begin with them.
#[tactic(auto, using(crate::proofs::SpelledTexts::parts_there))]
fn behind_parts<'a>(bytes: &'a [u8], name: &Name) -> Option<&'a [u8]>
    ensures { IfSome result (λ rest. bytes.now
        ≡ call_part name.now.block name.now.statement name.now.initiation ++ rest.now) }
{
    let block = behind_text(bytes, b".")?;
    let block_end = behind_text(block, name.block().as_bytes())?;
    let statement = behind_text(block_end, b".")?;
    let statement_end = behind_number(statement, u64::from(name.statement()))?;
    let initiation = behind_text(statement_end, b".")?;
    behind_number(initiation, name.initiation())
}

/// Whether the line is the text of the firing, which is written for that.
fn is_written(alloc: Global, firing: &Firing, line: &[u8]) -> Result<bool, AllocError>
    ensures { IfOk result (λ b. IsTrue b ↔ (line.now ≡ firing_text firing.now)) }
{
    let mut text = Vec::new(alloc);
    firing.write_text(&mut text)?;
    Ok(line == text.as_slice())
}

impl SpelledContext {
    /// The root.
    ///
    /// # Errors
    /// `AllocError` where there is no memory.
    pub(crate) fn root(alloc: Global) -> Result<SpelledContext, AllocError> {
        SpelledContext::of(alloc, &Context::root())
    }

    /// The context.
    fn of(alloc: Global, context: &Context) -> Result<SpelledContext, AllocError>
        ensures { IfOk result (λ s. s.context ≡ context.now) }
    {
        let mut text = Vec::new(alloc);
        context.write_text(&mut text)?;
        Ok(SpelledContext {
            alloc,
            context: context.copy()?,
            text,
        })
    }

    /// Takes this context in place of the one that was there.
    ///
    /// # Errors
    /// `AllocError` where there is no memory.
    pub(crate) fn spell(&mut self, context: &Context) -> Result<(), AllocError>
        ensures { OnOk result (self.new.context ≡ context.now) }
    {
        if self.context == *context {
            return Ok(());
        }
        *self = SpelledContext::of(self.alloc, context)?;
        Ok(())
    }

    /// What stands behind the name, which is in this context, where the bytes begin with it.
    fn behind_name<'a>(&self, bytes: &'a [u8], name: &Name) -> Option<&'a [u8]>
        requires { name.now.context ≡ self.now.context }
        ensures { IfSome result (λ rest. bytes.now ≡ name_text name.now ++ rest.now) }
    {
        let parts = behind_text(bytes, &self.text)?;
        let rest = behind_parts(parts, name)?;
        Some(rest)
    }

    /// Whether the line is the text of the firing, which is in this context, and none of its values is longer
    /// than a word.
    #[tactic(auto, using(crate::proofs::SpelledTexts::firing_there))]
    pub(crate) fn is_plain_text(&self, firing: &Firing, line: &[u8]) -> bool
        requires { firing.now.activity.context ≡ self.now.context }
        ensures { IsTrue result → line.now ≡ firing_text firing.now }
    {
        if firing.write.is_some() {
            return false;
        }
        let Some(name) = behind_text(line, b"f ") else {
            return false;
        };
        match self.behind_name(name, &firing.activity) {
            Some(values) => are_values(values, firing.values.as_slice()),
            None => false,
        }
    }

    /// Whether the line is the text of the firing. Its context is kept for the next one.
    ///
    /// # Errors
    /// `AllocError` where there is no memory.
    pub(crate) fn is_text(&mut self, firing: &Firing, line: &[u8]) -> Result<bool, AllocError>
        ensures { IfOk result (λ b. IsTrue b ↔ (line.now ≡ firing_text firing.now)) }
    {
        self.spell(firing.activity.context())?;
        if self.is_plain_text(firing, line) {
            return Ok(true);
        }
        is_written(self.alloc, firing, line)
    }
}
