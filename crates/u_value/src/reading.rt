//! Values read from bytes.
ghost use Rattle.std.specs.Prelude.{◌≡◌, ◌≤◌, Ok, Err, MatchResult, IfOk, length, drop};
ghost use Rattle.u_name.specs.BlockText.{block_at};
ghost use Rattle.u_base.specs.Choice.{mapped};
ghost use Rattle.u_base.specs.Signed.{signed};
ghost use Rattle.u_value.specs.Reading.{length_at, pointer_at, reference_of, false_at, true_at, value_at, IsValueOf, IsValueErrorOf, IsValueAt, IsValueErrorAt};
ghost use Rattle.u_value.specs.declared.reading.ValueTextError.TheVariants.{NoMemory, BadValue};
ghost use Rattle.u_value.specs.declared.value.Value.TheVariants as values;

use crate::procedure::Procedure;
use crate::reference::Reference;
use crate::value::Value;
use std::alloc::{AllocError, Global};
use thiserror::Error;
use u_base::{after, after_all, number0_at, signed_at};
use u_name::{Front, Name, front_block, front_name};

/// Why no value is read.
#[derive(Debug, Drop, PartialEq, Eq, Error)]
pub enum ValueTextError {
    /// No value's text begins there. It holds the offset, in all the bytes, of the first byte with
    /// which what begins there is no longer the front of a value's text.
    #[error("byte {0}: no value is written so")]
    BadValue(usize),
    /// A growth was refused.
    #[error("no memory")]
    NoMemory,
}

impl From<AllocError> for ValueTextError {
    ghost from_gives = { λ _ e. e ≡ NoMemory };

    fn from(_: AllocError) -> ValueTextError {
        ValueTextError::NoMemory
    }
}

/// `#` and a length from 0 to 1000000.
#[tactic(auto, using(u_base::proofs::FromZeroLaws::number0_at_bound))]
fn front_length(bytes: &[u8]) -> Front<'_, u32>
    ensures { MatchResult result
        (λ found. (found.0 ≤ 1000000) × (length_at bytes.now ≡ Ok (found.0, found.1.now)))
        (λ rest. length_at bytes.now ≡ Err rest.now) }
{
    number0_at(after(bytes, b'#')?, 1000000)
}

/// The reference of that name, with the length behind it.
fn with_length(alloc: Global, name: Name, bytes: &[u8]) -> Result<Front<'_, Reference>, AllocError>
    ensures { IfOk result (λ front. MatchResult front
        (λ found. (found.0.name ≡ name) × (length_at bytes.now ≡ Ok (found.0.length, found.1.now)))
        (λ rest. length_at bytes.now ≡ Err rest.now)) }
{
    match front_length(bytes) {
        Ok((length, rest)) => Ok(Ok((Reference::new(alloc, name, length)?, rest))),
        Err(rest) => Ok(Err(rest)),
    }
}

/// `name#length`, behind the `&`.
fn front_reference(alloc: Global, bytes: &[u8]) -> Result<Front<'_, Value>, AllocError>
    ensures { IfOk result (λ front. MatchResult front
        (λ found. mapped reference_of pointer_at bytes.now ≡ Ok (found.0, found.1.now))
        (λ rest. mapped reference_of pointer_at bytes.now ≡ Err rest.now)) }
{
    let (name, rest) = match front_name(alloc, bytes)? {
        Ok(found) => found,
        Err(rest) => return Ok(Err(rest)),
    };
    match with_length(alloc, name, rest)? {
        Ok((reference, rest)) => Ok(Ok((Value::Ref(reference), rest))),
        Err(rest) => Ok(Err(rest)),
    }
}

/// The procedure of a block, behind the `@`.
fn front_procedure(alloc: Global, bytes: &[u8]) -> Result<Front<'_, Value>, AllocError>
    ensures { IfOk result (λ front. MatchResult front
        (λ found. mapped values.Proc block_at bytes.now ≡ Ok (found.0, found.1.now))
        (λ rest. mapped values.Proc block_at bytes.now ≡ Err rest.now)) }
{
    match front_block(bytes) {
        Ok((block, rest)) => Ok(Ok((Value::Proc(Procedure::new(alloc, block)?), rest))),
        Err(rest) => Ok(Err(rest)),
    }
}

/// What is left of `false` behind its `f`.
fn front_false(bytes: &[u8]) -> Front<'_, Value>
    ensures { MatchResult result
        (λ found. false_at bytes.now ≡ Ok (found.0, found.1.now))
        (λ rest. false_at bytes.now ≡ Err rest.now) }
{
    let rest = after_all(bytes, b"alse")?;
    Ok((Value::Bool(false), rest))
}

/// What is left of `true` behind its `t`.
fn front_true(bytes: &[u8]) -> Front<'_, Value>
    ensures { MatchResult result
        (λ found. true_at bytes.now ≡ Ok (found.0, found.1.now))
        (λ rest. true_at bytes.now ≡ Err rest.now) }
{
    let rest = after_all(bytes, b"rue")?;
    Ok((Value::Bool(true), rest))
}

/// A signed number.
fn front_number(bytes: &[u8]) -> Front<'_, Value>
    ensures { MatchResult result
        (λ found. mapped values.Int signed bytes.now ≡ Ok (found.0, found.1.now))
        (λ rest. mapped values.Int signed bytes.now ≡ Err rest.now) }
{
    let (number, rest) = signed_at(bytes)?;
    Ok((Value::Int(number), rest))
}

/// The longest value at the front, and what is left behind it. Where there is none, what begins with
/// the byte with which no value's text goes on.
///
/// # Errors
/// `AllocError` where there is no memory.
#[tactic(auto, using(crate::proofs::ReadingLaws::behind_other, crate::proofs::ReadingLaws::behind_nothing))]
pub fn front_value(alloc: Global, bytes: &[u8]) -> Result<Front<'_, Value>, AllocError>
    ensures { IfOk result (λ front. MatchResult front
        (λ found. value_at bytes.now ≡ Ok (found.0, found.1.now))
        (λ rest. value_at bytes.now ≡ Err rest.now)) }
{
    let Some((first, rest)) = bytes.split_first() else {
        return Ok(front_number(bytes));
    };
    match *first {
        b'&' => front_reference(alloc, rest),
        b'@' => front_procedure(alloc, rest),
        b'f' => Ok(front_false(rest)),
        b't' => Ok(front_true(rest)),
        _ => Ok(front_number(bytes)),
    }
}

impl Value {
    /// The value whose text the bytes are. A refusal's offset is where the longest front of a value's
    /// text ends.
    ///
    /// Promise values-are-read: what is read has the bytes as its text, and the text of a value is refused
    /// only if there is no memory.
    pub fn read(alloc: Global, bytes: &[u8]) -> Result<Value, ValueTextError>
        ensures { MatchResult result (λ value. IsValueOf bytes.now value)
            (λ error. IsValueErrorOf bytes.now error) }
    {
        match front_value(alloc, bytes)? {
            Ok((value, rest)) => {
                if rest.is_empty() {
                    Ok(value)
                } else {
                    Err(ValueTextError::BadValue(bytes.len() - rest.len()))
                }
            }
            Err(rest) => Err(ValueTextError::BadValue(bytes.len() - rest.len())),
        }
    }

    /// The value of the longest text of a value that begins at the offset, and the offset behind it.
    pub fn read_at(
        alloc: Global,
        bytes: &[u8],
        offset: usize,
    ) -> Result<(Value, usize), ValueTextError>
        requires { offset ≤ length bytes.now }
        ensures { MatchResult result
            (λ found. IsValueAt bytes.now offset found.0 found.1)
            (λ error. IsValueErrorAt bytes.now offset error) }
    {
        match front_value(alloc, behind(bytes, offset))? {
            Ok((value, rest)) => Ok((value, bytes.len() - rest.len())),
            Err(rest) => Err(ValueTextError::BadValue(bytes.len() - rest.len())),
        }
    }
}

fn behind(bytes: &[u8], offset: usize) -> &[u8]
    requires { offset ≤ length bytes.now }
    ensures { drop offset bytes.now ≡ result.now }
{
    &bytes[offset..]
}
