//! Entries read from bytes.
ghost use Rattle.std.specs.Prelude.{◌≡◌, Ok, Err, MatchResult, IfOk};
ghost use Rattle.u_base.specs.Choice.{mapped};
ghost use Rattle.u_base.specs.Fixed.{fixed};
ghost use Rattle.u_name.specs.Context.{IsBetween};
ghost use Rattle.u_rule.specs.Parts.{most_ports};
ghost use Rattle.u_rule.specs.EntryReading as reader;
ghost use Rattle.u_rule.specs.EntryReading.{port_at, index_at, cell_at, kind_at, entry_at};
ghost use Rattle.u_rule.specs.EntryReading.{token_at, write_at, fault_at, answer_at};
ghost use Rattle.u_rule.specs.EntryReading.{token_of, written_of, faulted_of, answer_of};
ghost use Rattle.u_rule.specs.EntryReading.{port_and_value, writer_and_value};
ghost use Rattle.u_rule.specs.EntryReading.{IsEntryOf, IsEntryErrorOf};
ghost use Rattle.u_rule.specs.declared.reading.TextError.TheVariants.{NoMemory};

use crate::entry::Entry;
use crate::parts::{Fault, MOST_PORTS, Token, Write};
use std::alloc::{AllocError, Global};
use thiserror::Error;
use u_base::{after, after_all, number0_at};
use u_name::{Cell, Front, Name, front_name};
use u_value::{FaultKind, Value, front_value};

/// Why no entry, or no firing, is read.
#[derive(Debug, Drop, PartialEq, Eq, Error)]
pub enum TextError {
    /// The bytes are no such text. It holds the offset of the first byte with which they are no
    /// longer the front of one; where all of them are the front of one, it is their number.
    #[error("byte {0}: no text is written so")]
    BadText(usize),
    /// A growth was refused.
    #[error("no memory")]
    NoMemory,
}

impl From<AllocError> for TextError {
    ghost from_gives = { λ _ e. e ≡ NoMemory };

    fn from(_: AllocError) -> TextError {
        TextError::NoMemory
    }
}

/// A port, which is one digit.
#[tactic(auto, using(crate::proofs::PortLaws::digit_read, crate::proofs::PortLaws::other_refused))]
fn front_port(bytes: &[u8]) -> Front<'_, u8>
    ensures { MatchResult result
        (λ found. (port_at bytes.now ≡ Ok (found.0, found.1.now))
        × IsBetween 1 found.0 most_ports)
        (λ rest. port_at bytes.now ≡ Err rest.now) }
{
    match bytes.split_first() {
        Some((digit, rest)) if b'1' <= *digit && *digit <= b'0' + MOST_PORTS as u8 => {
            Ok((*digit - b'0', rest))
        }
        _ => Err(bytes),
    }
}

/// The word, which stands for that kind.
fn front_word<'a>(bytes: &'a [u8], word: &[u8], kind: FaultKind) -> Front<'a, FaultKind>
    ensures { MatchResult result
        (λ found. mapped (λ _. kind) (fixed word.now) bytes.now ≡ Ok (found.0, found.1.now))
        (λ rest. mapped (λ _. kind) (fixed word.now) bytes.now ≡ Err rest.now) }
{
    let rest = after_all(bytes, word)?;
    Ok((kind, rest))
}

/// A kind of fault.
fn front_kind(bytes: &[u8]) -> Front<'_, FaultKind>
    ensures { MatchResult result
        (λ found. kind_at bytes.now ≡ Ok (found.0, found.1.now))
        (λ rest. kind_at bytes.now ≡ Err rest.now) }
{
    match bytes.split_first() {
        Some((b'k', rest)) => front_word(rest, b"ind", FaultKind::Kind),
        Some((b'o', rest)) => front_word(rest, b"verflow", FaultKind::Overflow),
        Some((b'z', rest)) => front_word(rest, b"ero", FaultKind::Zero),
        Some((b'd', rest)) => front_word(rest, b"eep", FaultKind::Deep),
        Some((b'i', rest)) => front_word(rest, b"nitiation", FaultKind::Initiation),
        Some((b'l', rest)) => front_word(rest, b"ength", FaultKind::Length),
        Some((b'b', rest)) => front_word(rest, b"ounds", FaultKind::Bounds),
        _ => front_word(bytes, b"arity", FaultKind::Arity),
    }
}

/// A space and a value.
pub(crate) fn spaced_value(alloc: Global, bytes: &[u8]) -> Result<Front<'_, Value>, AllocError>
    ensures { IfOk result (λ front. MatchResult front
        (λ found. reader.spaced_value bytes.now ≡ Ok (found.0, found.1.now))
        (λ rest. reader.spaced_value bytes.now ≡ Err rest.now)) }
{
    match after(bytes, b' ') {
        Ok(rest) => front_value(alloc, rest),
        Err(rest) => Ok(Err(rest)),
    }
}

/// A space and a name.
pub(crate) fn spaced_name(alloc: Global, bytes: &[u8]) -> Result<Front<'_, Name>, AllocError>
    ensures { IfOk result (λ front. MatchResult front
        (λ found. reader.spaced_name bytes.now ≡ Ok (found.0, found.1.now))
        (λ rest. reader.spaced_name bytes.now ≡ Err rest.now)) }
{
    match after(bytes, b' ') {
        Ok(rest) => front_name(alloc, rest),
        Err(rest) => Ok(Err(rest)),
    }
}

/// `[`, an index from 0 to 999999 and `]`, behind a name.
#[tactic(auto, using(u_base::proofs::FromZeroLaws::number0_at_bound))]
fn with_index(name: Name, bytes: &[u8]) -> Front<'_, Cell>
    ensures { MatchResult result
        (λ found. (found.0.name ≡ name)
        × (index_at bytes.now ≡ Ok ((found.0.index, tt), found.1.now)))
        (λ rest. index_at bytes.now ≡ Err rest.now) }
{
    let (index, rest) = number0_at(after(bytes, b'[')?, 999_999)?;
    let rest = after_all(rest, b"]")?;
    Ok((Cell::new(name, index), rest))
}

/// A cell.
#[tactic(auto, unfolding(crate::specs::EntryReading::cell_at))]
fn front_cell(alloc: Global, bytes: &[u8]) -> Result<Front<'_, Cell>, AllocError>
    ensures { IfOk result (λ front. MatchResult front
        (λ found. cell_at bytes.now ≡ Ok (found.0, found.1.now))
        (λ rest. cell_at bytes.now ≡ Err rest.now)) }
{
    match front_name(alloc, bytes)? {
        Ok((name, rest)) => Ok(with_index(name, rest)),
        Err(rest) => Ok(Err(rest)),
    }
}

/// A space and a port.
fn spaced_port(bytes: &[u8]) -> Front<'_, u8>
    ensures { MatchResult result
        (λ found. (reader.spaced_port bytes.now ≡ Ok (found.0, found.1.now))
        × IsBetween 1 found.0 most_ports)
        (λ rest. reader.spaced_port bytes.now ≡ Err rest.now) }
{
    front_port(after(bytes, b' ')?)
}

/// ` PORT VALUE`, behind the name of the activity.
fn with_port(alloc: Global, activity: Name, bytes: &[u8]) -> Result<Front<'_, Token>, AllocError>
    ensures { IfOk result (λ front. MatchResult front
        (λ found. (found.0.activity ≡ activity)
        × (port_and_value bytes.now ≡ Ok ((found.0.port, found.0.value), found.1.now)))
        (λ rest. port_and_value bytes.now ≡ Err rest.now)) }
{
    let (port, rest) = match spaced_port(bytes) {
        Ok(found) => found,
        Err(rest) => return Ok(Err(rest)),
    };
    match spaced_value(alloc, rest)? {
        Ok((value, rest)) => Ok(Ok((Token::new(activity, port, value), rest))),
        Err(rest) => Ok(Err(rest)),
    }
}

/// A token, behind the `t`.
fn front_token(alloc: Global, bytes: &[u8]) -> Result<Front<'_, Entry>, AllocError>
    ensures { IfOk result (λ front. MatchResult front
        (λ found. mapped token_of token_at bytes.now ≡ Ok (found.0, found.1.now))
        (λ rest. mapped token_of token_at bytes.now ≡ Err rest.now)) }
{
    let (activity, rest) = match spaced_name(alloc, bytes)? {
        Ok(found) => found,
        Err(rest) => return Ok(Err(rest)),
    };
    match with_port(alloc, activity, rest)? {
        Ok((token, rest)) => Ok(Ok((Entry::Token(token), rest))),
        Err(rest) => Ok(Err(rest)),
    }
}

/// ` WRITER VALUE`, behind the cell.
fn with_writer(alloc: Global, cell: Cell, bytes: &[u8]) -> Result<Front<'_, Write>, AllocError>
    ensures { IfOk result (λ front. MatchResult front
        (λ found. (found.0.cell ≡ cell)
        × (writer_and_value bytes.now ≡ Ok ((found.0.writer, found.0.value), found.1.now)))
        (λ rest. writer_and_value bytes.now ≡ Err rest.now)) }
{
    let (writer, rest) = match spaced_name(alloc, bytes)? {
        Ok(found) => found,
        Err(rest) => return Ok(Err(rest)),
    };
    match spaced_value(alloc, rest)? {
        Ok((value, rest)) => {
            let write = Write {
                cell,
                writer,
                value,
            };
            Ok(Ok((write, rest)))
        }
        Err(rest) => Ok(Err(rest)),
    }
}

/// A space and a cell.
fn spaced_cell(alloc: Global, bytes: &[u8]) -> Result<Front<'_, Cell>, AllocError>
    ensures { IfOk result (λ front. MatchResult front
        (λ found. reader.spaced_cell bytes.now ≡ Ok (found.0, found.1.now))
        (λ rest. reader.spaced_cell bytes.now ≡ Err rest.now)) }
{
    match after(bytes, b' ') {
        Ok(rest) => front_cell(alloc, rest),
        Err(rest) => Ok(Err(rest)),
    }
}

/// A write, behind the `w`.
#[tactic(auto, using(crate::proofs::EntryPartLaws::write_read))]
fn front_write(alloc: Global, bytes: &[u8]) -> Result<Front<'_, Entry>, AllocError>
    ensures { IfOk result (λ front. MatchResult front
        (λ found. mapped written_of write_at bytes.now ≡ Ok (found.0, found.1.now))
        (λ rest. mapped written_of write_at bytes.now ≡ Err rest.now)) }
{
    let (cell, rest) = match spaced_cell(alloc, bytes)? {
        Ok(found) => found,
        Err(rest) => return Ok(Err(rest)),
    };
    match with_writer(alloc, cell, rest)? {
        Ok((write, rest)) => Ok(Ok((Entry::Write(write), rest))),
        Err(rest) => Ok(Err(rest)),
    }
}

/// A space and a kind of fault, behind the name of the activity.
fn with_kind(activity: Name, bytes: &[u8]) -> Front<'_, Fault>
    ensures { MatchResult result
        (λ found. (found.0.activity ≡ activity)
        × (reader.spaced_kind bytes.now ≡ Ok (found.0.kind, found.1.now)))
        (λ rest. reader.spaced_kind bytes.now ≡ Err rest.now) }
{
    let (kind, rest) = front_kind(after(bytes, b' ')?)?;
    Ok((Fault { activity, kind }, rest))
}

/// A fault, behind the `x`.
fn front_fault(alloc: Global, bytes: &[u8]) -> Result<Front<'_, Entry>, AllocError>
    ensures { IfOk result (λ front. MatchResult front
        (λ found. mapped faulted_of fault_at bytes.now ≡ Ok (found.0, found.1.now))
        (λ rest. mapped faulted_of fault_at bytes.now ≡ Err rest.now)) }
{
    let (activity, rest) = match spaced_name(alloc, bytes)? {
        Ok(found) => found,
        Err(rest) => return Ok(Err(rest)),
    };
    match with_kind(activity, rest) {
        Ok((fault, rest)) => Ok(Ok((Entry::Fault(fault), rest))),
        Err(rest) => Ok(Err(rest)),
    }
}

/// An answer, with its `a`.
fn front_answer(alloc: Global, bytes: &[u8]) -> Result<Front<'_, Entry>, AllocError>
    ensures { IfOk result (λ front. MatchResult front
        (λ found. mapped answer_of answer_at bytes.now ≡ Ok (found.0, found.1.now))
        (λ rest. mapped answer_of answer_at bytes.now ≡ Err rest.now)) }
{
    let rest = match after(bytes, b'a') {
        Ok(rest) => rest,
        Err(rest) => return Ok(Err(rest)),
    };
    match spaced_value(alloc, rest)? {
        Ok((value, rest)) => Ok(Ok((Entry::Answer(value), rest))),
        Err(rest) => Ok(Err(rest)),
    }
}

/// The longest entry at the front, and what is left behind it. Where there is none, what begins
/// with the byte with which no entry's text goes on.
///
/// # Errors
/// `AllocError` where there is no memory.
#[tactic(auto, using(crate::proofs::EntryPartLaws::entry_behind_other, crate::proofs::EntryPartLaws::entry_behind_nothing))]
fn front_entry(alloc: Global, bytes: &[u8]) -> Result<Front<'_, Entry>, AllocError>
    ensures { IfOk result (λ front. MatchResult front
        (λ found. entry_at bytes.now ≡ Ok (found.0, found.1.now))
        (λ rest. entry_at bytes.now ≡ Err rest.now)) }
{
    let Some((first, rest)) = bytes.split_first() else {
        return front_answer(alloc, bytes);
    };
    match *first {
        b't' => front_token(alloc, rest),
        b'w' => front_write(alloc, rest),
        b'x' => front_fault(alloc, rest),
        _ => front_answer(alloc, bytes),
    }
}

impl Entry {
    /// Returns the entry whose text the bytes are: `t NAME PORT VALUE`, `w CELL WRITER VALUE`,
    /// `x NAME KIND` or `a VALUE`.
    ///
    /// Promise entries-are-read: what is read has the bytes as its text, and the text of an entry is refused
    /// only if there is no memory.
    ///
    /// # Errors
    /// `BadText` where the bytes are no entry's text: it holds the offset where the longest front of
    /// one ends. `NoMemory` where there is no memory.
    pub fn read(alloc: Global, bytes: &[u8]) -> Result<Entry, TextError>
        ensures { MatchResult result (λ entry. IsEntryOf bytes.now entry)
            (λ error. IsEntryErrorOf bytes.now error) }
    {
        match front_entry(alloc, bytes)? {
            Ok((entry, rest)) => {
                if rest.is_empty() {
                    Ok(entry)
                } else {
                    Err(TextError::BadText(bytes.len() - rest.len()))
                }
            }
            Err(rest) => Err(TextError::BadText(bytes.len() - rest.len())),
        }
    }
}
