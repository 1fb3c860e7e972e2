//! The text of a message, read line by line.
ghost use Rattle.std.specs.Prelude.{◌≡◌, ◌∷◌, [], ◌<◌, length, MatchResult};
ghost use Rattle.u_rule.specs.FiringReading.{IsFiringOf};
ghost use Rattle.u_base.specs.Pieces.{pieces};
ghost use Rattle.u_delta.specs.Lines.{IsShort, IsLineAhead, lines_behind};
ghost use Rattle.u_delta.specs.Messages.{IsMessageOf, IsReadErrorOf};
ghost use Rattle.u_delta.specs.HeadReading.{head_line, IsHead, opening_line};
ghost use Rattle.u_delta.specs.declared.head.Head.TheVariants as heads;
ghost use Rattle.u_delta.specs.declared.message.Message.{Message};
ghost use Rattle.u_delta.specs.declared.read_error.ReadError.TheVariants as errors;
ghost use Rattle.u_delta.specs.Reading.{IsNoLine, IsNoEnd, IsNoFiring, IsBegun, begun_lines, IsAnswer};

use crate::firings::Firings;
use crate::head::{Head, Opening, read_head};
use crate::lines::{Ahead, look_ahead};
use crate::message::{Ask, Delta, Message};
use crate::read_error::ReadError;
use std::alloc::Global;
use u_rule::{Firing, TextError};

/// The next line, and what stands behind it. It is line `number` of a message that is not complete.
#[tactic(auto, using(crate::proofs::ReadingLaws::no_line_long, crate::proofs::ReadingLaws::no_line_rest))]
fn next_line(bytes: &[u8], number: usize) -> Result<(&[u8], &[u8]), ReadError>
    ensures { MatchResult result
        (λ found. IsLineAhead bytes.now found.0.now found.1.now
        × (length found.1.now < length bytes.now))
        (λ error. IsNoLine bytes.now number error) }
{
    match look_ahead(bytes) {
        Ahead::Line(line, rest) => Ok((line, rest)),
        Ahead::Rest => Err(ReadError::Truncated),
        Ahead::TooLong => Err(ReadError::TooLong(number)),
    }
}

/// Nothing stands behind a complete message. Its last line is the one before line `number`.
#[tactic(auto, using(crate::proofs::ReadingLaws::no_end_line, crate::proofs::ReadingLaws::no_end_rest, crate::proofs::ReadingLaws::no_end_long))]
fn ends(bytes: &[u8], number: usize) -> Result<(), ReadError>
    ensures { MatchResult result
        (λ _. bytes.now ≡ [])
        (λ error. IsNoEnd bytes.now number error) }
{
    if bytes.is_empty() {
        return Ok(());
    }
    match look_ahead(bytes) {
        Ahead::TooLong => Err(ReadError::TooLong(number)),
        _ => Err(ReadError::BadLine(number)),
    }
}

/// The firing that stands in line `number`.
#[tactic(auto, using(crate::proofs::ReadingLaws::no_firing_bad))]
fn firing_in(alloc: Global, line: &[u8], number: usize) -> Result<Firing, ReadError>
    ensures { MatchResult result
        (λ firing. IsFiringOf line.now firing)
        (λ error. IsNoFiring line.now number error) }
{
    match Firing::read(alloc, line) {
        Ok(firing) => Ok(firing),
        Err(TextError::BadText(_)) => Err(ReadError::BadLine(number)),
        Err(TextError::NoMemory) => Err(ReadError::NoMemory),
    }
}

/// The delta of the opening and of these firings, which are all that it counts: the line `end`
/// stands behind them, and nothing behind that.
#[tactic(auto, using(crate::proofs::ReadingLaws::few_lines))]
fn closed(opening: Opening, firings: Vec<Firing>, bytes: &[u8]) -> Result<Message, ReadError>
    requires begun { IsBegun opening firings.items }
    requires all { length firings.items ≡ opening.count }
    ensures { IsAnswer (lines_behind (begun_lines opening firings.items) bytes.now) result }
{
    let number = firings.len() + 2;
    let (line, rest) = match next_line(bytes, number) {
        Ok(found) => found,
        Err(error) => return Err(error),
    };
    if line != b"end".as_slice() {
        return Err(ReadError::BadLine(number));
    }
    match ends(rest, number + 1) {
        Ok(()) => Ok(Message::Delta(Delta {
            sender: opening.sender,
            receiver: opening.receiver,
            life: opening.life,
            start: opening.start,
            firings: Firings::new(firings),
        })),
        Err(error) => Err(error),
    }
}

/// The delta of the opening, whose other lines are these.
fn read_delta(alloc: Global, opening: Opening, bytes: &[u8]) -> Result<Message, ReadError>
    requires head { IsHead (heads.Delta opening) }
    requires short { IsShort (opening_line opening) }
    ensures { IsAnswer (lines_behind (opening_line opening ∷ []) bytes.now) result }
{
    let mut firings = Vec::new(alloc);
    let mut rest = bytes;
    while firings.len() < opening.count as usize {
        let number = firings.len() + 2;
        let (line, others) = match next_line(rest, number) {
            Ok(found) => found,
            Err(error) => return Err(error),
        };
        let firing = match firing_in(alloc, line, number) {
            Ok(firing) => firing,
            Err(error) => return Err(error),
        };
        firings.push(firing)?;
        rest = others;
    }
    closed(opening, firings, rest)
}

/// The ask whose line stands before these bytes, which have to be none.
#[tactic(auto, using(crate::proofs::ReadingLaws::ask_more, crate::proofs::ReadingLaws::ask_alone))]
fn read_ask(ask: Ask, bytes: &[u8]) -> Result<Message, ReadError>
    requires head { IsHead (heads.Ask ask) }
    requires short { IsShort (head_line (heads.Ask ask)) }
    ensures { IsAnswer (lines_behind (head_line (heads.Ask ask) ∷ []) bytes.now) result }
{
    match ends(bytes, 2) {
        Ok(()) => Ok(Message::Ask(ask)),
        Err(error) => Err(error),
    }
}

/// The message whose lines these are.
#[tactic(auto, using(crate::proofs::ReadingLaws::first_missing, crate::proofs::ReadingLaws::first_bad))]
fn read_lines(alloc: Global, bytes: &[u8]) -> Result<Message, ReadError>
    ensures { IsAnswer (pieces 10 bytes.now) result }
{
    let (line, rest) = match next_line(bytes, 1) {
        Ok(found) => found,
        Err(error) => return Err(error),
    };
    match read_head(line) {
        Ok(Head::Ask(ask)) => read_ask(ask, rest),
        Ok(Head::Delta(opening)) => read_delta(alloc, opening, rest),
        Err(_) => Err(ReadError::BadLine(1)),
    }
}

/// Returns the message whose text the bytes are: of an ask the line `u-ask 1 ASKER ASKED LIFE
/// COUNT`, of a delta the line `u-delta 1 SENDER RECEIVER LIFE START COUNT`, a line for each of
/// its `COUNT` firings, and the line `end`, each with a newline behind it. Each message has one
/// text, which `write_message` writes, so the two are inverse to each other.
///
/// The two replicas are 1 to 8 and differ. The life of a delta is at least 1, and it has at most 4,096
/// firings.
///
/// Promise messages-are-read: what is read has the bytes as its text, and the text of a message is refused
/// only if there is no memory.
///
/// # Errors
/// Lines are judged from the first one. `TooLong` where a line has more than 32,768 bytes,
/// whether a newline ends it or not; this is judged before all else of a line. `BadLine` where no
/// message has that line behind those before it, and for any byte behind a whole message.
/// `Truncated` where no line is refused and the message is not complete. `NoMemory` where there
/// is no memory.
#[tactic(auto, using(crate::proofs::Same::read_whole))]
pub fn read_message(alloc: Global, bytes: &[u8]) -> Result<Message, ReadError>
    ensures answer { MatchResult result (λ message. IsMessageOf bytes.now message)
        (λ error. IsReadErrorOf bytes.now error) }
    ensures back { (message : Message) → IsMessageOf bytes.now message
        → MatchResult result (λ read. read ≡ message) (λ error. error ≡ errors.NoMemory) }
{
    read_lines(alloc, bytes)
}
