//! Lists of events as texts, an event a line.
ghost use Rattle.std.specs.Prelude.{◌≡◌, ◌≤◌, ◌<◌, ◌^◌, ◌++◌, MatchOption, MatchResult, ℕ, List, IfOk};
ghost use Rattle.std.specs.Fmt.{decimal};
ghost use Rattle.u_world.specs.Scripts.{IsReplica, IsLong, IsTaking, IsDeedOf, IsLineOf, IsScriptOf, IsScriptErrorOf};
ghost use Rattle.u_rule.specs.declared.firing.Firing.{Firing};
ghost use Rattle.u_world.specs.declared.event.Event.{Event};

use crate::event::Event;
use std::alloc::{AllocError, Global};
use thiserror::Error;
use u_base::{cut, long_word, number_word};
use u_rule::{Firing, TextError};

/// Why some bytes are no script.
#[derive(Clone, Copy, PartialEq, Eq, Debug, Error)]
pub enum ScriptError {
    /// The line of that number, from 1, is no event's.
    #[error("script line {0} not allowed")]
    BadLine(usize),
    /// There is no memory.
    #[error("no memory")]
    NoMemory,
}

/// What stands behind those bytes.
fn behind<'a>(bytes: &'a [u8], front: &[u8]) -> Option<&'a [u8]>
    ensures { MatchOption result
        ((rest : List ℕ) → bytes.now ≡ front.now ++ rest → ⊥)
        (λ rest. bytes.now ≡ front.now ++ rest.now) }
{
    bytes.strip_prefix(front)
}

/// The number behind those bytes.
fn number_after(bytes: &[u8], front: &[u8]) -> Option<u64>
    ensures { MatchOption result
        ((n : ℕ) → IsLong n → bytes.now ≡ front.now ++ decimal n → ⊥)
        (λ n. bytes.now ≡ front.now ++ decimal n) }
{
    let rest = behind(bytes, front)?;
    match long_word(rest, u64::MAX) {
        Ok(number) => Some(number),
        Err(_) => None,
    }
}

/// The number of a replica that the word is.
#[tactic(auto, using(crate::proofs::ScriptLaws::word_is_none, crate::proofs::ScriptLaws::word_is_over))]
fn replica_in(word: &[u8]) -> Option<u8>
    ensures { MatchOption result
        ((r : ℕ) → IsReplica r → word.now ≡ decimal r → ⊥)
        (λ r. IsReplica r × (word.now ≡ decimal r)) }
{
    match number_word(word, 9) {
        Ok(number) => {
            if number > 8 {
                return None;
            }
            Some(number as u8)
        }
        Err(_) => None,
    }
}

/// The number of a replica behind those bytes.
fn replica_after(bytes: &[u8], front: &[u8]) -> Option<u8>
    ensures { MatchOption result
        ((r : ℕ) → IsReplica r → bytes.now ≡ front.now ++ decimal r → ⊥)
        (λ r. IsReplica r × (bytes.now ≡ front.now ++ decimal r)) }
{
    let rest = behind(bytes, front)?;
    match replica_in(rest) {
        Some(replica) => Some(replica),
        None => None,
    }
}

/// The number of a replica at the front, and what stands behind it.
fn after_replica(line: &[u8]) -> Option<(u8, &[u8])>
    ensures { MatchOption result
        ((r : ℕ) (rest : List ℕ) → IsReplica r → line.now ≡ decimal r ++ rest → ⊥)
        (λ p. IsReplica p.0 × (line.now ≡ decimal p.0 ++ p.1.now)) }
{
    match line.split_first() {
        Some((first, rest)) => {
            if *first < b'1' || *first > b'8' {
                return None;
            }
            Some((*first - b'0', rest))
        }
        None => None,
    }
}

/// The firing whose text stands behind the word for taking.
#[tactic(auto, using(crate::proofs::ScriptLaws::no_firing, crate::proofs::ScriptLaws::not_taken))]
fn taken(alloc: Global, deed: &[u8]) -> Result<Option<Firing>, AllocError>
    ensures { IfOk result (λ found. MatchOption found
        ((f : Firing) → IsTaking deed.now f → ⊥)
        (λ f. IsTaking deed.now f)) }
{
    let Some(text) = behind(deed, b" takes ") else {
        return Ok(None);
    };
    match Firing::read(alloc, text) {
        Ok(firing) => Ok(Some(firing)),
        Err(TextError::BadText(_)) => Ok(None),
        Err(TextError::NoMemory) => Err(AllocError),
    }
}

/// What the replica does.
fn deed_of(alloc: Global, replica: u8, deed: &[u8]) -> Result<Option<Event>, AllocError>
    ensures { IfOk result (λ found. MatchOption found
        ((e : Event) → IsDeedOf replica deed.now e → ⊥)
        (λ e. IsDeedOf replica deed.now e)) }
{
    if let Some(pick) = number_after(deed, b" fires ") {
        let pick = pick as usize;
        return Ok(Some(Event::Fire { replica, pick }));
    }
    if let Some(asked) = replica_after(deed, b" asks ") {
        return Ok(Some(Event::Ask {
            asker: replica,
            asked,
        }));
    }
    if let Some(other) = replica_after(deed, b" merges ") {
        return Ok(Some(Event::Merge { replica, other }));
    }
    if deed == b" saves".as_slice() {
        return Ok(Some(Event::Save { replica }));
    }
    if let Some(keep) = number_after(deed, b" restarts ") {
        let keep = keep as usize;
        return Ok(Some(Event::Restart { replica, keep }));
    }
    match taken(alloc, deed)? {
        Some(firing) => Ok(Some(Event::Take { replica, firing })),
        None => Ok(None),
    }
}

/// The event whose line it is.
fn event_in(alloc: Global, line: &[u8]) -> Result<Option<Event>, AllocError>
    ensures { IfOk result (λ found. MatchOption found
        ((e : Event) → IsLineOf line.now e → ⊥)
        (λ e. IsLineOf line.now e)) }
{
    if let Some(message) = number_after(line, b"deliver ") {
        let message = message as usize;
        return Ok(Some(Event::Deliver { message }));
    }
    let Some((replica, deed)) = after_replica(line) else {
        return Ok(None);
    };
    match deed_of(alloc, replica, deed)? {
        Some(event) => Ok(Some(event)),
        None => Ok(None),
    }
}

/// Returns the events whose script the bytes are: one line for each event, each with a newline behind it.
/// K and P are numbers of replicas, 1 to 8; messages count from 0.
///
/// | Line | Event |
/// |---|---|
/// | `K fires PICK` | replica K fires the ready firing at place PICK, modulo their number |
/// | `K takes FIRING` | it takes the firing, whose text is that of a checkpoint |
/// | `K asks P` | it asks replica P; the ask is the next message |
/// | `deliver M` | message M is delivered |
/// | `K merges P` | replica K takes all that replica P took |
/// | `K saves` | it saves a checkpoint |
/// | `K restarts KEEP` | it starts again from the first KEEP bytes of its checkpoint |
///
/// Promise scripts-are-read: what is read has the bytes as its script; a refusal names the first line that is
/// no event's.
///
/// # Errors
/// `BadLine`: the line of that number, from 1, is none of these, or has no newline behind it. `NoMemory`:
/// there is no memory.
pub fn read_script(alloc: Global, bytes: &[u8]) -> Result<Vec<Event>, ScriptError>
    ensures { MatchResult result (λ events. IsScriptOf bytes.now events.items)
        (λ error. IsScriptErrorOf bytes.now error) }
{
    let mut events = Vec::new(alloc);
    let mut rest = bytes;
    while let Some((line, others)) = cut(rest, b'\n') {
        let found = match event_in(alloc, line) {
            Ok(found) => found,
            Err(AllocError) => return Err(ScriptError::NoMemory),
        };
        let Some(event) = found else {
            return Err(ScriptError::BadLine(events.len() + 1));
        };
        match events.push(event) {
            Ok(()) => {}
            Err(_) => return Err(ScriptError::NoMemory),
        }
        rest = others;
    }
    if !rest.is_empty() {
        return Err(ScriptError::BadLine(events.len() + 1));
    }
    Ok(events)
}
