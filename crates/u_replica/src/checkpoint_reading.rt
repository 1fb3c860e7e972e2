//! The text of a checkpoint, read line by line.
ghost use Rattle.std.specs.Prelude.{◌≡◌, ◌↔◌, ◌∷◌, [], ◌++◌, ℕ, ◌<◌, List, ◌^◌, length, take, IsTrue, MatchOption, MatchResult};
ghost use Rattle.u_program.specs.declared.program.Version.{Version};
ghost use Rattle.u_rule.specs.declared.firing.Firing.{Firing};
ghost use Rattle.u_rule.specs.FiringReading.{line as ended_line, IsFiringOf};
ghost use Rattle.u_base.specs.Pieces.{PiecesAndRest, pieces, IsCutInto};
ghost use Rattle.u_delta.specs.Lines.{lines_behind};
ghost use Rattle.u_replica.specs.declared.checkpoint.Ending.TheVariants as endings;
ghost use Rattle.u_replica.specs.declared.checkpoint.CheckpointError.TheVariants as errors;
ghost use Rattle.u_replica.specs.CheckpointText.{first_line, count_line, begun_lines};
ghost use Rattle.u_replica.specs.CheckpointText.{checkpoint_lines, checkpoint_text};
ghost use Rattle.u_replica.specs.Checkpoints.{AreFirings, MayRead, IsFrontOf};
ghost use Rattle.u_replica.specs.Checkpoints.{IsCheckpointOf, IsCheckpointErrorOf};
ghost use Rattle.u_replica.specs.CheckpointReading.{AreRead, IsNoFiring, IsAnswer, IsAnswerBehind};
ghost use Rattle.u_replica.specs.FiredLines.{behind, ReadsBehind};
ghost use Rattle.u_machine.specs.State.{State, IsSettled};
ghost use Rattle.u_machine.specs.Calls.{IsFresh};

use crate::checkpoint::{Checkpoint, CheckpointError, Ending};
use crate::firing_lines::fire_lines;
use crate::listed_lines::fire_listed;
use crate::onlooker::Onlooker;
use std::alloc::Global;
use u_base::{after_all, long_word};
use u_delta::{Ahead, Firings, look_ahead};
use u_machine::Machine;
use u_name::KeptContext;
use u_program::Version;
use u_rule::{Firing, TextError};

/// Whether the line is the last one of a checkpoint of so many firings.
fn is_count_line(line: &[u8], count: u64) -> bool
    ensures { IsTrue result ↔ (line.now ≡ count_line count) }
{
    match after_all(line, b"end ") {
        Ok(digits) => match long_word(digits, u64::MAX) {
            Ok(number) => number == count,
            Err(_) => false,
        },
        Err(_) => false,
    }
}

/// The line at the front of the bytes with its newline, behind which `others` stand.
#[tactic(auto, using(crate::proofs::EndedLines::with_end, crate::proofs::EndedLines::end_within))]
fn with_newline<'a>(bytes: &'a [u8], line: &[u8], others: &[u8]) -> &'a [u8]
    requires { IsCutInto 10 bytes.now line.now others.now }
    ensures { result.now ≡ ended_line line.now }
{
    let _ = others;
    &bytes[..line.len() + 1]
}

/// The firing that stands in line `number`; `ended` is that line with its newline. A firing in the context
/// of the one before it shares that context: mostly neighbours in a checkpoint belong to one context.
fn firing_in<'a>(
    alloc: Global,
    line: &[u8],
    ended: &'a [u8],
    number: usize,
    kept: &mut KeptContext<'a>,
) -> Result<Firing, CheckpointError>
    requires { ended.now ≡ ended_line line.now }
    ensures { MatchResult result
        (λ firing. IsFiringOf line.now firing)
        (λ error. IsNoFiring line.now number error) }
{
    match Firing::read_beside(alloc, line, ended, kept) {
        Ok(firing) => Ok(firing),
        Err(TextError::BadText(_)) => Err(CheckpointError::BadLine(number)),
        Err(TextError::NoMemory) => Err(CheckpointError::NoMemory),
    }
}

/// The checkpoint of these firings behind so many `before` them, of which all lines were read. Nothing may stand
/// behind them.
fn closed(before: usize, firings: Vec<Firing>, bytes: &[u8]) -> Result<Checkpoint, CheckpointError>
    requires { before < 2 ^ 62 }
    ensures { (head : Version) (fs : List Firing) → before ≡ length fs
        → AreRead head (fs ++ firings.items)
        → IsAnswerBehind head
        (lines_behind (checkpoint_lines head (fs ++ firings.items)) bytes.now) (behind fs result) }
{
    let number = before + firings.len() + 3;
    if bytes.is_empty() {
        return Ok(Checkpoint {
            firings: Firings::new(firings),
            ending: Ending::Whole,
        });
    }
    match look_ahead(bytes) {
        Ahead::TooLong => Err(CheckpointError::TooLong(number)),
        _ => Err(CheckpointError::BadLine(number)),
    }
}

/// The checkpoint that goes on with these bytes behind the lines of so many firings `before` them. It has the
/// firings that were read of the bytes.
fn read_firings(alloc: Global, before: usize, bytes: &[u8]) -> Result<Checkpoint, CheckpointError>
    requires { before < 2 ^ 62 }
    ensures { (head : Version) (fs : List Firing) → before ≡ length fs → AreRead head fs
        → IsAnswerBehind head (lines_behind (begun_lines head fs) bytes.now) (behind fs result) }
{
    let mut firings = Vec::new(alloc);
    let mut kept = KeptContext::root();
    let mut rest = bytes;
    loop {
        let count = before + firings.len();
        let (line, others) = match look_ahead(rest) {
            Ahead::Line(line, others) => (line, others),
            Ahead::TooLong => return Err(CheckpointError::TooLong(count + 2)),
            Ahead::Rest => {
                return Ok(Checkpoint {
                    firings: Firings::new(firings),
                    ending: Ending::Torn,
                });
            }
        };
        if is_count_line(line, count as u64) {
            return closed(before, firings, others);
        }
        let ended = with_newline(rest, line, others);
        match firing_in(alloc, line, ended, count + 2, &mut kept) {
            Ok(firing) => firings.push(firing)?,
            Err(error) => return Err(error),
        }
        rest = others;
    }
}

/// Which first line of a checkpoint the line is, where a job of the version reads that one.
fn head_of(version: Version, line: &[u8]) -> Option<Version>
    ensures { MatchOption result
        ((head : Version) → MayRead version head → line.now ≡ first_line head → ⊥)
        (λ head. MayRead version head × (line.now ≡ first_line head)) }
{
    if line == b"u-history 1".as_slice() {
        return Some(Version::One);
    }
    if version == Version::Two && line == b"u-history 2".as_slice() {
        return Some(Version::Two);
    }
    None
}

/// The head of the checkpoint and what stands behind its line, or what is answered where there is none.
fn read_head(
    alloc: Global,
    version: Version,
    bytes: &[u8],
) -> Result<(Version, &[u8]), Result<Checkpoint, CheckpointError>>
    ensures { MatchResult result
        (λ found. MayRead version found.0
        × (pieces 10 bytes.now ≡ lines_behind (first_line found.0 ∷ []) found.1.now))
        (λ answer. IsAnswer version (pieces 10 bytes.now) answer) }
{
    match look_ahead(bytes) {
        Ahead::Line(line, rest) => match head_of(version, line) {
            Some(head) => Ok((head, rest)),
            None => Err(Err(CheckpointError::BadLine(1))),
        },
        Ahead::TooLong => Err(Err(CheckpointError::TooLong(1))),
        Ahead::Rest => Err(Ok(Checkpoint {
            firings: Firings::new(Vec::new(alloc)),
            ending: Ending::Torn,
        })),
    }
}

/// The checkpoint whose lines these are.
fn read_lines(alloc: Global, version: Version, bytes: &[u8]) -> Result<Checkpoint, CheckpointError>
    ensures { IsAnswer version (pieces 10 bytes.now) result }
{
    match read_head(alloc, version, bytes) {
        Ok((_, rest)) => read_firings(alloc, 0, rest),
        Err(answer) => answer,
    }
}

/// What is read of a checkpoint behind lines that a machine fired by itself.
#[derive(Drop)]
pub(crate) struct ReadBehind {
    /// How many lines of firings were not read: the machine fired these firings.
    pub(crate) fired: usize,
    /// What was read behind them.
    pub(crate) checkpoint: Checkpoint,
}

/// What was answered, as what is read behind no lines.
fn behind_nothing(
    answer: Result<Checkpoint, CheckpointError>,
) -> Result<ReadBehind, CheckpointError>
    ensures { (m : State) (version : Version) (text : PiecesAndRest)
        → IsAnswer version text answer → ReadsBehind m version text result m }
{
    match answer {
        Ok(checkpoint) => Ok(ReadBehind {
            fired: 0,
            checkpoint,
        }),
        Err(error) => Err(error),
    }
}

/// What is read behind the lines that the machine fires by itself, where the head was read.
fn read_fired<S: Onlooker>(
    alloc: Global,
    bytes: &[u8],
    machine: &mut Machine<'_>,
    onlooker: &mut S,
) -> Result<ReadBehind, CheckpointError>
    requires fresh { IsFresh machine.old }
    requires settled { IsSettled machine.old }
    ensures { (version head : Version) (text : PiecesAndRest) → MayRead version head
        → text ≡ lines_behind (first_line head ∷ []) bytes.now
        → ReadsBehind machine.old version text result machine.new }
{
    let Ok(rest) = fire_lines(alloc, machine, bytes, onlooker) else {
        return Err(CheckpointError::NoMemory);
    };
    let fired = machine.applied().len();
    let Ok((more, others)) = fire_listed(alloc, machine, rest, onlooker) else {
        return Err(CheckpointError::NoMemory);
    };
    // Brings in that what was fired are firings of the job.
    machine.holds();
    match read_firings(alloc, fired + more, others) {
        Ok(checkpoint) => Ok(ReadBehind {
            fired: fired + more,
            checkpoint,
        }),
        Err(error) => Err(error),
    }
}

/// What `read_checkpoint` returns, but that lines at the front are not read where the machine fires just their
/// firings: the checkpoint has the firings behind those. The onlooker is shown the machine.
///
/// # Errors
/// As `read_checkpoint`.
pub(crate) fn read_behind_fired<S: Onlooker>(
    alloc: Global,
    version: Version,
    bytes: &[u8],
    machine: &mut Machine<'_>,
    onlooker: &mut S,
) -> Result<ReadBehind, CheckpointError>
    requires fresh { IsFresh machine.old }
    requires settled { IsSettled machine.old }
    ensures { ReadsBehind machine.old version (pieces 10 bytes.now) result machine.new }
{
    match read_head(alloc, version, bytes) {
        Ok((_, lines)) => read_fired(alloc, lines, machine, onlooker),
        Err(answer) => behind_nothing(answer),
    }
}

/// Returns the checkpoint that the bytes are, or that they are the front of. It is read for a job
/// whose program has the version.
///
/// A checkpoint is its first line, a line for each firing, and the line `end COUNT`, where `COUNT` is how
/// many firings there are, each with a newline behind it. The first line is `u-history 1` or `u-history 2`: a
/// job of version 1 reads the first of these alone, and a job of version 2 reads both, with the same firings
/// behind them. `write_checkpoint` writes it, and of that text the firings come back, and the ending is
/// `Whole`. Where the text was cut anywhere before its last byte, the ending is `Torn`, and the firings are
/// those whose lines are there with their newline; what stands behind the last newline is dropped, whatever
/// it is.
///
/// Promise checkpoints-are-read: unless memory runs out, `Whole` is returned exactly if the bytes are a
/// checkpoint, and `Torn` exactly if they begin one and do not end it.
///
/// # Errors
/// Lines are judged from the first one. `TooLong` where a line has more than 32,768 bytes,
/// whether a newline ends it or not; this is judged before all else of a line. `BadLine` where no
/// checkpoint has that line, which ends with a newline, behind those before it, and for any byte
/// behind a whole checkpoint. `NoMemory` where there is no memory.
pub fn read_checkpoint(
    alloc: Global,
    version: Version,
    bytes: &[u8],
) -> Result<Checkpoint, CheckpointError>
    ensures answer { MatchResult result
        (λ c. IsCheckpointOf version bytes.now c.ending c.firings)
        (λ error. IsCheckpointErrorOf version bytes.now error) }
    ensures back { (head : Version) (fs : List Firing) → MayRead version head → AreFirings fs
        → bytes.now ≡ checkpoint_text head fs
        → MatchResult result (λ c. (c.ending ≡ endings.Whole) × (c.firings ≡ fs))
        (λ error. error ≡ errors.NoMemory) }
    ensures cut { (head : Version) (fs : List Firing) (k : ℕ) → MayRead version head
        → AreFirings fs → k < length (checkpoint_text head fs)
        → bytes.now ≡ take k (checkpoint_text head fs)
        → MatchResult result
        (λ c. (c.ending ≡ endings.Torn) × IsFrontOf version bytes.now c.firings fs)
        (λ error. error ≡ errors.NoMemory) }
{
    read_lines(alloc, version, bytes)
}
