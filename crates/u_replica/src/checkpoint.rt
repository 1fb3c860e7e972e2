//! Checkpoints of a replica: the firings that it has taken, as a text.
//!
//! The parked firings are listed after the applied ones. So a replica that takes the list applies what it
//! can in the same order, and parks the rest.
ghost use Rattle.std.specs.Prelude.{◌≡◌, ◌++◌, ◌∷◌, [], map, length, OnOk, OnErr};
ghost use Rattle.u_rule.specs.FiringText.{firing_text};
ghost use Rattle.u_base.specs.Appending.{Extends};
ghost use Rattle.u_base.specs.Spaced.{ended};
ghost use Rattle.u_replica.specs.CheckpointText.{first_line, count_line, checkpoint_lines, checkpoint_text};
ghost use Rattle.u_replica.specs.Checkpoints.{AreFirings};

use std::alloc::{AllocError, AllocFailed};
use thiserror::Error;
use u_base::{cut_back, push_long};
use u_delta::{Firings, all_in_range, in_range, write_firings};
use u_machine::Parked;
use u_program::Version;
use u_rule::Firing;

/// Whether all of a checkpoint was there.
#[derive(Clone, Copy, Debug, PartialEq, Eq)]
pub enum Ending {
    /// Its last line was there, with the newline behind it.
    Whole,
    /// It was cut short, as a write that did not come to its end leaves it.
    Torn,
}

/// What was read of a checkpoint.
#[derive(Drop)]
pub struct Checkpoint {
    /// The firings of the lines that were there, in their order. One may stand there twice.
    pub firings: Firings,
    /// Whether these are all.
    pub ending: Ending,
}

/// Why no checkpoint was read. Lines are counted from 1.
#[derive(Clone, Copy, Debug, PartialEq, Eq, Error)]
pub enum CheckpointError {
    /// The first line that is not allowed where it stands.
    #[error("checkpoint line {0} not allowed")]
    BadLine(usize),
    /// The first line that is longer than 32,768 bytes, where all before it are allowed.
    #[error("checkpoint line {0} too long")]
    TooLong(usize),
    /// There is no memory left for the firings.
    #[error("no memory")]
    NoMemory,
}

impl<T: Drop> From<AllocFailed<T>> for CheckpointError {
    ghost use Rattle.u_replica.specs.declared.checkpoint.CheckpointError.TheVariants as errors;

    ghost from_gives = { λ _ e. e ≡ errors.NoMemory };

    fn from(_: AllocFailed<T>) -> CheckpointError {
        CheckpointError::NoMemory
    }
}

/// The parts of each firing of the set are in their ranges. It does nothing.
fn set_in_range(firings: &Parked<'_>)
    ensures { AreFirings firings.now }
{
    for firing in firings.iter() {
        in_range(firing);
    }
}

/// Appends a line for each firing of the set, in order. On an error a part of them may stand there.
#[tactic(auto, using(u_base::proofs::AppendingLaws::extends_by, u_base::proofs::AppendingLaws::extends_behind))]
fn push_set(out: &mut Vec<u8>, firings: &Parked<'_>) -> Result<(), AllocError>
    ensures ok { OnOk result
        (out.new.items ≡ out.old.items ++ ended (map firing_text firings.now)) }
    ensures err { OnErr result (Extends out.old.items out.new.items) }
{
    for firing in firings.iter() {
        firing.write_text(out)?;
        out.push(b'\n')?;
    }
    Ok(())
}

/// Appends the last line of a checkpoint of so many firings. On an error a part of it may stand
/// there.
#[tactic(auto, using(u_base::proofs::AppendingLaws::extends_same, u_base::proofs::AppendingLaws::extends_by, u_base::proofs::AppendingLaws::extends_behind, crate::proofs::CheckpointWritten::count_written))]
fn push_count(out: &mut Vec<u8>, count: u64) -> Result<(), AllocError>
    ensures ok { OnOk result (out.new.items ≡ out.old.items ++ (count_line count ++ (10 ∷ []))) }
    ensures err { OnErr result (Extends out.old.items out.new.items) }
{
    out.extend_from_slice(b"end ")?;
    push_long(out, count)?;
    out.push(b'\n')?;
    Ok(())
}

/// Appends the first line of a checkpoint of a job whose program has the version. On an error a part
/// of it may stand there.
fn push_head(out: &mut Vec<u8>, version: Version) -> Result<(), AllocError>
    ensures ok { OnOk result (out.new.items ≡ out.old.items ++ (first_line version ++ (10 ∷ []))) }
    ensures err { OnErr result (Extends out.old.items out.new.items) }
{
    match version {
        Version::One => out.extend_from_slice(b"u-history 1\n"),
        Version::Two => out.extend_from_slice(b"u-history 2\n"),
    }
}

/// Appends the lines of a checkpoint. On an error a part of them may stand there.
#[tactic(auto, using(u_base::proofs::AppendingLaws::extends_same, u_base::proofs::AppendingLaws::extends_by, u_base::proofs::AppendingLaws::extends_behind, crate::proofs::CheckpointWritten::all_written, crate::proofs::CheckpointWritten::counted))]
fn push_checkpoint(
    version: Version,
    applied: &[Firing],
    parked: &Parked<'_>,
    out: &mut Vec<u8>,
) -> Result<(), AllocError>
    ensures ok { OnOk result (out.new.items
        ≡ out.old.items ++ ended (checkpoint_lines version (applied.now ++ parked.now))) }
    ensures err { OnErr result (Extends out.old.items out.new.items) }
{
    push_head(out, version)?;
    write_firings(applied, out)?;
    push_set(out, parked)?;
    let count = applied.len() + parked.len();
    push_count(out, count as u64)
}

/// Appends the checkpoint of the applied firings, and behind them of the parked ones: the first
/// line, a line for each firing, and the line `end COUNT`, where `COUNT` is how many firings there
/// are, each with a newline behind it. The first line says the version of the job's program:
/// `u-history 1` or `u-history 2`. The parts of all firings are in their ranges, as those of every
/// firing in memory.
///
/// # Errors
/// `AllocError` where there is no memory. Then `out` is as it was.
#[tactic(auto, unfolding(crate::specs::CheckpointText::checkpoint_text), using(u_base::proofs::AppendingLaws::extends_cut, crate::proofs::CheckpointWritten::all_behind))]
pub fn write_checkpoint(
    version: Version,
    applied: &[Firing],
    parked: &Parked<'_>,
    out: &mut Vec<u8>,
) -> Result<(), AllocError>
    ensures ok { OnOk result
        (out.new.items ≡ out.old.items ++ checkpoint_text version (applied.now ++ parked.now)) }
    ensures err { OnErr result (out.new.items ≡ out.old.items) }
    ensures valid { AreFirings (applied.now ++ parked.now) }
{
    all_in_range(applied);
    set_in_range(parked);
    let len = out.len();
    let written = push_checkpoint(version, applied, parked, out);
    cut_back(out, len, written)
}
