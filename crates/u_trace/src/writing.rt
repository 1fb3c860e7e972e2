//! The lines of what waits. A writer that is refused memory leaves the bytes as they were.
ghost use Rattle.std.specs.Prelude.{◌≡◌, ◌++◌, ◌∷◌, OnOk, OnErr, map};
ghost use Rattle.u_base.specs.Appending.{Extends};
ghost use Rattle.u_base.specs.Spaced.{ended};
ghost use Rattle.u_trace.specs.Text.{port_text, ports_text, listed};
ghost use Rattle.u_trace.specs.Text.{waiting_text, read_text, waits_text};

use crate::activities::WaitingActivity;
use crate::answer::Waiting;
use crate::ports::{MOST_PORTS, Ports};
use crate::reads::DeferredRead;
use std::alloc::AllocError;
use u_base::{cut_back, push_behind};

/// Appends a space and the number of the port, if it is there. On an error `out` is as it was.
fn push_port(out: &mut Vec<u8>, ports: Ports, port: u8) -> Result<(), AllocError>
    ensures ok { OnOk result (out.new.items ≡ out.old.items ++ port_text ports port) }
    ensures err { OnErr result (out.new.items ≡ out.old.items) }
{
    if ports.contains(port) {
        return push_behind(out, b' ', u32::from(port));
    }
    Ok(())
}

/// Appends the numbers of the ports, each behind a space. On an error a part of them may stand
/// there.
#[tactic(auto, using(u_base::proofs::AppendingLaws::extends_same, u_base::proofs::AppendingLaws::extends_by, u_base::proofs::AppendingLaws::extends_behind))]
fn push_ports(out: &mut Vec<u8>, ports: Ports) -> Result<(), AllocError>
    ensures ok { OnOk result (out.new.items ≡ out.old.items ++ ports_text ports) }
    ensures err { OnErr result (Extends out.old.items out.new.items) }
{
    for port in 1..MOST_PORTS + 1 {
        push_port(out, ports, port)?;
    }
    Ok(())
}

/// Appends the word, and behind it the numbers of the ports. On an error a part of it may stand
/// there.
#[tactic(auto, using(u_base::proofs::AppendingLaws::extends_same, u_base::proofs::AppendingLaws::extends_by, u_base::proofs::AppendingLaws::extends_behind, crate::proofs::Texts::join2))]
fn push_listed(out: &mut Vec<u8>, word: &[u8], ports: Ports) -> Result<(), AllocError>
    ensures ok { OnOk result (out.new.items ≡ out.old.items ++ listed word.now ports) }
    ensures err { OnErr result (Extends out.old.items out.new.items) }
{
    out.extend_from_slice(word)?;
    push_ports(out, ports)
}

/// Appends the text of the activity that waits, without a newline: `waits NAME has PORT.. lacks PORT..`.
///
/// # Errors
/// `AllocError` if there is no memory. Then a part of the text may stand there.
#[tactic(auto, unfolding(crate::specs::Text::waiting_text), using(u_base::proofs::AppendingLaws::extends_same, u_base::proofs::AppendingLaws::extends_by, u_base::proofs::AppendingLaws::extends_behind, crate::proofs::Texts::join4))]
pub fn push_waiting(out: &mut Vec<u8>, waiting: &WaitingActivity) -> Result<(), AllocError>
    ensures ok { OnOk result (out.new.items ≡ out.old.items ++ waiting_text waiting.now) }
    ensures err { OnErr result (Extends out.old.items out.new.items) }
{
    out.extend_from_slice(b"waits ")?;
    waiting.activity.write_text(out)?;
    push_listed(out, b" has", waiting.has)?;
    push_listed(out, b" lacks", waiting.lacks)
}

/// Appends the text of the deferred read, without a newline: `reads NAME CELL`, with NAME the reader's.
///
/// # Errors
/// `AllocError` if there is no memory. Then a part of the text may stand there.
#[tactic(auto, unfolding(crate::specs::Text::read_text), using(u_base::proofs::AppendingLaws::extends_same, u_base::proofs::AppendingLaws::extends_by, u_base::proofs::AppendingLaws::extends_behind, crate::proofs::Texts::join4))]
pub fn push_read(out: &mut Vec<u8>, read: &DeferredRead) -> Result<(), AllocError>
    ensures ok { OnOk result (out.new.items ≡ out.old.items ++ read_text read.now) }
    ensures err { OnErr result (Extends out.old.items out.new.items) }
{
    out.extend_from_slice(b"reads ")?;
    read.reader.write_text(out)?;
    out.extend_from_slice(b" ")?;
    read.cell.write_text(out)
}

/// Appends a line for each activity that waits. On an error a part of them may stand there.
#[tactic(auto, using(u_base::proofs::AppendingLaws::extends_same, u_base::proofs::AppendingLaws::extends_by, u_base::proofs::AppendingLaws::extends_behind))]
fn push_activities(out: &mut Vec<u8>, waiting: &[WaitingActivity]) -> Result<(), AllocError>
    ensures ok { OnOk result
        (out.new.items ≡ out.old.items ++ ended (map waiting_text waiting.now)) }
    ensures err { OnErr result (Extends out.old.items out.new.items) }
{
    for item in waiting {
        push_waiting(out, item)?;
        out.push(b'\n')?;
    }
    Ok(())
}

/// Appends a line for each deferred read. On an error a part of them may stand there.
#[tactic(auto, using(u_base::proofs::AppendingLaws::extends_same, u_base::proofs::AppendingLaws::extends_by, u_base::proofs::AppendingLaws::extends_behind))]
fn push_reads(out: &mut Vec<u8>, reads: &[DeferredRead]) -> Result<(), AllocError>
    ensures ok { OnOk result (out.new.items ≡ out.old.items ++ ended (map read_text reads.now)) }
    ensures err { OnErr result (Extends out.old.items out.new.items) }
{
    for read in reads {
        push_read(out, read)?;
        out.push(b'\n')?;
    }
    Ok(())
}

/// Appends both lists. On an error a part of them may stand there.
#[tactic(auto, unfolding(crate::specs::Text::waits_text), using(u_base::proofs::AppendingLaws::extends_same, u_base::proofs::AppendingLaws::extends_by, u_base::proofs::AppendingLaws::extends_behind, crate::proofs::Texts::join2))]
fn push_lists(out: &mut Vec<u8>, waits: &Waiting) -> Result<(), AllocError>
    ensures ok { OnOk result (out.new.items ≡ out.old.items ++ waits_text waits.now) }
    ensures err { OnErr result (Extends out.old.items out.new.items) }
{
    push_activities(out, &waits.activities)?;
    push_reads(out, &waits.reads)
}

impl Waiting {
    /// Appends a line `waits NAME has PORT.. lacks PORT..` for each activity that waits, and behind
    /// them a line `reads NAME CELL` for each deferred read, with NAME the reader's.
    ///
    /// Promise text-of-what-waits: exactly the lines of both lists are appended.
    ///
    /// # Errors
    /// `AllocError` where there is no memory. Then `out` is as it was.
    #[tactic(auto, using(u_base::proofs::AppendingLaws::extends_cut))]
    pub fn write_text(&self, out: &mut Vec<u8>) -> Result<(), AllocError>
        ensures ok { OnOk result (out.new.items ≡ out.old.items ++ waits_text self.now) }
        ensures err { OnErr result (out.new.items ≡ out.old.items) }
    {
        let len = out.len();
        let written = push_lists(out, self);
        cut_back(out, len, written)
    }
}
