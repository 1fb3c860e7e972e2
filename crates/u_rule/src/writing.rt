//! The texts of entries and firings. A writer that is refused memory leaves the bytes as they were.
ghost use Rattle.std.specs.Prelude.{◌≡◌, ◌++◌, ◌∷◌, OnOk, OnErr};
ghost use Rattle.std.specs.Fmt.{decimal};
ghost use Rattle.u_name.specs.NameText.{name_text};
ghost use Rattle.u_name.specs.Cell.{cell_text};
ghost use Rattle.u_value.specs.Values.{value_text};
ghost use Rattle.u_base.specs.Appending.{Extends};
ghost use Rattle.u_rule.specs.EntryText.{token_text, write_text, fault_text, entry_text};
ghost use Rattle.u_rule.specs.FiringText.{values_text, written_text, behind_context, firing_text};

use crate::entry::Entry;
use crate::firing::Firing;
use crate::parts::{Fault, Token, Write};
use crate::shared_written::SharedWritten;
use std::alloc::AllocError;
use u_base::{cut_back, push_behind, push_spaced};
use u_value::Value;

/// Appends a space and the text of the value. On an error a part of it may stand there.
fn push_value(out: &mut Vec<u8>, value: &Value) -> Result<(), AllocError>
    ensures ok { OnOk result (out.new.items ≡ out.old.items ++ (32 ∷ value_text value.now)) }
    ensures err { OnErr result (Extends out.old.items out.new.items) }
{
    out.push(b' ')?;
    value.write_text(out)
}

/// Appends the text of the token. On an error a part of it may stand there.
fn push_token(out: &mut Vec<u8>, token: &Token) -> Result<(), AllocError>
    ensures ok { OnOk result (out.new.items ≡ out.old.items ++ token_text token.now) }
    ensures err { OnErr result (Extends out.old.items out.new.items) }
{
    out.extend_from_slice(b"t ")?;
    token.activity().write_text(out)?;
    push_behind(out, b' ', u32::from(token.port()))?;
    push_value(out, token.value())
}

/// Appends the text of the write. On an error a part of it may stand there.
fn push_write(out: &mut Vec<u8>, write: &Write) -> Result<(), AllocError>
    ensures ok { OnOk result (out.new.items ≡ out.old.items ++ write_text write.now) }
    ensures err { OnErr result (Extends out.old.items out.new.items) }
{
    out.extend_from_slice(b"w ")?;
    write.cell.write_text(out)?;
    out.push(b' ')?;
    write.writer.write_text(out)?;
    push_value(out, &write.value)
}

/// Appends the text of the fault. On an error a part of it may stand there.
fn push_fault(out: &mut Vec<u8>, fault: &Fault) -> Result<(), AllocError>
    ensures ok { OnOk result (out.new.items ≡ out.old.items ++ fault_text fault.now) }
    ensures err { OnErr result (Extends out.old.items out.new.items) }
{
    out.extend_from_slice(b"x ")?;
    fault.activity.write_text(out)?;
    push_spaced(out, fault.kind.text().as_bytes())
}

/// Appends the text of the entry. On an error a part of it may stand there.
#[tactic(auto, unfolding(crate::specs::EntryText::entry_text))]
fn push_entry(out: &mut Vec<u8>, entry: &Entry) -> Result<(), AllocError>
    ensures ok { OnOk result (out.new.items ≡ out.old.items ++ entry_text entry.now) }
    ensures err { OnErr result (Extends out.old.items out.new.items) }
{
    match entry {
        Entry::Token(token) => push_token(out, token),
        Entry::Write(write) => push_write(out, write),
        Entry::Fault(fault) => push_fault(out, fault),
        Entry::Answer(value) => {
            out.extend_from_slice(b"a ")?;
            value.write_text(out)
        }
    }
}

/// Appends each value behind a space. On an error a part of them may stand there.
#[tactic(auto, using(u_base::proofs::AppendingLaws::extends_same, u_base::proofs::AppendingLaws::extends_by, u_base::proofs::AppendingLaws::extends_behind))]
fn push_values(out: &mut Vec<u8>, values: &[Value]) -> Result<(), AllocError>
    ensures ok { OnOk result (out.new.items ≡ out.old.items ++ values_text values.now) }
    ensures err { OnErr result (Extends out.old.items out.new.items) }
{
    for value in values {
        push_value(out, value)?;
    }
    Ok(())
}

/// Appends ` by WRITER VALUE` where there is a write. On an error a part of it may stand there.
#[tactic(auto, using(crate::proofs::Lists::nothing_more))]
fn push_written(out: &mut Vec<u8>, write: &Option<SharedWritten>) -> Result<(), AllocError>
    ensures ok { OnOk result (out.new.items ≡ out.old.items ++ written_text write.now) }
    ensures err { OnErr result (Extends out.old.items out.new.items) }
{
    match write {
        None => Ok(()),
        Some(write) => {
            out.extend_from_slice(b" by ")?;
            let written = write.get();
            written.writer.write_text(out)?;
            push_value(out, &written.value)
        }
    }
}

/// Appends what stands behind the context of the firing's activity. On an error a part of it may stand
/// there.
fn push_behind_context(out: &mut Vec<u8>, firing: &Firing) -> Result<(), AllocError>
    ensures ok { OnOk result (out.new.items ≡ out.old.items ++ behind_context firing.now) }
    ensures err { OnErr result (Extends out.old.items out.new.items) }
{
    firing.activity.write_behind_context(out)?;
    push_values(out, firing.values.as_slice())?;
    push_written(out, &firing.write)
}

/// Appends the text of the firing. On an error a part of it may stand there.
#[tactic(auto, unfolding(crate::specs::FiringText::firing_text, u_name::specs::NameText::name_text))]
fn push_firing(out: &mut Vec<u8>, firing: &Firing) -> Result<(), AllocError>
    ensures ok { OnOk result (out.new.items ≡ out.old.items ++ firing_text firing.now) }
    ensures err { OnErr result (Extends out.old.items out.new.items) }
{
    out.extend_from_slice(b"f ")?;
    firing.activity.context().write_text(out)?;
    push_behind_context(out, firing)
}

impl Entry {
    /// Appends the text of the entry: `t NAME PORT VALUE`, `w CELL WRITER VALUE`, `x NAME KIND` or
    /// `a VALUE`.
    ///
    /// Promise entries-are-written: exactly the text is appended that `Entry::read` reads as this entry.
    ///
    /// # Errors
    /// `AllocError` where there is no memory. Then `out` is as it was.
    #[tactic(auto, using(u_base::proofs::AppendingLaws::extends_cut))]
    pub fn write_text(&self, out: &mut Vec<u8>) -> Result<(), AllocError>
        ensures ok { OnOk result (out.new.items ≡ out.old.items ++ entry_text self.now) }
        ensures err { OnErr result (out.new.items ≡ out.old.items) }
    {
        let len = out.len();
        let written = push_entry(out, self);
        cut_back(out, len, written)
    }
}

impl Firing {
    /// Appends the text of the firing: `f NAME VALUE..`, and behind it ` by WRITER VALUE` where it
    /// reads a write.
    ///
    /// # Errors
    /// `AllocError` where there is no memory. Then `out` is as it was.
    #[tactic(auto, using(u_base::proofs::AppendingLaws::extends_cut))]
    pub fn write_text(&self, out: &mut Vec<u8>) -> Result<(), AllocError>
        ensures ok { OnOk result (out.new.items ≡ out.old.items ++ firing_text self.now) }
        ensures err { OnErr result (out.new.items ≡ out.old.items) }
    {
        let len = out.len();
        let written = push_firing(out, self);
        cut_back(out, len, written)
    }

    /// Appends what stands behind the context of the activity in the text of the firing:
    /// `.BLOCK.STATEMENT.INITIATION VALUE..`, and behind it ` by WRITER VALUE` where it reads a write.
    ///
    /// # Errors
    /// `AllocError` where there is no memory. Then `out` is as it was.
    #[tactic(auto, using(u_base::proofs::AppendingLaws::extends_cut))]
    pub fn write_behind_context(&self, out: &mut Vec<u8>) -> Result<(), AllocError>
        ensures ok { OnOk result (out.new.items ≡ out.old.items ++ behind_context self.now) }
        ensures err { OnErr result (out.new.items ≡ out.old.items) }
    {
        let len = out.len();
        let written = push_behind_context(out, self);
        cut_back(out, len, written)
    }
}
