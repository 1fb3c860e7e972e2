//! Contexts, names and cells written as bytes. A writer that is refused memory leaves the bytes as
//! they were.
ghost use Rattle.std.specs.Prelude.{◌≡◌, ◌≤◌, ◌<◌, ◌^◌, ◌++◌, [], ◌∷◌, OnOk, OnErr, vec_len};
ghost use Rattle.std.specs.Fmt.{decimal};
ghost use Rattle.u_base.specs.Appending.{Extends};
ghost use Rattle.u_name.specs.NameText.{context_text, name_text, loop_part, call_part};
ghost use Rattle.u_name.specs.Cell.{cell_text};

use crate::block_name::BlockName;
use crate::cell::Cell;
use crate::context::{Context, Node};
use crate::name::Name;
use std::alloc::AllocError;
use u_base::{cut_back, push_behind, push_long_behind};

/// Appends a dot and the block's name. On an error a part of it may stand there.
#[tactic(auto, using(u_base::proofs::AppendingLaws::extends_same, u_base::proofs::AppendingLaws::extends_by, u_base::proofs::AppendingLaws::extends_behind))]
fn push_block(out: &mut Vec<u8>, block: &BlockName) -> Result<(), AllocError>
    ensures ok { OnOk result (out.new.items ≡ out.old.items ++ (46 ∷ block.now)) }
    ensures err { OnErr result (Extends out.old.items out.new.items) }
{
    out.push(b'.')?;
    out.extend_from_slice(block.as_bytes())
}

/// Appends a loop's part of a context's text. On an error a part of it may stand there.
#[tactic(auto, using(u_base::proofs::AppendingLaws::extends_same, u_base::proofs::AppendingLaws::extends_by, u_base::proofs::AppendingLaws::extends_behind, crate::proofs::Written::loop_more))]
fn push_loop(
    out: &mut Vec<u8>,
    block: &BlockName,
    number: u8,
    initiation: u64,
) -> Result<(), AllocError>
    ensures ok { OnOk result
        (out.new.items ≡ out.old.items ++ loop_part block.now number initiation) }
    ensures err { OnErr result (Extends out.old.items out.new.items) }
{
    push_block(out, block)?;
    out.push(b'.')?;
    push_behind(out, b'L', u32::from(number))?;
    push_long_behind(out, b'.', initiation)
}

/// Appends a call's part of a context's text. On an error a part of it may stand there.
#[tactic(auto, using(u_base::proofs::AppendingLaws::extends_same, u_base::proofs::AppendingLaws::extends_by, u_base::proofs::AppendingLaws::extends_behind, crate::proofs::Written::call_more))]
fn push_call(
    out: &mut Vec<u8>,
    block: &BlockName,
    statement: u16,
    initiation: u64,
) -> Result<(), AllocError>
    ensures ok { OnOk result
        (out.new.items ≡ out.old.items ++ call_part block.now statement initiation) }
    ensures err { OnErr result (Extends out.old.items out.new.items) }
{
    push_block(out, block)?;
    push_behind(out, b'.', u32::from(statement))?;
    push_long_behind(out, b'.', initiation)
}

/// Appends the text of the context. On an error a part of it may stand there.
fn push_context(out: &mut Vec<u8>, context: &Context) -> Result<(), AllocError>
    ensures ok { OnOk result (out.new.items ≡ out.old.items ++ context_text context.now) }
    ensures err { OnErr result (Extends out.old.items out.new.items) }
{
    match context.node() {
        Node::Root => {
            out.push(b'-')?;
            Ok(())
        }
        Node::Loop {
            outer,
            block,
            number,
            initiation,
        } => {
            out.push(b'(')?;
            push_context(out, outer)?;
            push_loop(out, block, number, initiation)?;
            out.push(b')')?;
            Ok(())
        }
        Node::Call {
            outer,
            block,
            statement,
            initiation,
        } => {
            out.push(b'(')?;
            push_context(out, outer)?;
            push_call(out, block, statement, initiation)?;
            out.push(b')')?;
            Ok(())
        }
    }
}

/// Appends the text of the name. On an error a part of it may stand there.
#[tactic(auto, using(u_base::proofs::AppendingLaws::extends_same, u_base::proofs::AppendingLaws::extends_by, u_base::proofs::AppendingLaws::extends_behind, crate::proofs::Written::name_more))]
fn push_name(out: &mut Vec<u8>, name: &Name) -> Result<(), AllocError>
    ensures ok { OnOk result (out.new.items ≡ out.old.items ++ name_text name.now) }
    ensures err { OnErr result (Extends out.old.items out.new.items) }
{
    push_context(out, name.context())?;
    push_call(out, name.block(), name.statement(), name.initiation())
}

/// Appends the text of the cell. On an error a part of it may stand there.
#[tactic(auto, using(u_base::proofs::AppendingLaws::extends_same, u_base::proofs::AppendingLaws::extends_by, u_base::proofs::AppendingLaws::extends_behind, crate::proofs::Written::cell_more))]
fn push_cell(out: &mut Vec<u8>, cell: &Cell) -> Result<(), AllocError>
    ensures ok { OnOk result (out.new.items ≡ out.old.items ++ cell_text cell.now) }
    ensures err { OnErr result (Extends out.old.items out.new.items) }
{
    push_name(out, cell.name())?;
    push_behind(out, b'[', cell.index())?;
    out.push(b']')?;
    Ok(())
}

impl Context {
    /// Appends the text of the context.
    ///
    /// # Errors
    /// `AllocError` where there is no memory. Then `out` is as it was.
    #[tactic(auto, using(u_base::proofs::AppendingLaws::extends_cut))]
    pub fn write_text(&self, out: &mut Vec<u8>) -> Result<(), AllocError>
        ensures ok { OnOk result (out.new.items ≡ out.old.items ++ context_text self.now) }
        ensures err { OnErr result (out.new.items ≡ out.old.items) }
    {
        let len = out.len();
        let written = push_context(out, self);
        cut_back(out, len, written)
    }
}

impl Name {
    /// Appends the text of the name.
    ///
    /// Promise names-are-written: exactly the text is appended that `Name::read` reads as this name.
    ///
    /// # Errors
    /// `AllocError` where there is no memory. Then `out` is as it was.
    #[tactic(auto, using(u_base::proofs::AppendingLaws::extends_cut))]
    pub fn write_text(&self, out: &mut Vec<u8>) -> Result<(), AllocError>
        ensures ok { OnOk result (out.new.items ≡ out.old.items ++ name_text self.now) }
        ensures err { OnErr result (out.new.items ≡ out.old.items) }
    {
        let len = out.len();
        let written = push_name(out, self);
        cut_back(out, len, written)
    }

    /// Appends what stands behind the context in the text of the name: `.BLOCK.STATEMENT.INITIATION`.
    ///
    /// # Errors
    /// `AllocError` where there is no memory. Then `out` is as it was.
    #[tactic(auto, using(u_base::proofs::AppendingLaws::extends_cut))]
    pub fn write_behind_context(&self, out: &mut Vec<u8>) -> Result<(), AllocError>
        ensures ok { OnOk result (out.new.items ≡ out.old.items
            ++ call_part self.now.block self.now.statement self.now.initiation) }
        ensures err { OnErr result (out.new.items ≡ out.old.items) }
    {
        let len = out.len();
        let written = push_call(out, self.block(), self.statement(), self.initiation());
        cut_back(out, len, written)
    }
}

impl Cell {
    /// Appends the text of the cell.
    ///
    /// # Errors
    /// `AllocError` where there is no memory. Then `out` is as it was.
    #[tactic(auto, using(u_base::proofs::AppendingLaws::extends_cut))]
    pub fn write_text(&self, out: &mut Vec<u8>) -> Result<(), AllocError>
        ensures ok { OnOk result (out.new.items ≡ out.old.items ++ cell_text self.now) }
        ensures err { OnErr result (out.new.items ≡ out.old.items) }
    {
        let len = out.len();
        let written = push_cell(out, self);
        cut_back(out, len, written)
    }
}
