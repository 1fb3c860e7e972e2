//! The texts of maps, written.
ghost use Rattle.std.specs.Prelude.{◌≡◌, ◌++◌, ◌∷◌, [], IfOk};
ghost use Rattle.u_compile.specs.Maps.{name_part, statement_text, map_line, block_lines, map_lines, map_text};

use crate::origins::{BlockOrigins, Origin};
use std::alloc::AllocError;
use u_base::{push_long_behind, push_spaced};
use u_name::BlockName;

/// Appends `BLOCK.STATEMENT`, the name of a block and the number of a statement.
///
/// # Errors
/// `AllocError` where there is no memory. Then part of it may stand there.
#[tactic(auto, unfolding(crate::specs::Maps::statement_text), using(crate::proofs::Appends::join2))]
pub fn push_statement(out: &mut Vec<u8>, block: &BlockName, number: u64) -> Result<(), AllocError>
    ensures { IfOk result
        (λ u. out.new.items ≡ out.old.items ++ statement_text block.now number) }
{
    out.extend_from_slice(block.as_bytes())?;
    push_long_behind(out, b'.', number)
}

/// Appends these bytes and the name behind them, if there is one.
///
/// # Errors
/// `AllocError` where there is no memory. Then these bytes may stand there.
#[tactic(auto, using(crate::proofs::Appends::join2, crate::proofs::Appends::join_nothing))]
pub fn push_name(
    out: &mut Vec<u8>,
    before: &[u8],
    name: Option<BlockName>,
) -> Result<(), AllocError>
    ensures { IfOk result
        (λ u. out.new.items ≡ out.old.items ++ name_part before.now name) }
{
    match name {
        Some(name) => {
            out.extend_from_slice(before)?;
            out.extend_from_slice(name.as_bytes())
        }
        None => Ok(()),
    }
}

/// Appends the line of a statement.
#[tactic(auto, unfolding(crate::specs::Maps::map_line), using(crate::proofs::Appends::join6))]
fn push_line(
    out: &mut Vec<u8>,
    block: &BlockName,
    number: u64,
    origin: &Origin,
) -> Result<(), AllocError>
    ensures { IfOk result
        (λ u. out.new.items ≡ out.old.items ++ map_line block.now number origin.now) }
{
    push_statement(out, block, number)?;
    push_long_behind(out, b' ', origin.place.line as u64)?;
    push_long_behind(out, b':', origin.place.column as u64)?;
    push_spaced(out, origin.role.word())?;
    push_name(out, b" ", origin.name)?;
    out.push(b'\n')?;
    Ok(())
}

/// Appends the lines of a block.
fn push_block(out: &mut Vec<u8>, block: &BlockOrigins) -> Result<(), AllocError>
    ensures { IfOk result (λ u. out.new.items
        ≡ out.old.items ++ block_lines block.now.name 1 block.now.origins.items) }
{
    let all = block.origins.as_slice();
    let mut rest = all;
    while let Some((origin, others)) = rest.split_first() {
        push_line(out, &block.name, (all.len() - others.len()) as u64, origin)?;
        rest = others;
    }
    Ok(())
}

/// Appends the lines of the blocks.
fn push_blocks(out: &mut Vec<u8>, blocks: &[BlockOrigins]) -> Result<(), AllocError>
    ensures { IfOk result (λ u. out.new.items ≡ out.old.items ++ map_lines blocks.now) }
{
    let mut rest = blocks;
    while let Some((block, others)) = rest.split_first() {
        push_block(out, block)?;
        rest = others;
    }
    Ok(())
}

/// Appends a map: its first line, and a line for each statement.
#[tactic(auto, unfolding(crate::specs::Maps::map_text), using(crate::proofs::Appends::join2))]
pub(crate) fn push_map(out: &mut Vec<u8>, blocks: &[BlockOrigins]) -> Result<(), AllocError>
    ensures { IfOk result (λ u. out.new.items ≡ out.old.items ++ map_text blocks.now) }
{
    out.extend_from_slice(b"u-map 1\n")?;
    push_blocks(out, blocks)
}
