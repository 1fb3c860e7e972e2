//! Places of a source, told beside what speaks of the statements of its program.
//!
//! A place follows two spaces and is told in words, so scripts that cut words at spaces go on working. It is looked
//! up in the list of the origins that are known, which is empty for a program that is no source's.
ghost use Rattle.std.specs.Prelude.{◌≡◌, ◌++◌, IfOk, decimal};
ghost use Rattle.u_compile.specs.Places.{origin_of, place_text, place_of};

use crate::map_text::{push_name, push_statement};
use crate::origins::{BlockOrigins, Origin};
use std::alloc::AllocError;
use u_base::push_long;
use u_name::BlockName;

/// Where the statement with this number of that block comes from.
fn origin_of(origins: &[BlockOrigins], block: &BlockName, statement: u64) -> Option<Origin>
    ensures { result ≡ origin_of origins.now block.now statement }
{
    let mut rest = origins;
    while let Some((first, others)) = rest.split_first() {
        if first.name == *block {
            return first
                .origins
                .get((statement as usize).saturating_sub(1))
                .copied();
        }
        rest = others;
    }
    None
}

/// Appends these words and the number.
#[tactic(auto, using(crate::proofs::Appends::join2))]
fn push_counted(out: &mut Vec<u8>, words: &[u8], number: usize) -> Result<(), AllocError>
    ensures { IfOk result (λ _. out.new.items ≡ out.old.items ++ (words.now ++ decimal number)) }
{
    out.extend_from_slice(words)?;
    push_long(out, number as u64)
}

/// Appends two spaces and the place of a statement that comes from there.
#[tactic(auto, unfolding(crate::specs::Places::place_text), using(crate::proofs::Appends::join7))]
fn push_known(
    out: &mut Vec<u8>,
    block: &BlockName,
    statement: u64,
    origin: &Origin,
) -> Result<(), AllocError>
    ensures { IfOk result (λ _. out.new.items
        ≡ out.old.items ++ place_text block.now statement origin.now) }
{
    out.extend_from_slice(b"  ")?;
    push_statement(out, block, statement)?;
    push_counted(out, b" line ", origin.place.line)?;
    push_counted(out, b" column ", origin.place.column)?;
    out.extend_from_slice(b", ")?;
    out.extend_from_slice(origin.role.words())?;
    push_name(out, b" of ", origin.name)?;
    Ok(())
}

/// Appends `  BLOCK.STATEMENT line LINE column COLUMN, ROLE [of NAME]` for the statement of that block with that
/// number, if the origins tell where it comes from; else nothing.
///
/// Promise places: exactly the place of this statement is appended, and nothing if it is not known.
///
/// # Errors
/// `AllocError` if there is no memory. Then a part of it may stand there.
pub fn push_place(
    out: &mut Vec<u8>,
    origins: &[BlockOrigins],
    block: &BlockName,
    statement: u64,
) -> Result<(), AllocError>
    ensures { IfOk result (λ _. out.new.items
        ≡ out.old.items ++ place_of origins.now block.now statement) }
{
    match origin_of(origins, block, statement) {
        Some(origin) => push_known(out, block, statement, &origin),
        None => Ok(()),
    }
}
