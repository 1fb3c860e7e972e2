//! The lines of a program, and the words on its nodes.
ghost use Rattle.std.specs.Prelude.{◌≡◌, IfOk};
ghost use Rattle.u_program.specs.Text.{block_line, loop_line, statement_line};
ghost use Rattle.u_pictures.specs.Clusters.{loop_label};
ghost use Rattle.u_pictures.specs.Styles.{label};

use crate::styles::{label_above, label_below};
use std::alloc::{AllocError, Global};
use u_base::{push_behind, push_long, push_spaced};
use u_program::{Kind, Statement, Version, push_kind, push_tail};

/// The statement's line in the text of its program, without the newline.
#[tactic(auto, unfolding(u_program::specs::Text::statement_line), using(crate::proofs::Texts::join2))]
pub fn line_of(
    alloc: Global,
    version: Version,
    number: u64,
    statement: &Statement,
) -> Result<Vec<u8>, AllocError>
    ensures { IfOk result (λ v. v.items ≡ statement_line version number statement.now) }
{
    let mut line = Vec::new(alloc);
    push_long(&mut line, number)?;
    push_behind(&mut line, b' ', u32::from(statement.region()))?;
    push_tail(
        &mut line,
        version,
        statement.kind(),
        statement.destinations(),
        statement.otherwise(),
    )?;
    Ok(line)
}

/// The label of a statement's node: its ports, its number and kind, and the two ways out of a `switch`.
#[tactic(auto, unfolding(crate::specs::Styles::label), using(crate::proofs::Texts::join3))]
pub fn label_of(
    alloc: Global,
    version: Version,
    number: u64,
    kind: &Kind,
) -> Result<Vec<u8>, AllocError>
    ensures { IfOk result (λ v. v.items ≡ label version number kind.now) }
{
    let mut label = Vec::new(alloc);
    label.extend_from_slice(label_above(kind))?;
    push_long(&mut label, number)?;
    push_kind(&mut label, version, kind)?;
    label.extend_from_slice(label_below(kind))?;
    Ok(label)
}

/// The line that begins a block, without the newline.
#[tactic(auto, unfolding(u_program::specs::Text::block_line))]
pub fn block_line(alloc: Global, name: &[u8]) -> Result<Vec<u8>, AllocError>
    ensures { IfOk result (λ v. v.items ≡ block_line name.now) }
{
    let mut line = Vec::new(alloc);
    line.extend_from_slice(b"block")?;
    push_spaced(&mut line, name)?;
    Ok(line)
}

/// The label of a loop's cluster.
pub fn loop_label(alloc: Global, number: usize) -> Result<Vec<u8>, AllocError>
    ensures { IfOk result (λ v. v.items ≡ loop_label number) }
{
    let mut label = Vec::new(alloc);
    label.extend_from_slice(b"loop ")?;
    push_long(&mut label, number as u64)?;
    Ok(label)
}

/// The line of a loop, without the newline.
#[tactic(auto, unfolding(u_program::specs::Text::loop_line))]
pub fn loop_line(alloc: Global, number: usize, held_by: u8) -> Result<Vec<u8>, AllocError>
    ensures { IfOk result (λ v. v.items ≡ loop_line number held_by) }
{
    let mut line = loop_label(alloc, number)?;
    push_behind(&mut line, b' ', u32::from(held_by))?;
    Ok(line)
}
