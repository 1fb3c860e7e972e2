//! The clusters of a block: its own, and one for each of its loops, within one another as the loops
//! are.
ghost use Rattle.std.specs.Prelude.{◌≡◌, ◌++◌, ◌∷◌, [], map, IfOk, OnOk, OnErr, codes};
ghost use Rattle.u_base.specs.Appending.{Extends};
ghost use Rattle.u_pictures.specs.Dot.{all_opened, all_closed, attributes_text, within, bracketed, shown_line, text, numbered};
ghost use Rattle.u_pictures.specs.ProgramNames.{loop_cluster};
ghost use Rattle.u_pictures.specs.Clusters.{holder, nest, around, block_attributes, loop_attributes, the_block, the_loop};

use crate::dot::{push_attribute, push_cluster, push_opened};
use crate::program_names::{block_cluster, loop_cluster};
use crate::program_words::{block_line, loop_label, loop_line};
use crate::styles::{block_style, loop_style};
use std::alloc::{AllocError, Global};
use u_program::Block;

/// The most loops that lie within one another.
const DEPTH: u8 = 99;

/// The region that holds the loop of that number, 0 if there is no such loop.
#[tactic(auto, unfolding(crate::specs::Clusters::holder))]
pub fn holder(loops: &[u8], number: usize) -> usize
    ensures { result ≡ holder loops.now number }
{
    if number == 0 {
        return 0;
    }
    match loops.get(number - 1).copied() {
        Some(held_by) => usize::from(held_by),
        None => 0,
    }
}

/// Appends what begins the part within the loops around the region, outermost first, at most `depth`.
/// On an error a part of it may stand there.
#[tactic(auto, using(u_base::proofs::AppendingLaws::extends_same, u_base::proofs::AppendingLaws::extends_behind))]
fn push_nest(out: &mut Vec<u8>, block: &Block, region: usize, depth: u8) -> Result<(), AllocError>
    ensures ok { OnOk result (out.new.items ≡ out.old.items
        ++ all_opened (map (loop_cluster block.now.name) (nest depth block.now.loops region))) }
    ensures err { OnErr result (Extends out.old.items out.new.items) }
{
    if depth == 0 {
        return Ok(());
    }
    if region == 0 {
        return Ok(());
    }
    let name = loop_cluster(*out.allocator(), block.name().as_bytes(), region)?;
    push_nest(out, block, holder(block.loops(), region), depth - 1)?;
    push_opened(out, &name)?;
    Ok(())
}

/// Appends what ends the part within these loops. On an error a part of it may stand there.
#[tactic(auto, using(u_base::proofs::AppendingLaws::extends_same, u_base::proofs::AppendingLaws::extends_behind))]
fn push_unnest(out: &mut Vec<u8>, block: &Block, region: usize, depth: u8) -> Result<(), AllocError>
    ensures ok { OnOk result (out.new.items ≡ out.old.items
        ++ all_closed (map (loop_cluster block.now.name) (nest depth block.now.loops region))) }
    ensures err { OnErr result (Extends out.old.items out.new.items) }
{
    if depth == 0 {
        return Ok(());
    }
    if region == 0 {
        return Ok(());
    }
    push_unnest(out, block, holder(block.loops(), region), depth - 1)?;
    out.extend_from_slice(b" }")?;
    Ok(())
}

/// Appends what begins a line within the region's clusters. On an error a part of it may stand there.
#[tactic(auto, unfolding(crate::specs::Clusters::around), using(u_base::proofs::AppendingLaws::extends_same, u_base::proofs::AppendingLaws::extends_behind, crate::proofs::Texts::join3))]
pub fn push_within(out: &mut Vec<u8>, block: &Block, region: usize) -> Result<(), AllocError>
    ensures ok { OnOk result (out.new.items ≡ out.old.items
        ++ (codes "  " ++ all_opened (around block.now.name block.now.loops region))) }
    ensures err { OnErr result (Extends out.old.items out.new.items) }
{
    let name = block_cluster(*out.allocator(), block.name().as_bytes())?;
    out.extend_from_slice(b"  ")?;
    push_opened(out, &name)?;
    push_nest(out, block, region, DEPTH)
}

/// Appends what ends that line. On an error a part of it may stand there.
#[tactic(auto, unfolding(crate::specs::Clusters::around), using(u_base::proofs::AppendingLaws::extends_same, u_base::proofs::AppendingLaws::extends_behind, crate::proofs::Texts::join3))]
pub fn push_ended(out: &mut Vec<u8>, block: &Block, region: usize) -> Result<(), AllocError>
    ensures ok { OnOk result (out.new.items ≡ out.old.items
        ++ (all_closed (around block.now.name block.now.loops region) ++ (10 ∷ []))) }
    ensures err { OnErr result (Extends out.old.items out.new.items) }
{
    out.extend_from_slice(b" }")?;
    push_unnest(out, block, region, DEPTH)?;
    out.push(b'\n')?;
    Ok(())
}

/// The attributes of a block's cluster: its line as its label and its tooltip.
#[tactic(auto, using(crate::proofs::Texts::join2))]
fn block_attributes(alloc: Global, name: &[u8]) -> Result<Vec<u8>, AllocError>
    ensures { IfOk result (λ v. v.items ≡ attributes_text (block_attributes name.now)) }
{
    let line = block_line(alloc, name)?;
    let mut attributes = Vec::new(alloc);
    push_attribute(&mut attributes, b"label", &line)?;
    push_attribute(&mut attributes, b"tooltip", &line)?;
    attributes.extend_from_slice(block_style())?;
    Ok(attributes)
}

/// The attributes of a loop's cluster: `loop NUMBER` as its label, and its line as its tooltip.
#[tactic(auto, using(crate::proofs::Texts::join2))]
fn loop_attributes(alloc: Global, number: usize, held_by: u8) -> Result<Vec<u8>, AllocError>
    ensures { IfOk result (λ v. v.items ≡ attributes_text (loop_attributes number held_by)) }
{
    let label = loop_label(alloc, number)?;
    let line = loop_line(alloc, number, held_by)?;
    let mut attributes = Vec::new(alloc);
    push_attribute(&mut attributes, b"label", &label)?;
    push_attribute(&mut attributes, b"tooltip", &line)?;
    attributes.extend_from_slice(loop_style())?;
    Ok(attributes)
}

/// Appends a line for the cluster of the region. On an error a part of it may stand there.
#[tactic(auto, using(u_base::proofs::AppendingLaws::extends_same, u_base::proofs::AppendingLaws::extends_behind, crate::proofs::Nests::framed))]
fn push_cluster_line(
    out: &mut Vec<u8>,
    block: &Block,
    region: usize,
    attributes: &[u8],
) -> Result<(), AllocError>
    ensures ok { OnOk result (out.new.items ≡ out.old.items ++ (codes "  "
        ++ (within (around block.now.name block.now.loops region)
        (codes "graph" ++ bracketed attributes.now) ++ (10 ∷ [])))) }
    ensures err { OnErr result (Extends out.old.items out.new.items) }
{
    push_within(out, block, region)?;
    push_cluster(out, attributes)?;
    push_ended(out, block, region)
}

/// Appends a line for the cluster of the block. On an error a part of it may stand there.
#[tactic(auto, unfolding(crate::specs::Dot::shown_line), using(u_base::proofs::AppendingLaws::extends_same))]
fn push_block(out: &mut Vec<u8>, block: &Block) -> Result<(), AllocError>
    ensures ok { OnOk result (out.new.items ≡ out.old.items ++ shown_line (the_block block.now)) }
    ensures err { OnErr result (Extends out.old.items out.new.items) }
{
    let attributes = block_attributes(*out.allocator(), block.name().as_bytes())?;
    push_cluster_line(out, block, 0, &attributes)
}

/// Appends a line for the cluster of the loop. On an error a part of it may stand there.
#[tactic(auto, unfolding(crate::specs::Dot::shown_line), using(u_base::proofs::AppendingLaws::extends_same))]
fn push_loop(out: &mut Vec<u8>, block: &Block, number: usize, held_by: u8) -> Result<(), AllocError>
    ensures ok { OnOk result
        (out.new.items ≡ out.old.items ++ shown_line (the_loop block.now number held_by)) }
    ensures err { OnErr result (Extends out.old.items out.new.items) }
{
    let attributes = loop_attributes(*out.allocator(), number, held_by)?;
    push_cluster_line(out, block, number, &attributes)
}

/// Appends a line for each loop of the block. On an error a part of them may stand there.
#[tactic(auto, using(u_base::proofs::AppendingLaws::extends_by, u_base::proofs::AppendingLaws::extends_behind))]
fn push_loops(out: &mut Vec<u8>, block: &Block) -> Result<(), AllocError>
    ensures ok { OnOk result
        (out.new.items ≡ out.old.items
        ++ text (numbered (the_loop block.now) 1 block.now.loops)) }
    ensures err { OnErr result (Extends out.old.items out.new.items) }
{
    for (i, held_by) in block.loops().iter().enumerate() {
        push_loop(out, block, i + 1, *held_by)?;
    }
    Ok(())
}

/// Appends a line for each cluster of the block. On an error a part of them may stand there.
#[tactic(auto, using(u_base::proofs::AppendingLaws::extends_behind, crate::proofs::Texts::join2))]
pub fn push_clusters(out: &mut Vec<u8>, block: &Block) -> Result<(), AllocError>
    ensures ok { OnOk result (out.new.items ≡ out.old.items
        ++ text (the_block block.now ∷ numbered (the_loop block.now) 1 block.now.loops)) }
    ensures err { OnErr result (Extends out.old.items out.new.items) }
{
    push_block(out, block)?;
    push_loops(out, block)
}
