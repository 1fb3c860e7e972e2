//! The picture of a program.
//!
//! The program is gone over once, in the order of its text. Each line names all the clusters that hold what
//! it shows; Graphviz takes clusters of one name within the same ones for one.
ghost use Rattle.std.specs.Prelude.{◌≡◌, ◌++◌, ◌∷◌, [], OnOk, OnErr};
ghost use Rattle.u_base.specs.Appending.{Extends};
ghost use Rattle.u_pictures.specs.Dot.{text, picture_text};
ghost use Rattle.u_program.specs.Text.{header, program_lines};
ghost use Rattle.u_pictures.specs.ProgramPicture.{block_picture, picture};
ghost use Rattle.u_pictures.specs.Told.{told, tips};
ghost use Rattle.u_pictures.specs.Leads.{DrawsBlock};
ghost use Rattle.std.specs.List.{AllByRecursion};

use crate::clusters::push_clusters;
use crate::nodes::{Sheet, push_nodes};
use crate::program_arcs::push_arcs;
use std::alloc::AllocError;
use u_base::cut_back;
use u_compile::BlockOrigins;
use u_program::{Block, Program, Version};

/// What begins the text: how a picture is laid out, and how nodes and arcs look that do not say so.
const OPENING: &[u8] = b"digraph u {
  graph [ rankdir=\"TB\" newrank=\"true\" nodesep=\"0.35\" ranksep=\"0.45\" fontname=\"Helvetica\" fontsize=\"11\" ];
  node [ shape=\"Mrecord\" style=\"filled\" fontname=\"Helvetica\" fontsize=\"11\" margin=\"0.09,0.04\" height=\"0.3\" ];
  edge [ arrowsize=\"0.6\" fontname=\"Helvetica\" fontsize=\"9\" ];
";

/// Appends the lines of the block. On an error a part of them may stand there.
#[tactic(auto, unfolding(crate::specs::ProgramPicture::block_picture), using(u_base::proofs::AppendingLaws::extends_behind, crate::proofs::Shows::text_three))]
fn push_block(
    out: &mut Vec<u8>,
    origins: &[BlockOrigins],
    version: Version,
    block: &Block,
) -> Result<(), AllocError>
    ensures ok { OnOk result
        (out.new.items ≡ out.old.items ++ text (block_picture origins.now version block.now)) }
    ensures err { OnErr result (Extends out.old.items out.new.items) }
{
    push_clusters(out, block)?;
    push_nodes(
        out,
        &Sheet {
            origins,
            version,
            block,
        },
    )?;
    push_arcs(out, block)?;
    Ok(())
}

/// Appends the lines of the blocks. On an error a part of them may stand there.
#[tactic(auto, using(u_base::proofs::AppendingLaws::extends_by, u_base::proofs::AppendingLaws::extends_behind))]
fn push_blocks(
    out: &mut Vec<u8>,
    origins: &[BlockOrigins],
    version: Version,
    blocks: &[Block],
) -> Result<(), AllocError>
    ensures ok { OnOk result
        (out.new.items ≡ out.old.items ++ text (picture origins.now version blocks.now)) }
    ensures err { OnErr result (Extends out.old.items out.new.items) }
{
    for block in blocks {
        push_block(out, origins, version, block)?;
    }
    Ok(())
}

/// Appends the picture's text. On an error a part of it may stand there.
#[tactic(auto, unfolding(crate::specs::Dot::picture_text), using(u_base::proofs::AppendingLaws::extends_same, u_base::proofs::AppendingLaws::extends_behind, crate::proofs::Texts::join3))]
fn push_picture(
    out: &mut Vec<u8>,
    program: &Program,
    origins: &[BlockOrigins],
) -> Result<(), AllocError>
    ensures ok { OnOk result
        (out.new.items ≡ out.old.items
        ++ picture_text (picture origins.now program.now.version program.now.blocks)) }
    ensures err { OnErr result (Extends out.old.items out.new.items) }
{
    out.extend_from_slice(OPENING)?;
    push_blocks(out, origins, program.version(), program.blocks())?;
    out.extend_from_slice(b"}\n")?;
    Ok(())
}

/// Appends the picture of the program, as a text of DOT, the language of Graphviz: a line for each cluster,
/// statement, arc and shared list. The tooltip of a statement is its line, and its place if the origins tell
/// where it comes from.
///
/// Promise picture-is-written: exactly the text of the picture in DOT is appended, each name and value
/// between quotes.
///
/// Promise picture-leads: it leads from a statement to a port of another wherever the program does, by an arc
/// or through the point of a shared list.
///
/// Promise picture-shows-no-more: beside clusters and statements it shows only arcs of the program, the
/// points of their lists, and arcs from an `apply` to its `back`.
///
/// Promise picture-tells-the-text: the tooltips, in order, are the lines of the program after the first, those
/// of statements with their places. Without origins they are these lines, so programs of one version have
/// different pictures if their texts differ.
///
/// # Errors
/// `AllocError` where there is no memory. Then `out` is as it was.
#[tactic(auto, using(u_base::proofs::AppendingLaws::extends_cut, crate::proofs::TextLaws::tips_told, crate::proofs::TextLaws::lines_told, crate::proofs::DrawnLaws::draws_blocks))]
pub fn write_picture(
    out: &mut Vec<u8>,
    program: &Program,
    origins: &[BlockOrigins],
) -> Result<(), AllocError>
    ensures ok { OnOk result
        (out.new.items ≡ out.old.items
        ++ picture_text (picture origins.now program.now.version program.now.blocks)) }
    ensures err { OnErr result (out.new.items ≡ out.old.items) }
    ensures blocks { AllByRecursion (DrawsBlock origins.now program.now.version)
        program.now.blocks }
    ensures tips { told (picture origins.now program.now.version program.now.blocks)
        ≡ tips origins.now program.now.version program.now.blocks }
    ensures lines { header program.now.version
        ∷ told (picture [] program.now.version program.now.blocks)
        ≡ program_lines program.now.version program.now.blocks }
{
    let len = out.len();
    let written = push_picture(out, program, origins);
    cut_back(out, len, written)
}
