//! The nodes of firings.
ghost use Rattle.std.specs.Prelude.{◌≡◌, ◌++◌, OnOk, OnErr};
ghost use Rattle.std.specs.List.{flat_map};
ghost use Rattle.u_base.specs.Appending.{Extends};
ghost use Rattle.u_pictures.specs.Dot.{shown_line, text};
ghost use Rattle.u_pictures.specs.Picture.{firing_node, firing_lines};

use crate::dot::push_node;
use crate::looks::firing_look;
use crate::names::firing_name;
use crate::places::{begin_line, end_line, executed, place_of, push_clusters};
use crate::tips::firing_tip;
use std::alloc::AllocError;
use u_compile::BlockOrigins;
use u_program::Program;
use u_rule::Firing;

/// Appends a line for the firing's node. On an error a part of it may stand there.
#[tactic(auto, unfolding(crate::specs::Dot::shown_line), using(u_base::proofs::AppendingLaws::extends_same, u_base::proofs::AppendingLaws::extends_behind, crate::proofs::Nests::framed))]
fn push_firing_node(
    out: &mut Vec<u8>,
    program: &Program,
    origins: &[BlockOrigins],
    firing: &Firing,
) -> Result<(), AllocError>
    ensures ok { OnOk result (out.new.items
        ≡ out.old.items ++ shown_line (firing_node origins.now program.now firing.now)) }
    ensures err { OnErr result (Extends out.old.items out.new.items) }
{
    let alloc = *out.allocator();
    let activity = &firing.activity;
    let name = firing_name(alloc, firing)?;
    let tip = firing_tip(alloc, origins, firing)?;
    let statement = executed(program, activity);
    let attributes = firing_look(alloc, &tip, program.version(), statement, firing)?;
    let place = place_of(program, activity);
    begin_line(out, place)?;
    push_node(out, &name, &attributes)?;
    end_line(out, place)
}

/// Appends a line for each cluster of the firing, and one for its node. On an error a part of them may
/// stand there.
#[tactic(auto, unfolding(crate::specs::Picture::firing_lines), using(u_base::proofs::AppendingLaws::extends_behind, crate::proofs::Shows::text_more))]
fn push_firing(
    out: &mut Vec<u8>,
    program: &Program,
    origins: &[BlockOrigins],
    firing: &Firing,
) -> Result<(), AllocError>
    ensures ok { OnOk result (out.new.items
        ≡ out.old.items ++ text (firing_lines origins.now program.now firing.now)) }
    ensures err { OnErr result (Extends out.old.items out.new.items) }
{
    push_clusters(out, program, &firing.activity)?;
    push_firing_node(out, program, origins, firing)
}

/// Appends the lines of the firings. On an error a part of them may stand there.
#[tactic(auto, using(u_base::proofs::AppendingLaws::extends_by, u_base::proofs::AppendingLaws::extends_behind))]
pub fn push_firings(
    out: &mut Vec<u8>,
    program: &Program,
    origins: &[BlockOrigins],
    firings: &[Firing],
) -> Result<(), AllocError>
    ensures ok { OnOk result (out.new.items ≡ out.old.items
        ++ text (flat_map (firing_lines origins.now program.now) firings.now)) }
    ensures err { OnErr result (Extends out.old.items out.new.items) }
{
    for firing in firings {
        push_firing(out, program, origins, firing)?;
    }
    Ok(())
}
