//! The picture of a world.
//!
//! A life line is one line behind the boxes, drawn first, and ways are straight, so no way bends round a
//! box. Each node has its place, since a layout would let life lines wander.
ghost use Rattle.std.specs.Prelude.{◌≡◌, ◌++◌, ◌∷◌, [], IfOk, OnOk, codes};
ghost use Rattle.u_pictures.specs.Dot.{bracketed, quoted, shown_line, text};
ghost use Rattle.u_pictures.specs.Told.{told};
ghost use Rattle.u_pictures.specs.WorldPicture.{event_node, point_node, way, ways, event_shown, events_shown};
ghost use Rattle.u_pictures.specs.WorldPicture.{life_shown, lives_shown, picture, picture_text};
ghost use Rattle.u_pictures.specs.WorldLooks.{node_name, way_look};
ghost use Rattle.u_pictures.specs.Words.{all_words};

use crate::dot::{push_arc, push_node};
use crate::happening::{Deed, Happening, Spot};
use crate::world_looks::{
    ask_look, event_look, head_look, life_look, node_name, point_look, way_look,
};
use std::alloc::{AllocError, Global};

/// What begins the text: how a picture is laid out, and how nodes and arcs look that do not say so.
const OPENING: &[u8] = b"digraph u {
  graph [ layout=\"neato\" inputscale=\"2.8\" splines=\"line\" outputorder=\"edgesfirst\" ];
  node [ shape=\"box\" style=\"rounded,filled\" fillcolor=\"#ffffff\" fontname=\"Helvetica\" fontsize=\"10\" margin=\"0.08,0.03\" height=\"0.24\" ];
  edge [ arrowsize=\"0.6\" fontname=\"Helvetica\" fontsize=\"9\" ];
";

/// Appends a line with the replica's node in the row, with attributes that have this text.
#[tactic(auto, using(crate::proofs::Texts::join3))]
fn push_node_line(
    out: &mut Vec<u8>,
    row: usize,
    replica: u8,
    attributes: &[u8],
) -> Result<(), AllocError>
    ensures { OnOk result (out.new.items ≡ out.old.items ++ (codes "  "
        ++ ((quoted (node_name row replica) ++ bracketed attributes.now) ++ (10 ∷ [])))) }
{
    let name = node_name(*out.allocator(), row, replica)?;
    out.extend_from_slice(b"  ")?;
    push_node(out, &name, attributes)?;
    out.push(b'\n')?;
    Ok(())
}

/// Appends a line with the node of an event.
#[tactic(auto, unfolding(crate::specs::Dot::shown_line))]
fn push_event_node(
    out: &mut Vec<u8>,
    row: usize,
    replica: u8,
    deed: &Deed,
) -> Result<(), AllocError>
    ensures { OnOk result
        (out.new.items ≡ out.old.items ++ shown_line (event_node row replica deed.now)) }
{
    let attributes = event_look(*out.allocator(), row, replica, deed)?;
    push_node_line(out, row, replica, &attributes)
}

/// Appends a line with a point on the life line of the replica.
#[tactic(auto, unfolding(crate::specs::Dot::shown_line))]
fn push_point(out: &mut Vec<u8>, row: usize, replica: u8) -> Result<(), AllocError>
    ensures { OnOk result (out.new.items ≡ out.old.items ++ shown_line (point_node row replica)) }
{
    let attributes = point_look(*out.allocator(), row, replica)?;
    push_node_line(out, row, replica, &attributes)
}

/// Appends a line with the way from one spot to the other, with attributes that have this text.
fn push_way(out: &mut Vec<u8>, from: Spot, to: Spot, attributes: &[u8]) -> Result<(), AllocError>
    ensures { OnOk result (out.new.items ≡ out.old.items ++ (codes "  "
        ++ ((quoted (node_name from.row from.replica) ++ (codes " -> "
        ++ (quoted (node_name to.row to.replica) ++ bracketed attributes.now))) ++ (10 ∷ [])))) }
{
    let alloc = *out.allocator();
    let tail = node_name(alloc, from.row, from.replica)?;
    let head = node_name(alloc, to.row, to.replica)?;
    push_arc(out, &tail, &head, attributes)
}

/// Appends the way of firings from one spot to the other, so many of which were new.
#[tactic(auto, unfolding(crate::specs::Dot::shown_line))]
fn push_firings(out: &mut Vec<u8>, from: Spot, to: Spot, count: usize) -> Result<(), AllocError>
    ensures { OnOk result (out.new.items ≡ out.old.items
        ++ shown_line (way from.row from.replica to.row to.replica (way_look count))) }
{
    let attributes = way_look(*out.allocator(), count)?;
    push_way(out, from, to, &attributes)
}

/// Appends the way of what came to the spot in an event.
#[tactic(auto, unfolding(crate::specs::WorldPicture::ways, crate::specs::Dot::shown_line), using(crate::proofs::Texts::join2, crate::proofs::Shows::text_one))]
fn push_ways(out: &mut Vec<u8>, to: Spot, deed: &Deed) -> Result<(), AllocError>
    ensures { OnOk result
        (out.new.items ≡ out.old.items ++ text (ways to.row to.replica deed.now)) }
{
    match deed {
        Deed::Answers(from) => push_way(out, *from, to, ask_look()),
        Deed::Takes(Some(from), count) => push_firings(out, *from, to, *count),
        Deed::Merges(other, count) => {
            let from = Spot {
                row: to.row,
                replica: *other,
            };
            push_point(out, from.row, from.replica)?;
            push_firings(out, from, to, *count)
        }
        _ => Ok(()),
    }
}

/// Appends the lines of an event.
#[tactic(auto, unfolding(crate::specs::WorldPicture::event_shown), using(crate::proofs::Texts::join2))]
fn push_event(out: &mut Vec<u8>, row: usize, happening: &Happening) -> Result<(), AllocError>
    ensures { OnOk result
        (out.new.items ≡ out.old.items ++ text (event_shown row happening.now)) }
{
    let to = Spot {
        row,
        replica: happening.replica,
    };
    push_event_node(out, row, happening.replica, &happening.deed)?;
    push_ways(out, to, &happening.deed)
}

/// Appends the lines of the events.
fn push_events(out: &mut Vec<u8>, happenings: &[Happening]) -> Result<(), AllocError>
    ensures { OnOk result
        (out.new.items ≡ out.old.items ++ text (events_shown 1 happenings.now)) }
{
    for (place, happening) in happenings.iter().enumerate() {
        push_event(out, place + 1, happening)?;
    }
    Ok(())
}

/// Appends the lines of a replica, whose life line ends in this row.
#[tactic(auto, unfolding(crate::specs::WorldPicture::life_shown, crate::specs::Dot::shown_line), using(crate::proofs::Joined::text_of_three))]
fn push_life(out: &mut Vec<u8>, last: usize, replica: u8) -> Result<(), AllocError>
    ensures { OnOk result (out.new.items ≡ out.old.items ++ text (life_shown last replica)) }
{
    let head = head_look(*out.allocator(), replica)?;
    push_node_line(out, 0, replica, &head)?;
    push_point(out, last, replica)?;
    push_way(
        out,
        Spot { row: 0, replica },
        Spot { row: last, replica },
        life_look(),
    )
}

/// Appends the lines of so many replicas.
fn push_lives(out: &mut Vec<u8>, last: usize, count: u8) -> Result<(), AllocError>
    ensures { OnOk result (out.new.items ≡ out.old.items ++ text (lives_shown last count)) }
{
    for before in 0..count {
        push_life(out, last, before + 1)?;
    }
    Ok(())
}

/// Appends the lines of the picture.
#[tactic(auto, unfolding(crate::specs::WorldPicture::picture), using(crate::proofs::Shows::text_two))]
fn push_shown(out: &mut Vec<u8>, count: u8, happenings: &[Happening]) -> Result<(), AllocError>
    ensures { OnOk result
        (out.new.items ≡ out.old.items ++ text (picture count happenings.now)) }
{
    push_lives(out, happenings.len() + 1, count)?;
    push_events(out, happenings)
}

/// The picture of what happened among so many replicas, as a text of DOT, the language of Graphviz: a column
/// for each replica, below its name, with a line for its life; a node for each event, in a row of its own, in
/// the column of the replica that did what it says; and an arc for each message that came, from the node of
/// the event that sent it to that of the event in which it came, and for each merge. Asks are dashed; what
/// brought firings that were new is bold, and says how many; what brought none is dotted.
///
/// Promise picture-of-happenings: exactly the text of the picture of what happened is written.
///
/// Promise picture-tells-its-events: the tooltips of the events' nodes say what each event did, in order.
///
/// # Errors
/// `AllocError` where there is no memory.
#[tactic(auto, unfolding(crate::specs::WorldPicture::picture_text), using(crate::proofs::Joined::joined3, crate::proofs::ToldLaws::happenings_told))]
pub fn write_world(
    alloc: Global,
    count: u8,
    happenings: &[Happening],
) -> Result<Vec<u8>, AllocError>
    ensures ok { IfOk result (λ v. v.items ≡ picture_text count happenings.now) }
    ensures rows { told (picture count happenings.now) ≡ all_words happenings.now }
{
    let mut text = Vec::new(alloc);
    text.extend_from_slice(OPENING)?;
    push_shown(&mut text, count, happenings)?;
    text.extend_from_slice(b"}\n")?;
    Ok(text)
}
