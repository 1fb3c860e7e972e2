//! The names, places and looks of what a world's picture shows.
ghost use Rattle.std.specs.Prelude.{◌≡◌, ◌++◌, ◌∷◌, [], IfOk, OnOk};
ghost use Rattle.u_pictures.specs.Dot.{attribute_text, attributes_text};
ghost use Rattle.u_pictures.specs.WorldLooks.{node_name, place, placed, deed_look, event_look, head_label, head_look};
ghost use Rattle.u_pictures.specs.WorldLooks.{point_look, life_look, ask_look, nothing_look, something_look, way_look};

use crate::dot::push_attribute;
use crate::happening::Deed;
use crate::words::{full_words, push_new, words};
use std::alloc::{AllocError, Global};
use u_base::{push_long, push_long_behind};

/// The name of the replica's node in the row.
pub fn node_name(alloc: Global, row: usize, replica: u8) -> Result<Vec<u8>, AllocError>
    ensures { IfOk result (λ v. v.items ≡ node_name row replica) }
{
    let mut name = Vec::new(alloc);
    push_long(&mut name, row as u64)?;
    push_long_behind(&mut name, b'.', u64::from(replica))?;
    Ok(name)
}

/// The place of the replica's node in the row.
#[tactic(auto, using(crate::proofs::Joined::joined4))]
fn place(alloc: Global, row: usize, replica: u8) -> Result<Vec<u8>, AllocError>
    ensures { IfOk result (λ v. v.items ≡ place row replica) }
{
    let mut text = Vec::new(alloc);
    push_long(&mut text, 11 * u64::from(replica))?;
    text.extend_from_slice(b",-")?;
    push_long(&mut text, row as u64)?;
    text.push(b'!')?;
    Ok(text)
}

/// Appends the place of the replica's node in the row.
fn push_placed(out: &mut Vec<u8>, row: usize, replica: u8) -> Result<(), AllocError>
    ensures { OnOk result
        (out.new.items ≡ out.old.items ++ attribute_text (placed row replica)) }
{
    let text = place(*out.allocator(), row, replica)?;
    push_attribute(out, b"pos", &text)
}

/// How what a replica did looks.
#[tactic(auto, unfolding(crate::specs::Dot::attribute_text, crate::specs::Dot::quoted))]
fn deed_look(deed: &Deed) -> &'static [u8]
    ensures { result.now ≡ attributes_text (deed_look deed.now) }
{
    match deed {
        Deed::Fires(_) => b" fillcolor=\"#dbe7f6\"".as_slice(),
        Deed::Restarts(_, _) => b" fillcolor=\"#f4c7c3\" color=\"#c62828\"".as_slice(),
        _ => b" fillcolor=\"#ffffff\"".as_slice(),
    }
}

/// The attributes of the node of an event.
pub fn event_look(
    alloc: Global,
    row: usize,
    replica: u8,
    deed: &Deed,
) -> Result<Vec<u8>, AllocError>
    ensures { IfOk result (λ v. v.items ≡ attributes_text (event_look row replica deed.now)) }
{
    let full = full_words(alloc, deed)?;
    let label = words(alloc, deed)?;
    let mut attributes = Vec::new(alloc);
    push_placed(&mut attributes, row, replica)?;
    push_attribute(&mut attributes, b"tooltip", &full)?;
    push_attribute(&mut attributes, b"label", &label)?;
    attributes.extend_from_slice(deed_look(deed))?;
    Ok(attributes)
}

/// The name that stands above the replica's column.
fn head_label(alloc: Global, replica: u8) -> Result<Vec<u8>, AllocError>
    ensures { IfOk result (λ v. v.items ≡ head_label replica) }
{
    let mut label = Vec::new(alloc);
    label.extend_from_slice(b"replica ")?;
    push_long(&mut label, u64::from(replica))?;
    Ok(label)
}

/// The attributes of the node above the replica's column.
#[tactic(auto, unfolding(crate::specs::Dot::attribute_text, crate::specs::Dot::quoted))]
pub fn head_look(alloc: Global, replica: u8) -> Result<Vec<u8>, AllocError>
    ensures { IfOk result (λ v. v.items ≡ attributes_text (head_look replica)) }
{
    let label = head_label(alloc, replica)?;
    let mut attributes = Vec::new(alloc);
    push_placed(&mut attributes, 0, replica)?;
    push_attribute(&mut attributes, b"label", &label)?;
    attributes.extend_from_slice(b" fontsize=\"12\" fillcolor=\"#d9ead3\"")?;
    Ok(attributes)
}

/// The attributes of a point on the life line of the replica.
#[tactic(auto, unfolding(crate::specs::Dot::attribute_text, crate::specs::Dot::quoted))]
pub fn point_look(alloc: Global, row: usize, replica: u8) -> Result<Vec<u8>, AllocError>
    ensures { IfOk result (λ v. v.items ≡ attributes_text (point_look row replica)) }
{
    let mut attributes = Vec::new(alloc);
    push_placed(&mut attributes, row, replica)?;
    attributes.extend_from_slice(b" shape=\"point\" width=\"0.06\"")?;
    Ok(attributes)
}

/// How a life line looks.
#[tactic(auto, unfolding(crate::specs::Dot::attribute_text, crate::specs::Dot::quoted))]
pub fn life_look() -> &'static [u8]
    ensures { result.now ≡ attributes_text life_look }
{
    b" arrowhead=\"none\" color=\"#999999\"".as_slice()
}

/// How the way of an ask looks.
#[tactic(auto, unfolding(crate::specs::Dot::attribute_text, crate::specs::Dot::quoted))]
pub fn ask_look() -> &'static [u8]
    ensures { result.now ≡ attributes_text ask_look }
{
    b" style=\"dashed\" color=\"#3569b0\"".as_slice()
}

/// How the way of firings looks, none of which was new.
#[tactic(auto, unfolding(crate::specs::Dot::attribute_text, crate::specs::Dot::quoted))]
fn nothing_look() -> &'static [u8]
    ensures { result.now ≡ attributes_text nothing_look }
{
    b" style=\"dotted\" color=\"#3569b0\"".as_slice()
}

/// How the way of firings looks, some of which were new: this is told of them.
#[tactic(auto, unfolding(crate::specs::Dot::attribute_text, crate::specs::Dot::quoted))]
fn something_look(alloc: Global, label: &[u8]) -> Result<Vec<u8>, AllocError>
    ensures { IfOk result (λ v. v.items ≡ attributes_text (something_look label.now)) }
{
    let mut attributes = Vec::new(alloc);
    push_attribute(&mut attributes, b"label", label)?;
    attributes.extend_from_slice(b" style=\"bold\" color=\"#8db4e8\" fontcolor=\"#0b2a52\"")?;
    Ok(attributes)
}

/// How the way of firings looks, so many of which were new.
pub fn way_look(alloc: Global, count: usize) -> Result<Vec<u8>, AllocError>
    ensures { IfOk result (λ v. v.items ≡ attributes_text (way_look count)) }
{
    if count == 0 {
        let mut attributes = Vec::new(alloc);
        attributes.extend_from_slice(nothing_look())?;
        return Ok(attributes);
    }
    let mut label = Vec::new(alloc);
    push_new(&mut label, count)?;
    something_look(alloc, &label)
}
