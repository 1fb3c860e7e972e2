//! How firings and entries look.
ghost use Rattle.std.specs.Prelude.{◌≡◌, ◌++◌, ◌∷◌, [], ◌<◌, ◌+◌, ◌^◌, length, IfOk, OnOk, OnErr, IsTrue, ◌↔◌, codes};
ghost use Rattle.std.specs.Option.{option_copied};
ghost use Rattle.u_base.specs.Appending.{Extends};
ghost use Rattle.u_program.specs.Parts.{StatementParts};
ghost use Rattle.u_pictures.specs.Dot.{attributes_text};
ghost use Rattle.u_value.specs.Values.{value_text};
ghost use Rattle.u_pictures.specs.Looks.{cells, kind_words, fill_at, firing_label, firing_look, point_look, cell_look, text_look, worded_look, token_look};
ghost use Rattle.u_pictures.specs.Looks.{fault_look, entry_look, meet, need_look, line_by, line_of, give_look};

use crate::dot::push_attribute;
use crate::styles::{entry_of, fill_of};
use std::alloc::{AllocError, Global};
use u_base::{push_long, push_number};
use u_program::{Kind, Statement, Version, push_kind};
use u_rule::{Entry, Firing};
use u_value::Value;

/// Appends the values, the first of which is at that port: each behind `{` or `|`, and its port.
fn push_cells(out: &mut Vec<u8>, before: u8, port: u64, values: &[Value]) -> Result<(), AllocError>
    requires { port + length values.now < 2 ^ 64 }
    ensures { OnOk result (out.new.items ≡ out.old.items ++ cells before port values.now) }
{
    match values.split_first() {
        None => Ok(()),
        Some((value, others)) => {
            out.push(before)?;
            out.extend_from_slice(b"<i")?;
            push_long(out, port)?;
            out.push(b'>')?;
            value.write_text(out)?;
            push_cells(out, b'|', port + 1, others)
        }
    }
}

/// Appends the words of the statement's kind, if there is one.
fn push_words(
    out: &mut Vec<u8>,
    version: Version,
    statement: Option<&Statement>,
) -> Result<(), AllocError>
    ensures { OnOk result
        (out.new.items ≡ out.old.items ++ kind_words version (option_copied statement.entry)) }
{
    match statement {
        Some(statement) => push_kind(out, version, statement.kind()),
        None => Ok(()),
    }
}

/// The fill of the statement's node.
fn fill_at(statement: Option<&Statement>) -> &'static [u8]
    ensures { result.now ≡ fill_at (option_copied statement.entry) }
{
    match statement {
        Some(statement) => fill_of(statement.kind()),
        None => b"#ffffff".as_slice(),
    }
}

/// The label of a firing: its values, and below them the number and the kind of its statement.
#[tactic(auto, unfolding(crate::specs::Looks::firing_label))]
fn firing_label(
    alloc: Global,
    version: Version,
    statement: Option<&Statement>,
    firing: &Firing,
) -> Result<Vec<u8>, AllocError>
    ensures { IfOk result
        (λ v. v.items ≡ firing_label version (option_copied statement.entry) firing.now) }
{
    let mut label = Vec::new(alloc);
    label.extend_from_slice(b"{")?;
    push_cells(&mut label, b'{', 1, firing.values.as_slice())?;
    label.extend_from_slice(b"}|")?;
    push_number(&mut label, u32::from(firing.activity.statement()))?;
    push_words(&mut label, version, statement)?;
    label.extend_from_slice(b"}")?;
    Ok(label)
}

/// The attributes of a firing's node, whose tooltip this is.
pub fn firing_look(
    alloc: Global,
    tip: &[u8],
    version: Version,
    statement: Option<&Statement>,
    firing: &Firing,
) -> Result<Vec<u8>, AllocError>
    ensures { IfOk result
        (λ v. v.items ≡ attributes_text (firing_look tip.now version
        (option_copied statement.entry) firing.now)) }
{
    let label = firing_label(alloc, version, statement, firing)?;
    let mut attributes = Vec::new(alloc);
    push_attribute(&mut attributes, b"tooltip", tip)?;
    push_attribute(&mut attributes, b"label", &label)?;
    push_attribute(&mut attributes, b"fillcolor", fill_at(statement))?;
    Ok(attributes)
}

/// Whether two entries lie in one place: two tokens at one port, two writes in one cell, two answers.
pub fn meet(one: &Entry, other: &Entry) -> bool
    ensures { result ≡ meet one.now other.now }
{
    match (one, other) {
        (Entry::Token(token), Entry::Token(second)) => {
            token.activity() == second.activity() && token.port() == second.port()
        }
        (Entry::Write(write), Entry::Write(second)) => write.cell == second.cell,
        (Entry::Answer(_), Entry::Answer(_)) => true,
        _ => false,
    }
}

/// How the point of a token looks.
#[tactic(auto, unfolding(crate::specs::Dot::attribute_text, crate::specs::Dot::quoted))]
fn point_look(meets: bool) -> &'static [u8]
    ensures { result.now ≡ attributes_text (point_look meets) }
{
    if meets {
        b" shape=\"point\" width=\"0.12\" style=\"filled\" color=\"#c62828\" fillcolor=\"#c62828\"".as_slice()
    } else {
        b" shape=\"point\" width=\"0.07\" style=\"solid\"".as_slice()
    }
}

/// How a cell looks.
#[tactic(auto, unfolding(crate::specs::Dot::attribute_text, crate::specs::Dot::quoted))]
fn cell_look(meets: bool) -> &'static [u8]
    ensures { result.now ≡ attributes_text (cell_look meets) }
{
    if meets {
        b" shape=\"cylinder\" color=\"#c62828\" penwidth=\"2\" fillcolor=\"#f4c7c3\"".as_slice()
    } else {
        b" shape=\"cylinder\" fillcolor=\"#fce5cd\"".as_slice()
    }
}

/// How a text without a frame looks.
#[tactic(auto, unfolding(crate::specs::Dot::attribute_text, crate::specs::Dot::quoted))]
fn text_look(meets: bool) -> &'static [u8]
    ensures { result.now ≡ attributes_text (text_look meets) }
{
    if meets {
        b" shape=\"plaintext\" style=\"solid\" fontcolor=\"#c62828\"".as_slice()
    } else {
        b" shape=\"plaintext\" style=\"solid\"".as_slice()
    }
}

/// How a fault looks.
#[tactic(auto, unfolding(crate::specs::Dot::attribute_text, crate::specs::Dot::quoted))]
fn fault_look() -> &'static [u8]
    ensures { result.now ≡ attributes_text fault_look }
{
    b" shape=\"box\" color=\"#c62828\" fillcolor=\"#f4c7c3\"".as_slice()
}

/// The text of a value behind a word.
fn worded(alloc: Global, word: &[u8], value: &Value) -> Result<Vec<u8>, AllocError>
    ensures { IfOk result (λ v. v.items ≡ word.now ++ value_text value.now) }
{
    let mut label = Vec::new(alloc);
    label.extend_from_slice(word)?;
    value.write_text(&mut label)?;
    Ok(label)
}

/// Appends the attributes of a node that shows a value behind a word.
#[tactic(auto, using(crate::proofs::Texts::join2))]
fn push_worded_look(
    out: &mut Vec<u8>,
    word: &[u8],
    meets: bool,
    value: &Value,
) -> Result<(), AllocError>
    ensures { OnOk result (out.new.items
        ≡ out.old.items ++ attributes_text (worded_look word.now meets value.now)) }
{
    let label = worded(*out.allocator(), word, value)?;
    push_attribute(out, b"label", &label)?;
    out.extend_from_slice(text_look(meets))
}

/// Appends the attributes of a token's node behind its tooltip.
fn push_token_look(
    out: &mut Vec<u8>,
    is_start: bool,
    meets: bool,
    value: &Value,
) -> Result<(), AllocError>
    ensures { OnOk result (out.new.items
        ≡ out.old.items ++ attributes_text (token_look is_start meets value.now)) }
{
    if is_start {
        push_worded_look(out, b"argument ", meets, value)
    } else {
        out.extend_from_slice(point_look(meets))
    }
}

/// Appends the attributes of an entry's node behind its tooltip. It is the argument that the run begins
/// with if `is_start` says so; another entry lies in its place if `meets` does.
#[tactic(auto, unfolding(crate::specs::Looks::entry_look))]
pub fn push_entry_look(
    out: &mut Vec<u8>,
    is_start: bool,
    meets: bool,
    entry: &Entry,
) -> Result<(), AllocError>
    ensures { OnOk result (out.new.items
        ≡ out.old.items ++ attributes_text (entry_look is_start meets entry.now)) }
{
    let alloc = *out.allocator();
    match entry {
        Entry::Token(token) => push_token_look(out, is_start, meets, token.value()),
        Entry::Write(write) => {
            let mut label = Vec::new(alloc);
            write.cell.write_text(&mut label)?;
            push_attribute(out, b"label", &label)?;
            out.extend_from_slice(cell_look(meets))
        }
        Entry::Fault(fault) => {
            push_attribute(out, b"label", fault.kind.text().as_bytes())?;
            out.extend_from_slice(fault_look())
        }
        Entry::Answer(value) => push_worded_look(out, b"answer ", meets, value),
    }
}

/// How the arc looks from an entry to a firing that needs it.
#[tactic(auto, unfolding(crate::specs::Looks::need_look, crate::specs::Dot::attribute_text, crate::specs::Dot::quoted))]
pub fn need_look(entry: &Entry) -> &'static [u8]
    ensures { result.now ≡ attributes_text (need_look entry.now) }
{
    match entry {
        Entry::Token(token) => entry_of(token.port()),
        _ => b" style=\"dashed\" minlen=\"2\"".as_slice(),
    }
}

/// How the line looks from a firing of the statement to a token.
#[tactic(auto, unfolding(crate::specs::Dot::attribute_text, crate::specs::Dot::quoted))]
fn line_of(statement: Option<&Statement>) -> &'static [u8]
    ensures { result.now ≡ attributes_text (line_of (option_copied statement.entry)) }
{
    match statement {
        Some(statement) if matches!(statement.kind(), Kind::Next) => {
            b" tailport=\"s\" arrowhead=\"none\" color=\"#3569b0\" penwidth=\"1.4\"".as_slice()
        }
        _ => b" tailport=\"s\" arrowhead=\"none\"".as_slice(),
    }
}

/// How the arc looks from a firing of the statement to what it gives.
#[tactic(auto, unfolding(crate::specs::Looks::give_look, crate::specs::Dot::attribute_text, crate::specs::Dot::quoted))]
pub fn give_look(statement: Option<&Statement>, entry: &Entry) -> &'static [u8]
    ensures { result.now ≡ attributes_text (give_look (option_copied statement.entry) entry.now) }
{
    match entry {
        Entry::Token(_) => line_of(statement),
        Entry::Fault(_) => b" tailport=\"s\" color=\"#c62828\"".as_slice(),
        _ => b" tailport=\"s\"".as_slice(),
    }
}
