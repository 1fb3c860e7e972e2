//! The nodes of a block: one for each statement.
ghost use Rattle.std.specs.Prelude.{◌≡◌, ◌++◌, IfOk, OnOk, OnErr};
ghost use Rattle.u_base.specs.Appending.{Extends};
ghost use Rattle.u_compile.specs.Places.{place_of};
ghost use Rattle.u_program.specs.Text.{statement_line};
ghost use Rattle.u_pictures.specs.Dot.{quoted, listed, attributes_text, shown_line, text, numbered};
ghost use Rattle.u_pictures.specs.ProgramNames.{statement_name};
ghost use Rattle.u_pictures.specs.ProgramPicture.{statement_tip, statement_attributes, the_node};

use crate::clusters::{push_ended, push_within};
use crate::dot::{push_attribute, push_node};
use crate::program_names::statement_name;
use crate::program_words::{label_of, line_of};
use crate::styles::fill_of;
use std::alloc::{AllocError, Global};
use u_compile::{BlockOrigins, push_place};
use u_program::{Block, Statement, Version};

/// A block that is drawn, the version of its program, and the origins of statements that are known.
#[derive(Drop)]
pub struct Sheet<'a> {
    /// The origins.
    pub origins: &'a [BlockOrigins],
    /// The version.
    pub version: Version,
    /// The block.
    pub block: &'a Block,
}

/// The tooltip of a statement's node: its line, and its place if that is known.
#[tactic(auto, using(crate::proofs::Texts::join2))]
fn tip_of(
    alloc: Global,
    sheet: &Sheet<'_>,
    number: u64,
    statement: &Statement,
) -> Result<Vec<u8>, AllocError>
    ensures { IfOk result (λ v. v.items ≡ statement_tip sheet.now.origins.now
        sheet.now.version sheet.now.block.now.name number statement.now) }
{
    let mut tip = line_of(alloc, sheet.version, number, statement)?;
    push_place(&mut tip, sheet.origins, sheet.block.name(), number)?;
    Ok(tip)
}

/// The attributes of a statement's node: its name as an id, its line and its place as a tooltip, its label
/// and its fill.
#[tactic(auto, using(crate::proofs::Texts::listed4))]
fn attributes_of(
    alloc: Global,
    sheet: &Sheet<'_>,
    name: &[u8],
    number: u64,
    statement: &Statement,
) -> Result<Vec<u8>, AllocError>
    requires { name.now ≡ statement_name sheet.now.block.now.name number }
    ensures { IfOk result
        (λ v. v.items ≡ attributes_text (statement_attributes sheet.now.origins.now
        sheet.now.version sheet.now.block.now.name number statement.now)) }
{
    let tip = tip_of(alloc, sheet, number, statement)?;
    let label = label_of(alloc, sheet.version, number, statement.kind())?;
    let mut attributes = Vec::new(alloc);
    push_attribute(&mut attributes, b"id", name)?;
    push_attribute(&mut attributes, b"tooltip", &tip)?;
    push_attribute(&mut attributes, b"label", &label)?;
    push_attribute(&mut attributes, b"fillcolor", fill_of(statement.kind()))?;
    Ok(attributes)
}

/// Appends the statement's node. On an error a part of it may stand there.
#[tactic(auto, using(u_base::proofs::AppendingLaws::extends_same))]
fn push_statement_node(
    out: &mut Vec<u8>,
    sheet: &Sheet<'_>,
    number: u64,
    statement: &Statement,
) -> Result<(), AllocError>
    ensures ok { OnOk result
        (out.new.items ≡ out.old.items ++ (quoted (statement_name sheet.now.block.now.name number)
        ++ listed (statement_attributes sheet.now.origins.now sheet.now.version
        sheet.now.block.now.name number statement.now))) }
    ensures err { OnErr result (Extends out.old.items out.new.items) }
{
    let alloc = *out.allocator();
    let name = statement_name(alloc, sheet.block.name().as_bytes(), number)?;
    let attributes = attributes_of(alloc, sheet, &name, number, statement)?;
    push_node(out, &name, &attributes)
}

/// Appends a line for the statement's node, within the clusters of its region. On an error a part of it
/// may stand there.
#[tactic(auto, unfolding(crate::specs::Dot::shown_line), using(u_base::proofs::AppendingLaws::extends_same, u_base::proofs::AppendingLaws::extends_behind, crate::proofs::Nests::framed))]
fn push_statement(
    out: &mut Vec<u8>,
    sheet: &Sheet<'_>,
    number: u64,
    statement: &Statement,
) -> Result<(), AllocError>
    ensures ok { OnOk result
        (out.new.items ≡ out.old.items ++ shown_line (the_node sheet.now.origins.now
        sheet.now.version sheet.now.block.now number statement.now)) }
    ensures err { OnErr result (Extends out.old.items out.new.items) }
{
    let block = sheet.block;
    let region = usize::from(statement.region());
    push_within(out, block, region)?;
    push_statement_node(out, sheet, number, statement)?;
    push_ended(out, block, region)
}

/// Appends a line for each statement of the block. On an error a part of them may stand there.
#[tactic(auto, using(u_base::proofs::AppendingLaws::extends_by, u_base::proofs::AppendingLaws::extends_behind))]
pub fn push_nodes(out: &mut Vec<u8>, sheet: &Sheet<'_>) -> Result<(), AllocError>
    ensures ok { OnOk result (out.new.items ≡ out.old.items
        ++ text (numbered (the_node sheet.now.origins.now sheet.now.version sheet.now.block.now) 1
        sheet.now.block.now.statements)) }
    ensures err { OnErr result (Extends out.old.items out.new.items) }
{
    for (i, statement) in sheet.block.statements().iter().enumerate() {
        push_statement(out, sheet, i as u64 + 1, statement)?;
    }
    Ok(())
}
