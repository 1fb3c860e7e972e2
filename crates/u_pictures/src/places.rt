//! The clusters of a run's picture: one for each context of a loop or a call, and in a loop's one for
//! each turn.
//!
//! The clusters of a firing stand before it each time; to Graphviz they are the same ones. A `leave` lies
//! in no turn: it fires at initiation 1, after whichever turn was the last. What opens clusters and what
//! closes them go the same way.
ghost use Rattle.std.specs.Prelude.{◌≡◌, ◌++◌, ◌∷◌, [], IfOk, OnOk, OnErr, codes};
ghost use Rattle.std.specs.Option.{option_copied};
ghost use Rattle.u_base.specs.Appending.{Extends};
ghost use Rattle.u_check.specs.Rules.{block_named};
ghost use Rattle.u_rule.specs.Fits.{statement_of};
ghost use Rattle.u_pictures.specs.Dot.{all_opened, all_closed, within, bracketed, attributes_text, text};
ghost use Rattle.u_pictures.specs.Names.{context_cluster};
ghost use Rattle.u_pictures.specs.Places.{turn_in, around_context, is_leaving, around, clusters_at};
ghost use Rattle.u_pictures.specs.Places.{context_label, turn_label, context_look, turn_look, context_shown, turn_shown};
ghost use Rattle.u_pictures.specs.Places.{of_context, of_turn, clusters_of};

use crate::dot::{push_attribute, push_cluster, push_opened};
use crate::names::{context_cluster, turn_cluster};
use std::alloc::{AllocError, Global};
use u_base::push_long;
use u_check::statement_at;
use u_name::{BlockName, Context, Name, Node};
use u_program::{Block, Kind, Program, Statement};

/// The block of that name, where the program has it.
fn block_of<'a>(program: &'a Program, name: &BlockName) -> Option<&'a Block>
    ensures { option_copied result ≡ block_named program.now.blocks name.now }
{
    program.blocks().iter().find(|block| block.name() == name)
}

/// The statement that an activity executes, where the program has it.
pub fn executed<'a>(program: &'a Program, activity: &Name) -> Option<&'a Statement>
    ensures { option_copied result
        ≡ statement_of program.now.blocks activity.now.block activity.now.statement }
{
    let block = block_of(program, activity.block())?;
    let statement = statement_at(block.statements(), activity.statement())?;
    Some(statement)
}

/// Whether the activity hands values out of a loop.
fn is_leaving(program: &Program, activity: &Name) -> bool
    ensures { result
        ≡ is_leaving (statement_of program.now.blocks activity.now.block activity.now.statement) }
{
    match executed(program, activity) {
        Some(statement) => matches!(statement.kind(), Kind::Leave),
        None => false,
    }
}

/// Where a node or a cluster lies.
#[derive(Clone, Copy)]
pub enum Enclosure<'a> {
    /// In the turn of a context. Only a loop's has turns.
    Turn(&'a Context, u64),
    /// In a context, and in no turn of it.
    Outside(&'a Context),
    /// In no cluster.
    Nowhere,
}

/// Where the activity lies. A `leave` lies in no turn, since its box would go over all of them.
#[tactic(auto, unfolding(crate::specs::Places::around))]
pub fn place_of<'a>(program: &Program, activity: &'a Name) -> Enclosure<'a>
    ensures { clusters_at result ≡ around program.now.blocks activity.now }
{
    if is_leaving(program, activity) {
        return Enclosure::Outside(activity.context());
    }
    Enclosure::Turn(activity.context(), activity.initiation())
}

/// Appends what begins the part within the turn of a loop's context. On an error a part of it may stand
/// there.
#[tactic(auto, using(u_base::proofs::AppendingLaws::extends_same, crate::proofs::Opening::one_opened))]
fn open_turn(out: &mut Vec<u8>, context: &Context, turn: u64) -> Result<(), AllocError>
    ensures ok { OnOk result
        (out.new.items ≡ out.old.items ++ all_opened (turn_in context.now turn)) }
    ensures err { OnErr result (Extends out.old.items out.new.items) }
{
    match context.node() {
        Node::Loop { .. } => {
            let name = turn_cluster(*out.allocator(), context, turn)?;
            push_opened(out, &name)
        }
        _ => Ok(()),
    }
}

/// Appends what begins the part within a cluster of the context. On an error a part of it may stand
/// there.
#[tactic(auto, using(u_base::proofs::AppendingLaws::extends_same, crate::proofs::Opening::one_opened))]
fn open_own(out: &mut Vec<u8>, context: &Context) -> Result<(), AllocError>
    ensures ok { OnOk result
        (out.new.items ≡ out.old.items ++ all_opened (context_cluster context.now ∷ [])) }
    ensures err { OnErr result (Extends out.old.items out.new.items) }
{
    let name = context_cluster(*out.allocator(), context)?;
    push_opened(out, &name)
}

/// Appends what begins the part within the context's clusters. On an error a part of it may stand there.
#[tactic(auto, using(u_base::proofs::AppendingLaws::extends_same, u_base::proofs::AppendingLaws::extends_behind, crate::proofs::Opening::three_opened))]
fn open_context(out: &mut Vec<u8>, context: &Context) -> Result<(), AllocError>
    ensures ok { OnOk result
        (out.new.items ≡ out.old.items ++ all_opened (around_context context.now)) }
    ensures err { OnErr result (Extends out.old.items out.new.items) }
{
    match context.node() {
        Node::Root => Ok(()),
        Node::Loop {
            outer,
            initiation,
            ..
        } => {
            open_context(out, outer)?;
            open_turn(out, outer, initiation)?;
            open_own(out, context)
        }
        Node::Call {
            outer,
            initiation,
            ..
        } => {
            open_context(out, outer)?;
            open_turn(out, outer, initiation)?;
            open_own(out, context)
        }
    }
}

/// Appends what ends the part within the turn of a loop's context. On an error a part of it may stand
/// there.
#[tactic(auto, using(u_base::proofs::AppendingLaws::extends_same))]
fn close_turn(out: &mut Vec<u8>, context: &Context, turn: u64) -> Result<(), AllocError>
    ensures ok { OnOk result
        (out.new.items ≡ out.old.items ++ all_closed (turn_in context.now turn)) }
    ensures err { OnErr result (Extends out.old.items out.new.items) }
{
    match context.node() {
        Node::Loop { .. } => out.extend_from_slice(b" }"),
        _ => Ok(()),
    }
}

/// Appends what ends the part within the context's clusters. On an error a part of it may stand there.
#[tactic(auto, using(u_base::proofs::AppendingLaws::extends_same, u_base::proofs::AppendingLaws::extends_behind, crate::proofs::Opening::three_closed))]
fn close_context(out: &mut Vec<u8>, context: &Context) -> Result<(), AllocError>
    ensures ok { OnOk result
        (out.new.items ≡ out.old.items ++ all_closed (around_context context.now)) }
    ensures err { OnErr result (Extends out.old.items out.new.items) }
{
    match context.node() {
        Node::Root => Ok(()),
        Node::Loop {
            outer,
            initiation,
            ..
        } => {
            close_context(out, outer)?;
            close_turn(out, outer, initiation)?;
            out.extend_from_slice(b" }")
        }
        Node::Call {
            outer,
            initiation,
            ..
        } => {
            close_context(out, outer)?;
            close_turn(out, outer, initiation)?;
            out.extend_from_slice(b" }")
        }
    }
}

/// Appends what begins the part within the clusters of the place. On an error a part of it may stand
/// there.
#[tactic(auto, using(u_base::proofs::AppendingLaws::extends_same, u_base::proofs::AppendingLaws::extends_behind, crate::proofs::Opening::two_opened))]
fn open_place(out: &mut Vec<u8>, place: Enclosure<'_>) -> Result<(), AllocError>
    ensures ok { OnOk result
        (out.new.items ≡ out.old.items ++ all_opened (clusters_at place.entry)) }
    ensures err { OnErr result (Extends out.old.items out.new.items) }
{
    match place {
        Enclosure::Turn(context, turn) => {
            open_context(out, context)?;
            open_turn(out, context, turn)
        }
        Enclosure::Outside(context) => open_context(out, context),
        Enclosure::Nowhere => Ok(()),
    }
}

/// Appends what ends the part within the clusters of the place. On an error a part of it may stand there.
#[tactic(auto, using(u_base::proofs::AppendingLaws::extends_same, u_base::proofs::AppendingLaws::extends_behind, crate::proofs::Opening::two_closed))]
fn close_place(out: &mut Vec<u8>, place: Enclosure<'_>) -> Result<(), AllocError>
    ensures ok { OnOk result
        (out.new.items ≡ out.old.items ++ all_closed (clusters_at place.entry)) }
    ensures err { OnErr result (Extends out.old.items out.new.items) }
{
    match place {
        Enclosure::Turn(context, turn) => {
            close_context(out, context)?;
            close_turn(out, context, turn)
        }
        Enclosure::Outside(context) => close_context(out, context),
        Enclosure::Nowhere => Ok(()),
    }
}

/// Appends what begins a line within the clusters of the place. On an error a part of it may stand there.
#[tactic(auto, using(u_base::proofs::AppendingLaws::extends_same, u_base::proofs::AppendingLaws::extends_behind, crate::proofs::Texts::join2))]
pub fn begin_line(out: &mut Vec<u8>, place: Enclosure<'_>) -> Result<(), AllocError>
    ensures ok { OnOk result
        (out.new.items ≡ out.old.items ++ (codes "  " ++ all_opened (clusters_at place.entry))) }
    ensures err { OnErr result (Extends out.old.items out.new.items) }
{
    out.extend_from_slice(b"  ")?;
    open_place(out, place)
}

/// Appends what ends that line. On an error a part of it may stand there.
#[tactic(auto, using(u_base::proofs::AppendingLaws::extends_same, u_base::proofs::AppendingLaws::extends_behind, crate::proofs::Texts::join2))]
pub fn end_line(out: &mut Vec<u8>, place: Enclosure<'_>) -> Result<(), AllocError>
    ensures ok { OnOk result
        (out.new.items ≡ out.old.items ++ (all_closed (clusters_at place.entry) ++ (10 ∷ []))) }
    ensures err { OnErr result (Extends out.old.items out.new.items) }
{
    close_place(out, place)?;
    out.push(b'\n')?;
    Ok(())
}

/// The attributes of a context's cluster.
#[tactic(auto, unfolding(crate::specs::Dot::attribute_text, crate::specs::Dot::quoted))]
fn context_attributes(alloc: Global, context: &Context) -> Result<Vec<u8>, AllocError>
    ensures { IfOk result
        (λ v. v.items ≡ attributes_text (context_look (context_label context.now))) }
{
    let mut label = Vec::new(alloc);
    label.extend_from_slice(b"context ")?;
    context.write_text(&mut label)?;
    let mut attributes = Vec::new(alloc);
    push_attribute(&mut attributes, b"label", &label)?;
    attributes.extend_from_slice(b" labeljust=\"l\" style=\"rounded\" color=\"#9db8dd\"")?;
    Ok(attributes)
}

/// The attributes of the cluster of a turn.
#[tactic(auto, unfolding(crate::specs::Dot::attribute_text, crate::specs::Dot::quoted))]
fn turn_attributes(alloc: Global, turn: u64) -> Result<Vec<u8>, AllocError>
    ensures { IfOk result (λ v. v.items ≡ attributes_text (turn_look (turn_label turn))) }
{
    let mut label = Vec::new(alloc);
    label.extend_from_slice(b"initiation ")?;
    push_long(&mut label, turn)?;
    let mut attributes = Vec::new(alloc);
    push_attribute(&mut attributes, b"label", &label)?;
    attributes.extend_from_slice(
        b" labeljust=\"l\" style=\"rounded,filled\" color=\"#d5e0f0\" fillcolor=\"#f4f8fd\"",
    )?;
    Ok(attributes)
}

/// Appends a line for the cluster at that place, with attributes that have this text. On an error a part
/// of it may stand there.
#[tactic(auto, using(u_base::proofs::AppendingLaws::extends_same, u_base::proofs::AppendingLaws::extends_behind, crate::proofs::Nests::framed))]
fn push_cluster_line(
    out: &mut Vec<u8>,
    place: Enclosure<'_>,
    attributes: &[u8],
) -> Result<(), AllocError>
    ensures ok { OnOk result (out.new.items ≡ out.old.items ++ (codes "  "
        ++ (within (clusters_at place.entry) (codes "graph" ++ bracketed attributes.now)
        ++ (10 ∷ [])))) }
    ensures err { OnErr result (Extends out.old.items out.new.items) }
{
    begin_line(out, place)?;
    push_cluster(out, attributes)?;
    end_line(out, place)
}

/// Appends a line for the context's cluster, if it has one. On an error a part of it may stand there.
#[tactic(auto, unfolding(crate::specs::Dot::shown_line), using(u_base::proofs::AppendingLaws::extends_same, crate::proofs::Shows::text_one))]
fn push_context_line(out: &mut Vec<u8>, context: &Context) -> Result<(), AllocError>
    ensures ok { OnOk result (out.new.items ≡ out.old.items ++ text (of_context context.now)) }
    ensures err { OnErr result (Extends out.old.items out.new.items) }
{
    match context.node() {
        Node::Root => Ok(()),
        _ => {
            let attributes = context_attributes(*out.allocator(), context)?;
            push_cluster_line(out, Enclosure::Outside(context), &attributes)
        }
    }
}

/// Appends a line for the cluster of the turn, if the context is a loop's. On an error a part of it may
/// stand there.
#[tactic(auto, unfolding(crate::specs::Dot::shown_line), using(u_base::proofs::AppendingLaws::extends_same, crate::proofs::Shows::text_one))]
fn push_turn_line(out: &mut Vec<u8>, context: &Context, turn: u64) -> Result<(), AllocError>
    ensures ok { OnOk result (out.new.items ≡ out.old.items ++ text (of_turn context.now turn)) }
    ensures err { OnErr result (Extends out.old.items out.new.items) }
{
    match context.node() {
        Node::Loop { .. } => {
            let attributes = turn_attributes(*out.allocator(), turn)?;
            push_cluster_line(out, Enclosure::Turn(context, turn), &attributes)
        }
        _ => Ok(()),
    }
}

/// Appends a line for each of the clusters that are the activity's own: its context's and its turn's. On
/// an error a part of them may stand there.
#[tactic(auto, unfolding(crate::specs::Places::clusters_of), using(u_base::proofs::AppendingLaws::extends_behind, crate::proofs::Shows::text_two))]
pub fn push_clusters(
    out: &mut Vec<u8>,
    program: &Program,
    activity: &Name,
) -> Result<(), AllocError>
    ensures ok { OnOk result
        (out.new.items ≡ out.old.items ++ text (clusters_of program.now.blocks activity.now)) }
    ensures err { OnErr result (Extends out.old.items out.new.items) }
{
    push_context_line(out, activity.context())?;
    if is_leaving(program, activity) {
        return Ok(());
    }
    push_turn_line(out, activity.context(), activity.initiation())
}
