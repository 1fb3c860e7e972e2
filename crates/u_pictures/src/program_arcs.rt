//! The arcs of a block, and the points of the lists that its statements share.
//!
//! A point is named by its list, so two of one block can't be taken for each other. It stands with the last
//! statement but one that has the list, which is known from the statements after it alone.
ghost use Rattle.std.specs.Prelude.{◌≡◌, ◌+◌, ◌<◌, ◌^◌, ◌++◌, ◌∷◌, [], length, IfOk, OnOk, OnErr};
ghost use Rattle.u_base.specs.Appending.{Extends};
ghost use Rattle.u_pictures.specs.Dot.{attributes_text, shown_line, text};
ghost use Rattle.u_pictures.specs.Styles.{exit_attributes, entry};
ghost use Rattle.u_pictures.specs.ProgramNames.{point_name};
ghost use Rattle.u_pictures.specs.Arcs.{arc_to, arcs_to, goes_to, point_node, the_point, join_arc, shared_arcs, list_arcs, result_arcs, statement_arcs, the_arcs};
ghost use Rattle.u_pictures.specs.declared.styles.Exit.TheVariants as exits;

use crate::clusters::{holder, push_ended, push_within};
use crate::dot::{push_arc, push_node};
use crate::program_names::{point_name, statement_name};
use crate::sharing::{shares, times};
use crate::styles::{Exit, entry_of, exit_of, exit_text, join_of, point, result_arc};
use std::alloc::{AllocError, Global};
use u_program::{Block, Destination, Kind, Statement};

/// The attributes of an arc that leaves so and ends at that port.
#[tactic(auto, using(crate::proofs::Shows::attributes_two))]
fn arc_attributes(alloc: Global, exit: Exit, port: u8) -> Result<Vec<u8>, AllocError>
    ensures { IfOk result
        (λ v. v.items ≡ attributes_text (exit_attributes exit ++ (entry port ∷ []))) }
{
    let mut attributes = Vec::new(alloc);
    attributes.extend_from_slice(exit_text(exit))?;
    attributes.extend_from_slice(entry_of(port))?;
    Ok(attributes)
}

/// Appends the arc from the node `from` to the destination. On an error a part of it may stand there.
#[tactic(auto, unfolding(crate::specs::Dot::shown_line), using(u_base::proofs::AppendingLaws::extends_same))]
fn push_arc_to(
    out: &mut Vec<u8>,
    block: &[u8],
    from: &[u8],
    exit: Exit,
    to: &Destination,
) -> Result<(), AllocError>
    ensures ok { OnOk result
        (out.new.items ≡ out.old.items ++ shown_line (arc_to block.now from.now exit to.now)) }
    ensures err { OnErr result (Extends out.old.items out.new.items) }
{
    let alloc = *out.allocator();
    let name = statement_name(alloc, block, u64::from(to.statement))?;
    let attributes = arc_attributes(alloc, exit, to.port)?;
    push_arc(out, from, &name, &attributes)
}

/// Appends the arcs from the node `from` to the destinations. On an error a part of them may stand
/// there.
#[tactic(auto, using(u_base::proofs::AppendingLaws::extends_by, u_base::proofs::AppendingLaws::extends_behind))]
fn push_arcs_to(
    out: &mut Vec<u8>,
    block: &[u8],
    from: &[u8],
    exit: Exit,
    to: &[Destination],
) -> Result<(), AllocError>
    ensures ok { OnOk result
        (out.new.items ≡ out.old.items ++ text (arcs_to block.now from.now exit to.now)) }
    ensures err { OnErr result (Extends out.old.items out.new.items) }
{
    for destination in to {
        push_arc_to(out, block, from, exit, destination)?;
    }
    Ok(())
}

/// The region that the values of a statement of that region and kind go to.
fn goes_to(loops: &[u8], region: usize, kind: &Kind) -> usize
    ensures { result ≡ goes_to loops.now region kind.now }
{
    match kind {
        Kind::Enter(number) => usize::from(*number),
        Kind::Leave => holder(loops, region),
        _ => region,
    }
}

/// Appends a line for the point of the statement's list, whose name this is. On an error a part of it
/// may stand there.
#[tactic(auto, unfolding(crate::specs::Dot::shown_line), using(u_base::proofs::AppendingLaws::extends_behind, crate::proofs::Nests::framed))]
fn push_point_node(
    out: &mut Vec<u8>,
    block: &Block,
    statement: &Statement,
    name: &[u8],
) -> Result<(), AllocError>
    requires { name.now ≡ point_name block.now.name statement.now.to }
    ensures ok { OnOk result
        (out.new.items ≡ out.old.items ++ shown_line (point_node block.now statement.now)) }
    ensures err { OnErr result (Extends out.old.items out.new.items) }
{
    let region = usize::from(statement.region());
    let inner = goes_to(block.loops(), region, statement.kind());
    push_within(out, block, inner)?;
    push_node(out, name, point())?;
    push_ended(out, block, inner)
}

/// Appends the point of the statement's list and the arcs out of it, if one of the statements behind it
/// has the same list. On an error a part of them may stand there.
#[tactic(auto, unfolding(crate::specs::Arcs::the_point), using(u_base::proofs::AppendingLaws::extends_same, u_base::proofs::AppendingLaws::extends_behind, crate::proofs::Texts::join2))]
fn push_point(
    out: &mut Vec<u8>,
    block: &Block,
    statement: &Statement,
    behind: &[Statement],
) -> Result<(), AllocError>
    ensures ok { OnOk result
        (out.new.items ≡ out.old.items ++ text (the_point block.now statement.now behind.now)) }
    ensures err { OnErr result (Extends out.old.items out.new.items) }
{
    let to = statement.destinations();
    if times(behind, to) != 1 {
        return Ok(());
    }
    let name = point_name(*out.allocator(), block.name().as_bytes(), to)?;
    push_point_node(out, block, statement, &name)?;
    push_arcs_to(out, block.name().as_bytes(), &name, Exit::FromPoint, to)?;
    Ok(())
}

/// Appends the arc from the node `from` of the statement to the point of its list. On an error a part of
/// it may stand there.
#[tactic(auto, unfolding(crate::specs::Dot::shown_line), using(u_base::proofs::AppendingLaws::extends_same))]
fn push_join(
    out: &mut Vec<u8>,
    block: &[u8],
    from: &[u8],
    statement: &Statement,
) -> Result<(), AllocError>
    ensures ok { OnOk result
        (out.new.items ≡ out.old.items ++ shown_line (join_arc block.now from.now statement.now)) }
    ensures err { OnErr result (Extends out.old.items out.new.items) }
{
    let name = point_name(*out.allocator(), block, statement.destinations())?;
    push_arc(out, from, &name, join_of(statement.kind()))
}

/// Appends the arcs of a statement that shares its list. On an error a part of them may stand there.
#[tactic(auto, using(u_base::proofs::AppendingLaws::extends_behind, crate::proofs::Shows::text_more))]
fn push_shared(
    out: &mut Vec<u8>,
    block: &Block,
    from: &[u8],
    statement: &Statement,
    behind: &[Statement],
) -> Result<(), AllocError>
    ensures ok { OnOk result (out.new.items ≡ out.old.items
        ++ text (shared_arcs block.now from.now statement.now behind.now)) }
    ensures err { OnErr result (Extends out.old.items out.new.items) }
{
    push_point(out, block, statement, behind)?;
    push_join(out, block.name().as_bytes(), from, statement)
}

/// Appends the arcs of the statement's list. On an error a part of them may stand there.
#[tactic(auto, unfolding(crate::specs::Arcs::list_arcs))]
fn push_list_arcs(
    out: &mut Vec<u8>,
    block: &Block,
    from: &[u8],
    statement: &Statement,
    behind: &[Statement],
) -> Result<(), AllocError>
    ensures ok { OnOk result (out.new.items ≡ out.old.items
        ++ text (list_arcs block.now from.now statement.now behind.now)) }
    ensures err { OnErr result (Extends out.old.items out.new.items) }
{
    if shares(block.statements(), statement) {
        return push_shared(out, block, from, statement, behind);
    }
    push_arcs_to(
        out,
        block.name().as_bytes(),
        from,
        exit_of(statement.kind()),
        statement.destinations(),
    )
}

/// Appends the arc from an `apply` to its `back`. On an error a part of it may stand there.
#[tactic(auto, unfolding(crate::specs::Dot::shown_line, crate::specs::Arcs::result_arcs), using(u_base::proofs::AppendingLaws::extends_same, crate::proofs::Shows::text_one))]
fn push_result(out: &mut Vec<u8>, block: &[u8], from: &[u8], kind: &Kind) -> Result<(), AllocError>
    ensures ok { OnOk result
        (out.new.items ≡ out.old.items ++ text (result_arcs block.now from.now kind.now)) }
    ensures err { OnErr result (Extends out.old.items out.new.items) }
{
    match kind {
        Kind::Apply(back, _) => {
            let name = statement_name(*out.allocator(), block, u64::from(*back))?;
            push_arc(out, from, &name, result_arc())
        }
        _ => Ok(()),
    }
}

/// Appends all arcs of the statement. On an error a part of them may stand there.
#[tactic(auto, unfolding(crate::specs::Arcs::statement_arcs), using(u_base::proofs::AppendingLaws::extends_same, u_base::proofs::AppendingLaws::extends_behind, crate::proofs::Shows::text_three))]
fn push_statement_arcs(
    out: &mut Vec<u8>,
    block: &Block,
    number: u64,
    statement: &Statement,
    behind: &[Statement],
) -> Result<(), AllocError>
    ensures ok { OnOk result (out.new.items ≡ out.old.items
        ++ text (statement_arcs block.now number statement.now behind.now)) }
    ensures err { OnErr result (Extends out.old.items out.new.items) }
{
    let name = block.name().as_bytes();
    let from = statement_name(*out.allocator(), name, number)?;
    push_list_arcs(out, block, &from, statement, behind)?;
    push_arcs_to(out, name, &from, Exit::OnFalse, statement.otherwise())?;
    push_result(out, name, &from, statement.kind())
}

/// Appends the arcs of these statements of the block, the first of which has that number. On an error a
/// part of them may stand there.
#[tactic(auto, using(u_base::proofs::AppendingLaws::extends_same, u_base::proofs::AppendingLaws::extends_behind, crate::proofs::Shows::text_two))]
fn push_arcs_from(
    out: &mut Vec<u8>,
    block: &Block,
    number: u64,
    statements: &[Statement],
) -> Result<(), AllocError>
    requires { number + length statements.now < 2 ^ 64 }
    ensures ok { OnOk result
        (out.new.items ≡ out.old.items ++ text (the_arcs block.now number statements.now)) }
    ensures err { OnErr result (Extends out.old.items out.new.items) }
{
    match statements.split_first() {
        None => Ok(()),
        Some((statement, behind)) => {
            push_statement_arcs(out, block, number, statement, behind)?;
            push_arcs_from(out, block, number + 1, behind)?;
            Ok(())
        }
    }
}

/// Appends the arcs of the block. On an error a part of them may stand there.
pub fn push_arcs(out: &mut Vec<u8>, block: &Block) -> Result<(), AllocError>
    ensures ok { OnOk result
        (out.new.items ≡ out.old.items ++ text (the_arcs block.now 1 block.now.statements)) }
    ensures err { OnErr result (Extends out.old.items out.new.items) }
{
    let statements = block.statements();
    let _count = statements.len();
    push_arcs_from(out, block, 1, statements)
}
