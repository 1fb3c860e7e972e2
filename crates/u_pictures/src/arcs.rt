//! The arcs of firings: from what they need, and to what they give.
ghost use Rattle.std.specs.Prelude.{◌≡◌, ◌++◌, map, IfOk, OnOk, OnErr, IsTrue};
ghost use Rattle.std.specs.List.{flat_map};
ghost use Rattle.u_base.specs.Appending.{Extends};
ghost use Rattle.u_rule.specs.FiringText.{firing_text};
ghost use Rattle.u_rule.specs.Rule.{is_firing_of, needs_of, gives_of};
ghost use Rattle.u_base.specs.Firing.{Within};
ghost use Rattle.u_pictures.specs.Dot.{shown_line, text};
ghost use Rattle.u_pictures.specs.Picture.{need_arc, give_arc, firing_arcs};

use crate::dot::push_arc;
use crate::looks::{give_look, need_look};
use crate::names::{entry_name, firing_name};
use crate::places::executed;
use std::alloc::{AllocError, Global};
use u_check::Job;
use u_program::Program;
use u_rule::{Entry, Firing, given_by, needs};

/// Appends the arc from the entry to the firing, whose node has this name. On an error a part of it may
/// stand there.
#[tactic(auto, unfolding(crate::specs::Dot::shown_line), using(u_base::proofs::AppendingLaws::extends_same))]
fn push_need(
    out: &mut Vec<u8>,
    firing: &Firing,
    name: &[u8],
    entry: &Entry,
) -> Result<(), AllocError>
    requires { name.now ≡ firing_text firing.now }
    ensures ok { OnOk result
        (out.new.items ≡ out.old.items ++ shown_line (need_arc firing.now entry.now)) }
    ensures err { OnErr result (Extends out.old.items out.new.items) }
{
    let from = entry_name(*out.allocator(), entry)?;
    push_arc(out, &from, name, need_look(entry))
}

/// Appends the arcs from the entries to the firing, whose node has this name. On an error a part of them
/// may stand there.
#[tactic(auto, using(u_base::proofs::AppendingLaws::extends_by, u_base::proofs::AppendingLaws::extends_behind))]
fn push_needs(
    out: &mut Vec<u8>,
    firing: &Firing,
    name: &[u8],
    entries: &[Entry],
) -> Result<(), AllocError>
    requires { name.now ≡ firing_text firing.now }
    ensures ok { OnOk result
        (out.new.items ≡ out.old.items ++ text (map (need_arc firing.now) entries.now)) }
    ensures err { OnErr result (Extends out.old.items out.new.items) }
{
    for entry in entries {
        push_need(out, firing, name, entry)?;
    }
    Ok(())
}

/// Appends the arc to the entry from the firing, whose node has this name. On an error a part of it may
/// stand there.
#[tactic(auto, unfolding(crate::specs::Dot::shown_line), using(u_base::proofs::AppendingLaws::extends_same))]
fn push_gift(
    out: &mut Vec<u8>,
    program: &Program,
    firing: &Firing,
    name: &[u8],
    entry: &Entry,
) -> Result<(), AllocError>
    requires { name.now ≡ firing_text firing.now }
    ensures ok { OnOk result (out.new.items
        ≡ out.old.items ++ shown_line (give_arc program.now.blocks firing.now entry.now)) }
    ensures err { OnErr result (Extends out.old.items out.new.items) }
{
    let to = entry_name(*out.allocator(), entry)?;
    let statement = executed(program, &firing.activity);
    push_arc(out, name, &to, give_look(statement, entry))
}

/// Appends the arcs to the entries from the firing, whose node has this name. On an error a part of them
/// may stand there.
#[tactic(auto, using(u_base::proofs::AppendingLaws::extends_by, u_base::proofs::AppendingLaws::extends_behind))]
fn push_gifts(
    out: &mut Vec<u8>,
    program: &Program,
    firing: &Firing,
    name: &[u8],
    entries: &[Entry],
) -> Result<(), AllocError>
    requires { name.now ≡ firing_text firing.now }
    ensures ok { OnOk result (out.new.items
        ≡ out.old.items ++ text (map (give_arc program.now.blocks firing.now) entries.now)) }
    ensures err { OnErr result (Extends out.old.items out.new.items) }
{
    for entry in entries {
        push_gift(out, program, firing, name, entry)?;
    }
    Ok(())
}

/// The entries that a firing of the job needs.
fn needed(alloc: Global, job: &Job, firing: &Firing) -> Result<Vec<Entry>, AllocError>
    requires { IsTrue (is_firing_of job.now firing.now) }
    ensures { IfOk result (λ v. v.items ≡ needs_of firing.now) }
{
    match needs(alloc, job, firing) {
        Ok(entries) => Ok(entries),
        Err(_) => Err(AllocError),
    }
}

/// Appends the arcs of the firing. On an error a part of them may stand there.
#[tactic(auto, unfolding(crate::specs::Picture::firing_arcs), using(u_base::proofs::AppendingLaws::extends_same, u_base::proofs::AppendingLaws::extends_behind, crate::proofs::Shows::text_two))]
fn push_firing_arcs(out: &mut Vec<u8>, job: &Job, firing: &Firing) -> Result<(), AllocError>
    requires { IsTrue (is_firing_of job.now firing.now) }
    ensures ok { OnOk result
        (out.new.items ≡ out.old.items ++ text (firing_arcs job.now firing.now)) }
    ensures err { OnErr result (Extends out.old.items out.new.items) }
{
    let alloc = *out.allocator();
    let name = firing_name(alloc, firing)?;
    let entries = needed(alloc, job, firing)?;
    let given = given_by(alloc, job, firing)?;
    push_needs(out, firing, &name, &entries)?;
    push_gifts(out, job.program(), firing, &name, &given)
}

/// Appends the arcs of the firings of the job. On an error a part of them may stand there.
#[tactic(auto, using(u_base::proofs::AppendingLaws::extends_by, u_base::proofs::AppendingLaws::extends_behind))]
pub fn push_arcs(out: &mut Vec<u8>, job: &Job, firings: &[Firing]) -> Result<(), AllocError>
    requires { Within (λ f. IsTrue (is_firing_of job.now f)) firings.now }
    ensures ok { OnOk result
        (out.new.items ≡ out.old.items ++ text (flat_map (firing_arcs job.now) firings.now)) }
    ensures err { OnErr result (Extends out.old.items out.new.items) }
{
    for firing in firings {
        push_firing_arcs(out, job, firing)?;
    }
    Ok(())
}
