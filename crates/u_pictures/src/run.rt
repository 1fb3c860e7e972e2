//! The picture of a run.
ghost use Rattle.std.specs.Prelude.{◌≡◌, ◌++◌, map, OnOk, OnErr, IsTrue};
ghost use Rattle.std.specs.List.{flat_map};
ghost use Rattle.u_base.specs.Appending.{Extends};
ghost use Rattle.u_rule.specs.Rule.{is_firing_of};
ghost use Rattle.u_base.specs.Firing.{Within};
ghost use Rattle.u_pictures.specs.Dot.{text};
ghost use Rattle.u_pictures.specs.Told.{told};
ghost use Rattle.u_pictures.specs.Tips.{firing_tip};
ghost use Rattle.u_pictures.specs.Picture.{firing_lines, picture, picture_text};

use crate::arcs::push_arcs;
use crate::entries::push_entries;
use crate::firings::push_firings;
use std::alloc::AllocError;
use u_base::cut_back;
use u_check::Job;
use u_compile::BlockOrigins;
use u_rule::{Entry, Firing};

/// What begins the text: how a picture is laid out, and how nodes and arcs look that do not say so.
const OPENING: &[u8] = b"digraph u {
  graph [ rankdir=\"TB\" newrank=\"true\" nodesep=\"0.18\" ranksep=\"0.2\" fontname=\"Helvetica\" fontsize=\"11\" ];
  node [ shape=\"Mrecord\" style=\"filled\" fontname=\"Helvetica\" fontsize=\"10\" margin=\"0.07,0.03\" height=\"0.25\" ];
  edge [ arrowsize=\"0.5\" color=\"#555555\" ];
";

/// Appends the lines of the picture. On an error a part of them may stand there.
#[tactic(auto, unfolding(crate::specs::Picture::picture), using(u_base::proofs::AppendingLaws::extends_behind, crate::proofs::Shows::text_three))]
fn push_shown(
    out: &mut Vec<u8>,
    job: &Job,
    firings: &[Firing],
    entries: &[Entry],
    origins: &[BlockOrigins],
) -> Result<(), AllocError>
    requires { Within (λ f. IsTrue (is_firing_of job.now f)) firings.now }
    ensures ok { OnOk result (out.new.items
        ≡ out.old.items ++ text (picture origins.now job.now firings.now entries.now)) }
    ensures err { OnErr result (Extends out.old.items out.new.items) }
{
    push_firings(out, job.program(), origins, firings)?;
    push_entries(out, job, origins, entries)?;
    push_arcs(out, job, firings)
}

/// Appends the picture's text. On an error a part of it may stand there.
#[tactic(auto, unfolding(crate::specs::Picture::picture_text), using(u_base::proofs::AppendingLaws::extends_same, u_base::proofs::AppendingLaws::extends_behind, crate::proofs::Texts::join3))]
fn push_picture(
    out: &mut Vec<u8>,
    job: &Job,
    firings: &[Firing],
    entries: &[Entry],
    origins: &[BlockOrigins],
) -> Result<(), AllocError>
    requires { Within (λ f. IsTrue (is_firing_of job.now f)) firings.now }
    ensures ok { OnOk result (out.new.items
        ≡ out.old.items ++ picture_text origins.now job.now firings.now entries.now) }
    ensures err { OnErr result (Extends out.old.items out.new.items) }
{
    out.extend_from_slice(OPENING)?;
    push_shown(out, job, firings, entries, origins)?;
    out.extend_from_slice(b"}\n")?;
    Ok(())
}

/// Appends the picture of a run, as a text of DOT, the language of Graphviz: a node for each of these firings
/// of the job and for each of these entries, which stand in order, and an arc for each entry that a firing
/// needs or gives. A cell has one node for all its writes. The tooltip of a node is the text of its firing or
/// entry, and the place of the statement of which that speaks if the origins tell where it comes from.
///
/// Promise picture-of-firings: exactly the text of the picture of these firings and entries is appended.
///
/// Promise picture-names-its-firings: the tooltips of the firings' nodes are the texts of the firings, in
/// order, each with the place of its statement.
///
/// # Errors
/// `AllocError` where there is no memory. Then `out` is as it was.
#[tactic(auto, using(u_base::proofs::AppendingLaws::extends_cut, crate::proofs::RunLaws::firings_told))]
pub fn write_run(
    out: &mut Vec<u8>,
    job: &Job,
    firings: &[Firing],
    entries: &[Entry],
    origins: &[BlockOrigins],
) -> Result<(), AllocError>
    requires { Within (λ f. IsTrue (is_firing_of job.now f)) firings.now }
    ensures ok { OnOk result (out.new.items
        ≡ out.old.items ++ picture_text origins.now job.now firings.now entries.now) }
    ensures err { OnErr result (out.new.items ≡ out.old.items) }
    ensures firings { told (flat_map (firing_lines origins.now job.now.program) firings.now)
        ≡ map (firing_tip origins.now) firings.now }
{
    let len = out.len();
    let written = push_picture(out, job, firings, entries, origins);
    cut_back(out, len, written)
}
