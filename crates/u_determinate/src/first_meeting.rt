//! Whether a program is determinate, and the first place where it is not.
ghost use Rattle.std.specs.Prelude.{◌≡◌, IfOk};
ghost use Rattle.u_determinate.specs.Breaches.{IsFirstFailing};
ghost use Rattle.u_check.specs.Rules.{IsChecked};
ghost use Rattle.u_determinate.specs.Flow.{AreSources, AreAllMarks};
ghost use Rattle.u_determinate.specs.Meetings.{Asks, IsAnswer, IsExact};
ghost use Rattle.u_determinate.specs.Findings.{found_of, AreFirst, AreFindings, IsFirstFound};

use crate::hints::hints_of;
use crate::incoming::sources_of;
use crate::keeps::Guarded;
use crate::marking::Flow;
use crate::sides::all_marks;
use crate::trail::ahead_of;
use crate::verdict::{Determinacy, Meeting, MeetingPoint};
use std::alloc::{AllocError, Global};
use u_check::Checked;
use u_program::Block;

/// For each kind of meeting the number of the first statement of a block where it happens.
#[derive(Clone, Copy)]
struct Found {
    arcs: Option<usize>,
    ends: Option<usize>,
    calls: Option<usize>,
    turns: Option<usize>,
}

impl Found {
    fn of(&self, meeting: Meeting) -> Option<usize>
        ensures { result ≡ found_of self.now meeting }
    {
        match meeting {
            Meeting::Arcs => self.arcs,
            Meeting::Ends => self.ends,
            Meeting::Calls => self.calls,
            Meeting::Turns => self.turns,
        }
    }
}

/// The kinds of meetings, in their order.
const MEETINGS: [Meeting; 4] = [Meeting::Arcs, Meeting::Ends, Meeting::Calls, Meeting::Turns];

/// The number of the first statement where that happens. At number 0, which no statement has,
/// nothing does.
fn first_at(guarded: Guarded<'_>, meeting: Meeting) -> Option<usize>
    requires sources { AreSources guarded.flow.statements.now guarded.flow.sources.now }
    requires all { AreAllMarks guarded.flow.statements.now guarded.guards.now }
    ensures { IsFirstFailing (Asks meeting guarded.entry.flow.statements.now) result }
{
    for number in 0..guarded.flow.statements.len() + 1 {
        if !guarded.keeps(meeting, number) {
            return Some(number);
        }
    }
    None
}

/// What is found, by the guards.
fn found_by(guarded: Guarded<'_>) -> Found
    requires sources { AreSources guarded.flow.statements.now guarded.flow.sources.now }
    requires all { AreAllMarks guarded.flow.statements.now guarded.guards.now }
    ensures { AreFirst guarded.entry.flow.statements.now result }
{
    let arcs = first_at(guarded, Meeting::Arcs);
    let ends = first_at(guarded, Meeting::Ends);
    let calls = first_at(guarded, Meeting::Calls);
    let turns = first_at(guarded, Meeting::Turns);
    Found {
        arcs,
        ends,
        calls,
        turns,
    }
}

/// What is found in the block.
fn findings(alloc: Global, block: &Block) -> Result<Found, AllocError>
    ensures { IfOk result (AreFirst block.now.statements) }
{
    let statements = block.statements();
    let sources = sources_of(alloc, statements)?;
    let ahead = ahead_of(alloc, statements, &sources)?;
    let flow = Flow {
        statements,
        sources: &sources,
        ahead: &ahead,
    };
    let guards = all_marks(alloc, flow)?;
    let hints = hints_of(alloc, flow, &guards)?;
    Ok(found_by(Guarded {
        flow,
        guards: &guards,
        hints: &hints,
    }))
}

/// What is found in each block.
fn all_findings(alloc: Global, blocks: &[Block]) -> Result<Vec<Found>, AllocError>
    ensures { IfOk result (λ v. AreFindings blocks.now v.items) }
{
    let mut all = Vec::new(alloc);
    for block in blocks {
        let found = findings(alloc, block)?;
        all.push(found)?;
    }
    Ok(all)
}

/// The first place where that meets.
fn first_of(findings: &[Found], meeting: Meeting) -> Option<MeetingPoint>
    ensures { IsFirstFound findings.now meeting result }
{
    for (i, found) in findings.iter().enumerate() {
        if let Some(at) = found.of(meeting) {
            return Some(MeetingPoint {
                meeting,
                block: i + 1,
                at,
            });
        }
    }
    None
}

/// Whether the blocks are those of a determinate program, or the first place that shows that they
/// are not.
fn determinacy_of(alloc: Global, blocks: &[Block]) -> Result<Determinacy, AllocError>
    requires { IsChecked blocks.now }
    ensures answer { IfOk result (IsAnswer blocks.now) }
    ensures exact { IfOk result (IsExact blocks.now) }
{
    let findings = all_findings(alloc, blocks)?;
    for meeting in MEETINGS {
        if let Some(place) = first_of(&findings, meeting) {
            return Ok(Determinacy::Meets(place));
        }
    }
    Ok(Determinacy::Determinate)
}

/// Whether the program is determinate, or the first place that shows that it is not.
///
/// Promise determinacy-is-exact: `Determinate` is returned exactly if the program is determinate.
///
/// Promise first-meeting: of another program the first place is returned that shows it, in the order of
/// `Meeting`, then by its block, then by its statement.
///
/// # Errors
/// `AllocError` where there is no memory.
pub fn determinacy(alloc: Global, checked: &Checked) -> Result<Determinacy, AllocError>
    ensures answer { IfOk result (IsAnswer checked.now.blocks) }
    ensures exact { IfOk result (IsExact checked.now.blocks) }
{
    determinacy_of(alloc, checked.program().blocks())
}
