//! What is told of a program that is not determinate.
use crate::scanning::BlockLine;
use crate::spot::Spot;
use crate::telling::Told;
use crate::telling_sources::{Why, tell_ports};
use std::alloc::{AllocError, Global};
use u_check::Checked;
use u_determinate::{Meeting, MeetingPoint};
use u_program::{Kind, Statement};

/// What a determinate program keeps, so that this meets nowhere.
fn sentence_of_meeting(meeting: Meeting) -> &'static str {
    match meeting {
        Meeting::Arcs => "of the destinations that lead to one port, one at most brings it a value",
        Meeting::Ends => "a block has one `end` at most",
        Meeting::Calls => "one `apply` at most names a `back`",
        Meeting::Turns => "no turn of a loop has a `next` that fires and a `last` that does",
    }
}

/// Whether the statement meets that of the spot: it is an `end` as that one, an `apply` that names its
/// `back`, or a `last` in the loop of its `next`.
fn meets(spot: &Spot<'_>, statement: &Statement) -> bool {
    let Some(own) = spot.statement() else {
        return false;
    };
    match (own.kind(), statement.kind()) {
        (Kind::End, Kind::End) => true,
        (Kind::Back, Kind::Apply(named, _)) => usize::from(*named) == spot.number,
        (Kind::Next, Kind::Last) => statement.region() == own.region(),
        _ => false,
    }
}

/// The numbers of the statements that meet that of the spot.
fn meeting_of(alloc: Global, spot: &Spot<'_>) -> Result<Vec<usize>, AllocError> {
    let mut numbers = Vec::new(alloc);
    for (i, statement) in spot.block.statements().iter().enumerate() {
        if meets(spot, statement) {
            numbers.push(i + 1)?;
        }
    }
    Ok(numbers)
}

/// Appends what meets at the statement, if it is not at its ports: that an `end` stands before it, that
/// several `apply`s name it, a `back`, or that a `last` may fire in its turn, which is that of a `next`.
pub fn tell_met(out: &mut String, alloc: Global, spot: &Spot<'_>, meeting: Meeting) -> Told {
    let numbers = meeting_of(alloc, spot)?;
    let (number, count, region) = (spot.number, numbers.len(), spot.region());
    let first = numbers.first().copied().unwrap_or(0);
    spot.show(out, BlockLine::Statement(number), 2)?;
    match meeting {
        Meeting::Calls => writeln!(
            out,
            "cause: {count} statements `apply {number}` name this `back`, and the result of each of their \
                calls comes to it"
        )?,
        Meeting::Turns => writeln!(
            out,
            "cause: this `next` may fire in a turn of loop {region} in which a `last` does, and then the \
                loop goes on and ends as well; a `next` takes its value from one list of a `switch`, and a \
                `last` from the other one, by the same control"
        )?,
        _ => writeln!(
            out,
            "cause: statement {first} is an `end` already; with two of them a call of the block may have \
                two results"
        )?,
    }
    if meeting == Meeting::Ends {
        return spot.see(out, &[first]);
    }
    spot.see(out, &numbers)
}

/// Why a program is not determinate, for people: some lines of text, each with its newline. `bytes` are
/// the text of the program, and `place` the first place where it is not (`determinacy`).
///
/// It says what a determinate program keeps, in which block it is not kept, the line of the statement
/// with a mark under its kind, and the cause; and it shows the other lines that are involved, four of
/// them at most. If a value comes to a port again in one turn of a loop, since it goes round by another
/// statement than a `next`, it says so.
///
/// # Errors
/// `AllocError` if there is no memory.
pub fn explain_meeting(
    alloc: Global,
    bytes: &[u8],
    checked: &Checked,
    place: MeetingPoint,
) -> Result<Vec<u8>, AllocError> {
    let mut out = String::new(alloc);
    writeln!(out, "determinate: {}", sentence_of_meeting(place.meeting))?;
    match (
        Spot::new(bytes, checked.program(), place.block, place.at),
        place.meeting,
    ) {
        (Some(spot), Meeting::Arcs) => tell_ports(&mut out, alloc, &spot, Why::NotApart)?,
        (Some(spot), meeting) => tell_met(&mut out, alloc, &spot, meeting)?,
        (None, _) => {}
    }
    Ok(out.into_bytes())
}
