//! What a member of the double of 4 does when its reads, its room and its writers are those of a test. Its
//! firings are `f -.main.1.1 4`, `f -.main.2.1 4 4` and `f -.main.3.1 8`.
ghost use Rattle.std.specs.Prelude.{◌≤◌};

use crate::streams::{Flaw, Pen, Pieces, Piecewise};
use std::alloc::Global;
use std::io::{Read, Write, empty};
use std::test::Fail;
use u_check::Job;
use u_plain::examples::{DOUBLE, SUM, job};
use u_share::{Bus, Ended, Plan, ShareFault, share};

/// How a member ends, and with how many applied firings; or its fault.
type End = Result<(Ended, usize), ShareFault>;

/// How many firings a member takes at most, how many it fires between two reads, and whether it follows.
pub type Way = (usize, usize, bool);

/// What the row shows, the member's way, what each read gives, what it prints and tells, and how it ends.
type Row = (
    &'static str,
    Way,
    &'static [&'static str],
    &'static str,
    &'static str,
    End,
);

/// It ended with nothing ready, after three firings.
const QUIET: End = Ok((Ended::Quiet, 3));

/// It ended at the end of its input, after three firings.
const INPUT: End = Ok((Ended::Input, 3));

/// The lines of its second and third firing.
const REST: &str = "f -.main.2.1 4 4\nf -.main.3.1 8\n";

const ROWS: &[Row] = &[
    (
        "a parked firing takes room, and the notice before it stands",
        (1, 0, false),
        &["x\nf -.main.2.1 4 4\nf -.main.1.1 4\ny\n"],
        "",
        "u: line 1 not allowed\n",
        Err(ShareFault::Full),
    ),
    (
        "a follower that heard a firing waits",
        (100, 64, true),
        &["f -.main.1.1 4\n", "\n", "x\n"],
        REST,
        "u: line 3 not allowed\n",
        INPUT,
    ),
    (
        "it fires at the second clock's line",
        (100, 64, true),
        &["f -.main.1.1 4\n", "\n", "\n", "x\n"],
        REST,
        "",
        QUIET,
    ),
    (
        "a parked firing is no news",
        (100, 64, true),
        &["f -.main.3.1 8\n", "\n", "x\n"],
        "f -.main.1.1 4\nf -.main.2.1 4 4\n",
        "",
        QUIET,
    ),
    (
        "a known firing is no news",
        (100, 64, true),
        &["f -.main.1.1 4\n", "\n", "f -.main.1.1 4\n", "\n", "x\n"],
        REST,
        "",
        QUIET,
    ),
    (
        "a follower that leads stops when it hears a firing",
        (100, 1, true),
        &["\n", "f -.main.2.1 4 4\n", "x\n"],
        "f -.main.1.1 4\nf -.main.3.1 8\n",
        "u: line 3 not allowed\n",
        INPUT,
    ),
    (
        "a read fails in a line",
        (100, 1, false),
        &["x\nf -.main.2"],
        "f -.main.1.1 4\nf -.main.2.1 4 4\n",
        "u: line 1 not allowed\n",
        Err(ShareFault::NotReadable),
    ),
];

/// The rows. A proof that calls this knows none of them, and so is short.
fn rows() -> &'static [Row] {
    ROWS
}

/// The plan of a member of that way.
pub fn plan_of(way: Way) -> Plan
    ensures { result.limit ≤ 1000000 }
{
    let (limit, burst, follows) = way;
    Plan {
        limit: limit.min(1_000_000),
        burst,
        follows,
    }
}

/// Whether a member of that way ends so on the bus.
fn ends<R: Read, W: Write, N: Write>(
    alloc: Global,
    job: &Job,
    way: Way,
    bus: &mut Bus<R, W, N>,
    end: End,
) -> bool {
    match share(alloc, job, plan_of(way), bus) {
        Ok((machine, ended)) => end == Ok((ended, machine.applied().len())),
        Err(fault) => end == Err(fault),
    }
}

/// Whether a member does as the row says. After its last read the reader fails, if the member ends at that.
fn does(alloc: Global, job: &Job, row: &Row) -> bool {
    let (_, way, all, prints, tells, end) = *row;
    let mut bus = Bus {
        reader: Pieces {
            all,
            place: 0,
            fails: end == Err(ShareFault::NotReadable),
        },
        writer: Vec::new(alloc),
        notices: Vec::new(alloc),
    };
    ends(alloc, job, way, &mut bus, end)
        && bus.writer.as_slice() == prints.as_bytes()
        && bus.notices.as_slice() == tells.as_bytes()
}

#[test]
fn members_do_as_the_rows_say(rt: HostRuntime) -> Result<(), Fail> {
    let job = job(rt.alloc(), DOUBLE, 4)?;
    for row in rows() {
        assert!(rt; does(rt.alloc(), &job, row), "{}", row.0);
    }
    Ok(())
}

/// After how many calls a writer has which flaw, and how many bytes it has taken then.
type Flawed = (usize, Flaw, usize);

/// What a member reads and how often it fires between two reads, its writer, and that of its notices.
type Stop = (&'static [&'static str], usize, Flawed, Flawed);

/// A writer that is not written to.
const UNUSED: Flawed = (0, Flaw::Fails, 0);

/// Members that stop at a writer.
const STOPS: &[Stop] = &[
    (&["\n", "\n"], 1, (2, Flaw::Fails, 32), UNUSED),
    (&["\n", "\n"], 1, (1, Flaw::TakesNothing, 15), UNUSED),
    (&["\n", "\n"], 1, (1, Flaw::Sticks, 15), UNUSED),
    (&["x\nx\n"], 0, UNUSED, (0, Flaw::Fails, 0)),
    (&["x\nx\n"], 0, UNUSED, (1, Flaw::Fails, 22)),
];

/// The members. A proof that calls this knows none of them, and so is short.
fn stops() -> &'static [Stop] {
    STOPS
}

/// The writer, as it is before the first call.
fn pen(alloc: Global, flawed: Flawed) -> Pen {
    Pen {
        kept: Vec::new(alloc),
        left: flawed.0,
        flaw: flawed.1,
    }
}

/// Whether the member stops at a writer, and has written as many bytes then as the row says.
fn is_stopped(alloc: Global, job: &Job, stop: &Stop) -> bool {
    let (all, burst, writer, notices) = *stop;
    let mut bus = Bus {
        reader: Pieces {
            all,
            place: 0,
            fails: false,
        },
        writer: pen(alloc, writer),
        notices: pen(alloc, notices),
    };
    let end = Err(ShareFault::NotWritten);
    ends(alloc, job, (100, burst, false), &mut bus, end)
        && bus.writer.kept.len() == writer.2
        && bus.notices.kept.len() == notices.2
}

#[test]
fn a_member_stops_at_a_writer_that_fails(rt: HostRuntime) -> Result<(), Fail> {
    let job = job(rt.alloc(), DOUBLE, 4)?;
    for (place, stop) in stops().iter().enumerate() {
        assert!(rt; is_stopped(rt.alloc(), &job, stop), "member {place}");
    }
    Ok(())
}

/// Whether a member that fires all 1,015 firings of the sum of 100 at once writes their 32,732 bytes
/// in few calls, each of whole lines and of 4,096 bytes at most.
fn writes_in_pieces(alloc: Global, job: &Job) -> bool {
    let mut bus = Bus {
        reader: empty(),
        writer: Piecewise {
            calls: 0,
            are_whole: true,
        },
        notices: Vec::new(alloc),
    };
    ends(
        alloc,
        job,
        (2000, 2000, false),
        &mut bus,
        Ok((Ended::Quiet, 1015)),
    ) && bus.writer.are_whole
        && 8 <= bus.writer.calls
        && bus.writer.calls <= 9
}

#[test]
fn lines_are_written_whole(rt: HostRuntime) -> Result<(), Fail> {
    let job = job(rt.alloc(), SUM, 100)?;
    assert!(rt; writes_in_pieces(rt.alloc(), &job));
    Ok(())
}
