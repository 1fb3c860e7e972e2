//! Two members of the sum of 0 that read each other by turns.
//!
//! A member has no state but what it read. So its next turn is had by letting it begin anew, on what the
//! other one printed turn by turn so far; after that its reader fails, and it stops.
use crate::member_tests::{Way, plan_of};
use std::alloc::{AllocError, Global};
use std::io;
use std::io::Read;
use std::test::Fail;
use u_check::Job;
use u_plain::examples::{SUM, job};
use u_share::{Bus, Ended, share};

/// What a member printed in each of its turns. A turn in which it prints nothing is an empty line, a clock's.
#[derive(Drop)]
struct Spoken {
    alloc: Global,
    turns: Vec<Vec<u8>>,
    printed: usize,
}

/// Gives what was printed in one turn at each read. After the last one it fails.
#[derive(Drop)]
struct Turns<'l> {
    all: &'l [Vec<u8>],
    place: usize,
}

impl Read for Turns<'_> {
    fn read(&mut self, buf: &mut [u8]) -> io::Result<usize> {
        let place = self.place;
        self.place = place.saturating_add(1);
        match self.all.get(place) {
            Some(turn) => turn.as_slice().read(buf),
            None => Err(io::Error::from(io::ErrorKind::WouldBlock)),
        }
    }
}

impl Spoken {
    /// It has printed nothing.
    fn new(alloc: Global) -> Spoken {
        Spoken {
            alloc,
            turns: Vec::new(alloc),
            printed: 0,
        }
    }

    /// What another member reads of it.
    fn turns(&self) -> Turns<'_> {
        Turns {
            all: &self.turns,
            place: 0,
        }
    }

    /// One more turn, by the end of which it had printed these bytes.
    fn add(&mut self, printed: &[u8]) -> Result<(), AllocError> {
        let new = printed.get(self.printed..).unwrap_or(b"");
        let turn = if new.is_empty() { b"\n" } else { new };
        self.printed = printed.len();
        self.turns.push(turn.to_vec(self.alloc)?)?;
        Ok(())
    }
}

/// How many applied firings, parked firings and entries a member has, if it ends with nothing ready.
fn ends(
    alloc: Global,
    job: &Job,
    way: Way,
    bus: &mut Bus<Turns<'_>, Vec<u8>, Vec<u8>>,
) -> Option<[usize; 3]> {
    match share(alloc, job, plan_of(way), bus) {
        Ok((machine, Ended::Quiet)) => Some([
            machine.applied().len(),
            machine.parked().len(),
            machine.history().len(),
        ]),
        _ => None,
    }
}

/// The next turn of a member. Returns whether it ends with the whole run.
fn speaks(alloc: Global, job: &Job, way: Way, heard: &Spoken, spoken: &mut Spoken) -> bool {
    let mut bus = Bus {
        reader: heard.turns(),
        writer: Vec::new(alloc),
        notices: Vec::new(alloc),
    };
    let ended = ends(alloc, job, way, &mut bus);
    spoken.add(&bus.writer).is_ok() && bus.notices.is_empty() && ended == Some([15, 0, 22])
}

/// The ways of two members, and whether the second one prints nothing.
type Case = (Way, Way, bool);

const CASES: &[Case] = &[
    ((100, 1, false), (100, 3, false), false),
    ((100, 64, false), (100, 64, true), true),
    ((100, 1, true), (100, 1, true), false),
];

/// The cases. A proof that calls this knows none of them, and so is short.
fn cases() -> &'static [Case] {
    CASES
}

/// Whether both members end with the whole run after 20 turns of each, and the second one prints nothing
/// if it is silent.
fn end_whole(alloc: Global, job: &Job, case: &Case, one: &mut Spoken, other: &mut Spoken) -> bool {
    let (first, second, is_silent) = *case;
    let mut is_whole = false;
    for _turn in 0..20 {
        is_whole = speaks(alloc, job, first, other, one);
        is_whole = speaks(alloc, job, second, one, other) && is_whole;
    }
    is_whole && (other.printed == 0) == is_silent
}

/// The same of new members.
fn both_end(alloc: Global, job: &Job, case: &Case) -> bool {
    let mut one = Spoken::new(alloc);
    let mut other = Spoken::new(alloc);
    end_whole(alloc, job, case, &mut one, &mut other)
}

#[test]
fn two_members_end_with_the_whole_run(rt: HostRuntime) -> Result<(), Fail> {
    let job = job(rt.alloc(), SUM, 0)?;
    for (place, case) in cases().iter().enumerate() {
        assert!(rt; both_end(rt.alloc(), &job, case), "case {place}");
    }
    Ok(())
}
