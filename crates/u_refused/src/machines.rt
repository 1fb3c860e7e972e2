//! Rows of one machine, whose calls may be refused memory, and what a refused call leaves.
use crate::rows::{TRIES, Trouble, must};
use crate::standing::stands;
use std::alloc::Global;
use u_check::Job;
use u_machine::{ListRefusal, Machine, Ran, Refusal, TakeRefusal};
use u_rule::Firing;

/// How many firings a machine takes at most.
pub const LIMIT: usize = 1_000;

/// How a row's machine comes to its end.
#[derive(Clone, Copy)]
pub enum Way {
    /// It fires one by one.
    Fires,
    /// It takes the run's firings, last one first.
    Backwards,
    /// It takes lists of them, the later ones first.
    Lists,
    /// It runs in two pieces.
    Runs,
}

/// A call of a machine.
#[derive(Clone, Copy)]
enum Call<'a> {
    Fire,
    Take(&'a Firing),
    TakeAll(&'a [Firing]),
    Run(usize),
    Settle,
}

/// How many calls a row has, over so many firings of the run. The last one runs to the end.
fn count_of(firings: usize, way: Way) -> usize {
    match way {
        Way::Fires | Way::Backwards => firings.saturating_add(1),
        Way::Lists => 4,
        Way::Runs => 3,
    }
}

/// The call at that place of a row that takes the firings backwards.
fn backwards_at(firings: &[Firing], place: usize) -> Call<'_> {
    match firings.iter().rev().nth(place) {
        Some(firing) => Call::Take(firing),
        None => Call::Settle,
    }
}

/// The call at that place of a row, of a machine that took so many firings, some by a refused call.
fn call_of(firings: &[Firing], way: Way, place: usize, taken: usize) -> Call<'_> {
    if place.saturating_add(1) >= count_of(firings.len(), way) {
        return Call::Run(LIMIT);
    }
    match way {
        Way::Fires if taken > place => Call::Settle,
        Way::Fires => Call::Fire,
        Way::Backwards => backwards_at(firings, place),
        Way::Lists if place == 0 && taken > 0 => Call::Settle,
        Way::Lists if place == 0 => Call::Fire,
        Way::Lists if place == 1 => Call::TakeAll(firings.get(2..).unwrap_or(&[])),
        Way::Lists => Call::TakeAll(firings),
        Way::Runs if place == 0 => Call::Run((firings.len() / 2).saturating_sub(taken)),
        Way::Runs => Call::Settle,
    }
}

/// Makes the call. Returns whether it is refused memory.
fn is_refused(machine: &mut Machine<'_>, call: Call<'_>) -> bool {
    match call {
        Call::Fire => machine.fire(1) == Err(Refusal::NoMemory),
        Call::Take(firing) => machine.take(firing) == Err(TakeRefusal::NoMemory),
        Call::TakeAll(firings) => machine.take_all(firings) == Err(ListRefusal::NoMemory),
        Call::Run(budget) => machine.run(budget) == Err(Refusal::NoMemory),
        Call::Settle => machine.settle().is_err(),
    }
}

/// How much a machine holds.
#[derive(Clone, Copy)]
pub struct Held {
    pub entries: usize,
    pub applied: usize,
    pub taken: usize,
}

/// How much the machine holds.
pub fn held_by(machine: &Machine<'_>) -> Held {
    let applied = machine.applied().len();
    Held {
        entries: machine.history().len(),
        applied,
        taken: applied.saturating_add(machine.parked().len()),
    }
}

impl Held {
    /// Whether nothing is less than before.
    pub fn has_kept(self, before: Held) -> bool {
        before.entries <= self.entries
            && before.applied <= self.applied
            && before.taken <= self.taken
    }
}

/// Whether both took the same firings and park none.
fn is_same(one: &Machine<'_>, other: &Machine<'_>) -> bool {
    for firing in other.applied() {
        if !one.knows(firing) {
            return false;
        }
    }
    one.parked().len() == 0
        && other.parked().len() == 0
        && one.applied().len() == other.applied().len()
}

/// Runs the machine to its end, which is not refused.
pub fn run_out(machine: &mut Machine<'_>) -> Result<(), Trouble> {
    match machine.run(LIMIT) {
        Ok(Ran::Quiet) => Ok(()),
        _ => Err(Trouble::Memory),
    }
}

/// Where a row stands: its job, a machine at the end of the run, and the calls.
#[derive(Clone, Copy)]
struct Row<'a, 'b> {
    alloc: Global,
    end: &'a Machine<'b>,
    way: Way,
    /// Whether it is settled before a refused call is made again.
    settles: bool,
}

impl Row<'_, '_> {
    /// The call at that place, of a machine that stands there.
    fn call_at(&self, place: usize, machine: &Machine<'_>) -> Call<'_> {
        call_of(self.end.applied(), self.way, place, held_by(machine).taken)
    }

    /// Sees that the machine, of which a call was refused, stands as it may, and holds no less than before.
    fn look(&self, machine: &Machine<'_>, before: Held) -> Result<(), Trouble> {
        stands(self.alloc, machine, self.end)?;
        must(held_by(machine).has_kept(before), "something is lost")
    }

    /// Settles the machine, again while that is refused, which takes no firing.
    fn settle(&self, machine: &mut Machine<'_>) -> Result<(), Trouble> {
        for _ in 0..TRIES {
            let before = held_by(machine);
            let is_settled = machine.settle().is_ok();
            self.look(machine, before)?;
            must(held_by(machine).taken == before.taken, "settling takes")?;
            if is_settled {
                return must(machine.is_settled(), "settling does not settle");
            }
        }
        must(false, "settling goes on being refused")
    }

    /// Makes the call at that place, again while it is refused, in rows that settle once settled.
    fn call(&self, machine: &mut Machine<'_>, place: usize) -> Result<(), Trouble> {
        for _ in 0..TRIES {
            let before = held_by(machine);
            let call = self.call_at(place, machine);
            if !is_refused(machine, call) {
                return must(machine.is_settled(), "the call does not settle");
            }
            self.look(machine, before)?;
            if self.settles {
                self.settle(machine)?;
            }
        }
        must(false, "memory is wanted that is there")
    }

    /// Makes all calls on the machine, which comes to the end of the run, and writes its history.
    fn tell_on(&self, machine: &mut Machine<'_>, out: &mut Vec<u8>) -> Result<(), Trouble> {
        for place in 0..count_of(self.end.applied().len(), self.way) {
            self.call(machine, place)?;
        }
        must(is_same(machine, self.end), "the end is not that of the run")?;
        stands(self.alloc, machine, self.end)?;
        machine.history().write_text(out)?;
        Ok(())
    }

    /// Makes all calls on a new machine.
    fn tell(&self, out: &mut Vec<u8>) -> Result<(), Trouble> {
        let mut machine = Machine::new(self.alloc, self.end.job(), LIMIT)?;
        self.tell_on(&mut machine, out)
    }
}

/// Runs the machine to the end, and makes the row's calls on another one.
fn tell_from(
    alloc: Global,
    end: &mut Machine<'_>,
    way: Way,
    settles: bool,
    out: &mut Vec<u8>,
) -> Result<(), Trouble> {
    run_out(end)?;
    let row = Row {
        alloc,
        end,
        way,
        settles,
    };
    row.tell(out)
}

/// Writes the history at the end of the row, which is that of the run.
pub fn tell(
    alloc: Global,
    job: &Job,
    way: Way,
    settles: bool,
    out: &mut Vec<u8>,
) -> Result<(), Trouble> {
    let mut end = Machine::new(alloc, job, LIMIT)?;
    tell_from(alloc, &mut end, way, settles, out)
}
