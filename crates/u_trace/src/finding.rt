//! The cell that is to blame among what firings give.
ghost use Rattle.std.specs.Prelude.{◌≡◌, ◌<◌, IfOk, Contains, Some, length, slice_get};
ghost use Rattle.u_rule.specs.Rule.{own_of};
ghost use Rattle.u_rule.specs.EntryOrder.{write_of};
ghost use Rattle.u_rule.specs.declared.entry.Entry.TheVariants as entries;
ghost use Rattle.u_base.specs.Firing.{Held, Same};
ghost use Rattle.u_history.specs.Outcomes.{PairIn, IsCellClash};
ghost use Rattle.u_history.specs.Clashes.{cell_pairs};
ghost use Rattle.u_trace.specs.Table.{place_in};
ghost use Rattle.u_trace.specs.Givers.{AreGivers, AreFirings};
ghost use Rattle.u_trace.specs.Stories.{GivesFirst};
ghost use Rattle.u_trace.specs.Holding.{GivenBy};
ghost use Rattle.u_trace.specs.Blames.{IsWriteIn, HasWritesOf, BlameAmong};

use crate::blamed::{Blame, BlamedWrite};
use crate::givers::givers_of;
use crate::holding::held_by;
use crate::table::Givers;
use std::alloc::{AllocError, Global};
use u_check::Job;
use u_history::{CellClash, History};
use u_name::Cell;
use u_rule::{Entry, Firing, Write, Written};

/// The write of that pair in the cell.
fn write_in(cell: &Cell, pair: &Written) -> Result<Entry, AllocError>
    ensures { IfOk result
        (λ e. e ≡ entries.Write (write_of cell.now pair.now.writer pair.now.value)) }
{
    Ok(Entry::Write(Write {
        cell: cell.copy()?,
        writer: pair.writer.copy()?,
        value: pair.value.copy()?,
    }))
}

/// Firings, with what their writes are found by: the place of each entry's giver.
#[derive(Clone, Copy)]
struct Given<'a> {
    alloc: Global,
    job: &'a Job,
    firings: &'a [Firing],
    givers: &'a Givers,
}

impl Given<'_> {
    /// The firing at that place.
    fn at(&self, place: usize) -> Result<Firing, AllocError>
        requires { place < length self.now.firings.now }
        ensures { IfOk result (λ f. slice_get self.now.firings.now place ≡ Some f) }
    {
        self.firings[place].copy(self.alloc)
    }

    /// The first of the firings that gives the entry.
    fn giver(&self, entry: &Entry) -> Result<Firing, AllocError>
        requires givers { AreGivers (own_of self.now.job.now) self.now.firings.now
            (place_in self.now.givers.now) }
        requires given { GivenBy (own_of self.now.job.now) self.now.firings.now entry.now }
        ensures { IfOk result
            (GivesFirst (own_of self.now.job.now) self.now.firings.now entry.now) }
    {
        let found = self.givers.of(entry)?;
        match found {
            Some(place) => self.at(place),
            None => unreachable!(),
        }
    }

    /// The write of that pair in the cell.
    fn write(&self, cell: &Cell, pair: &Written) -> Result<BlamedWrite, AllocError>
        requires givers { AreGivers (own_of self.now.job.now) self.now.firings.now
            (place_in self.now.givers.now) }
        requires given { PairIn (GivenBy (own_of self.now.job.now) self.now.firings.now)
            cell.now pair.now }
        ensures pair { IfOk result (λ w. w.pair ≡ pair.now) }
        ensures firing { IfOk result
            (IsWriteIn self.now.job.now self.now.firings.now cell.now) }
    {
        let entry = write_in(cell, pair)?;
        let firing = self.giver(&entry)?;
        Ok(BlamedWrite {
            pair: pair.copy()?,
            firing,
        })
    }

    /// The cell, with its two least pairs.
    fn blame(&self, clash: &CellClash) -> Result<Blame, AllocError>
        requires givers { AreGivers (own_of self.now.job.now) self.now.firings.now
            (place_in self.now.givers.now) }
        requires clash { IsCellClash (Held (own_of self.now.job.now) self.now.firings.now)
            (cell_pairs clash.now) }
        ensures { IfOk result
            (HasWritesOf self.now.job.now self.now.firings.now clash.now.cell) }
    {
        match clash.pairs.as_slice() {
            [first, second, ..] => Ok(Blame {
                cell: clash.cell.copy()?,
                first: self.write(&clash.cell, first)?,
                second: self.write(&clash.cell, second)?,
            }),
            _ => unreachable!(),
        }
    }
}

/// The cell, with its two least pairs among what the firings give.
fn blame_cell(
    alloc: Global,
    job: &Job,
    firings: &[Firing],
    clash: &CellClash,
) -> Result<Blame, AllocError>
    requires firings { AreFirings (own_of job.now) firings.now }
    requires clash { IsCellClash (Held (own_of job.now) firings.now) (cell_pairs clash.now) }
    ensures { IfOk result (HasWritesOf job.now firings.now clash.now.cell) }
{
    let givers = givers_of(alloc, job, firings)?;
    let given = Given {
        alloc,
        job,
        firings,
        givers: &givers,
    };
    let found = given.blame(clash)?;
    Ok(found)
}

/// The least cell that has two pairs in the set of what the firings hold, if there is one.
fn blame_held(
    alloc: Global,
    job: &Job,
    firings: &[Firing],
    held: &History,
) -> Result<Option<Blame>, AllocError>
    requires firings { AreFirings (own_of job.now) firings.now }
    requires held { Same (Contains held.now) (Held (own_of job.now) firings.now) }
    ensures { IfOk result (BlameAmong job.now firings.now) }
{
    let outcome = held.outcome()?;
    match outcome.cell_clashes.first() {
        Some(clash) => {
            let found = blame_cell(alloc, job, firings, clash)?;
            Ok(Some(found))
        }
        None => Ok(None),
    }
}

/// The least cell that has two pairs among what the firings give, if there is one.
///
/// # Errors
/// `AllocError` where there is no memory.
pub(crate) fn blame_among(
    alloc: Global,
    job: &Job,
    firings: &[Firing],
) -> Result<Option<Blame>, AllocError>
    requires { AreFirings (own_of job.now) firings.now }
    ensures { IfOk result (BlameAmong job.now firings.now) }
{
    let held = held_by(alloc, job, firings)?;
    let found = blame_held(alloc, job, firings, &held)?;
    Ok(found)
}
