//! An outlet with its inlets, and what is tried with them.
ghost use Rattle.std.specs.Prelude.{◌≡◌, All};
ghost use Rattle.u_outlet.specs.Sound.{IsSound};

use crate::gather_tests::goes_over;
use crate::logs::front;
use crate::pull_tests::{are_closed, show_in_time};
use std::alloc::Global;
use std::marker::Brand;
use std::sync::Wait;
use u_check::Job;
use u_machine::Machine;
use u_outlet::{Inlet, Named, Outlet, outlet};
use u_rule::Firing;

/// What is tried with an outlet and its inlets.
#[derive(Clone, Copy)]
pub enum Tried {
    /// What the inlets show, call by call.
    Shows,
    /// What goes from a replica to another.
    Crosses,
}

/// What is tried, and with what.
#[derive(Clone, Copy)]
pub struct Row {
    pub tried: Tried,
    /// How many inlets the outlet has, 1 to 8.
    pub readers: usize,
}

/// The job, its first two firings, and the row.
#[derive(Drop)]
struct Given<'a> {
    job: &'a Job,
    firings: &'a [Firing],
    row: Row,
}

/// Whether what is tried goes as it has to, as long as the outlet is open.
fn goes_well<J: Named, R: Wait>(
    rt: &R,
    alloc: Global,
    outlet: &mut Outlet<J>,
    inlets: &mut [Inlet<J>],
    given: &Given<'_>,
) -> bool
    requires job { J.job ≡ given.now.job.now }
    requires sound { All (IsSound J.job) given.now.firings.now }
{
    match given.row.tried {
        Tried::Shows => show_in_time(rt, alloc, outlet, inlets, given.firings),
        Tried::Crosses => goes_over(rt, alloc, outlet, inlets, given.job),
    }
}

/// Whether all that was published and the inlets are as they have to be, once the outlet is closed.
fn ends_well<J: Named>(
    alloc: Global,
    all: &[Firing],
    inlets: &mut [Inlet<J>],
    tried: Tried,
) -> bool {
    match tried {
        Tried::Shows => are_closed(alloc, all, inlets),
        Tried::Crosses => true,
    }
}

/// Whether what is tried goes as it has to with an outlet and its inlets, which is closed then.
fn goes_well_with_new<J: Named, R: Wait>(rt: &R, alloc: Global, given: &Given<'_>) -> bool
    requires job { J.job ≡ given.now.job.now }
    requires sound { All (IsSound J.job) given.now.firings.now }
{
    let readers = given.row.readers;
    if readers < 1 || 8 < readers {
        return false;
    }
    let Ok((mut outlet, made)) = outlet::<J>(alloc, given.job, readers) else {
        return false;
    };
    let Ok(mut inlets) = made else {
        outlet.close(rt);
        return false;
    };
    let well = goes_well(rt, alloc, &mut outlet, inlets.as_mut_slice(), given);
    let all = outlet.close_into(rt);
    well && inlets.len() == readers
        && ends_well(
            alloc,
            all.as_slice(),
            inlets.as_mut_slice(),
            given.row.tried,
        )
}

/// The same with the first two firings that the machine applied.
fn goes_well_with_log<J: Named, R: Wait>(
    rt: &R,
    alloc: Global,
    machine: &Machine<'_>,
    row: Row,
) -> bool
    requires { J.job ≡ machine.now.job }
{
    let given = Given {
        job: machine.job(),
        firings: front::<J>(machine, 2),
        row,
    };
    goes_well_with_new::<J, R>(rt, alloc, &given)
}

/// The same with no job named.
pub fn does_well<R: Wait>(rt: &R, alloc: Global, machine: &Machine<'_>, row: Row) -> bool {
    goes_well_with_log::<Brand, R>(rt, alloc, machine, row)
}
