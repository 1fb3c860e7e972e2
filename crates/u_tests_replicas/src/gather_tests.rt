//! The log of a replica goes out, and comes in at another replica of its job.
ghost use Rattle.std.specs.Prelude.{◌≡◌};

use crate::cases::{Trial, passes_with};
use crate::logs::all_learn;
use crate::outlets::{Row, Tried};
use std::alloc::Global;
use std::sync::Wait;
use u_check::Job;
use u_fleet::{Inlet, Named, Outlet, gather, send};
use u_plain::examples::DOUBLE;
use u_replica::Replica;

/// Whether the replica has applied the three firings of the double, and holds their five entries.
fn has_all(replica: &Replica<'_>) -> bool {
    let machine = replica.machine();
    machine.applied().len() == 3 && machine.history().len() == 5
}

/// Whether the replica takes all three firings that the inlet shows, and nothing more after them.
fn takes_all<J: Named>(replica: &mut Replica<'_>, inlet: &mut Inlet<J>) -> bool
    requires { replica.old.machine.job ≡ J.job }
{
    gather(replica, inlet, 0) == Ok(3)
        && has_all(replica)
        && gather(replica, inlet, 3) == Ok(3)
        && has_all(replica)
}

/// The same of a new replica and of the first of the inlets, and whether there is one.
fn new_takes_all<J: Named>(alloc: Global, inlets: &mut [Inlet<J>], job: &Job) -> bool
    requires { J.job ≡ job.now }
{
    let Some(inlet) = inlets.first_mut() else {
        return false;
    };
    match Replica::new(alloc, job, 10, 2) {
        Ok(mut two) => takes_all(&mut two, inlet),
        Err(_) => false,
    }
}

/// Whether the log of a replica that has run goes out in one call.
fn goes_out<J: Named, R: Wait>(rt: &R, alloc: Global, outlet: &mut Outlet<J>, job: &Job) -> bool
    requires { J.job ≡ job.now }
{
    match Replica::new(alloc, job, 10, 1) {
        Ok(mut one) => one.run(10).is_ok() && send(rt, &one, outlet, 0) == Ok(3),
        Err(_) => false,
    }
}

/// Whether the log of a replica that has run goes out in one call, and comes in at a new one.
pub fn goes_over<J: Named, R: Wait>(
    rt: &R,
    alloc: Global,
    outlet: &mut Outlet<J>,
    inlets: &mut [Inlet<J>],
    job: &Job,
) -> bool
    requires { J.job ≡ job.now }
{
    goes_out(rt, alloc, outlet, job)
        && all_learn(outlet, inlets, 3)
        && new_takes_all(alloc, inlets, job)
}

#[test]
fn what_is_sent_is_gathered(rt: HostRuntime) {
    let row = Row {
        tried: Tried::Crosses,
        readers: 1,
    };
    assert!(rt; passes_with(&rt, rt.alloc(), DOUBLE, 4, Trial::Outlet(row)));
}
