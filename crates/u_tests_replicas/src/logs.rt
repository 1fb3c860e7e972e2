//! Sound firings, from the logs of machines, lists of firings, and how many an inlet has seen.
ghost use Rattle.std.specs.Prelude.{◌≡◌, All};
ghost use Rattle.u_outlet.specs.Sound.{IsSound};

use std::alloc::Global;
use u_machine::Machine;
use u_outlet::{Inlet, Named, Outlet};
use u_plain::worked::put_firings;
use u_rule::Firing;

/// The first `count` firings that the machine applied, or all if there are fewer.
pub fn front<'a, J: Named>(machine: &'a Machine<'_>, count: usize) -> &'a [Firing]
    requires { J.job ≡ machine.now.job }
    ensures { All (IsSound J.job) result.now }
{
    machine.holds();
    let log = machine.applied();
    &log[..count.min(log.len())]
}

/// Whether these are the firings of that text, a line each. Without memory the result is false.
pub fn have_text(alloc: Global, firings: &[Firing], text: &str) -> bool {
    let mut out = Vec::new(alloc);
    put_firings(&mut out, firings).is_ok() && out.as_slice() == text.as_bytes()
}

/// Whether the list begins with the front.
pub fn begins_with(list: &[Firing], front: &[Firing]) -> bool {
    if list.len() < front.len() {
        return false;
    }
    for place in 0..front.len() {
        if list[place].compare(&front[place]).is_ne() {
            return false;
        }
    }
    true
}

/// Whether each inlet has seen `count` firings once it learns a notice, and before it pulls.
pub fn all_learn<J: Named>(outlet: &mut Outlet<J>, inlets: &mut [Inlet<J>], count: usize) -> bool {
    for inlet in inlets {
        let Some(notice) = outlet.notice() else {
            return false;
        };
        inlet.learn(notice);
        if inlet.seen() != count {
            return false;
        }
    }
    true
}
