//! What the inlets of one outlet show, call by call, and how many readers have a place.
ghost use Rattle.std.specs.Prelude.{All};
ghost use Rattle.u_outlet.specs.Sound.{IsSound};

use crate::cases::{Trial, passes_with};
use crate::logs::{all_learn, have_text};
use crate::outlets::{Row, Tried};
use std::alloc::Global;
use std::sync::Wait;
use u_outlet::{Inlet, Named, Notice, Outlet, PullFault};
use u_plain::examples::DOUBLE;
use u_rule::Firing;

/// The first two firings of the double of 4.
const BOTH: &str = "f -.main.1.1 4\nf -.main.2.1 4 4\n";

/// The second of them.
const SECOND: &str = "f -.main.2.1 4 4\n";

/// Adds a number of notices. It returns whether there was a place for each.
fn add_notices<J: Named>(
    outlet: &mut Outlet<J>,
    notices: &mut Vec<Notice<J>>,
    count: usize,
) -> bool {
    for _notice in 0..count {
        let Some(notice) = outlet.notice() else {
            return false;
        };
        if notices.push(notice).is_err() {
            return false;
        }
    }
    true
}

/// Whether there are places for just that number of notices at once. All are dropped then.
fn has_places<J: Named>(alloc: Global, outlet: &mut Outlet<J>, count: usize) -> bool {
    let mut notices = Vec::new(alloc);
    add_notices(outlet, &mut notices, count)
        && outlet.notice().is_none()
        && outlet.inlet().is_none()
}

/// Whether a pull from that place shows the firings of that text.
fn shows<J: Named>(alloc: Global, inlet: &mut Inlet<J>, place: usize, text: &str) -> bool {
    match inlet.pull(place) {
        Ok(firings) => have_text(alloc, firings.as_slice(), text),
        Err(_) => false,
    }
}

/// Whether the inlet shows both firings.
fn shows_both<J: Named>(alloc: Global, inlet: &mut Inlet<J>) -> bool {
    shows(alloc, inlet, 0, BOTH)
        && shows(alloc, inlet, 1, SECOND)
        && shows(alloc, inlet, 2, "")
        && inlet.seen() == 2
}

/// Whether each inlet shows both firings.
fn all_show_both<J: Named>(alloc: Global, inlets: &mut [Inlet<J>]) -> bool {
    for inlet in inlets {
        if !shows_both(alloc, inlet) {
            return false;
        }
    }
    true
}

/// Whether each inlet shows nothing.
fn all_show_nothing<J: Named>(alloc: Global, inlets: &mut [Inlet<J>]) -> bool {
    for inlet in inlets {
        if !shows(alloc, inlet, 0, "") || inlet.seen() != 0 {
            return false;
        }
    }
    true
}

/// Whether no inlet shows anything, since the outlet is closed.
fn all_are_closed<J: Named>(inlets: &mut [Inlet<J>]) -> bool {
    for inlet in inlets {
        if !matches!(inlet.pull(0), Err(PullFault::NoReading)) || inlet.seen() != 2 {
            return false;
        }
    }
    true
}

/// Whether the inlets show what is put once it is published, and not before, and there are places for as many
/// notices as inlets, again once each inlet has learnt one.
pub fn show_in_time<J: Named, R: Wait>(
    rt: &R,
    alloc: Global,
    outlet: &mut Outlet<J>,
    inlets: &mut [Inlet<J>],
    firings: &[Firing],
) -> bool
    requires { All (IsSound J.job) firings.now }
{
    has_places(alloc, outlet, inlets.len())
        && outlet.put(firings).is_ok()
        && all_show_nothing(alloc, inlets)
        && outlet.publish(rt).is_ok()
        && all_learn(outlet, inlets, 2)
        && has_places(alloc, outlet, inlets.len())
        && all_show_both(alloc, inlets)
        && outlet.publish(rt).is_ok()
        && all_show_both(alloc, inlets)
}

/// Whether what was published until the outlet was closed is both firings, and no inlet shows anything.
pub fn are_closed<J: Named>(alloc: Global, all: &[Firing], inlets: &mut [Inlet<J>]) -> bool {
    have_text(alloc, all, BOTH) && all_are_closed(inlets)
}

#[test]
fn inlets_show_what_is_published(rt: HostRuntime) {
    for readers in 1..9 {
        let row = Row {
            tried: Tried::Shows,
            readers,
        };
        assert!(rt; passes_with(&rt, rt.alloc(), DOUBLE, 4, Trial::Outlet(row)));
    }
}
