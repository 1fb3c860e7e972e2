//! Fleets whose gate says turns, or at which workers wait: what they report, and what no contract says of how
//! they work. `tests/gates.sh` tries these tests on bodies that do otherwise.
use crate::cases::{Trial, passes_with};
use crate::fleets::{Fleet, Look};
use crate::gates::Script;
use u_fleet::Turn;
use u_plain::examples::SUM;

/// Fleets of several plans, whose gate lets each worker go on, or stops worker 1 or has it start again
/// after its second round. They report what one machine holds.
const PLANS: &[Fleet] = &[
    (1, 8, 100, Script::Go, Look::Held),
    (2, 8, 100, Script::Go, Look::Held),
    (8, 8, 100, Script::Go, Look::Held),
    (2, 0, 100, Script::Go, Look::Held),
    (2, 8, 3, Script::Once(1, Turn::Stop), Look::Held),
    (2, 8, 3, Script::Once(1, Turn::Restart), Look::Held),
];

/// A worker fires in its rounds, and not in its last run alone. Once stopped it leaves what it published.
const STOPPED_AFTER_ALL: &[Fleet] = &[(1, 1, 100, Script::Once(0, Turn::Stop), Look::AllOfSum)];

/// A worker that starts again after its second round does so from what it saved after its first.
const STARTED_AGAIN: &[Fleet] = &[(1, 3, 3, Script::RestartThenStop, Look::SixTwice)];

/// Two workers meet, and their fleet reports what one machine holds.
const MEETING: &[Fleet] = &[(2, 8, 100, Script::Meeting, Look::Held)];

/// A worker that waits takes what the other one published meanwhile, and goes on from there.
const AHEAD: &[Fleet] = &[(2, 8, 1, Script::Ahead, Look::FourOfSecond)];

/// Worker 1 of two publishes two firings of the sum from 3 in its first round: no others are in its share. Both
/// are stopped then, so worker 2 has published nothing that worker 1 could take.
const ALONE: &[Fleet] = &[(2, 1, 100, Script::Stop, Look::TwoOfFirst)];

/// The fleets of a list. A proof that calls this knows none of them, and so is short.
fn listed(list: &'static [Fleet]) -> Trial<'static> {
    Trial::Fleets(list)
}

#[test]
fn fleets_report_what_one_machine_holds(rt: HostRuntime) {
    assert!(rt; passes_with(&rt, rt.alloc(), SUM, 3, listed(PLANS)));
}

#[test]
fn a_worker_fires_in_its_rounds(rt: HostRuntime) {
    assert!(rt; passes_with(&rt, rt.alloc(), SUM, 3, listed(STOPPED_AFTER_ALL)));
}

#[test]
fn a_worker_starts_again_from_what_it_saved(rt: HostRuntime) {
    assert!(rt; passes_with(&rt, rt.alloc(), SUM, 3, listed(STARTED_AGAIN)));
}

#[test]
fn both_workers_are_at_the_gate_at_once(rt: HostRuntime) {
    assert!(rt; passes_with(&rt, rt.alloc(), SUM, 3, listed(MEETING)));
}

#[test]
fn a_worker_takes_what_the_other_one_published(rt: HostRuntime) {
    assert!(rt; passes_with(&rt, rt.alloc(), SUM, 3, listed(AHEAD)));
}

#[test]
fn worker_1_fires_its_share_alone(rt: HostRuntime) {
    assert!(rt; passes_with(&rt, rt.alloc(), SUM, 3, listed(ALONE)));
}
