//! The tests of replicas, worlds, fleets and members of a bus: what the cases of tests/cases can't show.
//! Worlds stand beside a plain world on random lists of events; fleets have gates that say turns, and at
//! which workers wait; members have readers and writers of the tests.
#![tactic(auto)]

#[cfg(test)]
mod bytes_tests;
#[cfg(test)]
mod cases;
#[cfg(test)]
mod exchange_tests;
#[cfg(test)]
mod fleet_tests;
#[cfg(test)]
mod fleets;
#[cfg(test)]
mod gates;
#[cfg(test)]
mod gather_tests;
#[cfg(test)]
mod lists;
#[cfg(test)]
mod logs;
#[cfg(test)]
mod looks;
#[cfg(test)]
mod mark_tests;
#[cfg(test)]
mod member_tests;
#[cfg(test)]
mod outlets;
#[cfg(test)]
mod pull_tests;
#[cfg(test)]
mod streams;
#[cfg(test)]
mod work_tests;
