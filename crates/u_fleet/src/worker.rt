//! A worker, its replica, and what all workers of a fleet share.
ghost use Rattle.u_name.specs.Context.{IsBetween};

use crate::gate::Gate;
use crate::plan::{End, FleetPlan};
use std::alloc::Global;
use u_check::Job;
use u_claims::{Board, ClaimSeat};
use u_outlet::{Inlet, Named, Outlet};
use u_replica::Replica;

/// What a worker owns beside its outlet: an inlet of each other worker's outlet, and for each of them
/// the place up to which it has pulled.
#[derive(Drop)]
pub struct Worker<J: Named> {
    pub number: u8,
    pub seat: ClaimSeat,
    pub inlets: Vec<Inlet<J>>,
    pub places: Vec<usize>,
    pub end: End,
    ghost numbered: { IsBetween 1 number 8 },
}

/// A worker with its outlet, which is not `Drop`.
pub type Pair<J> = (Outlet<J>, Worker<J>);

/// What all workers of a fleet share.
#[derive(Drop)]
pub struct Setting<'a, G: Gate> {
    pub alloc: Global,
    pub job: &'a Job,
    pub plan: FleetPlan,
    pub board: &'a Board,
    pub gate: &'a G,
}

/// What a worker saved last: so many firings at the front of its log, with nothing parked, or the text
/// of a checkpoint.
#[derive(Drop)]
pub enum Saved {
    Front(usize),
    Text(Vec<u8>),
}

/// One life of a worker: its replica, how many firings of the log are published, and what was saved.
#[derive(Drop)]
pub struct Life<'a> {
    pub replica: Replica<'a>,
    pub sent: usize,
    pub saved: Saved,
}
