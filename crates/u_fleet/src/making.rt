//! Workers are made, each with an outlet, a seat and an inlet of each other outlet.
ghost use Rattle.std.specs.Prelude.{◌≡◌, ◌≤◌, ◌<◌, ◌+◌, ◌∷◌, [], All, IfOk, OnOk, map, length, vec_len, vec_capacity};
ghost use Rattle.u_name.specs.Context.{IsBetween};
ghost use Rattle.u_claims.specs.Seats.{IsSeatOf};
ghost use Rattle.u_fleet.specs.Fleets.{self_of, seat_of, IsSilent, IsNew, AreCounted, IsLinked};

use crate::closing::close_unused;
use crate::plan::{End, FleetFault};
use crate::worker::{Pair, Worker};
use std::alloc::Global;
use std::sync::Wait;
use u_claims::{Board, BoardError, ClaimSeat};
use u_outlet::{Inlet, Named, Outlet};

/// A board with so many seats.
fn board_for(alloc: Global, workers: u8) -> Result<(Board, Vec<ClaimSeat>), FleetFault>
    requires { IsBetween 1 workers 8 }
    ensures len { IfOk result (λ r. vec_len r.1 ≡ workers) }
    ensures seats { IfOk result (λ r. All (IsSeatOf r.0) r.1.items) }
{
    match Board::new(alloc, workers) {
        Ok(made) => Ok(made),
        Err(BoardError::NoSeat) => Err(FleetFault::NoReader),
        Err(BoardError::NoMemory) => Err(FleetFault::NoMemory),
    }
}

/// A worker of the number with its outlet, which nobody reads so far. The outlet has places for so many
/// readers.
fn open_pair<J: Named>(
    alloc: Global,
    number: u8,
    seat: ClaimSeat,
    readers: usize,
) -> Result<Pair<J>, FleetFault>
    requires number { IsBetween 1 number 8 }
    requires readers { IsBetween 1 readers 8 }
    ensures seat { IfOk result (λ p. p.1.seat ≡ seat) }
    ensures number { IfOk result (λ p. p.1.number ≡ number) }
    ensures silent { IfOk result IsSilent }
{
    match Outlet::new(alloc, readers) {
        Ok(outlet) => Ok((
            outlet,
            Worker {
                number,
                seat,
                inlets: Vec::new(alloc),
                places: Vec::new(alloc),
                end: End::NoMemory,
            },
        )),
        Err(_) => Err(FleetFault::NoMemory),
    }
}

/// A worker with its outlet for each seat, in their order, into an empty list that has room for them.
fn open_all<J: Named>(
    alloc: Global,
    seats: Vec<ClaimSeat>,
    pairs: &mut Vec<Pair<J>>,
) -> Result<(), FleetFault>
    requires seats { IsBetween 1 (vec_len seats) 8 }
    requires empty { pairs.old.items ≡ [] }
    requires room { vec_len seats ≤ vec_capacity pairs.old }
    ensures len { OnOk result (vec_len pairs.new ≡ vec_len seats) }
    ensures seats { OnOk result (map seat_of pairs.new.items ≡ seats.items) }
    ensures silent { All IsSilent pairs.new.items }
    ensures counted { AreCounted pairs.new.items }
{
    let readers = seats.len().saturating_sub(1).max(1);
    for seat in seats {
        let number = pairs.len() as u8 + 1;
        pairs.push_reserved(open_pair(alloc, number, seat, readers)?);
    }
    Ok(())
}

/// Appends an inlet of each of the outlets.
fn add_inlets<J: Named>(pairs: &[Pair<J>], inlets: &mut Vec<Inlet<J>>) -> Result<(), FleetFault>
    ensures { OnOk result (vec_len inlets.new ≡ vec_len inlets.old + length pairs.now) }
{
    for pair in pairs {
        let inlet = pair.0.inlet().ok_or(FleetFault::NoReader)?;
        inlets.push(inlet).map_err(|_| FleetFault::NoMemory)?;
    }
    Ok(())
}

/// An inlet of each outlet but the one at the place `own`, in their order.
fn inlets_of<J: Named>(
    alloc: Global,
    pairs: &[Pair<J>],
    own: usize,
) -> Result<Vec<Inlet<J>>, FleetFault>
    requires { own < length pairs.now }
    ensures { IfOk result (λ inlets. vec_len inlets + 1 ≡ length pairs.now) }
{
    let mut inlets = Vec::new(alloc);
    add_inlets(&pairs[..own], &mut inlets)?;
    add_inlets(&pairs[own + 1..], &mut inlets)?;
    Ok(inlets)
}

/// So many places, each at the front of a list.
fn front_places(alloc: Global, count: usize) -> Result<Vec<usize>, FleetFault>
    ensures { IfOk result (λ places. vec_len places ≡ count) }
{
    let mut places = Vec::new(alloc);
    match places.resize(count, 0) {
        Ok(()) => Ok(places),
        Err(_) => Err(FleetFault::NoMemory),
    }
}

/// Gives each worker an inlet of each other outlet, of which it pulls from the front on.
fn link_all<J: Named>(alloc: Global, pairs: &mut [Pair<J>]) -> Result<(), FleetFault>
    ensures kept { map self_of pairs.new ≡ map self_of pairs.old }
    ensures linked { OnOk result (All (IsLinked (length pairs.old)) pairs.new) }
{
    for own in 0..pairs.len() {
        let inlets = inlets_of(alloc, pairs, own)?;
        let places = front_places(alloc, inlets.len())?;
        let pair = &mut pairs[own];
        pair.1.inlets = inlets;
        pair.1.places = places;
    }
    Ok(())
}

/// Opens the outlets, and gives each worker its inlets.
fn open_and_link<J: Named>(
    alloc: Global,
    seats: Vec<ClaimSeat>,
    pairs: &mut Vec<Pair<J>>,
) -> Result<(), FleetFault>
    requires seats { IsBetween 1 (vec_len seats) 8 }
    requires empty { pairs.old.items ≡ [] }
    requires room { vec_len seats ≤ vec_capacity pairs.old }
    ensures seats { OnOk result (map seat_of pairs.new.items ≡ seats.items) }
    ensures silent { OnOk result (All IsSilent pairs.new.items) }
    ensures counted { OnOk result (AreCounted pairs.new.items) }
    ensures linked { OnOk result (All (IsLinked (vec_len seats)) pairs.new.items) }
{
    open_all(alloc, seats, pairs)?;
    link_all(alloc, pairs.as_mut_slice())
}

/// The workers of the seats, with their outlets and the inlets of each other's.
fn make_pairs<J: Named, R: Wait>(
    rt: &R,
    alloc: Global,
    seats: Vec<ClaimSeat>,
) -> Result<Vec<Pair<J>>, FleetFault>
    requires { IsBetween 1 (vec_len seats) 8 }
    ensures seats { IfOk result (λ pairs. map seat_of pairs.items ≡ seats.items) }
    ensures silent { IfOk result (λ pairs. All IsSilent pairs.items) }
    ensures counted { IfOk result (λ pairs. AreCounted pairs.items) }
    ensures linked { IfOk result (λ pairs. All (IsLinked (vec_len seats)) pairs.items) }
{
    let Ok(mut pairs) = Vec::with_capacity(alloc, seats.len()) else {
        return Err(FleetFault::NoMemory);
    };
    match open_and_link(alloc, seats, &mut pairs) {
        Ok(()) => Ok(pairs),
        Err(fault) => {
            close_unused(rt, pairs);
            Err(fault)
        }
    }
}

/// So many workers, 1 to 8, with the numbers 1, 2, and so on, and the board of their seats. Each has an
/// outlet that shows nothing, and an inlet of each other one's outlet.
///
/// # Errors
/// `NoReader` where an outlet has no place for an inlet or the board no seat, `NoMemory` where there is
/// no memory. No outlet is left open.
pub fn make<J: Named, R: Wait>(
    rt: &R,
    alloc: Global,
    workers: u8,
) -> Result<(Board, Vec<Pair<J>>), FleetFault>
    requires { IsBetween 1 workers 8 }
    ensures len { IfOk result (λ made. vec_len made.1 ≡ workers) }
    ensures new { IfOk result (λ made. All (IsNew made.0) made.1.items) }
    ensures counted { IfOk result (λ made. AreCounted made.1.items) }
    ensures linked { IfOk result (λ made. All (IsLinked workers) made.1.items) }
{
    let (board, seats) = board_for(alloc, workers)?;
    let pairs = make_pairs(rt, alloc, seats)?;
    Ok((board, pairs))
}
