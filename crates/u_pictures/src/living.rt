//! What happens in a world, told event by event.
//!
//! A row says in what the worlds before and after the event differ, not what it was meant to do. The world
//! lends no messages, so `live` notes each one that is sent. A restart says how many firings the replica
//! has and had, since before and after may be no part of one another.
ghost use Rattle.std.specs.Prelude.{◌≡◌, [], ◌∷◌, ◌++◌, ℕ, length, MatchResult, IfOk, IfSome, List, slice_get};
ghost use Rattle.std.specs.Option.{option_copied};
ghost use Rattle.u_world.specs.WorldState.{Has};
ghost use Rattle.u_pictures.specs.Living.{taken_in, log_in, came, fires, IsKnown, IsDoer, IsDeed};
ghost use Rattle.u_pictures.specs.Living.{Goes, sent_by, Agree, Lives, RefusedOne, LiveRefused, error_in};
ghost use Rattle.u_pictures.specs.declared.living.Sent.{Sent};

use crate::happening::{Deed, Happening, Spot};
use std::alloc::{AllocError, Global};
use std::slice::from_ref;
use u_rule::Firing;
use u_world::{Event, World, WorldError};

/// A message that was sent.
#[derive(Clone, Copy)]
pub struct Sent {
    /// Whether it is an ask. Else it brings firings.
    pub is_ask: bool,
    /// Where it was sent.
    pub from: Spot,
    /// The number of the replica that it is for.
    pub to: u8,
}

/// How many firings a replica has.
#[derive(Clone, Copy)]
struct Stock {
    /// How many it applied.
    applied: usize,
    /// How many it took.
    taken: usize,
}

/// How many firings the replica has, if there is one with that number; `None` where they can't be counted.
fn stock_of(world: &World<'_>, replica: u8) -> Option<Stock>
    ensures { IfSome result (λ s. Has world.now replica
        → (s.applied ≡ length (log_in world.now replica))
        × (s.taken ≡ taken_in world.now replica)) }
{
    if replica == 0 || usize::from(replica) > world.count() {
        return Some(Stock {
            applied: 0,
            taken: 0,
        });
    }
    let machine = world.replica(replica).machine();
    let applied = machine.applied().len();
    let taken = applied.checked_add(machine.parked().len())?;
    Some(Stock { applied, taken })
}

/// The firing at that place of the replica's log, if there is one.
fn logged<'b>(world: &'b World<'_>, replica: u8, place: usize) -> Option<&'b Firing>
    ensures { Has world.now replica
        → option_copied result ≡ slice_get (log_in world.now replica) place }
{
    if replica == 0 || usize::from(replica) > world.count() {
        return None;
    }
    world.replica(replica).machine().applied().get(place)
}

/// The number of the replica that does what the event says, where the message that it delivers is known.
fn doer(event: &Event, sent: &[Sent]) -> u8
    ensures { IsKnown sent.now event.now → IsDoer sent.now event.now result }
{
    match event {
        Event::Deliver { message } => match sent.get(*message) {
            Some(one) => one.to,
            None => 0,
        },
        Event::Ask { asker, .. } => *asker,
        Event::Fire { replica, .. }
        | Event::Take { replica, .. }
        | Event::Merge { replica, .. }
        | Event::Save { replica }
        | Event::Restart { replica, .. }
        | Event::Bytes { replica, .. } => *replica,
    }
}

/// What a replica did that was to fire, by the first firing that its log has more.
fn fires(first: Option<&Firing>) -> Result<Deed, AllocError>
    ensures { IfOk result (λ d. d ≡ fires (option_copied first.entry)) }
{
    match first {
        Some(firing) => Ok(Deed::Fires(firing.activity.copy()?)),
        None => Ok(Deed::Idles),
    }
}

/// What a replica did with a message that brought so many new firings.
fn came(one: Sent, fresh: usize) -> Deed
    ensures { result ≡ came one fresh }
{
    if one.is_ask {
        Deed::Answers(one.from)
    } else {
        Deed::Takes(Some(one.from), fresh)
    }
}

/// What the event was, where its replica took so many firings before and afterwards, and its log has this
/// one more at first.
fn deed(
    event: &Event,
    sent: &[Sent],
    had: usize,
    has: usize,
    first: Option<&Firing>,
) -> Result<Deed, AllocError>
    ensures { IsKnown sent.now event.now
        → IfOk result (λ d. IsDeed sent.now event.now had has (option_copied first.entry) d) }
{
    let fresh = has.saturating_sub(had);
    match event {
        Event::Fire { .. } => fires(first),
        Event::Take { .. } | Event::Bytes { .. } => Ok(Deed::Takes(None, fresh)),
        Event::Ask { asked, .. } => Ok(Deed::Asks(*asked)),
        Event::Deliver { message } => match sent.get(*message) {
            Some(one) => Ok(came(*one, fresh)),
            None => Ok(Deed::Idles),
        },
        Event::Merge { other, .. } => Ok(Deed::Merges(*other, fresh)),
        Event::Save { .. } => Ok(Deed::Saves),
        Event::Restart { .. } => Ok(Deed::Restarts(had, has)),
    }
}

/// Lets the event happen. Returns what it did.
fn happen(world: &mut World<'_>, event: &Event, sent: &[Sent]) -> Result<Happening, WorldError>
    requires { Agree sent.now world.old.messages }
    ensures { MatchResult result
        (λ h. (row : ℕ) → Goes row sent.now world.old event.now h world.new)
        (λ e. RefusedOne world.old event.now e world.new) }
{
    world.holds();
    let replica = doer(event, sent);
    let Some(before) = stock_of(world, replica) else {
        return Err(WorldError::NoMemory(0));
    };
    world.run(from_ref(event))?;
    let Some(after) = stock_of(world, replica) else {
        return Err(WorldError::NoMemory(0));
    };
    let first = logged(world, replica, before.applied);
    match deed(event, sent, before.taken, after.taken, first) {
        Ok(deed) => Ok(Happening { replica, deed }),
        Err(_) => Err(WorldError::NoMemory(0)),
    }
}

/// Adds what the event in that row sends to the messages.
fn send(row: usize, event: &Event, sent: &mut Vec<Sent>) -> Result<(), AllocError>
    ensures { IfOk result (λ u. sent.new.items ≡ sent_by row event.now sent.old.items) }
{
    match event {
        Event::Ask { asker, asked } => sent.push(Sent {
            is_ask: true,
            from: Spot {
                row,
                replica: *asker,
            },
            to: *asked,
        })?,
        Event::Deliver { message } => match sent.get(*message).copied() {
            Some(one) if one.is_ask => sent.push(Sent {
                is_ask: false,
                from: Spot {
                    row,
                    replica: one.to,
                },
                to: one.from.replica,
            })?,
            _ => {}
        },
        _ => {}
    }
    Ok(())
}

/// The same error of the event at that place of a list.
fn error_in(error: WorldError, place: usize) -> WorldError
    ensures { result ≡ error_in error place }
{
    match error {
        WorldError::BadEvent(_) => WorldError::BadEvent(place),
        WorldError::Full(_) => WorldError::Full(place),
        WorldError::NoMemory(_) => WorldError::NoMemory(place),
    }
}

/// Keeps what happened in the event in that row, and what it sent.
fn keep(
    row: usize,
    event: &Event,
    happening: Happening,
    happenings: &mut Vec<Happening>,
    sent: &mut Vec<Sent>,
) -> Result<(), AllocError>
    ensures happenings { IfOk result
        (λ u. happenings.new.items ≡ happenings.old.items ++ (happening ∷ [])) }
    ensures sent { IfOk result (λ u. sent.new.items ≡ sent_by row event.now sent.old.items) }
{
    send(row, event, sent)?;
    happenings.push(happening)?;
    Ok(())
}

/// Lets the events happen, one after another, in a world in which nothing was sent before. Returns what
/// each of them did, in their order.
///
/// Promise events-lived-through: what is returned of each event is what the world before it and the world
/// after it differ in.
///
/// # Errors
/// As `World::run`, with the place of the event; and `NoMemory` also where what happened can't be kept.
pub fn live(
    alloc: Global,
    world: &mut World<'_>,
    events: &[Event],
) -> Result<Vec<Happening>, WorldError>
    requires { world.old.messages ≡ [] }
    ensures { MatchResult result
        (λ hs. (later : List Sent) × Lives 1 [] world.old events.now hs.items later world.new)
        (λ e. LiveRefused world.old events.now e world.new) }
{
    let mut sent = Vec::new(alloc);
    let mut happenings = Vec::new(alloc);
    for (place, event) in events.iter().enumerate() {
        let happening = match happen(world, event, &sent) {
            Ok(happening) => happening,
            Err(error) => return Err(error_in(error, place)),
        };
        match keep(place + 1, event, happening, &mut happenings, &mut sent) {
            Ok(()) => {}
            Err(_) => return Err(WorldError::NoMemory(place)),
        }
    }
    Ok(happenings)
}
