//! The command `world` with its option `--draw`: the picture of the events.
ghost use Rattle.std.specs.Prelude.{◌≡◌, [], MatchResult, List};
ghost use Rattle.u_name.specs.Context.{IsBetween};
ghost use Rattle.u_pictures.specs.Living.{Lives};
ghost use Rattle.u_pictures.specs.declared.living.Sent.{Sent};
ghost use Rattle.u_cli.specs.Worlds.{EventsStop, DrawsWorld, WorldNotDrawn};

use crate::worlds::{WorldPlan, events_of, told_of};
use std::alloc::Global;
use u_check::Job;
use u_commands::{CommandError, Told, Watch};
use u_pictures::{Happening, live, write_world};
use u_world::{Event, World, WorldError};

/// Lets the events happen, and says what each of them did.
#[tactic(auto, using(std::proofs::lemmas::Option::slice_get_within))]
fn lived(
    alloc: Global,
    world: &mut World<'_>,
    events: &[Event],
) -> Result<Vec<Happening>, CommandError>
    requires { world.old.messages ≡ [] }
    ensures { MatchResult result
        (λ hs. (sent : List Sent) × Lives 1 [] world.old events.now hs.items sent world.new)
        (λ fault. EventsStop world.old events.now fault) }
{
    match live(alloc, world, events) {
        Ok(happenings) => Ok(happenings),
        Err(WorldError::Full(_)) => Err(CommandError::Full),
        Err(WorldError::NoMemory(_)) => Err(CommandError::NoMemory),
        Err(WorldError::BadEvent(place)) => Err(CommandError::ScriptLineImpossible(place + 1)),
    }
}

/// The space-time picture of the events of the plan in a world of replicas of the job, as a text of DOT, the language
/// of Graphviz. The exit status is that of `world`.
///
/// Promise picture-of-a-world: the picture is of the events of which `world` tells.
///
/// # Errors
/// As `world`.
pub fn draw_world<V: Watch>(
    alloc: Global,
    job: &Job,
    plan: WorldPlan<'_>,
    watch: &mut V,
) -> Result<Told, CommandError>
    requires { IsBetween 1 plan.replicas 8 }
    ensures { MatchResult result (λ t. DrawsWorld job.now plan.entry t.text.items t.status)
        (λ fault. WorldNotDrawn job.now plan.entry fault) }
{
    let events = match events_of(alloc, plan) {
        Ok(events) => events,
        Err(fault) => return Err(fault),
    };
    let mut world = World::new(alloc, job, plan.replicas, plan.firings)?;
    let happenings = match lived(alloc, &mut world, &events) {
        Ok(happenings) => happenings,
        Err(fault) => return Err(fault),
    };
    let text = write_world(alloc, plan.replicas, &happenings)?;
    match told_of(alloc, world, plan.firings, watch) {
        Ok(told) => Ok(Told {
            text,
            status: told.status,
        }),
        Err(fault) => Err(fault),
    }
}
