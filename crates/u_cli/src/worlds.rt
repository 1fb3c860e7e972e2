//! The command `world`.
//!
//! Replica 1 is reported once it merged the others and fired what was left. So if its report is quiet, its
//! history is the whole one. `--firings` bounds what each replica takes.
ghost use Rattle.std.specs.Prelude.{◌≡◌, ◌≤◌, ◌-◌, ◌++◌, IfOk, MatchResult, length};
ghost use Rattle.u_name.specs.Context.{IsBetween};
ghost use Rattle.u_world.specs.Runs.{EventSteps};
ghost use Rattle.u_world.specs.Scripts.{IsScriptOf};
ghost use Rattle.u_cli.specs.Worlds.{replica_line, replica_lines, merges, AreDoable, EventsRefused};
ghost use Rattle.u_cli.specs.Worlds.{IsNoScript, AreEventsOf, LacksEvents, EventsStop, Happens, NotHappened};
ghost use Rattle.u_cli.specs.Worlds.{Gathers, TellsEnd, EndsRefused, TellsWorld, WorldRefused};

use std::alloc::{AllocError, Global};
use u_check::Job;
use u_commands::{CommandError, Told, Watch, push_numbered, run_behind};
use u_replica::Replica;
use u_world::{Event, ScriptError, World, WorldError, random_events, read_script};

/// Which events happen in a world.
#[derive(Clone, Copy)]
pub enum Events<'a> {
    /// So many random ones, which the seed stands for.
    Random { seed: u64, count: usize },
    /// Those of a script, one a line, as `read_script` of `u_world` has it.
    Script(&'a [u8]),
}

/// What happens in a world.
#[derive(Clone, Copy)]
pub struct WorldPlan<'a> {
    /// How many replicas there are, from 1 to 8.
    pub replicas: u8,
    /// The events.
    pub events: Events<'a>,
    /// How many firings a replica takes at most, and how many the first one fires in the end.
    pub firings: usize,
}

/// The events of the script.
fn script_events(alloc: Global, script: &[u8]) -> Result<Vec<Event>, CommandError>
    ensures { MatchResult result (λ events. IsScriptOf script.now events.items)
        (λ fault. IsNoScript script.now fault) }
{
    match read_script(alloc, script) {
        Ok(events) => Ok(events),
        Err(ScriptError::BadLine(line)) => Err(CommandError::ScriptLineNotAllowed(line)),
        Err(ScriptError::NoMemory) => Err(CommandError::NoMemory),
    }
}

/// The events of the plan.
pub(crate) fn events_of(alloc: Global, plan: WorldPlan<'_>) -> Result<Vec<Event>, CommandError>
    requires { IsBetween 1 plan.replicas 8 }
    ensures { MatchResult result (λ events. AreEventsOf plan.entry events.items)
        (λ fault. LacksEvents plan.entry fault) }
{
    match plan.events {
        Events::Random { seed, count } => {
            let events = random_events(alloc, seed, plan.replicas, count)?;
            Ok(events)
        }
        Events::Script(script) => script_events(alloc, script),
    }
}

/// Lets the events happen.
#[tactic(auto, using(std::proofs::lemmas::Option::slice_get_within))]
fn play(world: &mut World<'_>, events: &[Event]) -> Result<(), CommandError>
    ensures { MatchResult result (λ u. EventSteps world.old events.now world.new)
        (λ fault. EventsStop world.old events.now fault) }
{
    match world.run(events) {
        Ok(()) => Ok(()),
        Err(WorldError::Full(_)) => Err(CommandError::Full),
        Err(WorldError::NoMemory(_)) => Err(CommandError::NoMemory),
        Err(WorldError::BadEvent(place)) => Err(CommandError::ScriptLineImpossible(place + 1)),
    }
}

/// A world of the job, after the events of the plan.
fn happened<'a>(alloc: Global, job: &'a Job, plan: WorldPlan<'_>) -> Result<World<'a>, CommandError>
    requires { IsBetween 1 plan.replicas 8 }
    ensures { MatchResult result (λ w. Happens job.now plan.entry w)
        (λ fault. NotHappened job.now plan.entry fault) }
{
    let events = match events_of(alloc, plan) {
        Ok(events) => events,
        Err(fault) => return Err(fault),
    };
    let mut world = World::new(alloc, job, plan.replicas, plan.firings)?;
    match play(&mut world, &events) {
        Ok(()) => Ok(world),
        Err(fault) => Err(fault),
    }
}

/// Lets the events happen. None of them is one that cannot be done.
fn run_events(world: &mut World<'_>, events: &[Event]) -> Result<(), CommandError>
    requires { AreDoable world.old events.now }
    ensures { MatchResult result (λ u. EventSteps world.old events.now world.new)
        (λ fault. EventsRefused world.old events.now fault) }
{
    match world.run(events) {
        Ok(()) => Ok(()),
        Err(WorldError::Full(_)) => Err(CommandError::Full),
        Err(WorldError::NoMemory(_)) => Err(CommandError::NoMemory),
        Err(WorldError::BadEvent(_)) => unreachable!(),
    }
}

/// Appends the line that tells of a replica.
#[tactic(auto, unfolding(crate::specs::Worlds::replica_line), using(crate::proofs::Gathering::join5))]
fn push_replica(line: &mut Vec<u8>, number: u8, replica: &Replica<'_>) -> Result<(), AllocError>
    requires { number ≡ replica.now.number }
    ensures { IfOk result (λ u. line.new.items ≡ line.old.items ++ replica_line replica.now) }
{
    let machine = replica.machine();
    push_numbered(line, b"replica ", u64::from(number))?;
    push_numbered(line, b" firings ", machine.applied().len() as u64)?;
    push_numbered(line, b" parked ", machine.parked().len() as u64)?;
    push_numbered(line, b" entries ", machine.history().len() as u64)?;
    line.push(b'\n')?;
    Ok(())
}

/// A line for each replica, in the order of their numbers.
fn replica_lines(alloc: Global, world: &World<'_>) -> Result<Vec<u8>, AllocError>
    ensures { IfOk result (λ v. v.items ≡ replica_lines world.now.replicas) }
{
    world.holds();
    let mut lines = Vec::new(alloc);
    for place in 0..world.count() as u8 {
        push_replica(&mut lines, place + 1, world.replica(place + 1))?;
    }
    Ok(lines)
}

/// The events by which replica 1 merges the others, in the order of their numbers.
fn merges(alloc: Global, replicas: u8) -> Result<Vec<Event>, AllocError>
    requires { 1 ≤ replicas }
    ensures { IfOk result (λ events. events.items ≡ merges (replicas - 1)) }
{
    let mut events = Vec::new(alloc);
    for other in 1..replicas {
        events.push(Event::Merge {
            replica: 1,
            other: other + 1,
        })?;
    }
    Ok(events)
}

/// Replica 1, once it merged the others.
fn first_of<'a>(alloc: Global, mut world: World<'a>) -> Result<Replica<'a>, CommandError>
    ensures { MatchResult result (λ first. Gathers world.entry first)
        (λ fault. EventsRefused world.entry (merges (length world.entry.replicas - 1)) fault) }
{
    world.holds();
    let events = merges(alloc, world.count() as u8)?;
    match run_events(&mut world, &events) {
        Ok(()) => {
            world.holds();
            Ok(world.into_replica(1))
        }
        Err(fault) => Err(fault),
    }
}

/// What is told of a world in which the first replica fires so many times at most in the end, and the
/// exit status.
pub(crate) fn told_of<V: Watch>(
    alloc: Global,
    world: World<'_>,
    firings: usize,
    watch: &mut V,
) -> Result<Told, CommandError>
    ensures { MatchResult result
        (λ t. TellsEnd world.entry firings t.text.items t.status)
        (λ fault. EndsRefused world.entry firings fault) }
{
    let lines = replica_lines(alloc, &world)?;
    let first = match first_of(alloc, world) {
        Ok(first) => first,
        Err(fault) => return Err(fault),
    };
    let mut machine = first.into_machine();
    run_behind(alloc, &lines, &mut machine, firings, watch)
}

/// Lets the events of the plan happen in a world of replicas of the job, each of which takes the plan's number of
/// firings at most. Tells a line for each replica, and then the report of replica 1, after it merged the others in
/// the order of their numbers and fired that many times at most. The same seed gives the same events. The exit
/// status is that of `run`.
///
/// Promise world-command: each line has the counts of one replica after the events, and the report is that of
/// replica 1 after it merged the others and fired.
///
/// Promise scripted-world-command: of a script it tells what a world holds after exactly its events, or names the
/// first line that is no event's or whose event can't happen.
///
/// # Errors
/// `ScriptLineNotAllowed` for the first line of a script that is no event's, and then `ScriptLineImpossible` for the
/// first event that can't happen; `Full` if a replica has no room for a firing that it takes or fires; `NoMemory`.
pub fn world<V: Watch>(
    alloc: Global,
    job: &Job,
    plan: WorldPlan<'_>,
    watch: &mut V,
) -> Result<Told, CommandError>
    requires { IsBetween 1 plan.replicas 8 }
    ensures { MatchResult result (λ t. TellsWorld job.now plan.entry t.text.items t.status)
        (λ fault. WorldRefused job.now plan.entry fault) }
{
    let world = match happened(alloc, job, plan) {
        Ok(world) => world,
        Err(fault) => return Err(fault),
    };
    told_of(alloc, world, plan.firings, watch)
}
