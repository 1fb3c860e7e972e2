//! What a worker saves, and how it starts again.
//!
//! A worker saves lazily: if nothing is parked it notes how long its log is, since the log only grows, and
//! else it writes a checkpoint. One that was restarted keeps its last save as text, since no clause of
//! `restore` says in which order its next log has these firings.
ghost use Rattle.std.specs.Prelude.{◌≡◌, ◌≤◌, ◌++◌, [], IfOk, OnOk, IfErr};
ghost use Rattle.u_name.specs.Context.{IsBetween};
ghost use Rattle.u_rule.specs.declared.firing.Firing.{Firing};
ghost use Rattle.u_outlet.specs.Ends.{published};
ghost use Rattle.u_replica.specs.CheckpointText.{checkpoint_text};
ghost use Rattle.u_replica.specs.Checkpoints.{AreFirings};
ghost use Rattle.u_fleet.specs.Workers.{IsLife, LivesOn, MayFail, IsSoundText};

use crate::gate::Gate;
use crate::plan::End;
use crate::worker::{Life, Saved, Setting, Worker};
use core::mem::replace;
use std::alloc::{AllocError, Global};
use u_machine::Parked;
use u_outlet::Named;
use u_program::Version;
use u_replica::{Replica, RestoreError, write_checkpoint};
use u_rule::Firing;
use u_sets::OrderedSet;

/// Saves the life's replica: it notes how long the log is, where nothing is parked, and else writes a
/// checkpoint. So a log is written where a worker starts again, and not in each round.
pub fn save(life: &mut Life<'_>) -> Result<(), End>
    ensures lives { LivesOn life.old life.new }
    ensures replica { life.new.replica ≡ life.old.replica }
    ensures fails { IfErr result (MayFail life.old.replica.machine) }
{
    life.replica.holds();
    let machine = life.replica.machine();
    if machine.parked().len() == 0 {
        life.saved = Saved::Front(machine.applied().len());
        return Ok(());
    }
    match life.replica.save() {
        Ok(bytes) => {
            life.saved = Saved::Text(bytes);
            Ok(())
        }
        Err(_) => Err(End::NoMemory),
    }
}

/// The checkpoint of the firings, with nothing parked, for a job whose program has the version.
fn front_text(alloc: Global, version: Version, firings: &[Firing]) -> Result<Vec<u8>, AllocError>
    ensures text { IfOk result (λ bytes. bytes.items ≡ checkpoint_text version firings.now) }
    ensures valid { IfOk result (λ _. AreFirings firings.now) }
{
    let mut bytes = Vec::new(alloc);
    let none = OrderedSet::new(alloc);
    write_checkpoint(version, firings, &Parked::waiting(&none), &mut bytes)?;
    Ok(bytes)
}

/// Takes out what was saved last, as the text of a checkpoint.
fn take_text<J: Named>(alloc: Global, life: &mut Life<'_>) -> Result<Vec<u8>, AllocError>
    requires { IsLife J.job life.old }
    ensures text { IfOk result (λ bytes. IsSoundText J.job bytes.items) }
    ensures lives { LivesOn life.old life.new }
    ensures replica { life.new.replica ≡ life.old.replica }
{
    match replace(&mut life.saved, Saved::Front(0)) {
        Saved::Front(count) => {
            let machine = life.replica.machine();
            let version = machine.job().program().version();
            front_text(alloc, version, &machine.applied()[..count])
        }
        Saved::Text(bytes) => Ok(bytes),
    }
}

/// Starts the life's worker again, in its next life: with a replica that is restored from what was saved
/// last, of whose log nothing is published. The contract says that the replica took sound firings alone, and
/// not which: a test shows that they are those that were saved.
pub fn restart<'a, J: Named, G: Gate>(
    setting: &Setting<'a, G>,
    life: &mut Life<'a>,
    number: u8,
) -> Result<(), End>
    requires number { IsBetween 1 number 8 }
    requires lives { IsLife J.job life.old }
    requires job { setting.now.job.now ≡ J.job }
    requires limit { life.old.replica.machine.limit ≡ setting.now.plan.limit }
    ensures lives { LivesOn life.old life.new }
    ensures limit { life.new.replica.machine.limit ≡ life.old.replica.machine.limit }
    ensures fails { IfErr result (MayFail life.old.replica.machine) }
{
    life.replica.holds();
    let Ok(text) = take_text::<J>(setting.alloc, life) else {
        return Err(End::NoMemory);
    };
    let next = life.replica.life().saturating_add(1);
    let limit = setting.plan.limit;
    match Replica::restore(
        setting.alloc,
        setting.job,
        limit,
        number,
        next,
        text.as_slice(),
    ) {
        Ok((replica, _)) => {
            let before = replace(&mut life.replica, replica);
            let saved = replace(&mut life.saved, Saved::Text(text));
            drop(before);
            drop(saved);
            life.sent = 0;
            Ok(())
        }
        Err(RestoreError::Full) => Err(End::Full),
        Err(RestoreError::NoMemory) => Err(End::NoMemory),
        Err(_) => unreachable!(),
    }
}

/// A worker that starts again pulls each list from its front.
pub fn start_over<J: Named>(worker: &mut Worker<J>)
    ensures number { worker.new.number ≡ worker.old.number }
    ensures seat { worker.new.seat ≡ worker.old.seat }
{
    for place in worker.places.iter_mut() {
        *place = 0;
    }
}
