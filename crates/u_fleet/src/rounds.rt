//! What a worker does in its thread: round after round, and a last run.
ghost use Rattle.std.specs.Prelude.{◌≡◌, ◌<◌, [], IfOk, IfErr, OnOk, length};
ghost use Rattle.u_name.specs.Context.{IsBetween};
ghost use Rattle.u_claims.specs.Seats.{IsSeatOf};
ghost use Rattle.u_outlet.specs.Ends.{published, pending};
ghost use Rattle.u_fleet.specs.Gains.{Gains};
ghost use Rattle.u_fleet.specs.Headline.{HasEnded};
ghost use Rattle.u_fleet.specs.Workers.{Lives, MayFail, LastAnswer, LastEnd, IsWorkerOf};

use crate::answer::{GatherFault, WorkFault};
use crate::gate::{Gate, Turn};
use crate::gathering::gather;
use crate::plan::End;
use crate::restarting::{restart, save, start_over};
use crate::sending::send;
use crate::shares::share_of;
use crate::worker::{Life, Pair, Saved, Setting, Worker};
use crate::working::work;
use std::alloc::AllocError;
use std::sync::Wait;
use u_machine::{Ran, Refusal};
use u_outlet::{Named, Outlet};
use u_replica::Replica;

/// Takes what each other worker's outlet shows. A closed outlet shows nothing.
fn gather_all<J: Named>(worker: &mut Worker<J>, replica: &mut Replica<'_>) -> Result<(), End>
    requires { replica.old.machine.job ≡ J.job }
    ensures gains { Gains replica.old.machine replica.new.machine }
    ensures fails { IfErr result (MayFail replica.old.machine) }
    ensures number { worker.new.number ≡ worker.old.number }
    ensures seat { worker.new.seat ≡ worker.old.seat }
{
    for (inlet, place) in worker.inlets.iter_mut().zip(worker.places.iter_mut()) {
        match gather(replica, inlet, *place) {
            Ok(reached) => *place = reached,
            Err(GatherFault::NoReading) => {}
            Err(GatherFault::Full) => return Err(End::Full),
            Err(GatherFault::NoMemory) => return Err(End::NoMemory),
        }
    }
    Ok(())
}

/// Applies firings of the worker's share of the round.
fn fire_share<J: Named, G: Gate>(
    setting: &Setting<'_, G>,
    worker: &mut Worker<J>,
    replica: &mut Replica<'_>,
    round: u32,
) -> Result<(), End>
    requires board { IsSeatOf setting.now.board.now worker.old.seat }
    requires worker { IsWorkerOf setting.now.plan worker.old.number }
    ensures gains { Gains replica.old.machine replica.new.machine }
    ensures fails { IfErr result (MayFail replica.old.machine) }
    ensures number { worker.new.number ≡ worker.old.number }
    ensures board { IsSeatOf setting.now.board.now worker.new.seat }
{
    let share = share_of(worker.number, setting.plan.workers, round);
    let budget = setting.plan.budget;
    match work(replica, setting.board, &mut worker.seat, share, budget) {
        Ok(_) => Ok(()),
        Err(WorkFault::Full) => Err(End::Full),
        Err(WorkFault::NoMemory) => Err(End::NoMemory),
    }
}

/// Publishes what is new in the log.
fn publish_new<J: Named, R: Wait>(
    rt: &R,
    outlet: &mut Outlet<J>,
    life: &mut Life<'_>,
) -> Result<(), End>
    requires lives { Lives J.job life.old (published outlet.old) }
    requires none { pending outlet.old ≡ [] }
    ensures lives { Lives J.job life.new (published outlet.new) }
    ensures none { OnOk result (pending outlet.new ≡ []) }
    ensures replica { life.new.replica ≡ life.old.replica }
    ensures all { OnOk result (life.new.sent ≡ length life.new.replica.machine.log) }
    ensures fails { IfErr result (MayFail life.old.replica.machine) }
{
    match send(rt, &life.replica, outlet, life.sent) {
        Ok(length) => {
            life.sent = length;
            Ok(())
        }
        Err(_) => Err(End::NoMemory),
    }
}

/// The last run of a worker's machine: the least ready firing is applied again and again.
fn run_last(replica: &mut Replica<'_>, budget: usize) -> Result<Ran, End>
    ensures gains { Gains replica.old.machine replica.new.machine }
    ensures ran { IfOk result (LastAnswer budget replica.new.machine) }
    ensures fails { IfErr result (MayFail replica.old.machine) }
{
    replica.holds();
    let ran = replica.run(budget);
    replica.holds();
    match ran {
        Ok(ran) => Ok(ran),
        Err(Refusal::Full) => Err(End::Full),
        Err(Refusal::NoMemory) => Err(End::NoMemory),
    }
}

/// One round: what the others show is taken, firings of the worker's share are applied, and what is new
/// in the log is published.
fn one_round<J: Named, G: Gate, R: Wait>(
    rt: &R,
    setting: &Setting<'_, G>,
    pair: &mut Pair<J>,
    life: &mut Life<'_>,
    round: u32,
) -> Result<(), End>
    requires board { IsSeatOf setting.now.board.now pair.old.1.seat }
    requires worker { IsWorkerOf setting.now.plan pair.old.1.number }
    requires lives { Lives J.job life.old (published pair.old.0) }
    requires none { pending pair.old.0 ≡ [] }
    ensures board { IsSeatOf setting.now.board.now pair.new.1.seat }
    ensures lives { Lives J.job life.new (published pair.new.0) }
    ensures none { OnOk result (pending pair.new.0 ≡ []) }
    ensures number { pair.new.1.number ≡ pair.old.1.number }
    ensures limit { life.new.replica.machine.limit ≡ life.old.replica.machine.limit }
    ensures fails { IfErr result (MayFail life.old.replica.machine) }
{
    let (outlet, worker) = pair;
    gather_all(worker, &mut life.replica)?;
    fire_share(setting, worker, &mut life.replica, round)?;
    publish_new(rt, outlet, life)
}

/// The last run, after which what is new in the log is published.
fn last_round<J: Named, G: Gate, R: Wait>(
    rt: &R,
    setting: &Setting<'_, G>,
    outlet: &mut Outlet<J>,
    life: &mut Life<'_>,
) -> Result<End, End>
    requires lives { Lives J.job life.old (published outlet.old) }
    requires none { pending outlet.old ≡ [] }
    ensures lives { Lives J.job life.new (published outlet.new) }
    ensures ended { IfOk result
        (LastEnd J.job setting.now.plan.limit life.new.replica.machine (published outlet.new)) }
    ensures limit { life.new.replica.machine.limit ≡ life.old.replica.machine.limit }
    ensures fails { IfErr result (MayFail life.old.replica.machine) }
{
    let ran = run_last(&mut life.replica, setting.plan.limit)?;
    life.replica.holds();
    publish_new(rt, outlet, life)?;
    match ran {
        Ran::Quiet => Ok(End::Done),
        Ran::Paused => Ok(End::Full),
    }
}

/// One round, and what the gate says after it: the worker saves its replica, or ends, or starts again.
/// An error is the worker's end.
fn one_turn<'a, J: Named, G: Gate, R: Wait>(
    rt: &R,
    setting: &Setting<'a, G>,
    pair: &mut Pair<J>,
    life: &mut Life<'a>,
    round: u32,
) -> Result<(), End>
    requires job { setting.now.job.now ≡ J.job }
    requires board { IsSeatOf setting.now.board.now pair.old.1.seat }
    requires worker { IsWorkerOf setting.now.plan pair.old.1.number }
    requires lives { Lives J.job life.old (published pair.old.0) }
    requires limit { life.old.replica.machine.limit ≡ setting.now.plan.limit }
    requires none { pending pair.old.0 ≡ [] }
    requires round { round < setting.now.plan.rounds }
    ensures board { IsSeatOf setting.now.board.now pair.new.1.seat }
    ensures lives { Lives J.job life.new (published pair.new.0) }
    ensures limit { life.new.replica.machine.limit ≡ setting.now.plan.limit }
    ensures none { OnOk result (pending pair.new.0 ≡ []) }
    ensures number { pair.new.1.number ≡ pair.old.1.number }
    ensures ended { IfErr result (HasEnded G.may J.job setting.now.plan.limit
        setting.now.plan.rounds pair.old.1.number (published pair.new.0)) }
{
    let went = one_round(rt, setting, pair, life, round);
    life.replica.holds();
    if let Err(end) = went {
        return Err(end);
    }
    match setting.gate.pass(pair.1.number, round) {
        Turn::Go => save(life),
        Turn::Stop => Err(End::Stopped),
        Turn::Restart => {
            start_over(&mut pair.1);
            restart::<J, G>(setting, life, pair.1.number)
        }
    }
}

/// All rounds of a worker, and its last run. The worker's end is returned.
fn all_rounds<'a, J: Named, G: Gate, R: Wait>(
    rt: &R,
    setting: &Setting<'a, G>,
    pair: &mut Pair<J>,
    life: &mut Life<'a>,
) -> End
    requires job { setting.now.job.now ≡ J.job }
    requires board { IsSeatOf setting.now.board.now pair.old.1.seat }
    requires worker { IsWorkerOf setting.now.plan pair.old.1.number }
    requires lives { Lives J.job life.old (published pair.old.0) }
    requires limit { life.old.replica.machine.limit ≡ setting.now.plan.limit }
    requires none { pending pair.old.0 ≡ [] }
    ensures worked { HasEnded G.may J.job setting.now.plan.limit setting.now.plan.rounds
        pair.old.1.number (published pair.new.0) result }
    ensures number { pair.new.1.number ≡ pair.old.1.number }
{
    for round in 0..setting.plan.rounds {
        if let Err(end) = one_turn(rt, setting, pair, life, round) {
            return end;
        }
    }
    let last = last_round(rt, setting, &mut pair.0, life);
    life.replica.holds();
    match last {
        Ok(end) => end,
        Err(end) => end,
    }
}

/// The first life of a worker.
fn first_life<'a, G: Gate>(setting: &Setting<'a, G>, number: u8) -> Result<Life<'a>, AllocError>
    requires { IsBetween 1 number 8 }
    ensures lives { IfOk result (λ life. Lives setting.now.job.now life []) }
    ensures limit { IfOk result (λ life. life.replica.machine.limit ≡ setting.now.plan.limit) }
{
    let replica = Replica::new(setting.alloc, setting.job, setting.plan.limit, number)?;
    Ok(Life {
        replica,
        sent: 0,
        saved: Saved::Front(0),
    })
}

/// All that one thread does: a replica is made, and has its rounds.
pub fn run_worker<J: Named, G: Gate, R: Wait>(rt: &R, setting: &Setting<'_, G>, pair: &mut Pair<J>)
    requires job { setting.now.job.now ≡ J.job }
    requires board { IsSeatOf setting.now.board.now pair.old.1.seat }
    requires worker { IsWorkerOf setting.now.plan pair.old.1.number }
    requires new { (published pair.old.0 ≡ []) × (pending pair.old.0 ≡ []) }
    ensures worked { HasEnded G.may J.job setting.now.plan.limit setting.now.plan.rounds
        pair.old.1.number (published pair.new.0) pair.new.1.end }
    ensures number { pair.new.1.number ≡ pair.old.1.number }
{
    let Ok(mut life) = first_life(setting, pair.1.number) else {
        pair.1.end = End::NoMemory;
        return;
    };
    let end = all_rounds(rt, setting, pair, &mut life);
    drop(life);
    pair.1.end = end;
}
