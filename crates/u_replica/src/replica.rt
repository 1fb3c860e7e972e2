//! One replica of a run.
//!
//! Replicas run one job. Each takes firings, its own and those of its peers, in any order, so what a
//! replica holds is fixed by the set of firings that it took. A replica asks a peer for what it lacks
//! of the peer's log, and its marks say how much it has. Where a replica starts again from a
//! checkpoint it lives its next life, and what its peers' marks count of an earlier life is void.
//!
//! A delta's receiver and an ask's asked number are not looked at: whoever delivers a message sees to them.
ghost use Rattle.std.specs.Prelude.{◌≡◌, ◌≤◌, IfOk, IsOk, OnOk};
ghost use Rattle.u_name.specs.Context.{IsBetween};
ghost use Rattle.u_machine.specs.State.{IsSettled, NothingReady};
ghost use Rattle.u_machine.specs.Calls.{Applies, FireAnswer, FireInAnswer, RunAnswer, TakeAnswer, IsFresh, RunsPlainly};
ghost use Rattle.u_machine.specs.Taking.{TakeAllAnswer};
ghost use Rattle.u_machine.specs.Obeying.{Does};
ghost use Rattle.u_delta.specs.Marks.{IsDelta};
ghost use Rattle.u_replica.specs.Marking.{mark, mark_of};
ghost use Rattle.u_replica.specs.ReplicaState.{fresh, ask_of, ChangesMachine, HoldsAlways, IsPeer};
ghost use Rattle.u_replica.specs.Receiving.{ReceiveAnswer};
ghost use Rattle.u_replica.specs.Merging.{all_of, MergeAnswer};
ghost use Rattle.u_replica.specs.CheckpointText.{checkpoint_text};
ghost use Rattle.u_replica.specs.Checkpoints.{AreFirings};
ghost use Rattle.u_replica.specs.Restoring.{RestoreAnswer, RestoresWritten, RestoresWhole, RestoresFront};

use crate::answer::{MergeRefusal, RestoreError};
use crate::checkpoint::{Ending, write_checkpoint};
use crate::checkpoint_reading::read_behind_fired;
use crate::marks::Marks;
use crate::merging::merge;
use crate::onlooker::{Nobody, Onlooker};
use crate::restoring::{Restart, unread, untaken};
use crate::taking::take_behind;
use std::alloc::{AllocError, Global};
use std::marker::Model;
use u_check::Job;
use u_delta::{Ask, Delta, Mark, delta};
use u_machine::{
    Command, ListRefusal, Machine, Ran, Refusal, Reply, Step, StepIn, TakeRefusal, Took,
};
use u_rule::Firing;

/// A machine with its number among the replicas, its life, and one mark for each peer.
#[derive(Drop)]
pub struct Replica<'a> {
    alloc: Global,
    machine: Machine<'a>,
    number: u8,
    life: u64,
    marks: Marks,
}

impl<'a> Model for Replica<'a> {
    ghost use Rattle.u_replica.specs.ReplicaState.{ReplicaState, replica, replica_code};
    ghost use Rattle.u_name.specs.Context.{IsBetween};
    ghost use Rattle.std.specs.Prelude.{◌≤◌};

    ghost Value = { ReplicaState };

    ghost coded = { replica_code };

    ghost view = { λ r. replica r.machine r.number r.life r.marks };

    ghost invariant = { λ r. IsBetween 1 r.number 8 × (1 ≤ r.life) };
}

impl<'a> Replica<'a> {
    /// A replica in its first life, which holds the start token alone and knows nothing of its peers.
    /// `limit` is the greatest number of firings that it takes; `number` is 1 to 8.
    ///
    /// # Errors
    /// `AllocError` where there is no memory.
    pub fn new(
        alloc: Global,
        job: &'a Job,
        limit: usize,
        number: u8,
    ) -> Result<Replica<'a>, AllocError>
        requires { IsBetween 1 number 8 }
        ensures { IfOk result (λ r. r ≡ fresh job.now limit number) }
    {
        let machine = Machine::new(alloc, job, limit)?;
        Ok(Replica {
            alloc,
            machine,
            number,
            life: 1,
            marks: Marks::new(),
        })
    }

    /// The machine: what the replica took and holds.
    pub fn machine(&self) -> &Machine<'a>
        ensures { result.now ≡ self.now.machine }
    {
        &self.machine
    }

    /// The machine, for a caller who is done with the replica.
    pub fn into_machine(self) -> Machine<'a>
        ensures { result ≡ self.entry.machine }
    {
        self.machine
    }

    /// The replica's number, 1 to 8.
    pub fn number(&self) -> u8
        ensures number { result ≡ self.now.number }
        ensures range { IsBetween 1 result 8 }
    {
        self.number
    }

    /// The replica's life: 1 at first, and one more whenever it starts again.
    pub fn life(&self) -> u64
        ensures life { result ≡ self.now.life }
        ensures born { 1 ≤ result }
    {
        self.life
    }

    /// How much of the peer's log the replica has. `peer` is another replica's number, 1 to 8.
    pub fn mark(&self, peer: u8) -> Mark
        requires { IsPeer self.now peer }
        ensures { result ≡ mark_of self.now.marks peer }
    {
        self.marks.of(peer)
    }

    /// Takes a firing, from wherever it comes, as the machine's `take`. Where it is not enabled it is
    /// parked until it is.
    ///
    /// # Errors
    /// `NotAFiring` exactly where it is no firing of the job. `Full` where it is new and the replica has
    /// taken as many as it may. `NoMemory` where there is no memory; it may have been taken then.
    pub fn take(&mut self, firing: &Firing) -> Result<Took, TakeRefusal>
        ensures answer { TakeAnswer self.old.machine firing.now result self.new.machine }
        ensures alone { ChangesMachine self.old self.new }
    {
        self.machine.take(firing)
    }

    /// Takes the firings of the list one after another, or none of them, as the machine's `take_all`.
    ///
    /// # Errors
    /// `NotAFiring` with the place of the first that is no firing of the job. `Full` where the replica
    /// may not take as many besides as the list has new ones. In both cases nothing is taken.
    /// `NoMemory` where there is no memory; some of the first ones may have been taken then.
    pub fn take_all(&mut self, firings: &[Firing]) -> Result<(), ListRefusal>
        ensures answer { TakeAllAnswer self.old.machine firings.now result self.new.machine }
        ensures alone { ChangesMachine self.old self.new }
    {
        self.machine.take_all(firings)
    }

    /// Goes on where an earlier call found no memory, until all that was begun is applied.
    ///
    /// # Errors
    /// `AllocError` where there is no memory; the entries that have entered stay.
    pub fn settle(&mut self) -> Result<(), AllocError>
        ensures applies { Applies self.old.machine self.new.machine }
        ensures ok { OnOk result (IsSettled self.new.machine) }
        ensures still { IsSettled self.old.machine → IsOk result × (self.new ≡ self.old) }
        ensures alone { ChangesMachine self.old self.new }
    {
        self.machine.settle()
    }

    /// Applies one ready firing, and then each parked one that is enabled by it, as the machine's
    /// `fire`. `Quiet` is returned exactly where nothing is ready; then the history is all that can be
    /// derived from the job.
    ///
    /// # Errors
    /// `Full` where a firing is ready and the replica has taken as many as it may. `NoMemory` where
    /// there is no memory; the picked firing may have been taken then.
    pub fn fire(&mut self, pick: usize) -> Result<Step, Refusal>
        ensures answer { FireAnswer self.old.machine pick result self.new.machine }
        ensures alone { ChangesMachine self.old self.new }
    {
        self.machine.fire(pick)
    }

    /// Applies one ready firing whose bucket is in the mask, and then each parked one that is enabled by
    /// it, as the machine's `fire_in`. `Quiet` is returned exactly where nothing is ready, and
    /// `Elsewhere` exactly where something is ready and nothing of it is in the mask.
    ///
    /// # Errors
    /// `Full` where a firing in the mask is ready and the replica has taken as many as it may.
    /// `NoMemory` where there is no memory; the picked firing may have been taken then.
    pub fn fire_in(&mut self, buckets: u64, pick: usize) -> Result<StepIn, Refusal>
        ensures answer { FireInAnswer self.old.machine buckets pick result self.new.machine }
        ensures alone { ChangesMachine self.old self.new }
    {
        self.machine.fire_in(buckets, pick)
    }

    /// Applies the least ready firing again and again, until nothing is ready or it has done so
    /// `budget` times, as the machine's `run`.
    ///
    /// # Errors
    /// `Full` where a firing is ready and the replica has taken as many as it may. `NoMemory` where
    /// there is no memory. What was applied before a refusal stays applied. A settled replica of which
    /// nothing is ready answers `Quiet`, with no memory.
    pub fn run(&mut self, budget: usize) -> Result<Ran, Refusal>
        ensures answer { RunAnswer self.old.machine budget result self.new.machine }
        ensures plain { IsFresh self.old.machine
            → RunsPlainly self.old.machine budget result self.new.machine }
        ensures quiet { IsSettled self.old.machine → NothingReady self.old.machine → IsOk result }
        ensures alone { ChangesMachine self.old self.new }
    {
        self.machine.run(budget)
    }

    /// The ask for what the replica lacks of the peer's log. `peer` is another replica's number, 1 to 8.
    pub fn ask(&self, peer: u8) -> Ask
        requires { IsPeer self.now peer }
        ensures { result ≡ ask_of self.now peer }
    {
        let mark = self.marks.of(peer);
        Ask {
            asker: self.number,
            asked: peer,
            life: mark.life,
            count: mark.count,
        }
    }

    /// The part of the replica's log that the asker lacks. Who is asked is not looked at.
    ///
    /// Promise ask-and-answer: it is what `delta` returns of the replica's log for the mark of the ask.
    ///
    /// # Errors
    /// `AllocError` where there is no memory.
    pub fn answer(&self, ask: &Ask) -> Result<Delta, AllocError>
        ensures { IfOk result (λ d. IsDelta self.now.machine.log self.now.number ask.now.asker
            self.now.life (mark ask.now.life ask.now.count) d) }
    {
        delta(
            self.alloc,
            self.machine.applied(),
            self.number,
            ask.asker,
            self.life,
            ask.mark(),
        )
    }

    /// Takes the firings of the delta. A delta whose sender is no other replica's number, or that ends behind
    /// the log's 1,000,000th firing, moves no mark. For whom the delta is meant is not looked at.
    ///
    /// Promise receive: the sender's mark moves only if the delta goes on from what it counts or begins a
    /// later life, and then to the delta's end.
    ///
    /// # Errors
    /// As `take_all`; no mark moves then.
    pub fn receive(&mut self, delta: &Delta) -> Result<(), ListRefusal>
        ensures { ReceiveAnswer self.old delta.now result self.new }
    {
        self.machine.take_all(delta.firings.as_slice())?;
        self.marks.took(self.number, delta);
        Ok(())
    }

    /// Takes all that the other replica took, its applied firings in their order and then its parked ones.
    /// Its history is then the least that has both histories and all that its firings give which are enabled
    /// over it. No mark moves.
    ///
    /// Promise merge-of-replicas: the replica is then the least upper bound of the two, and what it took is
    /// the union of what the two took.
    ///
    /// # Errors
    /// `OtherJob` exactly where the other replica runs another program, or runs it on another argument or with
    /// another table; nothing changes then. `Full` where the replica may not take as many besides as the other has new
    /// ones; nothing is taken then, and no memory is taken to find it out. `NoMemory` where there is room
    /// and no memory; some of the first ones may have been taken then.
    pub fn merge(&mut self, other: &Replica<'_>) -> Result<(), MergeRefusal>
        ensures answer { MergeAnswer self.old.machine other.now.machine result self.new.machine }
        ensures alone { ChangesMachine self.old self.new }
    {
        merge(self.alloc, &mut self.machine, &other.machine)
    }

    /// Makes a call of the replica's machine, and returns its answer.
    ///
    /// Promise calls-of-a-replica: each such call is that of the replica's machine, with its promises, and
    /// changes nothing else.
    pub fn obey_machine(&mut self, command: &Command) -> Reply
        ensures answer { Does self.old.machine command.now result self.new.machine }
        ensures alone { ChangesMachine self.old self.new }
    {
        self.machine.obey(command)
    }

    /// The checkpoint of the replica. Its first line is `u-history 1` where the job's program has version 1,
    /// and `u-history 2` where it has version 2.
    ///
    /// Promise save: it has exactly the applied firings in their order and then the parked ones.
    ///
    /// # Errors
    /// `AllocError` where there is no memory.
    pub fn save(&self) -> Result<Vec<u8>, AllocError>
        ensures text { IfOk result
            (λ bytes. bytes.items ≡ checkpoint_text self.now.machine.job.program.version
            (all_of self.now.machine)) }
        ensures valid { AreFirings (all_of self.now.machine) }
    {
        let mut bytes = Vec::new(self.alloc);
        let version = self.machine.job().program().version();
        write_checkpoint(
            version,
            self.machine.applied(),
            &self.machine.parked(),
            &mut bytes,
        )?;
        Ok(bytes)
    }

    /// A replica that took the firings of the checkpoint, and how the checkpoint ended: `Whole`, or
    /// `Torn` where its last lines are missing; then the firings of the complete lines are taken. The
    /// replica knows nothing of its peers. `number` is 1 to 8, and `life` at least 1; a replica that
    /// starts again takes its own number and a life that it did not live before.
    ///
    /// The first line is `u-history 1` or `u-history 2`. A job whose program has version 2 reads both,
    /// and takes the same firings behind them; for a job of version 1 `u-history 2` is no line of a
    /// checkpoint.
    ///
    /// Of what `write_checkpoint` wrote of any firings of this job, with a first line that the job reads, the
    /// replica takes exactly these. Then it is refused for want of room or of memory alone.
    ///
    /// Promise restore: of what `save` returned for the job exactly what the saved replica took is taken, and
    /// of a front of that the first firings.
    ///
    /// Promise restore-of-other-bytes: of other bytes exactly the firings that are read are taken, or the
    /// first wrong line or firing that is none of the job is named.
    ///
    /// # Errors
    /// `BadLine` and `TooLong` with the first line, counted from 1, that no checkpoint which the job reads
    /// has in its place or that has more than 32,768 bytes. `NotAFiring` with the place, counted from 0,
    /// of the first firing that is none of the job. `Full` where the checkpoint has more firings than
    /// `limit`. `NoMemory` where there is no memory.
    pub fn restore(
        alloc: Global,
        job: &'a Job,
        limit: usize,
        number: u8,
        life: u64,
        bytes: &[u8],
    ) -> Result<(Replica<'a>, Ending), RestoreError>
        requires number { IsBetween 1 number 8 }
        requires born { 1 ≤ life }
        ensures answer { RestoreAnswer job.now limit number life bytes.now result }
        ensures written { RestoresWritten job.now limit bytes.now result }
        ensures whole { RestoresWhole job.now limit bytes.now result }
        ensures front { RestoresFront job.now limit bytes.now result }
    {
        let restart = Restart {
            number,
            life,
            checkpoint: bytes,
        };
        Replica::restore_watched(alloc, job, limit, restart, &mut Nobody)
    }

    /// What `restore` returns. The onlooker is shown from time to time how far the machine has come.
    ///
    /// # Errors
    /// As `restore`.
    pub fn restore_watched<S: Onlooker>(
        alloc: Global,
        job: &'a Job,
        limit: usize,
        restart: Restart<'_>,
        onlooker: &mut S,
    ) -> Result<(Replica<'a>, Ending), RestoreError>
        requires number { IsBetween 1 restart.number 8 }
        requires born { 1 ≤ restart.life }
        ensures answer { RestoreAnswer job.now limit restart.entry.number restart.entry.life
            restart.entry.checkpoint.now result }
        ensures written { RestoresWritten job.now limit restart.entry.checkpoint.now result }
        ensures whole { RestoresWhole job.now limit restart.entry.checkpoint.now result }
        ensures front { RestoresFront job.now limit restart.entry.checkpoint.now result }
    {
        let version = job.program().version();
        let bytes = restart.checkpoint;
        let mut machine = Machine::new(alloc, job, limit)?;
        let read = match read_behind_fired(alloc, version, bytes, &mut machine, onlooker) {
            Ok(read) => read,
            Err(error) => return Err(unread(error)),
        };
        match take_behind(&mut machine, read.checkpoint.firings.as_slice(), onlooker) {
            Ok(()) => {}
            Err(refusal) => return Err(untaken(read.fired, refusal)),
        }
        let replica = Replica {
            alloc,
            machine,
            number: restart.number,
            life: restart.life,
            marks: Marks::new(),
        };
        Ok((replica, read.checkpoint.ending))
    }

    /// What holds of each replica, after all calls. It does nothing, and callers cite its clause.
    ///
    /// Promise replica-always: its machine keeps the promise of one machine, its number is 1 to 8, its life
    /// at least 1, and no mark counts more than 1000000 firings.
    pub fn holds(&self)
        ensures { HoldsAlways self.now }
    {
        // Brings in that the life is below 2^64, and what the machine and the marks keep.
        let _life = self.life;
        self.machine.holds();
        self.marks.holds();
    }
}
