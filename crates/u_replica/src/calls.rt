//! Lists of calls of one replica, and what holds after each list.
//!
//! A call that merges lends the other replica, so a list can't name the replica itself.
ghost use Rattle.std.specs.Prelude.{◌≡◌, IfOk, OnErr};
ghost use Rattle.u_machine.specs.State.{IsSettled};
ghost use Rattle.u_replica.specs.ReplicaState.{HoldsAlways};
ghost use Rattle.u_replica.specs.Obeying.{Does, Obeys, AreMet, Extends};

use crate::answer::MergeRefusal;
use crate::replica::Replica;
use crate::room::push_into_room;
use std::alloc::{AllocError, Global};
use u_delta::Delta;
use u_machine::{Command, ListRefusal, Reply};

/// One call of a replica that changes it.
#[derive(Drop)]
pub enum Call<'a, 'b> {
    /// A call of its machine.
    Machine(Command),
    /// `receive`.
    Receive(Delta),
    /// `merge`.
    Merge(&'a Replica<'b>),
}

/// What one call of a replica answered.
#[derive(Clone, Copy, PartialEq, Eq, Debug)]
pub enum Answer {
    /// What the call of its machine answered.
    Machine(Reply),
    /// What `receive` answered.
    Receive(Result<(), ListRefusal>),
    /// What `merge` answered.
    Merge(Result<(), MergeRefusal>),
}

impl<'a> Replica<'a> {
    /// Makes the call, and returns its answer.
    pub fn obey(&mut self, call: &Call<'_, '_>) -> Answer
        ensures { Does self.old call.now result self.new }
    {
        match call {
            Call::Machine(command) => Answer::Machine(self.obey_machine(command)),
            Call::Receive(delta) => Answer::Receive(self.receive(delta)),
            Call::Merge(other) => Answer::Merge(self.merge(other)),
        }
    }

    /// Makes the calls of the list one after another, and returns what each of them answered.
    ///
    /// Promise lists-of-replica-calls: after every list of calls nothing is lost, no mark counts less, and
    /// number and life are the same.
    ///
    /// # Errors
    /// `AllocError` where there is no memory for the answers; then no call is made.
    pub fn obey_all(
        &mut self,
        alloc: Global,
        calls: &[Call<'_, '_>],
    ) -> Result<Vec<Answer>, AllocError>
        ensures obeys { IfOk result (λ answers. Obeys self.old calls.now answers.items self.new) }
        ensures extends { Extends self.old self.new }
        ensures settled { IfOk result (λ answers. IsSettled self.old.machine
            → AreMet answers.items → IsSettled self.new.machine) }
        ensures holds { HoldsAlways self.new }
        ensures err { OnErr result (self.new ≡ self.old) }
    {
        // Brings in what always holds.
        self.holds();
        let mut answers = Vec::new(alloc);
        answers.reserve(calls.len())?;
        for call in calls {
            let answer = self.obey(call);
            // Brings in what holds after the call.
            self.holds();
            push_into_room(&mut answers, answer);
        }
        Ok(answers)
    }
}
