//! Lists of calls of one machine, and what holds after each list.
ghost use Rattle.std.specs.Prelude.{◌≡◌, IfOk, OnErr};
ghost use Rattle.u_machine.specs.State.{IsMachine, IsSettled};
ghost use Rattle.u_machine.specs.Headline.{KeepsItsPromise};
ghost use Rattle.u_machine.specs.Obeying.{Does, Obeys, AreMet, Extends};

use crate::answer::{ListRefusal, Ran, Refusal, Step, StepIn, TakeRefusal, Took};
use crate::machine::Machine;
use std::alloc::{AllocError, Global};
use u_rule::Firing;
use u_sets::push_into_room;

/// One call of a machine.
#[derive(Drop)]
pub enum Command {
    /// `fire`, with the number that picks one of the ready firings.
    Fire(usize),
    /// `fire_in`, with the mask of buckets and the number that picks one of the ready firings in it.
    FireIn(u64, usize),
    /// `take`.
    Take(Firing),
    /// `take_all`.
    TakeAll(Vec<Firing>),
    /// `settle`.
    Settle,
    /// `run`, with how often it may fire.
    Run(usize),
}

/// What one call of a machine answered.
#[derive(Clone, Copy, PartialEq, Eq, Debug)]
pub enum Reply {
    /// What `fire` answered.
    Fire(Result<Step, Refusal>),
    /// What `fire_in` answered.
    FireIn(Result<StepIn, Refusal>),
    /// What `take` answered.
    Take(Result<Took, TakeRefusal>),
    /// What `take_all` answered.
    TakeAll(Result<(), ListRefusal>),
    /// What `settle` answered.
    Settle(Result<(), AllocError>),
    /// What `run` answered.
    Run(Result<Ran, Refusal>),
}

impl<'a> Machine<'a> {
    /// Makes the call, and returns its answer.
    ///
    /// Promise calls-settle: each call that does not return `NoMemory` leaves the machine settled.
    pub fn obey(&mut self, command: &Command) -> Reply
        ensures { Does self.old command.now result self.new }
    {
        match command {
            Command::Fire(pick) => Reply::Fire(self.fire(*pick)),
            Command::FireIn(buckets, pick) => Reply::FireIn(self.fire_in(*buckets, *pick)),
            Command::Take(firing) => Reply::Take(self.take(firing)),
            Command::TakeAll(firings) => Reply::TakeAll(self.take_all(firings)),
            Command::Settle => Reply::Settle(self.settle()),
            Command::Run(budget) => Reply::Run(self.run(*budget)),
        }
    }

    /// Makes the calls of the list one after another, and returns what each of them answered.
    ///
    /// Promise lists-of-calls: each call has its own answer, nothing that was taken is lost, and the headline
    /// of one machine holds afterwards.
    ///
    /// # Errors
    /// `AllocError` where there is no memory for the answers; then no call is made.
    pub fn obey_all(
        &mut self,
        alloc: Global,
        commands: &[Command],
    ) -> Result<Vec<Reply>, AllocError>
        ensures obeys { IfOk result (λ rs. Obeys self.old commands.now rs.items self.new) }
        ensures extends { Extends self.old self.new }
        ensures machine { IsMachine self.new }
        ensures settled { IfOk result
            (λ rs. IsSettled self.old → AreMet rs.items → IsSettled self.new) }
        ensures promise { KeepsItsPromise self.new }
        ensures err { OnErr result (self.new ≡ self.old) }
    {
        // Brings in what always holds.
        self.holds();
        let mut replies = Vec::new(alloc);
        replies.reserve(commands.len())?;
        for command in commands {
            let reply = self.obey(command);
            // Brings in what holds after the call.
            self.holds();
            push_into_room(&mut replies, reply);
        }
        Ok(replies)
    }
}
