//! What one replica does in an event.
ghost use Rattle.std.specs.Prelude.{◌≡◌};
ghost use Rattle.u_machine.specs.Calls.{FireAnswer, TakeAnswer};
ghost use Rattle.u_replica.specs.Merging.{MergeAnswer};
ghost use Rattle.u_replica.specs.ReplicaState.{HoldsAlways};
ghost use Rattle.u_world.specs.Refusals.{of_fire, of_take, of_merge};
ghost use Rattle.u_world.specs.Acts.{Answers, Receives, TakesList};

use crate::refused::Refused;
use std::mem;
use u_delta::Delta;
use u_machine::ListRefusal;
use u_replica::Replica;
use u_rule::Firing;

/// The replica fires what is picked, if anything is ready.
pub(crate) fn fire(replica: &mut Replica<'_>, pick: usize) -> Result<(), Refused>
    ensures answer { Answers of_fire (λ r m n. FireAnswer m pick r n)
        result replica.old replica.new }
    ensures holds { HoldsAlways replica.new }
{
    let fired = replica.fire(pick);
    replica.holds();
    match fired {
        Ok(_) => Ok(()),
        Err(refusal) => Err(Refused::of_fire(refusal)),
    }
}

/// The replica takes the firing.
pub(crate) fn take(replica: &mut Replica<'_>, firing: &Firing) -> Result<(), Refused>
    ensures answer { Answers of_take (λ r m n. TakeAnswer m firing.now r n)
        result replica.old replica.new }
    ensures holds { HoldsAlways replica.new }
{
    let taken = replica.take(firing);
    replica.holds();
    match taken {
        Ok(_) => Ok(()),
        Err(refusal) => Err(Refused::of_take(refusal)),
    }
}

/// The replica takes all that the other one took.
pub(crate) fn merge(replica: &mut Replica<'_>, other: &Replica<'_>) -> Result<(), Refused>
    ensures answer { Answers of_merge (λ r m n. MergeAnswer m other.now.machine r n)
        result replica.old replica.new }
    ensures holds { HoldsAlways replica.new }
{
    let merged = replica.merge(other);
    replica.holds();
    match merged {
        Ok(()) => Ok(()),
        Err(refusal) => Err(Refused::of_merge(refusal)),
    }
}

/// The replica is replaced by its next life.
pub(crate) fn start_again<'a>(replica: &mut Replica<'a>, next: Replica<'a>)
    ensures life { replica.new ≡ next.entry }
    ensures holds { HoldsAlways replica.new }
{
    // The life before is dropped where this function ends.
    let _before = mem::replace(replica, next);
    replica.holds();
}

/// The replica receives the delta.
pub(crate) fn receive(replica: &mut Replica<'_>, delta: &Delta) -> Result<(), Refused>
    ensures answer { Receives delta.now result replica.old replica.new }
    ensures holds { HoldsAlways replica.new }
{
    let received = replica.receive(delta);
    replica.holds();
    match received {
        Ok(()) => Ok(()),
        Err(refusal) => Err(Refused::of_list(refusal)),
    }
}

/// The replica takes the firings, if all of them are firings of its job.
pub(crate) fn take_all(replica: &mut Replica<'_>, firings: &[Firing]) -> Result<(), Refused>
    ensures answer { TakesList firings.now result replica.old replica.new }
    ensures holds { HoldsAlways replica.new }
{
    let taken = replica.take_all(firings);
    replica.holds();
    match taken {
        Ok(()) => Ok(()),
        Err(ListRefusal::NotAFiring(_)) => Ok(()),
        Err(refusal) => Err(Refused::of_list(refusal)),
    }
}
