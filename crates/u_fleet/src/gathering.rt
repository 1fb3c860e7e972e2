//! Firings come in: what an inlet shows is taken.
ghost use Rattle.std.specs.Prelude.{◌≡◌, All, IfOk, IfErr, drop, length, max};
ghost use Rattle.u_machine.specs.Taking.{TakeAllAnswer};
ghost use Rattle.u_replica.specs.ReplicaState.{ChangesMachine};
ghost use Rattle.u_outlet.specs.Fronts.{StartsWith};
ghost use Rattle.u_outlet.specs.Ends.{seen_by};
ghost use Rattle.u_outlet.specs.Sound.{IsSound};
ghost use Rattle.u_fleet.specs.Gains.{Gains, MayRefuse, MayBeFull};
ghost use Rattle.u_fleet.specs.Gathering.{GatherAnswer};

use crate::answer::GatherFault;
use u_machine::ListRefusal;
use u_outlet::{Inlet, Named, PullFault};
use u_replica::Replica;
use u_rule::Firing;

/// Takes sound firings of the replica's job.
pub fn take_sound<J: Named>(
    replica: &mut Replica<'_>,
    firings: &[Firing],
) -> Result<(), ListRefusal>
    requires job { replica.old.machine.job ≡ J.job }
    requires sound { All (IsSound J.job) firings.now }
    ensures answer { TakeAllAnswer replica.old.machine firings.now result replica.new.machine }
    ensures alone { ChangesMachine replica.old replica.new }
    ensures gains { Gains replica.old.machine replica.new.machine }
    ensures refused { IfErr result (MayRefuse replica.old.machine) }
{
    replica.holds();
    replica.take_all(firings)
}

/// Takes what an inlet of the replica's job shows from a place on, counted from 0. It returns the
/// larger of the place and of how many firings the inlet has seen then: the place for the next time.
///
/// Promise gather: exactly what the inlet has seen from the place on is taken besides, and nothing else of
/// the replica changes. If it is refused, none of that is taken, or where there is no memory a front.
///
/// # Errors
/// `NoReading` where the inlet's outlet gives no reading, since it is closed; the inlet has seen no more
/// than before. `Full` where the replica may not take as many firings besides as there are new ones.
/// `NoMemory` where there is no memory.
pub fn gather<J: Named>(
    replica: &mut Replica<'_>,
    inlet: &mut Inlet<J>,
    place: usize,
) -> Result<usize, GatherFault>
    requires { replica.old.machine.job ≡ J.job }
    ensures later { StartsWith (seen_by inlet.new) (seen_by inlet.old) }
    ensures answer { GatherAnswer replica.old (drop place (seen_by inlet.new)) result replica.new }
    ensures place { IfOk result (λ n. n ≡ max place (length (seen_by inlet.new))) }
    ensures alone { ChangesMachine replica.old replica.new }
    ensures gains { Gains replica.old.machine replica.new.machine }
    ensures unread { IfErr result
        (λ e. e ≡ GatherFault.NoReading → seen_by inlet.new ≡ seen_by inlet.old) }
    ensures full { IfErr result (λ e. e ≡ GatherFault.Full → MayBeFull replica.old.machine) }
{
    let firings = match inlet.pull(place) {
        Ok(firings) => firings,
        Err(PullFault::NoReading) => return Err(GatherFault::NoReading),
        Err(PullFault::NoMemory) => return Err(GatherFault::NoMemory),
    };
    match take_sound::<J>(replica, firings.as_slice()) {
        Ok(()) => Ok(place.max(inlet.seen())),
        Err(ListRefusal::NotAFiring(_)) => unreachable!(),
        Err(ListRefusal::Full) => Err(GatherFault::Full),
        Err(ListRefusal::NoMemory) => Err(GatherFault::NoMemory),
    }
}
