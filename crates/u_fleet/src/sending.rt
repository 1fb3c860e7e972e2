//! Firings go out: the log is published.
ghost use Rattle.std.specs.Prelude.{◌≡◌, ◌≤◌, ◌++◌, ◌⊎◌, [], IfOk, MatchResult, drop, length};
ghost use Rattle.u_outlet.specs.Ends.{published, pending};

use std::alloc::AllocError;
use std::sync::Wait;
use u_outlet::{Named, Outlet};
use u_replica::Replica;

/// Publishes the replica's log from a place on, counted from 0, behind all that is pending in the
/// outlet, which is one of the replica's job. It returns the length of the log: the place for the next
/// time. The place is at most that length. It may wait for readers.
///
/// Promise send: what was pending is published, then the log from the place on.
///
/// # Errors
/// `AllocError` where there is no memory; nothing is published, and what was pending is so still, alone or
/// with the copies behind it.
pub fn send<J: Named, R: Wait>(
    rt: &R,
    replica: &Replica<'_>,
    outlet: &mut Outlet<J>,
    place: usize,
) -> Result<usize, AllocError>
    requires job { replica.now.machine.job ≡ J.job }
    requires place { place ≤ length replica.now.machine.log }
    ensures published { MatchResult result
        (λ _. published outlet.new
        ≡ published outlet.old ++ (pending outlet.old ++ drop place replica.now.machine.log))
        (λ _. published outlet.new ≡ published outlet.old) }
    ensures pending { MatchResult result
        (λ _. pending outlet.new ≡ [])
        (λ _. (pending outlet.new ≡ pending outlet.old)
        ⊎ (pending outlet.new ≡ pending outlet.old ++ drop place replica.now.machine.log)) }
    ensures len { IfOk result (λ n. n ≡ length replica.now.machine.log) }
{
    replica.holds();
    let log = replica.machine().applied();
    let len = log.len();
    outlet.put(&log[place..])?;
    outlet.publish(rt)?;
    Ok(len)
}
