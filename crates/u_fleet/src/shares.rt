//! Which buckets a worker claims in which round.
ghost use Rattle.std.specs.Prelude.{◌≤◌};
ghost use Rattle.u_name.specs.Context.{IsBetween};
ghost use Rattle.u_fleet.specs.Shares.{IsShareOf};

/// The buckets that a worker claims in a round, as a mask in which bit b stands for bucket b. The
/// workers are numbered from 1. Bucket b is the worker's where `(b + round) % workers` is `worker - 1`,
/// so that each bucket is one worker's in each round.
pub(crate) fn share_of(worker: u8, workers: u8, round: u32) -> u64
    requires worker { IsBetween 1 worker workers }
    requires workers { workers ≤ 8 }
    ensures { IsShareOf worker workers round result }
{
    let mut mask = 0;
    for bucket in 0..64 {
        let turn = (bucket + u64::from(round)) % u64::from(workers);
        if turn == u64::from(worker) - 1 {
            mask |= 1 << bucket;
        }
    }
    mask
}
