//! Masks of buckets, in which bit b stands for bucket b.
ghost use Rattle.std.specs.Prelude.{◌≡◌, ◌<◌, true, false};
ghost use Rattle.u_claims.specs.Masks.{in_mask, SetsBit};

/// Whether the bucket is in the mask.
pub fn is_in(mask: u64, bucket: u64) -> bool
    requires { bucket < 64 }
    ensures { result ≡ in_mask mask bucket }
{
    (mask >> bucket) % 2 == 1
}

/// The mask, and the bucket.
pub fn with(mask: u64, bucket: u64) -> u64
    requires { bucket < 64 }
    ensures { SetsBit mask bucket true result }
{
    mask | (1 << bucket)
}

/// The mask without the bucket.
pub fn without(mask: u64, bucket: u64) -> u64
    requires { bucket < 64 }
    ensures { SetsBit mask bucket false result }
{
    mask & !(1 << bucket)
}
