//! Buckets of work.
ghost use Rattle.std.specs.Prelude.{◌≡◌, ◌<◌};
ghost use Rattle.u_claims.specs.Buckets.{bucket};

use u_name::Name;

/// The bucket of a name, 0 to 63. That there are 64 buckets, and which names share one, is this project's
/// profile.
///
/// Promise bucket-of-a-name: it is the sum of the statement, the initiation and the depth of the context,
/// modulo 64.
pub fn bucket_of(name: &Name) -> u64
    ensures bucket { result ≡ bucket name.now }
    ensures range { result < 64 }
{
    (u64::from(name.statement()) + name.initiation() % 64 + u64::from(name.depth())) % 64
}
