//! Orders in which nothing ties with anything else.
ghost use Rattle.std.specs.FinMap.{nat_cmp-IsAntisymmetric};
ghost use Rattle.u_base.specs.Exact.{IsExact};

/// A total order in which only a thing itself compares as equal to it.
pub trait ExactOrd: Ord {
    ghost exact: { IsExact Self.cmp };
}

impl ExactOrd for u8 {
    ghost exact = { nat_cmp-IsAntisymmetric };
}

impl ExactOrd for u32 {
    ghost exact = { nat_cmp-IsAntisymmetric };
}
