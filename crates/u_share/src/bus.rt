//! What a member is given: its plan, and the bus.

/// How a member takes part.
#[derive(Clone, Copy, PartialEq, Eq, Debug)]
pub struct Plan {
    /// How many firings it takes at most.
    pub limit: usize,
    /// How many firings it fires at most between two reads.
    pub burst: usize,
    /// Whether it follows: it fires only once the bus was silent from one clock line to the next.
    pub follows: bool,
}

/// Where lines come from and go to.
#[derive(Drop)]
pub struct Bus<R, W, N> {
    /// Where the lines of the bus come from.
    pub reader: R,
    /// Where the member's own firings go.
    pub writer: W,
    /// Where notices of skipped lines go.
    pub notices: N,
}
