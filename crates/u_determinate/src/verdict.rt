//! What meets in a program that is not determinate, and where.

/// What meets at a statement of a program that is not determinate.
#[derive(Clone, Copy, Debug, PartialEq, Eq)]
pub enum Meeting {
    /// Two arcs lead to one of its ports, and may both deliver.
    Arcs,
    /// It is an `end`, and an earlier statement of its block is one too.
    Ends,
    /// It is a `back`, and two `apply`s name it.
    Calls,
    /// It is a `next`, and may fire in a turn of its loop in which a `last` does.
    Turns,
}

/// A statement where a program is not determinate.
#[derive(Clone, Copy, Debug, PartialEq, Eq)]
pub struct MeetingPoint {
    /// What meets there.
    pub meeting: Meeting,
    /// The block's number from 1.
    pub block: usize,
    /// The statement's number from 1.
    pub at: usize,
}

/// Whether a program is determinate.
#[derive(Clone, Copy, Debug, PartialEq, Eq)]
pub enum Determinacy {
    /// It is.
    Determinate,
    /// It is not, and this is the first place that shows so.
    Meets(MeetingPoint),
}
