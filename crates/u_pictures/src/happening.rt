//! What happened in a world, event by event.
use u_name::Name;

/// Where something happened: in the row of an event, and at a replica.
#[derive(Clone, Copy)]
pub struct Spot {
    /// The row of the event. The first event has row 1.
    pub row: usize,
    /// The replica's number, from 1.
    pub replica: u8,
}

/// What a replica did in an event.
#[derive(Drop)]
pub enum Deed {
    /// It fired: the activity is that of the first firing that its log has more.
    Fires(Name),
    /// It was to fire, and its log has no firing more.
    Idles,
    /// It sent an ask to the replica with this number.
    Asks(u8),
    /// It answered an ask that was sent there.
    Answers(Spot),
    /// It took firings: where they were sent, if a message brought them, and how many were new.
    Takes(Option<Spot>, usize),
    /// It merged the replica with this number: how many firings were new.
    Merges(u8, usize),
    /// It saved a checkpoint.
    Saves,
    /// It started again: how many firings it had taken before, and how many it has now.
    Restarts(usize, usize),
}

/// What happened in one event: which replica did what.
#[derive(Drop)]
pub struct Happening {
    /// The number of the replica, from 1.
    pub replica: u8,
    /// What it did.
    pub deed: Deed,
}
