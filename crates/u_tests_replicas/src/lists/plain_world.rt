//! A plain world: replicas, and what they sent to each other.
use crate::lists::plain_replica::{Part, PlainReplica};
use crate::lists::table::Table;
use std::alloc::{AllocError, Global};
use u_delta::{Ask, Mark};
use u_world::Event;

/// What was sent.
#[derive(Drop)]
pub enum Sent {
    /// An ask.
    Ask(Ask),
    /// A part of the sender's log.
    Part(Part),
}

/// The replicas in the order of their numbers, and the messages in the order in which they were sent.
#[derive(Drop)]
pub struct PlainWorld {
    alloc: Global,
    /// The replicas.
    pub replicas: Vec<PlainReplica>,
    /// The messages.
    pub sent: Vec<Sent>,
}

/// The place of the replica with that number.
fn place_of(number: u8) -> usize {
    usize::from(number).wrapping_sub(1)
}

/// The one that the part is sent to receives it.
fn receives(replicas: &mut Vec<PlainReplica>, table: &Table, part: &Part) -> bool {
    match replicas.get_mut(place_of(part.receiver)) {
        Some(replica) => replica.receive(table, part).is_ok(),
        None => false,
    }
}

impl PlainWorld {
    /// So many more new replicas.
    fn add(&mut self, table: &Table, count: u8) -> Result<(), AllocError> {
        for _number in 0..count {
            self.replicas.push(PlainReplica::new(self.alloc, table)?)?;
        }
        Ok(())
    }

    /// A world of `count` new replicas.
    pub fn new(alloc: Global, table: &Table, count: u8) -> Result<PlainWorld, AllocError> {
        let mut world = PlainWorld {
            alloc,
            replicas: Vec::new(alloc),
            sent: Vec::new(alloc),
        };
        world.add(table, count)?;
        Ok(world)
    }

    /// The replica with that number.
    pub fn replica(&self, number: u8) -> Option<&PlainReplica> {
        self.replicas.get(place_of(number))
    }

    /// One replica asks another.
    fn asks(&mut self, asker: u8, asked: u8) -> bool {
        let Some(replica) = self.replica(asker) else {
            return false;
        };
        let Mark { life, count } = replica.mark(asked);
        let ask = Ask {
            asker,
            asked,
            life,
            count,
        };
        self.sent.push(Sent::Ask(ask)).is_ok()
    }

    /// What the replica answers that is asked.
    fn answer_to(&self, ask: Ask) -> Result<Part, AllocError> {
        match self.replica(ask.asked) {
            Some(replica) => replica.part_for(ask),
            None => Err(AllocError),
        }
    }

    /// The replica that is asked answers.
    fn answers(&mut self, ask: Ask) -> bool {
        match self.answer_to(ask) {
            Ok(part) => self.sent.push(Sent::Part(part)).is_ok(),
            Err(_) => false,
        }
    }

    /// A message is delivered.
    fn delivers(&mut self, table: &Table, message: usize) -> bool {
        match self.sent.get(message) {
            Some(Sent::Ask(ask)) => {
                let ask = *ask;
                self.answers(ask)
            }
            Some(Sent::Part(part)) => receives(&mut self.replicas, table, part),
            None => false,
        }
    }

    /// All firings that the replica took.
    fn all_of(&self, number: u8) -> Result<Vec<usize>, AllocError> {
        match self.replica(number) {
            Some(replica) => replica.all(),
            None => Err(AllocError),
        }
    }

    /// The replica takes these firings.
    fn takes(&mut self, table: &Table, number: u8, firings: &[usize]) -> bool {
        match self.replicas.get_mut(place_of(number)) {
            Some(replica) => replica.take_all(table, firings).is_ok(),
            None => false,
        }
    }

    /// The first replica takes all that the second took.
    fn merges(&mut self, table: &Table, number: u8, other: u8) -> bool {
        match self.all_of(other) {
            Ok(all) => self.takes(table, number, &all),
            Err(_) => false,
        }
    }

    /// A replica fires, saves or starts again.
    fn does_alone(&mut self, table: &Table, number: u8, event: &Event) -> bool {
        match self.replicas.get_mut(place_of(number)) {
            Some(replica) => replica.does(table, event).is_ok(),
            None => false,
        }
    }

    /// Does the event. Returns whether it can be done. Random lists have no `Take` and no `Bytes`.
    pub fn does(&mut self, table: &Table, event: &Event) -> bool {
        match event {
            Event::Ask { asker, asked } => self.asks(*asker, *asked),
            Event::Deliver { message } => self.delivers(table, *message),
            Event::Merge { replica, other } => self.merges(table, *replica, *other),
            Event::Fire { replica, .. }
            | Event::Save { replica }
            | Event::Restart { replica, .. } => self.does_alone(table, *replica, event),
            Event::Take { .. } | Event::Bytes { .. } => false,
        }
    }
}
