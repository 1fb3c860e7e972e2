//! One replica of a plain world. It goes over all firings of its job again and again, and has nothing
//! else to find those that are ready.
use crate::lists::table::{Table, are_held, hold};
use std::alloc::{AllocError, Global};
use u_delta::{Ask, Mark};
use u_world::Event;

/// What became of a firing.
#[derive(Clone, Copy, PartialEq, Eq)]
pub enum Stage {
    /// It was not taken.
    New,
    /// It was taken, and is not applied.
    Parked,
    /// It was taken and applied.
    Applied,
}

/// A part of a log, sent to another replica.
#[derive(Drop)]
pub struct Part {
    /// The number of the replica whose log it is.
    pub sender: u8,
    /// The number of the replica that it is sent to.
    pub receiver: u8,
    /// The sender's life.
    pub life: u64,
    /// How many firings of the log stand before the part.
    pub start: u64,
    /// The part.
    pub firings: Vec<usize>,
}

/// A replica. Firings and entries stand there by their numbers in the table of the job.
#[derive(Drop)]
pub struct PlainReplica {
    alloc: Global,
    /// Its life.
    pub life: u64,
    /// What it has of the log of each of eight replicas.
    pub marks: Vec<Mark>,
    /// What became of each firing.
    pub stages: Vec<Stage>,
    /// The applied firings, in the order in which they were applied.
    pub log: Vec<usize>,
    /// Of each entry, whether it is held.
    pub held: Vec<bool>,
    /// The firings that it saved last.
    saved: Vec<usize>,
}

impl PlainReplica {
    /// A replica in that life, with no firings and marks at all.
    fn empty(alloc: Global) -> PlainReplica {
        PlainReplica {
            alloc,
            life: 0,
            marks: Vec::new(alloc),
            stages: Vec::new(alloc),
            log: Vec::new(alloc),
            held: Vec::new(alloc),
            saved: Vec::new(alloc),
        }
    }

    /// Forgets all but what it saved, and begins its next life.
    fn begin(&mut self, table: &Table) -> Result<(), AllocError> {
        self.life = self.life.saturating_add(1);
        self.log.clear();
        self.marks = [Mark { life: 0, count: 0 }]
            .as_slice()
            .repeat(self.alloc, 8)?;
        self.stages = [Stage::New].as_slice().repeat(self.alloc, table.count())?;
        self.held = [false].as_slice().repeat(self.alloc, table.entries.len())?;
        hold(&mut self.held, table.start);
        Ok(())
    }

    /// A replica in its first life, which holds the start token.
    pub fn new(alloc: Global, table: &Table) -> Result<PlainReplica, AllocError> {
        let mut replica = PlainReplica::empty(alloc);
        replica.begin(table)?;
        Ok(replica)
    }

    /// What became of the firing.
    pub fn stage(&self, firing: usize) -> Stage {
        match self.stages.get(firing) {
            Some(stage) => *stage,
            None => Stage::New,
        }
    }

    /// That became of the firing.
    fn put(&mut self, firing: usize, stage: Stage) {
        if let Some(place) = self.stages.get_mut(firing) {
            *place = stage;
        }
    }

    /// Whether all is held that the firing needs.
    fn is_enabled(&self, table: &Table, firing: usize) -> bool {
        are_held(&self.held, table.needs_of(firing))
    }

    /// Where the firing is parked and enabled it goes to the end of the log.
    fn log_if_due(&mut self, table: &Table, firing: usize) -> Result<(), AllocError> {
        if self.stage(firing) == Stage::Parked && self.is_enabled(table, firing) {
            self.log.push(firing)?;
            self.put(firing, Stage::Applied);
        }
        Ok(())
    }

    /// The entry enters, if it is new, and the parked firings that it wakes go to the log in order.
    fn enter(&mut self, table: &Table, entry: usize) -> Result<(), AllocError> {
        if !hold(&mut self.held, entry) {
            return Ok(());
        }
        for firing in 0..table.count() {
            self.log_if_due(table, firing)?;
        }
        Ok(())
    }

    /// What the firing at that place of the log gives enters, in order.
    fn apply(&mut self, table: &Table, place: usize) -> Result<(), AllocError> {
        let Some(firing) = self.log.get(place) else {
            return Ok(());
        };
        let firing = *firing;
        for entry in table.gives_of(firing) {
            self.enter(table, *entry)?;
        }
        Ok(())
    }

    /// Takes the firing, unless it was taken, and applies all that is enabled then, first in, first
    /// out.
    fn take(&mut self, table: &Table, firing: usize) -> Result<(), AllocError> {
        if self.stage(firing) != Stage::New {
            return Ok(());
        }
        let first = self.log.len();
        self.put(firing, Stage::Parked);
        self.log_if_due(table, firing)?;
        for place in first..table.count() {
            self.apply(table, place)?;
        }
        Ok(())
    }

    /// Takes the firings, one after another.
    pub fn take_all(&mut self, table: &Table, firings: &[usize]) -> Result<(), AllocError> {
        for firing in firings {
            self.take(table, *firing)?;
        }
        Ok(())
    }

    /// Whether the firing is enabled and was not taken.
    fn is_ready(&self, table: &Table, firing: usize) -> bool {
        self.stage(firing) == Stage::New && self.is_enabled(table, firing)
    }

    /// The ready firings, in order.
    fn ready(&self, table: &Table) -> Result<Vec<usize>, AllocError> {
        let mut ready = Vec::new(self.alloc);
        for firing in 0..table.count() {
            if self.is_ready(table, firing) {
                ready.push(firing)?;
            }
        }
        Ok(ready)
    }

    /// The ready firing that is picked, if any is ready.
    fn picked(&self, table: &Table, pick: usize) -> Result<Option<usize>, AllocError> {
        let ready = self.ready(table)?;
        match pick.checked_rem(ready.len()) {
            Some(place) => Ok(ready.get(place).copied()),
            None => Ok(None),
        }
    }

    /// Fires what is picked.
    fn fire(&mut self, table: &Table, pick: usize) -> Result<(), AllocError> {
        match self.picked(table, pick)? {
            Some(firing) => self.take(table, firing),
            None => Ok(()),
        }
    }

    /// All firings that it took: the log, and then the parked ones in order.
    pub fn all(&self) -> Result<Vec<usize>, AllocError> {
        let mut all = Vec::new(self.alloc);
        for firing in self.log.iter() {
            all.push(*firing)?;
        }
        for (firing, stage) in self.stages.iter().enumerate() {
            if *stage == Stage::Parked {
                all.push(firing)?;
            }
        }
        Ok(all)
    }

    /// Saves all that it took.
    fn save(&mut self) -> Result<(), AllocError> {
        self.saved = self.all()?;
        Ok(())
    }

    /// Starts again in its next life, from all that it saved.
    fn restart(&mut self, table: &Table) -> Result<(), AllocError> {
        self.begin(table)?;
        for place in 0..self.saved.len() {
            if let Some(firing) = self.saved.get(place) {
                let firing = *firing;
                self.take(table, firing)?;
            }
        }
        Ok(())
    }

    /// Fires, saves or starts again: random lists keep all bytes of a save. No other event is one of its own.
    pub fn does(&mut self, table: &Table, event: &Event) -> Result<(), AllocError> {
        match event {
            Event::Fire { pick, .. } => self.fire(table, *pick),
            Event::Save { .. } => self.save(),
            Event::Restart { .. } => self.restart(table),
            _ => Err(AllocError),
        }
    }

    /// How much it has of the log of that replica.
    pub fn mark(&self, peer: u8) -> Mark {
        match self.marks.get(usize::from(peer).wrapping_sub(1)) {
            Some(mark) => *mark,
            None => Mark { life: 0, count: 0 },
        }
    }

    /// The part of the log that the asker lacks. It begins after what the asker has, if that is of
    /// this life.
    pub fn part_for(&self, ask: Ask) -> Result<Part, AllocError> {
        let len = self.log.len() as u64;
        let is_known = ask.life == self.life && ask.count <= len;
        let start = if is_known { ask.count } else { 0 };
        let mut firings = Vec::new(self.alloc);
        for (place, firing) in self.log.iter().enumerate() {
            if start <= place as u64 && firings.len() < 4096 {
                firings.push(*firing)?;
            }
        }
        Ok(Part {
            sender: ask.asked,
            receiver: ask.asker,
            life: self.life,
            start,
            firings,
        })
    }

    /// The mark for the part's sender, once the part was taken: it counts up to the part's end,
    /// if the part goes on from what is there or begins a later life.
    fn mark_after(&self, part: &Part) -> Mark {
        let mark = self.mark(part.sender);
        let end = part.start.saturating_add(part.firings.len() as u64);
        let goes_on = part.life == mark.life && part.start <= mark.count && mark.count < end;
        let begins = part.life > mark.life && part.start == 0;
        if goes_on || begins {
            Mark {
                life: part.life,
                count: end,
            }
        } else {
            mark
        }
    }

    /// Takes the part's firings, and moves the mark for its sender.
    pub fn receive(&mut self, table: &Table, part: &Part) -> Result<(), AllocError> {
        self.take_all(table, &part.firings)?;
        let mark = self.mark_after(part);
        if let Some(place) = self.marks.get_mut(usize::from(part.sender).wrapping_sub(1)) {
            *place = mark;
        }
        Ok(())
    }
}
