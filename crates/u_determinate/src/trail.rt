//! In which order the statements of a block are looked at: each behind those that its mark follows from,
//! so that one pass finds it. What is proved of the marks rests on no order.

use crate::incoming::{Link, Sources, statement_of};
use crate::marking::{is_marked, only_link};
use std::alloc::{AllocError, Global};
use u_program::{Destination, Kind, Statement};

/// What follows each statement of a block.
#[derive(Drop)]
pub(crate) struct Followers {
    /// Of an `enter` the first `leave` of its loop, of that each other one, and of an `apply` the `back`
    /// that it names.
    behind: Vec<Vec<usize>>,
    /// Of each loop the first `leave`.
    leaves: Vec<Option<usize>>,
    /// How many arcs lead to each port: six counts for each statement, the first of what stands behind it.
    counts: Vec<u32>,
    /// Of a `switch` the statement from which the only arc to its control comes.
    controls: Vec<Option<usize>>,
    /// Each `pass` to which that statement alone sends.
    passes: Vec<Vec<usize>>,
}

/// A list of statements, to which one comes where the last arc to some port of it was followed.
#[derive(Drop)]
pub(crate) struct Trail {
    /// How many arcs to each port were not followed.
    left: Vec<u32>,
    listed: Vec<bool>,
    numbers: Vec<usize>,
}

/// How many counts there are for each statement: of what stands behind it, and of five ports.
const COUNTS: usize = 6;

/// The place of the count of that port.
fn place_of(number: usize, port: u8) -> usize {
    number
        .saturating_mul(COUNTS)
        .saturating_add(usize::from(port))
}

/// Counts one more.
fn count_one(counts: &mut [u32], place: usize) {
    if let Some(count) = counts.get_mut(place) {
        *count = count.saturating_add(1);
    }
}

/// Adds the number to that list.
fn add(lists: &mut [Vec<usize>], place: usize, number: usize) -> Result<(), AllocError> {
    if let Some(list) = lists.get_mut(place) {
        list.push(number)?;
    }
    Ok(())
}

impl Followers {
    /// Takes note that statement `number` stands behind the other.
    fn note_behind(&mut self, number: usize, other: usize) -> Result<(), AllocError> {
        count_one(&mut self.counts, place_of(number, 0));
        add(&mut self.behind, other, number)
    }

    /// Counts the arcs that lead to statement `number`.
    fn count_arcs(&mut self, number: usize, links: &[Link]) {
        for link in links {
            count_one(&mut self.counts, place_of(number, link.port));
        }
    }

    /// Counts what stands behind statement `number`. A `leave` behind another one of its loop stands
    /// behind that alone, since the same stands behind both.
    fn count_behind(
        &mut self,
        statements: &[Statement],
        number: usize,
        behind: &[usize],
    ) -> Result<(), AllocError> {
        if let Some(first) = self.leave_before(statements, number) {
            return self.note_behind(number, first);
        }
        for other in behind {
            self.note_behind(number, *other)?;
        }
        Ok(())
    }

    /// Of a `leave` behind another one of its loop the first one.
    pub(crate) fn leave_before(&self, statements: &[Statement], number: usize) -> Option<usize> {
        let statement = statement_of(statements, number)?;
        let first = (*self.leaves.get(usize::from(statement.region()))?)?;
        if matches!(statement.kind(), Kind::Leave) && first < number {
            Some(first)
        } else {
            None
        }
    }

    /// Takes note of a `switch` and of a `pass`, by the only arc to the port that counts.
    fn note(
        &mut self,
        statements: &[Statement],
        number: usize,
        sources: &Sources,
    ) -> Result<(), AllocError> {
        let mut control = None;
        if let Some(statement) = statement_of(statements, number) {
            match statement.kind() {
                Kind::Switch => control = only_link(&sources.links, 2),
                Kind::Pass => self.note_pass(number, only_link(&sources.links, 1))?,
                _ => (),
            }
        }
        self.controls.push(control.map(|link| link.statement))?;
        Ok(())
    }

    /// Takes note of a `pass` with that only arc.
    fn note_pass(&mut self, number: usize, link: Option<Link>) -> Result<(), AllocError> {
        match link {
            Some(link) => add(&mut self.passes, link.statement, number),
            None => Ok(()),
        }
    }

    /// Whether the control of some `switch` is marked.
    fn turns_any(&self, passed: &[bool]) -> bool {
        for control in &self.controls {
            if let Some(number) = control {
                if is_marked(passed, *number) {
                    return true;
                }
            }
        }
        false
    }

    /// Of a `switch` the statement from which the only arc to its control comes.
    pub(crate) fn control(&self, number: usize) -> Option<usize> {
        *self.controls.get(number)?
    }

    /// Whether statement `number` is a `switch` whose control is marked.
    fn turns(&self, passed: &[bool], number: usize) -> bool {
        match self.control(number) {
            Some(control) => is_marked(passed, control),
            None => false,
        }
    }
}

/// So many empty lists.
fn empty_lists(alloc: Global, count: usize) -> Result<Vec<Vec<usize>>, AllocError> {
    let mut all = Vec::new(alloc);
    for _ in 0..count {
        all.push(Vec::new(alloc))?;
    }
    Ok(all)
}

/// The first `leave` of each loop.
fn first_leaves(alloc: Global, statements: &[Statement]) -> Result<Vec<Option<usize>>, AllocError> {
    let mut leaves = vec![in alloc; None; 256]?;
    for (i, statement) in statements.iter().enumerate() {
        if let (Kind::Leave, Some(first)) = (
            statement.kind(),
            leaves.get_mut(usize::from(statement.region())),
        ) {
            if first.is_none() {
                *first = Some(i + 1);
            }
        }
    }
    Ok(leaves)
}

/// What follows each of the statements, by what leads to each.
pub(crate) fn ahead_of(
    alloc: Global,
    statements: &[Statement],
    sources: &[Sources],
) -> Result<Followers, AllocError> {
    let mut ahead = Followers {
        behind: empty_lists(alloc, sources.len())?,
        leaves: first_leaves(alloc, statements)?,
        counts: vec![in alloc; 0; sources.len().saturating_mul(COUNTS)]?,
        controls: Vec::new(alloc),
        passes: empty_lists(alloc, sources.len())?,
    };
    for (number, leading) in sources.iter().enumerate() {
        ahead.count_arcs(number, &leading.links);
        ahead.count_behind(statements, number, &leading.behind)?;
        ahead.note(statements, number, leading)?;
    }
    Ok(ahead)
}

impl Trail {
    /// A list of none.
    fn new(alloc: Global, ahead: &Followers) -> Result<Trail, AllocError> {
        Ok(Trail {
            left: ahead.counts.clone()?,
            listed: vec![in alloc; false; ahead.behind.len()]?,
            numbers: Vec::new(alloc),
        })
    }

    /// Lists the statement, if it is not listed.
    fn list(&mut self, number: usize) -> Result<(), AllocError> {
        match self.listed.get_mut(number) {
            Some(listed) if !*listed => {
                *listed = true;
                self.numbers.push(number)?;
                Ok(())
            }
            _ => Ok(()),
        }
    }

    /// Follows an arc to that port.
    fn follow(&mut self, number: usize, port: u8) -> Result<(), AllocError> {
        let Some(left) = self.left.get_mut(place_of(number, port)) else {
            return Ok(());
        };
        *left = left.saturating_sub(1);
        if *left == 0 {
            self.list(number)
        } else {
            Ok(())
        }
    }

    /// Follows the arcs of the list.
    fn follow_list(&mut self, list: &[Destination]) -> Result<(), AllocError> {
        for destination in list {
            self.follow(usize::from(destination.statement), destination.port)?;
        }
        Ok(())
    }

    /// Follows both lists of the statement.
    fn follow_lists(&mut self, statement: &Statement) -> Result<(), AllocError> {
        self.follow_list(statement.destinations())?;
        self.follow_list(statement.otherwise())
    }

    /// Follows what stands behind a statement.
    fn follow_behind(&mut self, behind: &[usize]) -> Result<(), AllocError> {
        for number in behind {
            self.follow(*number, 0)?;
        }
        Ok(())
    }
}

/// The list of the number at that place.
fn passes_at<'a>(passes: &'a [Vec<usize>], numbers: &[usize], at: usize) -> Option<&'a Vec<usize>> {
    passes.get(*numbers.get(at)?)
}

/// The statements of a block, and what follows each.
#[derive(Clone, Copy)]
pub(crate) struct Course<'a> {
    pub statements: &'a [Statement],
    pub ahead: &'a Followers,
}

impl Course<'_> {
    /// The statements that hand on what the control gives.
    pub(crate) fn passing(&self, alloc: Global, control: usize) -> Result<Vec<usize>, AllocError> {
        let mut numbers = Vec::new(alloc);
        numbers.push(control)?;
        for at in 0..self.statements.len() + 1 {
            let Some(passes) = passes_at(&self.ahead.passes, &numbers, at) else {
                break;
            };
            numbers.extend_from_slice(passes)?;
        }
        Ok(numbers)
    }

    /// Goes on from a `switch` whose control is marked, by its list for that truth value.
    fn turn(
        &self,
        passed: &[bool],
        value: bool,
        trail: &mut Trail,
        number: usize,
    ) -> Result<(), AllocError> {
        if !self.ahead.turns(passed, number) {
            return Ok(());
        }
        match statement_of(self.statements, number) {
            Some(switch) if value => trail.follow_list(switch.destinations()),
            Some(switch) => trail.follow_list(switch.otherwise()),
            None => Ok(()),
        }
    }

    /// What stands behind statement `number`.
    fn behind(&self, number: usize) -> &[usize] {
        match self.ahead.behind.get(number) {
            Some(behind) => behind,
            None => &[],
        }
    }

    /// Goes on from statement `number`, save by the arcs that were followed from the first on.
    fn go_on(
        &self,
        passed: &[bool],
        value: bool,
        trail: &mut Trail,
        number: usize,
    ) -> Result<(), AllocError> {
        let Some(statement) = statement_of(self.statements, number) else {
            return Ok(());
        };
        match statement.kind() {
            Kind::Next | Kind::Last => Ok(()),
            Kind::Enter(_) | Kind::Apply(_, _) => trail.follow_behind(self.behind(number)),
            Kind::Leave => {
                trail.follow_behind(self.behind(number))?;
                trail.follow_lists(statement)
            }
            Kind::Switch if self.ahead.turns(passed, number) => {
                self.turn(passed, !value, trail, number)
            }
            _ => trail.follow_lists(statement),
        }
    }

    /// Goes on from each `switch` whose control is marked, by its list for that truth value.
    fn turned(&self, alloc: Global, passed: &[bool], value: bool) -> Result<Trail, AllocError> {
        let mut trail = Trail::new(alloc, self.ahead)?;
        for number in 0..self.statements.len() + 1 {
            self.turn(passed, value, &mut trail, number)?;
        }
        Ok(trail)
    }

    /// The statements that may fire only if the control gives that truth value, where the marked ones
    /// hand it on.
    pub(crate) fn turning(
        &self,
        alloc: Global,
        passed: &[bool],
        value: bool,
    ) -> Result<Vec<usize>, AllocError> {
        if !self.ahead.turns_any(passed) {
            return Ok(Vec::new(alloc));
        }
        let mut trail = self.turned(alloc, passed, value)?;
        for at in 0..self.statements.len() + 1 {
            let Some(number) = trail.numbers.get(at).copied() else {
                break;
            };
            self.go_on(passed, value, &mut trail, number)?;
        }
        Ok(trail.numbers)
    }
}
