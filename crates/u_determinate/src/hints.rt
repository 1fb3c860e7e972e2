//! Which control may exclude two arcs, or two statements. A hint is asked before all controls are, and
//! nothing that is proved rests on it.

use crate::incoming::{Link, statement_of};
use crate::marking::{Flow, is_marked};
use crate::sides::ControlMarks;
use std::alloc::{AllocError, Global};
use u_program::Kind;

/// The controls, as bits, whose guard something has for true, and for false.
#[derive(Drop)]
struct Sides {
    on_true: Vec<u64>,
    on_false: Vec<u64>,
}

/// By their numbers, which guards the statements have, and the arcs in each of their lists.
#[derive(Drop)]
pub(crate) struct Hints {
    statements: Vec<Sides>,
    arcs: Vec<Sides>,
    arcs_on_false: Vec<Sides>,
}

/// Sets the bit of that number.
fn set(row: &mut [u64], number: usize) {
    if let Some(word) = row.get_mut(number / 64) {
        *word |= 1u64 << (number % 64);
    }
}

/// Adds the bits of the other row.
fn join(row: &mut [u64], other: &[u64]) {
    for (word, more) in row.iter_mut().zip(other) {
        *word |= *more;
    }
}

/// Keeps what the other row has too.
fn keep(row: &mut [u64], other: &[u64]) {
    for (word, more) in row.iter_mut().zip(other) {
        *word &= *more;
    }
}

/// A number whose bit both rows have.
fn common(one: &[u64], other: &[u64]) -> Option<usize> {
    for k in 0..one.len() {
        let both = one[k] & other.get(k).copied().unwrap_or(0);
        if both != 0 {
            let bit = both.trailing_zeros() as usize;
            return Some(k.saturating_mul(64).saturating_add(bit));
        }
    }
    None
}

impl Sides {
    /// A copy.
    fn copy(&self) -> Result<Sides, AllocError> {
        Ok(Sides {
            on_true: self.on_true.clone()?,
            on_false: self.on_false.clone()?,
        })
    }

    /// Keeps what the other has too.
    fn keep(&mut self, other: &Sides) {
        keep(&mut self.on_true, &other.on_true);
        keep(&mut self.on_false, &other.on_false);
    }

    /// A control whose guard one has for one truth value, and the other for the other one.
    fn opposed(&self, other: &Sides) -> Option<usize> {
        match common(&self.on_true, &other.on_false) {
            Some(control) => Some(control),
            None => common(&self.on_false, &other.on_true),
        }
    }
}

/// The rows of no control.
fn no_sides(alloc: Global, count: usize) -> Result<Sides, AllocError> {
    Ok(Sides {
        on_true: vec![in alloc; 0; count / 64 + 1]?,
        on_false: vec![in alloc; 0; count / 64 + 1]?,
    })
}

/// The controls whose value that statement hands on.
fn passed_row(
    alloc: Global,
    guards: &[ControlMarks],
    number: usize,
) -> Result<Vec<u64>, AllocError> {
    let mut row = vec![in alloc; 0; guards.len() / 64 + 1]?;
    for marks in guards {
        if is_marked(&marks.passed, number) {
            set(&mut row, marks.control);
        }
    }
    Ok(row)
}

/// So many rows of no control.
fn empty_sides(alloc: Global, count: usize) -> Result<Vec<Sides>, AllocError> {
    let mut all = Vec::new(alloc);
    for _ in 0..count {
        all.push(no_sides(alloc, count)?)?;
    }
    Ok(all)
}

impl Hints {
    /// Adds which statements each control guards.
    fn add_all(&mut self, guards: &[ControlMarks]) {
        for marks in guards {
            self.add(marks);
        }
    }

    /// Adds which statements the control guards.
    fn add(&mut self, guards: &ControlMarks) {
        for (number, sides) in self.statements.iter_mut().enumerate() {
            if is_marked(&guards.on_true, number) {
                set(&mut sides.on_true, guards.control);
            }
            if is_marked(&guards.on_false, number) {
                set(&mut sides.on_false, guards.control);
            }
        }
    }

    /// The guards that each of the statements has.
    fn shared(&self, alloc: Global, numbers: &[usize]) -> Result<Sides, AllocError> {
        let mut shared = None;
        for number in numbers {
            if let Some(sides) = self.statements.get(*number) {
                match &mut shared {
                    None => shared = Some(sides.copy()?),
                    Some(all) => all.keep(sides),
                }
            }
        }
        match shared {
            Some(sides) => Ok(sides),
            None => no_sides(alloc, self.statements.len()),
        }
    }

    /// The guards that an arc from statement `number` has by that statement's own ones.
    fn handed(&self, alloc: Global, flow: Flow<'_>, number: usize) -> Result<Sides, AllocError> {
        let kind = match statement_of(flow.statements, number) {
            Some(statement) => statement.kind(),
            None => return no_sides(alloc, self.statements.len()),
        };
        if let Some(first) = flow.ahead.leave_before(flow.statements, number) {
            if let Some(arcs) = self.arcs.get(first) {
                return arcs.copy();
            }
        }
        match (kind, flow.sources.get(number)) {
            (Kind::Enter(_) | Kind::Next | Kind::Last, _) => {
                no_sides(alloc, self.statements.len())
            }
            (Kind::Leave, Some(sources)) => self.shared(alloc, &sources.behind),
            _ => self.shared(alloc, &[number]),
        }
    }

    /// Adds the guards of the arcs from statement `number`.
    fn add_arcs(
        &mut self,
        alloc: Global,
        flow: Flow<'_>,
        guards: &[ControlMarks],
        number: usize,
    ) -> Result<(), AllocError> {
        let mut arcs = self.handed(alloc, flow, number)?;
        let mut arcs_on_false = arcs.copy()?;
        if let Some(control) = flow.ahead.control(number) {
            let row = passed_row(alloc, guards, control)?;
            join(&mut arcs.on_true, &row);
            join(&mut arcs_on_false.on_false, &row);
        }
        self.arcs.push(arcs)?;
        self.arcs_on_false.push(arcs_on_false)?;
        Ok(())
    }

    /// The guards of the arc.
    fn of_arc(&self, link: &Link) -> Option<&Sides> {
        if link.on_false {
            self.arcs_on_false.get(link.statement)
        } else {
            self.arcs.get(link.statement)
        }
    }

    /// A control that may exclude one of the arcs by the other.
    pub(crate) fn of_arcs(&self, one: &Link, other: &Link) -> Option<usize> {
        self.of_arc(one)?.opposed(self.of_arc(other)?)
    }

    /// A control that may exclude one of the statements by the other.
    pub(crate) fn of_statements(&self, one: usize, other: usize) -> Option<usize> {
        let sides = self.statements.get(one)?;
        sides.opposed(self.statements.get(other)?)
    }
}

/// The hints that the guards of a block give.
pub(crate) fn hints_of(
    alloc: Global,
    flow: Flow<'_>,
    guards: &[ControlMarks],
) -> Result<Hints, AllocError> {
    let mut hints = Hints {
        statements: empty_sides(alloc, guards.len())?,
        arcs: Vec::new(alloc),
        arcs_on_false: Vec::new(alloc),
    };
    hints.add_all(guards);
    for number in 0..guards.len() {
        hints.add_arcs(alloc, flow, guards, number)?;
    }
    Ok(hints)
}
