//! Which statements a value comes to within one turn of a loop.
use crate::arcs::statement_of;
use std::alloc::{AllocError, Global};
use u_check::held_by;
use u_program::{Block, Kind, Statement};

/// The most regions that lie in one another: a block has 99 loops at most.
const DEEPEST: usize = 100;

/// Whether region `inner` is region `outer` or lies in it.
fn holds(block: &Block, outer: u8, inner: u8) -> bool {
    let mut region = inner;
    for _ in 0..DEEPEST {
        if region == outer {
            return true;
        }
        match held_by(block.loops(), region) {
            Some(holder) => region = holder,
            None => return false,
        }
    }
    false
}

/// Whether what the statement sends stays within one turn of each loop that holds the region: it is no
/// `next` of one of them.
pub fn stays(block: &Block, region: u8, statement: &Statement) -> bool {
    match statement.kind() {
        Kind::Next => !holds(block, statement.region(), region),
        _ => true,
    }
}

/// Marks the statement of that number. Whether it was not marked.
fn mark(marks: &mut [bool], number: usize) -> bool {
    if number < marks.len() && !marks[number] {
        marks[number] = true;
        return true;
    }
    false
}

/// Marks what the statement sends to, and the `back` that it names. Whether any was not marked.
fn mark_behind(marks: &mut [bool], statement: &Statement) -> bool {
    let mut more = match statement.kind() {
        Kind::Apply(named, _) => mark(marks, usize::from(*named)),
        _ => false,
    };
    for sent in statement.destinations().iter().chain(statement.otherwise()) {
        more |= mark(marks, usize::from(sent.statement));
    }
    more
}

/// Marks what the marked statements send to within one turn. Whether any was not marked.
fn sweep(marks: &mut [bool], block: &Block, region: u8) -> bool {
    let mut more = false;
    for (i, statement) in block.statements().iter().enumerate() {
        if marks.get(i + 1) == Some(&true) && stays(block, region, statement) {
            more |= mark_behind(marks, statement);
        }
    }
    more
}

/// For each number whether it is that of the statement of number `number`, or of one that a value
/// comes to from there within one turn.
///
/// # Errors
/// `AllocError` if there is no memory.
pub fn reached_from(alloc: Global, block: &Block, number: usize) -> Result<Vec<bool>, AllocError> {
    let count = block.statements().len();
    let mut marks = Vec::new(alloc);
    for other in 0..count + 1 {
        marks.push(other == number)?;
    }
    let region = match statement_of(block, number) {
        Some(statement) => statement.region(),
        None => 0,
    };
    for _ in 0..count {
        if !sweep(&mut marks, block, region) {
            break;
        }
    }
    Ok(marks)
}
