//! The statement on which a `next` or a `last` depends.
use crate::arcs::{Source, StatementPort, kind_of, sources_of};
use std::alloc::{AllocError, Global};
use u_program::{Block, Kind, Statement};

/// The statement on which a `next` or a `last` depends, since it takes its value from the right list of a
/// `switch` whose control comes from that one alone; or why it depends on none.
pub type Test = Result<usize, &'static str>;

/// A statement of a loop that ends its turn, a `next` or a `last`: its number, and what it depends on.
pub type TurnEnd = (usize, Test);

/// The only destination that leads to that port of the statement of that number, if there is one alone.
fn only_source(
    alloc: Global,
    block: &Block,
    statement: usize,
    port: usize,
) -> Result<Option<Source>, AllocError> {
    let sources = sources_of(alloc, block, StatementPort(statement, port))?;
    match sources.as_slice() {
        [one] => Ok(Some(*one)),
        _ => Ok(None),
    }
}

/// What the statement of that number depends on, which takes its value from that list of a `switch`.
fn depends_on(
    alloc: Global,
    block: &Block,
    number: usize,
    on_false: bool,
) -> Result<Test, AllocError> {
    let Some(source) = only_source(alloc, block, number, 1)? else {
        return Ok(Err("takes its value from several destinations"));
    };
    if !matches!(kind_of(block, source.statement), Some(Kind::Switch)) {
        return Ok(Err("takes its value from no `switch`"));
    }
    if source.on_false != on_false {
        return Ok(Err(
            "takes its value from the wrong list of a `switch`: a `next` takes it from the list for true, \
                before the `/`, and a `last` from that for false",
        ));
    }
    match only_source(alloc, block, source.statement, 2)? {
        Some(test) => Ok(Ok(test.statement)),
        None => Ok(Err(
            "takes its value from a `switch` to whose control several destinations lead",
        )),
    }
}

/// Whether the statement takes its value from the list of a `switch` for false, if it ends turns of that
/// loop: a `last` does, and a `next` takes it from the other one.
fn exit_side(statement: &Statement, region: usize) -> Option<bool> {
    match statement.kind() {
        Kind::Next if usize::from(statement.region()) == region => Some(false),
        Kind::Last if usize::from(statement.region()) == region => Some(true),
        _ => None,
    }
}

/// What each `next` and each `last` of the loop of that number depends on, in the order of the text.
///
/// # Errors
/// `AllocError` if there is no memory.
pub fn exits_of(alloc: Global, block: &Block, region: usize) -> Result<Vec<TurnEnd>, AllocError> {
    let mut exits = Vec::new(alloc);
    for (i, statement) in block.statements().iter().enumerate() {
        if let Some(on_false) = exit_side(statement, region) {
            exits.push((i + 1, depends_on(alloc, block, i + 1, on_false)?))?;
        }
    }
    Ok(exits)
}

/// The first of them that depends on no test, and why.
pub fn first_amiss(exits: &[TurnEnd]) -> Option<(usize, &'static str)> {
    exits.iter().find_map(|exit| match exit.1 {
        Ok(_) => None,
        Err(why) => Some((exit.0, why)),
    })
}

/// The first of them that depends on a test, and the test: on another one than that, if one is given.
pub fn first_tested(exits: &[TurnEnd], but: Option<usize>) -> Option<(usize, usize)> {
    exits.iter().find_map(|exit| match exit.1 {
        Ok(test) if Some(test) != but => Some((exit.0, test)),
        _ => None,
    })
}
