//! The destinations of a block that lead to one port.
use std::alloc::{AllocError, Global};
use u_program::{Block, Destination, Kind, Statement};

/// A port of a statement of a block: the statement's number and the port's, from 1.
#[derive(Clone, Copy)]
pub struct StatementPort(pub usize, pub usize);

impl StatementPort {
    /// Whether the destination is that port.
    fn is(self, to: &Destination) -> bool {
        usize::from(to.statement) == self.0 && usize::from(to.port) == self.1
    }
}

/// A destination that leads to a port, by where it stands.
#[derive(Clone, Copy)]
pub struct Source {
    /// The number of the statement that sends there, from 1.
    pub statement: usize,
    /// Whether it stands in the list on which a `switch` sends on false.
    pub on_false: bool,
    /// How many words stand between the statement's arrow and it.
    pub words: usize,
}

/// The statement of that number, which counts from 1.
pub fn statement_of(block: &Block, number: usize) -> Option<&Statement> {
    block.statements().get(number.wrapping_sub(1))
}

/// The kind of the statement of that number, if there is one.
pub fn kind_of(block: &Block, number: usize) -> Option<&Kind> {
    statement_of(block, number).map(|statement| statement.kind())
}

/// Whether some statement of the block sends to the port.
pub fn is_fed(block: &Block, to: StatementPort) -> bool {
    block.statements().iter().any(|statement| {
        let sent = statement.destinations().iter();
        sent.chain(statement.otherwise())
            .any(|destination| to.is(destination))
    })
}

/// Adds those destinations of the statement of that number that are the port.
fn add_sources(
    sources: &mut Vec<Source>,
    to: StatementPort,
    number: usize,
    statement: &Statement,
) -> Result<(), AllocError> {
    let on_true = statement.destinations();
    for (i, destination) in on_true.iter().chain(statement.otherwise()).enumerate() {
        if to.is(destination) {
            let on_false = i >= on_true.len();
            sources.push(Source {
                statement: number,
                on_false,
                words: i.saturating_add(usize::from(on_false)),
            })?;
        }
    }
    Ok(())
}

/// The destinations that lead to the port, in the order of the text.
///
/// # Errors
/// `AllocError` if there is no memory.
pub fn sources_of(
    alloc: Global,
    block: &Block,
    to: StatementPort,
) -> Result<Vec<Source>, AllocError> {
    let mut sources = Vec::new(alloc);
    for (i, statement) in block.statements().iter().enumerate() {
        add_sources(&mut sources, to, i + 1, statement)?;
    }
    Ok(sources)
}

/// Whether the destinations are several, and not just one of an `enter` and one of a `next`.
pub fn are_many(block: &Block, sources: &[Source]) -> bool {
    match sources {
        [] | [_] => false,
        [one, other] => !matches!(
            (
                kind_of(block, one.statement),
                kind_of(block, other.statement)
            ),
            (Some(Kind::Enter(_)), Some(Kind::Next)) | (Some(Kind::Next), Some(Kind::Enter(_)))
        ),
        _ => true,
    }
}
