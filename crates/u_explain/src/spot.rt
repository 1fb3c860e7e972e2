//! A statement or a loop that a sentence tells of, and the lines that are shown of its block.
use crate::arcs::{Source, StatementPort, statement_of};
use crate::scanning::{BlockLine, line_of};
use crate::source::Marked;
use crate::telling::{Named, Quoted, Told};
use crate::words::start_of;
use u_program::{Block, Kind, Program, Statement};

/// How many lines are shown after a sentence.
const SEEN: usize = 4;

/// A statement or a loop that a sentence tells of.
#[derive(Clone, Copy)]
pub struct Spot<'a> {
    /// The program's text.
    bytes: &'a [u8],
    /// The number of its block, from 1.
    block_number: usize,
    /// Its block.
    pub block: &'a Block,
    /// Its number, from 1: that of a statement, or of a loop.
    pub number: usize,
}

/// The index of the first word after the arrow in the line of a statement of that kind, which lists
/// destinations.
pub fn behind_arrow(kind: &Kind) -> usize {
    match kind {
        Kind::Const(_) | Kind::Enter(_) | Kind::Param(_) => 5,
        _ => 4,
    }
}

impl<'a> Spot<'a> {
    /// The statement or the loop of that number in the block of that number, if there is such a block.
    /// `bytes` are the program's text.
    pub fn new(
        bytes: &'a [u8],
        program: &'a Program,
        block_number: usize,
        number: usize,
    ) -> Option<Spot<'a>> {
        let block = program.blocks().get(block_number.wrapping_sub(1))?;
        Some(Spot {
            bytes,
            block_number,
            block,
            number,
        })
    }

    /// The statement.
    pub fn statement(&self) -> Option<&'a Statement> {
        statement_of(self.block, self.number)
    }

    /// The region that the statement lies in; 0 if there is no such statement.
    pub fn region(&self) -> u8 {
        match self.statement() {
            Some(statement) => statement.region(),
            None => 0,
        }
    }

    /// That port of the statement.
    pub fn port(&self, port: usize) -> StatementPort {
        StatementPort(self.number, port)
    }

    /// The statement of that number of the block, in a sentence.
    pub fn named(&self, number: usize) -> Named<'a> {
        Named(number, statement_of(self.block, number))
    }

    /// Appends that line of the block, with a mark under the word of that index.
    pub fn show_line(&self, out: &mut String, part: BlockLine, word: usize) -> Told {
        let Some((number, line)) = line_of(self.bytes, self.block_number, part) else {
            return Ok(());
        };
        let offset = start_of(line, word);
        write!(
            out,
            "{}",
            Marked {
                number,
                line,
                offset
            }
        )
    }

    /// Appends the line in which its block begins, and then its own, with a mark under the word of that
    /// index.
    pub fn show(&self, out: &mut String, part: BlockLine, word: usize) -> Told {
        let line = match line_of(self.bytes, self.block_number, BlockLine::Block) {
            Some((line, _)) => line,
            None => 0,
        };
        let name = Quoted(self.block.name().as_bytes());
        writeln!(out, "block {name}, which begins in line {line}")?;
        self.show_line(out, part, word)
    }

    /// Appends `see:` and the lines of the first of these statements, each with a mark under its kind.
    pub fn see(&self, out: &mut String, numbers: &[usize]) -> Told {
        out.push_str("see:\n")?;
        for number in numbers.iter().take(SEEN) {
            self.show_line(out, BlockLine::Statement(*number), 2)?;
        }
        tell_left(out, numbers.len())
    }

    /// Appends the lines of the first of these destinations, each with a mark under it.
    pub fn show_sources(&self, out: &mut String, sources: &[Source]) -> Told {
        for source in sources.iter().take(SEEN) {
            let first = match statement_of(self.block, source.statement) {
                Some(statement) => behind_arrow(statement.kind()),
                None => 0,
            };
            let word = source.words.saturating_add(first);
            self.show_line(out, BlockLine::Statement(source.statement), word)?;
        }
        tell_left(out, sources.len())
    }
}

/// Appends how many of so many lines are not shown, if there are such.
fn tell_left(out: &mut String, count: usize) -> Told {
    if count > SEEN {
        writeln!(out, "and {} more", count - SEEN)?;
    }
    Ok(())
}
