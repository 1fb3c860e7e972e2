//! A program of which some lines were read.
ghost use Rattle.std.specs.Prelude.{◌≡◌, ◌++◌, ◌∷◌, [], MatchResult, IfOk};
ghost use Rattle.u_program.specs.declared.reading.Line.TheVariants as variants;
ghost use Rattle.u_program.specs.Text.{header, block_line, loop_line, statement_line};
ghost use Rattle.u_program.specs.Limits.{IsProgram, limits_of};
ghost use Rattle.u_program.specs.Parts.{program};
ghost use Rattle.u_program.specs.Begun.{IsLine, part_lines, IsPart};
ghost use Rattle.u_program.specs.Faults.{IsLineFault};

use crate::program::{Block, Program, Statement, Version};
use crate::reading::{Line, WordFault, read_line};
use std::alloc::{AllocFailed, Global};
use u_name::BlockName;

/// Whole blocks, and one that may go on.
#[derive(Drop)]
pub struct PartialProgram {
    /// The blocks before the last one, which all have statements.
    pub done: Vec<Block>,
    /// The last block, which may have none yet.
    pub last: Block,
}

/// Why a line may not go on behind what was read.
#[derive(Debug, Drop)]
pub enum LineFault {
    /// It is not allowed.
    Bad,
    /// It is not allowed, and is so only for a limit on the number of parts.
    TooMany,
    /// There is no memory.
    NoMemory,
}

impl<T: Drop> From<AllocFailed<T>> for LineFault {
    ghost use Rattle.u_program.specs.declared.part.LineFault.TheVariants as faults;

    ghost from_gives = { λ _ e. e ≡ faults.NoMemory };

    fn from(_: AllocFailed<T>) -> LineFault {
        LineFault::NoMemory
    }
}

impl PartialProgram {
    /// The part with the line that begins a block.
    #[tactic(auto, using(crate::proofs::Steps::block_closed, crate::proofs::Steps::block_over, crate::proofs::Steps::block_taken))]
    fn with_block(
        self,
        alloc: Global,
        version: Version,
        name: BlockName,
    ) -> Result<PartialProgram, LineFault>
        requires part { IsPart (limits_of version) self.done.items self.last }
        ensures { MatchResult result
            (λ new. IsPart (limits_of version) new.done.items new.last
            × (part_lines version new.done.items new.last
            ≡ part_lines version self.done.items self.last ++ (block_line name ∷ [])))
            (λ fault. IsLineFault fault
            (header version ∷ part_lines version self.done.items self.last) (block_line name)) }
    {
        // Brings in that the block's name is one: 1 to 16 letters, digits and `_`.
        let _ = name.as_bytes();
        let PartialProgram { mut done, last } = self;
        if last.statements().len() == 0 {
            return Err(LineFault::Bad);
        }
        if done.len() == 63 {
            return Err(LineFault::TooMany);
        }
        done.push(last)?;
        Ok(PartialProgram {
            done,
            last: Block::new(alloc, name),
        })
    }

    /// The part with the line of a loop.
    #[tactic(auto, using(crate::proofs::Steps::loop_wrong, crate::proofs::Steps::loop_over, crate::proofs::Steps::loop_taken))]
    fn with_loop(
        self,
        version: Version,
        number: u32,
        held_by: u8,
    ) -> Result<PartialProgram, LineFault>
        requires part { IsPart (limits_of version) self.done.items self.last }
        requires line { IsLine version (variants.Loop number held_by) }
        ensures { MatchResult result
            (λ new. IsPart (limits_of version) new.done.items new.last
            × (part_lines version new.done.items new.last
            ≡ part_lines version self.done.items self.last ++ (loop_line number held_by ∷ [])))
            (λ fault. IsLineFault fault
            (header version ∷ part_lines version self.done.items self.last)
            (loop_line number held_by)) }
    {
        let PartialProgram { done, last } = self;
        if last.statements().len() != 0 {
            return Err(LineFault::Bad);
        }
        if number as usize != last.loops().len() + 1 || u32::from(held_by) >= number {
            return Err(LineFault::Bad);
        }
        if number > 99 {
            return Err(LineFault::TooMany);
        }
        let last = last.with_loop(held_by)?;
        Ok(PartialProgram { done, last })
    }

    /// The part with the line of a statement.
    #[tactic(auto, using(crate::proofs::Steps::number_wrong, crate::proofs::Steps::statement_over, crate::proofs::Steps::statement_taken))]
    fn with_statement(
        self,
        version: Version,
        number: u32,
        statement: Statement,
    ) -> Result<PartialProgram, LineFault>
        requires part { IsPart (limits_of version) self.done.items self.last }
        requires line { IsLine version (variants.Statement number statement) }
        ensures { MatchResult result
            (λ new. IsPart (limits_of version) new.done.items new.last
            × (part_lines version new.done.items new.last
            ≡ part_lines version self.done.items self.last
            ++ (statement_line version number statement ∷ [])))
            (λ fault. IsLineFault fault
            (header version ∷ part_lines version self.done.items self.last)
            (statement_line version number statement)) }
    {
        let PartialProgram { done, last } = self;
        if number as usize != last.statements().len() + 1 {
            return Err(LineFault::Bad);
        }
        if number > 999 {
            return Err(LineFault::TooMany);
        }
        if statement.destinations().len() > 16 || statement.otherwise().len() > 16 {
            return Err(LineFault::TooMany);
        }
        let last = last.with(statement)?;
        Ok(PartialProgram { done, last })
    }

    /// The part with one more line, which says why where it may not go on so.
    #[tactic(auto, using(crate::proofs::LineLaws::line_sound, crate::proofs::Steps::no_line))]
    pub fn with_line(
        self,
        alloc: Global,
        version: Version,
        text: &[u8],
    ) -> Result<PartialProgram, LineFault>
        requires part { IsPart (limits_of version) self.done.items self.last }
        ensures { MatchResult result
            (λ new. IsPart (limits_of version) new.done.items new.last
            × (part_lines version new.done.items new.last
            ≡ part_lines version self.done.items self.last ++ (text.now ∷ [])))
            (λ fault. IsLineFault fault
            (header version ∷ part_lines version self.done.items self.last) text.now) }
    {
        let line = match read_line(alloc, version, text) {
            Ok(line) => line,
            Err(WordFault::Bad) => return Err(LineFault::Bad),
            Err(WordFault::NoMemory) => return Err(LineFault::NoMemory),
        };
        match line {
            Line::Block(name) => self.with_block(alloc, version, name),
            Line::Loop(number, held_by) => self.with_loop(version, number, held_by),
            Line::Statement(number, statement) => self.with_statement(version, number, statement),
        }
    }

    /// The part that one line behind the header begins.
    #[tactic(auto, using(crate::proofs::Whole::first_part))]
    pub fn first(alloc: Global, version: Version, text: &[u8]) -> Result<PartialProgram, LineFault>
        ensures { MatchResult result
            (λ new. IsPart (limits_of version) new.done.items new.last
            × (part_lines version new.done.items new.last
            ≡ text.now ∷ []))
            (λ fault. IsLineFault fault (header version ∷ []) text.now) }
    {
        let line = match read_line(alloc, version, text) {
            Ok(line) => line,
            Err(WordFault::Bad) => return Err(LineFault::Bad),
            Err(WordFault::NoMemory) => return Err(LineFault::NoMemory),
        };
        let name = match line {
            Line::Block(name) => name,
            Line::Loop(_, _) => return Err(LineFault::Bad),
            Line::Statement(_, _) => return Err(LineFault::Bad),
        };
        Ok(PartialProgram {
            done: Vec::new(alloc),
            last: Block::new(alloc, name),
        })
    }

    /// The program that ends here.
    pub fn finish(self, version: Version) -> Result<Program, AllocFailed<Block>>
        requires { IsProgram (limits_of version) (self.done.items ++ (self.last ∷ [])) }
        ensures { IfOk result (λ p. p ≡ program version (self.done.items ++ (self.last ∷ []))) }
    {
        let PartialProgram { mut done, last } = self;
        done.push(last)?;
        Ok(Program::new(version, done))
    }
}
