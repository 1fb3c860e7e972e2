//! Programs: blocks of numbered statements.
//!
//! Contracts see a program as a record of its version and its blocks, so one reader, one writer and one
//! rule serve both versions. How many arguments an `apply` has, and which parameter a `param` is, are types
//! of a few values, so no statement has more than five ports. The line of a loop names the loop that holds
//! it, an earlier one or 0, so loops nest without circles. `lift` takes the program, and so takes no
//! memory.
ghost use Rattle.std.specs.Prelude.{◌≡◌, ◌++◌, ◌∷◌, [], length, IfOk};
ghost use Rattle.u_program.specs.Limits.{IsProgram, the_limits, limits_of, count_of, place_of};
ghost use Rattle.u_program.specs.Parts.{statement, block, program};
ghost use Rattle.u_program.specs.declared.program.Version.TheVariants as versions;

use std::alloc::{AllocFailed, Global};
use std::marker::Model;
use u_name::BlockName;
use u_value::{BinaryOperator, UnaryOperator};

/// The version of a program's text. Both run alike; version 2 has what version 1 has, and besides it
/// procedures of up to four parameters.
#[derive(Clone, Copy, Debug, PartialEq, Eq)]
pub enum Version {
    /// Its first line is `u-program 1`.
    One,
    /// Its first line is `u-program 2`.
    Two,
}

/// How many arguments an `apply` has.
#[derive(Clone, Copy, Debug, PartialEq, Eq)]
pub enum Arguments {
    /// One, as each `apply` of version 1 has.
    One,
    /// Two.
    Two,
    /// Three.
    Three,
    /// Four.
    Four,
}

impl Arguments {
    /// How many they are, 1 to 4.
    pub fn count(self) -> u8
        ensures { result ≡ count_of self }
    {
        match self {
            Arguments::One => 1,
            Arguments::Two => 2,
            Arguments::Three => 3,
            Arguments::Four => 4,
        }
    }
}

/// A parameter of a block behind the first, which `begin` takes.
#[derive(Clone, Copy, Debug, PartialEq, Eq)]
pub enum Parameter {
    /// The second.
    Second,
    /// The third.
    Third,
    /// The fourth.
    Fourth,
}

impl Parameter {
    /// Its place among the block's parameters, 2 to 4.
    pub fn place(self) -> u8
        ensures { result ≡ place_of self }
    {
        match self {
            Parameter::Second => 2,
            Parameter::Third => 3,
            Parameter::Fourth => 4,
        }
    }
}

/// Where a value goes: a port of a statement of the same block.
#[derive(Clone, Copy, Debug, PartialEq, Eq)]
pub struct Destination {
    /// The statement's number, 1 to 999.
    pub statement: u16,
    /// The port, 1 to 5; in a program of version 1, 1 to 3.
    pub port: u8,
}

/// What a `const` statement gives.
#[derive(Clone, Copy, PartialEq, Eq)]
pub enum Constant {
    /// A number.
    Int(i64),
    /// A truth value.
    Bool(bool),
    /// A procedure, by the name of its block.
    Proc(BlockName),
}

/// What a statement does.
#[derive(Clone, Copy, PartialEq, Eq)]
pub enum Kind {
    /// Hands on the argument of its block; of several, the first.
    Begin,
    /// Hands on a further argument of its block. Version 2 has it.
    Param(Parameter),
    /// Gives a constant.
    Const(Constant),
    /// Hands on a value.
    Pass,
    /// Gives what the operator makes of a value.
    Unary(UnaryOperator),
    /// Gives what the operator makes of two values.
    Binary(BinaryOperator),
    /// Gives one of two values, which a truth value before them chooses.
    Select,
    /// Hands on its first value to one of two lists, which the truth value behind it chooses.
    Switch,
    /// Hands on a value into the loop of that number, 1 to 99.
    Enter(u8),
    /// Hands on a value to the next initiation of its loop.
    Next,
    /// Hands on a value to the first initiation of its loop.
    Last,
    /// Hands on a value out of its loop.
    Leave,
    /// Calls a procedure on as many arguments; its result comes back at the `back` of that number, 1 to
    /// 999. In version 1 there is one argument.
    Apply(u16, Arguments),
    /// Hands on the result of a call.
    Back,
    /// Makes a structure of as many cells as its value says, 0 to 1000000, and gives a reference to it.
    Alloc,
    /// Writes its third value into the cell of the structure that its second value says, and sends nothing.
    Store,
    /// Gives what is written in the cell of the structure that its second value says, once it is written.
    Fetch,
    /// Asks the service of that name about as many values, and gives a reference to a structure of one
    /// cell, which a reply writes.
    Ask(BlockName, Arguments),
    /// Hands on the result of its block.
    End,
}

/// A numbered statement of a block.
#[derive(Drop)]
pub struct Statement {
    region: u8,
    kind: Kind,
    to: Vec<Destination>,
    otherwise: Vec<Destination>,
}

impl Model for Statement {
    ghost use Rattle.u_program.specs.Parts.{StatementParts, statement};

    ghost Value = { StatementParts };

    ghost view = { λ s. statement s.region s.kind s.to.items s.otherwise.items };
}

/// A block of a program: a name, its loops and its statements, which are both numbered 1, 2, and so on.
#[derive(Drop)]
pub struct Block {
    name: BlockName,
    loops: Vec<u8>,
    statements: Vec<Statement>,
}

impl Model for Block {
    ghost use Rattle.u_program.specs.Parts.{BlockParts, block};

    ghost Value = { BlockParts };

    ghost view = { λ b. block b.name b.loops.items b.statements.items };
}

/// A program, as its text says it: its version and its blocks.
#[derive(Drop)]
pub struct Program {
    version: Version,
    blocks: Vec<Block>,
}

impl Model for Program {
    ghost use Rattle.u_program.specs.Parts.{ProgramParts, program};
    ghost use Rattle.u_program.specs.Limits.{IsProgram, limits_of};

    ghost Value = { ProgramParts };

    ghost view = { λ p. program p.version p.blocks.items };

    ghost invariant = { λ p. IsProgram (limits_of p.version) p.blocks.items };
}

impl Statement {
    /// A statement of these parts.
    pub fn new(
        region: u8,
        kind: Kind,
        to: Vec<Destination>,
        otherwise: Vec<Destination>,
    ) -> Statement
        ensures { result ≡ statement region kind to.items otherwise.items }
    {
        Statement {
            region,
            kind,
            to,
            otherwise,
        }
    }

    /// The region: 0, or the number of the loop that holds the statement.
    pub fn region(&self) -> u8
        ensures { result ≡ self.now.region }
    {
        self.region
    }

    /// What it does.
    pub fn kind(&self) -> &Kind
        ensures { result.now ≡ self.now.kind }
    {
        &self.kind
    }

    /// Where its value goes, in ascending order; of a `switch`, where it goes on true.
    pub fn destinations(&self) -> &[Destination]
        ensures { result.now ≡ self.now.to }
    {
        &self.to
    }

    /// Where the value of a `switch` goes on false, in ascending order; other kinds have no such list.
    pub fn otherwise(&self) -> &[Destination]
        ensures { result.now ≡ self.now.otherwise }
    {
        &self.otherwise
    }
}

impl Block {
    /// A block without loops and statements.
    pub fn new(alloc: Global, name: BlockName) -> Block
        ensures { result ≡ block name [] [] }
    {
        Block {
            name,
            loops: Vec::new(alloc),
            statements: Vec::new(alloc),
        }
    }

    /// The block with one more loop, which that region holds.
    ///
    /// # Errors
    /// An error is returned if there is no memory.
    pub fn with_loop(self, held_by: u8) -> Result<Block, AllocFailed<u8>>
        ensures { IfOk result
            (λ b. b ≡ block self.name (self.loops ++ (held_by ∷ [])) self.statements) }
    {
        let Block {
            name,
            mut loops,
            statements,
        } = self;
        loops.push(held_by)?;
        Ok(Block {
            name,
            loops,
            statements,
        })
    }

    /// The block with one more statement.
    ///
    /// # Errors
    /// An error is returned if there is no memory.
    pub fn with(self, statement: Statement) -> Result<Block, AllocFailed<Statement>>
        ensures { IfOk result
            (λ b. b ≡ block self.name self.loops (self.statements ++ (statement ∷ []))) }
    {
        let Block {
            name,
            loops,
            mut statements,
        } = self;
        statements.push(statement)?;
        Ok(Block {
            name,
            loops,
            statements,
        })
    }

    /// The block's name.
    pub fn name(&self) -> &BlockName
        ensures { result.now ≡ self.now.name }
    {
        &self.name
    }

    /// For each loop, the first being number 1, the region that holds it: 0, or an earlier loop.
    pub fn loops(&self) -> &[u8]
        ensures { result.now ≡ self.now.loops }
    {
        &self.loops
    }

    /// Its statements, the first being number 1.
    pub fn statements(&self) -> &[Statement]
        ensures { result.now ≡ self.now.statements }
    {
        &self.statements
    }
}

impl Program {
    /// A program of these blocks, which lie within the limits of the version.
    pub fn new(version: Version, blocks: Vec<Block>) -> Program
        requires { IsProgram (limits_of version) blocks.items }
        ensures { result ≡ program version blocks.items }
    {
        Program { version, blocks }
    }

    /// The program as one of version 2, which runs alike. A program of version 2 is returned as it is.
    ///
    /// Promise programs-are-lifted: it has version 2 and the same blocks.
    #[tactic(auto, using(crate::proofs::Wide::within_all))]
    pub fn lift(self) -> Program
        ensures { result ≡ program versions.Two self.blocks }
    {
        Program {
            version: Version::Two,
            blocks: self.blocks,
        }
    }

    /// The version of its text.
    pub fn version(&self) -> Version
        ensures version { result ≡ self.now.version }
    {
        self.version
    }

    /// Its blocks, in the order of the text.
    ///
    /// Promise programs-in-limits: they lie within the limits of the program's version.
    #[tactic(auto, using(crate::proofs::Wide::within_all))]
    pub fn blocks(&self) -> &[Block]
        ensures blocks { result.now ≡ self.now.blocks }
        ensures limits { IsProgram the_limits self.now.blocks }
        ensures own_limits { IsProgram (limits_of self.now.version) self.now.blocks }
    {
        &self.blocks
    }
}
