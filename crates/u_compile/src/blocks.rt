//! The blocks of a program under construction.
//!
//! As a block is added, its name has to be new; as the program is made, there has to be a `main`, and
//! constants have to name blocks. `u_check/keeps` asks the same of finished programs, and has no public
//! call for it.
ghost use Rattle.std.specs.Prelude.{◌≡◌, ◌++◌, ◌∷◌, ◌<◌, ◌≤◌, [], length, false, true, IfSome, IsTrue, MatchResult};
ghost use Rattle.std.specs.List.{list_all};
ghost use Rattle.u_program.specs.Limits.{IsBlockOf, limits_of};
ghost use Rattle.u_program.specs.Parts.{program};
ghost use Rattle.u_program.specs.declared.program.Version.TheVariants as versions;
ghost use Rattle.u_check.specs.Rules.{IsChecked, main_name, same_name, names_block, gives_block, is_param_in, statement_at};
ghost use Rattle.u_determinate.specs.Determinate.{IsDeterminateBlock, IsDeterminate};
ghost use Rattle.u_compile.specs.Kept.{KeepsItself, TakesOne, give_blocks};

use crate::graph::Full;
use std::alloc::Global;
use std::marker::Model;
use u_name::BlockName;
use u_program::{Block, Constant, Kind, Program, Statement, Version};

/// The most blocks of a program.
const BLOCKS: usize = 64;

/// Whether one of the blocks has that name.
fn names_block(blocks: &[Block], name: &BlockName) -> bool
    ensures { result ≡ names_block blocks.now name.now }
{
    blocks.iter().any(|block| block.name() == name)
}

/// Whether one of the blocks is called `main`.
fn has_main(blocks: &[Block]) -> bool
    ensures { result ≡ names_block blocks.now main_name }
{
    let main = BlockName::new(b"main");
    names_block(blocks, &main)
}

/// Whether the block is called `main`.
fn is_main(block: &Block) -> bool
    ensures { result ≡ same_name block.now.name main_name }
{
    *block.name() == BlockName::new(b"main")
}

/// Whether the second of the statements is a `param`.
#[tactic(auto, unfolding(u_check::specs::Rules::statement_at))]
fn has_second(statements: &[Statement]) -> bool
    ensures { result ≡ is_param_in (statement_at statements.now 2) }
{
    match statements.get(1) {
        Some(statement) => matches!(statement.kind(), Kind::Param(_)),
        None => false,
    }
}

/// Whether the block takes one argument, if it is called `main`.
fn takes_one(block: &Block) -> bool
    ensures { IsTrue result → TakesOne block.now }
{
    !is_main(block) || !has_second(block.statements())
}

/// Whether a procedure that a statement of the kind gives is one of the blocks.
#[tactic(auto, unfolding(u_check::specs::Rules::gives_block))]
fn gives_block(blocks: &[Block], kind: &Kind) -> bool
    ensures { result ≡ gives_block blocks.now kind.now }
{
    match kind {
        Kind::Const(Constant::Proc(name)) => names_block(blocks, name),
        _ => true,
    }
}

/// Whether each procedure that one of the statements gives is one of the blocks.
fn give_blocks(blocks: &[Block], statements: &[Statement]) -> bool
    ensures { result ≡ list_all (λ s. gives_block blocks.now s.kind) statements.now }
{
    statements.iter().all(|s| gives_block(blocks, s.kind()))
}

/// Whether each procedure that a statement of the blocks gives is one of them.
fn are_whole(blocks: &[Block]) -> bool
    ensures { result ≡ give_blocks blocks.now blocks.now }
{
    blocks.iter().all(|b| give_blocks(blocks, b.statements()))
}

/// At most 64 blocks of version 2, each of them determinate. They keep the rules of the checker, but that there is a
/// `main` and that constants name blocks, which is known once all are there.
#[derive(Drop)]
pub(crate) struct Blocks {
    list: Vec<Block>,
}

impl Model for Blocks {
    ghost use Rattle.std.specs.Prelude.{List, ◌≤◌, length};
    ghost use Rattle.u_program.specs.Parts.{BlockParts};
    ghost use Rattle.u_compile.specs.Blocks.{AreBlocks};

    ghost Value = { List BlockParts };

    ghost view = { λ b. b.list.items };

    ghost invariant = { λ b. AreBlocks b.list.items };
}

impl Blocks {
    /// No blocks.
    #[tactic(auto, using(crate::proofs::BlockLaws::no_blocks))]
    pub fn new(alloc: Global) -> Blocks
        ensures { result ≡ [] }
    {
        Blocks {
            list: Vec::new(alloc),
        }
    }

    /// Whether the block may be added: there is room, none of the blocks has its name, and it takes one argument if it is
    /// `main`.
    fn takes(&self, block: &Block) -> bool
        ensures few { IsTrue result → length self.now < 64 }
        ensures name { IsTrue result → names_block self.now block.now.name ≡ false }
        ensures one { IsTrue result → TakesOne block.now }
    {
        self.list.len() < BLOCKS && !names_block(&self.list, block.name()) && takes_one(block)
    }

    /// Whether there is a `main`, and each procedure that a statement gives is one of the blocks.
    fn is_whole(&self) -> bool
        ensures main { IsTrue result → names_block self.now main_name ≡ true }
        ensures given { IsTrue result → give_blocks self.now self.now ≡ true }
    {
        has_main(&self.list) && are_whole(&self.list)
    }

    /// Adds a block.
    ///
    /// # Errors
    /// `Misplaced` where there are 64, where one of them has its name, or where it is `main` and takes more than one
    /// argument; `NoMemory` where there is no memory.
    pub fn push(&mut self, block: Block) -> Result<(), Full>
        requires block { IsBlockOf (limits_of versions.Two) block }
        requires determinate { IsDeterminateBlock block }
        requires kept { KeepsItself block }
        ensures { MatchResult result (λ _. self.new ≡ self.old ++ (block ∷ []))
            (λ _. self.new ≡ self.old) }
    {
        if !self.takes(&block) {
            return Err(Full::Misplaced);
        }
        self.list.push(block)?;
        Ok(())
    }

    /// The program of version 2 of these blocks, where there is a `main`, and constants name blocks alone. It is
    /// determinate and keeps the rules of the checker.
    #[tactic(auto, using(crate::proofs::BlockLaws::are_program))]
    pub fn program(self) -> Option<Program>
        ensures program { IfSome result (λ p. p ≡ program versions.Two self) }
        ensures determinate { IfSome result (λ p. IsDeterminate p.blocks) }
        ensures checked { IfSome result (λ p. IsChecked p.blocks) }
    {
        if !self.is_whole() {
            return None;
        }
        let Blocks { list } = self;
        Some(Program::new(Version::Two, list))
    }
}
