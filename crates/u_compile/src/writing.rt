//! Graphs as blocks of a program.
ghost use Rattle.std.specs.Prelude.{◌≡◌, ◌≤◌, ℕ, [], length, IfOk};
ghost use Rattle.u_program.specs.Parts.{block};
ghost use Rattle.u_compile.specs.Graphs.{destinations};
ghost use Rattle.u_compile.specs.Blocks.{statement_of, block_of};
ghost use Rattle.u_determinate.specs.Determinate.{IsDeterminateBlock};
ghost use Rattle.u_compile.specs.Fanning.{IsFinished};
ghost use Rattle.u_compile.specs.Scoped.{Layout, IsScoped};
ghost use Rattle.u_compile.specs.Orderly.{IsOrderly};
ghost use Rattle.u_compile.specs.Placed.{EachIsFull};
ghost use Rattle.u_compile.specs.Kept.{KeepsItself};

use crate::graph::{Draft, Full, Graph, Link, Output};
use std::alloc::{AllocError, AllocFailed, Global};
use u_name::BlockName;
use u_program::{Block, Destination, Statement};

/// Where the links from the output lead.
fn destinations(
    alloc: Global,
    links: &[Link],
    output: Output,
) -> Result<Vec<Destination>, AllocFailed<Destination>>
    ensures { IfOk result (λ v. v.items ≡ destinations output links.now) }
{
    let mut found = Vec::new(alloc);
    let mut rest = links;
    while let Some((link, others)) = rest.split_first() {
        if output.is(link.from) {
            found.push(link.to)?;
        }
        rest = others;
    }
    Ok(found)
}

/// The statement of a draft.
fn statement_of(
    alloc: Global,
    links: &[Link],
    draft: &Draft,
) -> Result<Statement, AllocFailed<Destination>>
    ensures { IfOk result (λ s. s ≡ statement_of links.now draft.now) }
{
    let output = Output {
        statement: draft.shares(),
        on_false: false,
    };
    let to = destinations(alloc, links, output)?;
    let on_false = Output {
        statement: draft.shares(),
        on_false: true,
    };
    let otherwise = destinations(alloc, links, on_false)?;
    Ok(Statement::new(draft.region(), draft.kind(), to, otherwise))
}

/// A block with this name and these loops, without statements.
fn with_loops(alloc: Global, name: BlockName, loops: &[u8]) -> Result<Block, AllocFailed<u8>>
    ensures { IfOk result (λ b. b ≡ block name loops.now []) }
{
    let mut block = Block::new(alloc, name);
    let mut rest = loops;
    while let Some((held_by, others)) = rest.split_first() {
        block = block.with_loop(*held_by)?;
        rest = others;
    }
    Ok(block)
}

impl Graph {
    /// The graph as a block with this name.
    pub(crate) fn block(&self, alloc: Global, name: BlockName) -> Result<Block, AllocError>
        ensures { IfOk result (λ b. b ≡ block_of name self.now) }
    {
        let mut block = with_loops(alloc, name, &self.loops)?;
        let mut rest = self.statements.as_slice();
        while let Some((draft, others)) = rest.split_first() {
            let statement = statement_of(alloc, &self.links, draft)?;
            block = block.with(statement)?;
            rest = others;
        }
        Ok(block)
    }

    /// The graph as a block of version 2 with this name. A list with more than 16 destinations gets a `pass` in the
    /// place of the 16th, which sends where that one and those behind it were sent, and so on. Where the graph's links
    /// keep to a layout, the block is determinate; and where each port is linked too, and what stands in the graph stands
    /// well, it keeps the rules of the checker.
    ///
    /// # Errors
    /// `Statements` where there are more than 999 then, `NoMemory` where there is no memory, `Misplaced` where a
    /// `last` has more than 16 links.
    pub fn finish(self, alloc: Global, name: BlockName) -> Result<Block, Full>
        requires { 1 ≤ length self.statements }
        ensures finished { IfOk result (λ b. IsFinished name self b) }
        ensures determinate { IfOk result
            (λ b. (y : Layout) → IsScoped y self → IsDeterminateBlock b) }
        ensures kept { IfOk result (λ b. (y : Layout) → IsScoped y self → EachIsFull self
            → IsOrderly self.statements self.links → KeepsItself b) }
    {
        // Brings in that it is a graph.
        let _ = self.len();
        // Brings in that the block's name is one: 1 to 16 letters, digits and `_`.
        let _ = name.as_bytes();
        let mut graph = self;
        graph.fan_out_all(alloc)?;
        // Brings in that it still is one.
        let _ = graph.len();
        match graph.block(alloc, name) {
            Ok(block) => Ok(block),
            Err(_) => Err(Full::NoMemory),
        }
    }
}
