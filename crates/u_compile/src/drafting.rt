//! Statements and links that a graph gets only where they may stand there.
//!
//! A `switch` and an `apply` are unfinished until the link to port 2 of the one, and the `back` of the
//! other, stand; a graph has one such statement at a time. Links lead to the last statement alone, so
//! values come to statements in the order of their numbers. That such a graph is a determinate block which
//! keeps the rules is a law, so the finished program need not be looked at.
ghost use Rattle.std.specs.Prelude.{◌≡◌, ◌+◌, ◌<◌, ◌≤◌, true, false, length, IfOk, IsTrue, MatchResult};
ghost use Rattle.u_compile.specs.Drafts.{draft};
ghost use Rattle.u_compile.specs.Scoped.{Layout, IsScoped};
ghost use Rattle.u_compile.specs.Fanning.{IsFinished};
ghost use Rattle.u_compile.specs.Orderly.{IsOrderly};
ghost use Rattle.u_compile.specs.Placed.{EachIsFull};
ghost use Rattle.u_compile.specs.Kept.{KeepsItself};
ghost use Rattle.u_determinate.specs.Determinate.{IsDeterminateBlock};
ghost use Rattle.u_program.specs.declared.program.Kind.TheVariants as kinds;
ghost use Rattle.u_program.specs.Limits.{IsConstant, IsKind, HasKind, IsBlockOf, limits_of, has_list, has_otherwise, rank};
ghost use Rattle.u_program.specs.declared.program.Version.TheVariants as versions;
ghost use Rattle.u_compile.specs.Graphs.{same_output, draft_at, is_output, is_enter, is_next, enters_one, destinations, AllBefore, with_loop_held, with_draft, with_link_to, is_port, LeadBefore};

use crate::fanning::draft_at;
use crate::graph::{Draft, Full, Graph, Link, Output};
use std::alloc::Global;
use u_check::ports_of;
use u_name::BlockName;
use u_program::{Block, Constant, Destination, Kind};

/// Whether it is a constant of programs.
fn is_constant(constant: &Constant) -> bool
    ensures { IsTrue result → IsConstant constant.now }
{
    match constant {
        Constant::Int(number) => i64::MIN <= *number && *number <= i64::MAX,
        Constant::Bool(_) => true,
        Constant::Proc(name) => !name.as_bytes().is_empty(),
    }
}

/// Whether a graph of so many loops may get a statement of the kind that has links of its own.
fn may_be(kind: &Kind, loops: usize) -> bool
    ensures kind { IsTrue result → IsKind kind.now }
    ensures known { IsTrue result → HasKind versions.Two kind.now }
    ensures enters { IsTrue result → enters_one loops kind.now ≡ true }
    ensures other { IsTrue result → is_next kind.now ≡ false }
{
    match kind {
        Kind::Enter(number) => 1 <= *number && *number <= 99 && *number as usize <= loops,
        Kind::Apply(back, _) => 1 <= *back && *back <= 999,
        Kind::Const(constant) => is_constant(constant),
        Kind::Next | Kind::Ask(_, _) => false,
        _ => true,
    }
}

/// Whether a statement of the kind sends what it gives anywhere.
fn has_list(kind: &Kind) -> bool
    ensures { result ≡ has_list kind.now }
{
    !matches!(kind, Kind::Apply(_, _) | Kind::Store | Kind::End)
}

/// Whether a statement of the kind sends to one of two lists.
fn has_otherwise(kind: &Kind) -> bool
    ensures { result ≡ has_otherwise kind.now }
{
    matches!(kind, Kind::Switch)
}

/// Whether one of the statements has the output.
fn is_output(statements: &[Draft], from: Output) -> bool
    ensures { result ≡ is_output statements.now from }
{
    match draft_at(statements, from.statement) {
        Some(draft) => {
            let kind = draft.kind();
            has_list(&kind) && (!from.on_false || has_otherwise(&kind))
        }
        None => false,
    }
}

/// Whether one of the statements has the port.
fn has_port(statements: &[Draft], to: Destination) -> bool
    ensures { result ≡ is_port statements.now to }
{
    match draft_at(statements, to.statement) {
        Some(draft) => {
            let kind = draft.kind();
            1 <= to.port && to.port as usize <= ports_of(&kind)
        }
        None => false,
    }
}

/// The place of a port among all ports of a graph.
fn rank(to: Destination) -> u32
    ensures { result ≡ rank to }
{
    8 * to.statement as u32 + to.port as u32
}

/// Whether a link leads to a port before that one, if it comes from the output.
fn is_before(link: &Link, from: Output, to: Destination) -> bool
    ensures { IsTrue result → same_output from link.now.from ≡ true → rank link.now.to < rank to }
{
    !from.is(link.from) || rank(link.to) < rank(to)
}

/// Whether all links from the output lead to ports before that one.
#[tactic(auto, using(crate::proofs::Links::before_more))]
fn are_before(links: &[Link], from: Output, to: Destination) -> bool
    ensures { IsTrue result → AllBefore (rank to) (destinations from links.now) }
{
    let mut rest = links;
    while let Some((link, others)) = rest.split_first() {
        if !is_before(link, from, to) {
            return false;
        }
        rest = others;
    }
    true
}

impl Graph {
    /// Its statements.
    pub(crate) fn drafts(&self) -> &[Draft]
        ensures { result.now ≡ self.now.statements }
    {
        &self.statements
    }

    /// Its links.
    pub(crate) fn links(&self) -> &[Link]
        ensures { result.now ≡ self.now.links }
    {
        &self.links
    }

    /// How many loops it has.
    fn count_loops(&self) -> usize
        ensures { result ≡ length self.now.loops }
    {
        self.loops.len()
    }

    /// Whether it has that region.
    fn has_region(&self, region: u8) -> bool
        ensures { IsTrue result → region ≤ length self.now.loops }
    {
        region as usize <= self.loops.len()
    }

    /// Whether the statement is an `enter`.
    fn is_enter(&self, number: u16) -> bool
        ensures { result ≡ is_enter (draft_at self.now.statements number) }
    {
        match draft_at(&self.statements, number) {
            Some(draft) => matches!(draft.kind(), Kind::Enter(_)),
            None => false,
        }
    }

    /// Whether the port may be linked to the output.
    fn may_link(&self, from: Output, to: Destination) -> bool
        ensures output { IsTrue result → is_output self.now.statements from ≡ true }
        ensures port { IsTrue result → is_port self.now.statements to ≡ true }
        ensures behind { IsTrue result → LeadBefore self.now from to }
    {
        is_output(&self.statements, from)
            && has_port(&self.statements, to)
            && are_before(&self.links, from, to)
    }

    /// Adds a loop, which that region holds, and returns its number.
    ///
    /// # Errors
    /// Those of `add_loop`; `Misplaced` where there is no such region.
    pub(crate) fn put_loop(&mut self, held_by: u8) -> Result<u8, Full>
        ensures { MatchResult result
            (λ number. (number ≡ length self.old.loops + 1)
            × (self.new ≡ with_loop_held self.old held_by))
            (λ _. self.new ≡ self.old) }
    {
        if !self.has_region(held_by) {
            return Err(Full::Misplaced);
        }
        self.add_loop(held_by)
    }

    /// Adds a statement without links, and returns its number.
    ///
    /// # Errors
    /// Those of `add`; `Misplaced` where there is no such region, or the kind has no links of its own, or is no kind of
    /// programs.
    pub(crate) fn put(&mut self, region: u8, kind: &Kind) -> Result<u16, Full>
        ensures { MatchResult result
            (λ number. (number ≡ length self.old.statements + 1)
            × (self.new ≡ with_draft self.old (draft region kind.now number)))
            (λ _. self.new ≡ self.old) }
    {
        if !self.has_region(region) || !may_be(kind, self.count_loops()) {
            return Err(Full::Misplaced);
        }
        self.add(region, *kind)
    }

    /// Adds a `next`, which has the links of that `enter`.
    ///
    /// # Errors
    /// Those of `add_next`; `Misplaced` where there is no such region, or the statement is no `enter`.
    pub(crate) fn put_next(&mut self, region: u8, enter: u16) -> Result<u16, Full>
        ensures { MatchResult result
            (λ number. (number ≡ length self.old.statements + 1)
            × (self.new ≡ with_draft self.old (draft region kinds.Next enter)))
            (λ _. self.new ≡ self.old) }
    {
        if !self.has_region(region) || !self.is_enter(enter) {
            return Err(Full::Misplaced);
        }
        self.add_next(region, enter)
    }

    /// Links an output to a port.
    ///
    /// # Errors
    /// Those of `link`; `Misplaced` where there is no such output or no such port, or a link from the output leads to a
    /// port that is not before this one.
    pub(crate) fn lead(&mut self, from: Output, to: Destination) -> Result<(), Full>
        ensures { MatchResult result (λ _. self.new ≡ with_link_to self.old from to)
            (λ _. self.new ≡ self.old) }
    {
        if !self.may_link(from, to) {
            return Err(Full::Misplaced);
        }
        self.link(from, to)
    }

    /// Whether the output is that of an `enter`.
    pub(crate) fn is_entered(&self, output: Output) -> bool
        ensures { result ≡ is_enter (draft_at self.now.statements output.statement) }
    {
        self.is_enter(output.statement)
    }

    /// The graph as a block of version 2 with this name.
    ///
    /// # Errors
    /// Those of `finish`; `Misplaced` where there is no statement.
    #[tactic(auto, using(crate::proofs::BlockLaws::finished_within))]
    pub(crate) fn complete(self, alloc: Global, name: BlockName) -> Result<Block, Full>
        ensures block { IfOk result (λ b. IsBlockOf (limits_of versions.Two) b) }
        ensures determinate { IfOk result
            (λ b. (y : Layout) → IsScoped y self → IsDeterminateBlock b) }
        ensures kept { IfOk result (λ b. (y : Layout) → IsScoped y self → EachIsFull self
            → IsOrderly self.statements self.links → KeepsItself b) }
        ensures finished { IfOk result (IsFinished name self) }
    {
        if self.len() == 0 {
            return Err(Full::Misplaced);
        }
        self.finish(alloc, name)
    }
}
