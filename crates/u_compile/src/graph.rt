//! Blocks under construction, as graphs.
ghost use Rattle.std.specs.Prelude.{◌≡◌, ◌+◌, ◌≤◌, [], length, true, false, MatchResult};
ghost use Rattle.u_compile.specs.Graphs.{graph, same_output, draft_at, is_output, is_enter, enters_one, is_next, IsGraph, with_loop_held, with_draft, with_link_to, is_port, LeadBefore};
ghost use Rattle.u_compile.specs.Drafts.{draft};
ghost use Rattle.u_program.specs.Limits.{IsKind, HasKind};
ghost use Rattle.u_program.specs.declared.program.Version.TheVariants.{Two};
ghost use Rattle.u_program.specs.declared.program.Kind.TheVariants as kinds;

use std::alloc::{AllocError, AllocFailed, Global};
use std::marker::Model;
use u_program::{Destination, Kind};

/// The most loops of a block.
const LOOPS: usize = 99;

/// The most statements of a block.
pub(crate) const STATEMENTS: usize = 999;

/// One of the lists of a statement: its only one, or one of the two of a `switch`.
#[derive(Clone, Copy, Debug, PartialEq, Eq)]
pub(crate) struct Output {
    /// The statement's number, from 1.
    pub statement: u16,
    /// Whether it is the list on which a `switch` sends on false.
    pub on_false: bool,
}

impl Output {
    /// Whether it is the same.
    pub(crate) fn is(self, other: Output) -> bool
        ensures { result ≡ same_output self other }
    {
        self.statement == other.statement
            && if self.on_false {
                other.on_false
            } else {
                !other.on_false
            }
    }
}

/// A link: from an output to a port.
#[derive(Clone, Copy, Debug, PartialEq, Eq)]
pub(crate) struct Link {
    /// Where the value comes from.
    pub from: Output,
    /// Where it goes.
    pub to: Destination,
}

/// A statement under construction: its region, what it does, and the statement whose links are its links.
#[derive(Drop)]
pub(crate) struct Draft {
    region: u8,
    kind: Kind,
    shares: u16,
}

impl Model for Draft {
    ghost use Rattle.u_compile.specs.Drafts.{DraftParts, draft};

    ghost Value = { DraftParts };

    ghost view = { λ d. draft d.region d.kind d.shares };
}

impl Draft {
    /// A statement of these parts.
    pub fn new(region: u8, kind: Kind, shares: u16) -> Draft
        ensures { result ≡ draft region kind shares }
    {
        Draft {
            region,
            kind,
            shares,
        }
    }

    /// The region: 0, or the number of the loop that holds it.
    pub fn region(&self) -> u8
        ensures { result ≡ self.now.region }
    {
        self.region
    }

    /// What it does.
    pub fn kind(&self) -> Kind
        ensures { result ≡ self.now.kind }
    {
        self.kind
    }

    /// The number of the statement whose links are its links: its own, or of a `next` that of an `enter`.
    pub fn shares(&self) -> u16
        ensures { result ≡ self.now.shares }
    {
        self.shares
    }
}

/// Why a graph does not grow.
#[derive(Clone, Copy, Debug, PartialEq, Eq, Drop)]
pub(crate) enum Full {
    /// It has 999 statements.
    Statements,
    /// It has 99 loops.
    Loops,
    /// There is no memory.
    NoMemory,
    /// What is added may not stand there.
    Misplaced,
}

impl<T: Drop> From<AllocFailed<T>> for Full {
    ghost use Rattle.u_compile.specs.declared.graph.Full.TheVariants as fulls;

    ghost from_gives = { λ _ e. e ≡ fulls.NoMemory };

    fn from(_: AllocFailed<T>) -> Full {
        Full::NoMemory
    }
}

impl From<AllocError> for Full {
    ghost use Rattle.u_compile.specs.declared.graph.Full.TheVariants as fulls;

    ghost from_gives = { λ _ e. e ≡ fulls.NoMemory };

    fn from(_: AllocError) -> Full {
        Full::NoMemory
    }
}

/// A block under construction: its loops and statements, which are both numbered 1, 2, and so on, and its links.
#[derive(Drop)]
pub(crate) struct Graph {
    pub(crate) loops: Vec<u8>,
    pub(crate) statements: Vec<Draft>,
    pub(crate) links: Vec<Link>,
}

impl Model for Graph {
    ghost use Rattle.u_compile.specs.Graphs.{GraphParts, graph, IsGraph};

    ghost Value = { GraphParts };

    ghost view = { λ g. graph g.loops.items g.statements.items g.links.items };

    ghost invariant = { λ g. IsGraph (graph g.loops.items g.statements.items g.links.items) };
}

impl Graph {
    /// A graph without loops and statements. It takes no memory.
    pub fn new(alloc: Global) -> Graph
        ensures { result ≡ graph [] [] [] }
    {
        Graph {
            loops: Vec::new(alloc),
            statements: Vec::new(alloc),
            links: Vec::new(alloc),
        }
    }

    /// How many statements it has.
    pub fn len(&self) -> usize
        ensures len { result ≡ length self.now.statements }
        ensures graph { IsGraph self.now }
    {
        self.statements.len()
    }

    /// Adds a loop, and returns its number.
    ///
    /// # Errors
    /// `Loops` where there are 99, `NoMemory` where there is no memory. The graph stays as it was.
    pub fn add_loop(&mut self, held_by: u8) -> Result<u8, Full>
        requires { held_by ≤ length self.old.loops }
        ensures { MatchResult result
            (λ number. (number ≡ length self.old.loops + 1)
            × (self.new ≡ with_loop_held self.old held_by))
            (λ _. self.new ≡ self.old) }
    {
        if self.loops.len() >= LOOPS {
            return Err(Full::Loops);
        }
        self.loops.push(held_by)?;
        Ok(self.loops.len() as u8)
    }

    /// Adds a statement without links, and returns its number.
    ///
    /// # Errors
    /// `Statements` where there are 999, `NoMemory` where there is no memory. The graph stays as it was.
    pub fn add(&mut self, region: u8, kind: Kind) -> Result<u16, Full>
        requires region { region ≤ length self.old.loops }
        requires kind { IsKind kind }
        requires known { HasKind Two kind }
        requires enters { enters_one (length self.old.loops) kind ≡ true }
        requires other { is_next kind ≡ false }
        ensures { MatchResult result
            (λ number. (number ≡ length self.old.statements + 1)
            × (self.new ≡ with_draft self.old (draft region kind number)))
            (λ _. self.new ≡ self.old) }
    {
        if self.statements.len() >= STATEMENTS {
            return Err(Full::Statements);
        }
        let number = self.statements.len() as u16 + 1;
        self.statements.push(Draft::new(region, kind, number))?;
        Ok(number)
    }

    /// Adds a `next`, which has the links of that `enter`, and returns its number.
    ///
    /// # Errors
    /// `Statements` where there are 999, `NoMemory` where there is no memory. The graph stays as it was.
    pub fn add_next(&mut self, region: u8, enter: u16) -> Result<u16, Full>
        requires region { region ≤ length self.old.loops }
        requires enter { is_enter (draft_at self.old.statements enter) ≡ true }
        ensures { MatchResult result
            (λ number. (number ≡ length self.old.statements + 1)
            × (self.new ≡ with_draft self.old (draft region kinds.Next enter)))
            (λ _. self.new ≡ self.old) }
    {
        if self.statements.len() >= STATEMENTS {
            return Err(Full::Statements);
        }
        let number = self.statements.len() as u16 + 1;
        self.statements.push(Draft::new(region, Kind::Next, enter))?;
        Ok(number)
    }

    /// Links an output to a port. Ports are linked in ascending order: all links that come from the output already
    /// lead to ports before this one.
    ///
    /// # Errors
    /// `NoMemory` where there is no memory. The graph stays as it was.
    pub fn link(&mut self, from: Output, to: Destination) -> Result<(), Full>
        requires output { is_output self.old.statements from ≡ true }
        requires port { is_port self.old.statements to ≡ true }
        requires behind { LeadBefore self.old from to }
        ensures { MatchResult result
            (λ _. self.new ≡ with_link_to self.old from to)
            (λ _. self.new ≡ self.old) }
    {
        self.links.push(Link { from, to })?;
        Ok(())
    }
}
