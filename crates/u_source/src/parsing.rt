//! Syntax trees of tokens.
//!
//! One loop with a stack reads by one token of lookahead, and no function calls itself. Only nesting has a
//! limit, in which a minus counts too; a chain of operators or of items has none.
ghost use Rattle.std.specs.Prelude.{◌≡◌, ◌≤◌, ◌<◌, ◌^◌, ◌++◌, Ok, Err, Some, None, length, drop, IfOk, MatchResult, option_to_list};
ghost use Rattle.u_source.specs.Derivations.{kind_of, kind_next, placed, all_placed, IsSyntax};
ghost use Rattle.u_source.specs.Progress.{Follows, Fails, IsFailure};

use crate::choosing::{Placed, step_of};
use crate::form::Node;
use crate::mark::Mark;
use crate::part::{Kind, Part, Stop};
use crate::rule::{Symbol, symbols};
use crate::source_error::Expected;
use crate::token::{Token, Word};
use std::alloc::{AllocFailed, Global};
use std::collections::VecDeque;

/// How many levels of nesting a source may have.
const LEVELS: usize = 60;

/// Why a parser does not go on.
#[derive(Clone, Copy)]
pub(crate) enum Failure {
    /// No rule goes on at the token with this number.
    Stuck(usize, Stop),
    /// There is no memory left.
    NoMemory,
}

impl<T: Drop> From<AllocFailed<T>> for Failure {
    ghost use Rattle.u_source.specs.declared.parsing.Failure.TheVariants as failures;

    ghost from_gives = { λ _ e. e ≡ failures.NoMemory };

    fn from(_: AllocFailed<T>) -> Failure {
        Failure::NoMemory
    }
}

/// The kind of a token.
fn kind_of(word: Word) -> Kind
    ensures { result ≡ kind_of word }
{
    match word {
        Word::Name(_) => Kind::Name,
        Word::Number(number) => {
            if number < 1 << 63 {
                Kind::Number
            } else {
                Kind::TwoTo63
            }
        }
        Word::Mark(mark) => Kind::Sign(mark),
    }
}

/// The kind of the token with this number.
fn kind_at(tokens: &[Token], number: usize) -> Kind
    ensures { result ≡ kind_next (drop number tokens.now) }
{
    match tokens.get(number) {
        Some(token) => kind_of(token.word()),
        None => Kind::End,
    }
}

/// A symbol of a rule that was chosen where the token with the number `at` stood next.
fn placed(symbol: Symbol, at: usize, room: usize) -> Placed
    ensures { result ≡ placed at room symbol }
{
    let room = match symbol {
        Symbol::Inner(_) => room.saturating_sub(1),
        _ => room,
    };
    Placed { symbol, at, room }
}

/// Puts the right side of a rule in front.
fn put(
    stack: &mut VecDeque<Placed>,
    right: &[Symbol],
    at: usize,
    room: usize,
) -> Result<(), AllocFailed<Placed>>
    ensures { IfOk result (λ _. stack.new.items
        ≡ all_placed at room right.now ++ stack.old.items) }
{
    let mut rest = right;
    while let Some((symbol, others)) = rest.split_last() {
        stack.push_front(placed(*symbol, at, room))?;
        rest = others;
    }
    Ok(())
}

/// Appends the node that is made, if there is one.
fn push_made(nodes: &mut Vec<Node>, made: Option<Node>) -> Result<(), AllocFailed<Node>>
    ensures { IfOk result (λ _. nodes.new.items ≡ nodes.old.items ++ option_to_list made) }
{
    match made {
        Some(node) => nodes.push(node),
        None => Ok(()),
    }
}

/// A source that is read from its front: the symbols that have still to be found, the first one first, the
/// nodes that are made, and how many tokens are taken.
#[derive(Drop)]
pub(crate) struct Parser {
    /// The symbols.
    pub stack: VecDeque<Placed>,
    /// The nodes.
    pub nodes: Vec<Node>,
    /// The number of the token that stands next.
    pub number: usize,
}

impl Parser {
    /// Goes on with the symbol that stood first.
    fn advance(&mut self, tokens: &[Token], top: Placed) -> Result<(), Failure>
        requires inside { self.old.number ≤ length tokens.now }
        ensures { MatchResult result (λ _. Follows tokens.now top self.old self.new)
            (λ failure. Fails tokens.now top self.old failure) }
    {
        prove!(self.number <= tokens.len());
        let step = match step_of(top, kind_at(tokens, self.number)) {
            Ok(step) => step,
            Err(stop) => return Err(Failure::Stuck(self.number, stop)),
        };
        put(&mut self.stack, symbols(step.rule), self.number, top.room)?;
        push_made(&mut self.nodes, step.made)?;
        self.number += step.taken;
        Ok(())
    }
}

/// The nodes of the syntax tree of these tokens.
pub(crate) fn parse(alloc: Global, tokens: &[Token]) -> Result<Vec<Node>, Failure>
    ensures { MatchResult result (λ nodes. IsSyntax tokens.now nodes.items)
        (λ failure. IsFailure tokens.now failure) }
{
    let mut stack = VecDeque::new(alloc);
    stack.push_front(placed(Symbol::Part(Part::Source), 0, LEVELS))?;
    let mut parser = Parser {
        stack,
        nodes: Vec::new(alloc),
        number: 0,
    };
    while let Some(top) = parser.stack.pop_front() {
        parser.advance(tokens, top)?;
    }
    if parser.number < tokens.len() {
        return Err(Failure::Stuck(parser.number, Stop::Wants(Expected::Mark(Mark::Def))));
    }
    Ok(parser.nodes)
}
