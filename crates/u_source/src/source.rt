//! Sources: the syntax trees of texts.
ghost use Rattle.std.specs.Prelude.{◌≡◌, drop, MatchResult};
ghost use Rattle.u_source.specs.declared.source_error.SourceError.TheVariants as errors;
ghost use Rattle.u_source.specs.Phrases.{IsSpelled};
ghost use Rattle.u_source.specs.Trees.{IsTree};
ghost use Rattle.u_source.specs.Sources.{SourceParts, source, named, found, problem_of, place_next, IsSource, IsSourceError};

use crate::form::Node;
use crate::lexing::tokens;
use crate::parsing::{Failure, parse};
use crate::part::Stop;
use crate::place::Position;
use crate::source_error::{Found, Problem, SourceError};
use crate::token::{Token, Word};
use std::alloc::Global;
use std::marker::Model;

/// A source that follows the grammar: its tokens, and the nodes of its syntax tree.
#[derive(Drop)]
pub struct Source {
    tokens: Vec<Token>,
    nodes: Vec<Node>,
}

impl Model for Source {
    ghost use Rattle.u_source.specs.Sources.{SourceParts, source};
    ghost use Rattle.u_source.specs.Derivations.{IsSyntax};

    ghost Value = { SourceParts };

    ghost view = { λ s. source s.tokens.items s.nodes.items };

    ghost invariant = { λ s. IsSyntax s.tokens.items s.nodes.items };
}

/// A token as a refusal names it.
fn named(word: Word) -> Found
    ensures { result ≡ named word }
{
    match word {
        Word::Name(name) => Found::Name(name),
        Word::Number(number) => Found::Number(number),
        Word::Mark(mark) => Found::Mark(mark),
    }
}

/// The token with this number, or the end.
fn found(tokens: &[Token], number: usize) -> Found
    ensures { result ≡ found (drop number tokens.now) }
{
    match tokens.get(number) {
        Some(token) => named(token.word()),
        None => Found::End,
    }
}

/// Why a source is refused, where this was found.
fn problem_of(stop: Stop, found: Found) -> Problem
    ensures { result ≡ problem_of stop found }
{
    match stop {
        Stop::Wants(expected) => Problem::Unexpected(expected, found),
        Stop::MoreParameters => Problem::MoreParameters,
        Stop::MoreArguments => Problem::MoreArguments,
        Stop::NumberRange => Problem::NumberRange,
        Stop::Nowhere => Problem::Nowhere,
        Stop::TooDeep => Problem::TooDeep,
    }
}

/// The place of the token with this number, or of the end of the text.
fn place_of(bytes: &[u8], tokens: &[Token], number: usize) -> Position
    ensures { result ≡ place_next bytes.now (drop number tokens.now) }
{
    match tokens.get(number) {
        Some(token) => token.place(),
        None => Position::start().after(bytes),
    }
}

/// Reads the tokens, and then the tree.
fn read_source(alloc: Global, bytes: &[u8]) -> Result<Source, SourceError>
    ensures { MatchResult result (λ s. IsSource bytes.now s)
        (λ error. IsSourceError bytes.now error) }
{
    let tokens = tokens(alloc, bytes)?;
    match parse(alloc, &tokens) {
        Ok(nodes) => Ok(Source { tokens, nodes }),
        Err(Failure::Stuck(number, stop)) => Err(SourceError::Refused(
            place_of(bytes, &tokens, number),
            problem_of(stop, found(&tokens, number)),
        )),
        Err(Failure::NoMemory) => Err(SourceError::NoMemory),
    }
}

impl Source {
    /// The source that these bytes are, by the grammar of this project's own notation.
    ///
    /// Promise source-read: what is read is the source that the bytes are, its one syntax tree, and a source
    /// is refused only if there is no memory.
    ///
    /// Promise no-source: bytes that have tokens and are no source are refused at the first token with which
    /// no source goes on.
    ///
    /// # Errors
    /// `Refused` with the first place where no token can be read, or else with the first token with which no
    /// source goes on, and why: the bytes are no source then. `NoMemory` where there is no memory.
    pub fn read(alloc: Global, bytes: &[u8]) -> Result<Source, SourceError>
        ensures answer { MatchResult result (λ s. IsSource bytes.now s)
            (λ error. IsSourceError bytes.now error) }
        ensures back { (s : SourceParts) → IsSource bytes.now s
            → MatchResult result (λ found. found ≡ s) (λ error. error ≡ errors.NoMemory) }
    {
        read_source(alloc, bytes)
    }

    /// Its tokens.
    pub fn tokens(&self) -> &[Token]
        ensures { result.now ≡ self.now.tokens }
    {
        &self.tokens
    }

    /// The nodes of its syntax tree: each behind its children, and the root last.
    pub fn nodes(&self) -> &[Node]
        ensures value { result.now ≡ self.now.nodes }
        ensures tree { IsTree result.now }
        ensures spelled { IsSpelled self.now.tokens result.now }
    {
        &self.nodes
    }
}
