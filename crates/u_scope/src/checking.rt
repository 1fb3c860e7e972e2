//! The first clash of a source.
//!
//! Kinds are looked at once all names are allowed, since a name that means nothing has no kind. A clash is
//! told at the value that is found.
ghost use Rattle.std.specs.Prelude.{◌≡◌, reverse, MatchResult};
ghost use Rattle.u_scope.specs.Verdicts.{place_at};
ghost use Rattle.u_scope.specs.Kinds.{meaning_at};
ghost use Rattle.u_scope.specs.KindVerdicts.{IsGoneOn, IsFirstOf, HasNoClash, IsKindError};
ghost use Rattle.u_scope.specs.declared.kind_error.KindError.TheVariants as errors;

use crate::clash::{Clash, clash_of, first_of};
use crate::kind_error::KindError;
use crate::kinded::{Kinded, kind_of};
use crate::{CheckedSource, Meaning};
use std::alloc::Global;
use u_source::{Node, Position, Source, Token};

/// The place of the token with this number, or of the first byte where there is none.
fn place_at(tokens: &[Token], number: usize) -> Position
    ensures { result ≡ place_at tokens.now number }
{
    match tokens.get(number) {
        Some(token) => token.place(),
        None => Position::start(),
    }
}

/// What the node with this number means.
fn meaning_at(meanings: &[Meaning], number: usize) -> Meaning
    ensures { result ≡ meaning_at meanings.now number }
{
    match meanings.get(number) {
        Some(meaning) => *meaning,
        None => Meaning::Nothing,
    }
}

/// How far a source is gone through.
#[derive(Drop)]
struct Walk {
    /// The nodes so far, with what is known of their kinds.
    pub seen: Vec<Kinded>,
    /// What clashes so far, where the first token shows it.
    pub first: Option<Clash>,
}

impl Walk {
    /// Goes on with this node.
    fn advance(&mut self, tokens: &[Token], node: Node, meaning: Meaning) -> Result<(), KindError>
        ensures { MatchResult result (λ _. IsGoneOn tokens.now node meaning self.old self.new)
            (λ error. error ≡ errors.NoMemory) }
    {
        let kind = kind_of(node.form, meaning, &self.seen);
        let clash = clash_of(tokens, node.form, &self.seen);
        self.first = first_of(self.first, clash);
        self.seen.push(Kinded { node, kind })?;
        Ok(())
    }
}

/// The first clash of the nodes, if there is any.
fn first_clash(
    alloc: Global,
    tokens: &[Token],
    meanings: &[Meaning],
    nodes: &[Node],
) -> Result<Option<Clash>, KindError>
    ensures { MatchResult result (λ first. IsFirstOf tokens.now meanings.now nodes.now first)
        (λ error. error ≡ errors.NoMemory) }
{
    let mut walk = Walk {
        seen: Vec::new(alloc),
        first: None,
    };
    let mut number: usize = 0;
    let mut rest = nodes;
    while let Some((node, others)) = rest.split_first() {
        walk.advance(tokens, *node, meaning_at(meanings, number))?;
        number += 1;
        rest = others;
    }
    Ok(walk.first)
}

/// Checks the kinds of a source's values, where its names mean this.
///
/// A kind is known of numbers and truth values, of what operators, `array` and `length` give, of procedures, and of
/// names of these. A loop variable is of the kind of the value that it begins with, and the variable that counts in a
/// `for` is a number. An `if` is of the kind that both sides have, and a loop of that of its `give`. No kind is known
/// of parameters, of cells and of the results of calls.
///
/// Where the kind of a value is known, it has to be the one that is wanted there: by an operator, `array`, `length`,
/// an index, a call, the test of an `if` or a loop, or the limits of a `for`. The next value of a loop variable has to
/// be of the kind of the variable.
///
/// Promise kinds-are-checked: unless memory runs out, a source is accepted exactly if no value clashes with
/// what is wanted of it.
///
/// Promise first-clash-of-a-source: an error has a clash, its two kinds and the token that shows it, before
/// which no token shows another.
///
/// # Errors
/// `Refused` with the first token that shows a value of another kind, or the variable that gets one, and with the two
/// kinds. `NoMemory` where there is no memory.
pub fn check_kinds(alloc: Global, source: &Source, checked: &CheckedSource) -> Result<(), KindError>
    ensures answer { MatchResult result (λ _. HasNoClash source.now checked.now)
        (λ error. IsKindError source.now checked.now error) }
    ensures back { HasNoClash source.now checked.now
        → MatchResult result (λ _. Unit {0}) (λ error. error ≡ errors.NoMemory) }
{
    let tokens = source.tokens();
    match first_clash(alloc, tokens, checked.meanings(), source.nodes())? {
        Some(clash) => Err(KindError::Refused(place_at(tokens, clash.token), clash.problem)),
        None => Ok(()),
    }
}
