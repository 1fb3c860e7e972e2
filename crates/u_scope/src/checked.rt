//! What the names of a source mean.
//!
//! Of all rules that are broken, the one whose token comes first is told; after that no name is looked at.
//! Names are looked for one by one, from the last one back: a procedure has at most 999 statements.
ghost use Rattle.std.specs.Prelude.{◌≡◌, ◌≢◌, ◌++◌, ◌+◌, ◌<◌, ◌≤◌, [], ◌∷◌, Ok, None, List, take, length, reverse, MatchResult, IfOk};
ghost use Rattle.u_scope.specs.declared.check_error.CheckError.TheVariants as errors;
ghost use Rattle.u_scope.specs.declared.checked.Meaning.{Meaning};
ghost use Rattle.u_scope.specs.Entries.{scopes_at, procedures, procedures_from};
ghost use Rattle.u_scope.specs.Meanings.{here};
ghost use Rattle.u_scope.specs.Scopes.{EachMeans, EachCalls};
ghost use Rattle.u_scope.specs.Verdicts.{node_verdict, is_behind, IsJudged, IsStep, IsWalked, IsChecked, IsCheckError, place_at, place_last, refusal, has_main};

use crate::check_error::{CheckError, CheckProblem};
use crate::entry::{Entry, Event, event_of, step};
use crate::finding::named;
use crate::spot::Spot;
use crate::values::{Breach, breach_between, first_of};
use std::alloc::{AllocFailed, Global};
use std::marker::Model;
use u_name::BlockName;
use u_source::{Node, Position, Source, Token};

/// What a node means.
#[derive(Clone, Copy, Debug, PartialEq, Eq)]
pub enum Meaning {
    /// It is no name, or one that is defined there.
    Nothing,
    /// A name that is used and is a procedure's: the number, from 0, of the node with which the procedure ends.
    Procedure(usize),
    /// A name that is used, or has its next value there: the number, from 0, of the node from which it is known: the
    /// definition, the parameter or the variable of a loop, and of the variable that counts in a `for` the node
    /// with which the loop's variables begin.
    Name(usize),
}

/// What each node of a source means.
#[derive(Drop)]
pub struct CheckedSource {
    meanings: Vec<Meaning>,
}

impl Model for CheckedSource {
    ghost use Rattle.std.specs.Prelude.{List};
    ghost use Rattle.u_scope.specs.declared.checked.Meaning.{Meaning};

    ghost Value = { List Meaning };

    ghost view = { λ s. s.meanings.items };
}

/// The place of the token with this number, or of the first byte where there is none.
fn place_at(tokens: &[Token], number: usize) -> Position
    ensures { result ≡ place_at tokens.now number }
{
    match tokens.get(number) {
        Some(token) => token.place(),
        None => Position::start(),
    }
}

/// The place of the last token, or of the first byte where there is none.
fn place_last(tokens: &[Token]) -> Position
    ensures { result ≡ place_last tokens.now }
{
    place_at(tokens, tokens.len().saturating_sub(1))
}

/// The nodes with which procedures end.
fn procedures(alloc: Global, nodes: &[Node]) -> Result<Vec<Entry>, AllocFailed<Entry>>
    ensures { IfOk result (λ found. found.items ≡ procedures nodes.now) }
{
    let mut found = Vec::new(alloc);
    let mut number: usize = 0;
    let mut rest = nodes;
    while let Some((node, others)) = rest.split_first() {
        let event = event_of(node.form);
        if matches!(event, Event::Procedure) {
            found.push(Entry {
                number,
                event,
                token: node.token,
            })?;
        }
        number += 1;
        rest = others;
    }
    Ok(found)
}

/// Whether a procedure is `main`.
fn has_main(tokens: &[Token], procedures: &[Entry]) -> bool
    ensures { result ≡ has_main tokens.now procedures.now }
{
    match named(tokens, BlockName::new(b"main"), procedures) {
        Some(_) => true,
        None => false,
    }
}

/// What a node means, and what stands around it if it is a name.
fn node_verdict(node: Node, spot: &Spot) -> Result<Meaning, CheckProblem>
    ensures { result ≡ node_verdict node (here spot.now) }
{
    match event_of(node.form) {
        Event::Name => spot.meaning(),
        _ => Ok(Meaning::Nothing),
    }
}

/// Whether a name that this token shows stands behind what is not allowed already.
fn is_behind(first: Option<Breach>, token: usize) -> bool
    ensures { result ≡ is_behind first token }
{
    match first {
        Some(breach) => breach.token <= token,
        None => false,
    }
}

/// What a node means, and what is not allowed of its name. Behind what is not allowed already, no name is looked at.
#[tactic(auto, using(crate::proofs::ValueLaws::skipped))]
fn judged(first: Option<Breach>, node: Node, spot: &Spot) -> (Meaning, Option<Breach>)
    ensures { IsJudged first node (here spot.now) result.0 result.1 }
{
    if is_behind(first, node.token) {
        return (Meaning::Nothing, None);
    }
    match node_verdict(node, spot) {
        Ok(meaning) => (meaning, None),
        Err(problem) => (
            Meaning::Nothing,
            Some(Breach {
                token: node.token,
                problem,
            }),
        ),
    }
}

/// How far a source is gone through.
#[derive(Drop)]
struct Walk {
    /// The nodes so far in scopes that have not ended.
    pub scopes: Vec<Entry>,
    /// What the nodes so far mean.
    pub meanings: Vec<Meaning>,
    /// What is not allowed so far, where the first token shows it.
    pub first: Option<Breach>,
}

impl Walk {
    /// Goes on with the node with this number.
    fn advance(
        &mut self,
        tokens: &[Token],
        procedures: &[Entry],
        nodes: &[Node],
        number: usize,
    ) -> Result<(), CheckError>
        requires inside { number < length nodes.now }
        requires scopes { reverse self.old.scopes.items
            ≡ scopes_at (reverse (take number nodes.now)) }
        ensures { MatchResult result
            (λ _. IsStep tokens.now procedures.now nodes.now number self.old self.new)
            (λ error. error ≡ errors.NoMemory) }
    {
        let (before, rest) = nodes.split_at(number);
        let Some((node, behind)) = rest.split_first() else {
            return Ok(());
        };
        let spot = Spot {
            tokens,
            procedures,
            scopes: &self.scopes,
            before,
            behind,
            token: node.token,
        };
        let (meaning, name) = judged(self.first, *node, &spot);
        let value = breach_between(before, *node, behind);
        self.first = first_of(first_of(self.first, name), value);
        self.meanings.push(meaning)?;
        step(&mut self.scopes, number, *node)?;
        Ok(())
    }
}

/// Goes through the nodes.
fn go_through(
    alloc: Global,
    tokens: &[Token],
    procedures: &[Entry],
    nodes: &[Node],
) -> Result<Walk, CheckError>
    ensures { MatchResult result (λ walk. IsWalked tokens.now procedures.now nodes.now walk)
        (λ error. error ≡ errors.NoMemory) }
{
    let mut walk = Walk {
        scopes: Vec::new(alloc),
        meanings: Vec::new(alloc),
        first: None,
    };
    let mut number: usize = 0;
    while number < nodes.len() {
        walk.advance(tokens, procedures, nodes, number)?;
        number += 1;
    }
    Ok(walk)
}

/// The words and the place of what is not allowed.
fn refusal(tokens: &[Token], breach: Breach) -> CheckError
    ensures { result ≡ refusal tokens.now breach }
{
    CheckError::Refused(place_at(tokens, breach.token), breach.problem)
}

/// Looks at all nodes, and then for `main`.
fn check_source(alloc: Global, source: &Source) -> Result<CheckedSource, CheckError>
    ensures { MatchResult result (λ checked. IsChecked source.now checked)
        (λ error. IsCheckError source.now error) }
{
    let tokens = source.tokens();
    let nodes = source.nodes();
    let procedures = procedures(alloc, nodes)?;
    let walked = go_through(alloc, tokens, &procedures, nodes)?;
    let first = walked.first;
    if let Some(breach) = first {
        return Err(refusal(tokens, breach));
    }
    if !has_main(tokens, &procedures) {
        return Err(CheckError::Refused(place_last(tokens), CheckProblem::NoMain));
    }
    Ok(CheckedSource {
        meanings: walked.meanings,
    })
}

impl CheckedSource {
    /// What the names of this source mean.
    ///
    /// A name is known from behind its definition to the end of its block; a parameter, in its procedure; a variable
    /// of a loop, in the test, the block and the `give` of the loop. Procedures are known everywhere. No name is
    /// defined where it is known already, and none that is a procedure's. A procedure that is called by its name
    /// gets as many arguments as it has parameters; there is a `main`, with 1 parameter, and there are 64 procedures
    /// at most. Each variable of a loop has one `next`, in the loop's own block and nowhere else; the variable that
    /// counts in a `for` has it already. The block of a procedure ends with a value, and so do both sides of an `if`
    /// that is used as one; no other block does, save that it may end with an `if` or a loop. What is used as a
    /// value has its `else`, or its `give`.
    ///
    /// Promise names-are-checked: unless memory runs out, a source is accepted exactly if no node breaks a
    /// rule of names or values and there is a `main`.
    ///
    /// Promise first-breach-of-a-source: an error has a rule that is broken and the token that shows it,
    /// before which no token shows another.
    ///
    /// Promise what-a-name-means: what a name means is a node that gives this name its meaning in a scope
    /// that has not ended, or the procedure of this name.
    ///
    /// # Errors
    /// `Refused` with the first token that breaks a rule, and which one; that there is no `main` is told last, at
    /// the last token. `NoMemory` where there is no memory.
    pub fn check(alloc: Global, source: &Source) -> Result<CheckedSource, CheckError>
        ensures answer { MatchResult result (λ checked. IsChecked source.now checked)
            (λ error. IsCheckError source.now error) }
        ensures back { (ms : List Meaning) → IsChecked source.now ms
            → MatchResult result (λ checked. checked ≡ ms) (λ error. error ≡ errors.NoMemory) }
        ensures means { IfOk result (λ checked. EachMeans source.now checked) }
        ensures calls { IfOk result (λ checked. EachCalls source.now checked) }
    {
        check_source(alloc, source)
    }

    /// What its nodes mean, in their order.
    pub fn meanings(&self) -> &[Meaning]
        ensures { result.now ≡ self.now }
    {
        &self.meanings
    }
}
