//! What is done with a symbol of the grammar where a token stands next.
ghost use Rattle.std.specs.Prelude.{◌≡◌};
ghost use Rattle.u_source.specs.Choosing.{is_kind, chosen, outcome_among, deepens, sign_step, taken_step, other_step, part_step, step_of};

use crate::form::Node;
use crate::mark::Mark;
use crate::part::{Fallback, Kind, Outcome, Part, Row, Stop, otherwise, rows};
use crate::rule::{Rule, Symbol, symbols};
use crate::source_error::Expected;

/// A symbol that has still to be found in the tokens.
#[derive(Clone, Copy)]
pub(crate) struct Placed {
    /// The symbol.
    pub symbol: Symbol,
    /// The number of the token that stood next where its rule was chosen.
    pub at: usize,
    /// How many levels of nesting may still be opened in it.
    pub room: usize,
}

/// What is done with the symbol that stands first: whether the next token is taken, the rule whose right side
/// comes in the symbol's place, and the node that is made.
#[derive(Clone, Copy)]
pub(crate) struct Step {
    /// 1 where the next token is taken, or else 0.
    pub taken: usize,
    /// The rule.
    pub rule: Rule,
    /// The node.
    pub made: Option<Node>,
}

/// Whether two kinds are the same.
fn is_kind(kind: Kind, other: Kind) -> bool
    ensures { result ≡ is_kind kind other }
{
    match (kind, other) {
        (Kind::Sign(mark), Kind::Sign(next)) => mark.text() == next.text(),
        (Kind::Name, Kind::Name) => true,
        (Kind::Number, Kind::Number) => true,
        (Kind::TwoTo63, Kind::TwoTo63) => true,
        _ => false,
    }
}

/// What a token of a kind chooses among these.
fn outcome_among(rows: &[Row], next: Kind) -> Option<Outcome>
    ensures { result ≡ outcome_among rows.now next }
{
    let mut rest = rows;
    while let Some((row, others)) = rest.split_first() {
        if is_kind(row.kind, next) {
            return Some(row.outcome);
        }
        rest = others;
    }
    None
}

/// What the next token chooses for a part of the source.
fn chosen(part: Part, next: Kind) -> Option<Outcome>
    ensures { result ≡ chosen part next }
{
    outcome_among(rows(part), next)
}

/// Whether some part is nested deeper.
fn deepens(symbols: &[Symbol]) -> bool
    ensures { result ≡ deepens symbols.now }
{
    let mut rest = symbols;
    while let Some((symbol, others)) = rest.split_first() {
        if matches!(symbol, Symbol::Inner(_)) {
            return true;
        }
        rest = others;
    }
    false
}

/// A keyword or a sign has to stand next.
fn sign_step(mark: Mark, next: Kind) -> Result<Step, Stop>
    ensures { result ≡ sign_step mark next }
{
    if is_kind(Kind::Sign(mark), next) {
        Ok(Step {
            taken: 1,
            rule: Rule::Nothing,
            made: None,
        })
    } else {
        Err(Stop::Wants(Expected::Mark(mark)))
    }
}

/// The next token chose this rule.
fn taken_step(rule: Rule, room: usize) -> Result<Step, Stop>
    ensures { result ≡ taken_step rule room }
{
    if room == 0 && deepens(symbols(rule)) {
        return Err(Stop::TooDeep);
    }
    Ok(Step {
        taken: 1,
        rule,
        made: None,
    })
}

/// The next token chose nothing.
fn other_step(part: Part) -> Result<Step, Stop>
    ensures { result ≡ other_step part }
{
    match otherwise(part) {
        Fallback::Goes(rule) => Ok(Step {
            taken: 0,
            rule,
            made: None,
        }),
        Fallback::Wants(expected) => Err(Stop::Wants(expected)),
    }
}

/// A part of the source has to stand next.
fn part_step(part: Part, room: usize, next: Kind) -> Result<Step, Stop>
    ensures { result ≡ part_step part room next }
{
    match chosen(part, next) {
        Some(Outcome::Goes(rule)) => taken_step(rule, room),
        Some(Outcome::Stops(stop)) => Err(stop),
        None => other_step(part),
    }
}

/// What is done with a symbol where a token of this kind stands next.
pub(crate) fn step_of(placed: Placed, next: Kind) -> Result<Step, Stop>
    ensures { result ≡ step_of placed next }
{
    match placed.symbol {
        Symbol::Sign(mark) => sign_step(mark, next),
        Symbol::Part(part) => part_step(part, placed.room, next),
        Symbol::Inner(part) => part_step(part, placed.room, next),
        Symbol::Make(form) => Ok(Step {
            taken: 0,
            rule: Rule::Nothing,
            made: Some(Node {
                form,
                token: placed.at,
            }),
        }),
    }
}
