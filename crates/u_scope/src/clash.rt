//! Where the kinds of values clash.
ghost use Rattle.std.specs.Prelude.{◌≡◌, reverse};
ghost use Rattle.u_scope.specs.Clashes.{one, both, wants_of, clash_with, wanted_clash, wants_clash, name_at, changed, next_clash, clash_of, before, first_of};

use crate::kind::{Kind, is_same};
use crate::kind_error::KindProblem;
use crate::kinded::{Kinded, part_kind, without_trees};
use u_name::BlockName;
use u_source::{Form, Token, Word};

/// A part of a node whose value has to be of one kind.
#[derive(Clone, Copy)]
pub(crate) struct Wanted {
    /// How many parts of the node stand behind it.
    pub behind: usize,
    /// The kind.
    pub kind: Kind,
}

/// The parts of a node whose values have to be of one kind.
#[derive(Clone, Copy)]
pub(crate) enum Wants {
    /// None.
    Nothing,
    /// This one.
    One(Wanted),
    /// These two, in their order.
    Two(Wanted, Wanted),
}

/// What clashes, and the number of the token that shows it.
#[derive(Clone, Copy)]
pub(crate) struct Clash {
    /// The number of the token.
    pub token: usize,
    /// What clashes.
    pub problem: KindProblem,
}

/// The value of the part behind which so many others stand has to be of this kind.
fn one(behind: usize, kind: Kind) -> Wants
    ensures { result ≡ one behind kind }
{
    Wants::One(Wanted { behind, kind })
}

/// The values of the last two parts have to be of this kind.
fn both(kind: Kind) -> Wants
    ensures { result ≡ both kind }
{
    Wants::Two(Wanted { behind: 1, kind }, Wanted { behind: 0, kind })
}

/// The values of which parts of a node of this form have to be of one kind.
fn wants_of(form: Form) -> Wants
    ensures { result ≡ wants_of form }
{
    match form {
        Form::Or | Form::And => both(Kind::Truth),
        Form::Not => one(0, Kind::Truth),
        Form::Less | Form::AtMost | Form::Greater | Form::AtLeast => both(Kind::Number),
        Form::Equal | Form::Unequal => both(Kind::Number),
        Form::Add | Form::Subtract | Form::Multiply => both(Kind::Number),
        Form::Divide | Form::Remainder => both(Kind::Number),
        Form::Negate | Form::Array => one(0, Kind::Number),
        Form::Length => one(0, Kind::Structure),
        Form::Index => Wants::Two(
            Wanted {
                behind: 1,
                kind: Kind::Structure,
            },
            Wanted {
                behind: 0,
                kind: Kind::Number,
            },
        ),
        Form::Call => one(1, Kind::Procedure),
        Form::If | Form::Loop => one(2, Kind::Truth),
        Form::For => Wants::Two(
            Wanted {
                behind: 4,
                kind: Kind::Number,
            },
            Wanted {
                behind: 3,
                kind: Kind::Number,
            },
        ),
        _ => Wants::Nothing,
    }
}

/// The clash of a value that this token shows, where one of a kind is wanted.
fn clash_with(wanted: Kind, found: Option<Kind>, token: usize) -> Option<Clash>
    ensures { result ≡ clash_with wanted found token }
{
    let Some(kind) = found else {
        return None;
    };
    if is_same(wanted, kind) {
        None
    } else {
        Some(Clash {
            token,
            problem: KindProblem::Unexpected(wanted, kind),
        })
    }
}

/// The clash of a part whose value has to be of one kind, where these nodes stand before the node.
fn wanted_clash(wanted: Wanted, before: &[Kinded]) -> Option<Clash>
    ensures { result ≡ wanted_clash wanted (reverse before.now) }
{
    match without_trees(wanted.behind, before).split_last() {
        Some((part, _)) => clash_with(wanted.kind, part.kind, part.node.token),
        None => None,
    }
}

/// The first clash of the parts whose values have to be of one kind.
fn wants_clash(wants: Wants, before: &[Kinded]) -> Option<Clash>
    ensures { result ≡ wants_clash wants (reverse before.now) }
{
    match wants {
        Wants::Nothing => None,
        Wants::One(wanted) => wanted_clash(wanted, before),
        Wants::Two(first, second) => {
            first_of(wanted_clash(first, before), wanted_clash(second, before))
        }
    }
}

/// The name that the token with this number is, if it is one.
pub fn name_at(tokens: &[Token], number: usize) -> Option<BlockName>
    ensures { result ≡ name_at tokens.now number }
{
    match tokens.get(number) {
        Some(token) => match token.word() {
            Word::Name(name) => Some(name),
            _ => None,
        },
        None => None,
    }
}

/// The clash of a variable that begins with one kind and goes on with another one, where its name is this token.
fn changed(tokens: &[Token], token: usize, first: Kind, next: Kind) -> Option<Clash>
    ensures { result ≡ changed tokens.now token first next }
{
    if is_same(first, next) {
        return None;
    }
    match name_at(tokens, token) {
        Some(name) => Some(Clash {
            token,
            problem: KindProblem::Changed(name, first, next),
        }),
        None => None,
    }
}

/// The clash of a next value with the one that the variable begins with, where these nodes stand before the `next`.
fn next_clash(tokens: &[Token], before: &[Kinded]) -> Option<Clash>
    ensures { result ≡ next_clash tokens.now (reverse before.now) }
{
    let Some((name, _)) = without_trees(1, before).split_last() else {
        return None;
    };
    match (name.kind, part_kind(0, before)) {
        (Some(first), Some(next)) => changed(tokens, name.node.token, first, next),
        _ => None,
    }
}

/// The first clash of the parts of a node of this form, where these nodes stand before it.
pub(crate) fn clash_of(tokens: &[Token], form: Form, before: &[Kinded]) -> Option<Clash>
    ensures { result ≡ clash_of tokens.now form (reverse before.now) }
{
    match form {
        Form::Next => next_clash(tokens, before),
        _ => wants_clash(wants_of(form), before),
    }
}

/// Of the two the clash that the first token shows, or the first one.
fn before(left: Clash, right: Option<Clash>) -> Clash
    ensures { result ≡ before left right }
{
    match right {
        Some(second) => {
            if second.token < left.token {
                second
            } else {
                left
            }
        }
        None => left,
    }
}

/// Of the two the clash that the first token shows, or the first one, if there is any.
pub(crate) fn first_of(left: Option<Clash>, right: Option<Clash>) -> Option<Clash>
    ensures { result ≡ first_of left right }
{
    match left {
        Some(first) => Some(before(first, right)),
        None => right,
    }
}
