//! What is known of the kinds of a source's nodes.
//!
//! An `if` has a kind if both sides have the same one. A loop variable has the kind of the value that it
//! begins with. A node stands after its parts, so they are found by going back over whole trees.
ghost use Rattle.std.specs.Prelude.{◌≡◌, ◌≤◌, length, reverse};
ghost use Rattle.u_source.specs.Trees.{children};
ghost use Rattle.u_scope.specs.Kinds.{origin_of, without_trees, part_kind, kind_meant, kind_by};

use crate::Meaning;
use crate::kind::{Kind, common};
use u_source::{Form, Node};

/// Where the kind of what a node stands for comes from.
#[derive(Clone, Copy)]
pub(crate) enum Origin {
    /// It is always this one.
    Always(Kind),
    /// It is that of what the name means.
    Meant,
    /// It is that of the node's last part.
    Last,
    /// It is the one that the last two parts have both.
    Sides,
    /// It is not known.
    Unknown,
}

/// A node, and the kind of what it stands for, if it is known.
#[derive(Clone, Copy)]
pub(crate) struct Kinded {
    /// The node.
    pub node: Node,
    /// The kind.
    pub kind: Option<Kind>,
}

/// Where the kind of what a node of this form stands for comes from.
fn origin_of(form: Form) -> Origin
    ensures { result ≡ origin_of form }
{
    match form {
        Form::Name => Origin::Meant,
        Form::Number | Form::Negative => Origin::Always(Kind::Number),
        Form::True | Form::False => Origin::Always(Kind::Truth),
        Form::Or | Form::And | Form::Not => Origin::Always(Kind::Truth),
        Form::Less | Form::AtMost | Form::Greater | Form::AtLeast => Origin::Always(Kind::Truth),
        Form::Equal | Form::Unequal => Origin::Always(Kind::Truth),
        Form::Add | Form::Subtract | Form::Multiply => Origin::Always(Kind::Number),
        Form::Divide | Form::Remainder | Form::Negate => Origin::Always(Kind::Number),
        Form::Array => Origin::Always(Kind::Structure),
        Form::Length => Origin::Always(Kind::Number),
        Form::If => Origin::Sides,
        Form::Else | Form::Block | Form::AddValue => Origin::Last,
        Form::Loop | Form::For | Form::Give => Origin::Last,
        Form::Define | Form::AddVariable => Origin::Last,
        Form::NoVariables => Origin::Always(Kind::Number),
        _ => Origin::Unknown,
    }
}

/// How many parts a node of this form has.
fn parts(form: Form) -> usize
    ensures value { result ≡ length (children form) }
    ensures few { result ≤ 6 }
{
    match form {
        Form::Name | Form::Number | Form::Negative | Form::True | Form::False => 0,
        Form::NoElse | Form::Otherwise | Form::NoGive | Form::NoArguments => 0,
        Form::NoVariables | Form::NoItems | Form::NoParameters | Form::NoProcedures => 0,
        Form::Not | Form::Negate | Form::Array | Form::Length | Form::Give => 1,
        Form::Variables | Form::Block | Form::Statement => 1,
        Form::If | Form::AddVariable => 3,
        Form::Loop | Form::AddProcedure => 4,
        Form::For => 6,
        _ => 2,
    }
}

/// What is left of some nodes when the last so many trees are left out.
pub(crate) fn without_trees(count: usize, nodes: &[Kinded]) -> &[Kinded]
    ensures { reverse result.now ≡ without_trees count (reverse nodes.now) }
{
    let mut left = count;
    let mut rest = nodes;
    while left > 0 {
        if left > rest.len() {
            return &[];
        }
        let Some((node, others)) = rest.split_last() else {
            break;
        };
        left = left - 1 + parts(node.node.form);
        rest = others;
    }
    rest
}

/// The kind of the part of a node behind which so many other parts stand, where these nodes stand before it.
pub(crate) fn part_kind(behind: usize, before: &[Kinded]) -> Option<Kind>
    ensures { result ≡ part_kind behind (reverse before.now) }
{
    match without_trees(behind, before).split_last() {
        Some((node, _)) => node.kind,
        None => None,
    }
}

/// The kind of what a name means.
fn kind_meant(meaning: Meaning, before: &[Kinded]) -> Option<Kind>
    ensures { result ≡ kind_meant meaning (reverse before.now) }
{
    match meaning {
        Meaning::Nothing => None,
        Meaning::Procedure(_) => Some(Kind::Procedure),
        Meaning::Name(number) => match before.get(number) {
            Some(node) => node.kind,
            None => None,
        },
    }
}

/// The kind of what a node stands for, if it is known, by its form, what it means, and the nodes before it.
pub(crate) fn kind_of(form: Form, meaning: Meaning, before: &[Kinded]) -> Option<Kind>
    ensures { result ≡ kind_by (origin_of form) meaning (reverse before.now) }
{
    match origin_of(form) {
        Origin::Always(kind) => Some(kind),
        Origin::Meant => kind_meant(meaning, before),
        Origin::Last => part_kind(0, before),
        Origin::Sides => common(part_kind(1, before), part_kind(0, before)),
        Origin::Unknown => None,
    }
}
