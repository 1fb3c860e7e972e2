//! Where a value is wanted, and where there is one.
//!
//! `if`, `loop` and `for` tell of values at their own words. That a block lacks its value is told at the
//! brace that opens it.
ghost use Rattle.std.specs.Prelude.{◌≡◌, ◌<◌, ◌+◌, ◌^◌, length, reverse};
ghost use Rattle.u_scope.specs.Values.{part_of, part_last, past_block, past_whole, past_inside, past, inside_of, is_wanted, may_be_item, block_breach, breach_unless, breach_between, before, first_of};

use crate::check_error::CheckProblem;
use u_source::{Form, Node};

/// What a node has to do with values.
#[derive(Clone, Copy)]
pub(crate) enum ValueRole {
    /// An item ends which has no value.
    Item,
    /// The last item of a block ends, which may have a value.
    Last,
    /// A block ends.
    Block,
    /// An `if` ends.
    If,
    /// No `else`.
    NoElse,
    /// An `else` begins.
    Otherwise,
    /// An `else` ends.
    Else,
    /// A loop ends.
    Loop,
    /// No `give`.
    NoGive,
    /// A procedure ends.
    Procedure,
    /// Anything else.
    Other,
}

/// What was gone past on the way from a block, an `if` or a loop to where its value goes.
#[derive(Clone, Copy)]
pub(crate) enum Reached {
    /// A block.
    Block,
    /// The last item of a block, which ends next.
    Last,
    /// An `if` or a loop.
    Whole,
    /// An `else`, or none; its `if` ends next.
    Else,
    /// The beginning of an `else`, and of so many inside of it.
    Inside(usize),
}

/// Where the way goes on, or whether a value is wanted at its end.
#[derive(Clone, Copy)]
pub(crate) enum Way {
    /// It goes on.
    On(Reached),
    /// It ends.
    End(bool),
}

/// What is not allowed, and the number of the token that shows it.
#[derive(Clone, Copy)]
pub(crate) struct Breach {
    /// The number of the token.
    pub token: usize,
    /// What is not allowed.
    pub problem: CheckProblem,
}

/// What nodes of a form have to do with values.
fn part_of(form: Form) -> ValueRole
    ensures { result ≡ part_of form }
{
    match form {
        Form::AddItem => ValueRole::Item,
        Form::AddValue => ValueRole::Last,
        Form::Block => ValueRole::Block,
        Form::If => ValueRole::If,
        Form::NoElse => ValueRole::NoElse,
        Form::Otherwise => ValueRole::Otherwise,
        Form::Else => ValueRole::Else,
        Form::Loop => ValueRole::Loop,
        Form::For => ValueRole::Loop,
        Form::NoGive => ValueRole::NoGive,
        Form::AddProcedure => ValueRole::Procedure,
        _ => ValueRole::Other,
    }
}

/// Past a block: that of a procedure has a value, the side of an `if` goes with it, and that of a loop has none.
fn past_block(part: ValueRole) -> Way
    ensures { result ≡ past_block part }
{
    match part {
        ValueRole::Procedure => Way::End(true),
        ValueRole::NoElse => Way::On(Reached::Else),
        ValueRole::Else => Way::On(Reached::Else),
        ValueRole::Otherwise => Way::On(Reached::Inside(0)),
        _ => Way::End(false),
    }
}

/// Past an `if` or a loop: as an item it has no value, the last item of a block goes with the block, what stands
/// behind `else` goes with its `if`, and else there is a value.
fn past_whole(part: ValueRole) -> Way
    ensures { result ≡ past_whole part }
{
    match part {
        ValueRole::Item => Way::End(false),
        ValueRole::Last => Way::On(Reached::Last),
        ValueRole::Else => Way::On(Reached::Else),
        _ => Way::End(true),
    }
}

/// Past a node inside of an `else`, inside of so many others.
fn past_inside(inside: usize, part: ValueRole) -> Way
    requires { inside + 1 < 2 ^ 64 }
    ensures { result ≡ past_inside inside part }
{
    match part {
        ValueRole::Otherwise => Way::On(Reached::Inside(inside + 1)),
        ValueRole::Else => {
            if inside == 0 {
                Way::On(Reached::Else)
            } else {
                Way::On(Reached::Inside(inside - 1))
            }
        }
        _ => Way::On(Reached::Inside(inside)),
    }
}

/// Past a node.
fn past(reached: Reached, part: ValueRole) -> Way
    requires { inside_of reached + 1 < 2 ^ 64 }
    ensures { result ≡ past reached part }
{
    match reached {
        Reached::Block => past_block(part),
        Reached::Last => Way::On(Reached::Block),
        Reached::Whole => past_whole(part),
        Reached::Else => Way::On(Reached::Whole),
        Reached::Inside(inside) => past_inside(inside, part),
    }
}

/// Whether a value is wanted of what was gone past, where these nodes stand behind it.
fn is_wanted(reached: Reached, nodes: &[Node]) -> bool
    requires { inside_of reached ≡ 0 }
    ensures { result ≡ is_wanted reached nodes.now }
{
    let mut at = reached;
    let mut rest = nodes;
    while let Some((node, others)) = rest.split_first() {
        match past(at, part_of(node.form)) {
            Way::On(next) => at = next,
            Way::End(wanted) => return wanted,
        }
        rest = others;
    }
    false
}

/// What the last of these nodes has to do with values.
fn part_last(nodes: &[Node]) -> ValueRole
    ensures { result ≡ part_last (reverse nodes.now) }
{
    match nodes.split_last() {
        Some((node, _)) => part_of(node.form),
        None => ValueRole::Other,
    }
}

/// Whether what ends with this may be an item.
fn may_be_item(part: ValueRole) -> bool
    ensures { result ≡ may_be_item part }
{
    matches!(part, ValueRole::If | ValueRole::Loop)
}

/// What is not allowed at the end of a block, where these nodes stand before its end, the last of which ends its
/// last item.
fn block_breach(token: usize, wanted: bool, before: &[Node]) -> Option<Breach>
    ensures { result ≡ block_breach token wanted (reverse before.now) }
{
    let Some((last, others)) = before.split_last() else {
        return None;
    };
    match part_of(last.form) {
        ValueRole::Last => {
            if wanted || may_be_item(part_last(others)) {
                None
            } else {
                Some(Breach {
                    token: last.token,
                    problem: CheckProblem::Nowhere,
                })
            }
        }
        _ => {
            if wanted {
                Some(Breach {
                    token,
                    problem: CheckProblem::ValueExpected,
                })
            } else {
                None
            }
        }
    }
}

/// What is not allowed, if something is missing that a value needs.
fn breach_unless(there: bool, token: usize, problem: CheckProblem) -> Option<Breach>
    ensures { result ≡ breach_unless there token problem }
{
    if there {
        None
    } else {
        Some(Breach { token, problem })
    }
}

/// What is not allowed of the value of a node, between the nodes before it and those behind it.
pub(crate) fn breach_between(before: &[Node], node: Node, behind: &[Node]) -> Option<Breach>
    ensures { result ≡ breach_between (reverse before.now) node behind.now }
{
    match (part_of(node.form), part_last(before)) {
        (ValueRole::Block, _) => block_breach(
            node.token,
            is_wanted(Reached::Block, behind),
            before,
        ),
        (ValueRole::If, ValueRole::NoElse) => breach_unless(
            !is_wanted(Reached::Whole, behind),
            node.token,
            CheckProblem::NoElse,
        ),
        (ValueRole::Loop, ValueRole::NoGive) => breach_unless(
            !is_wanted(Reached::Whole, behind),
            node.token,
            CheckProblem::NoGive,
        ),
        _ => None,
    }
}

/// Of the two what is shown by the first token, or the first one.
fn before(left: Breach, right: Option<Breach>) -> Breach
    ensures { result ≡ before left right }
{
    match right {
        Some(second) => {
            if second.token < left.token {
                second
            } else {
                left
            }
        }
        None => left,
    }
}

/// Of the two what is shown by the first token, or the first one, if there is any.
pub(crate) fn first_of(left: Option<Breach>, right: Option<Breach>) -> Option<Breach>
    ensures { result ≡ first_of left right }
{
    match left {
        Some(first) => Some(before(first, right)),
        None => right,
    }
}
