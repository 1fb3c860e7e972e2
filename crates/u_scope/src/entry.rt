//! What the nodes of a source do with names, and the nodes whose scopes have not ended.
ghost use Rattle.std.specs.Prelude.{◌≡◌, IfOk, reverse};
ghost use Rattle.u_scope.specs.Entries.{event_of, opens, closes, stays, declared, left_behind, stepped, entry, is_for, steps_to_parameter};

use crate::naming::{Named, Sign, named_at, named_behind, sign_at};
use std::alloc::AllocFailed;
use u_source::{Form, Node, Token};

/// What a node does with names.
#[derive(Clone, Copy)]
pub(crate) enum Event {
    /// A name stands here.
    Name,
    /// A procedure ends, which has its name from here on.
    Procedure,
    /// The parameters of a procedure begin.
    Parameters,
    /// A parameter is known from here on.
    Parameter,
    /// A block begins.
    Block,
    /// A block ends.
    BlockEnd,
    /// The variables of a loop begin, with the values that they begin with.
    Variables,
    /// A variable of a loop has the value that it begins with.
    Variable,
    /// The variables of a loop are known from here on.
    Loop,
    /// A loop ends.
    LoopEnd,
    /// A name is defined from here on.
    Definition,
    /// A variable of a loop has its next value.
    Next,
    /// The arguments of a call begin.
    Arguments,
    /// An argument ends.
    Argument,
    /// A call ends.
    Call,
    /// An `else` begins, ends or is left out.
    Side,
    /// Nothing.
    Other,
}

/// A node, with its number.
#[derive(Clone, Copy)]
pub(crate) struct Entry {
    /// Its number among the nodes, from 0.
    pub number: usize,
    /// What it does.
    pub event: Event,
    /// The number of the token that shows it.
    pub token: usize,
}

/// What nodes of a form do.
pub(crate) fn event_of(form: Form) -> Event
    ensures { result ≡ event_of form }
{
    match form {
        Form::Name => Event::Name,
        Form::AddProcedure => Event::Procedure,
        Form::NoParameters => Event::Parameters,
        Form::AddParameter => Event::Parameter,
        Form::NoItems => Event::Block,
        Form::Block => Event::BlockEnd,
        Form::NoVariables => Event::Variables,
        Form::AddVariable => Event::Variable,
        Form::Variables => Event::Loop,
        Form::Loop => Event::LoopEnd,
        Form::For => Event::LoopEnd,
        Form::Define => Event::Definition,
        Form::Next => Event::Next,
        Form::NoArguments => Event::Arguments,
        Form::AddArgument => Event::Argument,
        Form::Call => Event::Call,
        Form::NoElse => Event::Side,
        Form::Otherwise => Event::Side,
        Form::Else => Event::Side,
        _ => Event::Other,
    }
}

/// Whether a scope begins, or what leads to one.
pub(crate) fn opens(event: Event) -> bool
    ensures { result ≡ opens event }
{
    matches!(event, Event::Parameters | Event::Block | Event::Variables)
}

/// Whether a scope ends.
pub(crate) fn closes(event: Event) -> bool
    ensures { result ≡ closes event }
{
    matches!(event, Event::Procedure | Event::BlockEnd | Event::LoopEnd)
}

/// Whether it counts until its scope ends.
fn stays(event: Event) -> bool
    ensures { result ≡ stays event }
{
    matches!(
        event,
        Event::Parameter | Event::Variable | Event::Loop | Event::Definition | Event::Next
    )
}

/// Whether the sign is `for`.
pub(crate) fn is_for(sign: Sign) -> bool
    ensures { result ≡ is_for sign }
{
    matches!(sign, Sign::For)
}

/// How many tokens stand between the token that shows a parameter, and its name.
fn steps_to_parameter(sign: Sign) -> usize
    ensures { result ≡ steps_to_parameter sign }
{
    match sign {
        Sign::Def => 3,
        _ => 1,
    }
}

/// The name that a node of this kind, shown by this token, gives a meaning or a next value.
pub(crate) fn declared(tokens: &[Token], event: Event, token: usize) -> Option<Named>
    ensures { result ≡ declared tokens.now event token }
{
    match event {
        Event::Definition => named_at(tokens, token.saturating_sub(1)),
        Event::Procedure | Event::Variable | Event::Next => named_behind(tokens, token, 1),
        Event::Parameter => {
            let steps = steps_to_parameter(sign_at(tokens, token));
            named_behind(tokens, token, steps)
        }
        Event::Variables => {
            if is_for(sign_at(tokens, token)) {
                named_behind(tokens, token, 1)
            } else {
                None
            }
        }
        _ => None,
    }
}

/// Leaves the scope that began last.
fn leave(scopes: &mut Vec<Entry>)
    ensures { reverse scopes.new.items ≡ left_behind (reverse scopes.old.items) }
{
    while let Some(entry) = scopes.pop() {
        if opens(entry.event) {
            break;
        }
    }
}

/// Goes past the node with this number.
pub(crate) fn step(
    scopes: &mut Vec<Entry>,
    number: usize,
    node: Node,
) -> Result<(), AllocFailed<Entry>>
    ensures { IfOk result
        (λ _. reverse scopes.new.items ≡ stepped number node (reverse scopes.old.items)) }
{
    let event = event_of(node.form);
    if closes(event) {
        leave(scopes);
    } else if opens(event) || stays(event) {
        scopes.push(Entry {
            number,
            event,
            token: node.token,
        })?;
    }
    Ok(())
}
