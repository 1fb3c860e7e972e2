//! The nodes that give names a meaning.
ghost use Rattle.std.specs.Prelude.{◌≡◌, false, reverse};
ghost use Rattle.u_base.specs.WholeWords.{is};
ghost use Rattle.u_scope.specs.Entries.{declared};
ghost use Rattle.u_scope.specs.Finding.{line_named, line_of, is_declared, matching, is_seen, seen_behind, known, named, is_declaration, earlier, later, variable, next_before};

use crate::entry::{Entry, Event, declared, event_of};
use crate::naming::{Named, is_same};
use u_name::BlockName;
use u_source::{Node, Token};

/// A node that gives a name its meaning.
#[derive(Clone, Copy)]
pub(crate) struct Found {
    /// The number of the node.
    pub number: usize,
    /// The number of the token that shows it.
    pub token: usize,
    /// The line of the name.
    pub line: usize,
}

/// The line of this name, if it is the wanted one.
fn line_named(name: BlockName, named: Option<Named>) -> Option<usize>
    ensures { result ≡ line_named name named }
{
    match named {
        Some(found) => {
            if is_same(found.name, name) {
                Some(found.line)
            } else {
                None
            }
        }
        None => None,
    }
}

/// The line of the name at a node, if the node gives this name a meaning or a next value.
fn line_of(tokens: &[Token], name: BlockName, event: Event, token: usize) -> Option<usize>
    ensures { result ≡ line_of tokens.now name event token }
{
    line_named(name, declared(tokens, event, token))
}

/// Whether a node gives this name a meaning or a next value.
pub(crate) fn is_declared(tokens: &[Token], name: BlockName, event: Event, token: usize) -> bool
    ensures { result ≡ is_declared tokens.now name event token }
{
    match line_of(tokens, name, event, token) {
        Some(_) => true,
        None => false,
    }
}

/// The node, if it gives this name a meaning or a next value.
fn matching(tokens: &[Token], name: BlockName, entry: Entry) -> Option<Found>
    ensures { result ≡ matching tokens.now name entry }
{
    match line_of(tokens, name, entry.event, entry.token) {
        Some(line) => Some(Found {
            number: entry.number,
            token: entry.token,
            line,
        }),
        None => None,
    }
}

/// Whether what a node defines is known behind it, where variables of a loop may be known.
fn is_seen(variables: bool, event: Event) -> bool
    ensures { result ≡ is_seen variables event }
{
    match event {
        Event::Parameter | Event::Definition => true,
        Event::Variable | Event::Variables => variables,
        _ => false,
    }
}

/// Whether variables of a loop are known to what is found before a node.
fn seen_behind(variables: bool, event: Event) -> bool
    ensures { result ≡ seen_behind variables event }
{
    match event {
        Event::Loop => true,
        Event::Variables => false,
        _ => variables,
    }
}

/// The node by which a name is known, where these are the nodes of the scopes that have not ended.
pub(crate) fn known(
    tokens: &[Token],
    name: BlockName,
    variables: bool,
    scopes: &[Entry],
) -> Option<Found>
    ensures { result ≡ known tokens.now name variables (reverse scopes.now) }
{
    let mut seen = variables;
    let mut rest = scopes;
    while let Some((entry, others)) = rest.split_last() {
        if is_seen(seen, entry.event) {
            if let Some(found) = matching(tokens, name, *entry) {
                return Some(found);
            }
        }
        seen = seen_behind(seen, entry.event);
        rest = others;
    }
    None
}

/// The first of these that gives the name a meaning.
pub(crate) fn named(tokens: &[Token], name: BlockName, entries: &[Entry]) -> Option<Found>
    ensures { result ≡ named tokens.now name entries.now }
{
    let mut rest = entries;
    while let Some((entry, others)) = rest.split_first() {
        if let Some(found) = matching(tokens, name, *entry) {
            return Some(found);
        }
        rest = others;
    }
    None
}

/// Whether a node gives a name a meaning inside a procedure.
fn is_declaration(event: Event) -> bool
    ensures { result ≡ is_declaration event }
{
    matches!(
        event,
        Event::Parameter | Event::Definition | Event::Variable | Event::Variables
    )
}

/// The line in which the name was defined last in the procedure that has not ended before these nodes' end.
pub(crate) fn earlier(tokens: &[Token], name: BlockName, nodes: &[Node]) -> Option<usize>
    ensures { result ≡ earlier tokens.now name (reverse nodes.now) }
{
    let mut rest = nodes;
    while let Some((node, others)) = rest.split_last() {
        let event = event_of(node.form);
        if matches!(event, Event::Procedure) {
            break;
        }
        if is_declaration(event) {
            if let Some(line) = line_of(tokens, name, event, node.token) {
                return Some(line);
            }
        }
        rest = others;
    }
    None
}

/// The line in which the name is defined next in the procedure that ends first.
pub(crate) fn later(tokens: &[Token], name: BlockName, nodes: &[Node]) -> Option<usize>
    ensures { result ≡ later tokens.now name nodes.now }
{
    let mut rest = nodes;
    while let Some((node, others)) = rest.split_first() {
        let event = event_of(node.form);
        if matches!(event, Event::Procedure) {
            break;
        }
        if is_declaration(event) {
            if let Some(line) = line_of(tokens, name, event, node.token) {
                return Some(line);
            }
        }
        rest = others;
    }
    None
}

/// The variable with this name of the loop that began last and has not ended.
pub(crate) fn variable(tokens: &[Token], name: BlockName, scopes: &[Entry]) -> Option<Found>
    ensures { result ≡ variable tokens.now name false (reverse scopes.now) }
{
    let mut inside = false;
    let mut rest = scopes;
    while let Some((entry, others)) = rest.split_last() {
        match entry.event {
            Event::Loop => inside = true,
            Event::Variable => {
                if inside {
                    if let Some(found) = matching(tokens, name, *entry) {
                        return Some(found);
                    }
                }
            }
            Event::Variables => {
                if inside {
                    return matching(tokens, name, *entry);
                }
            }
            _ => {}
        }
        rest = others;
    }
    None
}

/// The line of a `next` of this name in the block that began last and has not ended.
pub(crate) fn next_before(tokens: &[Token], name: BlockName, scopes: &[Entry]) -> Option<usize>
    ensures { result ≡ next_before tokens.now name (reverse scopes.now) }
{
    let mut rest = scopes;
    while let Some((entry, others)) = rest.split_last() {
        match entry.event {
            Event::Block => break,
            Event::Next => {
                if let Some(line) = line_of(tokens, name, Event::Next, entry.token) {
                    return Some(line);
                }
            }
            _ => {}
        }
        rest = others;
    }
    None
}
