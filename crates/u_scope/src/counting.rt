//! What stands behind a name.
//!
//! The `next` of a variable is looked for ahead. One in a block inside of the loop's own is not counted.
ghost use Rattle.std.specs.Prelude.{◌≡◌, ◌≤◌, false, length};
ghost use Rattle.u_scope.specs.Counting.{commas, given, has_next, behind_block, is_loops};
ghost use Rattle.u_scope.specs.Finding.{is_declared};

use crate::entry::{Event, event_of};
use crate::finding::is_declared;
use crate::naming::{Sign, sign_at};
use u_name::BlockName;
use u_source::{Node, Token};

/// How many commas stand before the first closing bracket.
pub(crate) fn commas(tokens: &[Token]) -> usize
    ensures value { result ≡ commas tokens.now }
    ensures inside { result ≤ length tokens.now }
{
    let mut count = 0;
    let mut rest = tokens;
    while let Some((_, others)) = rest.split_first() {
        match sign_at(rest, 0) {
            Sign::Close => break,
            Sign::Comma => count += 1,
            _ => {}
        }
        rest = others;
    }
    count
}

/// How many arguments the call has whose arguments begin here.
pub(crate) fn given(nodes: &[Node]) -> usize
    ensures { result ≡ given 0 nodes.now }
{
    let mut count = 0;
    let mut depth: usize = 0;
    let mut rest = nodes;
    while let Some((node, others)) = rest.split_first() {
        match event_of(node.form) {
            Event::Arguments => depth += 1,
            Event::Argument => {
                if depth == 1 {
                    count += 1;
                }
            }
            Event::Call => {
                if depth <= 1 {
                    break;
                }
                depth -= 1;
            }
            _ => {}
        }
        rest = others;
    }
    count
}

/// Whether the variable of a loop with this name has a next value in the loop's own block. One in the loop's header, or
/// behind its `give`, stands in a block of an `if`.
pub(crate) fn has_next(tokens: &[Token], name: BlockName, nodes: &[Node]) -> bool
    ensures { result ≡ has_next tokens.now name 0 false nodes.now }
{
    let mut depth: usize = 0;
    let mut stands = false;
    let mut rest = nodes;
    while let Some((node, others)) = rest.split_first() {
        match event_of(node.form) {
            Event::Variables => depth += 1,
            Event::Block => depth += 1,
            Event::BlockEnd => {
                if depth == 1 && stands && is_loops(others) {
                    return true;
                }
                stands = stands && depth != 1;
                depth = depth.saturating_sub(1);
            }
            Event::LoopEnd => {
                if depth == 0 {
                    break;
                }
                depth -= 1;
            }
            Event::Next => {
                if depth == 1 && is_declared(tokens, name, Event::Next, node.token) {
                    stands = true;
                }
            }
            _ => {}
        }
        rest = others;
    }
    false
}

/// Whether a block that ends before these nodes is a loop's own.
fn is_loops(nodes: &[Node]) -> bool
    ensures { result ≡ is_loops nodes.now }
{
    match nodes.split_first() {
        Some((node, _)) => !matches!(event_of(node.form), Event::Side | Event::Procedure),
        None => false,
    }
}

/// Whether the block in which these nodes stand next is a loop's own.
pub(crate) fn in_loops_block(nodes: &[Node]) -> bool
    ensures { result ≡ is_loops (behind_block 0 nodes.now) }
{
    let mut depth: usize = 0;
    let mut rest = nodes;
    while let Some((node, others)) = rest.split_first() {
        match event_of(node.form) {
            Event::Block => depth += 1,
            Event::BlockEnd => {
                if depth == 0 {
                    return is_loops(others);
                }
                depth -= 1;
            }
            _ => {}
        }
        rest = others;
    }
    false
}
