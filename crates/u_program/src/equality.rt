//! Equality of programs.
//!
//! Programs are compared part by part, which takes no memory. A program has one text, so equality of texts
//! is what the comparison decides.
ghost use Rattle.std.specs.Prelude.{◌≡◌, ◌↔◌, IsTrue};
ghost use Rattle.std.specs.Cmp.{partial_equiv_from_equiv};
ghost use Rattle.std.specs.Cmp.Lexicographic.{on_texts_equal};
ghost use Rattle.u_program.specs.Equality.{text_of, has_same_text};

use crate::program::{Block, Destination, Program, Statement};

/// Whether the lists have the same destinations in the same order.
fn same_destinations(left: &[Destination], right: &[Destination]) -> bool
    ensures { IsTrue result ↔ (left.now ≡ right.now) }
{
    match (left.split_first(), right.split_first()) {
        (None, None) => true,
        (Some((first, others)), Some((second, more))) => {
            *first == *second && same_destinations(others, more)
        }
        _ => false,
    }
}

/// Whether all parts of the statements are equal.
fn same_statement(left: &Statement, right: &Statement) -> bool
    ensures { IsTrue result ↔ (left.now ≡ right.now) }
{
    left.region() == right.region()
        && *left.kind() == *right.kind()
        && same_destinations(left.destinations(), right.destinations())
        && same_destinations(left.otherwise(), right.otherwise())
}

/// Whether the lists have equal statements in the same order.
fn same_statements(left: &[Statement], right: &[Statement]) -> bool
    ensures { IsTrue result ↔ (left.now ≡ right.now) }
{
    match (left.split_first(), right.split_first()) {
        (None, None) => true,
        (Some((first, others)), Some((second, more))) => {
            same_statement(first, second) && same_statements(others, more)
        }
        _ => false,
    }
}

/// Whether the blocks have the same name, the same loops and equal statements.
fn same_block(left: &Block, right: &Block) -> bool
    ensures { IsTrue result ↔ (left.now ≡ right.now) }
{
    *left.name() == *right.name()
        && *left.loops() == *right.loops()
        && same_statements(left.statements(), right.statements())
}

/// Whether the lists have equal blocks in the same order.
fn same_blocks(left: &[Block], right: &[Block]) -> bool
    ensures { IsTrue result ↔ (left.now ≡ right.now) }
{
    match (left.split_first(), right.split_first()) {
        (None, None) => true,
        (Some((first, others)), Some((second, more))) => {
            same_block(first, second) && same_blocks(others, more)
        }
        _ => false,
    }
}

impl PartialEq for Program {
    ghost eq = { has_same_text };

    ghost laws = { partial_equiv_from_equiv (on_texts_equal text_of) };

    /// Whether the texts of the programs are the same. Takes no memory.
    ///
    /// Promise programs-are-equal: two programs are equal exactly if their versions and all parts of their
    /// blocks are.
    fn eq(&self, other: &Program) -> bool {
        let left = self.blocks();
        let right = other.blocks();
        self.version() == other.version() && same_blocks(left, right)
    }
}

impl Eq for Program {
    ghost laws = { on_texts_equal text_of };
}
