//! Whether the blocks of a program are the procedures of a source.
ghost use Rattle.std.specs.Prelude.{◌≡◌, ◌+◌, ◌∷◌, Some, IfSome, IsTrue};
ghost use Rattle.u_scope.specs.Clashes.{name_at};
ghost use Rattle.u_program.specs.Parts.{BlockParts};
ghost use Rattle.u_compile.specs.Procedures.{ends_procedure, AreProcedures};

use u_program::Block;
use u_scope::name_at;
use u_source::{Form, Node, Token};

/// Whether a procedure ends with a node of that form.
fn ends_procedure(form: Form) -> bool
    ensures { result ≡ ends_procedure form }
{
    matches!(form, Form::AddProcedure)
}

/// Whether the token behind that one is the name of the block.
fn is_named(tokens: &[Token], number: usize, block: &Block) -> bool
    ensures { IsTrue result → name_at tokens.now (number + 1) ≡ Some block.now.name }
{
    let Some(behind) = number.checked_add(1) else {
        return false;
    };
    match name_at(tokens, behind) {
        Some(name) => name == *block.name(),
        None => false,
    }
}

/// The blocks behind the first one, if that has the name behind the token.
fn behind_named<'a>(tokens: &[Token], number: usize, blocks: &'a [Block]) -> Option<&'a [Block]>
    ensures { IfSome result (λ rest. (b : BlockParts) × (blocks.now ≡ b ∷ rest.now)
        × (name_at tokens.now (number + 1) ≡ Some b.name)) }
{
    match blocks.split_first() {
        Some((block, rest)) if is_named(tokens, number, block) => Some(rest),
        _ => None,
    }
}

/// Whether there is one block for each procedure, in their order, and with its name.
#[tactic(auto, using(crate::proofs::ProcedureLaws::one_more_named, crate::proofs::ProcedureLaws::none_more))]
pub(crate) fn are_procedures(tokens: &[Token], nodes: &[Node], blocks: &[Block]) -> bool
    ensures { IsTrue result → AreProcedures tokens.now nodes.now blocks.now }
{
    let mut rest = nodes;
    let mut left = blocks;
    while let Some((node, others)) = rest.split_first() {
        if ends_procedure(node.form) {
            match behind_named(tokens, node.token, left) {
                Some(behind) => left = behind,
                None => return false,
            }
        }
        rest = others;
    }
    left.is_empty()
}
