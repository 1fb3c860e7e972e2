//! Where the statements of a finished program come from, by what was noted as they were drawn.
//!
//! A read has the name of its structure and not the one under which its value is defined, since that name
//! leads to the writes. A `pass` that only continues a long list has the place of what it continues.
ghost use Rattle.std.specs.Prelude.{◌≡◌, IfOk, length};
ghost use Rattle.u_compile.specs.Maps.{AreOrigins};

use crate::graph::Full;
use crate::notes::Notes;
use crate::origins::{BlockOrigins, Origin, Role};
use std::alloc::Global;
use u_program::{Block, Destination, Kind, Statement};

/// What a statement does. A `pass` that was added for long lists is a fan.
fn role_of(kind: &Kind, is_fan: bool) -> Role {
    match kind {
        Kind::Begin | Kind::Param(_) => Role::Parameter,
        Kind::Const(_) => Role::Constant,
        Kind::Pass => { if is_fan { Role::Fan } else { Role::Test } }
        Kind::Unary(_) | Kind::Binary(_) | Kind::Alloc => Role::Operator,
        Kind::Fetch => Role::Read,
        Kind::Select => Role::Choice,
        Kind::Switch => Role::Gate,
        Kind::Enter(_) => Role::Enter,
        Kind::Next => Role::Next,
        Kind::Last => Role::Last,
        Kind::Leave => Role::Leave,
        Kind::Apply(_, _) | Kind::Ask(_, _) => Role::Call,
        Kind::Back => Role::Outcome,
        Kind::Store => Role::Write,
        Kind::End => Role::End,
    }
}

/// Whether the list names a statement.
fn names(list: &[Destination], number: usize) -> bool {
    for to in list {
        if to.statement as usize == number {
            return true;
        }
    }
    false
}

/// The number of the first statement that sends to one.
fn sender(statements: &[Statement], number: usize) -> Option<usize> {
    for (before, statement) in statements.iter().enumerate() {
        if names(statement.destinations(), number) || names(statement.otherwise(), number) {
            return Some(before + 1);
        }
    }
    None
}

/// The statement, of the first so many, that a statement belongs to: itself, or that which it stands behind, where it
/// was added for long lists.
fn owner(statements: &[Statement], count: usize, number: usize) -> Option<usize> {
    let mut at = number;
    for _ in statements {
        if at <= count {
            return Some(at);
        }
        match sender(statements, at) {
            Some(before) => at = before,
            None => return None,
        }
    }
    None
}

/// Where the statement with this number comes from.
fn origin_of(
    statements: &[Statement],
    notes: &Notes,
    number: usize,
    kind: &Kind,
) -> Option<Origin> {
    let owner = owner(statements, notes.len(), number)?;
    Some(Origin {
        place: notes.place_of(owner)?,
        role: role_of(kind, owner != number),
        name: notes.name_of(owner),
    })
}

/// Where the statements of the block come from.
///
/// # Errors
/// `Misplaced` where one comes from nowhere, `NoMemory` where there is no memory.
fn block_origins(alloc: Global, block: &Block, notes: &Notes) -> Result<Vec<Origin>, Full>
    ensures { IfOk result (λ v. length v.items ≡ length block.now.statements) }
{
    let statements = block.statements();
    let mut origins = Vec::new(alloc);
    for (before, statement) in statements.iter().enumerate() {
        match origin_of(statements, notes, before + 1, statement.kind()) {
            Some(origin) => origins.push(origin)?,
            None => return Err(Full::Misplaced),
        }
    }
    Ok(origins)
}

/// Where the statements of the blocks come from, by the notes of each.
///
/// # Errors
/// `Misplaced` where one comes from nowhere, `NoMemory` where there is no memory.
pub(crate) fn origins_of(
    alloc: Global,
    blocks: &[Block],
    notes: &[Notes],
) -> Result<Vec<BlockOrigins>, Full>
    ensures { IfOk result (λ v. AreOrigins blocks.now v.items) }
{
    let mut found: Vec<BlockOrigins> = Vec::new(alloc);
    for block in blocks {
        let Some(noted) = notes.get(found.len()) else {
            return Err(Full::Misplaced);
        };
        let origins = block_origins(alloc, block, noted)?;
        let name = *block.name();
        found.push(BlockOrigins { name, origins })?;
    }
    Ok(found)
}
