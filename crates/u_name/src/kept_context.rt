//! Names that are read one after another, of which most stand in the context of the one before.
ghost use Rattle.std.specs.Prelude.{◌≡◌, ◌++◌, Ok, Err, MatchResult, IfOk, IfSome};
ghost use Rattle.u_name.specs.NameReader as reader;
ghost use Rattle.u_name.specs.NameReader.{context_at, name_steps};
ghost use Rattle.u_name.specs.KeptContext.{IsItsText};

use crate::context::Context;
use crate::name::Name;
use crate::reading::{Cursor, Front, ReadFault, behind};
use std::alloc::{AllocError, Global};
use std::marker::Model;

/// A context with its text.
#[derive(Drop)]
struct Spelled<'a> {
    text: &'a [u8],
    context: Context,
}

/// The context of the name that was read last. The next name, where it begins with the same text, is in
/// it too: then no context is made anew. Contracts see nothing of it.
#[derive(Drop)]
pub struct KeptContext<'a> {
    spelled: Spelled<'a>,
}

impl<'a> Model for KeptContext<'a> {
    ghost use Rattle.u_name.specs.KeptContext.{IsItsText};

    ghost Value = { Unit {0} };

    ghost view = { λ _. tt };

    ghost invariant = { λ k. IsItsText k.spelled.context k.spelled.text.now };
}

impl<'a> KeptContext<'a> {
    /// The root, before any name is read.
    #[tactic(auto, using(crate::proofs::ContextTexts::root_text))]
    pub fn root() -> KeptContext<'a> {
        let spelled = Spelled {
            text: b"-",
            context: Context::root(),
        };
        KeptContext { spelled }
    }
}

/// What stands behind the text, if the bytes begin with it.
#[tactic(auto, using(crate::proofs::Fronts::one_more, crate::proofs::Fronts::all_there))]
pub fn behind_text<'a>(bytes: &'a [u8], text: &[u8]) -> Option<&'a [u8]>
    ensures { IfSome result (λ rest. bytes.now ≡ text.now ++ rest.now) }
{
    let many = text.len();
    if bytes.len() < many {
        return None;
    }
    let mut place = 0;
    while place < many {
        if bytes[place] != text[place] {
            return None;
        }
        place += 1;
    }
    Some(behind(bytes, many))
}

/// The context at the front with its text, and what is left behind it.
#[tactic(auto, using(crate::proofs::ContextTexts::front_text, crate::proofs::ContextTexts::deep_context, crate::proofs::WholeTexts::deep_within))]
fn front_spelled(alloc: Global, bytes: &[u8]) -> Result<Front<'_, Spelled<'_>>, AllocError>
    ensures { IfOk result (λ front. MatchResult front
        (λ found. IsItsText found.0.context found.0.text.now
        × (context_at bytes.now ≡ Ok (found.0.context, found.1.now)))
        (λ rest. context_at bytes.now ≡ Err rest.now)) }
{
    let mut cursor = Cursor { rest: bytes };
    match cursor.context(alloc) {
        Ok(context) => {
            let text = &bytes[..bytes.len() - cursor.rest.len()];
            Ok(Ok((Spelled { text, context }, cursor.rest)))
        }
        Err(ReadFault::Stuck) => Ok(Err(cursor.rest)),
        Err(ReadFault::Deep) => Ok(Err(behind(bytes, 64))),
        Err(ReadFault::NoMemory) => Err(AllocError),
    }
}

/// The name in the context, whose other parts stand at the front, and what is left behind these.
fn front_name_in<'a>(context: &Context, bytes: &'a [u8]) -> Result<Front<'a, Name>, AllocError>
    ensures { IfOk result (λ front. MatchResult front
        (λ found. reader.name_in context.now bytes.now ≡ Ok (found.0, found.1.now))
        (λ rest. reader.name_in context.now bytes.now ≡ Err rest.now)) }
{
    let mut cursor = Cursor { rest: bytes };
    let Ok(tail) = cursor.tail() else {
        return Ok(Err(cursor.rest));
    };
    let shared = context.copy()?;
    let name = Name::new(shared, tail.block, tail.statement as u16, tail.initiation);
    Ok(Ok((name, cursor.rest)))
}

/// The longest name at the front, and what is left behind it, as `front_name` returns them. Its context
/// is kept for the next one.
///
/// # Errors
/// `AllocError` where there is no memory.
#[tactic(auto, using(crate::proofs::ContextTexts::no_context))]
pub fn front_name_beside<'a>(
    alloc: Global,
    bytes: &'a [u8],
    kept: &mut KeptContext<'a>,
) -> Result<Front<'a, Name>, AllocError>
    ensures { IfOk result (λ front. MatchResult front
        (λ found. name_steps bytes.now ≡ Ok (found.0, found.1.now))
        (λ rest. name_steps bytes.now ≡ Err rest.now)) }
{
    if let Some(rest) = behind_text(bytes, kept.spelled.text) {
        return front_name_in(&kept.spelled.context, rest);
    }
    match front_spelled(alloc, bytes)? {
        Ok((spelled, rest)) => {
            kept.spelled = spelled;
            front_name_in(&kept.spelled.context, rest)
        }
        Err(rest) => Ok(Err(rest)),
    }
}
