//! What is told of a program's text.
ghost use Rattle.std.specs.Prelude.{◌≡◌, ◌↔◌, IsNone, IsSome, IfOk};
ghost use Rattle.u_check.specs.Rules.{IsChecked};
ghost use Rattle.u_program.specs.declared.read_error.ReadError.TheVariants as errors;
ghost use Rattle.u_explain.specs.Accepted.{IsAccepted};

use crate::lines::{tell_cut_short, tell_line};
use crate::telling_breach::tell_rule;
use std::alloc::{AllocError, Global};
use u_check::check;
use u_program::{Program, ReadError, read};

/// What is told of a program's text that was read: nothing if it breaks no rule.
fn program_text(
    alloc: Global,
    bytes: &[u8],
    program: Program,
) -> Result<Option<Vec<u8>>, AllocError>
    ensures { IfOk result (λ text. IsNone text ↔ IsChecked program.blocks) }
{
    let refused = match check(program) {
        Ok(_) => return Ok(None),
        Err(refused) => refused,
    };
    let mut out = String::new(alloc);
    tell_rule(&mut out, bytes, &refused.program, &refused.breach)?;
    Ok(Some(out.into_bytes()))
}

/// What is told of a text that was not read.
fn error_text(alloc: Global, bytes: &[u8], error: ReadError) -> Result<Vec<u8>, AllocError>
    ensures { IfOk result (λ _. error ≡ errors.NoMemory → ⊥) }
{
    let mut out = String::new(alloc);
    match error {
        ReadError::BadLine(number) | ReadError::TooMany(number) => {
            tell_line(&mut out, bytes, number)?
        }
        ReadError::Truncated => tell_cut_short(&mut out, alloc, bytes)?,
        ReadError::NoMemory => return Err(AllocError),
    }
    Ok(out.into_bytes())
}

/// Why the bytes are no program that the checker takes, for people: some lines of text, each with its
/// newline.
///
/// Of a text that is refused it shows the line with its number and a mark under the byte from which
/// on no allowed line goes on (`line_left`), and says what was expected there, what stands there,
/// and the cause. Of a program that breaks a rule it says the rule, the block, the statement's line
/// with a mark under what breaks it, and the cause; and it shows the other line that is involved,
/// if there is one.
///
/// Promise nothing-to-explain: `None` is returned exactly if the bytes are the text of a program that breaks
/// no rule, unless memory runs out.
///
/// # Errors
/// `AllocError` if there is no memory.
pub fn explain(alloc: Global, bytes: &[u8]) -> Result<Option<Vec<u8>>, AllocError>
    ensures { IfOk result (λ text. IsNone text ↔ IsAccepted bytes.now) }
{
    let error = match read(alloc, bytes) {
        Ok(program) => return program_text(alloc, bytes, program),
        Err(error) => error,
    };
    match error_text(alloc, bytes, error) {
        Ok(text) => Ok(Some(text)),
        Err(error) => Err(error),
    }
}
