//! The command `compile`.
ghost use Rattle.std.specs.Prelude.{◌≡◌, IfOk, MatchResult};
ghost use Rattle.u_commands.specs.Inputs.{IsCompileFault};
ghost use Rattle.u_commands.specs.Compiles.{compile_text, Compiles, CompileRefused};

use crate::command_error::CommandError;
use crate::told::Told;
use std::alloc::{AllocError, Global};
use u_compile::Compiled;

/// The text of the program, or its map if that is asked for.
fn text_of(alloc: Global, compiled: &Compiled, map: bool) -> Result<Vec<u8>, AllocError>
    ensures { IfOk result
        (λ v. v.items ≡ compile_text compiled.now.program compiled.now.origins map) }
{
    let mut text = Vec::new(alloc);
    if map {
        compiled.write_map(&mut text)?;
    } else {
        compiled.program().write_text(&mut text)?;
    }
    Ok(text)
}

/// The text of the program that the source with these bytes compiles to; if `map` is true, in place of that the
/// map: which place of the source each statement stands for. The exit status is 0.
///
/// Promise compile-command: the text is of the program that `compile` makes of these bytes, of version 2, with a
/// block for each procedure; it breaks no rule and is determinate.
///
/// Promise map-text: if `map` is true, it is a map with one line for each statement of that program, in order.
///
/// # Errors
/// `Source` if the source is refused, and want of memory.
pub fn compile(alloc: Global, source: &[u8], map: bool) -> Result<Told, CommandError>
    ensures { MatchResult result (λ t. Compiles source.now map t.text.items t.status)
        (λ fault. CompileRefused source.now fault) }
{
    let compiled = match u_compile::compile(alloc, source) {
        Ok(compiled) => compiled,
        Err(error) => return Err(CommandError::Source(error)),
    };
    let text = text_of(alloc, &compiled, map)?;
    Ok(Told { text, status: 0 })
}
