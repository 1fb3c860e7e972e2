//! Output.
//!
//! The whole report is made before the first byte is written, so a fault of the run leaves standard output
//! empty. It is written without a buffer, so there is nothing to flush.
ghost use Rattle.std.specs.Prelude.{◌≡◌, ◌++◌, IfOk, OnOk, OnErr, length, MatchResult, ◌≤◌, drop};
ghost use Rattle.u_commands.specs.Outputs.{WritesAll, WritesPrefix, numbered};

use std::alloc::{AllocError, Global};
use std::io::Write;
use u_base::push_long;

/// The output could not be written.
#[derive(Debug, Drop)]
pub struct Unwritten;

/// The bytes behind the first ones, so many.
fn behind(bytes: &[u8], count: usize) -> &[u8]
    requires { count ≤ length bytes.now }
    ensures { result.now ≡ drop count bytes.now }
{
    &bytes[count..]
}

/// Writes all bytes, in order. A write that fails or takes no byte ends it.
///
/// Promise failed-writes: after an error a prefix of the bytes is written.
pub fn write_whole<W: Write>(writer: &mut W, bytes: &[u8]) -> Result<(), Unwritten>
    ensures ok { OnOk result (WritesAll (W.contents writer.old) (W.contents writer.new) bytes.now) }
    ensures err { OnErr result
        (WritesPrefix (W.contents writer.old) (W.contents writer.new) bytes.now) }
{
    let mut rest = bytes;
    while !rest.is_empty() {
        match writer.write(rest) {
            Ok(0) | Err(_) => return Err(Unwritten),
            Ok(count) => rest = behind(rest, count),
        }
    }
    match writer.flush() {
        Ok(()) => Ok(()),
        Err(_) => Err(Unwritten),
    }
}

/// The bytes, and the others behind them.
pub(crate) fn joined(alloc: Global, front: &[u8], rest: &[u8]) -> Result<Vec<u8>, AllocError>
    ensures { IfOk result (λ v. v.items ≡ front.now ++ rest.now) }
{
    let mut all = Vec::new(alloc);
    all.extend_from_slice(front)?;
    all.extend_from_slice(rest)?;
    Ok(all)
}

/// Appends the word and the number behind it.
#[tactic(auto, using(std::proofs::lemmas::List::append_assoc))]
pub fn push_numbered(out: &mut Vec<u8>, word: &[u8], number: u64) -> Result<(), AllocError>
    ensures { IfOk result (λ u. out.new.items ≡ out.old.items ++ numbered word.now number) }
{
    out.extend_from_slice(word)?;
    push_long(out, number)?;
    Ok(())
}
