//! Bytes that are written out whole.
//!
//! They are whole lines, 4,096 bytes at most, so that a member that is killed cuts no line on a pipe.
ghost use Rattle.std.specs.Prelude.{◌≡◌, ◌≤◌, OnOk, OnErr, length, drop};
ghost use Rattle.std.specs.Io.KnownBytes.{Appends, Keeps};
ghost use Rattle.u_share.specs.Headline.{WritesFront};

use std::io::Write;

/// The output could not be written.
#[derive(Debug, Drop)]
pub(crate) struct Unwritten;

/// The bytes behind the first ones, so many.
fn behind(bytes: &[u8], count: usize) -> &[u8]
    requires { count ≤ length bytes.now }
    ensures { result.now ≡ drop count bytes.now }
{
    &bytes[count..]
}

/// Writes all bytes, in order, in one call where the writer takes them so. A write that fails or takes
/// no byte ends it; what was written before is a front of the bytes.
pub(crate) fn write_out<W: Write>(writer: &mut W, bytes: &[u8]) -> Result<(), Unwritten>
    ensures ok { OnOk result (Appends (W.contents writer.old) (W.contents writer.new) bytes.now) }
    ensures err { OnErr result
        (WritesFront (W.contents writer.old) (W.contents writer.new) bytes.now) }
{
    let mut rest = bytes;
    while !rest.is_empty() {
        match writer.write(rest) {
            Ok(0) | Err(_) => return Err(Unwritten),
            Ok(count) => rest = behind(rest, count),
        }
    }
    Ok(())
}
