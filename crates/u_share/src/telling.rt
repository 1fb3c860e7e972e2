//! Notices of lines that are skipped.
ghost use Rattle.std.specs.Prelude.{◌≡◌, ◌++◌, IfOk, MatchResult};
ghost use Rattle.std.specs.Io.KnownBytes.{Appends};
ghost use Rattle.u_share.specs.Lines.{notice};
ghost use Rattle.u_share.specs.Calls.{Tells};

use crate::fault::ShareFault;
use crate::line_fault::LineFault;
use crate::output::write_out;
use std::alloc::{AllocError, Global};
use std::io::Write;
use u_base::push_long;

/// The notice of the line with that number.
fn notice_of(alloc: Global, number: u64, fault: LineFault) -> Result<Vec<u8>, AllocError>
    ensures { IfOk result (λ v. v.items ≡ notice number fault) }
{
    let mut text = Vec::new(alloc);
    text.extend_from_slice(b"u: line ")?;
    push_long(&mut text, number)?;
    text.push(b' ')?;
    text.extend_from_slice(fault.text().as_bytes())?;
    text.push(b'\n')?;
    Ok(text)
}

/// Writes the notice of the line with that number.
pub(crate) fn tell<N: Write>(
    alloc: Global,
    number: u64,
    fault: LineFault,
    notices: &mut N,
) -> Result<(), ShareFault>
    ensures { Tells (N.contents notices.old) (notice number fault) result (N.contents notices.new) }
{
    let text = notice_of(alloc, number, fault)?;
    match write_out(notices, &text) {
        Ok(()) => Ok(()),
        Err(_) => Err(ShareFault::NotWritten),
    }
}
