//! What the bytes of one read do.
ghost use Rattle.std.specs.Prelude.{◌≡◌, ◌≤◌, ◌<◌, ◌+◌, ◌-◌, ◌^◌, ◌++◌, ◌∷◌, [], OnOk, length};
ghost use Rattle.u_base.specs.Pieces.{pieces};
ghost use Rattle.u_share.specs.Headline.{member};
ghost use Rattle.u_share.specs.Calls.{IsBegun, HearAnswer};

use crate::fault::ShareFault;
use crate::splitting::Splitter;
use crate::taking::take_line;
use std::alloc::Global;
use std::io::Write;
use u_base::cut;
use u_machine::Machine;

/// The open line ends with these bytes. Answers whether it is empty.
fn end_line<N: Write>(
    alloc: Global,
    machine: &mut Machine<'_>,
    splitter: &mut Splitter,
    last: &[u8],
    notices: &mut N,
) -> Result<bool, ShareFault>
    requires begun { IsBegun splitter.old.begun.items }
    requires last { pieces 10 last.now ≡ ([], last.now) }
    requires room { splitter.old.ended < 2 ^ 64 - 1 }
    ensures answer { HearAnswer (member machine.old splitter.old.begun.items splitter.old.ended)
        (last.now ++ 10 ∷ []) (N.contents notices.old) result
        (member machine.new splitter.new.begun.items splitter.new.ended) (N.contents notices.new) }
    ensures ended { OnOk result (splitter.new.ended ≡ splitter.old.ended + 1) }
{
    splitter.extend(last)?;
    take_line(alloc, machine, &splitter.begun, splitter.ended + 1, notices)?;
    let is_empty = splitter.begun.is_empty();
    splitter.end();
    Ok(is_empty)
}

/// Takes the lines that end within these bytes. Answers whether one of them is empty.
pub(crate) fn hear<N: Write>(
    alloc: Global,
    machine: &mut Machine<'_>,
    splitter: &mut Splitter,
    bytes: &[u8],
    notices: &mut N,
) -> Result<bool, ShareFault>
    requires begun { IsBegun splitter.old.begun.items }
    requires room { splitter.old.ended + length bytes.now < 2 ^ 64 }
    ensures answer { HearAnswer (member machine.old splitter.old.begun.items splitter.old.ended)
        bytes.now (N.contents notices.old) result
        (member machine.new splitter.new.begun.items splitter.new.ended) (N.contents notices.new) }
    ensures ended { OnOk result
        (splitter.new.ended ≤ splitter.old.ended + length bytes.now) }
{
    let mut rest = bytes;
    let mut has_empty = false;
    while let Some((last, others)) = cut(rest, b'\n') {
        let is_empty = end_line(alloc, machine, splitter, last, notices)?;
        has_empty = has_empty || is_empty;
        rest = others;
    }
    splitter.extend(rest)?;
    Ok(has_empty)
}
