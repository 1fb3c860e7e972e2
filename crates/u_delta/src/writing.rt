//! The texts of messages, written. A writer that is refused memory leaves the bytes as they were.
ghost use Rattle.std.specs.Prelude.{◌≡◌, ◌++◌, ◌∷◌, [], map, length, OnOk, OnErr};
ghost use Rattle.std.specs.Fmt.{decimal};
ghost use Rattle.std.specs.List.{AllByRecursion};
ghost use Rattle.u_rule.specs.FiringReading.{IsFiring};
ghost use Rattle.u_rule.specs.FiringText.{firing_text};
ghost use Rattle.u_base.specs.Appending.{Extends};
ghost use Rattle.u_base.specs.Spaced.{ended};
ghost use Rattle.u_delta.specs.Messages.{BringsFirings};
ghost use Rattle.u_delta.specs.MessageText.{ask_line, delta_line, delta_lines, message_text};

use crate::message::{Ask, Delta, Message};
use crate::ranges::all_in_range;
use crate::written_context::push_line;
use std::alloc::AllocError;
use u_base::{cut_back, push_behind, push_long};
use u_rule::Firing;

/// Appends a space and a number. On an error the space may stand there.
#[tactic(auto, using(u_base::proofs::AppendingLaws::extends_same, u_base::proofs::AppendingLaws::extends_behind, std::proofs::Common::append_assoc))]
fn push_word(out: &mut Vec<u8>, n: u64) -> Result<(), AllocError>
    ensures ok { OnOk result (out.new.items ≡ out.old.items ++ (32 ∷ decimal n)) }
    ensures err { OnErr result (Extends out.old.items out.new.items) }
{
    out.push(b' ')?;
    push_long(out, n)
}

/// Appends two small numbers, each behind a space. On an error a part of them may stand there.
#[tactic(auto, using(u_base::proofs::AppendingLaws::extends_same, u_base::proofs::AppendingLaws::extends_behind, std::proofs::Common::append_assoc))]
fn push_pair(out: &mut Vec<u8>, first: u8, second: u8) -> Result<(), AllocError>
    ensures ok { OnOk result
        (out.new.items ≡ out.old.items ++ (32 ∷ (decimal first ++ (32 ∷ decimal second)))) }
    ensures err { OnErr result (Extends out.old.items out.new.items) }
{
    push_behind(out, b' ', u32::from(first))?;
    push_behind(out, b' ', u32::from(second))
}

/// Appends two numbers, each behind a space, and a newline. On an error a part of them may stand
/// there.
#[tactic(auto, using(u_base::proofs::AppendingLaws::extends_same, u_base::proofs::AppendingLaws::extends_behind, crate::proofs::Written::join3))]
fn push_last(out: &mut Vec<u8>, first: u64, second: u64) -> Result<(), AllocError>
    ensures ok { OnOk result (out.new.items ≡ out.old.items
        ++ ((32 ∷ decimal first) ++ ((32 ∷ decimal second) ++ (10 ∷ [])))) }
    ensures err { OnErr result (Extends out.old.items out.new.items) }
{
    push_word(out, first)?;
    push_word(out, second)?;
    out.push(b'\n')?;
    Ok(())
}

/// Appends the line of the ask. On an error a part of it may stand there.
#[tactic(auto, using(u_base::proofs::AppendingLaws::extends_same, u_base::proofs::AppendingLaws::extends_by, u_base::proofs::AppendingLaws::extends_behind, crate::proofs::Written::ask_written))]
fn push_ask(out: &mut Vec<u8>, ask: &Ask) -> Result<(), AllocError>
    ensures ok { OnOk result (out.new.items ≡ out.old.items ++ (ask_line ask.now ++ (10 ∷ []))) }
    ensures err { OnErr result (Extends out.old.items out.new.items) }
{
    out.extend_from_slice(b"u-ask 1")?;
    push_pair(out, ask.asker, ask.asked)?;
    push_last(out, ask.life, ask.count)
}

/// Appends the first line of the delta. On an error a part of it may stand there.
#[tactic(auto, using(u_base::proofs::AppendingLaws::extends_same, u_base::proofs::AppendingLaws::extends_by, u_base::proofs::AppendingLaws::extends_behind, crate::proofs::Written::delta_written))]
fn push_delta_line(out: &mut Vec<u8>, delta: &Delta) -> Result<(), AllocError>
    ensures ok { OnOk result (out.new.items ≡ out.old.items
        ++ (delta_line delta.now.sender delta.now.receiver delta.now.life delta.now.start
        (length delta.now.firings) ++ (10 ∷ []))) }
    ensures err { OnErr result (Extends out.old.items out.new.items) }
{
    out.extend_from_slice(b"u-delta 1")?;
    push_pair(out, delta.sender, delta.receiver)?;
    push_word(out, delta.life)?;
    push_last(out, delta.start, delta.firings.as_slice().len() as u64)
}

/// Appends a line for each firing. On an error a part of them may stand there.
#[tactic(auto, using(u_base::proofs::AppendingLaws::extends_same, u_base::proofs::AppendingLaws::extends_by, u_base::proofs::AppendingLaws::extends_behind, crate::proofs::Written::firings_more))]
fn push_firings(out: &mut Vec<u8>, firings: &[Firing]) -> Result<(), AllocError>
    ensures ok { OnOk result
        (out.new.items ≡ out.old.items ++ ended (map firing_text firings.now)) }
    ensures err { OnErr result (Extends out.old.items out.new.items) }
{
    let mut near = None;
    for firing in firings {
        let written = push_line(out, firing, near)?;
        near = Some(written);
    }
    Ok(())
}

/// Appends the text of each firing, in order, with a newline behind it. The parts of all firings are
/// in their ranges, as those of every firing in memory.
///
/// # Errors
/// `AllocError` where there is no memory. Then `out` is as it was.
#[tactic(auto, using(u_base::proofs::AppendingLaws::extends_cut))]
pub fn write_firings(firings: &[Firing], out: &mut Vec<u8>) -> Result<(), AllocError>
    ensures ok { OnOk result
        (out.new.items ≡ out.old.items ++ ended (map firing_text firings.now)) }
    ensures err { OnErr result (out.new.items ≡ out.old.items) }
    ensures valid { AllByRecursion IsFiring firings.now }
{
    all_in_range(firings);
    let len = out.len();
    let written = push_firings(out, firings);
    cut_back(out, len, written)
}

/// Appends the lines of the delta. On an error a part of them may stand there.
#[tactic(auto, using(u_base::proofs::AppendingLaws::extends_same, u_base::proofs::AppendingLaws::extends_behind, crate::proofs::Written::lines_written))]
fn push_delta(out: &mut Vec<u8>, delta: &Delta) -> Result<(), AllocError>
    ensures ok { OnOk result (out.new.items ≡ out.old.items ++ ended (delta_lines delta.now)) }
    ensures err { OnErr result (Extends out.old.items out.new.items) }
{
    push_delta_line(out, delta)?;
    push_firings(out, delta.firings.as_slice())?;
    out.extend_from_slice(b"end\n")?;
    Ok(())
}

/// Appends the text of the message. On an error a part of it may stand there.
#[tactic(auto, unfolding(crate::specs::MessageText::message_text))]
fn push_message(out: &mut Vec<u8>, message: &Message) -> Result<(), AllocError>
    ensures ok { OnOk result (out.new.items ≡ out.old.items ++ message_text message.now) }
    ensures err { OnErr result (Extends out.old.items out.new.items) }
{
    match message {
        Message::Ask(ask) => push_ask(out, ask),
        Message::Delta(delta) => push_delta(out, delta),
    }
}

/// The parts of each firing that the message brings are in their ranges. It does nothing.
fn message_in_range(message: &Message)
    ensures { BringsFirings message.now }
{
    if let Message::Delta(delta) = message {
        all_in_range(delta.firings.as_slice());
    }
}

/// Appends the text of the message: of an ask the line `u-ask 1 ASKER ASKED LIFE COUNT`, of a
/// delta the line `u-delta 1 SENDER RECEIVER LIFE START COUNT`, a line for each of its `COUNT`
/// firings, and the line `end`. The parts of all firings are in their ranges, as those of every
/// firing in memory.
///
/// Promise messages-are-written: exactly the text is appended that `read_message` reads as this message.
///
/// # Errors
/// `AllocError` where there is no memory. Then `out` is as it was.
#[tactic(auto, using(u_base::proofs::AppendingLaws::extends_cut))]
pub fn write_message(message: &Message, out: &mut Vec<u8>) -> Result<(), AllocError>
    ensures ok { OnOk result (out.new.items ≡ out.old.items ++ message_text message.now) }
    ensures err { OnErr result (out.new.items ≡ out.old.items) }
    ensures valid { BringsFirings message.now }
{
    message_in_range(message);
    let len = out.len();
    let written = push_message(out, message);
    cut_back(out, len, written)
}
