//! The command `explain`.
ghost use Rattle.std.specs.Prelude.{◌≡◌, IfOk, MatchResult};
ghost use Rattle.u_program.specs.Text.{program_text};
ghost use Rattle.u_commands.specs.Checks.{strictness_line, determinacy_line};
ghost use Rattle.u_commands.specs.Explains.{TellsBehind, ExplainsStrictness, ExplainsDeterminacy, TellsAllowed};
ghost use Rattle.u_commands.specs.Explains.{ExplainsAllowed, ExplainsRefusal, Explains, IsNoMemory};

use crate::checking::{push_determinacy, push_strictness};
use crate::command_error::{CommandError, place_of};
use crate::input::{Input, is_source};
use crate::told::Told;
use std::alloc::{AllocError, Global};
use u_base::cut;
use u_check::Checked;
use u_determinate::{Determinacy, MeetingPoint, Strictness, determinacy, strictness};
use u_explain::{explain_loose, explain_meeting, show_marked};
use u_source::Position;

/// What is said of a program that is not refused and is determinate.
const NOTHING: &[u8] = b"nothing to explain\n";

/// The text of the program.
fn text_of(alloc: Global, checked: &Checked) -> Result<Vec<u8>, AllocError>
    ensures { IfOk result
        (λ v. v.items ≡ program_text checked.now.version checked.now.blocks) }
{
    let mut text = Vec::new(alloc);
    checked.program().write_text(&mut text)?;
    Ok(text)
}

/// The line of the text with this number, from 1, without its newline; nothing if there is none.
fn line_at(text: &[u8], number: usize) -> &[u8] {
    let mut rest = text;
    for _ in 1..number {
        match cut(rest, b'\n') {
            Some((_, others)) => rest = others,
            None => return &[],
        }
    }
    match cut(rest, b'\n') {
        Some((line, _)) => line,
        None => rest,
    }
}

/// Appends the line of the source with a mark under the place.
fn push_shown(out: &mut Vec<u8>, source: &[u8], place: Position) -> Result<(), AllocError> {
    let shown = line_at(source, place.line);
    show_marked(out, place.line, shown, place.column.saturating_sub(1))
}

/// Appends where the fault lies, and of a program's text what was wanted there.
fn push_reason(
    out: &mut Vec<u8>,
    alloc: Global,
    bytes: &[u8],
    fault: &CommandError,
) -> Result<(), AllocError> {
    if let CommandError::Source(error) = fault {
        return match place_of(error) {
            Some(place) => push_shown(out, bytes, place),
            None => Ok(()),
        };
    }
    match u_explain::explain(alloc, bytes)? {
        Some(why) => out.extend_from_slice(&why),
        None => Ok(()),
    }
}

/// The line of the fault, and after it where the fault lies.
fn refusal(alloc: Global, bytes: &[u8], fault: &CommandError) -> Result<Vec<u8>, AllocError> {
    let mut text = Vec::new(alloc);
    let line = format!(in alloc; "{fault}\n")?;
    text.extend_from_slice(line.as_bytes())?;
    push_reason(&mut text, alloc, bytes, fault)?;
    Ok(text)
}

/// The line of the first place where a program is not strict, and after it why.
#[tactic(auto, using(crate::proofs::Explained::tells_behind))]
fn loose_text(
    alloc: Global,
    checked: &Checked,
    strictness: Strictness,
) -> Result<Vec<u8>, AllocError>
    ensures { IfOk result (λ v. TellsBehind (strictness_line strictness) v.items) }
{
    let mut text = Vec::new(alloc);
    push_strictness(&mut text, strictness)?;
    let program = text_of(alloc, checked)?;
    let why = explain_loose(alloc, &program, checked, strictness)?;
    text.extend_from_slice(&why)?;
    Ok(text)
}

/// What is said of an allowed program, if it is asked whether it is strict.
#[tactic(auto, using(crate::proofs::Explained::explains_strictness))]
fn strictness_text(alloc: Global, checked: &Checked) -> Result<Vec<u8>, AllocError>
    ensures { IfOk result (λ v. ExplainsStrictness checked.now.blocks v.items) }
{
    let strictness = strictness(alloc, checked)?;
    match strictness {
        Strictness::Strict => {
            let mut text = Vec::new(alloc);
            text.extend_from_slice(b"strict\n")?;
            Ok(text)
        }
        Strictness::Loose { .. } => loose_text(alloc, checked, strictness),
    }
}

/// The line of the first place where a program is not determinate, and after it why.
#[tactic(auto, using(crate::proofs::Explained::tells_behind))]
fn meeting_text(
    alloc: Global,
    checked: &Checked,
    place: MeetingPoint,
) -> Result<Vec<u8>, AllocError>
    ensures { IfOk result (λ v. TellsBehind (determinacy_line (Determinacy.Meets place)) v.items) }
{
    let mut text = Vec::new(alloc);
    push_determinacy(&mut text, Determinacy::Meets(place))?;
    let program = text_of(alloc, checked)?;
    let why = explain_meeting(alloc, &program, checked, place)?;
    text.extend_from_slice(&why)?;
    Ok(text)
}

/// What is said of an allowed program, if it is not.
#[tactic(auto, using(crate::proofs::Explained::explains_determinacy))]
fn determinacy_text(alloc: Global, checked: &Checked) -> Result<Vec<u8>, AllocError>
    ensures { IfOk result (λ v. ExplainsDeterminacy checked.now.blocks v.items) }
{
    match determinacy(alloc, checked)? {
        Determinacy::Determinate => {
            let mut text = Vec::new(alloc);
            text.extend_from_slice(NOTHING)?;
            Ok(text)
        }
        Determinacy::Meets(place) => meeting_text(alloc, checked, place),
    }
}

/// What is said of an allowed program: of whether it is strict, if that is asked for, else of whether
/// it is determinate.
fn allowed_text(alloc: Global, checked: &Checked, strict: bool) -> Result<Vec<u8>, AllocError>
    ensures { IfOk result (λ v. TellsAllowed checked.now.blocks strict v.items) }
{
    if strict {
        strictness_text(alloc, checked)
    } else {
        determinacy_text(alloc, checked)
    }
}

/// What is said of an allowed program, with the status 0.
fn allowed(alloc: Global, checked: &Checked, strict: bool) -> Result<Told, CommandError>
    ensures { MatchResult result
        (λ t. ExplainsAllowed checked.now.blocks strict t.text.items t.status) IsNoMemory }
{
    let text = allowed_text(alloc, checked, strict)?;
    Ok(Told { text, status: 0 })
}

/// What is said of a file that is refused, with the status of the fault.
fn refused(alloc: Global, bytes: &[u8], fault: CommandError) -> Result<Told, CommandError>
    ensures { MatchResult result (λ t. ExplainsRefusal fault t.status) IsNoMemory }
{
    let status = fault.status();
    if status == 5 {
        return Err(fault);
    }
    let text = refusal(alloc, bytes, &fault)?;
    Ok(Told { text, status })
}

/// Why the file with this path and these bytes is refused: the line that `check` says, and after it for people
/// where the fault lies, and of a program's text what was wanted there. Of a program that is not refused and not
/// determinate it tells the line of `check` that says so, and after it for people what meets where; of a
/// determinate one `nothing to explain`. If `strict` is asked for, it tells of a program that is not refused in
/// place of that the line of `check` on whether it is strict, and if it is not, after it for people which rule it
/// breaks and how. The exit status is that of `check`.
///
/// Promise explain-command: the status is 0 exactly if the file stands for a program that breaks no rule, and else
/// that of the fault.
///
/// # Errors
/// `NoMemory`, also of `Source`.
pub fn explain(alloc: Global, path: &str, bytes: &[u8], strict: bool) -> Result<Told, CommandError>
    ensures { MatchResult result (λ t. Explains path.now bytes.now strict t.text.items t.status)
        IsNoMemory }
{
    match Input::read(alloc, path, bytes) {
        Ok(input) => allowed(alloc, &input.checked, strict),
        Err(fault) => refused(alloc, bytes, fault),
    }
}
