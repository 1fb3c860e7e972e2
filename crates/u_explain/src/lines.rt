//! What is told of a line that is refused.
ghost use Rattle.std.specs.Prelude.{◌≡◌, ◌≤◌, ◌++◌, ◌∷◌, List, ℕ, suc, length};
ghost use Rattle.u_base.specs.Pieces.{lines};
ghost use Rattle.u_program.specs.FirstBad.{Begins};
ghost use Rattle.u_program.specs.Limits.{limits_of};
ghost use Rattle.u_explain.specs.Left.{IsLongestFront};
ghost use Rattle.u_explain.specs.Places.{IsPlace, IsAllowed};

use crate::expected::expected_behind;
use crate::line_causes::{Refused, tell_cause};
use crate::scanning::behind_lines;
use crate::source::Marked;
use crate::telling::{Quoted, Told};
use crate::telling_expected::tell_expected;
use crate::text_place::{TextPlace, line_left};
use std::alloc::{AllocError, Global};
use u_base::cut;
use u_program::{ReadError, read};

/// How many bytes of the line the longest front has that begins some line which may stand at the
/// place. It is 0 if no line may stand there.
fn offset_of(line: &[u8], place: TextPlace) -> usize
    ensures { (before : List (List ℕ)) → IsPlace before place
        → IsLongestFront (IsAllowed before) line.now result }
{
    let left = line_left(line, place);
    if left.len() <= line.len() {
        line.len() - left.len()
    } else {
        0
    }
}

/// The line of that number, from 1, or the bytes after the last newline if there are fewer lines, with
/// the place where it stands and its offset.
///
/// Promise refused-at: if the lines before it begin a program, the offset is the length of the longest front
/// of the line with which some program goes on.
pub fn refused_at(bytes: &[u8], number: usize) -> Refused<'_>
    requires some { 1 ≤ number }
    ensures { (before : List (List ℕ)) (line : List ℕ) (others : List (List ℕ))
        → lines bytes.now ≡ before ++ (line ∷ others) → number ≡ suc (length before)
        → Begins limits_of before → (result.line.now ≡ line) × (result.number ≡ number)
        × IsLongestFront (IsAllowed before) line result.offset }
{
    let behind = behind_lines(bytes, number - 1);
    match cut(behind.rest, b'\n') {
        Some((line, _)) => Refused {
            place: behind.place,
            number: behind.number,
            line,
            is_ended: true,
            offset: offset_of(line, behind.place),
        },
        None => Refused {
            place: behind.place,
            number: behind.number,
            line: behind.rest,
            is_ended: false,
            offset: offset_of(behind.rest, behind.place),
        },
    }
}

/// What stands at the offset.
fn tell_found(out: &mut String, it: &Refused<'_>) -> Told {
    match it.byte() {
        None if it.is_ended => out.push_str("found: the end of the line\n"),
        None => out.push_str("found: the end of the file\n"),
        Some(b' ') => out.push_str("found: a space\n"),
        Some(b'\t') => out.push_str("found: a tab\n"),
        Some(b'\r') => out.push_str("found: a carriage return\n"),
        Some(byte @ b'!'..=b'~') => writeln!(out, "found: the byte {}", Quoted(&[byte])),
        Some(byte) => writeln!(
            out,
            "found: a byte that is no printable ASCII, {}",
            Quoted(&[byte])
        ),
    }
}

/// What a place of a file that ends there lacks.
fn lack_of(place: TextPlace) -> &'static str {
    match place {
        TextPlace::Header => "the file is empty",
        TextPlace::FirstBlock(_) =>
            "the file ends behind its first line; a program has one block at least",
        TextPlace::Inside { .. } =>
            "the file ends behind a block that has no statement yet; each block has one at least",
    }
}

/// The line with the mark, what was expected, what stands there, and the cause.
fn tell_refused(out: &mut String, it: &Refused<'_>) -> Told {
    let Refused {
        number,
        line,
        offset,
        ..
    } = *it;
    write!(
        out,
        "{}",
        Marked {
            number,
            line,
            offset
        }
    )?;
    let expected = expected_behind(it.place, line.get(..offset).unwrap_or(line));
    out.push_str("expected: ")?;
    tell_expected(out, it.place, &expected)?;
    out.push_str("\n")?;
    tell_found(out, it)?;
    out.push_str("cause: ")?;
    match it.byte() {
        None if !it.is_ended && line.is_empty() => out.push_str(lack_of(it.place))?,
        None if !it.is_ended => out.push_str("the file ends inside of its last line")?,
        _ => tell_cause(out, it, &expected)?,
    }
    out.push_str("\n")
}

/// Appends what is told of the line of that number, which is not allowed there. Lines count from 1.
pub fn tell_line(out: &mut String, bytes: &[u8], number: usize) -> Told {
    if number == 0 {
        return Ok(());
    }
    tell_refused(out, &refused_at(bytes, number))
}

/// Whether the text lacks nothing but a newline in its last line.
fn lacks_newline(alloc: Global, bytes: &[u8]) -> Result<bool, AllocError> {
    let mut ended = Vec::from_slice(alloc, bytes)?;
    ended.push(b'\n')?;
    match read(alloc, &ended) {
        Ok(_) | Err(ReadError::Truncated) => Ok(true),
        Err(ReadError::NoMemory) => Err(AllocError),
        Err(_) => Ok(false),
    }
}

/// Appends what is told of a text that is cut short: each line that ends with a newline is allowed.
pub fn tell_cut_short(out: &mut String, alloc: Global, bytes: &[u8]) -> Told {
    let last = refused_at(bytes, bytes.len() + 1);
    let Refused { number, line, .. } = last;
    if line.is_empty() || !lacks_newline(alloc, bytes)? {
        return tell_refused(out, &last);
    }
    let marked = Marked {
        number,
        line,
        offset: line.len(),
    };
    write!(
        out,
        "{marked}expected: a newline at the end of the last line\nfound: the end of the file\ncause: the \
            last line has no newline; each line ends with one, the last line too\n"
    )
}
