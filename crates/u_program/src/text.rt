//! The text of a program, read.
//!
//! As long as all lines with a newline are allowed, whatever stands after the last newline makes the text
//! cut short.
ghost use Rattle.std.specs.Prelude.{◌≡◌, ◌<◌, ◌∷◌, [], length, MatchOption, MatchResult};
ghost use Rattle.u_program.specs.declared.read_error.ReadError.TheVariants as errors;
ghost use Rattle.u_program.specs.declared.program.Version.{Version};
ghost use Rattle.u_program.specs.Parts.{ProgramParts};
ghost use Rattle.u_program.specs.Text.{header};
ghost use Rattle.u_program.specs.Begun.{IsRead};
ghost use Rattle.u_program.specs.Answer.{IsTextOf, IsReadError, fault_at};

use crate::part::{LineFault, PartialProgram};
use crate::program::{Program, Version};
use crate::read_error::ReadError;
use std::alloc::Global;
use u_base::cut;

/// The program whose text the bytes are. Each program has one text, which `Program::write_text`
/// writes, so the two are inverse to each other.
///
/// A line ends with a newline. Lines are judged from the first one, and the first that no program could have
/// there is named: by `BadLine`, or by `TooMany` where the line is right but for the number of blocks (64),
/// of loops of a block (99), of statements of a block (999) or of destinations of a list (16). Where no such
/// line is found, and the bytes are no program's text, the answer is `Truncated`, whatever stands behind the
/// last newline.
///
/// The first line is `u-program 1` or `u-program 2` and says the version. `block NAME` begins a block.
/// Behind it stand the lines of its loops, `loop NUMBER HELD_BY`, where `HELD_BY` is 0 or the number of
/// an earlier loop, and behind them its statements, `NUMBER REGION KIND [ARGUMENT..] -> DESTINATION..`,
/// of a `switch` `-> DESTINATION.. / DESTINATION..` (for true, and for false). Loops and statements are
/// numbered 1, 2, and so on. An argument is the constant of a `const`, the loop of an `enter` (1 to 99),
/// the statement of an `apply` (1 to 999) and in version 2 how many arguments it has (1 to 4), or the
/// place of a `param` (2 to 4), which version 2 has; other kinds have none. `apply`, `store` and `end`
/// list no destinations. Source of the language: Arvind and Gostelow 1982, of its structures Arvind and
/// Nikhil 1990; the text is this project's profile.
///
/// Promise programs-are-read: what is read has the bytes as its text, and the text of a program is refused
/// only if there is no memory.
///
/// Promise first-bad-line: an error names the first line that no program can have there, and `Truncated` is
/// returned only if there is none.
#[tactic(auto, using(crate::proofs::Same::read_back))]
pub fn read(alloc: Global, bytes: &[u8]) -> Result<Program, ReadError>
    ensures answer { MatchResult result (λ program. IsTextOf bytes.now program)
        (λ fault. IsReadError bytes.now fault) }
    ensures back { (p : ProgramParts) → IsTextOf bytes.now p
        → MatchResult result (λ program. program ≡ p) (λ fault. fault ≡ errors.NoMemory) }
{
    read_lines(alloc, bytes)
}

/// Reads the first line, which says the version, and then the others.
fn read_lines(alloc: Global, bytes: &[u8]) -> Result<Program, ReadError>
    ensures { MatchResult result (λ program. IsTextOf bytes.now program)
        (λ fault. IsReadError bytes.now fault) }
{
    let Some((first, rest)) = cut(bytes, b'\n') else {
        return Err(ReadError::Truncated);
    };
    let Some(version) = version_of(first) else {
        return Err(ReadError::BadLine(1));
    };
    read_blocks(alloc, version, bytes, rest)
}

/// The version that the first line of a program says.
fn version_of(line: &[u8]) -> Option<Version>
    ensures { MatchOption result ((v : Version) → line.now ≡ header v → ⊥)
        (λ v. line.now ≡ header v) }
{
    if line == b"u-program 1".as_slice() {
        return Some(Version::One);
    }
    if line == b"u-program 2".as_slice() {
        return Some(Version::Two);
    }
    None
}

/// Reads what stands behind the first line, line by line: the line of the first block, and then what may
/// follow it.
fn read_blocks(
    alloc: Global,
    version: Version,
    bytes: &[u8],
    after_first: &[u8],
) -> Result<Program, ReadError>
    requires first { IsRead bytes.now (header version ∷ []) after_first.now }
    requires shorter { length after_first.now < length bytes.now }
    ensures { MatchResult result (λ program. IsTextOf bytes.now program)
        (λ fault. IsReadError bytes.now fault) }
{
    let Some((second, after_second)) = cut(after_first, b'\n') else {
        return Err(ReadError::Truncated);
    };
    let mut part = match PartialProgram::first(alloc, version, second) {
        Ok(part) => part,
        Err(fault) => return Err(at_line(fault, 2)),
    };
    let mut rest = after_second;
    let mut line = 2;
    while let Some((text, others)) = cut(rest, b'\n') {
        line += 1;
        part = match part.with_line(alloc, version, text) {
            Ok(part) => part,
            Err(fault) => return Err(at_line(fault, line)),
        };
        rest = others;
    }
    if !rest.is_empty() || part.last.statements().len() == 0 {
        return Err(ReadError::Truncated);
    }
    Ok(part.finish(version)?)
}

/// The fault of a line, with the line's number.
fn at_line(fault: LineFault, line: usize) -> ReadError
    ensures { result ≡ fault_at fault line }
{
    match fault {
        LineFault::Bad => ReadError::BadLine(line),
        LineFault::TooMany => ReadError::TooMany(line),
        LineFault::NoMemory => ReadError::NoMemory,
    }
}
