//! The command `check`.
ghost use Rattle.std.specs.Prelude.{◌≡◌, ◌≤◌, ◌*◌, ◌+◌, ◌++◌, IfOk, IfErr, length};
ghost use Rattle.u_program.specs.Limits.{IsProgram, the_limits};
ghost use Rattle.u_determinate.specs.Breaches.{IsAnswer};
ghost use Rattle.u_commands.specs.Checks.{statements_of, checked_line, Checks};
ghost use Rattle.u_commands.specs.Checks.{strictness_line, TellsStrictness, ChecksProgram};
ghost use Rattle.u_commands.specs.Checks.{meeting_words, determinacy_line, TellsDeterminacy};
ghost use Rattle.u_commands.specs.declared.command_error.CommandError.TheVariants as faults;

use crate::command_error::CommandError;
use crate::output::push_numbered;
use crate::told::Told;
use std::alloc::{AllocError, Global};
use u_base::push_long;
use u_check::Checked;
use u_determinate::{Determinacy, Meeting, Strictness, determinacy, strictness};
use u_program::{Block, Program};

/// What is asked of a program that breaks no rule of the checker.
#[derive(Clone, Copy, Debug, PartialEq, Eq)]
pub struct Asked {
    /// Whether it is strict.
    pub strict: bool,
    /// Whether it is determinate.
    pub determinate: bool,
}

/// How many statements the program has.
fn statements_of(program: &Program) -> usize
    ensures { result ≡ statements_of program.now.blocks }
{
    let mut count = 0;
    for block in program.blocks() {
        count += block.statements().len();
    }
    count
}

/// The line that tells of a program which breaks no rule.
#[tactic(auto, unfolding(crate::specs::Checks::checked_line), using(crate::proofs::Counts::join5))]
fn checked_line(alloc: Global, program: &Program) -> Result<Vec<u8>, AllocError>
    ensures { IfOk result (λ v. v.items ≡ checked_line program.now.blocks) }
{
    let mut line = Vec::new(alloc);
    line.extend_from_slice(b"checked ")?;
    push_long(&mut line, program.blocks().len() as u64)?;
    line.push(b' ')?;
    push_long(&mut line, statements_of(program) as u64)?;
    line.push(b'\n')?;
    Ok(line)
}

/// Appends the line that says whether a program is strict, or the first place where it is not.
#[tactic(auto, unfolding(crate::specs::Checks::strictness_line), using(crate::proofs::Waited::join4))]
pub(crate) fn push_strictness(lines: &mut Vec<u8>, strictness: Strictness) -> Result<(), AllocError>
    ensures { IfOk result (λ u. lines.new.items ≡ lines.old.items ++ strictness_line strictness) }
{
    match strictness {
        Strictness::Strict => lines.extend_from_slice(b"strict\n")?,
        Strictness::Loose { rule, block, at } => {
            push_numbered(lines, b"not strict rule ", u64::from(rule.number()))?;
            push_numbered(lines, b" block ", block as u64)?;
            push_numbered(lines, b" at ", at as u64)?;
            lines.push(b'\n')?;
        }
    }
    Ok(())
}

/// Appends that line, if it is asked for.
#[tactic(auto, using(crate::proofs::Worded::strict_keeps))]
fn tell_strictness(
    lines: &mut Vec<u8>,
    checked: &Checked,
    alloc: Global,
    asked: Asked,
) -> Result<(), AllocError>
    ensures { IfOk result
        (λ u. TellsStrictness checked.now.blocks asked.strict lines.old.items lines.new.items) }
{
    if asked.strict {
        // Brings in that the program breaks no rule.
        let _program = checked.program();
        let strictness = strictness(alloc, checked)?;
        push_strictness(lines, strictness)?;
    }
    Ok(())
}

/// What meets at a place, in words, and a newline.
fn meeting_words(meeting: Meeting) -> &'static [u8]
    ensures { result.now ≡ meeting_words meeting }
{
    match meeting {
        Meeting::Arcs => b" two arcs\n",
        Meeting::Ends => b" two ends\n",
        Meeting::Calls => b" two applies\n",
        Meeting::Turns => b" next and last\n",
    }
}

/// Appends the line that says whether a program is determinate, or the first place where it is not.
#[tactic(auto, unfolding(crate::specs::Checks::determinacy_line))]
pub(crate) fn push_determinacy(
    lines: &mut Vec<u8>,
    determinacy: Determinacy,
) -> Result<(), AllocError>
    ensures { IfOk result
        (λ u. lines.new.items ≡ lines.old.items ++ determinacy_line determinacy) }
{
    match determinacy {
        Determinacy::Determinate => lines.extend_from_slice(b"determinate\n")?,
        Determinacy::Meets(place) => {
            push_numbered(lines, b"not determinate block ", place.block as u64)?;
            push_numbered(lines, b" at ", place.at as u64)?;
            lines.extend_from_slice(meeting_words(place.meeting))?;
        }
    }
    Ok(())
}

/// Appends that line, if it is asked for.
#[tactic(auto, using(crate::proofs::Worded::determinate_keeps))]
fn tell_determinacy(
    lines: &mut Vec<u8>,
    checked: &Checked,
    alloc: Global,
    asked: Asked,
) -> Result<(), AllocError>
    ensures { IfOk result (λ u.
        TellsDeterminacy checked.now.blocks asked.determinate lines.old.items lines.new.items) }
{
    if asked.determinate {
        // Brings in that the program breaks no rule.
        let _program = checked.program();
        let determinacy = determinacy(alloc, checked)?;
        push_determinacy(lines, determinacy)?;
    }
    Ok(())
}

/// All lines that tell of a checked program.
fn checked_lines(alloc: Global, checked: &Checked, asked: Asked) -> Result<Vec<u8>, AllocError>
    ensures { IfOk result (λ v. ChecksProgram checked.now.blocks asked v.items) }
{
    let mut lines = checked_line(alloc, checked.program())?;
    tell_strictness(&mut lines, checked, alloc, asked)?;
    tell_determinacy(&mut lines, checked, alloc, asked)?;
    Ok(lines)
}

/// The line `checked BLOCKS STATEMENTS`: how many blocks the program has, and how many statements all blocks
/// have together. After it stand the lines that are asked for: `strict`, or `not strict rule R block B at A`, the
/// first place where the program is not; and `determinate`, or `not determinate block B at A WHAT`, the first
/// place where it is not, and what meets there: `two arcs`, `two ends`, `two applies`, or `next and last`. The
/// exit status is 0.
///
/// Promise check-command: each line says what is so of the program; of each job of a program that is told to be strict
/// or determinate two values at one port, or two answers, come only with two writes of one cell.
///
/// # Errors
/// `NoMemory`.
pub fn check(alloc: Global, checked: &Checked, asked: Asked) -> Result<Told, CommandError>
    ensures ok { IfOk result (λ t. Checks checked.now.blocks asked t.text.items t.status) }
    ensures memory { IfErr result (λ e. e ≡ faults.NoMemory) }
{
    let text = checked_lines(alloc, checked, asked)?;
    Ok(Told { text, status: 0 })
}
