//! What a file stands for. Its bytes are read once: from here on there is a program that breaks no rule, and if
//! the file is a source, where the program's statements come from.
ghost use Rattle.std.specs.Prelude.{◌≡◌, ◌↔◌, MatchResult, IsTrue};
ghost use Rattle.u_commands.specs.Inputs.{IsSource, IsCheckedOf, CheckRefused, error_of};
ghost use Rattle.u_commands.specs.Inputs.{IsCompiledInput, IsCompileFault, IsInputOf, InputRefused};
ghost use Rattle.u_commands.specs.Inputs.{IsTaskOf, TaskRefused};

use crate::argument::argument_of;
use crate::command_error::CommandError;
use std::alloc::Global;
use u_check::{Checked, Job, Table, check};
use u_compile::BlockOrigins;
use u_program::{ReadError, read};

/// How the name of a source's file ends.
const ENDING: &[u8] = b".ul";

/// How the text of a program begins.
const HEAD: &[u8] = b"u-program";

/// Whether a file with that path and these bytes is a source.
///
/// Promise what-is-a-source: it is one exactly if the path ends in `.ul` and the bytes do not begin with
/// `u-program`.
pub fn is_source(path: &str, bytes: &[u8]) -> bool
    ensures { IsTrue result ↔ IsSource path.now bytes.now }
{
    path.as_bytes().ends_with(ENDING) && !bytes.starts_with(HEAD)
}

/// The fault that is told of a program's text.
fn error_of(error: ReadError) -> CommandError
    ensures { result ≡ error_of error }
{
    match error {
        ReadError::BadLine(line) => CommandError::LineNotAllowed(line),
        ReadError::TooMany(line) => CommandError::TooMany(line),
        ReadError::Truncated => CommandError::CutShort,
        ReadError::NoMemory => CommandError::NoMemory,
    }
}

/// The program with this text, if it breaks no rule.
pub fn checked_of(alloc: Global, bytes: &[u8]) -> Result<Checked, CommandError>
    ensures { MatchResult result (λ p. IsCheckedOf bytes.now p)
        (λ fault. CheckRefused bytes.now fault) }
{
    let program = match read(alloc, bytes) {
        Ok(program) => program,
        Err(error) => return Err(error_of(error)),
    };
    match check(program) {
        Ok(checked) => Ok(checked),
        Err(refused) => Err(CommandError::Rule(refused.breach)),
    }
}

/// What a file stands for.
#[derive(Drop)]
pub struct Input {
    /// The program.
    pub checked: Checked,
    /// Where the statements of its blocks come from; empty if the file has the text of a program.
    pub origins: Vec<BlockOrigins>,
}

/// The program that the source compiles to, and where its statements come from.
fn compiled_input(alloc: Global, source: &[u8]) -> Result<Input, CommandError>
    ensures { MatchResult result (λ input. IsCompiledInput source.now input)
        (λ fault. IsCompileFault source.now fault) }
{
    match u_compile::compile(alloc, source) {
        Ok(compiled) => {
            let (checked, origins) = compiled.into_parts();
            Ok(Input { checked, origins })
        }
        Err(error) => Err(CommandError::Source(error)),
    }
}

impl Input {
    /// What the file with that path and these bytes stands for.
    ///
    /// Promise program-of-a-file: of a source it is the program that `compile` makes of these bytes, of version 2,
    /// with a block for each procedure; of any other file it is the program with exactly this text.
    ///
    /// # Errors
    /// A fault of the program's text or of the checker, in that order; of a source `Source`; or want of memory.
    pub fn read(alloc: Global, path: &str, bytes: &[u8]) -> Result<Input, CommandError>
        ensures { MatchResult result (λ input. IsInputOf path.now bytes.now input)
            (λ fault. InputRefused path.now bytes.now fault) }
    {
        if is_source(path, bytes) {
            return match compiled_input(alloc, bytes) {
                Ok(input) => Ok(input),
                Err(fault) => Err(fault),
            };
        }
        match checked_of(alloc, bytes) {
            Ok(checked) => Ok(Input {
                checked,
                origins: Vec::new(alloc),
            }),
            Err(fault) => Err(fault),
        }
    }
}

/// A job, and where the statements of its program come from.
#[derive(Drop)]
pub struct Task {
    /// The job.
    pub job: Job,
    /// Where the statements come from; empty if they come from the text of a program.
    pub origins: Vec<BlockOrigins>,
}

impl Task {
    /// The program of the file with that path and these bytes, on the argument that the word gives.
    ///
    /// Promise task-of-a-file: unless memory runs out, there is one exactly if the file stands for a program and the
    /// word gives an argument.
    ///
    /// # Errors
    /// As `Input::read`, and then `ArgumentNotAllowed`.
    pub fn read(alloc: Global, path: &str, bytes: &[u8], word: &[u8]) -> Result<Task, CommandError>
        ensures { MatchResult result
            (λ t. IsTaskOf path.now bytes.now word.now t.job t.origins.items)
            (λ fault. TaskRefused path.now bytes.now word.now fault) }
    {
        let input = match Input::read(alloc, path, bytes) {
            Ok(input) => input,
            Err(fault) => return Err(fault),
        };
        match argument_of(word) {
            Some(argument) => Ok(Task {
                job: Job::new(input.checked, argument, Table::new(alloc)),
                origins: input.origins,
            }),
            None => Err(CommandError::ArgumentNotAllowed),
        }
    }
}
