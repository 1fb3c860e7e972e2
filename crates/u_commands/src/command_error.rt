//! Why a command gives no whole output.
ghost use Rattle.std.specs.Prelude.{◌≡◌};
ghost use Rattle.u_commands.specs.Statuses.{place_of, status_of_error};

use std::alloc::AllocError;
use thiserror::Error;
use u_check::Breach;
use u_compile::CompileError;
use u_scope::{CheckError, KindError};
use u_source::{Position, SourceError};

/// Why a command gives no whole output. It prints as the text that stands after `u: `.
#[derive(Debug, Drop, PartialEq, Eq, Error)]
pub enum CommandError {
    /// This line of the program is not allowed; lines count from 1.
    #[error("program line {0} not allowed")]
    LineNotAllowed(usize),
    /// This line of the program is not allowed only for the number of blocks, statements or destinations.
    #[error("program line {0} has too many")]
    TooMany(usize),
    /// The program ends too early.
    #[error("program cut short")]
    CutShort,
    /// The program breaks a rule of the checker.
    #[error("{0}")]
    Rule(Breach),
    /// The source is refused, or there is no memory to compile it.
    #[error("{0}")]
    Source(CompileError),
    /// The argument is no number from -2^63 to 2^63 - 1 in its one spelling.
    #[error("argument not allowed")]
    ArgumentNotAllowed,
    /// The input has more than 67108864 bytes.
    #[error("input too long")]
    InputTooLong,
    /// This line of the checkpoint is not allowed; lines count from 1.
    #[error("checkpoint line {0} not allowed")]
    CheckpointLineNotAllowed(usize),
    /// This line of the checkpoint has more than 32,768 bytes.
    #[error("checkpoint line {0} too long")]
    CheckpointLineTooLong(usize),
    /// The checkpoint's firing at this place is none of the job; places count from 0.
    #[error("firing {0} not of this job")]
    OtherFiring(usize),
    /// This line of the script is no event's; lines count from 1.
    #[error("script line {0} not allowed")]
    ScriptLineNotAllowed(usize),
    /// The event of this line of the script can't happen: there is no such replica or message, a replica asks
    /// or merges itself, or takes what is no firing of the job.
    #[error("script line {0} can't happen")]
    ScriptLineImpossible(usize),
    /// The entry is no entry's text. The number is the offset of the first byte with which none goes on.
    #[error("entry not allowed at byte {0}")]
    EntryNotAllowed(usize),
    /// The run does not hold the entry.
    #[error("entry not held")]
    EntryNotHeld,
    /// The name is no name's text. The number is the offset of the first byte with which none goes on.
    #[error("name not allowed at byte {0}")]
    NameNotAllowed(usize),
    /// The name's context is deeper than 64: its text begins with 65 `(` or more.
    #[error("name too deep")]
    NameTooDeep,
    /// The run holds fewer than two values at the port.
    #[error("port not clashed")]
    PortNotClashed,
    /// There are more firings than the replica may take.
    #[error("full")]
    Full,
    /// There is no memory.
    #[error("no memory")]
    NoMemory,
    /// The runtime made no thread.
    #[error("no thread")]
    NoThread,
    /// A published log had no place for one more reader.
    #[error("no reader")]
    NoReader,
    /// The input could not be read.
    #[error("not readable")]
    NotReadable,
    /// The output could not be written; what was written is a prefix of it.
    #[error("not written")]
    NotWritten,
}

impl From<AllocError> for CommandError {
    ghost use Rattle.u_commands.specs.declared.command_error.CommandError.TheVariants as faults;

    ghost from_gives = { λ _ e. e ≡ faults.NoMemory };

    fn from(_: AllocError) -> CommandError {
        CommandError::NoMemory
    }
}

/// The place of the source that shows why it is refused. There is none if there was no memory.
pub(crate) fn place_of(error: &CompileError) -> Option<Position>
    ensures { result ≡ place_of error.now }
{
    match error {
        CompileError::Source(SourceError::Refused(place, _)) => Some(*place),
        CompileError::Check(CheckError::Refused(place, _)) => Some(*place),
        CompileError::Kinds(KindError::Refused(place, _)) => Some(*place),
        CompileError::Refused(place, _) => Some(*place),
        CompileError::Source(SourceError::NoMemory)
        | CompileError::Check(CheckError::NoMemory)
        | CompileError::Kinds(KindError::NoMemory)
        | CompileError::NoMemory => None,
    }
}

impl CommandError {
    /// The exit status.
    ///
    /// Promise exit-status: it is 2 if a text is refused, 3 if the entry or the clash is not there, 4 if no
    /// more may be fired, 5 if the surroundings fail.
    pub fn status(&self) -> u8
        ensures { result ≡ status_of_error self.now }
    {
        match self {
            CommandError::Source(error) => match place_of(error) {
                Some(_) => 2,
                None => 5,
            },
            CommandError::LineNotAllowed(_)
            | CommandError::TooMany(_)
            | CommandError::CutShort
            | CommandError::Rule(_)
            | CommandError::ArgumentNotAllowed
            | CommandError::InputTooLong
            | CommandError::CheckpointLineNotAllowed(_)
            | CommandError::CheckpointLineTooLong(_)
            | CommandError::OtherFiring(_)
            | CommandError::ScriptLineNotAllowed(_)
            | CommandError::ScriptLineImpossible(_)
            | CommandError::EntryNotAllowed(_)
            | CommandError::NameNotAllowed(_)
            | CommandError::NameTooDeep => 2,
            CommandError::EntryNotHeld | CommandError::PortNotClashed => 3,
            CommandError::Full => 4,
            CommandError::NoMemory
            | CommandError::NoThread
            | CommandError::NoReader
            | CommandError::NotReadable
            | CommandError::NotWritten => 5,
        }
    }
}
