//! What a command tells, and the writing of it.
//!
//! All of it is made before the first byte is written, so a fault of a run leaves standard output empty.
ghost use Rattle.std.specs.Prelude.{◌≡◌};
ghost use Rattle.u_commands.specs.Outputs.{WritesTold, Finishes};

use crate::command_error::CommandError;
use crate::output::write_whole;
use std::io::{self, Write};

/// What a command tells: the bytes for standard output, and the exit status.
#[derive(Debug, Drop)]
pub struct Told {
    /// The bytes.
    pub text: Vec<u8>,
    /// The exit status.
    pub status: u8,
}

impl Told {
    /// Writes the bytes, in order. Returns the exit status.
    ///
    /// # Errors
    /// `NotWritten`: a prefix of the bytes is written.
    pub fn write<W: Write>(&self, writer: &mut W) -> Result<u8, CommandError>
        ensures { WritesTold self.now.text.items self.now.status (W.contents writer.old) result
            (W.contents writer.new) }
    {
        match write_whole(writer, &self.text) {
            Ok(()) => Ok(self.status),
            Err(_) => Err(CommandError::NotWritten),
        }
    }
}

/// Writes what is told, if something is. Returns the exit status.
///
/// # Errors
/// The fault in place of what is told: nothing is written. `NotWritten`: a prefix of the bytes is written.
pub fn finish<W: Write>(
    told: Result<Told, CommandError>,
    writer: &mut W,
) -> Result<u8, CommandError>
    ensures { Finishes told (W.contents writer.old) result (W.contents writer.new) }
{
    match told {
        Ok(told) => told.write(writer),
        Err(fault) => Err(fault),
    }
}

/// Writes what is told, if something is, to standard output. Returns the exit status.
///
/// # Errors
/// As `finish`.
pub fn print(rt: &HostRuntime, told: Result<Told, CommandError>) -> Result<u8, CommandError> {
    finish(told, &mut io::writer(rt))
}
