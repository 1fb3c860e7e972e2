//! The bytes of a reader, and of a file.
ghost use Rattle.std.specs.Prelude.{◌≡◌, ◌≤◌, ◌<◌, ◌+◌, IfOk, IfErr, IfSome, MatchResult};
ghost use Rattle.u_commands.specs.Reading.{ReadsAll, ReadFails};

use crate::command_error::CommandError;
use std::alloc::Global;
use std::io::{ErrorKind, Read};
use std::{fs, io};

/// The greatest number of bytes of an input.
pub const INPUT_LIMIT: usize = 67_108_864;

/// All bytes up to the end of the reader.
///
/// Promise input: exactly the bytes of the reader are returned, and `InputTooLong` only if there are more
/// than 67108864.
///
/// # Errors
/// `InputTooLong` where there are more than 67108864 bytes, `NotReadable` where a read failed,
/// `NoMemory`; whichever is met first.
pub fn read_input<R: Read + Drop>(alloc: Global, reader: R) -> Result<Vec<u8>, CommandError>
    ensures { MatchResult result (λ v. ReadsAll (R.remaining reader) v.items)
        (λ fault. ReadFails (R.remaining reader) fault) }
{
    let mut all = Vec::new(alloc);
    match reader.take(INPUT_LIMIT as u64 + 1).read_to_end(&mut all) {
        Ok(_) if all.len() > INPUT_LIMIT => Err(CommandError::InputTooLong),
        Ok(_) => Ok(all),
        Err(error) if error.kind() == ErrorKind::OutOfMemory => Err(CommandError::NoMemory),
        Err(_) => Err(CommandError::NotReadable),
    }
}

/// All bytes of FILE, or of standard input at the word `stdin`.
///
/// # Errors
/// As `read_input`, and `NotReadable` if the file can't be opened.
pub fn read_file(rt: &HostRuntime, file: &str) -> Result<Vec<u8>, CommandError> {
    if file == "stdin" {
        return read_input(rt.alloc(), rt.stdin());
    }
    read_path(rt, file)
}

/// All bytes of the file with this path.
///
/// # Errors
/// As `read_input`, and `NotReadable` if the file can't be opened.
pub fn read_path(rt: &HostRuntime, path: &str) -> Result<Vec<u8>, CommandError> {
    match fs::open(rt, path) {
        Ok(opened) => read_input(rt.alloc(), opened),
        Err(_) => Err(CommandError::NotReadable),
    }
}

/// Reads one byte of the file with this path, if it has any.
fn first_byte(rt: &HostRuntime, path: &str) -> Result<usize, io::Error> {
    let mut opened = fs::open(rt, path)?;
    opened.read(&mut [0])
}

/// Writes to standard error why the file with this path can't be read, in the system's own words. Returns the exit
/// status.
///
/// # Errors
/// `NotReadable` if a byte of it can be read now.
pub fn tell_not_readable(rt: &HostRuntime, path: &str) -> Result<u8, CommandError> {
    let fault = CommandError::NotReadable;
    match first_byte(rt, path) {
        Ok(_) => Err(fault),
        Err(error) => {
            let _ = eprintln!(rt; "u: {fault}: {path}: {error}");
            Ok(fault.status())
        }
    }
}
