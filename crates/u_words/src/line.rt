//! The command line: its words, what they ask for, and what is said if they ask for nothing.
ghost use Rattle.std.specs.Prelude.{IfOk};
ghost use Rattle.u_words.specs.Requests.{IsInRange};

use crate::parsing::{below_zero, not_text, parse};
use crate::request::Request;
use std::io;

/// The exit status of a command line that is not allowed.
const USAGE: u8 = 1;

/// Why a command line asks for nothing.
#[derive(Debug, Drop)]
pub enum NoRequest {
    /// Help, the version or a mistake was printed. This is the exit status.
    Shown(u8),
    /// There is no memory.
    NoMemory,
    /// Standard output could not be written.
    NotWritten,
}

/// The words of the command line, the program's own name first. If one is no text, that is said on standard error.
pub fn arguments(rt: &HostRuntime) -> Result<Vec<String>, NoRequest> {
    match std::env::args(rt) {
        Ok(all) => all.collect(rt.alloc()).map_err(|_| NoRequest::NoMemory),
        Err(error) if error.kind() == io::ErrorKind::OutOfMemory => Err(NoRequest::NoMemory),
        Err(_) => match not_text(rt.alloc()) {
            Ok(mistake) => Err(show(rt, mistake)),
            Err(_) => Err(NoRequest::NoMemory),
        },
    }
}

/// What the words ask for. If they ask for nothing, `clap` says so: help and the version on standard output, with
/// status 0, and a mistake on standard error, with status 1.
///
/// # Errors
/// `Shown` then; `NoMemory`; `NotWritten` if standard output can't be written.
pub fn request_in<'a>(rt: &HostRuntime, words: &'a [String]) -> Result<Request<'a>, NoRequest>
    ensures { IfOk result IsInRange }
{
    match parse(rt.alloc(), words) {
        Ok(request) => Ok(request),
        Err(error) => Err(show_mistake(rt, words, error)),
    }
}

/// Prints a mistake in the words, or help or the version. A number with a minus is told apart from other words that
/// look like an option.
fn show_mistake(rt: &HostRuntime, words: &[String], error: clap::Error) -> NoRequest {
    if error.kind() == clap::error::ErrorKind::UnknownArgument {
        if let Some(word) = number_below_zero(words) {
            return match below_zero(rt.alloc(), word) {
                Ok(mistake) => show(rt, mistake),
                Err(_) => NoRequest::NoMemory,
            };
        }
    }
    show(rt, error)
}

/// The first word that is a minus with a digit after it.
fn number_below_zero(words: &[String]) -> Option<&str> {
    for word in words {
        if let [b'-', b'0'..=b'9', ..] = word.as_bytes() {
            return Some(word.as_str());
        }
    }
    None
}

/// Prints what `clap` says.
fn show(rt: &HostRuntime, error: clap::Error) -> NoRequest {
    if error.kind() == clap::error::ErrorKind::OutOfMemory {
        return NoRequest::NoMemory;
    }
    if error.use_stderr() {
        let _ = error.print(rt);
        return NoRequest::Shown(USAGE);
    }
    match error.print(rt) {
        Ok(()) => NoRequest::Shown(0),
        Err(_) => NoRequest::NotWritten,
    }
}
