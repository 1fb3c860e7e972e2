//! The program `u`: it reads the words of its command line and the files that they name, and does with
//! a dataflow program what the words ask for.
#![tactic(auto)]

mod following;

use following::follow;
use std::process::ExitCode;
use std::sync::Wait;
use std::thread::Threads;
use u_cli::{CommandError, NoRequest, arguments, request_in};

fn main(rt: HostRuntime) -> ExitCode {
    match answer(&rt, &rt) {
        Ok(status) => ExitCode::from(status),
        Err(fault) => {
            let _ = eprintln!(rt; "u: {fault}");
            ExitCode::from(fault.status())
        }
    }
}

/// Does what the command line asks for. Returns the exit status. A fleet has its threads from `threads`.
fn answer<T: Threads + Wait + Sync>(rt: &HostRuntime, threads: &T) -> Result<u8, CommandError> {
    let words = match arguments(rt) {
        Ok(words) => words,
        Err(none) => return ended(none),
    };
    match request_in(rt, &words) {
        Ok(request) => follow(rt, threads, request),
        Err(none) => ended(none),
    }
}

/// What comes of a command line that asks for nothing.
fn ended(none: NoRequest) -> Result<u8, CommandError> {
    match none {
        NoRequest::Shown(status) => Ok(status),
        NoRequest::NoMemory => Err(CommandError::NoMemory),
        NoRequest::NotWritten => Err(CommandError::NotWritten),
    }
}
