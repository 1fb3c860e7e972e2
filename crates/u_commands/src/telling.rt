//! How far a command has come, told on standard error.
//!
//! It is told in whole lines, one below the other, which stay readable if a terminal is recorded. If
//! standard error is no terminal, nothing is told.

use crate::watch::{Progress, Watch};
use std::alloc::Global;
use std::io::{IsTerminal, Write};
use std::time::{Duration, Instant};

/// How many seconds a command works before anything is told of it.
const QUIET_SECONDS: u64 = 2;

/// How many seconds it is from one line to the next, at least.
const PAUSE_SECONDS: u64 = 1;

/// Writes a line to standard error once a second, if that is a terminal and the command has worked for
/// more than two seconds. If the clock fails it writes no more.
#[derive(Drop)]
pub struct Telling<'a> {
    rt: &'a HostRuntime,
    /// When the next line is due, if one ever is.
    next: Option<Instant>,
}

/// The time so many seconds from now, if the clock can tell it.
fn from_now(rt: &HostRuntime, seconds: u64) -> Option<Instant> {
    match Instant::now(rt) {
        Ok(now) => now.checked_add(Duration::from_secs(seconds)),
        Err(_) => None,
    }
}

impl<'a> Telling<'a> {
    /// A watch for a command that begins now.
    pub fn new(rt: &'a HostRuntime) -> Telling<'a> {
        if !rt.stderr().is_terminal() {
            return Telling { rt, next: None };
        }
        Telling {
            rt,
            next: from_now(rt, QUIET_SECONDS),
        }
    }
}

impl<'a> Watch for Telling<'a> {
    fn is_due(&mut self) -> bool {
        match (self.next, Instant::now(self.rt)) {
            (Some(next), Ok(now)) => now >= next,
            _ => false,
        }
    }

    fn see(&mut self, progress: Progress) {
        self.next = from_now(self.rt, PAUSE_SECONDS);
        let alloc: Global = self.rt.alloc();
        if let Ok(line) = progress.line(alloc) {
            let _ = self.rt.stderr().write_all(&line);
        }
    }
}
