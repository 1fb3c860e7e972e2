//! What is told from time to time of how far a command has come.
//!
//! A watch gets numbers alone and gives nothing back, so a watched command has the contract of the plain
//! one.
ghost use Rattle.std.specs.Prelude.{◌≡◌, ◌++◌, IfOk, length};
ghost use Rattle.u_commands.specs.Watches.{progress_line};

use crate::output::push_numbered;
use std::alloc::{AllocError, Global};
use u_machine::Machine;

/// How far a command has come.
#[derive(Clone, Copy, PartialEq, Eq, Debug)]
pub struct Progress {
    /// How many firings are applied.
    pub applied: usize,
    /// How many firings were taken and are not applied.
    pub parked: usize,
}

impl Progress {
    /// The line that tells it: `u: 1200000 firings applied, 0 parked`.
    ///
    /// Promise watch-line: the line has exactly the two numbers, in decimal.
    ///
    /// # Errors
    /// `AllocError` where there is no memory.
    pub fn line(&self, alloc: Global) -> Result<Vec<u8>, AllocError>
        ensures { IfOk result (λ v. v.items ≡ progress_line self.now) }
    {
        let mut line = Vec::new(alloc);
        push_numbered(&mut line, b"u: ", self.applied as u64)?;
        push_numbered(&mut line, b" firings applied, ", self.parked as u64)?;
        line.extend_from_slice(b" parked\n")?;
        Ok(line)
    }
}

/// What is told from time to time how far a command has come. It gets numbers alone, and gives back
/// nothing, so no command does anything else for being watched.
pub trait Watch {
    /// Whether it is to be told now. It is asked often, so the answer has to be cheap.
    fn is_due(&mut self) -> bool;

    /// Is told.
    fn see(&mut self, progress: Progress);
}

/// A watch that is never told anything.
#[derive(Drop)]
pub struct Unwatched;

impl Watch for Unwatched {
    fn is_due(&mut self) -> bool {
        false
    }

    fn see(&mut self, _progress: Progress) {}
}

/// How far the machine has come.
fn progress_of(machine: &Machine<'_>) -> Progress
    ensures applied { result.applied ≡ length machine.now.log }
    ensures parked { result.parked ≡ length machine.now.parked }
{
    Progress {
        applied: machine.applied().len(),
        parked: machine.parked().len(),
    }
}

/// Tells the watch how far the machine has come, if it is to be told now.
pub(crate) fn show<V: Watch>(machine: &Machine<'_>, watch: &mut V) {
    if watch.is_due() {
        watch.see(progress_of(machine));
    }
}
