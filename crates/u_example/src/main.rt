//! Two machines of one job hold the same, in whatever order they receive its firings. One machine runs the
//! double of 4. Another one takes what the first one fired, the last firing first, so that all firings but
//! one wait until the last one has come. What it holds then is printed.
#![tactic(auto)]

use anyhow::{Result, anyhow};
use std::alloc::{AllocError, Global};
use std::io;
use std::io::Write;
use u_check::{Job, Table, check};
use u_machine::Machine;
use u_program::read;
use u_rule::Firing;

/// The program that doubles its argument.
const DOUBLE: &[u8] =
    b"u-program 1\nblock main\n1 0 begin -> 2.1 2.2\n2 0 add -> 3.1\n3 0 end ->\n";

/// How many firings a machine takes at most.
const LIMIT: usize = 100;

fn main(rt: HostRuntime) -> Result<()> {
    let program = read(rt.alloc(), DOUBLE)?;
    let job = match check(program) {
        Ok(checked) => Job::new(checked, 4, Table::new(rt.alloc())),
        Err(refused) => return Err(anyhow!("{}", refused.breach)),
    };
    let text = second_text(rt.alloc(), &job)?;
    io::writer(&rt).write_all(&text)?;
    Ok(())
}

/// The text of what a machine holds that takes what another one fired, the last firing first.
fn second_text(alloc: Global, job: &Job) -> Result<Vec<u8>> {
    let firings = last_first(alloc, job)?;
    taken_text(alloc, &mut Machine::new(alloc, job, LIMIT)?, &firings)
}

/// Has the machine take the firings. Returns the text of what it holds then.
fn taken_text(alloc: Global, machine: &mut Machine<'_>, firings: &[Firing]) -> Result<Vec<u8>> {
    match machine.take_all(firings) {
        Ok(()) => Ok(text_of(alloc, machine)?),
        Err(_) => Err(anyhow!("the machine did not take the firings")),
    }
}

/// The text of what the machine holds, a line for each entry.
fn text_of(alloc: Global, machine: &Machine<'_>) -> Result<Vec<u8>, AllocError> {
    let mut text = Vec::new(alloc);
    machine.history().write_text(&mut text)?;
    Ok(text)
}

/// The firings of the job's run, the last one first.
fn last_first(alloc: Global, job: &Job) -> Result<Vec<Firing>> {
    let mut machine = Machine::new(alloc, job, LIMIT)?;
    match machine.run(LIMIT) {
        Ok(_) => Ok(backwards(alloc, machine.applied())?),
        Err(_) => Err(anyhow!("the machine did not run")),
    }
}

/// Copies of the firings, the last one first.
fn backwards(alloc: Global, firings: &[Firing]) -> Result<Vec<Firing>, AllocError> {
    let mut all = Vec::new(alloc);
    for firing in firings.iter().rev() {
        all.push(firing.copy(alloc)?)?;
    }
    Ok(all)
}
