//! How the table of a job is made: a machine runs the job to its end, and all that is enabled over what it
//! holds then is scanned.
use crate::lists::table::Table;
use std::alloc::{AllocError, Global};
use u_check::Job;
use u_history::History;
use u_machine::{Machine, Ran};
use u_plain::ready_firings;
use u_rule::{Entry, Firing, gives, needs, start};
use u_sets::OrderedSet;

/// The entries that the firing of the job needs, in the order of its values.
fn needed_by(alloc: Global, job: &Job, firing: &Firing) -> Result<Vec<Entry>, AllocError> {
    match needs(alloc, job, firing) {
        Ok(entries) => Ok(entries),
        Err(_) => Err(AllocError),
    }
}

/// The entries that the firing gives.
fn given_by(alloc: Global, job: &Job, firing: &Firing) -> Result<Vec<Entry>, AllocError> {
    match gives(alloc, job, firing) {
        Ok(entries) => Ok(entries),
        Err(_) => Err(AllocError),
    }
}

/// The firings that are enabled over the history, in order.
fn enabled_over(alloc: Global, job: &Job, history: &History) -> Result<Vec<Firing>, AllocError> {
    let none = OrderedSet::new(alloc);
    ready_firings(alloc, job, history, &none)
}

/// The number of the entry; how many there are, if it is not there.
fn number_of(entries: &[Entry], entry: &Entry) -> usize {
    for (number, other) in entries.iter().enumerate() {
        if other.cmp(entry).is_eq() {
            return number;
        }
    }
    entries.len()
}

/// The number of the start token.
fn start_in(entries: &[Entry], job: &Job) -> usize {
    let entry = start(job);
    number_of(entries, &entry)
}

/// The numbers of these entries.
fn numbers_of(alloc: Global, entries: &[Entry], some: &[Entry]) -> Result<Vec<usize>, AllocError> {
    let mut numbers = Vec::new(alloc);
    for entry in some {
        numbers.push(number_of(entries, entry))?;
    }
    Ok(numbers)
}

/// Adds the numbers of these entries, if there was memory for them.
fn add_numbers(
    alloc: Global,
    entries: &[Entry],
    some: Result<Vec<Entry>, AllocError>,
    all: &mut Vec<Vec<usize>>,
) -> Result<(), AllocError> {
    let some = some?;
    let numbers = numbers_of(alloc, entries, &some)?;
    all.push(numbers)?;
    Ok(())
}

/// Lists what each firing needs and gives.
fn connect(table: &mut Table, job: &Job) -> Result<(), AllocError> {
    let alloc = table.alloc;
    for firing in table.firings.iter() {
        let needed = needed_by(alloc, job, firing);
        add_numbers(alloc, &table.entries, needed, &mut table.needs)?;
        let given = given_by(alloc, job, firing);
        add_numbers(alloc, &table.entries, given, &mut table.gives)?;
    }
    Ok(())
}

/// Lists the entries of the history, and the firings that are enabled over them.
fn list(table: &mut Table, job: &Job, history: &History) -> Result<(), AllocError> {
    table.entries = history.entries()?;
    table.firings = enabled_over(table.alloc, job, history)?;
    table.start = start_in(&table.entries, job);
    Ok(())
}

/// Lists what the machine holds once it has run the job, and what each firing needs and gives.
fn list_run(table: &mut Table, machine: &mut Machine<'_>) -> Result<(), AllocError> {
    let job = machine.job();
    match machine.run(1000) {
        Ok(Ran::Quiet) => {
            list(table, job, machine.history())?;
            connect(table, job)
        }
        _ => Err(AllocError),
    }
}

/// The table of the job that the machine runs.
fn table_with(alloc: Global, machine: &mut Machine<'_>) -> Result<Table, AllocError> {
    let mut table = Table::empty(alloc);
    list_run(&mut table, machine)?;
    Ok(table)
}

/// The table of the job.
pub fn table_of(alloc: Global, job: &Job) -> Result<Table, AllocError> {
    let mut machine = Machine::new(alloc, job, 1000)?;
    table_with(alloc, &mut machine)
}
