//! The command `run`.
//!
//! `save`, `trace`, `blame` and `waits` have the same outline: `ran`, and then what is told of the machine.
ghost use Rattle.std.specs.Prelude.{◌≡◌, ◌≤◌, IfOk, IfErr, MatchResult, length};
ghost use Rattle.u_commands.specs.Runs.{IsJobOf, JobRefused, ReportsMachine, HasFired, RanTo, ReportsRunOfJob, ending_of};
ghost use Rattle.u_commands.specs.declared.command_error.CommandError.TheVariants as faults;
ghost use Rattle.u_sets.specs.Rising.{Rises};
ghost use Rattle.u_rule.specs.EntryOrder.{entry_cmp};
ghost use Rattle.u_commands.specs.Statuses.{status_of};
ghost use Rattle.u_history.specs.Verdicts.{judgement};

use crate::argument::argument_of;
use crate::command_error::CommandError;
use crate::input::checked_of;
use crate::running::run_watched;
use crate::told::Told;
use crate::watch::Watch;
use std::alloc::{AllocError, Global};
use u_check::{Job, Table};
use u_determinate::only_writes_clash;
use u_history::{Counts, Ending, Verdict, report_of_outcome};
use u_machine::{Machine, Ran, Refusal};

/// How many firings a machine of the program takes at most.
pub const FIRING_LIMIT: usize = 1_000_000;

/// The job of the program with this text on the argument that the word gives.
///
/// Promise job-of-texts: a text is refused only for the fault that it has, and only if the text before it is right;
/// unless memory runs out, a job is returned exactly if the bytes are the text of a checked program and the word
/// gives an argument.
pub fn job_of(alloc: Global, bytes: &[u8], word: &[u8]) -> Result<Job, CommandError>
    ensures { MatchResult result (λ job. IsJobOf bytes.now word.now job)
        (λ fault. JobRefused bytes.now word.now fault) }
{
    let checked = match checked_of(alloc, bytes) {
        Ok(checked) => checked,
        Err(fault) => return Err(fault),
    };
    match argument_of(word) {
        Some(argument) => Ok(Job::new(checked, argument, Table::new(alloc))),
        None => Err(CommandError::ArgumentNotAllowed),
    }
}

/// The exit status of a report with that state and verdict.
pub(crate) fn status(state: Ending, verdict: Verdict<'_>) -> u8
    ensures { result ≡ status_of state (judgement verdict.entry) }
{
    match (state, verdict) {
        (Ending::Paused, _) => 4,
        (Ending::Quiet, Verdict::Answer(_)) => 0,
        (Ending::Quiet, _) => 3,
    }
}

/// The state that a report names.
pub(crate) fn ending_of(ran: Ran) -> Ending
    ensures { result ≡ ending_of ran }
{
    match ran {
        Ran::Quiet => Ending::Quiet,
        Ran::Paused => Ending::Paused,
    }
}

/// What a report of the machine counts.
fn counts(machine: &Machine<'_>) -> Counts
    ensures firings { result.firings ≡ length machine.now.log }
    ensures parked { result.parked ≡ length machine.now.parked }
    ensures entries { result.entries ≡ length machine.now.history }
    ensures rises { Rises entry_cmp machine.now.history }
{
    let history = machine.history();
    Counts {
        firings: machine.applied().len(),
        parked: machine.parked().len(),
        entries: history.len(),
    }
}

/// The report of a machine, and the exit status.
pub fn report_of(alloc: Global, machine: &Machine<'_>, state: Ending) -> Result<Told, AllocError>
    ensures { IfOk result (λ t. ReportsMachine machine.now state t.text.items t.status) }
{
    let outcome = machine.history().outcome()?;
    let text = report_of_outcome(alloc, state, counts(machine), &outcome)?;
    let status = status(state, outcome.verdict());
    Ok(Told { text, status })
}

/// Lets a machine that has fired so often, and taken nothing else, go on until it has fired `firings` times at most.
/// Returns the state that a report names then.
///
/// # Errors
/// `NoMemory`.
pub fn run_on<V: Watch>(
    machine: &mut Machine<'_>,
    fired: usize,
    firings: usize,
    watch: &mut V,
) -> Result<Ending, CommandError>
    requires fired { HasFired fired machine.old }
    requires more { fired ≤ firings }
    requires room { firings ≤ machine.old.limit }
    ensures ok { IfOk result (λ state. RanTo machine.old.job firings state machine.new) }
    ensures limit { IfOk result (λ _. machine.new.limit ≡ machine.old.limit) }
    ensures memory { IfErr result (λ e. e ≡ faults.NoMemory) }
{
    let ran = run_watched(machine, firings - fired, watch);
    machine.holds();
    match ran {
        Ok(ran) => Ok(ending_of(ran)),
        Err(Refusal::NoMemory) => Err(CommandError::NoMemory),
        Err(Refusal::Full) => unreachable!(),
    }
}

/// A new machine of the job after so many firings at most, and the state that a report names then. The
/// watch is told how far it has come.
///
/// Promise watched-commands: what a command tells is the same whatever its watch does.
pub fn ran<'a, V: Watch>(
    alloc: Global,
    job: &'a Job,
    firings: usize,
    watch: &mut V,
) -> Result<(Machine<'a>, Ending), CommandError>
    requires { firings ≤ 1000000 }
    ensures ok { IfOk result (λ p. RanTo job.now firings p.1 p.0) }
    ensures limit { IfOk result (λ p. p.0.limit ≡ 1000000) }
    ensures memory { IfErr result (λ e. e ≡ faults.NoMemory) }
{
    let mut machine = Machine::new(alloc, job, FIRING_LIMIT)?;
    match run_on(&mut machine, 0, firings, watch) {
        Ok(state) => Ok((machine, state)),
        Err(fault) => Err(fault),
    }
}

/// The report of the job's run with so many firings at most. The exit status is 0 for a quiet report with one
/// answer, 3 for another quiet report, and 4 for a paused one. If the program is strict or determinate, a report
/// without a `cell` line has no `port` line, and one `answer` line at most.
///
/// Promise run-command: the report is exactly that of the plain run of at most `firings` firings; `state quiet`
/// stands there only if its history is whole.
///
/// # Errors
/// `NoMemory`.
pub fn run<V: Watch>(
    alloc: Global,
    job: &Job,
    firings: usize,
    watch: &mut V,
) -> Result<Told, CommandError>
    requires { firings ≤ 1000000 }
    ensures ok { IfOk result (λ t. ReportsRunOfJob job.now firings t.text.items t.status) }
    ensures memory { IfErr result (λ e. e ≡ faults.NoMemory) }
{
    let (machine, state) = ran(alloc, job, firings, watch)?;
    // Brings in what clashes there are if the program is strict or determinate.
    only_writes_clash(job);
    let told = report_of(alloc, &machine, state)?;
    Ok(told)
}
