//! What each request does: it reads files, asks, and writes what is told to standard output.
ghost use Rattle.std.specs.Prelude.{◌≤◌};
ghost use Rattle.u_words.specs.Requests.{IsInRange, JobInRange};
ghost use Rattle.u_words.specs.Numbers.{IsOneToEight};

use std::io::Write;
use std::sync::Wait;
use std::thread::Threads;
use std::{fs, io};
use u_cli::{
    Bus, CommandError, FileRequest, JobRequest, Plan, Request, STORED_PROGRAM, Task, Telling,
    Texts, Unwatched, draw_run, fleet, member_plan, print, read_file, read_path, share, tell_file,
    tell_not_readable, tell_texts,
};

/// How often the stored program may fire.
const STORED_FIRINGS: usize = 100_000;

/// Does what is asked for with the files and the words of the request. Returns the exit status.
#[tactic(auto, using(u_cli::proofs::AskingLaws::allowed))]
pub fn follow<T: Threads + Wait + Sync>(
    rt: &HostRuntime,
    threads: &T,
    request: Request<'_>,
) -> Result<u8, CommandError>
    requires { IsInRange request }
{
    match request {
        Request::Stored => stored(rt),
        Request::File { file, ask } => follow_file(rt, file, ask),
        Request::Job {
            file,
            argument,
            ask,
        } => follow_job(rt, file, argument, ask),
        Request::DrawRun {
            file,
            argument,
            firings,
        } => follow_drawing(rt, file, argument, firings),
        Request::Fleet {
            file,
            argument,
            workers,
            rounds,
        } => {
            let task = task_of(rt, file, argument)?;
            print(rt, fleet(threads, rt.alloc(), &task.job, workers, rounds))
        }
        Request::Share {
            file,
            argument,
            follow,
            burst,
            report,
        } => take_part(rt, file, argument, member_plan(burst, follow), report),
    }
}

/// Runs the stored program on the argument 4.
fn stored(rt: &HostRuntime) -> Result<u8, CommandError> {
    let texts = Texts {
        path: "",
        file: STORED_PROGRAM,
        argument: b"4",
        other: &[],
    };
    let ask = JobRequest::Run {
        firings: STORED_FIRINGS,
    };
    print(rt, tell_texts(rt.alloc(), texts, ask, &mut Unwatched))
}

/// Does what is asked of a file. If `explain` can't read it, its path and the system's own words for the cause stand
/// after `not readable`.
fn follow_file(rt: &HostRuntime, file: &str, ask: FileRequest) -> Result<u8, CommandError> {
    let bytes = match (read_file(rt, file), ask) {
        (Ok(bytes), _) => bytes,
        (Err(CommandError::NotReadable), FileRequest::Explain { .. }) if file != "stdin" => {
            return tell_not_readable(rt, file);
        }
        (Err(fault), _) => return Err(fault),
    };
    print(rt, tell_file(rt.alloc(), file, &bytes, ask))
}

/// The path of the file that is asked for besides FILE.
fn other_file<'a>(ask: JobRequest<'a>) -> Option<&'a str> {
    match ask {
        JobRequest::Restore { checkpoint, .. } => Some(checkpoint),
        JobRequest::World(ask) => ask.script,
        _ => None,
    }
}

/// Does what is asked of a job.
#[tactic(auto, using(u_cli::proofs::AskingLaws::allowed))]
fn follow_job(
    rt: &HostRuntime,
    file: &str,
    argument: &str,
    ask: JobRequest<'_>,
) -> Result<u8, CommandError>
    requires { JobInRange ask }
{
    let bytes = read_file(rt, file)?;
    let other = match other_file(ask) {
        Some(path) => read_path(rt, path)?,
        None => Vec::new(rt.alloc()),
    };
    let texts = Texts {
        path: file,
        file: &bytes,
        argument: argument.as_bytes(),
        other: &other,
    };
    let mut watch = Telling::new(rt);
    print(rt, tell_texts(rt.alloc(), texts, ask, &mut watch))
}

/// The job of FILE and ARG.
fn task_of(rt: &HostRuntime, file: &str, argument: &str) -> Result<Task, CommandError> {
    let bytes = read_file(rt, file)?;
    Task::read(rt.alloc(), file, &bytes, argument.as_bytes())
}

/// Draws a run with so many firings at most. If the run goes on, standard error has how many firings the picture
/// leaves out, of 1000000 at most.
fn follow_drawing(
    rt: &HostRuntime,
    file: &str,
    argument: &str,
    firings: usize,
) -> Result<u8, CommandError>
    requires { firings ≤ 1000000 }
{
    let task = task_of(rt, file, argument)?;
    let (told, left) = draw_run(rt.alloc(), &task, firings)?;
    let status = told.write(&mut io::writer(rt))?;
    if left > 0 {
        let _ = eprintln!(rt; "u: the picture leaves out {left} firings");
    }
    Ok(status)
}

/// Takes part in a run as the plan says. The bus is standard input and output. The report goes to the file with the
/// path `report`, or to standard error.
fn take_part(
    rt: &HostRuntime,
    file: &str,
    argument: &str,
    plan: Plan,
    report: Option<&str>,
) -> Result<u8, CommandError>
    requires { plan.limit ≤ 1000000 }
{
    let bytes = read_path(rt, file)?;
    let task = Task::read(rt.alloc(), file, &bytes, argument.as_bytes())?;
    let mut bus = Bus {
        reader: rt.reader(),
        writer: io::writer(rt),
        notices: rt.stderr(),
    };
    let told = share(rt.alloc(), &task.job, plan, &mut bus)?;
    match write_report(rt, report, &told.text) {
        Ok(()) => Ok(told.status),
        Err(_) => Err(CommandError::NotWritten),
    }
}

/// Writes the text of a report to the file with that path, or to standard error.
fn write_report(rt: &HostRuntime, path: Option<&str>, text: &[u8]) -> Result<(), io::Error> {
    match path {
        Some(path) => fs::create(rt, path)?.write_all(text),
        None => rt.stderr().write_all(text),
    }
}
