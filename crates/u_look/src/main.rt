//! A first look at the program `u`: `run`, `check`, `compile`, `explain` and `waits`, which need few crates and so are
//! built soon. It has the words and the output of `u`; of another command it says how to get it.
#![tactic(auto)]

ghost use Rattle.u_words.specs.Requests.{IsInRange, JobInRange};

use std::process::ExitCode;
use u_commands::{
    Asked, CommandError, Input, STORED_PROGRAM, Task, Telling, check, compile, explain, print,
    read_file, run, tell_not_readable, waits,
};
use u_words::{FileRequest, JobRequest, NoRequest, Request, arguments, request_in};

/// How often the stored program may fire.
const STORED_FIRINGS: usize = 100_000;

/// The exit status if a command is not among those of a look.
const NO_SUCH_LOOK: u8 = 5;

fn main(rt: HostRuntime) -> ExitCode {
    match answer(&rt) {
        Ok(status) => ExitCode::from(status),
        Err(fault) => {
            let _ = eprintln!(rt; "u: {fault}");
            ExitCode::from(fault.status())
        }
    }
}

/// Does what the command line asks for. Returns the exit status.
fn answer(rt: &HostRuntime) -> Result<u8, CommandError> {
    let words = match arguments(rt) {
        Ok(words) => words,
        Err(none) => return ended(none),
    };
    match request_in(rt, &words) {
        Ok(request) => follow(rt, request),
        Err(none) => ended(none),
    }
}

/// What comes of a command line that asks for nothing.
fn ended(none: NoRequest) -> Result<u8, CommandError> {
    match none {
        NoRequest::Shown(status) => Ok(status),
        NoRequest::NoMemory => Err(CommandError::NoMemory),
        NoRequest::NotWritten => Err(CommandError::NotWritten),
    }
}

/// Does what is asked for. Returns the exit status.
fn follow(rt: &HostRuntime, request: Request<'_>) -> Result<u8, CommandError>
    requires { IsInRange request }
{
    match request {
        Request::Stored => {
            let task = Task::read(rt.alloc(), "", STORED_PROGRAM, b"4")?;
            let mut watch = Telling::new(rt);
            print(rt, run(rt.alloc(), &task.job, STORED_FIRINGS, &mut watch))
        }
        Request::File { file, ask } => follow_file(rt, file, ask),
        Request::Job {
            file,
            argument,
            ask,
        } => follow_job(rt, file, argument, ask),
        _ => no_such_look(rt),
    }
}

/// Says that the command is not among those of a look.
fn no_such_look(rt: &HostRuntime) -> Result<u8, CommandError> {
    let _ = eprintln!(rt;
        "u: a first look has run, check, compile, explain and waits alone; ./u --prove builds the whole program"
    );
    Ok(NO_SUCH_LOOK)
}

/// Does what is asked of a file.
fn follow_file(rt: &HostRuntime, file: &str, ask: FileRequest) -> Result<u8, CommandError> {
    let bytes = match (read_file(rt, file), ask) {
        (Ok(bytes), _) => bytes,
        (Err(CommandError::NotReadable), FileRequest::Explain { .. }) if file != "stdin" => {
            return tell_not_readable(rt, file);
        }
        (Err(fault), _) => return Err(fault),
    };
    let alloc = rt.alloc();
    match ask {
        FileRequest::Check {
            strict,
            determinate,
        } => {
            let input = Input::read(alloc, file, &bytes)?;
            let asked = Asked {
                strict,
                determinate,
            };
            print(rt, check(alloc, &input.checked, asked))
        }
        FileRequest::Explain { strict } => print(rt, explain(alloc, file, &bytes, strict)),
        FileRequest::Compile { map } => print(rt, compile(alloc, &bytes, map)),
        FileRequest::Lift | FileRequest::Draw => no_such_look(rt),
    }
}

/// Does what is asked of a job.
fn follow_job(
    rt: &HostRuntime,
    file: &str,
    argument: &str,
    ask: JobRequest<'_>,
) -> Result<u8, CommandError>
    requires { JobInRange ask }
{
    let bytes = read_file(rt, file)?;
    let task = Task::read(rt.alloc(), file, &bytes, argument.as_bytes())?;
    let mut watch = Telling::new(rt);
    match ask {
        JobRequest::Run { firings } => print(rt, run(rt.alloc(), &task.job, firings, &mut watch)),
        JobRequest::Waits { firings } => print(rt, waits(rt.alloc(), &task, firings, &mut watch)),
        _ => no_such_look(rt),
    }
}
