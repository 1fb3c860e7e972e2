//! The words of the command line, read.
//!
//! An option that is given twice, also with the same number, and words that are no UTF-8 are a wrong command line.
//! Without any word the stored program runs, that of `programs/double.u`, with the argument 4.
ghost use Rattle.std.specs.Prelude.{◌≡◌, ◌≤◌, IfOk, IfSome, Some, codes};
ghost use Rattle.clap.specs.Words.{found_of, first_value};
ghost use Rattle.u_words.specs.Requests.{IsInRange, JobInRange, Asks, IsFileRequest, IsJobRequest, AreFirings, IsNumberOr, IsFlag, word_of};
ghost use Rattle.u_words.specs.Numbers.{IsNumberText};

use crate::number::number_of;
use crate::options::{commands, mistake};
use crate::request::{FileRequest, JobRequest, Request, WorldRequest};
use clap::{ArgMatches, Error};
use std::alloc::{AllocError, Global};

/// What a number that `clap` takes may still have wrong.
const SPELLING: &str = "a number has no sign and no leading zero";

/// The request in the words of a command line, the first of which is the program's name. The error is a
/// mistake in the words, or a request for help or the version.
///
/// Promise requests-in-range: the numbers of a request are in the ranges of their options, firings from 1 to
/// 1000000 and replicas and workers from 1 to 8.
pub fn parse<'a>(alloc: Global, words: &'a [String]) -> Result<Request<'a>, Error>
    ensures { IfOk result IsInRange }
{
    let matches: ArgMatches<'a> = commands(alloc)?.try_get_matches_from(words)?;
    match matches.subcommand() {
        None => Ok(Request::Stored),
        Some((word, matches)) => CommandWords {
            alloc,
            word,
            matches,
        }
        .request(),
    }
}

/// The mistake that a word is no text.
pub fn not_text(alloc: Global) -> Result<Error, AllocError> {
    let message = "invalid UTF-8 was detected in one or more arguments";
    mistake(alloc, "", message)
}

/// The mistake that the word is a number with a minus, which is taken for an option.
pub fn below_zero(alloc: Global, word: &str) -> Result<Error, AllocError> {
    let message = format!(in alloc;
        "unexpected argument '{word}' found: a number below zero is written with n: n1 is -1"
    )?;
    mistake(alloc, "", message.as_str())
}

/// The word of a command, and the words that were found for it.
#[derive(Drop)]
struct CommandWords<'a, 'm> {
    alloc: Global,
    word: &'m str,
    matches: &'m ArgMatches<'a>,
}

impl<'a> CommandWords<'a, '_> {
    /// What the command asks for.
    fn request(&self) -> Result<Request<'a>, Error>
        ensures { IfOk result (Asks self.now.word.now (found_of self.now.matches.now)) }
    {
        let (file, argument) = (self.text("FILE"), self.text("ARG"));
        if let Some(ask) = self.of_file() {
            return Ok(Request::File { file, ask });
        }
        match self.word {
            "draw" => self.drawing(),
            "fleet" => Ok(Request::Fleet {
                file,
                argument,
                workers: self.number("workers", "--workers <N>", (1, 8), SPELLING)? as u8,
                rounds: self.number("rounds", "--rounds <R>", (0, 1_000), SPELLING)? as u32,
            }),
            "share" => Ok(Request::Share {
                file,
                argument,
                follow: self.flag("follow"),
                burst: self.number("burst", "--burst <B>", (1, 1_000_000), SPELLING)? as usize,
                report: self.matches.get_str("report"),
            }),
            _ => Ok(Request::Job {
                file,
                argument,
                ask: self.of_job()?,
            }),
        }
    }

    /// What the command asks of FILE, if that is all that it takes.
    fn of_file(&self) -> Option<FileRequest>
        ensures { IfSome result (IsFileRequest self.now.word.now (found_of self.now.matches.now)) }
    {
        match self.word {
            "check" => Some(FileRequest::Check {
                strict: self.flag("strict"),
                determinate: self.flag("determinate"),
            }),
            "explain" => Some(FileRequest::Explain {
                strict: self.flag("strict"),
            }),
            "lift" => Some(FileRequest::Lift),
            "compile" => Some(FileRequest::Compile {
                map: self.flag("map"),
            }),
            _ => None,
        }
    }

    /// What `draw` asks for: the picture of the program if there is no ARG, of a run if there is one, and of a
    /// story if there is an ENTRY too.
    fn drawing(&self) -> Result<Request<'a>, Error>
        requires { self.now.word.now ≡ codes "draw" }
        ensures { IfOk result (Asks self.now.word.now (found_of self.now.matches.now)) }
    {
        let file = self.text("FILE");
        match (self.matches.get_str("ARG"), self.matches.get_str("ENTRY")) {
            (None, _) => Ok(Request::File {
                file,
                ask: FileRequest::Draw,
            }),
            (Some(argument), None) => Ok(Request::DrawRun {
                file,
                argument,
                firings: self.drawn(200, 2_000)? as usize,
            }),
            (Some(argument), Some(entry)) => Ok(Request::Job {
                file,
                argument,
                ask: JobRequest::DrawStory {
                    entry,
                    firings: self.drawn(100_000, 1_000_000)? as usize,
                },
            }),
        }
    }

    /// The number of firings of a drawing, from 1 to `most`: `usual` where no number stands.
    fn drawn(&self, usual: u64, most: u64) -> Result<u64, Error>
        requires { (1 ≤ usual) × (usual ≤ most) }
        ensures { IfOk result (λ n. (1 ≤ n) × (n ≤ most)
            × IsNumberOr usual n (first_value (found_of self.now.matches.now) (codes "firings"))) }
    {
        if self.matches.get_str("firings").is_none() {
            return Ok(usual);
        }
        let why = format!(in self.alloc;
            "here it is a number from 1 to {most}, without a sign or a leading zero"
        )?;
        self.number("firings", "--firings <N>", (1, most), why.as_str())
    }

    /// What the command asks of the job that FILE and ARG give.
    fn of_job(&self) -> Result<JobRequest<'a>, Error>
        ensures range { IfOk result JobInRange }
        ensures asks { IfOk result (IsJobRequest self.now.word.now (found_of self.now.matches.now)) }
    {
        match self.word {
            "blame" => Ok(JobRequest::Blame {
                activity: self.text("NAME"),
                port: self.number("PORT", "<PORT>", (1, 5), "a port is 1 to 5")? as u8,
            }),
            "world" => Ok(JobRequest::World(WorldRequest {
                replicas: self.number("replicas", "--replicas <K>", (1, 8), SPELLING)? as u8,
                seed: self.number("seed", "--seed <S>", (0, u64::MAX), SPELLING)?,
                events: self.number("events", "--events <N>", (0, 100_000), SPELLING)? as usize,
                firings: self.firings()?,
                draw: self.flag("draw"),
                script: self.matches.get_str("script"),
            })),
            _ => self.of_run(self.firings()?),
        }
    }

    /// What the command asks of a run of at most so many firings.
    fn of_run(&self, firings: usize) -> Result<JobRequest<'a>, Error>
        requires { AreFirings (found_of self.now.matches.now) firings }
        ensures range { IfOk result JobInRange }
        ensures asks { IfOk result (IsJobRequest self.now.word.now (found_of self.now.matches.now)) }
    {
        match self.word {
            "run" => Ok(JobRequest::Run { firings }),
            "save" => Ok(JobRequest::Save { firings }),
            "waits" => Ok(JobRequest::Waits { firings }),
            "restore" => Ok(JobRequest::Restore {
                checkpoint: self.text("CHECKPOINT"),
                firings,
            }),
            "trace" => Ok(JobRequest::Trace {
                entry: self.text("ENTRY"),
                firings,
            }),
            _ => Err(mistake(self.alloc, "", "unrecognized subcommand")?),
        }
    }

    /// How many firings there may be.
    fn firings(&self) -> Result<usize, Error>
        ensures { IfOk result (AreFirings (found_of self.now.matches.now)) }
    {
        Ok(self.number("firings", "--firings <N>", (1, 1_000_000), SPELLING)? as usize)
    }

    /// The number of that name, from the first of the two to the second. The word is read again, since `clap` takes
    /// a sign and leading zeros; where it is no such number, the mistake calls it as `shown` does and says why.
    fn number(&self, name: &str, shown: &str, range: (u64, u64), why: &str) -> Result<u64, Error>
        ensures { IfOk result (λ n. (range.0 ≤ n) × (n ≤ range.1)
            × IsNumberText n (word_of (found_of self.now.matches.now) name.now)) }
    {
        let word = self.text(name);
        match number_of(word, u64::MAX) {
            Some(number) if range.0 <= number && number <= range.1 => Ok(number),
            _ => {
                let message = format!(in self.alloc;
                    "invalid value '{word}' for '{shown}': {why}"
                )?;
                Err(mistake(self.alloc, self.word, message.as_str())?)
            }
        }
    }

    /// Whether the option stands in the words.
    fn flag(&self, name: &str) -> bool
        ensures { IsFlag result (word_of (found_of self.now.matches.now) name.now) }
    {
        self.text(name) == "true"
    }

    /// The word of that name, or else the empty word.
    fn text(&self, name: &str) -> &'a str
        ensures { result.now ≡ word_of (found_of self.now.matches.now) name.now }
    {
        match self.matches.get_str(name) {
            Some(text) => text,
            None => "",
        }
    }
}
