//! What a command line asks for.

/// What a command line asks for.
#[derive(Clone, Copy, Debug, Drop)]
pub enum Request<'a> {
    /// There is no word: the stored run.
    Stored,
    /// Something of FILE alone.
    File {
        file: &'a str,
        ask: FileRequest,
    },
    /// Something of the job that FILE and ARG give.
    Job {
        file: &'a str,
        argument: &'a str,
        ask: JobRequest<'a>,
    },
    /// `draw FILE ARG`: the picture of a run of at most `firings` firings, from 1 to 2000.
    DrawRun {
        file: &'a str,
        argument: &'a str,
        firings: usize,
    },
    /// `fleet FILE ARG`: 1 to 8 workers, and at most 1000 rounds for each.
    Fleet {
        file: &'a str,
        argument: &'a str,
        workers: u8,
        rounds: u32,
    },
    /// `share FILE ARG`: at most `burst` firings, from 1 to 1000000, between two reads, and the file of the
    /// report, if it is not standard error.
    Share {
        file: &'a str,
        argument: &'a str,
        follow: bool,
        burst: usize,
        report: Option<&'a str>,
    },
}

/// What is asked of a file.
#[derive(Clone, Copy, Debug, Drop)]
pub enum FileRequest {
    /// `check FILE`: whether the program is strict, only if `strict` asks for it, and whether it is
    /// determinate, only if `determinate` does.
    Check { strict: bool, determinate: bool },
    /// `explain FILE`: why the program is not strict, only if `strict` asks for it.
    Explain { strict: bool },
    /// `lift FILE`: the text of the program under version 2.
    Lift,
    /// `compile FILE`: the program of the source; what its statements stand for, only if `map` asks for it.
    Compile { map: bool },
    /// `draw FILE`: the picture of the program.
    Draw,
}

/// What is asked of a job. A number of firings is from 1 to 1000000.
#[derive(Clone, Copy, Debug, Drop)]
pub enum JobRequest<'a> {
    /// `draw FILE ARG ENTRY`: the picture of the entry's story, after at most `firings` firings.
    DrawStory { entry: &'a str, firings: usize },
    /// `run FILE ARG`: at most `firings` firings.
    Run { firings: usize },
    /// `save FILE ARG`: the checkpoint after at most `firings` firings.
    Save { firings: usize },
    /// `restore FILE ARG CHECKPOINT`: at most `firings` firings after those of the checkpoint.
    Restore { checkpoint: &'a str, firings: usize },
    /// `trace FILE ARG ENTRY`: which firings give the entry, after at most `firings` firings.
    Trace { entry: &'a str, firings: usize },
    /// `blame FILE ARG NAME PORT`: the port of an activity, from 1 to 5.
    Blame { activity: &'a str, port: u8 },
    /// `waits FILE ARG`: what waits after at most `firings` firings.
    Waits { firings: usize },
    /// `world FILE ARG`.
    World(WorldRequest<'a>),
}

/// What is asked of a world.
#[derive(Clone, Copy, Debug, Drop)]
pub struct WorldRequest<'a> {
    /// How many replicas there are, from 1 to 8.
    pub replicas: u8,
    /// The seed of random events.
    pub seed: u64,
    /// How many random events there are, at most 100000.
    pub events: usize,
    /// How many firings each replica takes at most, from 1 to 1000000.
    pub firings: usize,
    /// Whether their picture is asked for.
    pub draw: bool,
    /// The file of the events, if they are not random.
    pub script: Option<&'a str>,
}
