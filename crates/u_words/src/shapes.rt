//! The commands as data: which words and options each takes, and what its help says.

use crate::shapes::Item::{AnyWord, Beside, Choice, Number, Path, Perhaps, Word};
use clap::builder::ValueParser;
use clap::builder::ValueParser::{Signed, Unsigned};

/// A command: its word, what its help says, and the words and options that it takes.
pub struct Shape {
    pub word: &'static str,
    pub about: &'static str,
    pub example: &'static str,
    pub rows: &'static [Row],
}

/// A word or an option, and what its help says.
pub type Row = (Item, &'static str);

/// A word or an option, its name first.
#[derive(Clone, Copy)]
pub enum Item {
    /// A word that must stand.
    Word(&'static str),
    /// A word that must stand, and may begin with a hyphen.
    AnyWord(&'static str),
    /// A word that may be left out.
    Perhaps(&'static str),
    /// An option that takes no value.
    Choice(&'static str),
    /// An option that takes the path of a file, and the options that may not stand beside it.
    Path(&'static str, &'static [&'static str]),
    /// An option that takes a number: what help calls it, its range, and which it is if none stands.
    Number(&'static str, &'static str, ValueParser<'static>, &'static str),
    /// An option that takes a number: what help calls it, its range, and the word that it needs beside it.
    Beside(&'static str, &'static str, ValueParser<'static>, &'static str),
}

const FILE: Row = (
    Word("FILE"),
    "The file of a program, or of a source if it ends in .ul; or the word stdin",
);

const ARG: Row = (Word("ARG"), "The argument, a decimal number: n1 is -1");

const FIRINGS: Row = (
    Number("firings", "N", Signed(1, 1_000_000), "100000"),
    "The most firings, from 1 to 1000000",
);

/// The commands, as the help of the program lists them.
pub const SHAPES: [Shape; 14] = [
    Shape {
        word: "check",
        about: "Checks the program and prints how many blocks and statements it has",
        example: "Example: ./u check programs/double.u --strict",
        rows: &[
            FILE,
            (
                Choice("strict"),
                "Say also whether the program is strict, or where it is not",
            ),
            (
                Choice("determinate"),
                "Say also whether the program is determinate, or where it is not",
            ),
        ],
    },
    Shape {
        word: "explain",
        about: "Says where and why the program is refused, in more words than check",
        example: "Example: ./u explain programs/double.u",
        rows: &[
            FILE,
            (
                Choice("strict"),
                "Say of an allowed program why it is not strict",
            ),
        ],
    },
    Shape {
        word: "lift",
        about: "Prints the program as one of version 2, which runs alike",
        example: "Example: ./u lift programs/double.u > double2.u",
        rows: &[FILE],
    },
    Shape {
        word: "compile",
        about: "Compiles a source, which has names in place of numbers, and prints its program",
        example: "Example: ./u compile programs/sum.ul > sum.u",
        rows: &[
            (
                Word("FILE"),
                "The source's file, or the word stdin for standard input",
            ),
            (
                Choice("map"),
                "Print which place of the source each statement stands for, in place of the program",
            ),
        ],
    },
    Shape {
        word: "draw",
        about: "Prints the picture of the program, of a run or of an entry's story, for Graphviz",
        example: "Examples:
  ./u draw programs/sum.u | dot -Tsvg -o sum.svg
  ./u draw programs/sum.u 3 | dot -Tsvg -o run.svg
  ./u draw programs/sum.u 3 'a 6' | dot -Tsvg -o story.svg",
        rows: &[
            FILE,
            (
                Perhaps("ARG"),
                "The argument of a run, which is drawn in place of the program: n1 is -1",
            ),
            (
                Perhaps("ENTRY"),
                "An entry's text, one word: the firings that it rests on are drawn",
            ),
            (
                Beside("firings", "N", Signed(1, 1_000_000), "ARG"),
                "The most firings of a run's picture, from 1 to 2000 [default: 200]",
            ),
        ],
    },
    Shape {
        word: "run",
        about: "Runs the program and prints its report",
        example: "Example: ./u run programs/double.u 4 --firings 1000",
        rows: &[FILE, ARG, FIRINGS],
    },
    Shape {
        word: "save",
        about: "Runs the program and prints a checkpoint: all that was fired",
        example: "Example: ./u save programs/sum.u 3 --firings 5 > checkpoint",
        rows: &[FILE, ARG, FIRINGS],
    },
    Shape {
        word: "restore",
        about: "Goes on from a checkpoint, whole or torn, and prints the report",
        example: "Example: ./u restore programs/sum.u 3 checkpoint --firings 10",
        rows: &[
            FILE,
            ARG,
            (Word("CHECKPOINT"), "The checkpoint's file"),
            (
                Number("firings", "N", Signed(1, 1_000_000), "100000"),
                "The most firings after those of the checkpoint, from 1 to 1000000",
            ),
        ],
    },
    Shape {
        word: "trace",
        about: "Runs the program and prints which firings give the entry, and how the run came to it",
        example: "Example: ./u trace programs/double.u 4 'a 8' --firings 1000",
        rows: &[
            FILE,
            ARG,
            (
                Word("ENTRY"),
                "The entry's text, one word: 'a 8' is the answer 8",
            ),
            FIRINGS,
        ],
    },
    Shape {
        word: "blame",
        about: "Runs the program and prints the cell whose two writes lie behind two values at a port",
        example: "Example: ./u blame programs/two_writers.u 0 -.main.10.1 1",
        rows: &[
            FILE,
            ARG,
            (
                AnyWord("NAME"),
                "The activity's name, as the report prints it",
            ),
            (Word("PORT"), "The port's number, 1 to 5"),
        ],
    },
    Shape {
        word: "waits",
        about: "Runs the program and prints what waits: for a token, or for the write of a cell",
        example: "Example: ./u waits programs/sum.u 3 --firings 10",
        rows: &[FILE, ARG, FIRINGS],
    },
    Shape {
        word: "world",
        about: "Lets events happen between replicas, and prints what they hold and the report",
        example: "Examples:
  ./u world programs/sum.u 3 --replicas 3 --seed 7 --events 200
  ./u world programs/sum.u 3 --script events
  ./u world programs/sum.u 3 --events 40 --draw | neato -Tsvg -o world.svg",
        rows: &[
            FILE,
            ARG,
            (
                Choice("draw"),
                "Print the picture of the events in place of the lines, for Graphviz",
            ),
            (
                Number("replicas", "K", Signed(1, 8), "2"),
                "How many replicas, from 1 to 8",
            ),
            (
                Number("seed", "S", Unsigned(0, u64::MAX), "1"),
                "The seed of the random events, from 0 to 18446744073709551615",
            ),
            (
                Number("events", "N", Signed(0, 100_000), "100"),
                "How many random events, at most 100000",
            ),
            (
                Path("script", &["seed", "events"]),
                "The file of the events, one a line, in place of random ones",
            ),
            (
                Number("firings", "N", Signed(1, 1_000_000), "100000"),
                "The most firings that a replica takes, from 1 to 1000000",
            ),
        ],
    },
    Shape {
        word: "fleet",
        about: "Runs the program on several threads that publish what they fire, and prints the report",
        example: "Example: ./u fleet programs/sum.u 3 --workers 4 --rounds 8",
        rows: &[
            FILE,
            ARG,
            (
                Number("workers", "N", Signed(1, 8), "2"),
                "How many workers, from 1 to 8",
            ),
            (
                Number("rounds", "R", Signed(0, 1_000), "8"),
                "How many rounds of a worker, at most 1000, before it fires all that is left",
            ),
        ],
    },
    Shape {
        word: "share",
        about: "Takes part in a run over a bus: reads firings from standard input and writes its own",
        example: "Example: ./u share programs/sum.u 3 --report report < /dev/null",
        rows: &[
            FILE,
            ARG,
            (Choice("follow"), "Fire only while no one else does"),
            (
                Number("burst", "B", Signed(1, 1_000_000), "64"),
                "The most firings between two reads, from 1 to 1000000",
            ),
            (
                Path("report", &[]),
                "The file of the report, in place of standard error",
            ),
        ],
    },
];
