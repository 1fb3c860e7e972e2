//! Worked calls of machines: each call once.
use crate::calls::{Call, answers, has};
use std::alloc::Global;
use u_check::Job;
use u_machine::{Machine, Ran, Reply, Step, StepIn, TakeRefusal, Took};
use u_plain::examples::{DOUBLE, SUM, TWO_WRITERS, job};

/// What the row shows, the program, its argument, how many firings the machine may take, its calls with their
/// answers, and how many applied firings, parked firings and entries it has then.
type Row = (
    &'static str,
    &'static [u8],
    i64,
    usize,
    &'static [(Call, Reply)],
    [usize; 3],
);

/// `run` ended with nothing ready.
const QUIET: Reply = Reply::Run(Ok(Ran::Quiet));

const KNOWN: Reply = Reply::Take(Ok(Took::Known));

const ROWS: &[Row] = &[
    (
        "one call of each kind",
        DOUBLE,
        4,
        4,
        &[
            (Call::Take("f -.main.3.1 9"), Reply::Take(Ok(Took::Parked))),
            (
                Call::TakeAll(&["f -.main.3.1 8", "f -.main.1.1 4"]),
                Reply::TakeAll(Ok(())),
            ),
            (Call::Settle, Reply::Settle(Ok(()))),
            (Call::Fire(5), Reply::Fire(Ok(Step::Fired(1)))),
            (
                Call::Take("f -.main.9.1 9"),
                Reply::Take(Err(TakeRefusal::NotAFiring)),
            ),
            (Call::Run(1), QUIET),
        ],
        [3, 1, 5],
    ),
    (
        "the picked firing is fired, counted round and round, and the others are left",
        TWO_WRITERS,
        0,
        100,
        &[
            (Call::Fire(7), Reply::Fire(Ok(Step::Fired(0)))),
            (Call::Fire(7), Reply::Fire(Ok(Step::Fired(1)))),
            (Call::Take("f -.main.5.1 0"), KNOWN),
            (Call::Take("f -.main.2.1 0"), Reply::Take(Ok(Took::Taken))),
            (Call::Run(1), Reply::Run(Ok(Ran::Paused))),
        ],
        [4, 0, 10],
    ),
    (
        "the sum's first firing is in bucket 2",
        SUM,
        3,
        100,
        &[
            (Call::FireIn(0, 0), Reply::FireIn(Ok(StepIn::Elsewhere))),
            (Call::FireIn(4, 0), Reply::FireIn(Ok(StepIn::Fired(0)))),
            (Call::Take("f -.main.1.1 3"), KNOWN),
            (Call::Run(100), QUIET),
            (Call::FireIn(0, 0), Reply::FireIn(Ok(StepIn::Quiet))),
        ],
        [45, 0, 70],
    ),
];

/// The rows. A proof that calls this knows none of them, and so is short.
fn rows() -> &'static [Row] {
    ROWS
}

/// Whether the row is so of a new machine over the job.
fn holds_over(alloc: Global, job: &Job, row: &Row) -> bool {
    match Machine::new(alloc, job, row.3) {
        Ok(mut machine) => answers(alloc, &mut machine, row.4) && has(&machine, row.5),
        Err(_) => false,
    }
}

/// Whether the row is so.
fn holds(alloc: Global, row: &Row) -> bool {
    match job(alloc, row.1, row.2) {
        Ok(job) => holds_over(alloc, &job, row),
        Err(_) => false,
    }
}

#[test]
fn calls_are_answered_as_the_rows_say(rt: HostRuntime) {
    for row in rows() {
        assert!(rt; holds(rt.alloc(), row), "{}", row.0);
    }
}
