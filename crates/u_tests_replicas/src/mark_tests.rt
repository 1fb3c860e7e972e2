//! What a replica receives, and how much it has then of the logs of its peers.
use crate::looks::{has, mark_of};
use std::alloc::Global;
use std::test::Fail;
use u_check::Job;
use u_delta::{Delta, Mark, Message, read_message};
use u_machine::{Command, ListRefusal, Ran, Reply};
use u_plain::examples::{DOUBLE, job};
use u_replica::{Answer, Call, Replica};

/// The peer with the mark, the life and the count that it has.
type Marked = (u8, u64, u64);

/// A delta that the replica receives, and what its marks are then. Of other peers it has nothing.
type Receipt = (&'static str, &'static [Marked]);

/// What the row shows, and what replica 2 of the double of 4 receives.
type Row = (&'static str, &'static [Receipt]);

/// The first firing of the log of replica 1 in its first life.
const FIRST: &str = "u-delta 1 1 2 1 0 1\nf -.main.1.1 4\nend\n";

/// The other two.
const REST: &str = "u-delta 1 1 2 1 1 2\nf -.main.2.1 4 4\nf -.main.3.1 8\nend\n";

const ROWS: &[Row] = &[
    (
        "a mark counts what follows it, and never less than before",
        &[
            (REST, &[]),
            (FIRST, &[(1, 1, 1)]),
            (REST, &[(1, 1, 3)]),
            (FIRST, &[(1, 1, 3)]),
        ],
    ),
    (
        "a later life counts from its first firing on, and a late delta of an older one no more",
        &[
            (FIRST, &[(1, 1, 1)]),
            ("u-delta 1 1 2 2 1 1\nf -.main.2.1 4 4\nend\n", &[(1, 1, 1)]),
            ("u-delta 1 1 2 3 0 1\nf -.main.1.1 4\nend\n", &[(1, 3, 1)]),
            (REST, &[(1, 3, 1)]),
            ("u-delta 1 1 2 4 0 0\nend\n", &[(1, 4, 0)]),
        ],
    ),
    (
        "a delta moves its sender's mark alone, and never the receiver's own",
        &[
            ("u-delta 1 8 2 5 0 1\nf -.main.1.1 4\nend\n", &[(8, 5, 1)]),
            ("u-delta 1 2 1 1 0 1\nf -.main.2.1 4 4\nend\n", &[(8, 5, 1)]),
        ],
    ),
];

/// The rows. A proof that calls this knows none of them, and so is short.
fn rows() -> &'static [Row] {
    ROWS
}

/// The delta of that text.
fn delta_of(alloc: Global, text: &str) -> Option<Delta> {
    match read_message(alloc, text.as_bytes()) {
        Ok(Message::Delta(delta)) => Some(delta),
        _ => None,
    }
}

/// The mark for the peer in the list.
fn mark_in(marks: &[Marked], peer: u8) -> Mark {
    for (number, life, count) in marks {
        if *number == peer {
            return Mark {
                life: *life,
                count: *count,
            };
        }
    }
    Mark { life: 0, count: 0 }
}

/// Whether its marks are those of the list. It has none for itself.
fn has_marks(replica: &Replica<'_>, marks: &[Marked]) -> bool {
    for peer in 1..=8 {
        match mark_of(replica, peer) {
            Some(mark) if mark != mark_in(marks, peer) => return false,
            _ => {}
        }
    }
    true
}

/// Whether the replica receives the delta, and has these marks then.
fn receives(alloc: Global, replica: &mut Replica<'_>, receipt: &Receipt) -> bool {
    match delta_of(alloc, receipt.0) {
        Some(delta) => replica.receive(&delta).is_ok() && has_marks(replica, receipt.1),
        None => false,
    }
}

/// Whether it receives each of the deltas so.
fn receives_all(alloc: Global, replica: &mut Replica<'_>, receipts: &[Receipt]) -> bool {
    for receipt in receipts {
        if !receives(alloc, replica, receipt) {
            return false;
        }
    }
    true
}

/// The same of a new replica 2.
fn is_so(alloc: Global, job: &Job, receipts: &[Receipt]) -> bool {
    match Replica::new(alloc, job, 1000, 2) {
        Ok(mut replica) => receives_all(alloc, &mut replica, receipts),
        Err(_) => false,
    }
}

#[test]
fn marks_are_as_the_rows_say(rt: HostRuntime) -> Result<(), Fail> {
    let job = job(rt.alloc(), DOUBLE, 4)?;
    for (shows, receipts) in rows() {
        assert!(rt; is_so(rt.alloc(), &job, receipts), "{shows}");
    }
    Ok(())
}

/// Whether the calls of one list are answered one after another: the replica fires twice, receives what is
/// refused, and merges the other one.
fn obeys(alloc: Global, replica: &mut Replica<'_>, other: &Replica<'_>, delta: Delta) -> bool {
    let calls = [
        Call::Machine(Command::Run(2)),
        Call::Receive(delta),
        Call::Merge(other),
    ];
    let wanted = [
        Answer::Machine(Reply::Run(Ok(Ran::Paused))),
        Answer::Receive(Err(ListRefusal::NotAFiring(1))),
        Answer::Merge(Ok(())),
    ];
    match replica.obey_all(alloc, &calls) {
        Ok(answers) => answers.as_slice() == wanted.as_slice(),
        Err(_) => false,
    }
}

/// A delta of a firing of the double of 4 and of what is none.
const FORGED: &str = "u-delta 1 1 2 1 0 2\nf -.main.1.1 4\nf -.main.99.1 1\nend\n";

/// Whether the second replica obeys so once the first one has run, and ends as that one.
fn ends_like(alloc: Global, first: &mut Replica<'_>, second: &mut Replica<'_>) -> bool {
    match delta_of(alloc, FORGED) {
        Some(delta) => {
            first.run(10) == Ok(Ran::Quiet)
                && obeys(alloc, second, first, delta)
                && second.take_all(first.machine().applied()) == Ok(())
                && second.settle().is_ok()
                && has(second, [3, 0, 5])
        }
        None => false,
    }
}

/// The same with a new second replica.
fn ends_like_new(alloc: Global, job: &Job, first: &mut Replica<'_>) -> bool {
    match Replica::new(alloc, job, 10, 2) {
        Ok(mut second) => ends_like(alloc, first, &mut second),
        Err(_) => false,
    }
}

/// The same with new replicas.
fn both_end_alike(alloc: Global, job: &Job) -> bool {
    match Replica::new(alloc, job, 10, 1) {
        Ok(mut first) => ends_like_new(alloc, job, &mut first),
        Err(_) => false,
    }
}

#[test]
fn calls_of_a_list_are_answered_in_order(rt: HostRuntime) -> Result<(), Fail> {
    let job = job(rt.alloc(), DOUBLE, 4)?;
    assert!(rt; both_end_alike(rt.alloc(), &job));
    Ok(())
}
