//! Deltas of logs, and texts of messages: what is read and written, and where other texts go wrong.
use std::alloc::{AllocError, Global};
use std::test::Fail;
use u_delta::{Mark, Message, ReadError, delta, read_message, write_message};
use u_plain::worked::firing_of;
use u_rule::Firing;

/// The delta of the double's log of 4, behind its first firing.
const DELTA: &str = "u-delta 1 1 2 1 1 2\nf -.main.2.1 4 4\nf -.main.3.1 8\nend\n";

/// Texts of messages, and of none, and why they are none.
const TEXTS: &[(&str, Result<(), ReadError>)] = &[
    (DELTA, Ok(())),
    ("u-ask 1 2 1 1 20\n", Ok(())),
    ("u-delta 1 1 2 1 0 1\n", Err(ReadError::Truncated)),
    ("u-ask 1 2 1 1 3\nx", Err(ReadError::BadLine(2))),
    ("u-delta 1 1 2 1 0 4097\n", Err(ReadError::BadLine(1))),
];

/// Whether the message is written so.
fn is_written(alloc: Global, message: &Message, text: &[u8]) -> bool {
    let mut out = Vec::new(alloc);
    write_message(message, &mut out).is_ok() && out.as_slice() == text
}

/// Whether the bytes are read as a message that is written so, where one is wanted, and else
/// refused as it is wanted.
fn is_answered(alloc: Global, bytes: &[u8], wanted: Result<(), ReadError>) -> bool {
    match read_message(alloc, bytes) {
        Ok(message) => wanted.is_ok() && is_written(alloc, &message, bytes),
        Err(error) => wanted == Err(error),
    }
}

/// The log of the firings that the text lists.
fn log_of_lines(alloc: Global, text: &str) -> Result<Vec<Firing>, AllocError> {
    let mut log = Vec::new(alloc);
    for line in text.lines() {
        log.push(firing_of(alloc, line)?)?;
    }
    Ok(log)
}

/// Whether the delta of the log for that mark has that text, in the first life of the replica.
fn is_rest(alloc: Global, log: &[Firing], mark: Mark, text: &str) -> Result<bool, AllocError> {
    let message = Message::Delta(delta(alloc, log, 1, 2, 1, mark)?);
    Ok(is_written(alloc, &message, text.as_bytes()))
}

/// The rows. A proof that calls this knows none of them, and so is short.
fn texts() -> &'static [(&'static str, Result<(), ReadError>)] {
    TEXTS
}

#[test]
fn messages_are_read_or_refused(rt: HostRuntime) -> Result<(), Fail> {
    for (text, wanted) in texts() {
        assert!(rt; is_answered(rt.alloc(), text.as_bytes(), *wanted), "{text}");
    }
    Ok(())
}

#[test]
fn a_delta_is_the_rest_of_the_log(rt: HostRuntime) -> Result<(), Fail> {
    let text = "f -.main.1.1 4\nf -.main.2.1 4 4\nf -.main.3.1 8\n";
    let mark = Mark { life: 1, count: 1 };
    let log = log_of_lines(rt.alloc(), text)?;
    assert!(rt; is_rest(rt.alloc(), &log, mark, DELTA)?);
    Ok(())
}
