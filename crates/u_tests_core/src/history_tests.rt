//! Histories: what is put in, listed, merged and reported.
use std::alloc::{AllocError, Global};
use std::test::Fail;
use u_history::{Ending, History, report_text};
use u_name::Cell;
use u_plain::worked::{entry_of, name_of, text_of};
use u_rule::Written;
use u_value::Value;

/// Puts in the entries that the text lists, one a line.
fn put_lines(alloc: Global, history: &mut History, text: &str) -> Result<(), AllocError> {
    for line in text.split_terminator('\n') {
        history.insert(entry_of(alloc, line)?)?;
    }
    Ok(())
}

/// Whether the history has that text. Want of memory is a no.
fn has_text(alloc: Global, history: &History, wanted: &str) -> bool {
    match text_of(alloc, history) {
        Ok(text) => text.as_slice() == wanted.as_bytes(),
        Err(_) => false,
    }
}

/// Appends the values, a line each.
fn put_values(out: &mut Vec<u8>, values: &[Value]) -> Result<(), AllocError> {
    for value in values {
        value.write_text(out)?;
        out.push(b'\n')?;
    }
    Ok(())
}

/// Appends the values at that port.
fn put_values_at(
    alloc: Global,
    history: &History,
    activity: &str,
    port: u8,
    out: &mut Vec<u8>,
) -> Result<(), AllocError> {
    let activity = name_of(alloc, activity.as_bytes())?;
    let values = history.values(&activity, port)?;
    put_values(out, &values)
}

/// Appends the writes, a line each.
fn put_pairs(out: &mut Vec<u8>, writes: &[Written]) -> Result<(), AllocError> {
    for write in writes {
        write.writer.write_text(out)?;
        out.push(b' ')?;
        write.value.write_text(out)?;
        out.push(b'\n')?;
    }
    Ok(())
}

/// Appends the writes of that cell.
fn put_writes(
    alloc: Global,
    history: &History,
    maker: &str,
    index: u16,
    out: &mut Vec<u8>,
) -> Result<(), AllocError> {
    let cell = Cell::new(name_of(alloc, maker.as_bytes())?, u32::from(index));
    let writes = history.writes(&cell)?;
    put_pairs(out, &writes)
}

/// Appends the values at port 1 and port 2 of an activity, and the writes of cell 0 and cell 1.
fn put_listed(alloc: Global, history: &History, out: &mut Vec<u8>) -> Result<(), AllocError> {
    put_values_at(alloc, history, "-.main.10.1", 1, out)?;
    put_values_at(alloc, history, "-.main.10.1", 2, out)?;
    put_writes(alloc, history, "-.main.6.1", 0, out)?;
    put_writes(alloc, history, "-.main.6.1", 1, out)?;
    Ok(())
}

/// Whether the history lists these lines there.
fn lists(alloc: Global, history: &History, lines: &[u8]) -> bool {
    let mut out = Vec::new(alloc);
    put_listed(alloc, history, &mut out).is_ok() && out.as_slice() == lines
}

/// Two values at a port, and two writes of a cell.
const TWICE: &str = "\
w -.main.6.1[0] -.main.8.1 20
t -.main.10.1 1 20
t -.main.10.1 1 10
w -.main.6.1[0] -.main.7.1 10
";

/// Whether the history of these entries lists these lines there.
fn lines_list(alloc: Global, entries: &str, lines: &[u8]) -> bool {
    let mut history = History::new(alloc);
    put_lines(alloc, &mut history, entries).is_ok() && lists(alloc, &history, lines)
}

#[test]
fn a_history_lists_values_and_writes(rt: HostRuntime) -> Result<(), Fail> {
    let lines = b"10\n20\n-.main.7.1 10\n-.main.8.1 20\n";
    assert!(rt; lines_list(rt.alloc(), TWICE, lines));
    Ok(())
}

/// The history of the double on 4.
const DOUBLED: &str = "\
t -.main.1.1 1 4
t -.main.2.1 1 4
t -.main.2.1 2 4
t -.main.3.1 1 8
a 8
";

/// Some of the lines of the double's history.
const SOME: &str = "t -.main.3.1 1 8\nt -.main.1.1 1 4\nt -.main.2.1 2 4\n";

/// The other lines, and one of the same.
const OTHERS: &str = "a 8\nt -.main.2.1 1 4\nt -.main.1.1 1 4\n";

/// Merges the set of these lines in. Returns whether that was done.
fn merge_lines(alloc: Global, history: &mut History, lines: &str) -> bool {
    let mut other = History::new(alloc);
    put_lines(alloc, &mut other, lines).is_ok() && history.merge(&other).is_ok()
}

/// Merges a copy of the set in, which changes nothing. Returns whether that was done.
fn merge_same(history: &mut History) -> bool {
    match history.copy() {
        Ok(same) => history.merge(&same).is_ok(),
        Err(_) => false,
    }
}

/// Whether the two sets merge to that text, and a copy of both in it changes nothing.
fn merges(alloc: Global, left: &str, right: &str, wanted: &str) -> bool {
    let mut history = History::new(alloc);
    put_lines(alloc, &mut history, left).is_ok()
        && merge_lines(alloc, &mut history, right)
        && merge_same(&mut history)
        && has_text(alloc, &history, wanted)
}

#[test]
fn sets_merge_in_both_orders(rt: HostRuntime) -> Result<(), Fail> {
    for (left, right) in [(SOME, OTHERS), (OTHERS, SOME)] {
        assert!(rt; merges(rt.alloc(), left, right, DOUBLED));
    }
    Ok(())
}

/// The report of the double's history.
const REPORT: &str = "\
state quiet
firings 3
parked 1
entries 5
answer 8
verdict answer 8
";

/// Whether the report of these entries is so. Want of memory is a no.
fn is_reported(alloc: Global, lines: &str, wanted: &str) -> bool {
    let mut history = History::new(alloc);
    put_lines(alloc, &mut history, lines).is_ok() && has_report(alloc, &history, wanted)
}

/// Whether the report of the history is so.
fn has_report(alloc: Global, history: &History, wanted: &str) -> bool {
    match report_text(alloc, Ending::Quiet, 3, 1, history) {
        Ok(text) => text.as_slice() == wanted.as_bytes(),
        Err(_) => false,
    }
}

#[test]
fn a_report_lists_what_a_history_says(rt: HostRuntime) -> Result<(), Fail> {
    assert!(rt; is_reported(rt.alloc(), DOUBLED, REPORT));
    Ok(())
}
