//! Worked firings: what each needs and gives, and what is no firing. Each program is on 4.
use std::alloc::{AllocError, Global};
use std::test::Fail;
use u_check::Job;
use u_name::Cell;
use u_plain::examples::{FACTORIAL, SUM, TWO_WRITERS, job};
use u_plain::worked::{firing_of, name_of};
use u_rule::{Entry, Firing, RuleError, gives, names_cell, needs};
use u_value::Value;

/// Firings of a loop. Each begins with the firing's text. Below stand the entries that it needs, and those
/// that it gives, or that it is no firing; an empty line parts it from the next one.
const LOOP_FIRINGS: &str = "\
f -.main.4.1 0
t -.main.4.1 1 0
gives
t (-.main.L1.1).main.9.1 1 0
t (-.main.L1.1).main.12.1 1 0

f (-.main.L1.1).main.14.4294967295 3
t (-.main.L1.1).main.14.4294967295 1 3
gives
x (-.main.L1.1).main.14.4294967295 initiation

f -.main.17.1 6
t -.main.17.1 1 6
gives
a 6

f (-.main.L1.1).main.12.2 6 7
t (-.main.L1.1).main.12.2 1 6
t (-.main.L1.1).main.12.2 2 7
gives
x (-.main.L1.1).main.12.2 kind

f (-.main.L1.1).main.13.4294967296 4
no firing

f -.main.3.2 4
no firing";

/// Firings of calls. A procedure stands only where an `apply` calls it.
const CALL_FIRINGS: &str = "\
f -.main.3.1 @fact 4
t -.main.3.1 1 @fact
t -.main.3.1 2 4
gives
t (-.main.3.1).fact.1.1 1 4

f ((-.main.3.1).fact.7.1).rec.8.1 6
t ((-.main.3.1).fact.7.1).rec.8.1 1 6
gives
t (-.main.3.1).fact.8.1 1 6

f ((-.main.3.1).fact.6.1).one.3.1 4
no firing

f -.fact.5.1 4 4
no firing";

/// Firings of structures. A `fetch` reads a write where its values name a cell, and only there.
const CELL_FIRINGS: &str = "\
f -.main.7.1 &-.main.6.1#3 3 @main
t -.main.7.1 1 &-.main.6.1#3
t -.main.7.1 2 3
t -.main.7.1 3 @main
gives
x -.main.7.1 bounds

f -.main.9.1 &-.main.6.1#3 2 by -.main.8.1 20
t -.main.9.1 1 &-.main.6.1#3
t -.main.9.1 2 2
w -.main.6.1[2] -.main.8.1 20
gives
t -.main.10.1 1 20

f -.main.9.1 &-.main.6.1#3 2
no firing

f -.main.9.1 &-.main.6.1#3 3 by -.main.8.1 20
no firing

f -.main.6.1 3 by -.main.8.1 20
no firing";

/// A loop that turns, in a program of version 2.
const TURNS: &[u8] =
    b"u-program 2\nblock main\nloop 1 0\n1 0 begin -> 2.1 5.1\n2 0 enter 1 -> 3.1\n3 1 next -> 4.1\n4 1 pass ->\n5 0 end ->\n";

/// The turns go on beyond those of version 1, and end at the greatest initiation of a name.
const TURN_FIRINGS: &str = "\
f (-.main.L1.1).main.3.4294967295 7
t (-.main.L1.1).main.3.4294967295 1 7
gives
t (-.main.L1.1).main.4.4294967296 1 7

f (-.main.L1.1).main.3.18446744073709551615 7
t (-.main.L1.1).main.3.18446744073709551615 1 7
gives
x (-.main.L1.1).main.3.18446744073709551615 initiation";

/// Appends the entries, each on a line of its own behind what stands there.
fn put_entries(out: &mut Vec<u8>, entries: &[Entry]) -> Result<(), AllocError> {
    for entry in entries {
        out.push(b'\n')?;
        entry.write_text(out)?;
    }
    Ok(())
}

/// Appends what the firing needs, or that it is no firing. Answers whether it is one.
fn put_needs(
    alloc: Global,
    job: &Job,
    firing: &Firing,
    out: &mut Vec<u8>,
) -> Result<bool, RuleError> {
    match needs(alloc, job, firing) {
        Ok(needed) => {
            put_entries(out, &needed)?;
            Ok(true)
        }
        Err(RuleError::NotAFiring) => {
            out.extend_from_slice(b"\nno firing")?;
            Ok(false)
        }
        Err(RuleError::NoMemory) => Err(RuleError::NoMemory),
    }
}

/// Appends a line that says so, and what the firing gives.
fn put_gives(
    alloc: Global,
    job: &Job,
    firing: &Firing,
    out: &mut Vec<u8>,
) -> Result<(), RuleError> {
    out.extend_from_slice(b"\ngives")?;
    let given = gives(alloc, job, firing)?;
    put_entries(out, &given)?;
    Ok(())
}

/// Appends the text of the firing, and what it needs and gives.
fn put_all(alloc: Global, job: &Job, firing: &Firing, out: &mut Vec<u8>) -> Result<(), RuleError> {
    firing.write_text(out)?;
    if put_needs(alloc, job, firing, out)? {
        put_gives(alloc, job, firing, out)?;
    }
    Ok(())
}

/// Whether the firing needs and gives what stands in the row behind its text.
fn fires(alloc: Global, job: &Job, firing: &Firing, row: &str) -> Result<bool, RuleError> {
    let mut out = Vec::new(alloc);
    put_all(alloc, job, firing, &mut out)?;
    Ok(out.as_slice() == row.as_bytes())
}

/// Whether it is so for the firing of the row's first line.
fn is_right(alloc: Global, job: &Job, row: &str) -> Result<bool, RuleError> {
    let (line, _) = row.split_once("\n").unwrap_or((row, ""));
    let firing = firing_of(alloc, line)?;
    fires(alloc, job, &firing, row)
}

/// How many of the text's rows are right, up to the first one that is not.
fn count_right(alloc: Global, job: &Job, text: &str) -> Result<usize, RuleError> {
    let mut count: usize = 0;
    for row in text.split("\n\n") {
        if !is_right(alloc, job, row)? {
            return Ok(count);
        }
        count = count.saturating_add(1);
    }
    Ok(count)
}

/// How many of the text's firings need and give what stands below them, up to the first one that
/// does not.
fn how_many_fire(alloc: Global, program: &[u8], text: &str) -> Result<usize, RuleError> {
    let job = job(alloc, program, 4)?;
    count_right(alloc, &job, text)
}

#[test]
fn firings_need_and_give(rt: HostRuntime) -> Result<(), Fail> {
    let rows = [
        (SUM, LOOP_FIRINGS, 6),
        (FACTORIAL, CALL_FIRINGS, 4),
        (TWO_WRITERS, CELL_FIRINGS, 5),
        (TURNS, TURN_FIRINGS, 2),
    ];
    for (program, text, count) in rows {
        assert!(rt; how_many_fire(rt.alloc(), program, text)? == count);
    }
    Ok(())
}

#[test]
fn a_structure_and_an_index_name_a_cell(rt: HostRuntime) -> Result<(), Fail> {
    let structure = Value::read(rt.alloc(), b"&-.main.6.1#3")?;
    let cell = Cell::new(name_of(rt.alloc(), b"-.main.6.1")?, 2);
    assert!(rt; names_cell(&structure, &Value::Int(2), &cell));
    assert!(rt; !names_cell(&structure, &Value::Int(1), &cell));
    Ok(())
}
