//! Texts of names and values: what is read and written again, what is refused, and the order of values.
use crate::answers::{SAME, Subject, is_answered};
use std::alloc::{AllocError, Global};
use std::test::Fail;
use u_name::{Cell, Name};
use u_value::{Value, ValueTextError};

/// What no text of a name begins with.
const TOO_DEEP: &str = "(((((((((((((((((((((((((((((((((((((((((((((((((((((((((((((((((";

/// Texts, and what is answered to them.
const TEXTS: &[(Subject, &str, &str)] = &[
    (Subject::Name, "-.main.3.1", SAME),
    (
        Subject::Name,
        "((-.main.L12.3).main.20.4).fact_2.999.18446744073709551615",
        SAME,
    ),
    (Subject::Value, "0", SAME),
    (Subject::Value, "9223372036854775807", SAME),
    (Subject::Value, "-9223372036854775808", SAME),
    (Subject::Value, "true", SAME),
    (Subject::Value, "false", SAME),
    (Subject::Value, "@fact_2", SAME),
    (Subject::Value, "&-.main.6.1#1000000", SAME),
    (
        Subject::Name,
        "-.main.01.1",
        "byte 7: no name is written so",
    ),
    (
        Subject::Name,
        "-.main.1.18446744073709551616",
        "byte 28: no name is written so",
    ),
    (Subject::Name, TOO_DEEP, "the context is deeper than 64"),
    (Subject::Value, "-0", "byte 1: no value is written so"),
    (
        Subject::Value,
        "9223372036854775808",
        "byte 18: no value is written so",
    ),
    (Subject::Value, "trues", "byte 4: no value is written so"),
];

/// The rows. A proof that calls this knows none of them, and so is short.
fn texts() -> &'static [(Subject, &'static str, &'static str)] {
    TEXTS
}

/// Texts with an offset that a text begins at, and the offset behind that text.
const PARTS: &[(Subject, &str, usize, usize)] = &[
    (Subject::Name, "t (-.main.L1.1).main.4.2x", 2, 24),
    (Subject::Value, "a -12x", 2, 5),
    (Subject::Value, "012", 0, 1),
];

/// Values in their order.
const RISING: &[&str] = &[
    "-1",
    "0",
    "7",
    "false",
    "true",
    "@fact",
    "@main",
    "&-.main.9.1#10",
    "&-.main.10.1#9",
    "&-.main.10.1#10",
    "&-.rec.1.1#10",
    "&(-.main.L1.1).main.1.1#10",
    "&(-.main.1.1).main.1.1#10",
];

/// The offset behind the text that begins at the offset.
fn end_of(alloc: Global, subject: Subject, text: &str, offset: usize) -> Result<usize, Fail> {
    if offset > text.len() {
        return Ok(offset);
    }
    match subject {
        Subject::Name => {
            let (_, end) = Name::read_at(alloc, text.as_bytes(), offset)?;
            Ok(end)
        }
        Subject::Value => {
            let (_, end) = Value::read_at(alloc, text.as_bytes(), offset)?;
            Ok(end)
        }
    }
}

/// Whether the cell is written so.
fn is_cell_written(alloc: Global, cell: &Cell, wanted: &str) -> Result<bool, AllocError> {
    let mut out = Vec::new(alloc);
    cell.write_text(&mut out)?;
    Ok(out.as_slice() == wanted.as_bytes())
}

/// Whether a copy of the cell is written so.
fn is_cell_copied(alloc: Global, cell: &Cell, wanted: &str) -> Result<bool, AllocError> {
    let copy = cell.copy()?;
    is_cell_written(alloc, &copy, wanted)
}

/// Whether the first value comes before the second.
fn is_before(alloc: Global, first: &str, second: &str) -> Result<bool, ValueTextError> {
    let first = Value::read(alloc, first.as_bytes())?;
    let second = Value::read(alloc, second.as_bytes())?;
    Ok(first < second)
}

#[test]
fn texts_are_written_as_they_were_read_or_refused(rt: HostRuntime) -> Result<(), Fail> {
    for (subject, text, wanted) in texts() {
        assert!(rt; is_answered(rt.alloc(), *subject, text, wanted)?, "{text}");
    }
    Ok(())
}

#[test]
fn texts_end_where_no_more_belongs_to_them(rt: HostRuntime) -> Result<(), Fail> {
    for (subject, text, offset, end) in PARTS {
        assert!(rt;
            end_of(rt.alloc(), *subject, text, *offset)? == *end,
            "{text}"
        );
    }
    Ok(())
}

#[test]
fn values_come_in_their_order(rt: HostRuntime) -> Result<(), Fail> {
    for pair in RISING.windows(2) {
        if let [first, second] = pair {
            assert!(rt; is_before(rt.alloc(), first, second)?, "{second}");
        }
    }
    Ok(())
}

#[test]
fn a_cell_is_written_with_its_index(rt: HostRuntime) -> Result<(), Fail> {
    let cell = Cell::new(Name::read(rt.alloc(), b"-.main.6.1")?, 10);
    assert!(rt; is_cell_copied(rt.alloc(), &cell, "-.main.6.1[10]")?);
    Ok(())
}
