//! Lines of a program's text, shown with their numbers and a mark under one byte.
//!
//! A byte that is no printable ASCII is shown as `\t`, `\r` or `\xNN`, so the mark stands under it on any
//! terminal.
use crate::telling::Shown;
use std::alloc::AllocError;
use std::fmt;

/// The most bytes of a line that are shown.
const SHOWN: usize = 72;

/// How many of them stand before the mark at most.
const BEFORE: usize = 48;

/// A line with its number, and below it a mark `^` under the byte at the offset, or after the line's last
/// byte. Of a line of more than 72 bytes at most 72 are shown, 48 of them before the mark at most.
#[derive(Clone, Copy)]
pub struct Marked<'a> {
    /// The line's number.
    pub number: usize,
    /// The line, without its newline.
    pub line: &'a [u8],
    /// How many bytes stand before the mark, at most.
    pub offset: usize,
}

/// As many spaces as the byte takes columns when it is shown.
fn blank_of(byte: u8) -> &'static str {
    match byte {
        b'\\' | b'\t' | b'\r' => "  ",
        b' '..=b'~' => " ",
        _ => "    ",
    }
}

impl fmt::Display for Marked<'_> {
    fn fmt<W: fmt::Write>(&self, f: &mut fmt::Formatter<W>) -> fmt::Result {
        let (number, length) = (self.number, self.line.len());
        let at = self.offset.min(length);
        let is_long = length > SHOWN;
        let start = if is_long {
            at.saturating_sub(BEFORE)
        } else {
            0
        };
        let end = if length - start > SHOWN {
            start + SHOWN
        } else {
            length
        };
        let shown = &self.line[start..end];
        let space = if shown.is_empty() { "" } else { " " };
        let before = if start > 0 { "..." } else { "" };
        let behind = if end < length { "..." } else { "" };
        writeln!(f, "line {number} |{space}{before}{}{behind}", Shown(shown))?;
        let margin = 6 + number.checked_ilog10().unwrap_or(0) as usize;
        let dots = before.len();
        write!(f, "{:margin$} | {:dots$}", "", "")?;
        for byte in &self.line[start..at] {
            f.write_str(blank_of(*byte))?;
        }
        f.write_str("^\n")
    }
}

/// Appends the line with its number, and below it a mark `^` under the byte at the offset: after
/// the line's last byte if the offset is the line's length or above. A byte that is no printable
/// ASCII is shown as an escape, and the mark is under the escape's first byte. Of a line of more
/// than 72 bytes at most 72 are shown, 48 of them before the mark at most.
///
/// # Errors
/// `AllocError` if there is no memory.
pub fn show_marked(
    out: &mut Vec<u8>,
    number: usize,
    line: &[u8],
    offset: usize,
) -> Result<(), AllocError> {
    let shown = Marked {
        number,
        line,
        offset,
    }
    .to_string(*out.allocator())?;
    out.extend_from_slice(shown.as_bytes())
}
