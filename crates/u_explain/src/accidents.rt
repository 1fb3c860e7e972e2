//! Accidents of editors, and of files that came from elsewhere: bytes that no program has. Each is told by
//! one sentence.

const TWO_BYTE_ENDS: &str =
    "this file has line ends of two bytes, a carriage return before each newline, as on Windows; save it \
        with newlines alone";

const CARRIAGE_RETURN: &str =
    "a carriage return stands here, which ends lines on some systems; lines of a program end with \
        newlines alone";

const SPACE_BEHIND: &str = "a space stands at the end of the line; a line ends with its last word";

const CONTROL: &str =
    "this byte is no character that is printed; a program has printable ASCII and newlines alone";

const BEYOND: &str =
    "this byte is no ASCII character; it may belong to a typographic sign, a letter with an accent or a \
        hard space, and a program has ASCII alone";

/// Whether the line has spaces, tabs and carriage returns alone, or nothing.
fn is_blank(line: &[u8]) -> bool {
    line.iter()
        .all(|byte| matches!(*byte, b' ' | b'\t' | b'\r'))
}

/// Whether the bytes begin a comment of some language, after spaces and tabs.
fn begins_comment(bytes: &[u8]) -> bool {
    let at = bytes.iter().position(|byte| !matches!(*byte, b' ' | b'\t'));
    matches!(
        &bytes[at.unwrap_or(0)..],
        [b'#' | b';' | b'%', ..] | [b'/', b'/' | b'*', ..] | [b'(', b'*', ..] | [b'-', b'-', ..]
    )
}

/// The accident of the byte if it is a space: the one before it and the ones after it tell which.
fn of_space(before: &[u8], behind: &[u8]) -> Option<&'static str> {
    match before.last() {
        None => Some("the line begins with a space; the first word of a line stands at its start"),
        _ if is_blank(behind) => Some(SPACE_BEHIND),
        Some(b' ') => Some("two spaces stand between words; words stand between single spaces"),
        _ => None,
    }
}

/// The accident that the byte is.
fn of_byte(byte: u8, before: &[u8], behind: &[u8]) -> Option<&'static str> {
    match byte {
        b' ' => of_space(before, behind),
        b'\t' => Some(
            "a tab stands here; a program has no tabs, and its words stand between single spaces",
        ),
        b'\r' if behind.is_empty() => Some(TWO_BYTE_ENDS),
        b'\r' => Some(CARRIAGE_RETURN),
        0..=31 => Some(CONTROL),
        127..=255 => Some(BEYOND),
        b'A'..=b'Z' => Some(
            "this is a capital letter; all words and names of a program have small letters",
        ),
        _ => None,
    }
}

/// The accident of the whole file, which its first bytes show.
fn of_front(line: &[u8]) -> Option<&'static str> {
    match line {
        [0xEF, 0xBB, 0xBF, ..] => Some(
            "the file begins with a byte order mark, three bytes that some editors put before the text; \
                save it without one, as plain ASCII",
        ),
        [0xFF, 0xFE, ..] | [0xFE, 0xFF, ..] | [b'u', 0, ..] | [0, b'u', ..] => Some(
            "the file has two bytes for each letter (UTF-16); save it as plain ASCII",
        ),
        _ => None,
    }
}

/// The accident that made the line wrong from the offset on, if it is one.
pub fn accident_at(is_first: bool, line: &[u8], offset: usize) -> Option<&'static str> {
    let front = if is_first { of_front(line) } else { None };
    if front.is_some() {
        return front;
    }
    let is_return = line == b"\r".as_slice();
    if line.is_empty() || is_blank(line) && offset == 0 && !is_return {
        return Some("the line is blank; a program has no blank lines");
    }
    let behind = line.get(offset..).unwrap_or(b"");
    if begins_comment(line) || begins_comment(behind) {
        return Some("this looks like a comment; a program has no comments");
    }
    match behind.split_first() {
        Some((byte, behind)) => of_byte(*byte, &line[..offset], behind),
        None if line.last() == Some(&b' ') => Some(SPACE_BEHIND),
        None => None,
    }
}
