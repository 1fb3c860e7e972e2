//! The words of a line, and what a destination's word says.
use u_base::{after, number_at};

/// The word at that index, which counts from 0, if there is one. Words stand between single spaces.
pub fn word_of(line: &[u8], index: usize) -> Option<&[u8]> {
    line.split(|byte| *byte == b' ').nth(index)
}

/// How many spaces there are: the index of the last word.
pub fn spaces_of(line: &[u8]) -> usize {
    line.iter().filter(|byte| **byte == b' ').count()
}

/// Where the word at that index begins, in bytes from the line's first; the line's length if there is no
/// such word.
pub fn start_of(line: &[u8], index: usize) -> usize {
    let mut left = index;
    for (i, byte) in line.iter().enumerate() {
        if left == 0 {
            return i;
        }
        if *byte == b' ' {
            left -= 1;
        }
    }
    line.len()
}

/// The word that the byte at the offset stands in, or that ends before it.
pub fn word_around(line: &[u8], offset: usize) -> &[u8] {
    let front = line.get(..offset).unwrap_or(line);
    word_of(line, spaces_of(front)).unwrap_or(b"")
}

/// The statement and the port that a destination's word names, 1 to 999 and 1 to 9.
pub fn destination_of(word: &[u8]) -> Option<(u32, u32)> {
    let (statement, rest) = number_at(word, 999).ok()?;
    match number_at(after(rest, b'.').ok()?, 9) {
        Ok((port, [])) => Some((statement, port)),
        _ => None,
    }
}

/// The statement that the front of a destination's word names, if its dot stands there and no port.
pub fn dotted(word: &[u8]) -> Option<u32> {
    match number_at(word, 999) {
        Ok((statement, b".")) => Some(statement),
        _ => None,
    }
}
