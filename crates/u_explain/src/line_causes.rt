//! Why a line is refused from a byte on, in a sentence.
use crate::accidents::accident_at;
use crate::expected::{Argument, Expected, List, To};
use crate::lists::greatest_port;
use crate::telling::{Quoted, Told};
use crate::telling_expected::{HEADERS, tell_kinds};
use crate::text_place::TextPlace;
use crate::words::{destination_of, dotted, word_around, word_of};
use u_base::number_word;
use u_program::Version;

/// The cause if a statement has no arrow.
const MISSING_ARROW: &str =
    "the arrow `->` is missing; each statement has one, also where no destination follows";

/// A line that is refused, or the bytes after the last newline of a file.
#[derive(Clone, Copy)]
pub struct Refused<'a> {
    /// The place where it stands.
    pub place: TextPlace,
    /// Its number, from 1.
    pub number: usize,
    /// The line, without its newline.
    pub line: &'a [u8],
    /// Whether a newline ends it.
    pub is_ended: bool,
    /// How many bytes the longest front of the line has that begins some line which may stand
    /// there.
    pub offset: usize,
}

impl<'a> Refused<'a> {
    /// The byte at the offset, if the line does not end there.
    pub fn byte(&self) -> Option<u8> {
        self.line.get(self.offset).copied()
    }

    /// Whether a digit stands at the offset.
    fn is_digit(&self) -> bool {
        matches!(self.byte(), Some(b'0'..=b'9'))
    }

    /// The word in which the offset lies, or that ends there.
    fn word(&self) -> &'a [u8] {
        word_around(self.line, self.offset)
    }

    /// Whether no word stands before the arrow, or before the line's end.
    fn lacks_word(&self) -> bool {
        matches!(self.word(), b"" | b"->")
    }

    /// The first word of the line.
    fn first_word(&self) -> &'a [u8] {
        word_of(self.line, 0).unwrap_or(b"")
    }
}

/// The cause if the first word of a line stands alone.
fn tell_word_alone(out: &mut String, word: &[u8]) -> Told {
    match word {
        b"block" => out.push_str("the name of the block is missing"),
        b"loop" => out.push_str(
            "the number of the loop is missing, and that of the region that holds it",
        ),
        _ => write!(out, "the line ends behind {}", Quoted(word)),
    }
}

/// The cause if the line of a block or of a loop, or the first line, may not stand after so many
/// statements of a block; none, if the word begins no such line.
fn misplaced(word: &[u8], statements: u32) -> Option<&'static str> {
    match (word, statements) {
        (b"block", 0) => Some("the block before has no statement yet; each block has one at least"),
        (b"block", _) => Some("a program has 64 blocks at most, and this would be one more"),
        (b"loop", 0) => Some("a block has 99 loops at most, and this would be one more"),
        (b"loop", _) => Some(
            "the lines of loops stand behind the line of their block, before its first statement",
        ),
        (b"u-program", _) => Some("`u-program 1` stands in the first line alone"),
        ([b'0'..=b'9', ..], 999..) => Some("a block has 999 statements at most"),
        _ => None,
    }
}

/// The cause if the first word of a line is wrong, after the line that begins a block and so many
/// statements.
fn tell_inside(out: &mut String, first: &[u8], statements: u32) -> Told {
    if let Some(cause) = misplaced(first, statements) {
        return out.push_str(cause);
    }
    let word = Quoted(first);
    match (first, statements) {
        ([b'0'..=b'9', ..], 0) => write!(
            out,
            "the number {word} is wrong: the first statement of a block is statement 1"
        ),
        ([b'0'..=b'9', ..], _) => write!(
            out,
            "the number {word} is wrong: statements are numbered 1, 2, and so on, and the last one was \
                {statements}"
        ),
        _ => write!(
            out,
            "no line begins with the word {word}; a line begins with `block`, `loop` or a statement's number"
        ),
    }
}

/// The cause if the first word of the second line is wrong.
fn tell_second(out: &mut String, first: &[u8]) -> Told {
    match first {
        [b'0'..=b'9', ..] | b"loop" => out.push_str(
            "this line is of no block; a line `block` and a name begins the first block",
        ),
        _ => write!(
            out,
            "behind the first line a block begins, with `block` and its name, and not with {}",
            Quoted(first)
        ),
    }
}

/// The cause if the first line is wrong.
fn tell_header(out: &mut String, it: &Refused<'_>) -> Told {
    match (it.line.get(..11), it.first_word()) {
        (Some(front), _) if it.offset == 11 => {
            write!(out, "the first line has more than {}", Quoted(front))
        }
        (_, b"u-program") => out.push_str(
            "the first line says another version than 1 and 2, which are the only ones",
        ),
        _ => write!(
            out,
            "the first line is not {HEADERS}, by which a program is known"
        ),
    }
}

/// The cause if the first word of a line is wrong.
fn tell_start(out: &mut String, it: &Refused<'_>) -> Told {
    let first = it.first_word();
    match it.place {
        TextPlace::Header => tell_header(out, it),
        _ if it.offset > 0 && it.byte().is_none() => tell_word_alone(out, first),
        TextPlace::FirstBlock(_) => tell_second(out, first),
        TextPlace::Inside { statements, .. } => tell_inside(out, first, statements),
    }
}

/// The cause if a name is wrong.
fn tell_name(out: &mut String, it: &Refused<'_>, used: usize, is_last: bool) -> Told {
    let cause = match (it.byte(), used) {
        (None | Some(b' '), 0) => "the name of the block is missing",
        (_, 0) => "the name of a block begins with a small letter",
        (Some(b' '), _) if is_last => "a block's line has its name and nothing more",
        (None | Some(b' '), _) => MISSING_ARROW,
        (_, 16..) => return write!(
            out,
            "the name {} is too long: a name has 16 bytes at most",
            Quoted(it.word())
        ),
        _ => "the name of a block has small letters, digits and `_` alone",
    };
    out.push_str(cause)
}

/// The cause if a kind is wrong.
fn tell_kind(out: &mut String, it: &Refused<'_>, begun: &[u8]) -> Told {
    let word = Quoted(it.word());
    match it.word() {
        b"" => out.push_str("the kind of the statement is missing"),
        b"->" => out.push_str("the kind of the statement is missing before the arrow"),
        _ if it.byte().is_none() => write!(out, "the line ends behind {word}; {MISSING_ARROW}"),
        _ if begun.is_empty() => write!(out, "no kind of statement is called {word}"),
        _ => {
            write!(out, "no kind of statement is called {word}; the kinds are")?;
            tell_kinds(out, it.place.version(), b"")
        }
    }
}

/// The cause if a constant is wrong.
fn tell_constant(out: &mut String, it: &Refused<'_>, begun: &[u8]) -> Told {
    let word = Quoted(it.word());
    match begun {
        _ if it.lacks_word() => out.push_str("the constant of the `const` is missing"),
        b"0" | b"-" if it.is_digit() => write!(
            out,
            "{word} is no way to write a number: it has no leading zero, and 0 has no minus"
        ),
        _ if it.is_digit() => write!(
            out,
            "{word} is out of range: numbers have 64 bits, from -9223372036854775808 to \
                9223372036854775807"
        ),
        _ if it.byte().is_none() && begun != b"-".as_slice() => {
            write!(out, "the line ends behind the constant; {MISSING_ARROW}")
        }
        _ if it.word().first() == Some(&b'+') => out.push_str("a number has no plus"),
        _ => write!(
            out,
            "{word} is no constant: a whole number, `true`, `false`, or `@` and the name of a block"
        ),
    }
}

/// The cause if a number between a kind and its arrow is wrong.
fn tell_number(out: &mut String, it: &Refused<'_>, argument: Argument) -> Told {
    let (what, least, most) = match argument {
        Argument::Loop => ("the loop of an `enter`", 1, 99),
        Argument::Back(_) => ("the `back` of an `apply`", 1, 999),
        Argument::Count => ("the number of arguments of an `apply`", 1, 4),
        Argument::Place => ("the place of a `param`", 2, 4),
    };
    let word = Quoted(it.word());
    let ends = it.byte().is_none() && !it.word().is_empty();
    match argument {
        Argument::Back(true) if ends => write!(
            out,
            "the line ends behind {word}; the number of arguments is missing"
        ),
        Argument::Count if it.lacks_word() => out.push_str(
            "the number of arguments is missing: in version 2 an `apply` has it behind its `back`, from \
                1 to 4",
        ),
        _ if it.lacks_word() => write!(out, "{what} is missing"),
        _ if ends => write!(
            out,
            "the line ends behind {word}; the arrow `->` is missing"
        ),
        _ => write!(
            out,
            "{what} is a number from {least} to {most} without leading zeros, and not {word}"
        ),
    }
}

/// Which words stand before the arrow, in a sentence.
fn words_before_arrow(version: Version) -> &'static str {
    match version {
        Version::One => "`const`, `enter` and `apply` alone have a word there, and one",
        Version::Two =>
            "`const`, `enter` and `param` alone have a word there, and one, and `apply` has two",
    }
}

/// The cause if the arrow is wrong.
fn tell_arrow(out: &mut String, it: &Refused<'_>) -> Told {
    let word = Quoted(it.word());
    let mut others = it.line.split(|byte| *byte == b' ').skip(3).take(5);
    if others.any(|word| word == b"->".as_slice()) {
        let alone = words_before_arrow(it.place.version());
        return write!(out, "{word} stands before the arrow; {alone}");
    }
    match it.word() {
        b"/" | [b'0'..=b'9', ..] => out.push_str(MISSING_ARROW),
        _ if it.byte().is_none() => out.push_str(MISSING_ARROW),
        _ => write!(
            out,
            "the arrow is written `->`, and {word} stands in its place"
        ),
    }
}

/// The cause if a kind that lists no destinations has one.
fn listed(kind: &[u8]) -> &'static str {
    match kind {
        b"apply" =>
            "an `apply` lists no destinations: its result comes to the `back` that it names before the \
                arrow",
        b"store" => "a `store` lists no destinations: it writes a cell and sends nothing",
        _ => "an `end` lists no destinations: it hands on the result of its block",
    }
}

/// The cause if a destination does not ascend.
fn tell_order(out: &mut String, word: Quoted<'_>, to: To, last: To) -> Told {
    if to == last {
        return write!(
            out,
            "the destination {word} stands there already; a list names a destination once"
        );
    }
    let (statement, port) = last;
    write!(
        out,
        "the destinations of a list ascend, by statement and then by port, and {word} stands behind \
            `{statement}.{port}`"
    )
}

/// The cause if a destination's word is wrong in itself.
fn tell_form(out: &mut String, it: &Refused<'_>, has_dot: bool) -> Told {
    let word = Quoted(it.word());
    let (all, some) = match it.place.version() {
        Version::One => ("1, 2 and 3", "1, 2 or 3"),
        Version::Two => ("1 to 5", "a port from 1 to 5"),
    };
    let most = greatest_port(it.place.version());
    match it.byte() {
        Some(b',') => out.push_str(
            "a comma stands here; destinations stand between single spaces, without commas",
        ),
        Some(b'0'..=b'9') if has_dot => write!(
            out,
            "{word} names a port that no statement has; ports are {all}"
        ),
        _ if number_word(it.word(), 999).is_ok() => write!(
            out,
            "the destination {word} lacks its port: a dot and {some}, as in `3.1`"
        ),
        _ => write!(
            out,
            "{word} is no destination; one is a statement from 1 to 999, a dot and a port from 1 to {most}, \
                as `3.1`"
        ),
    }
}

/// The cause if a destination is wrong.
fn tell_destination(out: &mut String, it: &Refused<'_>, list: &List, has_dot: bool) -> Told {
    let word = it.word();
    match (destination_of(word), list.last) {
        (Some(to), Some(last)) if to <= last => tell_order(out, Quoted(word), to, last),
        _ if word == b"/".as_slice() && !list.wants_slash => {
            out.push_str("a slash `/` stands between the two lists of a `switch` alone, once")
        }
        _ => tell_form(out, it, has_dot),
    }
}

/// The cause if what stands after a whole destination is wrong.
fn tell_more(out: &mut String, it: &Refused<'_>, list: &List) -> Told {
    match it.byte() {
        None => out.push_str(
            "the slash `/` is missing: a `switch` has two lists, for true and for false, with a slash \
                between them",
        ),
        Some(b' ') if list.count >= 16 => {
            out.push_str("a list has 16 destinations at most, and a 17th stands here")
        }
        Some(b' ') => {
            let most = greatest_port(it.place.version());
            write!(
                out,
                "no destination is above `999.{most}`, so none follows it"
            )
        }
        _ if list.last.is_none() => {
            out.push_str("a space is missing here; words stand between single spaces")
        }
        _ => tell_form(out, it, true),
    }
}

/// Appends the cause for which the line is refused from its offset on, without a line's end.
pub fn tell_cause(out: &mut String, it: &Refused<'_>, expected: &Expected<'_>) -> Told {
    if let Some(found) = accident_at(it.place == TextPlace::Header, it.line, it.offset) {
        return out.push_str(found);
    }
    let cause = match expected {
        Expected::HeaderEnd => return tell_header(out, it),
        Expected::LineStart => return tell_start(out, it),
        Expected::Name(used, is_last) => return tell_name(out, it, *used, *is_last),
        Expected::LoopNumber => "loops are numbered 1, 2, and so on, in the order of their lines",
        Expected::Holder([]) => "a loop lies in region 0 or in a loop of an earlier line",
        Expected::Holder(_) =>
            "the line of a loop has two numbers, its own and that of the region that holds it, which is 0 \
                or a loop of an earlier line",
        Expected::Region =>
            "behind the number of a statement stands its region: 0, or the number of the loop that holds it",
        Expected::RegionEnd =>
            "a region is a number from 0 to 99 without a leading zero, and a space and a kind stand behind it",
        Expected::Kind(begun) => return tell_kind(out, it, begun),
        Expected::Constant(begun) => return tell_constant(out, it, begun),
        Expected::Number(argument, _) => return tell_number(out, it, *argument),
        Expected::Arrow => return tell_arrow(out, it),
        Expected::NoList(kind) => listed(kind),
        Expected::Destination(list, begun) => {
            return tell_destination(out, it, list, dotted(begun).is_some());
        }
        Expected::More(list) => return tell_more(out, it, list),
    };
    out.push_str(cause)
}
