//! What was expected at a place of a line, in words and ranges.
use crate::expected::{Argument, Expected, List, To};
use crate::lists::greatest_port;
use crate::telling::{Quoted, Told};
use crate::text_place::TextPlace;
use crate::words::dotted;
use std::fmt;
use u_base::number_at;
use u_program::{Version, kind_word, plain_kinds};

/// The first lines of programs.
pub const HEADERS: &str = "`u-program 1` or `u-program 2`";

const NAME: &str = "1 to 16 of `a` to `z`, `0` to `9` and `_`, the first a letter";

const ARROW: &str = "a space and the arrow `->`";

const END: &str = "the end of the line";

const SLASH: &str = "the slash `/` before the list for false";

/// What a line after the line that begins a block may be.
fn tell_inside(out: &mut String, has_room: bool, loops: u32, statements: u32) -> Told {
    let (next, another) = (statements.saturating_add(1), loops.saturating_add(1));
    match statements {
        0 if loops < 99 => write!(
            out,
            "statement {next}, as `{next} 0 add -> 9.1`, or loop {another}, as `loop {another} 0`"
        ),
        1..=998 if has_room => write!(
            out,
            "statement {next}, as `{next} 0 add -> 9.1`, or the next block, as `block fact`"
        ),
        0..=998 => write!(out, "statement {next}, as `{next} 0 add -> 9.1`"),
        _ if has_room => out.push_str("the next block, as `block fact`"),
        _ => out.push_str(
            "the end of the file: the last block has 999 statements, and the program 64 blocks",
        ),
    }
}

/// What a line at the place may be.
fn tell_start(out: &mut String, place: TextPlace) -> Told {
    match place {
        TextPlace::Header => write!(out, "{HEADERS}, the first line of every program"),
        TextPlace::FirstBlock(_) => out.push_str("the first block, as `block main`"),
        TextPlace::Inside {
            blocks,
            loops,
            statements,
            ..
        } => tell_inside(out, blocks < 64, loops, statements),
    }
}

/// What may stand in or after a name.
fn tell_name(out: &mut String, used: usize, is_last: bool) -> Told {
    let behind = if is_last { END } else { ARROW };
    match used {
        0 => write!(out, "the name of a block: {NAME}"),
        1..=15 => write!(out, "more of the name ({NAME}), or {behind}"),
        _ => out.push_str(behind),
    }
}

/// The word, if it begins with these bytes.
fn tell_word(out: &mut String, word: &[u8], begun: &[u8]) -> Told {
    if word.starts_with(begun) {
        write!(out, " {}", Quoted(word))?;
    }
    Ok(())
}

/// The kinds of the version that begin with these bytes.
pub fn tell_kinds(out: &mut String, version: Version, begun: &[u8]) -> Told {
    for kind in plain_kinds() {
        tell_word(out, kind_word(&kind), begun)?;
    }
    tell_word(out, b"const", begun)?;
    tell_word(out, b"enter", begun)?;
    tell_word(out, b"apply", begun)?;
    match version {
        Version::One => Ok(()),
        Version::Two => tell_word(out, b"param", begun),
    }
}

/// What may stand after these bytes of a kind.
fn tell_kind(out: &mut String, version: Version, begun: &[u8]) -> Told {
    match begun {
        b"const" => return out.push_str("a space and the constant"),
        b"enter" => return out.push_str("a space and the number of the loop, from 1 to 99"),
        b"apply" => return out.push_str("a space and the number of a `back`, from 1 to 999"),
        b"param" => return out.push_str("a space and the place of the parameter, from 2 to 4"),
        b"" => out.push_str("a kind, one of")?,
        _ if plain_kinds().iter().any(|kind| kind_word(kind) == begun) => {
            return out.push_str(ARROW);
        }
        _ => out.push_str("more of a kind:")?,
    }
    tell_kinds(out, version, begun)
}

/// What may stand after these bytes of a constant.
fn constant_expected(begun: &[u8]) -> &'static str {
    match begun {
        [] =>
            "a constant: a number from -9223372036854775808 to 9223372036854775807, `true`, `false`, \
                or `@` and the name of a block",
        [b't', more @ ..] if more.len() < 3 => "more of the constant `true`",
        [b'f', more @ ..] if more.len() < 4 => "more of the constant `false`",
        [b'-'] => "a digit from 1 to 9",
        [b'0' | b't' | b'f', ..] => ARROW,
        _ => "a space and the arrow `->`, or more digits up to 9223372036854775807 \
                (-9223372036854775808 with a minus)",
    }
}

/// What may stand in the number between a kind and its arrow, or after it if some of it stands there.
fn number_expected(argument: Argument, has_begun: bool) -> &'static str {
    match (argument, has_begun) {
        (Argument::Loop, false) => "the number of the loop that is entered, from 1 to 99",
        (Argument::Loop, true) => "a space and the arrow `->`, or more digits up to 99",
        (Argument::Back(_), false) =>
            "the number of the `back` to which the result comes, from 1 to 999",
        (Argument::Back(false), true) => "a space and the arrow `->`, or more digits up to 999",
        (Argument::Back(true), true) =>
            "a space and the number of arguments, or more digits up to 999",
        (Argument::Count, false) => "the number of arguments, from 1 to 4",
        (Argument::Place, false) => "the place of the parameter, from 2 to 4",
        (Argument::Count | Argument::Place, true) => ARROW,
    }
}

/// A destination after the last one, if there is one, in a program whose greatest port is that one. Without
/// a last one: any destination.
#[derive(Clone, Copy)]
struct Following(Option<To>, u32);

impl fmt::Display for Following {
    fn fmt<W: fmt::Write>(&self, f: &mut fmt::Formatter<W>) -> fmt::Result {
        let most = self.1;
        let (statement, port) = match self.0 {
            Some((statement, port)) if port < most => (statement, port + 1),
            Some((statement, _)) => (statement.saturating_add(1), 1),
            None => return write!(
                f,
                "a destination, a statement from 1 to 999, a dot and a port from 1 to {most}, as `3.1`"
            ),
        };
        write!(
            f,
            "a destination after the last one, `{statement}.{port}` or above"
        )
    }
}

/// The ports that may follow the dot of a destination of that statement.
fn tell_port(out: &mut String, most: u32, last: Option<To>, statement: u32) -> Told {
    let least = match last {
        Some((other, port)) if other == statement && port < 9 => port + 1,
        _ => 1,
    };
    if least >= most {
        return write!(out, "the port {most}");
    }
    write!(out, "a port from {least} to {most}")
}

/// What may stand in or after a destination's statement.
fn tell_digits(out: &mut String, most: u32, list: &List, begun: &[u8]) -> Told {
    let following = Following(list.last, most);
    let Ok((statement, _)) = number_at(begun, 999) else {
        return write!(out, "{following}");
    };
    if list.last >= Some((statement, most)) {
        return write!(out, "more digits of the statement's number: {following}");
    }
    write!(out, "a dot and a port from 1 to {most}")?;
    if statement < 100 {
        out.push_str(", or more digits of the statement's number, up to 999")?;
    }
    Ok(())
}

/// What may stand in a destination.
fn tell_destination(out: &mut String, most: u32, list: &List, begun: &[u8]) -> Told {
    if let Some(statement) = dotted(begun) {
        return tell_port(out, most, list.last, statement);
    }
    if !begun.is_empty() {
        return tell_digits(out, most, list, begun);
    }
    write!(out, "{}", Following(list.last, most))?;
    if list.wants_slash {
        write!(out, ", or {SLASH}")?;
    }
    Ok(())
}

/// What may stand after a whole destination, the arrow or the slash.
fn tell_more(out: &mut String, most: u32, list: &List) -> Told {
    if list.count < 16 && list.last != Some((999, most)) {
        write!(out, "a space and {}, or ", Following(list.last, most))?;
    }
    if list.wants_slash {
        return write!(out, "a space and {SLASH}");
    }
    out.push_str(END)
}

/// The region that holds the next loop, after so many, or what stands after it.
fn tell_holder(out: &mut String, loops: u32, begun: &[u8]) -> Told {
    match (begun, loops) {
        ([], 0) => out.push_str("region 0, in which the first loop lies"),
        ([], _) => write!(out, "the region that holds the loop, from 0 to {loops}"),
        _ => out.push_str(END),
    }
}

/// How many loops the last block has so far.
fn loops_at(place: TextPlace) -> u32 {
    match place {
        TextPlace::Inside { loops, .. } => loops,
        _ => 0,
    }
}

/// Appends what was expected in a line at that place, without a line's end.
pub fn tell_expected(out: &mut String, place: TextPlace, expected: &Expected<'_>) -> Told {
    let loops = loops_at(place);
    let most = greatest_port(place.version());
    match expected {
        Expected::LineStart => tell_start(out, place),
        Expected::Name(used, is_last) => tell_name(out, *used, *is_last),
        Expected::LoopNumber => write!(
            out,
            "the loop's number, {}, and a space",
            loops.saturating_add(1)
        ),
        Expected::Holder(begun) => tell_holder(out, loops, begun),
        Expected::Region => out.push_str("a region, from 0 to 99"),
        Expected::RegionEnd => {
            out.push_str("a space and a kind, or more digits of a region from 0 to 99")
        }
        Expected::Kind(begun) => tell_kind(out, place.version(), begun),
        Expected::Constant(begun) => out.push_str(constant_expected(begun)),
        Expected::Number(argument, has_begun) => {
            out.push_str(number_expected(*argument, *has_begun))
        }
        Expected::Arrow => out.push_str("the arrow `->`"),
        Expected::Destination(list, begun) => tell_destination(out, most, list, begun),
        Expected::More(list) => tell_more(out, most, list),
        Expected::HeaderEnd | Expected::NoList(_) => out.push_str(END),
    }
}
