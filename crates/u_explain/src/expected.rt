//! What may stand after the front of a line.
use crate::text_place::TextPlace;
use crate::words::{destination_of, spaces_of, word_of};
use u_program::Version;

/// A destination: a statement's number and a port.
pub type To = (u32, u32);

/// What may stand after a front that begins some allowed line.
#[derive(Clone, Copy)]
pub enum Expected<'a> {
    /// The end of the first line.
    HeaderEnd,
    /// The first word of a line, or more of it.
    LineStart,
    /// The name of a block, of which so many bytes stand there, and whether the line ends after it, and
    /// not an arrow stands there.
    Name(usize, bool),
    /// The number of the next loop.
    LoopNumber,
    /// The region that holds the loop, of which these bytes stand there.
    Holder(&'a [u8]),
    /// A region.
    Region,
    /// A space and a kind, or more of the region.
    RegionEnd,
    /// A kind, of which these bytes stand there.
    Kind(&'a [u8]),
    /// A constant, of which these bytes stand there.
    Constant(&'a [u8]),
    /// A number between a kind and its arrow, and whether bytes of it stand there.
    Number(Argument, bool),
    /// The arrow, or more of it.
    Arrow,
    /// The end of the line, after the arrow of this kind.
    NoList(&'a [u8]),
    /// A destination, of which these bytes stand there.
    Destination(List, &'a [u8]),
    /// After a whole destination, the arrow or the slash: a space and what goes on, or the end.
    More(List),
}

/// A number between a kind and its arrow.
#[derive(Clone, Copy, PartialEq, Eq)]
pub enum Argument {
    /// The loop of an `enter`.
    Loop,
    /// The `back` of an `apply`, and whether a number of arguments stands after it: it does but for
    /// version 1.
    Back(bool),
    /// The number of arguments of an `apply`.
    Count,
    /// The place of a `param`.
    Place,
}

/// A list of destinations up to a place in it.
#[derive(Clone, Copy)]
pub struct List {
    /// The destination before the place, if there is one.
    pub last: Option<To>,
    /// How many whole destinations stand before the place.
    pub count: usize,
    /// Whether a slash has to come before the line's end.
    pub wants_slash: bool,
}

/// The list after the arrow, whose index is that one.
fn list_of(front: &[u8], arrow: usize, wants_slash: bool) -> List {
    let mut list = List {
        last: None,
        count: 0,
        wants_slash,
    };
    for word in front.split(|byte| *byte == b' ').skip(arrow) {
        if word == b"/".as_slice() {
            list.last = None;
            list.count = 0;
            list.wants_slash = false;
        } else if let Some(to) = destination_of(word) {
            list.last = Some(to);
            list.count = list.count.saturating_add(1);
        }
    }
    list
}

/// What may stand at or after the arrow, whose index is that one.
fn arrow_expected<'a>(
    front: &'a [u8],
    arrow: usize,
    kind: &'a [u8],
    last: &'a [u8],
) -> Expected<'a> {
    let list = list_of(front, arrow, kind == b"switch".as_slice());
    match (word_of(front, arrow), kind, last) {
        (Some(b"->"), b"apply" | b"store" | b"end", _) => Expected::NoList(kind),
        (Some(b"->"), _, b"->" | b"/") => Expected::More(list),
        (Some(b"->"), _, _) if destination_of(last).is_some() => Expected::More(list),
        (Some(b"->"), _, _) => Expected::Destination(list, last),
        _ => Expected::Arrow,
    }
}

/// The index of the arrow in the line of a statement of the kind.
fn arrow_of(version: Version, kind: &[u8]) -> usize {
    match (kind, version) {
        (b"apply", Version::Two) => 5,
        (b"const" | b"enter" | b"apply" | b"param", _) => 4,
        _ => 3,
    }
}

/// What may stand in the argument of the kind, of which these bytes are there, or after it.
fn argument_expected<'a>(version: Version, kind: &[u8], begun: &'a [u8]) -> Expected<'a> {
    let has_begun = !begun.is_empty();
    match (kind, begun) {
        (b"enter", _) => Expected::Number(Argument::Loop, has_begun),
        (b"apply", _) => Expected::Number(Argument::Back(version == Version::Two), has_begun),
        (b"param", _) => Expected::Number(Argument::Place, has_begun),
        (_, [b'@', name @ ..]) => Expected::Name(name.len(), false),
        _ => Expected::Constant(begun),
    }
}

/// What may stand in a statement's line after this front, whose last word is that one.
fn statement_expected<'a>(version: Version, front: &'a [u8], last: &'a [u8]) -> Expected<'a> {
    let kind = word_of(front, 2).unwrap_or(b"");
    let arrow = arrow_of(version, kind);
    match (spaces_of(front), last) {
        (0, _) => Expected::LineStart,
        (1, []) => Expected::Region,
        (1, _) => Expected::RegionEnd,
        (2, _) => Expected::Kind(kind),
        (3, _) if arrow > 3 => argument_expected(version, kind, last),
        (4, _) if arrow > 4 => Expected::Number(Argument::Count, !last.is_empty()),
        _ => arrow_expected(front, arrow, kind, last),
    }
}

/// What may stand after the front of a line at that place. The front begins some line that is
/// allowed there.
pub fn expected_behind(place: TextPlace, front: &[u8]) -> Expected<'_> {
    let spaces = spaces_of(front);
    let last = word_of(front, spaces).unwrap_or(b"");
    match (front, spaces) {
        _ if place == TextPlace::Header => match front.len() {
            11 => Expected::HeaderEnd,
            _ => Expected::LineStart,
        },
        ([], _) | ([b'b' | b'l', ..], 0) => Expected::LineStart,
        ([b'b', ..], _) => Expected::Name(last.len(), true),
        ([b'l', ..], 1) => Expected::LoopNumber,
        ([b'l', ..], _) => Expected::Holder(last),
        _ => statement_expected(place.version(), front, last),
    }
}
