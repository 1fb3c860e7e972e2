//! Places of a program's text, and the lines that may stand there.
ghost use Rattle.std.specs.Prelude.{◌≡◌, ◌≤◌, ◌+◌, ◌++◌, ◌∷◌, [], List, ℕ};
ghost use Rattle.u_program.specs.declared.program.Version.{Version};
ghost use Rattle.u_program.specs.Text.{header};
ghost use Rattle.u_explain.specs.Left.{IsLeft};
ghost use Rattle.u_explain.specs.Places.{IsPlace, IsInside, IsAllowed, PlaceOn, sort_of, InsideOn, BlockWhere, LoopWhere, StatementWhere, VersionOn, HeaderOn};

use crate::fronts::{block_left, loop_left, statement_left};
use crate::lists::shorter;
use u_base::after_all;
use u_program::Version;

/// A place of a program's text: what stands before a line, as far as it decides which lines may
/// stand there.
#[derive(Clone, Copy, Debug, PartialEq, Eq)]
pub enum TextPlace {
    /// The first line.
    Header,
    /// The line behind the first one, which says this version.
    FirstBlock(Version),
    /// A line behind the line that begins a block.
    Inside {
        /// The version that the first line says.
        version: Version,
        /// How many blocks have begun, 1 to 64.
        blocks: u32,
        /// How many loops the last block has so far, 0 to 99.
        loops: u32,
        /// How many statements the last block has so far, 0 to 999.
        statements: u32,
    },
}

/// The first line of a text of the version.
pub fn header_of(version: Version) -> &'static [u8]
    ensures { result.now ≡ header version }
{
    match version {
        Version::One => b"u-program 1".as_slice(),
        Version::Two => b"u-program 2".as_slice(),
    }
}

/// What is left of the first line of a text of the version.
fn version_left(line: &[u8], version: Version) -> &[u8]
    ensures { IsLeft (VersionOn version) line.now result.now }
{
    match after_all(line, header_of(version)) {
        Ok(rest) => rest,
        Err(rest) => rest,
    }
}

/// What is left of the first line.
fn header_left(line: &[u8]) -> &[u8]
    ensures { IsLeft HeaderOn line.now result.now }
{
    let one = version_left(line, Version::One);
    let two = version_left(line, Version::Two);
    shorter(one, two)
}

/// The version that the first line says.
fn version_of(line: &[u8]) -> Version
    ensures { (v : Version) → line.now ≡ header v → result ≡ v }
{
    if line == header_of(Version::Two) {
        Version::Two
    } else {
        Version::One
    }
}

/// What is left of a line that begins a block, where one may begin.
fn block_where(line: &[u8], blocks: u32, statements: u32) -> &[u8]
    ensures { IsLeft (BlockWhere blocks statements) line.now result.now }
{
    if statements >= 1 && blocks < 64 {
        block_left(line)
    } else {
        line
    }
}

/// What is left of a loop's line, where one may stand.
fn loop_where(line: &[u8], loops: u32, statements: u32) -> &[u8]
    ensures { IsLeft (LoopWhere loops statements) line.now result.now }
{
    if statements == 0 && loops < 99 {
        loop_left(line, loops + 1)
    } else {
        line
    }
}

/// What is left of a statement's line, where one may stand.
fn statement_where(line: &[u8], version: Version, statements: u32) -> &[u8]
    ensures { IsLeft (StatementWhere version statements) line.now result.now }
{
    if statements < 999 {
        statement_left(line, version, statements + 1)
    } else {
        line
    }
}

/// What is left of a line behind the line that begins a block.
fn inside_left(line: &[u8], version: Version, blocks: u32, loops: u32, statements: u32) -> &[u8]
    ensures { IsLeft (InsideOn version blocks loops statements) line.now result.now }
{
    let block = block_where(line, blocks, statements);
    let own = shorter(
        loop_where(line, loops, statements),
        statement_where(line, version, statements),
    );
    shorter(block, own)
}

/// What is left of a line at that place.
fn place_left(line: &[u8], place: TextPlace) -> &[u8]
    ensures { IsLeft (PlaceOn place) line.now result.now }
{
    match place {
        TextPlace::Header => header_left(line),
        TextPlace::FirstBlock(_) => block_left(line),
        TextPlace::Inside {
            version,
            blocks,
            loops,
            statements,
        } => inside_left(line, version, blocks, loops, statements),
    }
}

/// What is left of the line from the byte on with which no line goes on that may stand at that place. All of
/// the line is left where its first byte is wrong, or no line may stand there.
///
/// Promise line-left: what is left stands after the longest front of the line with which some program goes on
/// at that place.
pub fn line_left(line: &[u8], place: TextPlace) -> &[u8]
    ensures { (before : List (List ℕ)) → IsPlace before place
        → IsLeft (IsAllowed before) line.now result.now }
{
    place_left(line, place)
}

impl TextPlace {
    /// The place behind the line, which may stand at this place.
    pub fn behind(self, line: &[u8]) -> TextPlace
        ensures { (before : List (List ℕ)) → IsPlace before self → IsAllowed before line.now
            → IsPlace (before ++ (line.now ∷ [])) result }
    {
        match self {
            TextPlace::Header => TextPlace::FirstBlock(version_of(line)),
            TextPlace::FirstBlock(version) => TextPlace::Inside {
                version,
                blocks: 1,
                loops: 0,
                statements: 0,
            },
            TextPlace::Inside {
                version,
                blocks,
                loops,
                statements,
            } => inside_behind(line, version, blocks, loops, statements),
        }
    }

    /// The version that the first line says; at the first line itself, version 1.
    pub fn version(self) -> Version {
        match self {
            TextPlace::Header => Version::One,
            TextPlace::FirstBlock(version) | TextPlace::Inside { version, .. } => version,
        }
    }
}

/// One more, of a number of blocks, loops or statements.
fn one_more(count: u32) -> u32
    ensures { count ≤ 999 → result ≡ count + 1 }
{
    if count <= 999 { count + 1 } else { count }
}

/// What a line inside of a program is, which its first byte tells.
#[derive(Clone, Copy)]
enum Sort {
    Block,
    Loop,
    Statement,
}

/// Which sort of a line it is.
fn sort_of(line: &[u8]) -> Sort
    ensures { result ≡ sort_of line.now }
{
    match line.split_first() {
        Some((b'b', _)) => Sort::Block,
        Some((b'l', _)) => Sort::Loop,
        _ => Sort::Statement,
    }
}

/// The place behind a line inside of a program.
fn inside_behind(
    line: &[u8],
    version: Version,
    blocks: u32,
    loops: u32,
    statements: u32,
) -> TextPlace
    ensures { (before : List (List ℕ)) → IsInside before version blocks loops statements
        → IsAllowed before line.now → IsPlace (before ++ (line.now ∷ [])) result }
{
    match sort_of(line) {
        Sort::Block => TextPlace::Inside {
            version,
            blocks: one_more(blocks),
            loops: 0,
            statements: 0,
        },
        Sort::Loop => TextPlace::Inside {
            version,
            blocks,
            loops: one_more(loops),
            statements,
        },
        Sort::Statement => TextPlace::Inside {
            version,
            blocks,
            loops,
            statements: one_more(statements),
        },
    }
}
