//! What is left of a line from the byte on with which no allowed line goes on.
ghost use Rattle.std.specs.Prelude.{◌≡◌, ◌≤◌, ◌<◌, ◌⊎◌, ◌++◌, ◌∷◌, [], false, List, ℕ, length, codes};
ghost use Rattle.u_program.specs.Text.{plain_kinds};
ghost use Rattle.u_explain.specs.Left.{IsLeft, Among, Behind, Numbered};
ghost use Rattle.u_explain.specs.Lines.{NameOn, IntOn, ConstantOn, CountOn, PlainOn, ParamOn, KindOn, FollowOn, ArrowOn, EndOn, BlockOn, LoopOn, StatementOn, RegionOn, follows_back};
ghost use Rattle.u_program.specs.declared.program.Version.TheVariants as versions;
ghost use Rattle.u_explain.specs.declared.fronts.Follows.TheVariants as variants;

use crate::lists::{after_number, arrow_left, room_of, shorter};
use u_base::{after, after_all, signed_at};
use u_name::front_block;
use u_program::{Kind, Version, has_otherwise, kind_word, plain_kinds};

/// What follows a number.
#[derive(Clone, Copy)]
pub enum Follows {
    /// The end of the line: the number is the region that holds a loop.
    End,
    /// An arrow and a list, in a text of that version: the number is the loop of an `enter`, or the
    /// place of a `param`.
    List(Version),
    /// An arrow, and the end of the line: the number is the `back` of an `apply` of version 1.
    Arrow(Version),
    /// A number of arguments, and an arrow: the number is the `back` of an `apply` of version 2.
    Count,
}

/// What follows the `back` of an `apply`.
fn follows_back(version: Version) -> Follows
    ensures { result ≡ follows_back version }
{
    match version {
        Version::One => Follows::Arrow(Version::One),
        Version::Two => Follows::Count,
    }
}

/// What is left where the name of a block stands, and an arrow and a list behind it.
fn procedure_left(bytes: &[u8], version: Version) -> &[u8]
    ensures { IsLeft (NameOn (ArrowOn version false 16)) bytes.now result.now }
{
    match front_block(bytes) {
        Ok((_, rest)) => arrow_left(rest, version, false, 16),
        Err(rest) => rest,
    }
}

/// What is left where a number of 64 bits stands, and an arrow and a list behind it.
fn int_left(bytes: &[u8], version: Version) -> &[u8]
    ensures { IsLeft (IntOn (ArrowOn version false 16)) bytes.now result.now }
{
    match signed_at(bytes) {
        Ok((_, rest)) => arrow_left(rest, version, false, 16),
        Err(rest) => rest,
    }
}

/// What is left where that word stands, and an arrow and one list or two behind it.
fn word_left<'a>(
    bytes: &'a [u8],
    version: Version,
    word: &[u8],
    slashed: bool,
    room: u32,
) -> &'a [u8]
    ensures { IsLeft (Behind word.now (ArrowOn version slashed room)) bytes.now result.now }
{
    match after_all(bytes, word) {
        Ok(rest) => arrow_left(rest, version, slashed, room),
        Err(rest) => rest,
    }
}

/// What is left where `@` and the name of a block stand, and an arrow and a list behind them.
fn at_left(bytes: &[u8], version: Version) -> &[u8]
    ensures { IsLeft (Behind (codes "@") (NameOn (ArrowOn version false 16)))
        bytes.now result.now }
{
    match after_all(bytes, b"@") {
        Ok(rest) => procedure_left(rest, version),
        Err(rest) => rest,
    }
}

/// What is left where a constant stands, and an arrow and a list behind it.
fn constant_left(bytes: &[u8], version: Version) -> &[u8]
    ensures { IsLeft (ConstantOn version) bytes.now result.now }
{
    let on_true = word_left(bytes, version, b"true", false, 16);
    let on_false = word_left(bytes, version, b"false", false, 16);
    let other = shorter(at_left(bytes, version), int_left(bytes, version));
    let others = shorter(on_false, other);
    shorter(on_true, others)
}

/// What is left where that number of arguments stands, and an arrow without a list behind it.
fn count_left(bytes: &[u8], number: u32) -> &[u8]
    ensures { IsLeft (Numbered (ArrowOn versions.Two false 0) number) bytes.now result.now }
{
    match after_number(bytes, number) {
        Ok(rest) => arrow_left(rest, Version::Two, false, 0),
        Err(rest) => rest,
    }
}

/// What is left where a number of arguments stands, from 1 to 4, and an arrow without a list.
fn counts_left(bytes: &[u8]) -> &[u8]
    ensures { IsLeft CountOn bytes.now result.now }
{
    let mut best = bytes;
    for number in 1..5 {
        best = shorter(best, count_left(bytes, number));
    }
    best
}

/// What is left where a space stands, and behind it a number of arguments and an arrow.
fn spaced_counts_left(bytes: &[u8]) -> &[u8]
    ensures { IsLeft (Behind (codes " ") CountOn) bytes.now result.now }
{
    match after_all(bytes, b" ") {
        Ok(rest) => counts_left(rest),
        Err(rest) => rest,
    }
}

/// What is left where that may follow a number.
fn follow_left(bytes: &[u8], follows: Follows) -> &[u8]
    ensures { IsLeft (FollowOn follows) bytes.now result.now }
{
    match follows {
        Follows::End => bytes,
        Follows::List(version) => arrow_left(bytes, version, false, 16),
        Follows::Arrow(version) => arrow_left(bytes, version, false, 0),
        Follows::Count => spaced_counts_left(bytes),
    }
}

/// What is left where that number stands, and behind it what follows.
fn number_left(bytes: &[u8], number: u32, follows: Follows) -> &[u8]
    ensures { IsLeft (Numbered (FollowOn follows) number) bytes.now result.now }
{
    match after_number(bytes, number) {
        Ok(rest) => follow_left(rest, follows),
        Err(rest) => rest,
    }
}

/// What is left where a number stands that is below `high` and not below `low`, and behind it what
/// follows.
fn numbers_left(bytes: &[u8], low: u32, high: u32, follows: Follows) -> &[u8]
    requires { low ≤ high }
    ensures { IsLeft (Among low high (Numbered (FollowOn follows))) bytes.now result.now }
{
    let mut best = bytes;
    for number in low..high {
        best = shorter(best, number_left(bytes, number, follows));
    }
    best
}

/// What is left where a kind without an argument stands, and its lists behind it.
fn plain_left<'a>(bytes: &'a [u8], version: Version, kinds: &[Kind]) -> &'a [u8]
    ensures { IsLeft (PlainOn version kinds.now) bytes.now result.now }
{
    match kinds.split_first() {
        None => bytes,
        Some((kind, others)) => {
            let first = word_left(
                bytes,
                version,
                kind_word(kind),
                has_otherwise(kind),
                room_of(kind),
            );
            shorter(first, plain_left(bytes, version, others))
        }
    }
}

/// What is left where a `const` stands with its constant.
fn const_left(bytes: &[u8], version: Version) -> &[u8]
    ensures { IsLeft (Behind (codes "const ") (ConstantOn version)) bytes.now result.now }
{
    match after_all(bytes, b"const ") {
        Ok(rest) => constant_left(rest, version),
        Err(rest) => rest,
    }
}

/// What is left where that word stands, and a number from 1 to below `high` with what follows.
fn numbered_left<'a>(bytes: &'a [u8], word: &[u8], high: u32, follows: Follows) -> &'a [u8]
    requires { 1 < high }
    ensures { IsLeft (Behind word.now (Among 1 high (Numbered (FollowOn follows))))
        bytes.now result.now }
{
    match after_all(bytes, word) {
        Ok(rest) => numbers_left(rest, 1, high, follows),
        Err(rest) => rest,
    }
}

/// What is left where a `param` stands with its place, from 2 to 4, and its list.
fn place_left(bytes: &[u8]) -> &[u8]
    ensures { IsLeft (ParamOn versions.Two) bytes.now result.now }
{
    match after_all(bytes, b"param ") {
        Ok(rest) => numbers_left(rest, 2, 5, Follows::List(Version::Two)),
        Err(rest) => rest,
    }
}

/// What is left where a `param` stands, which version 1 has not.
fn param_left(bytes: &[u8], version: Version) -> &[u8]
    ensures { IsLeft (ParamOn version) bytes.now result.now }
{
    match version {
        Version::One => bytes,
        Version::Two => place_left(bytes),
    }
}

/// What is left where a kind stands with what follows it in its statement's line.
fn kind_left(bytes: &[u8], version: Version) -> &[u8]
    ensures { IsLeft (KindOn version) bytes.now result.now }
{
    let plain = plain_left(bytes, version, &plain_kinds());
    let constant = const_left(bytes, version);
    let enter = numbered_left(bytes, b"enter ", 100, Follows::List(version));
    let apply = numbered_left(bytes, b"apply ", 1000, follows_back(version));
    let called = shorter(apply, param_left(bytes, version));
    let numbered = shorter(enter, called);
    let argued = shorter(constant, numbered);
    shorter(plain, argued)
}

/// What is left where a space stands, and a kind behind it.
fn spaced_kind_left(bytes: &[u8], version: Version) -> &[u8]
    ensures { IsLeft (Behind (codes " ") (KindOn version)) bytes.now result.now }
{
    match after_all(bytes, b" ") {
        Ok(rest) => kind_left(rest, version),
        Err(rest) => rest,
    }
}

/// What is left where that region stands, and a kind behind it.
fn region_left(bytes: &[u8], version: Version, region: u32) -> &[u8]
    ensures { IsLeft (Numbered (Behind (codes " ") (KindOn version)) region)
        bytes.now result.now }
{
    match after_number(bytes, region) {
        Ok(rest) => spaced_kind_left(rest, version),
        Err(rest) => rest,
    }
}

/// What is left where a region stands, from 0 to 99, and a kind behind it.
fn regions_left(bytes: &[u8], version: Version) -> &[u8]
    ensures { IsLeft (RegionOn version) bytes.now result.now }
{
    let mut best = bytes;
    for region in 0..100 {
        best = shorter(best, region_left(bytes, version, region));
    }
    best
}

/// What is left where a space stands, and behind it a region and a kind.
fn spaced_regions_left(bytes: &[u8], version: Version) -> &[u8]
    ensures { IsLeft (Behind (codes " ") (RegionOn version)) bytes.now result.now }
{
    match after_all(bytes, b" ") {
        Ok(rest) => regions_left(rest, version),
        Err(rest) => rest,
    }
}

/// What is left where a space stands, and behind it the region that holds the loop of that number.
fn spaced_holder_left(bytes: &[u8], number: u32) -> &[u8]
    requires { 1 ≤ number }
    ensures { IsLeft (Behind (codes " ") (Among 0 number (Numbered (FollowOn variants.End))))
        bytes.now result.now }
{
    match after_all(bytes, b" ") {
        Ok(rest) => numbers_left(rest, 0, number, Follows::End),
        Err(rest) => rest,
    }
}

/// What is left where a loop's number stands, and the region that holds it.
fn loop_number_left(bytes: &[u8], number: u32) -> &[u8]
    requires { 1 ≤ number }
    ensures { IsLeft (Numbered
        (Behind (codes " ") (Among 0 number (Numbered (FollowOn variants.End)))) number)
        bytes.now result.now }
{
    match after_number(bytes, number) {
        Ok(rest) => spaced_holder_left(rest, number),
        Err(rest) => rest,
    }
}

/// What is left where a block's name stands alone.
fn name_left(bytes: &[u8]) -> &[u8]
    ensures { IsLeft (NameOn EndOn) bytes.now result.now }
{
    match front_block(bytes) {
        Ok((_, rest)) => rest,
        Err(rest) => rest,
    }
}

/// What is left of a line that begins a block: `block NAME`.
pub fn block_left(line: &[u8]) -> &[u8]
    ensures { IsLeft BlockOn line.now result.now }
{
    match after_all(line, b"block ") {
        Ok(rest) => name_left(rest),
        Err(rest) => rest,
    }
}

/// What is left of the line of the loop of that number: `loop NUMBER HELD_BY`.
pub fn loop_left(line: &[u8], number: u32) -> &[u8]
    requires { 1 ≤ number }
    ensures { IsLeft (LoopOn number) line.now result.now }
{
    match after_all(line, b"loop ") {
        Ok(rest) => loop_number_left(rest, number),
        Err(rest) => rest,
    }
}

/// What is left of the line of the statement of that number: `NUMBER REGION KIND [ARGUMENT] ->
/// LIST`, in a text of the version.
pub fn statement_left(line: &[u8], version: Version, number: u32) -> &[u8]
    ensures { IsLeft (StatementOn version number) line.now result.now }
{
    match after_number(line, number) {
        Ok(rest) => spaced_regions_left(rest, version),
        Err(rest) => rest,
    }
}
