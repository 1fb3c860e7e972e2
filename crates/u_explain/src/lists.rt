//! What is left of a list of destinations from the byte on that no list has there.
ghost use Rattle.std.specs.Prelude.{◌≡◌, ◌≤◌, ◌<◌, ◌⊎◌, ◌++◌, ◌∷◌, ◌*◌, ◌+◌, Ok, Err, MatchResult, length, codes};
ghost use Rattle.std.specs.Fmt.{decimal};
ghost use Rattle.u_base.specs.Fixed.{fixed};
ghost use Rattle.u_program.specs.Limits.{greatest_port};
ghost use Rattle.u_explain.specs.Left.{IsLeft};
ghost use Rattle.u_explain.specs.Lines.{ListEnd, DestinationOn, ListOn, ArrowOn, port_text, room_of};

use itoa::Buffer;
use u_base::after_all;
use u_program::{Kind, Version};

/// How many destinations a list of the kind has at most: 16, or 0 where the kind lists none.
pub fn room_of(kind: &Kind) -> u32
    ensures { result ≡ room_of kind.now }
{
    match kind {
        Kind::Apply(_, _) | Kind::Store | Kind::End => 0,
        _ => 16,
    }
}

/// The greatest port that a destination of a program of the version names.
pub fn greatest_port(version: Version) -> u32
    ensures { result ≡ greatest_port version }
{
    match version {
        Version::One => 3,
        Version::Two => 5,
    }
}

/// The one that is not longer than the other. Of two that are equally long either may be returned.
pub fn shorter<'a>(left: &'a [u8], right: &'a [u8]) -> &'a [u8]
    ensures one { (result.now ≡ left.now) ⊎ (result.now ≡ right.now) }
    ensures first { length result.now ≤ length left.now }
    ensures second { length result.now ≤ length right.now }
{
    if left.len() <= right.len() {
        left
    } else {
        right
    }
}

/// What stands behind the number. A refusal has what begins with the byte that differs.
pub fn after_number<'a>(bytes: &'a [u8], number: u32) -> Result<&'a [u8], &'a [u8]>
    ensures { MatchResult result
        (λ rest. fixed (decimal number) bytes.now ≡ Ok (tt, rest.now))
        (λ rest. fixed (decimal number) bytes.now ≡ Err rest.now) }
{
    let mut digits = Buffer::new();
    after_all(bytes, digits.format(number).as_bytes())
}

/// What stands behind a dot and the port.
#[tactic(auto, using(crate::proofs::LeftLaws::fixed_more, crate::proofs::LeftLaws::fixed_less))]
fn after_dot(bytes: &[u8], port: u32) -> Result<&[u8], &[u8]>
    ensures { MatchResult result
        (λ rest. fixed (46 ∷ decimal port) bytes.now ≡ Ok (tt, rest.now))
        (λ rest. fixed (46 ∷ decimal port) bytes.now ≡ Err rest.now) }
{
    match after_all(bytes, b".") {
        Ok(rest) => after_number(rest, port),
        Err(rest) => Err(rest),
    }
}

/// What stands behind the statement's number, a dot and the port.
#[tactic(auto, using(crate::proofs::LeftLaws::fixed_more, crate::proofs::LeftLaws::fixed_less))]
fn after_port(bytes: &[u8], statement: u32, port: u32) -> Result<&[u8], &[u8]>
    ensures { MatchResult result
        (λ rest. fixed (port_text statement port) bytes.now ≡ Ok (tt, rest.now))
        (λ rest. fixed (port_text statement port) bytes.now ≡ Err rest.now) }
{
    match after_number(bytes, statement) {
        Ok(rest) => after_dot(rest, port),
        Err(rest) => Err(rest),
    }
}

/// What stands behind a space, the statement's number, a dot and the port.
#[tactic(auto, using(crate::proofs::LeftLaws::fixed_more, crate::proofs::LeftLaws::fixed_less))]
fn after_destination(bytes: &[u8], statement: u32, port: u32) -> Result<&[u8], &[u8]>
    ensures { MatchResult result
        (λ rest. fixed (32 ∷ port_text statement port) bytes.now ≡ Ok (tt, rest.now))
        (λ rest. fixed (32 ∷ port_text statement port) bytes.now ≡ Err rest.now) }
{
    match after_all(bytes, b" ") {
        Ok(rest) => after_port(rest, statement, port),
        Err(rest) => Err(rest),
    }
}

/// What is left where a destination of that rank stands first, which is 8 times the statement's
/// number and the port, and behind it so many more at most, less this one.
#[cycle(lists)]
fn destination_left(bytes: &[u8], version: Version, slashed: bool, rank: u32, room: u32) -> &[u8]
    requires there { 1 ≤ room }
    requires small { rank < 8000 }
    ensures { IsLeft (DestinationOn version slashed room rank) bytes.now result.now }
{
    let statement = rank / 8;
    let port = rank % 8;
    if statement == 0 || port == 0 || port > greatest_port(version) {
        return bytes;
    }
    match after_destination(bytes, statement, port) {
        Ok(rest) => list_left(rest, version, slashed, rank, room - 1),
        Err(rest) => rest,
    }
}

/// What is left where the list has ended: of a line, or at the slash before the list for false.
#[cycle(lists)]
fn end_left(bytes: &[u8], version: Version, slashed: bool) -> &[u8]
    ensures { IsLeft (ListEnd version slashed) bytes.now result.now }
{
    if !slashed {
        return bytes;
    }
    match after_all(bytes, b" /") {
        Ok(rest) => list_left(rest, version, false, 0, 16),
        Err(rest) => rest,
    }
}

/// What is left where so many destinations may stand at most, which ascend from above that rank.
#[cycle(lists)]
fn list_left(bytes: &[u8], version: Version, slashed: bool, below: u32, room: u32) -> &[u8]
    requires { below < 8000 }
    ensures { IsLeft (ListOn version slashed below room) bytes.now result.now }
{
    let mut best = end_left(bytes, version, slashed);
    if room == 0 {
        return best;
    }
    for rank in below + 1..8000 {
        best = shorter(best, destination_left(bytes, version, slashed, rank, room));
    }
    best
}

/// What is left where an arrow stands, and behind it one list or two.
pub fn arrow_left(bytes: &[u8], version: Version, slashed: bool, room: u32) -> &[u8]
    ensures { IsLeft (ArrowOn version slashed room) bytes.now result.now }
{
    match after_all(bytes, b" ->") {
        Ok(rest) => list_left(rest, version, slashed, 0, room),
        Err(rest) => rest,
    }
}
