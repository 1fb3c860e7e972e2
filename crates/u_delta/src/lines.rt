//! The first line of some bytes.
ghost use Rattle.std.specs.Prelude.{◌≡◌, ◌≤◌, ◌<◌, [], MatchOption, drop, length};
ghost use Rattle.u_base.specs.Pieces.{pieces, IsCutInto};
ghost use Rattle.u_delta.specs.Front.{IsAhead};

use memchr::memchr;

/// What stands at the front of some bytes.
#[derive(Drop)]
pub enum Ahead<'a> {
    /// A line that ends with a newline, and what stands behind the newline.
    Line(&'a [u8], &'a [u8]),
    /// Bytes without a newline, up to the end.
    Rest,
    /// A line of more than 32,768 bytes, whether it ends with a newline or not.
    TooLong,
}

/// The bytes from the offset on.
fn behind(bytes: &[u8], offset: usize) -> &[u8]
    requires { offset ≤ length bytes.now }
    ensures { result.now ≡ drop offset bytes.now }
{
    &bytes[offset..]
}

/// The bytes before the first newline, and those behind it.
#[tactic(auto, using(crate::proofs::NewlineLaws::cut_at_first, crate::proofs::NewlineLaws::cut_at_none, crate::proofs::NewlineLaws::within))]
fn first_line(bytes: &[u8]) -> Option<(&[u8], &[u8])>
    ensures cut { MatchOption result
        (pieces 10 bytes.now ≡ ([], bytes.now))
        (λ p. IsCutInto 10 bytes.now p.0.now p.1.now) }
    ensures shorter { MatchOption result (0 ≤ 0) (λ p. length p.1.now < length bytes.now) }
{
    match memchr(b'\n', bytes) {
        Some(place) => Some((&bytes[..place], behind(bytes, place + 1))),
        None => None,
    }
}

/// What stands at the front of the bytes.
#[tactic(auto, using(crate::proofs::LineLaws::long_line, crate::proofs::LineLaws::long_rest))]
pub fn look_ahead(bytes: &[u8]) -> Ahead<'_>
    ensures { IsAhead bytes.now result }
{
    match first_line(bytes) {
        Some((line, _)) if line.len() > 32_768 => Ahead::TooLong,
        Some((line, rest)) => Ahead::Line(line, rest),
        None if bytes.len() > 32_768 => Ahead::TooLong,
        None => Ahead::Rest,
    }
}
