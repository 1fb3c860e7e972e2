//! Fixed bytes and one number at the front of some bytes.
ghost use Rattle.std.specs.Prelude.{◌≡◌, ◌≤◌, ◌<◌, ◌-◌, ◌^◌, Ok, Err, MatchResult};
ghost use Rattle.u_base.specs.Fixed.{fixed};
ghost use Rattle.u_base.specs.FromZero.{number0};
ghost use Rattle.u_base.specs.Number.{number};
ghost use Rattle.u_base.specs.Signed.{below_zero, from_zero, signed};
ghost use Rattle.u_base.specs.Parts.{after_byte};

/// The bytes behind the byte `wanted`.
pub fn after<'a>(bytes: &'a [u8], wanted: u8) -> Result<&'a [u8], &'a [u8]>
    ensures { MatchResult result
        (λ rest. after_byte wanted bytes.now ≡ Ok (tt, rest.now))
        (λ rest. after_byte wanted bytes.now ≡ Err rest.now) }
{
    match bytes.split_first() {
        Some((first, rest)) if *first == wanted => Ok(rest),
        _ => Err(bytes),
    }
}

/// The bytes behind these ones. A refusal has what begins with the byte that differs.
pub fn after_all<'a>(bytes: &'a [u8], wanted: &[u8]) -> Result<&'a [u8], &'a [u8]>
    ensures { MatchResult result
        (λ rest. fixed wanted.now bytes.now ≡ Ok (tt, rest.now))
        (λ rest. fixed wanted.now bytes.now ≡ Err rest.now) }
{
    match wanted.split_first() {
        None => Ok(bytes),
        Some((first, others)) => after_all(after(bytes, *first)?, others),
    }
}

/// The longest number from 1 to `max` at the front.
///
/// Promise longest-front: the longest number in the range that stands at the front is read, or what is left
/// begins with the byte with which none goes on.
#[tactic(auto, using(crate::proofs::NumberLaws::number_bound))]
pub fn number_at(bytes: &[u8], max: u32) -> Result<(u32, &[u8]), &[u8]>
    requires { 9 ≤ max }
    ensures { MatchResult result
        (λ found. number max bytes.now ≡ Ok (found.0, found.1.now))
        (λ rest. number max bytes.now ≡ Err rest.now) }
{
    match long_number_at(bytes, u64::from(max)) {
        Ok((n, rest)) => Ok((n as u32, rest)),
        Err(rest) => Err(rest),
    }
}

/// The longest number from 1 to `max` at the front, in 64 bits.
pub fn long_number_at(bytes: &[u8], max: u64) -> Result<(u64, &[u8]), &[u8]>
    requires { 9 ≤ max }
    ensures { MatchResult result
        (λ found. number max bytes.now ≡ Ok (found.0, found.1.now))
        (λ rest. number max bytes.now ≡ Err rest.now) }
{
    let Some((first, others)) = bytes.split_first() else {
        return Err(bytes);
    };
    if !(b'1' <= *first && *first <= b'9') {
        return Err(bytes);
    }
    let mut n = u64::from(*first - b'0');
    let mut rest = others;
    while let Some((digit, others)) = rest.split_first() {
        if !(b'0' <= *digit && *digit <= b'9') {
            break;
        }
        let last = u64::from(*digit - b'0');
        if n > (max - last) / 10 {
            break;
        }
        n = 10 * n + last;
        rest = others;
    }
    Ok((n, rest))
}

/// The longest number from 0 to `max` at the front.
#[tactic(auto, using(crate::proofs::FromZeroLaws::number0_at_bound))]
pub fn number0_at(bytes: &[u8], max: u32) -> Result<(u32, &[u8]), &[u8]>
    requires { 9 ≤ max }
    ensures { MatchResult result
        (λ found. number0 max bytes.now ≡ Ok (found.0, found.1.now))
        (λ rest. number0 max bytes.now ≡ Err rest.now) }
{
    match long_number0_at(bytes, u64::from(max)) {
        Ok((n, rest)) => Ok((n as u32, rest)),
        Err(rest) => Err(rest),
    }
}

/// The longest number from 0 to `max` at the front, in 64 bits.
pub fn long_number0_at(bytes: &[u8], max: u64) -> Result<(u64, &[u8]), &[u8]>
    requires { 9 ≤ max }
    ensures { MatchResult result
        (λ found. number0 max bytes.now ≡ Ok (found.0, found.1.now))
        (λ rest. number0 max bytes.now ≡ Err rest.now) }
{
    match bytes.split_first() {
        Some((b'0', rest)) => Ok((0, rest)),
        _ => long_number_at(bytes, max),
    }
}

/// The longest signed number of 64 bits at the front.
pub fn signed_at(bytes: &[u8]) -> Result<(i64, &[u8]), &[u8]>
    ensures { MatchResult result
        (λ found. signed bytes.now ≡ Ok (found.0, found.1.now))
        (λ rest. signed bytes.now ≡ Err rest.now) }
{
    match bytes.split_first() {
        Some((b'-', rest)) => below_zero_at(rest),
        _ => from_zero_at(bytes),
    }
}

/// The number below 0 whose digits without the minus stand at the front.
#[tactic(auto, using(crate::proofs::NumberLaws::number_bound, crate::proofs::NumberLaws::number_least))]
fn below_zero_at(digits: &[u8]) -> Result<(i64, &[u8]), &[u8]>
    ensures { MatchResult result
        (λ found. below_zero digits.now ≡ Ok (found.0, found.1.now))
        (λ rest. below_zero digits.now ≡ Err rest.now) }
{
    match long_number_at(digits, 1 << 63) {
        Ok((n, rest)) => Ok((-((n - 1) as i64) - 1, rest)),
        Err(rest) => Err(rest),
    }
}

/// The number from 0 on at the front.
#[tactic(auto, using(crate::proofs::FromZeroLaws::number0_at_bound, std::proofs::lemmas::Int::to_z_pos))]
fn from_zero_at(bytes: &[u8]) -> Result<(i64, &[u8]), &[u8]>
    ensures { MatchResult result
        (λ found. from_zero bytes.now ≡ Ok (found.0, found.1.now))
        (λ rest. from_zero bytes.now ≡ Err rest.now) }
{
    match long_number0_at(bytes, i64::MAX as u64) {
        Ok((n, rest)) => Ok((n as i64, rest)),
        Err(rest) => Err(rest),
    }
}
