//! Numbers written as bytes. A writer that is refused memory leaves the bytes as they were.
ghost use Rattle.std.specs.Prelude.{◌≡◌, ◌++◌, ◌∷◌, OnOk, OnErr, take};
ghost use Rattle.std.specs.Fmt.{decimal, signed_decimal};
ghost use Rattle.u_base.specs.Appending.{Extends};

use itoa::Buffer;
use std::alloc::AllocError;

/// Returns what came of writing. Where memory was refused, cuts `out` to its first `len` bytes.
///
/// Promise texts-are-cut-back: after an error `out` has its first `len` bytes alone, so a writer that ends
/// with this call leaves nothing half written.
pub fn cut_back(
    out: &mut Vec<u8>,
    len: usize,
    written: Result<(), AllocError>,
) -> Result<(), AllocError>
    ensures value { result ≡ written }
    ensures ok { OnOk written (out.new.items ≡ out.old.items) }
    ensures err { OnErr written (out.new.items ≡ take len out.old.items) }
{
    if written.is_err() {
        out.truncate(len);
    }
    written
}

/// Appends a number without leading zeros.
///
/// Promise numbers-are-written: exactly the decimal text of the number is appended.
///
/// # Errors
/// `AllocError` where there is no memory. Then `out` is as it was.
pub fn push_number(out: &mut Vec<u8>, n: u32) -> Result<(), AllocError>
    ensures ok { OnOk result (out.new.items ≡ out.old.items ++ decimal n) }
    ensures err { OnErr result (out.new.items ≡ out.old.items) }
{
    push_long(out, u64::from(n))
}

/// Appends a number of 64 bits without leading zeros.
///
/// # Errors
/// `AllocError` where there is no memory. Then `out` is as it was.
pub fn push_long(out: &mut Vec<u8>, n: u64) -> Result<(), AllocError>
    ensures ok { OnOk result (out.new.items ≡ out.old.items ++ decimal n) }
    ensures err { OnErr result (out.new.items ≡ out.old.items) }
{
    let mut digits = Buffer::new();
    out.extend_from_slice(digits.format(n).as_bytes())
}

/// Appends a signed number, a minus before its digits where it is below 0.
///
/// # Errors
/// `AllocError` where there is no memory. Then `out` is as it was.
pub fn push_signed(out: &mut Vec<u8>, n: i64) -> Result<(), AllocError>
    ensures ok { OnOk result (out.new.items ≡ out.old.items ++ signed_decimal n) }
    ensures err { OnErr result (out.new.items ≡ out.old.items) }
{
    let mut text = Buffer::new();
    out.extend_from_slice(text.format(n).as_bytes())
}

/// Appends a byte and a number. On an error the byte may stand there.
#[tactic(auto, using(crate::proofs::AppendingLaws::extends_same, crate::proofs::AppendingLaws::extends_by))]
fn byte_and_number(out: &mut Vec<u8>, byte: u8, n: u64) -> Result<(), AllocError>
    ensures ok { OnOk result (out.new.items ≡ out.old.items ++ (byte ∷ decimal n)) }
    ensures err { OnErr result (Extends out.old.items out.new.items) }
{
    out.push(byte)?;
    push_long(out, n)
}

/// Appends a byte and a number.
///
/// # Errors
/// `AllocError` where there is no memory. Then `out` is as it was.
pub fn push_behind(out: &mut Vec<u8>, byte: u8, n: u32) -> Result<(), AllocError>
    ensures ok { OnOk result (out.new.items ≡ out.old.items ++ (byte ∷ decimal n)) }
    ensures err { OnErr result (out.new.items ≡ out.old.items) }
{
    push_long_behind(out, byte, u64::from(n))
}

/// Appends a byte and a number of 64 bits.
///
/// # Errors
/// `AllocError` where there is no memory. Then `out` is as it was.
#[tactic(auto, using(crate::proofs::AppendingLaws::extends_cut))]
pub fn push_long_behind(out: &mut Vec<u8>, byte: u8, n: u64) -> Result<(), AllocError>
    ensures ok { OnOk result (out.new.items ≡ out.old.items ++ (byte ∷ decimal n)) }
    ensures err { OnErr result (out.new.items ≡ out.old.items) }
{
    let len = out.len();
    let written = byte_and_number(out, byte, n);
    cut_back(out, len, written)
}

/// Appends a space and a word. On an error the space may stand there.
#[tactic(auto, using(crate::proofs::AppendingLaws::extends_same, crate::proofs::AppendingLaws::extends_by))]
fn space_and_word(out: &mut Vec<u8>, word: &[u8]) -> Result<(), AllocError>
    ensures ok { OnOk result (out.new.items ≡ out.old.items ++ (32 ∷ word.now)) }
    ensures err { OnErr result (Extends out.old.items out.new.items) }
{
    out.push(b' ')?;
    out.extend_from_slice(word)
}

/// Appends a space and a word.
///
/// # Errors
/// `AllocError` where there is no memory. Then `out` is as it was.
#[tactic(auto, using(crate::proofs::AppendingLaws::extends_cut))]
pub fn push_spaced(out: &mut Vec<u8>, word: &[u8]) -> Result<(), AllocError>
    ensures ok { OnOk result (out.new.items ≡ out.old.items ++ (32 ∷ word.now)) }
    ensures err { OnErr result (out.new.items ≡ out.old.items) }
{
    let len = out.len();
    let written = space_and_word(out, word);
    cut_back(out, len, written)
}
