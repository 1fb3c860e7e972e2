//! What contexts are compared by: two words with the kinds of their loops and calls from the innermost
//! outwards, and then the words of these from the outermost inwards. All lie in one place, so that a
//! comparison need not go from context to context.
//!
//! A kind has two bits, the innermost the highest two. The bits of no loop or call are 0.
//!
//! A loop or a call has one to five words, which go by block, number and initiation as plain numbers do.
//! The block's name is two words, of its first eight bytes and its last eight, and the second stands only
//! where the eighth byte is not 0, for otherwise all behind it are 0. The number shares a word with an
//! initiation below 2^48 - 1. Beside a greater one it stands with 2^48 - 1, and the initiation has a word
//! of its own.
//!
//! Inside another loop or call, the first word tells how the block goes with that one's. In front of the
//! words of a lesser block it is 0, and in front of those of a greater one 2^63. The same block has no
//! words of its own: its number stands with 2^14 more, so that the word is 2^62 or more, and below 2^63.
//!
//! Two paths are compared word by word, up to the first that differs.
ghost use Rattle.std.specs.Prelude.{◌≡◌, ◌+◌, ◌≤◌, ◌++◌, ◌∷◌, IfOk, length, drop};
ghost use Rattle.std.specs.Ordering.{nat_cmp};
ghost use Rattle.std.specs.Cmp.Lexicographic.{slice_cmp};
ghost use Rattle.u_name.specs.Words.{low_part, turn_words, words_by};
ghost use Rattle.u_name.specs.Path.{kind_words, with_kind};

use crate::block_name::BlockName;
use std::alloc::{AllocError, Global};
use std::cmp::Ordering;

/// The kind of a loop's context.
pub(crate) const LOOP: u8 = 1;

/// The kind of a call's context.
pub(crate) const CALL: u8 = 2;

/// What the root is compared by, which is in no loop or call.
pub(crate) const OF_ROOT: [u64; KIND_WORDS] = [0; KIND_WORDS];

/// How many words the kinds take.
const KIND_WORDS: usize = 2;

/// How many bits of a word stand behind its first kind.
const BEHIND_KIND: u32 = 62;

/// How many values the two bits of a kind have.
const KIND_VALUES: u64 = 4;

/// How many values a byte has.
const BYTE_VALUES: u64 = 256;

/// How many bits of a word stand behind the number of a loop or a statement.
const BEHIND_NUMBER: u32 = 48;

/// The least initiation that has a word of its own.
const OWN_WORD: u64 = 0xFFFF_FFFF_FFFF;

/// By how much the number of a loop or a call is more where its block is that of the outer one.
const SAME_BLOCK: u16 = 0x4000;

/// The word in front of a block that is less than that of the outer loop or call.
const LESSER_BLOCK: u64 = 0;

/// The word in front of a block that is greater than that of the outer loop or call.
const GREATER_BLOCK: u64 = 0x8000_0000_0000_0000;

/// What a context that is compared by the numbers `outer` adds in front of the words of a loop or a call
/// in it, with room for so many words.
pub(crate) fn path_around(
    alloc: Global,
    kind: u8,
    outer: &[u64],
    words: usize,
) -> Result<Vec<u64>, AllocError>
    requires kind_in { kind ≤ 2 }
    requires has_kinds { 2 ≤ length outer.now }
    requires few { words ≤ 5 }
    ensures { IfOk result (λ v. v.items ≡ with_kind kind outer.now) }
{
    let mut all = Vec::new(alloc);
    all.reserve_exact(outer.len() + words)?;
    push_kinds(&mut all, kind, outer)?;
    all.extend_from_slice(&outer[KIND_WORDS..])?;
    Ok(all)
}

/// How many words a loop or a call has whose block goes so with that of the outer one, if there is one.
pub(crate) fn words_many(inside: Option<Ordering>, block: &BlockName, initiation: u64) -> usize
    ensures value { result ≡ length (words_by inside block.now 0 initiation) }
    ensures few { result ≤ 5 }
{
    let (high, _) = block.words();
    let blocks = if high % BYTE_VALUES == 0 { 1 } else { 2 };
    let turn = if initiation < OWN_WORD { 1 } else { 2 };
    match inside {
        None => blocks + turn,
        Some(Ordering::Equal) => turn,
        Some(_) => 1 + blocks + turn,
    }
}

/// Appends the words of a loop or a call whose block goes so with that of the outer one, if there is one.
pub(crate) fn push_words(
    all: &mut Vec<u64>,
    inside: Option<Ordering>,
    block: &BlockName,
    number: u16,
    initiation: u64,
) -> Result<(), AllocError>
    requires { number ≤ 999 }
    ensures { IfOk result
        (λ _. all.new.items ≡ all.old.items ++ words_by inside block.now number initiation) }
{
    match inside {
        None => {}
        Some(Ordering::Less) => all.push(LESSER_BLOCK)?,
        Some(Ordering::Equal) => return push_turn(all, SAME_BLOCK + number, initiation),
        Some(Ordering::Greater) => all.push(GREATER_BLOCK)?,
    }
    let (high, low) = block.words();
    push_block(all, high, low)?;
    push_turn(all, number, initiation)
}

/// Appends the words of the kinds of `outer` with one more in front, which is the innermost.
fn push_kinds(all: &mut Vec<u64>, kind: u8, outer: &[u64]) -> Result<(), AllocError>
    requires kind_in { kind ≤ 2 }
    requires has_kinds { 2 ≤ length outer.now }
    ensures { IfOk result
        (λ _. all.new.items ≡ all.old.items ++ kind_words kind outer.now) }
{
    let (high, low) = (outer[0], outer[1]);
    all.push((u64::from(kind) << BEHIND_KIND) + high / KIND_VALUES)?;
    all.push(((high % KIND_VALUES) << BEHIND_KIND) + low / KIND_VALUES)?;
    Ok(())
}

/// Appends the words of a block's name.
fn push_block(all: &mut Vec<u64>, high: u64, low: u64) -> Result<(), AllocError>
    ensures { IfOk result
        (λ _. all.new.items ≡ all.old.items ++ (high ∷ low_part high low)) }
{
    all.push(high)?;
    if high % BYTE_VALUES != 0 {
        all.push(low)?;
    }
    Ok(())
}

/// Appends the words of a number and an initiation.
fn push_turn(all: &mut Vec<u64>, number: u16, initiation: u64) -> Result<(), AllocError>
    ensures { IfOk result
        (λ _. all.new.items ≡ all.old.items ++ turn_words number initiation) }
{
    let front = u64::from(number) << BEHIND_NUMBER;
    all.push(front + initiation.min(OWN_WORD))?;
    if initiation >= OWN_WORD {
        all.push(initiation)?;
    }
    Ok(())
}

/// The order of two paths: that of the first words that differ, and where there are none, that of the
/// lengths. Words are looked at four at a time, and the last ones singly.
pub(crate) fn compare_words(left: &[u64], right: &[u64]) -> Ordering
    ensures { result ≡ slice_cmp nat_cmp left.now right.now }
{
    let both = left.len().min(right.len());
    let mut place = 0;
    while place + 3 < both {
        if left[place] != right[place] {
            return left[place].cmp(&right[place]);
        }
        if left[place + 1] != right[place + 1] {
            return left[place + 1].cmp(&right[place + 1]);
        }
        if left[place + 2] != right[place + 2] {
            return left[place + 2].cmp(&right[place + 2]);
        }
        if left[place + 3] != right[place + 3] {
            return left[place + 3].cmp(&right[place + 3]);
        }
        place += 4;
    }
    compare_from(left, right, place)
}

/// The order of what stands in two paths from that place on.
fn compare_from(left: &[u64], right: &[u64], from: usize) -> Ordering
    requires in_left { from ≤ length left.now }
    requires in_right { from ≤ length right.now }
    ensures { result ≡ slice_cmp nat_cmp (drop from left.now) (drop from right.now) }
{
    let both = left.len().min(right.len());
    let mut place = from;
    while place < both {
        if left[place] != right[place] {
            return left[place].cmp(&right[place]);
        }
        place += 1;
    }
    left.len().cmp(&right.len())
}
