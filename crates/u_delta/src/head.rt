//! The first line of a message, read.
ghost use Rattle.std.specs.Prelude.{◌≡◌, Some, None, MatchResult};
ghost use Rattle.u_delta.specs.HeadReading as reader;
ghost use Rattle.u_delta.specs.HeadReading.{replica_word, peers_at, long_at, ask_at, part_at, delta_at, head_at};
ghost use Rattle.u_base.specs.Pieces.{words};

use crate::message::Ask;
use u_base::{BadWord, Words, long_word, number_word, number0_word};

/// What the first line of a delta says.
#[derive(Drop)]
pub(crate) struct Opening {
    pub(crate) sender: u8,
    pub(crate) receiver: u8,
    pub(crate) life: u64,
    pub(crate) start: u64,
    pub(crate) count: u32,
}

/// What the first line of a message says.
#[derive(Drop)]
pub(crate) enum Head {
    Ask(Ask),
    Delta(Opening),
}

/// The number of a replica.
#[tactic(auto, unfolding(crate::specs::HeadReading::replica_word))]
fn replica(word: &[u8]) -> Result<u8, BadWord>
    ensures { MatchResult result
        (λ n. replica_word word.now ≡ Some n)
        (λ _. replica_word word.now ≡ None) }
{
    let number = number_word(word, 9)?;
    if number > 8 {
        return Err(BadWord);
    }
    Ok(number as u8)
}

/// The numbers of two replicas that differ.
#[tactic(auto, unfolding(crate::specs::HeadReading::peers_at))]
fn peers(words: &mut Words<'_>) -> Result<(u8, u8), BadWord>
    ensures { MatchResult result
        (λ p. peers_at words.old ≡ Some ((p.0, p.1), words.new))
        (λ _. peers_at words.old ≡ None) }
{
    let first = replica(words.word()?)?;
    let second = replica(words.word()?)?;
    if first == second {
        return Err(BadWord);
    }
    Ok((first, second))
}

/// A number of 64 bits.
#[tactic(auto, unfolding(crate::specs::HeadReading::long_at))]
fn long(words: &mut Words<'_>) -> Result<u64, BadWord>
    ensures { MatchResult result
        (λ n. long_at words.old ≡ Some (n, words.new))
        (λ _. long_at words.old ≡ None) }
{
    long_word(words.word()?, u64::MAX)
}

/// No word is left.
fn nothing(words: &mut Words<'_>) -> Result<(), BadWord>
    ensures { MatchResult result
        (λ _. reader.is_empty words.old)
        (λ _. reader.is_not_empty words.old) }
{
    match words.next() {
        None => Ok(()),
        Some(_) => Err(BadWord),
    }
}

/// What stands behind `u-ask 1`.
#[tactic(auto, unfolding(crate::specs::HeadReading::ask_at))]
fn ask(words: &mut Words<'_>) -> Result<Head, BadWord>
    ensures { MatchResult result
        (λ h. ask_at words.old ≡ Some h)
        (λ _. ask_at words.old ≡ None) }
{
    let (asker, asked) = peers(words)?;
    let life = long(words)?;
    let count = long(words)?;
    nothing(words)?;
    Ok(Head::Ask(Ask {
        asker,
        asked,
        life,
        count,
    }))
}

/// What stands behind the numbers of the replicas in the first line of a delta.
fn part(sender: u8, receiver: u8, words: &mut Words<'_>) -> Result<Head, BadWord>
    ensures { MatchResult result
        (λ h. part_at (sender, receiver) words.old ≡ Some h)
        (λ _. part_at (sender, receiver) words.old ≡ None) }
{
    let life = long(words)?;
    if life == 0 {
        return Err(BadWord);
    }
    let start = long(words)?;
    let count = number0_word(words.word()?, 4096)?;
    nothing(words)?;
    Ok(Head::Delta(Opening {
        sender,
        receiver,
        life,
        start,
        count,
    }))
}

/// What stands behind `u-delta 1`.
#[tactic(auto, unfolding(crate::specs::HeadReading::delta_at))]
fn delta(words: &mut Words<'_>) -> Result<Head, BadWord>
    ensures { MatchResult result
        (λ h. delta_at words.old ≡ Some h)
        (λ _. delta_at words.old ≡ None) }
{
    let (sender, receiver) = peers(words)?;
    part(sender, receiver, words)
}

/// What the first line of a message says.
#[tactic(auto, unfolding(crate::specs::HeadReading::head_at))]
pub(crate) fn read_head(line: &[u8]) -> Result<Head, BadWord>
    ensures { MatchResult result
        (λ h. head_at (words line.now) ≡ Some h)
        (λ _. head_at (words line.now) ≡ None) }
{
    let mut words = Words::new(line);
    let sort = words.word()?;
    if words.word()? != b"1".as_slice() {
        return Err(BadWord);
    }
    if sort == b"u-ask".as_slice() {
        return ask(&mut words);
    }
    if sort == b"u-delta".as_slice() {
        return delta(&mut words);
    }
    Err(BadWord)
}
