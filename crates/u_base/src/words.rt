//! The words of a line.
//!
//! A word that is not of its form has no error text: whoever reads the word says which line it makes wrong.
ghost use Rattle.std.specs.Prelude.{◌≡◌, ◌≤◌, ◌∷◌, [], Some, None, MatchOption, MatchResult};
ghost use Rattle.u_base.specs.Pieces.{words};
ghost use Rattle.u_base.specs.WholeWords.{negative_word, number_word, number0_word, signed_word};

use crate::cutting::cut;
use crate::numbers::{long_number_at, number_at};
use std::marker::Model;

/// A word is missing, or not of the form that is asked for.
#[derive(Debug, Drop)]
pub struct BadWord;

/// The words of a line that are left to read. Words stand between single spaces,
/// so two spaces have an empty word between them.
#[derive(Drop)]
pub struct Words<'a> {
    rest: Option<&'a [u8]>,
}

impl<'a> Model for Words<'a> {
    ghost use Rattle.std.specs.Prelude.{List, ℕ};
    ghost use Rattle.u_base.specs.WholeWords.{left_words};

    ghost Value = { List (List ℕ) };

    ghost view = { λ w. left_words w.rest };
}

impl<'a> Words<'a> {
    /// All words of a line.
    pub fn new(line: &'a [u8]) -> Words<'a>
        ensures { result ≡ words line.now }
    {
        Words { rest: Some(line) }
    }

    /// The next word, if there is one.
    #[tactic(auto, unfolding(crate::specs::Pieces::words))]
    pub fn next(&mut self) -> Option<&'a [u8]>
        ensures { MatchOption result
            ((self.old ≡ []) × (self.new ≡ []))
            (λ w. self.old ≡ w.now ∷ self.new) }
    {
        let rest = self.rest?;
        match cut(rest, b' ') {
            Some((word, others)) => {
                self.rest = Some(others);
                Some(word)
            }
            None => {
                self.rest = None;
                Some(rest)
            }
        }
    }

    /// The next word, which has to be there.
    pub fn word(&mut self) -> Result<&'a [u8], BadWord>
        ensures { MatchResult result
            (λ w. self.old ≡ w.now ∷ self.new)
            (λ _. (self.old ≡ []) × (self.new ≡ [])) }
    {
        match self.next() {
            Some(word) => Ok(word),
            None => Err(BadWord),
        }
    }
}

/// The number from 1 to `max` that the whole word is.
///
/// Promise words-as-numbers: a word is read as a number exactly if it is the decimal text of one from 1 to
/// `max`, without leading zeros.
#[tactic(auto, unfolding(crate::specs::WholeWords::number_word))]
pub fn number_word(word: &[u8], max: u32) -> Result<u32, BadWord>
    requires { 9 ≤ max }
    ensures { MatchResult result
        (λ n. number_word max word.now ≡ Some n)
        (λ _. number_word max word.now ≡ None) }
{
    match number_at(word, max) {
        Ok((n, [])) => Ok(n),
        _ => Err(BadWord),
    }
}

/// The number from 0 to `max` that the whole word is.
#[tactic(auto, unfolding(crate::specs::WholeWords::number0_word))]
pub fn number0_word(word: &[u8], max: u32) -> Result<u32, BadWord>
    requires { 9 ≤ max }
    ensures { MatchResult result
        (λ n. number0_word max word.now ≡ Some n)
        (λ _. number0_word max word.now ≡ None) }
{
    if word == b"0".as_slice() {
        return Ok(0);
    }
    number_word(word, max)
}

/// The number from 0 to `max` that the whole word is, in 64 bits.
#[tactic(auto, unfolding(crate::specs::WholeWords::number0_word, crate::specs::WholeWords::number_word))]
pub fn long_word(word: &[u8], max: u64) -> Result<u64, BadWord>
    requires { 9 ≤ max }
    ensures { MatchResult result
        (λ n. number0_word max word.now ≡ Some n)
        (λ _. number0_word max word.now ≡ None) }
{
    if word == b"0".as_slice() {
        return Ok(0);
    }
    match long_number_at(word, max) {
        Ok((n, [])) => Ok(n),
        _ => Err(BadWord),
    }
}

/// The number behind a minus that the whole word is, at least -2^63.
#[tactic(auto, unfolding(crate::specs::WholeWords::number_word), using(crate::proofs::NumberLaws::number_bound, crate::proofs::NumberLaws::number_least))]
pub fn negative_word(digits: &[u8]) -> Result<i64, BadWord>
    ensures { MatchResult result
        (λ z. negative_word digits.now ≡ Some z)
        (λ _. negative_word digits.now ≡ None) }
{
    match long_number_at(digits, 1 << 63) {
        Ok((n, [])) => Ok(-((n - 1) as i64) - 1),
        _ => Err(BadWord),
    }
}

/// The signed number of 64 bits that the whole word is. It has no plus, no leading zero,
/// and zero has no minus.
#[tactic(auto, unfolding(crate::specs::WholeWords::signed_word), using(crate::proofs::WholeWordsLaws::number0_bound, std::proofs::lemmas::Int::to_z_pos))]
pub fn signed_word(word: &[u8]) -> Result<i64, BadWord>
    ensures { MatchResult result
        (λ z. signed_word word.now ≡ Some z)
        (λ _. signed_word word.now ≡ None) }
{
    let Some((first, digits)) = word.split_first() else {
        return Err(BadWord);
    };
    if *first == b'-' {
        return negative_word(digits);
    }
    let n = long_word(word, i64::MAX as u64)?;
    Ok(n as i64)
}
