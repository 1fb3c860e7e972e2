//! Numbers on the command line.
//!
//! Numbers have one spelling. The parser takes a plus and leading zeros, so the word is read once more by a
//! strict reader. `n` stands for a minus, so that no argument begins with a hyphen.
ghost use Rattle.std.specs.Prelude.{◌≡◌, ◌≤◌, ℕ, IfSome, IsNone};
ghost use Rattle.u_words.specs.Numbers.{IsFirings, IsNumberText};

use u_base::{long_word, number_word};

/// The most firings that a run may be given.
const MOST_FIRINGS: u32 = 1_000_000;

/// The number of firings that a word of the command line is.
///
/// Promise number-of-firings: a word is one exactly if it is the decimal text of a number from 1 to 1000000.
#[tactic(auto, using(u_base::proofs::WholeWordsLaws::number_word_complete))]
pub fn firings_of(word: &str) -> Option<usize>
    ensures some { IfSome result (λ n. IsFirings n × IsNumberText n word.now) }
    ensures none { IsNone result → (n : ℕ) → IsFirings n → IsNumberText n word.now → ⊥ }
{
    match number_word(word.as_bytes(), MOST_FIRINGS) {
        Ok(n) => Some(n as usize),
        Err(_) => None,
    }
}

/// The number from 0 to `most` that a word of the command line is.
///
/// Promise numbers-of-options: a word is one exactly if it is the decimal text of a number from 0 to `most`.
#[tactic(auto, using(u_base::proofs::WholeWordsLaws::number0_word_complete))]
pub fn number_of(word: &str, most: u64) -> Option<u64>
    requires { 9 ≤ most }
    ensures some { IfSome result (λ n. (n ≤ most) × IsNumberText n word.now) }
    ensures none { IsNone result → (n : ℕ) → n ≤ most → IsNumberText n word.now → ⊥ }
{
    match long_word(word.as_bytes(), most) {
        Ok(number) => Some(number),
        Err(_) => None,
    }
}
