//! The word of a command line that gives a job its argument.
ghost use Rattle.std.specs.Prelude.{◌≡◌, Some, None, MatchOption, pos, ℤ};
ghost use Rattle.u_commands.specs.Arguments.{argument_word, IsArgumentOf};

use u_base::{long_word, negative_word};

/// The number that the word gives: decimal, without leading zeros, with `n` in place of a minus, so that no
/// word begins with a hyphen. 0 has no `n`.
///
/// Promise arguments: a word is read exactly if it is the text of a number from -2^63 to 2^63 - 1.
#[tactic(auto, using(crate::proofs::ArgumentLaws::argument_sound, crate::proofs::ArgumentLaws::argument_none))]
pub fn argument_of(word: &[u8]) -> Option<i64>
    ensures { MatchOption result ((z : ℤ) → IsArgumentOf word.now z → ⊥)
        (λ z. IsArgumentOf word.now z) }
{
    match argument_word(word) {
        Some(number) => Some(number),
        None => None,
    }
}

#[tactic(auto, unfolding(crate::specs::Arguments::argument_word), using(u_base::proofs::WholeWordsLaws::number0_bound, std::proofs::lemmas::Int::to_z_pos))]
fn argument_word(word: &[u8]) -> Option<i64>
    ensures { MatchOption result (argument_word word.now ≡ None)
        (λ z. argument_word word.now ≡ Some z) }
{
    let (first, digits) = word.split_first()?;
    if *first == b'n' {
        return match negative_word(digits) {
            Ok(number) => Some(number),
            Err(_) => None,
        };
    }
    match long_word(word, i64::MAX as u64) {
        Ok(number) => Some(number as i64),
        Err(_) => None,
    }
}
