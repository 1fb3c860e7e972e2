//! The tokens of a text.
ghost use Rattle.std.specs.Prelude.{◌≡◌, ◌≤◌, ◌<◌, ◌+◌, ◌^◌, ◌==◌, Ok, Err, Some, None, length, IfOk, true, List, MatchResult};
ghost use Rattle.u_name.specs.Block.{is_block_byte};
ghost use Rattle.u_name.specs.BlockText.{begins_with_letter};
ghost use Rattle.u_source.specs.Words.{gap, word_len, all_digits, is_plain, number_of, name_of, word_of, token_at};
ghost use Rattle.u_source.specs.declared.source_error.SourceError.TheVariants as errors;
ghost use Rattle.u_source.specs.Tokens.{TokenParts};
ghost use Rattle.u_source.specs.Lexing.{AreTokens, IsLexError, IsStep};

use crate::mark::{keyword, sign};
use crate::place::Position;
use crate::source_error::{Problem, SourceError};
use crate::token::{Token, Word};
use std::alloc::Global;
use u_base::long_word;
use u_name::BlockName;

/// How many bytes of blanks and comments stand at the front.
fn gap_len(bytes: &[u8]) -> usize
    ensures value { result ≡ gap bytes.now }
    ensures inside { result ≤ length bytes.now }
{
    let mut len = 0;
    let mut comment = false;
    let mut rest = bytes;
    while let Some((byte, others)) = rest.split_first() {
        if comment {
            comment = *byte != b'\n';
        } else if *byte == b'#' {
            comment = true;
        } else if !matches!(*byte, b' ' | b'\t' | b'\n') {
            break;
        }
        len += 1;
        rest = others;
    }
    len
}

fn is_word_byte(byte: u8) -> bool
    ensures { result ≡ is_block_byte byte }
{
    matches!(byte, b'a'..=b'z' | b'0'..=b'9' | b'_')
}

/// How many bytes of a name or a number stand at the front.
fn word_len(bytes: &[u8]) -> usize
    ensures value { result ≡ word_len bytes.now }
    ensures inside { result ≤ length bytes.now }
{
    let mut len = 0;
    let mut rest = bytes;
    while let Some((byte, others)) = rest.split_first() {
        if !is_word_byte(*byte) {
            break;
        }
        len += 1;
        rest = others;
    }
    len
}

/// Whether these are digits alone.
fn all_digits(word: &[u8]) -> bool
    ensures { result ≡ all_digits word.now }
{
    let mut rest = word;
    while let Some((byte, others)) = rest.split_first() {
        if !matches!(*byte, b'0'..=b'9') {
            return false;
        }
        rest = others;
    }
    true
}

/// Whether these are digits without a leading zero.
fn is_plain(word: &[u8]) -> bool
    ensures { result ≡ is_plain word.now }
{
    let leading_zero = match word.split_first() {
        Some((first, _)) => *first == b'0',
        None => false,
    };
    all_digits(word) && !leading_zero
}

/// The number that the whole word is.
fn number(word: &[u8]) -> Result<Word, Problem>
    ensures { result ≡ number_of word.now }
{
    match long_word(word, 1 << 63) {
        Ok(number) => Ok(Word::Number(number)),
        Err(_) => {
            if is_plain(word) {
                Err(Problem::NumberRange)
            } else {
                Err(Problem::BadNumber)
            }
        }
    }
}

/// The keyword, or else the name, that the whole word is. It begins with a letter.
fn name(word: &[u8]) -> Result<Word, Problem>
    requires first { begins_with_letter word.now ≡ true }
    requires each { word_len word.now ≡ length word.now }
    ensures { result ≡ name_of word.now }
{
    if let Some(mark) = keyword(word) {
        return Ok(Word::Mark(mark));
    }
    if word.len() > 16 {
        return Err(Problem::LongName);
    }
    Ok(Word::Name(BlockName::new(word)))
}

/// The name, the keyword or the number that the whole word is.
fn word(word: &[u8]) -> Result<Word, Problem>
    requires { word_len word.now ≡ length word.now }
    ensures { result ≡ word_of word.now }
{
    match word.split_first() {
        Some((b'a'..=b'z', _)) => name(word),
        Some((b'0'..=b'9', _)) => number(word),
        _ => Err(Problem::BadByte),
    }
}

/// The token at the front, and how many bytes it has.
#[tactic(auto, unfolding(crate::specs::Words::token_at))]
fn token_at(bytes: &[u8]) -> Result<(Word, usize), Problem>
    ensures value { result ≡ token_at bytes.now }
    ensures inside { IfOk result (λ found. found.1 ≤ length bytes.now) }
    ensures some { IfOk result (λ found. 0 < found.1) }
{
    let len = word_len(bytes);
    if len > 0 {
        return Ok((word(&bytes[..len])?, len));
    }
    match sign(bytes) {
        Some(mark) => Ok((Word::Mark(mark), mark.text().len())),
        None => Err(Problem::BadByte),
    }
}

/// What is left to read of a text.
#[derive(Drop)]
pub struct Lexer<'a> {
    /// The place of its first byte.
    pub place: Position,
    /// Its bytes.
    pub rest: &'a [u8],
}

impl<'a> Lexer<'a> {
    /// The next token behind blanks and comments, if there is one. An `Err` changes nothing.
    fn next(&mut self) -> Result<Option<Token>, SourceError>
        requires line { self.old.place.line + length self.old.rest.now < 2 ^ 64 }
        requires column { self.old.place.column + length self.old.rest.now < 2 ^ 64 }
        ensures { IsStep self.old self.new result }
    {
        let (gap, others) = self.rest.split_at(gap_len(self.rest));
        if others.is_empty() {
            return Ok(None);
        }
        let place = self.place.after(gap);
        let (word, len) = match token_at(others) {
            Ok(found) => found,
            Err(problem) => return Err(SourceError::Refused(place, problem)),
        };
        let (text, rest) = others.split_at(len);
        self.place = place.after(text);
        self.rest = rest;
        Ok(Some(Token::new(word, place)))
    }
}

/// The tokens of a text, each with its place, in their order.
///
/// A token is a name, a keyword, a number or a sign. A name has 1 to 16 bytes of `a-z`, `0-9` and `_`, the
/// first of them a letter, and is no keyword. A number has digits alone and no leading zero, and is at most
/// 2^63; its sign is a token of its own. A word goes on as long as such bytes follow, and of two signs that
/// begin alike the longer one is taken. Space, tab and newline separate tokens and mean nothing else; so
/// does `#` with the rest of its line. Each text has its tokens once. The notation is this project's own, in
/// the family of Id, SISAL and Val.
///
/// Promise tokens-of-a-source: exactly the tokens of the text are returned: each the longest that stands
/// next, and only blanks and comments between them.
///
/// Promise no-token: a text that has tokens is refused only if there is no memory, and of another the first
/// place without a token is named.
///
/// # Errors
/// `Refused` with the first place where no token can be read, which is that of a whole word or sign, and
/// why; it comes only of a text that has no tokens. `NoMemory` where there is no memory.
#[tactic(auto, using(crate::proofs::OnceLaws::read_back))]
pub fn tokens(alloc: Global, bytes: &[u8]) -> Result<Vec<Token>, SourceError>
    ensures answer { MatchResult result (λ tokens. AreTokens bytes.now tokens.items)
        (λ error. IsLexError bytes.now error) }
    ensures back { (ts : List TokenParts) → AreTokens bytes.now ts
        → MatchResult result (λ tokens. tokens.items ≡ ts) (λ error. error ≡ errors.NoMemory) }
{
    read_all(alloc, bytes)
}

/// Reads token by token.
#[tactic(auto, using(crate::proofs::ReadsLaws::reads_more))]
fn read_all(alloc: Global, bytes: &[u8]) -> Result<Vec<Token>, SourceError>
    ensures { MatchResult result (λ tokens. AreTokens bytes.now tokens.items)
        (λ error. IsLexError bytes.now error) }
{
    let mut tokens = Vec::new(alloc);
    let mut lexer = Lexer {
        place: Position::start(),
        rest: bytes,
    };
    while let Some(token) = lexer.next()? {
        tokens.push(token)?;
    }
    Ok(tokens)
}
