//! CheckedSource and signs that stand at a token.
ghost use Rattle.std.specs.Prelude.{◌≡◌, drop};
ghost use Rattle.u_base.specs.WholeWords.{is};
ghost use Rattle.u_scope.specs.Naming.{sign_of, sign_at, sign_behind, named_word, named_at, named_behind};

use u_name::BlockName;
use u_source::{Mark, Position, Token, Word};

/// The signs and keywords that show what a name beside them is.
#[derive(Clone, Copy)]
pub(crate) enum Sign {
    /// `def`
    Def,
    /// `for`
    For,
    /// `loop`
    Loop,
    /// `next`
    Next,
    /// `,`
    Comma,
    /// `=`
    Becomes,
    /// `)`
    Close,
    /// Another token, or the end.
    Other,
}

/// A name that stands at a token.
#[derive(Clone, Copy)]
pub(crate) struct Named {
    /// The name.
    pub name: BlockName,
    /// Its line.
    pub line: usize,
}

/// The sign that a token is.
fn sign_of(word: Word) -> Sign
    ensures { result ≡ sign_of word }
{
    match word {
        Word::Mark(Mark::Def) => Sign::Def,
        Word::Mark(Mark::For) => Sign::For,
        Word::Mark(Mark::Loop) => Sign::Loop,
        Word::Mark(Mark::Next) => Sign::Next,
        Word::Mark(Mark::Comma) => Sign::Comma,
        Word::Mark(Mark::Becomes) => Sign::Becomes,
        Word::Mark(Mark::CloseParenthesis) => Sign::Close,
        _ => Sign::Other,
    }
}

/// The sign that the token with this number is.
pub(crate) fn sign_at(tokens: &[Token], number: usize) -> Sign
    ensures { result ≡ sign_at tokens.now number }
{
    match tokens.get(number) {
        Some(token) => sign_of(token.word()),
        None => Sign::Other,
    }
}

/// The sign that the token is which stands so many tokens behind the one with this number.
pub(crate) fn sign_behind(tokens: &[Token], number: usize, steps: usize) -> Sign
    ensures { result ≡ sign_behind tokens.now number steps }
{
    if number > tokens.len() {
        return Sign::Other;
    }
    sign_at(&tokens[number..], steps)
}

/// The name that a token is.
fn named_word(word: Word, place: Position) -> Option<Named>
    ensures { result ≡ named_word word place }
{
    match word {
        Word::Name(name) => Some(Named {
            name,
            line: place.line,
        }),
        _ => None,
    }
}

/// The name that the token with this number is.
pub(crate) fn named_at(tokens: &[Token], number: usize) -> Option<Named>
    ensures { result ≡ named_at tokens.now number }
{
    match tokens.get(number) {
        Some(token) => named_word(token.word(), token.place()),
        None => None,
    }
}

/// The name that the token is which stands so many tokens behind the one with this number.
pub(crate) fn named_behind(tokens: &[Token], number: usize, steps: usize) -> Option<Named>
    ensures { result ≡ named_behind tokens.now number steps }
{
    if number > tokens.len() {
        return None;
    }
    named_at(&tokens[number..], steps)
}

/// Whether two names are the same.
pub(crate) fn is_same(name: BlockName, other: BlockName) -> bool
    ensures { result ≡ is name other }
{
    name == other
}
