//! Tokens.
ghost use Rattle.std.specs.Prelude.{◌≡◌};
ghost use Rattle.u_source.specs.Tokens.{token};

use crate::mark::Mark;
use crate::place::Position;
use std::marker::Model;
use u_name::BlockName;

/// What a token is.
#[derive(Clone, Copy)]
pub enum Word {
    /// A name: 1 to 16 bytes of `a-z`, `0-9` and `_`, the first a letter, and no keyword.
    Name(BlockName),
    /// A number from 0 to 2^63, without a leading zero.
    Number(u64),
    /// A keyword or a sign.
    Mark(Mark),
}

/// A token: what it is, and the place of its first byte.
#[derive(Drop)]
pub struct Token {
    word: Word,
    place: Position,
}

impl Model for Token {
    ghost use Rattle.u_source.specs.Tokens.{TokenParts, token};

    ghost Value = { TokenParts };

    ghost view = { λ t. token t.word t.place };
}

impl Token {
    /// A token that is this word, the first byte of which stands at this place.
    pub(crate) fn new(word: Word, place: Position) -> Token
        ensures { result ≡ token word place }
    {
        Token { word, place }
    }

    /// What it is.
    pub fn word(&self) -> Word
        ensures { result ≡ self.now.word }
    {
        self.word
    }

    /// Where it stands.
    ///
    /// Promise places-of-tokens: it is the line and the column of the token's first byte, both from 1.
    pub fn place(&self) -> Position
        ensures { result ≡ self.now.place }
    {
        self.place
    }
}
