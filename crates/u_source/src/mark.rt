//! The words and signs of the notation that are always the same.
ghost use Rattle.std.specs.Prelude.{◌≡◌, MatchOption};
ghost use Rattle.u_source.specs.Marks.{keywords, signs, mark_text, keyword_among, sign_among};

/// A keyword or a sign.
#[derive(Clone, Copy, Debug, PartialEq, Eq)]
pub enum Mark {
    /// `def`
    Def,
    /// `if`
    If,
    /// `else`
    Else,
    /// `loop`
    Loop,
    /// `while`
    While,
    /// `for`
    For,
    /// `in`
    In,
    /// `next`
    Next,
    /// `give`
    Give,
    /// `array`
    Array,
    /// `length`
    Length,
    /// `and`
    And,
    /// `or`
    Or,
    /// `not`
    Not,
    /// `true`
    True,
    /// `false`
    False,
    /// `..`
    Dots,
    /// `<=`
    AtMost,
    /// `>=`
    AtLeast,
    /// `==`
    Equal,
    /// `!=`
    Unequal,
    /// `(`
    OpenParenthesis,
    /// `)`
    CloseParenthesis,
    /// `{`
    OpenBrace,
    /// `}`
    CloseBrace,
    /// `[`
    OpenBracket,
    /// `]`
    CloseBracket,
    /// `,`
    Comma,
    /// `;`
    Semicolon,
    /// `=`
    Becomes,
    /// `+`
    Plus,
    /// `-`
    Minus,
    /// `*`
    Times,
    /// `/`
    Divide,
    /// `%`
    Remainder,
    /// `<`
    Less,
    /// `>`
    Greater,
}

/// The keywords.
const KEYWORDS: [Mark; 16] = [
    Mark::Def,
    Mark::If,
    Mark::Else,
    Mark::Loop,
    Mark::While,
    Mark::For,
    Mark::In,
    Mark::Next,
    Mark::Give,
    Mark::Array,
    Mark::Length,
    Mark::And,
    Mark::Or,
    Mark::Not,
    Mark::True,
    Mark::False,
];

/// The signs, those of two bytes first.
const SIGNS: [Mark; 21] = [
    Mark::Dots,
    Mark::AtMost,
    Mark::AtLeast,
    Mark::Equal,
    Mark::Unequal,
    Mark::OpenParenthesis,
    Mark::CloseParenthesis,
    Mark::OpenBrace,
    Mark::CloseBrace,
    Mark::OpenBracket,
    Mark::CloseBracket,
    Mark::Comma,
    Mark::Semicolon,
    Mark::Becomes,
    Mark::Plus,
    Mark::Minus,
    Mark::Times,
    Mark::Divide,
    Mark::Remainder,
    Mark::Less,
    Mark::Greater,
];

/// The keywords.
fn keywords() -> [Mark; 16]
    ensures { result ≡ keywords }
{
    KEYWORDS
}

/// The signs, those of two bytes first.
fn signs() -> [Mark; 21]
    ensures { result ≡ signs }
{
    SIGNS
}

impl Mark {
    /// The bytes of the keyword or sign.
    pub fn text(&self) -> &'static [u8]
        ensures { result.now ≡ mark_text self.now }
    {
        match self {
            Mark::Def => b"def".as_slice(),
            Mark::If => b"if".as_slice(),
            Mark::Else => b"else".as_slice(),
            Mark::Loop => b"loop".as_slice(),
            Mark::While => b"while".as_slice(),
            Mark::For => b"for".as_slice(),
            Mark::In => b"in".as_slice(),
            Mark::Next => b"next".as_slice(),
            Mark::Give => b"give".as_slice(),
            Mark::Array => b"array".as_slice(),
            Mark::Length => b"length".as_slice(),
            Mark::And => b"and".as_slice(),
            Mark::Or => b"or".as_slice(),
            Mark::Not => b"not".as_slice(),
            Mark::True => b"true".as_slice(),
            Mark::False => b"false".as_slice(),
            Mark::Dots => b"..".as_slice(),
            Mark::AtMost => b"<=".as_slice(),
            Mark::AtLeast => b">=".as_slice(),
            Mark::Equal => b"==".as_slice(),
            Mark::Unequal => b"!=".as_slice(),
            Mark::OpenParenthesis => b"(".as_slice(),
            Mark::CloseParenthesis => b")".as_slice(),
            Mark::OpenBrace => b"{".as_slice(),
            Mark::CloseBrace => b"}".as_slice(),
            Mark::OpenBracket => b"[".as_slice(),
            Mark::CloseBracket => b"]".as_slice(),
            Mark::Comma => b",".as_slice(),
            Mark::Semicolon => b";".as_slice(),
            Mark::Becomes => b"=".as_slice(),
            Mark::Plus => b"+".as_slice(),
            Mark::Minus => b"-".as_slice(),
            Mark::Times => b"*".as_slice(),
            Mark::Divide => b"/".as_slice(),
            Mark::Remainder => b"%".as_slice(),
            Mark::Less => b"<".as_slice(),
            Mark::Greater => b">".as_slice(),
        }
    }
}

/// The one of these that the whole word is.
fn keyword_among(marks: &[Mark], word: &[u8]) -> Option<Mark>
    ensures { result ≡ keyword_among marks.now word.now }
{
    let mut rest = marks;
    while let Some((mark, others)) = rest.split_first() {
        if word == mark.text() {
            return Some(*mark);
        }
        rest = others;
    }
    None
}

/// The first of these with which the bytes begin.
fn sign_among(marks: &[Mark], bytes: &[u8]) -> Option<Mark>
    ensures { result ≡ sign_among marks.now bytes.now }
{
    let mut rest = marks;
    while let Some((mark, others)) = rest.split_first() {
        if bytes.starts_with(mark.text()) {
            return Some(*mark);
        }
        rest = others;
    }
    None
}

/// The keyword that the whole word is.
pub(crate) fn keyword(word: &[u8]) -> Option<Mark>
    ensures { result ≡ keyword_among keywords word.now }
{
    keyword_among(&keywords(), word)
}

/// The longest sign with which the bytes begin.
pub(crate) fn sign(bytes: &[u8]) -> Option<Mark>
    ensures { result ≡ sign_among signs bytes.now }
{
    sign_among(&signs(), bytes)
}
