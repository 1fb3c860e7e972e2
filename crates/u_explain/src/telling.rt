//! Parts of sentences: bytes of a program's text, statements and counts.
use std::alloc::AllocError;
use std::fmt;
use u_program::{Kind, Statement, kind_word};

/// The answer of what appends to a text: `AllocError` if there is no memory.
pub type Told = Result<(), AllocError>;

/// The most bytes of a program's text that a sentence quotes.
const QUOTED: usize = 24;

/// Bytes as they are shown: printable ASCII as itself; a backslash, a tab and a carriage return as
/// `\\`, `\t` and `\r`; every other byte as `\x` and two digits, base 16.
#[derive(Clone, Copy)]
pub struct Shown<'a>(pub &'a [u8]);

impl fmt::Display for Shown<'_> {
    fn fmt<W: fmt::Write>(&self, f: &mut fmt::Formatter<W>) -> fmt::Result {
        for byte in self.0 {
            match *byte {
                b'\\' => f.write_str("\\\\")?,
                b'\t' => f.write_str("\\t")?,
                b'\r' => f.write_str("\\r")?,
                plain @ b' '..=b'~' => f.write_char(char::from(plain))?,
                other => write!(f, "\\x{other:02X}")?,
            }
        }
        Ok(())
    }
}

/// Bytes between backquotes, as they are shown; of a long text its first bytes and three dots.
#[derive(Clone, Copy)]
pub struct Quoted<'a>(pub &'a [u8]);

impl fmt::Display for Quoted<'_> {
    fn fmt<W: fmt::Write>(&self, f: &mut fmt::Formatter<W>) -> fmt::Result {
        match self.0.get(..QUOTED) {
            Some(front) if self.0.len() > QUOTED => write!(f, "`{}...`", Shown(front)),
            _ => write!(f, "`{}`", Shown(self.0)),
        }
    }
}

/// A kind with its article: `an add`, with backquotes around the word.
#[derive(Clone, Copy)]
pub struct Article<'a>(pub &'a Kind);

impl fmt::Display for Article<'_> {
    fn fmt<W: fmt::Write>(&self, f: &mut fmt::Formatter<W>) -> fmt::Result {
        let word = kind_word(self.0);
        match word.first() {
            Some(b'a' | b'e' | b'o') => write!(f, "an {}", Quoted(word)),
            _ => write!(f, "a {}", Quoted(word)),
        }
    }
}

/// A statement by its number and its kind: `statement 2, an add`. Nothing, if it is not there.
#[derive(Clone, Copy)]
pub struct Named<'a>(pub usize, pub Option<&'a Statement>);

impl fmt::Display for Named<'_> {
    fn fmt<W: fmt::Write>(&self, f: &mut fmt::Formatter<W>) -> fmt::Result {
        match self.1 {
            Some(statement) => { write!(f, "statement {}, {}", self.0, Article(statement.kind())) }
            None => Ok(()),
        }
    }
}

/// How many of a thing there are: `no loops`, `1 loop`, `2 loops`.
#[derive(Clone, Copy)]
pub struct Count(pub usize, pub &'static str);

impl fmt::Display for Count {
    fn fmt<W: fmt::Write>(&self, f: &mut fmt::Formatter<W>) -> fmt::Result {
        match self.0 {
            0 => write!(f, "no {}s", self.1),
            1 => write!(f, "1 {}", self.1),
            count => write!(f, "{count} {}s", self.1),
        }
    }
}

/// A region in a sentence: `region 2, loop 2`.
#[derive(Clone, Copy)]
pub struct Region(pub u8);

impl fmt::Display for Region {
    fn fmt<W: fmt::Write>(&self, f: &mut fmt::Formatter<W>) -> fmt::Result {
        match self.0 {
            0 => f.write_str("region 0, outside of all loops"),
            region => write!(f, "region {region}, loop {region}"),
        }
    }
}
