//! Places in a text.
ghost use Rattle.std.specs.Prelude.{◌≡◌, ◌+◌, ◌<◌, ◌≤◌, ◌^◌, length};
ghost use Rattle.u_source.specs.Places.{start, place_after};

/// A place in a text: a byte of it, or its end. Lines are counted from 1, and so are the bytes of a line.
#[derive(Clone, Copy, Debug, PartialEq, Eq)]
pub struct Position {
    /// The line, from 1.
    pub line: usize,
    /// The byte in its line, from 1.
    pub column: usize,
}

impl Position {
    /// The place of a text's first byte.
    pub fn start() -> Position
        ensures { result ≡ start }
    {
        Position { line: 1, column: 1 }
    }

    /// The place behind these bytes, the first of which stands at this place.
    pub(crate) fn after(self, bytes: &[u8]) -> Position
        requires line { self.line + length bytes.now < 2 ^ 64 }
        requires column { self.column + length bytes.now < 2 ^ 64 }
        ensures value { result ≡ place_after self bytes.now }
        ensures line { result.line ≤ self.line + length bytes.now }
        ensures column { result.column ≤ self.column + length bytes.now }
    {
        let mut place = self;
        let mut rest = bytes;
        while let Some((byte, others)) = rest.split_first() {
            if *byte == b'\n' {
                place = Position {
                    line: place.line + 1,
                    column: 1,
                };
            } else {
                place = Position {
                    line: place.line,
                    column: place.column + 1,
                };
            }
            rest = others;
        }
        place
    }
}
