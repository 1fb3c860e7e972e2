//! Readers and writers in memory.
use std::io;
use std::io::{Read, Write};

/// Gives one of the pieces at each read, from that place on, and fails or ends then.
#[derive(Drop)]
pub struct Pieces {
    pub all: &'static [&'static str],
    pub place: usize,
    pub fails: bool,
}

impl Read for Pieces {
    fn read(&mut self, buf: &mut [u8]) -> io::Result<usize> {
        let place = self.place;
        self.place = place.saturating_add(1);
        match self.all.get(place) {
            Some(piece) => piece.as_bytes().read(buf),
            None if self.fails => Err(io::Error::from(io::ErrorKind::ConnectionReset)),
            None => Ok(0),
        }
    }
}

/// What is wrong with a writer.
#[derive(Clone, Copy)]
pub enum Flaw {
    /// It fails.
    Fails,
    /// It takes no byte.
    TakesNothing,
    /// It fails when it is flushed.
    Sticks,
}

/// Keeps what is written by its first `left` calls, and has its flaw from then on.
#[derive(Drop)]
pub struct Pen {
    pub kept: Vec<u8>,
    pub left: usize,
    pub flaw: Flaw,
}

impl Write for Pen {
    fn write(&mut self, buf: &[u8]) -> io::Result<usize> {
        match self.flaw {
            Flaw::Fails if self.left == 0 => Err(io::Error::from(io::ErrorKind::BrokenPipe)),
            Flaw::TakesNothing if self.left == 0 => Ok(0),
            _ => {
                self.left = self.left.saturating_sub(1);
                self.kept.write(buf)
            }
        }
    }

    fn flush(&mut self) -> io::Result<()> {
        match self.flaw {
            Flaw::Sticks if self.left == 0 => Err(io::Error::from(io::ErrorKind::BrokenPipe)),
            _ => Ok(()),
        }
    }
}

/// Counts the calls, and whether each wrote whole lines of 4,096 bytes at most.
#[derive(Drop)]
pub struct Piecewise {
    pub calls: usize,
    pub are_whole: bool,
}

impl Write for Piecewise {
    fn write(&mut self, buf: &[u8]) -> io::Result<usize> {
        self.calls = self.calls.saturating_add(1);
        self.are_whole = self.are_whole && buf.len() <= 4096 && buf.last() == Some(&b'\n');
        Ok(buf.len())
    }

    fn flush(&mut self) -> io::Result<()> {
        Ok(())
    }
}
