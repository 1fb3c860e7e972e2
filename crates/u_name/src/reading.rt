//! Names read from bytes.
//!
//! A name whose context is too deep has an error of its own. A value that holds such a name has not: its
//! error is the byte of the 65th `(`.
ghost use Rattle.std.specs.Prelude.{◌≡◌, ◌≤◌, ◌<◌, ◌-◌, ◌^◌, Ok, Err, MatchResult, IfOk, length, ◌∷◌, drop};
ghost use Rattle.u_name.specs.Context.{depth, IsContext, Top};
ghost use Rattle.u_name.specs.Block.{IsBlock};
ghost use Rattle.u_base.specs.Number.{number};
ghost use Rattle.u_name.specs.BlockText.{block_at, begins_with_letter};
ghost use Rattle.u_base.specs.Parts.{after_byte};
ghost use Rattle.u_name.specs.NameReader as reader;
ghost use Rattle.u_name.specs.CursorValues.{ReadsLinkage, frame_value, tail_value};
ghost use Rattle.u_name.specs.NameReading.{IsNameAt, IsNameOf, IsNameErrorAt, IsNameErrorOf};
ghost use Rattle.u_name.specs.NameReader.{IsFrame, IsTail, paren_span, frames_from, name_steps};
ghost use Rattle.u_name.specs.CursorAnswers.{Fails, IsFine, ReadsOpens, ReadsNoOpens, ReadsContext, ReadsNoContext, ReadsName, ReadsNoName};
ghost use Rattle.u_name.specs.declared.reading.ReadFault.TheVariants as faults;
ghost use Rattle.u_name.specs.declared.reading.NameTextError.TheVariants.{BadName};

use crate::block_name::BlockName;
use crate::block_text::{begins_with_letter, block_len};
use crate::context::{Context, Linkage};
use crate::name::Name;
use std::alloc::{AllocError, AllocFailed, Global};
use thiserror::Error;
use u_base::long_number_at;

/// The part of a context's text behind the outer context's.
#[derive(Clone, Copy)]
struct Frame {
    block: BlockName,
    linkage: Linkage,
    initiation: u64,
}

/// The next byte is one that no text allows.
#[derive(Debug, Drop)]
pub(crate) struct Stuck;

/// What is left to read. Where a read answers `Stuck`, it is what begins with the byte that no text allows.
#[derive(Drop)]
pub(crate) struct Cursor<'a> {
    pub(crate) rest: &'a [u8],
}

impl<'a> Cursor<'a> {
    fn byte(&mut self, wanted: u8) -> Result<(), Stuck>
        ensures { MatchResult result
            (λ _. after_byte wanted self.old.rest.now ≡ Ok (tt, self.new.rest.now))
            (λ _. after_byte wanted self.old.rest.now ≡ Err self.new.rest.now) }
    {
        match self.rest.split_first() {
            Some((first, rest)) if *first == wanted => {
                self.rest = rest;
                Ok(())
            }
            _ => Err(Stuck),
        }
    }

    fn number(&mut self, max: u64) -> Result<u64, Stuck>
        requires { 9 ≤ max }
        ensures value { MatchResult result
            (λ n. number max self.old.rest.now ≡ Ok (n, self.new.rest.now))
            (λ _. number max self.old.rest.now ≡ Err self.new.rest.now) }
    {
        match long_number_at(self.rest, max) {
            Ok((n, rest)) => {
                self.rest = rest;
                Ok(n)
            }
            Err(_) => Err(Stuck),
        }
    }

    fn block(&mut self) -> Result<BlockName, Stuck>
        ensures { MatchResult result
            (λ block. block_at self.old.rest.now ≡ Ok (block, self.new.rest.now))
            (λ _. block_at self.old.rest.now ≡ Err self.new.rest.now) }
    {
        match front_block(self.rest) {
            Ok((name, rest)) => {
                self.rest = rest;
                Ok(name)
            }
            Err(_) => Err(Stuck),
        }
    }

    #[tactic(auto, using(u_base::proofs::NumberLaws::number_bound))]
    fn linkage(&mut self) -> Result<Linkage, Stuck>
        ensures { MatchResult result
            (λ linkage. ReadsLinkage self.old.rest.now linkage self.new.rest.now)
            (λ _. reader.linkage_at self.old.rest.now ≡ Err self.new.rest.now) }
    {
        match self.rest.split_first() {
            Some((b'L', rest)) => {
                self.rest = rest;
                let number = self.number(99)?;
                Ok(Linkage::Loop(number as u8))
            }
            _ => {
                let statement = self.number(999)?;
                Ok(Linkage::Call(statement as u16))
            }
        }
    }

    fn frame(&mut self) -> Result<Frame, Stuck>
        ensures fine { IfOk result (λ frame. IsFrame (frame_value frame)) }
        ensures value { MatchResult result
            (λ frame. reader.frame_at self.old.rest.now ≡ Ok (frame_value frame, self.new.rest.now))
            (λ _. reader.frame_at self.old.rest.now ≡ Err self.new.rest.now) }
    {
        self.frame_parts()
    }

    /// `.c.Ll.i)` or `.c.s.i)`
    fn frame_parts(&mut self) -> Result<Frame, Stuck>
        ensures { MatchResult result
            (λ frame. reader.frame_at self.old.rest.now ≡ Ok (frame_value frame, self.new.rest.now))
            (λ _. reader.frame_at self.old.rest.now ≡ Err self.new.rest.now) }
    {
        self.byte(b'.')?;
        let block = self.block()?;
        self.byte(b'.')?;
        let linkage = self.linkage()?;
        self.byte(b'.')?;
        let initiation = self.number(u64::MAX)?;
        self.byte(b')')?;
        Ok(Frame {
            block,
            linkage,
            initiation,
        })
    }

    /// `.c.s.i`
    pub(crate) fn tail(&mut self) -> Result<Tail, Stuck>
        ensures fine { IfOk result (λ tail. IsTail (tail_value tail)) }
        ensures value { MatchResult result
            (λ tail. reader.tail_at self.old.rest.now ≡ Ok (tail_value tail, self.new.rest.now))
            (λ _. reader.tail_at self.old.rest.now ≡ Err self.new.rest.now) }
    {
        self.tail_parts()
    }

    fn tail_parts(&mut self) -> Result<Tail, Stuck>
        ensures { MatchResult result
            (λ tail. reader.tail_at self.old.rest.now ≡ Ok (tail_value tail, self.new.rest.now))
            (λ _. reader.tail_at self.old.rest.now ≡ Err self.new.rest.now) }
    {
        self.byte(b'.')?;
        let block = self.block()?;
        self.byte(b'.')?;
        let statement = self.number(999)?;
        self.byte(b'.')?;
        let initiation = self.number(u64::MAX)?;
        Ok(Tail {
            block,
            statement,
            initiation,
        })
    }

    /// How many `(` stand at the front, 65 at most.
    #[tactic(auto, using(crate::proofs::Parens::paren_step, crate::proofs::Parens::paren_stop, crate::proofs::Parens::paren_full, crate::proofs::Parens::paren_empty, u_base::proofs::PiecesLaws::drop_step))]
    fn parens(&mut self) -> u32
        ensures value { result ≡ paren_span 65 self.old.rest.now }
        ensures rest { self.new.rest.now ≡ drop result self.old.rest.now }
    {
        let mut count = 0;
        while let Some((byte, others)) = self.rest.split_first() {
            if count == 65 || *byte != b'(' {
                break;
            }
            count += 1;
            self.rest = others;
        }
        count
    }

    #[tactic(auto, using(crate::proofs::NameReaderLaws::opens_ok, crate::proofs::NameReaderLaws::opens_err))]
    fn opens(&mut self) -> Result<u32, ReadFault>
        ensures { MatchResult result
            (λ depth. ReadsOpens self.old.rest.now depth self.new.rest.now)
            (λ fault. ReadsNoOpens self.old.rest.now fault self.new.rest.now) }
    {
        let depth = self.parens();
        if depth > 64 {
            return Err(ReadFault::Deep);
        }
        self.byte(b'-')?;
        Ok(depth)
    }

    #[tactic(auto, using(crate::proofs::NameReaderLaws::frames_turn, crate::proofs::NameReaderLaws::frames_stuck))]
    fn frames(&mut self, alloc: Global, count: u32) -> Result<Context, ReadFault>
        requires { count ≤ 64 }
        ensures { MatchResult result
            (λ context. frames_from count Top self.old.rest.now ≡ Ok (context, self.new.rest.now))
            (λ fault. Fails fault (frames_from count Top self.old.rest.now) self.new.rest.now) }
    {
        let mut context = Context::root();
        let mut left = count;
        while left > 0 {
            let frame = self.frame()?;
            context = extended(alloc, context, frame)?;
            left -= 1;
        }
        Ok(context)
    }

    pub(crate) fn context(&mut self, alloc: Global) -> Result<Context, ReadFault>
        ensures { MatchResult result
            (λ context. ReadsContext self.old.rest.now context self.new.rest.now)
            (λ fault. ReadsNoContext self.old.rest.now fault self.new.rest.now) }
    {
        let depth = self.opens()?;
        let context = self.frames(alloc, depth)?;
        Ok(context)
    }

    fn name(&mut self, alloc: Global) -> Result<Name, ReadFault>
        ensures { MatchResult result
            (λ name. ReadsName self.old.rest.now name self.new.rest.now)
            (λ fault. ReadsNoName self.old.rest.now fault self.new.rest.now) }
    {
        let depth = self.opens()?;
        let context = self.frames(alloc, depth)?;
        let tail = self.tail()?;
        Ok(Name::new(context, tail.block, tail.statement as u16, tail.initiation))
    }
}

/// The context that the frame has around the outer one.
fn extended(alloc: Global, outer: Context, frame: Frame) -> Result<Context, AllocError>
    requires shallow { depth outer < 64 }
    requires fine { IsFrame (frame_value frame) }
    ensures { IfOk result (λ context. context ≡ reader.framed outer (frame_value frame)) }
{
    match frame.linkage {
        Linkage::Loop(number) => Context::in_loop(
            alloc,
            outer,
            frame.block,
            number,
            frame.initiation,
        ),
        Linkage::Call(statement) => {
            Context::in_call(alloc, outer, frame.block, statement, frame.initiation)
        }
    }
}

/// The part of a name's text behind the context's.
#[derive(Clone, Copy)]
pub(crate) struct Tail {
    pub(crate) block: BlockName,
    pub(crate) statement: u64,
    pub(crate) initiation: u64,
}

/// Why a cursor gives no name. Where it is stuck, its rest begins with the byte that no name's text
/// allows.
#[derive(Debug, Drop)]
pub(crate) enum ReadFault {
    Stuck,
    Deep,
    NoMemory,
}

impl From<Stuck> for ReadFault {
    ghost from_gives = { λ _ e. e ≡ faults.Stuck };

    fn from(_: Stuck) -> ReadFault {
        ReadFault::Stuck
    }
}

impl From<AllocError> for ReadFault {
    ghost from_gives = { λ _ e. e ≡ faults.NoMemory };

    fn from(_: AllocError) -> ReadFault {
        ReadFault::NoMemory
    }
}

impl<T: Drop> From<AllocFailed<T>> for ReadFault {
    ghost from_gives = { λ _ e. e ≡ faults.NoMemory };

    fn from(_: AllocFailed<T>) -> ReadFault {
        ReadFault::NoMemory
    }
}

/// Why no name is read.
#[derive(Debug, Drop, PartialEq, Eq, Error)]
pub enum NameTextError {
    /// No name's text begins there. It holds the offset, in all the bytes, of the first byte with
    /// which what begins there is no longer the front of a name's text.
    #[error("byte {0}: no name is written so")]
    BadName(usize),
    /// The text begins with 65 or more `(`.
    #[error("the context is deeper than 64")]
    Deep,
    /// A growth was refused.
    #[error("no memory")]
    NoMemory,
}

/// The longest name of a block at the front, and what is left behind it. Where there is none, all
/// the bytes: no name of a block begins with the first.
#[tactic(auto, using(crate::proofs::BlockTextLaws::is_read_block))]
pub fn front_block(bytes: &[u8]) -> Result<(BlockName, &[u8]), &[u8]>
    ensures { MatchResult result
        (λ found. block_at bytes.now ≡ Ok (found.0, found.1.now))
        (λ rest. block_at bytes.now ≡ Err rest.now) }
{
    if !begins_with_letter(bytes) {
        return Err(bytes);
    }
    let (name, rest) = bytes.split_at(block_len(bytes));
    Ok((BlockName::new(name), rest))
}

/// What was read at the front of some bytes, and what is left behind it; or what begins with the
/// byte with which no text goes on.
pub type Front<'a, T> = Result<(T, &'a [u8]), &'a [u8]>;

/// The longest name at the front, and what is left behind it. Where there is none, what begins with
/// the byte with which no name's text goes on; a 65th `(` is such a byte.
///
/// # Errors
/// `AllocError` where there is no memory.
pub fn front_name(alloc: Global, bytes: &[u8]) -> Result<Front<'_, Name>, AllocError>
    ensures { IfOk result (λ front. MatchResult front
        (λ found. name_steps bytes.now ≡ Ok (found.0, found.1.now))
        (λ rest. name_steps bytes.now ≡ Err rest.now)) }
{
    let mut cursor = Cursor { rest: bytes };
    match cursor.name(alloc) {
        Ok(name) => Ok(Ok((name, cursor.rest))),
        Err(ReadFault::Stuck) => Ok(Err(cursor.rest)),
        Err(ReadFault::Deep) => Ok(Err(behind(bytes, 64))),
        Err(ReadFault::NoMemory) => Err(AllocError),
    }
}

impl Name {
    /// The name whose text the bytes are. A refusal's offset is where the longest front of a name's
    /// text ends.
    ///
    /// Promise names-are-read: what is read has the bytes as its text, and the text of a name is refused only
    /// if there is no memory.
    #[tactic(auto, using(crate::proofs::WholeTexts::name_refused_within, crate::proofs::WholeTexts::name_refused_whole))]
    pub fn read(alloc: Global, bytes: &[u8]) -> Result<Name, NameTextError>
        ensures { MatchResult result (λ name. IsNameOf bytes.now name)
            (λ error. IsNameErrorOf bytes.now error) }
    {
        let mut cursor = Cursor { rest: bytes };
        match cursor.name(alloc) {
            Ok(name) => whole(name, bytes, cursor.rest),
            Err(ReadFault::Stuck) => Err(stuck_at(bytes, cursor.rest)),
            Err(ReadFault::Deep) => Err(NameTextError::Deep),
            Err(ReadFault::NoMemory) => Err(NameTextError::NoMemory),
        }
    }

    /// The name of the longest text of a name that begins at the offset, and the offset behind it.
    pub fn read_at(
        alloc: Global,
        bytes: &[u8],
        offset: usize,
    ) -> Result<(Name, usize), NameTextError>
        requires { offset ≤ length bytes.now }
        ensures { MatchResult result
            (λ found. IsNameAt bytes.now offset found.0 found.1)
            (λ error. IsNameErrorAt bytes.now offset error) }
    {
        let rest = behind(bytes, offset);
        let mut cursor = Cursor { rest };
        match cursor.name(alloc) {
            Ok(name) => Ok((name, bytes.len() - cursor.rest.len())),
            Err(ReadFault::Stuck) => Err(NameTextError::BadName(bytes.len() - cursor.rest.len())),
            Err(ReadFault::Deep) => Err(NameTextError::Deep),
            Err(ReadFault::NoMemory) => Err(NameTextError::NoMemory),
        }
    }
}

/// The name, where nothing is left behind it.
fn whole(name: Name, bytes: &[u8], rest: &[u8]) -> Result<Name, NameTextError>
    requires read { name_steps bytes.now ≡ Ok (name, rest.now) }
    requires fine { IsFine (paren_span 65 bytes.now) }
    requires within { length rest.now ≤ length bytes.now }
    ensures { MatchResult result (λ name. IsNameOf bytes.now name)
        (λ error. IsNameErrorOf bytes.now error) }
{
    if rest.is_empty() {
        Ok(name)
    } else {
        Err(stuck_at(bytes, rest))
    }
}

/// The refusal where the reader is stuck with so much left.
fn stuck_at(bytes: &[u8], rest: &[u8]) -> NameTextError
    requires { length rest.now ≤ length bytes.now }
    ensures { result ≡ BadName (length bytes.now - length rest.now) }
{
    NameTextError::BadName(bytes.len() - rest.len())
}

/// The bytes from the offset on.
pub(crate) fn behind(bytes: &[u8], offset: usize) -> &[u8]
    requires { offset ≤ length bytes.now }
    ensures { drop offset bytes.now ≡ result.now }
{
    &bytes[offset..]
}
