//! Frames: what the names of one block have in common in one context.
ghost use Rattle.std.specs.Prelude.{◌≡◌, ◌<◌, [], OnOk, OnErr, IfOk, IfSome, IfNone, Contains, length, slice_get, Some};
ghost use Rattle.u_base.specs.Firing.{Distinct};
ghost use Rattle.u_sets.specs.Members.{GoesLast};
ghost use Rattle.u_name.specs.Context.{IsBetween};
ghost use Rattle.u_names.specs.Frames.{frame_key, frame_of};
ghost use Rattle.u_names.specs.Places.{place};
ghost use Rattle.u_names.specs.NameLists.{name_at};

use crate::contexts::Contexts;
use std::alloc::{AllocError, Global};
use std::marker::Model;
use u_name::{BlockName, Name};
use u_sets::PlacedSet;

/// A block in a context that has a number: that number, and the block.
#[derive(PartialEq, Eq, PartialOrd, Ord, Hash, Drop)]
pub(crate) struct Frame {
    context: u32,
    block: BlockName,
}

impl Model for Frame {
    ghost use Rattle.u_names.specs.Frames.{FrameKey, frame_key, frame_key_code};

    ghost Value = { FrameKey };

    ghost coded = { frame_key_code };

    ghost view = { λ f. frame_key f.context f.block };

    ghost inverse = { λ f. record { context = f.context; block = f.block } };
}

impl Frame {
    /// The frame of the name, whose context has that number.
    fn of(context: u32, name: &Name) -> Frame
        ensures { result ≡ frame_key context name.now.block }
    {
        Frame {
            context,
            block: *name.block(),
        }
    }
}

/// Distinct frames. The number of a frame is its place, counted from 0, which it keeps. Contracts see
/// the list of the frames.
#[derive(Drop)]
pub(crate) struct Frames {
    contexts: Contexts,
    frames: PlacedSet<Frame>,
    /// The number that was asked for last, which is looked at first.
    last: usize,
}

impl Model for Frames {
    ghost use Rattle.std.specs.Prelude.{List};
    ghost use Rattle.u_names.specs.Frames.{FrameParts, frames_code, frames_at, AreFrames};

    ghost Value = { List FrameParts };

    ghost coded = { frames_code };

    ghost view = { λ f. frames_at f.contexts f.frames };

    ghost invariant = { λ f. AreFrames f.contexts f.frames };
}

impl Frames {
    /// No frames. It takes no memory.
    pub(crate) fn new(alloc: Global) -> Frames
        ensures { result ≡ [] }
    {
        Frames {
            contexts: Contexts::new(alloc),
            frames: PlacedSet::new(alloc),
            last: 0,
        }
    }

    /// The number that was asked for last, if it is that of the name's frame.
    fn last_of(&self, name: &Name) -> Option<usize>
        ensures { IfSome result (λ i. slice_get self.now i ≡ Some (frame_of name.now)) }
    {
        let frame = self.frames.get(self.last)?;
        if frame.block != *name.block() {
            return None;
        }
        let context = self.contexts.get(frame.context)?;
        if context == name.context() {
            return Some(self.last);
        }
        None
    }

    /// The number of the name's frame. A frame that is new goes last.
    ///
    /// # Errors
    /// `AllocError` where there is no memory, or where 2^32 contexts have numbers already; the frames
    /// stay as they were.
    pub(crate) fn number_of(&mut self, name: &Name) -> Result<usize, AllocError>
        ensures number { IfOk result (λ i. slice_get self.new i ≡ Some (frame_of name.now)) }
        ensures ok { OnOk result (GoesLast self.old (frame_of name.now) self.new) }
        ensures err { OnErr result (self.new ≡ self.old) }
        ensures distinct { Distinct self.new }
    {
        if let Some(last) = self.last_of(name) {
            return Ok(last);
        }
        let context = self.contexts.number_of(name.context())?;
        let (number, _) = self.frames.insert(Frame::of(context, name))?;
        self.last = number;
        Ok(number)
    }

    /// The number of the name's frame, if it is there. It takes no memory.
    pub(crate) fn find(&self, name: &Name) -> Option<usize>
        ensures number { IfSome result (λ i. slice_get self.now i ≡ Some (frame_of name.now)) }
        ensures none { IfNone result (Contains self.now (frame_of name.now) → ⊥) }
    {
        if let Some(last) = self.last_of(name) {
            return Some(last);
        }
        let context = self.contexts.find(name.context())?;
        self.frames.place_of(&Frame::of(context, name))
    }

    /// The name with that statement and initiation in the frame that has that number.
    ///
    /// # Errors
    /// `AllocError` where so many share the context already, 2^63, that no copy can be made.
    pub(crate) fn name(
        &self,
        number: usize,
        statement: u16,
        initiation: u64,
    ) -> Result<Name, AllocError>
        requires there { number < length self.now }
        requires statement_in { IsBetween 1 statement 999 }
        requires initiation_in { IsBetween 1 initiation 18446744073709551615 }
        ensures { IfOk result (λ n. n ≡ name_at self.now (place number statement initiation)) }
    {
        let Some(frame) = self.frames.get(number) else {
            unreachable!()
        };
        let Some(context) = self.contexts.get(frame.context) else {
            unreachable!()
        };
        let name = Name::new(context.copy()?, frame.block, statement, initiation);
        Ok(name)
    }
}
