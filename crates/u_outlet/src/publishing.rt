//! The end that publishes.
//!
//! `notice` is a call of its own: it needs a reader's place, which may be missing, and that is no reason
//! for a publication to fail. A firing moves into the second copy of the list, so it is copied twice and
//! not three times.
ghost use Rattle.std.specs.Prelude.{◌≡◌, ◌≤◌, ◌<◌, ◌^◌, ◌++◌, [], IfSome, All, drop, MatchResult, IfOk, OnErr, OnOk};
ghost use Rattle.left_right.specs.Sides.{view};
ghost use Rattle.u_outlet.specs.Fronts.{joined};
ghost use Rattle.u_outlet.specs.Ends.{published, pending, seen_by, told_by};
ghost use Rattle.u_outlet.specs.Writing.{shown, unshown};
ghost use Rattle.u_outlet.specs.Sound.{IsSound};

use crate::ends::{Inlet, Notice, Outlet, OutletOf};
use crate::named::Named;
use crate::published::Published;
use crate::rule::{FiringWriter, Grows, Sees, Tells};
use core::mem::replace_with;
use left_right::writer::Writer;
use std::alloc::{AllocError, Global};
use std::sync::Wait;
use u_rule::Firing;

/// Publishes all that was appended to the writer.
fn show<J: Named, R: Wait>(
    writer: FiringWriter<J>,
    rt: &R,
) -> (FiringWriter<J>, Result<(), AllocError>)
    requires { view writer.desk.place ≡ shown writer }
    ensures ok { OnOk result.1
        ((shown result.0 ≡ shown writer ++ unshown writer) × (unshown result.0 ≡ [])) }
    ensures err { OnErr result.1
        ((shown result.0 ≡ shown writer) × (unshown result.0 ≡ unshown writer)) }
    ensures level { view result.0.desk.place ≡ shown result.0 }
{
    writer.publish_as::<Sees, R>(rt)
}

/// Appends a batch to what the writer publishes next.
fn add<J: Named>(writer: &mut FiringWriter<J>, batch: Published<J>) -> Result<(), AllocError>
    ensures desk { writer.new.desk ≡ writer.old.desk }
    ensures unshown { MatchResult result
        (λ _. unshown writer.new ≡ unshown writer.old ++ batch)
        (λ _. unshown writer.new ≡ unshown writer.old) }
{
    match writer.append(batch) {
        Ok(()) => Ok(()),
        Err(_) => Err(AllocError),
    }
}

impl<J: Named> OutletOf<Published<J>, Published<J>, [Firing; 0], Grows> {
    /// An outlet with nothing published and nothing pending, and with places for so many readers, 1 to
    /// 2^32 - 1.
    ///
    /// # Errors
    /// `AllocError` where there is no memory; nothing is left open.
    pub fn new(alloc: Global, readers: usize) -> Result<Outlet<J>, AllocError>
        requires { (0 < readers) × (readers < 2 ^ 32) }
        ensures { IfOk result (λ o. (published o ≡ []) × (pending o ≡ [])) }
    {
        let writer = Writer::new(alloc, Published::new(alloc), Published::new(alloc), readers)?;
        Ok(OutletOf { writer, alloc })
    }

    /// Appends copies of sound firings of the job to what is pending.
    ///
    /// Promise put: what is pending gets the copies at its end, and what is published stays.
    ///
    /// # Errors
    /// `AllocError` where there is no memory; what is pending is as before.
    pub fn put(&mut self, firings: &[Firing]) -> Result<(), AllocError>
        requires { All (IsSound J.job) firings.now }
        ensures published { published self.new ≡ published self.old }
        ensures pending { MatchResult result
            (λ _. pending self.new ≡ pending self.old ++ firings.now)
            (λ _. pending self.new ≡ pending self.old) }
    {
        let batch = Published::of(self.alloc, firings)?;
        add(&mut self.writer, batch)
    }

    /// Publishes all that is pending, in its order. It may wait for readers, where nothing is pending too.
    ///
    /// Promise publish: all that was pending is published after what was published, in one step, and nothing
    /// is pending then.
    ///
    /// # Errors
    /// `AllocError` where there is no memory; nothing is published, and all stays pending.
    pub fn publish<R: Wait>(&mut self, rt: &R) -> Result<(), AllocError>
        ensures ok { OnOk result
            ((published self.new ≡ published self.old ++ pending self.old)
            × (pending self.new ≡ [])) }
        ensures err { OnErr result
            ((published self.new ≡ published self.old) × (pending self.new ≡ pending self.old)) }
    {
        replace_with(&mut self.writer, rt, show)
    }

    /// What is published.
    pub fn published(&self) -> &Published<J>
        ensures { result.now ≡ published self.now }
    {
        self.writer.published()
    }

    /// A further inlet, which has seen nothing. `None` is returned where each place for a reader is
    /// taken.
    pub fn inlet(&self) -> Option<Inlet<J>>
        ensures { IfSome result (λ i. seen_by i ≡ []) }
    {
        let reader = self.writer.factory().reader().ok()?;
        Some(Inlet::over(reader, self.alloc))
    }

    /// A notice of all that is published, for an inlet of this outlet to learn. It has a reader's place
    /// until it is learnt or dropped. `None` is returned where each place is taken.
    pub fn notice(&mut self) -> Option<Notice<J>>
        ensures notice { IfSome result (λ n. told_by n ≡ published self.old) }
        ensures published { published self.new ≡ published self.old }
        ensures pending { pending self.new ≡ pending self.old }
    {
        let count = self.writer.published().len();
        let mut reader = self.writer.factory().reader().ok()?;
        reader.learn::<Tells>(self.writer.tell::<Tells>());
        Some(Notice::over(reader, count))
    }

    /// Ends the outlet. It may wait for readers. What is pending is dropped. What its inlets saw stays
    /// so, and a later pull may return `NoReading`.
    pub fn close<R: Wait>(self, rt: &R) {
        let Self { writer, alloc: _ } = self;
        writer.take(rt);
    }

    /// Ends the outlet as `close` does.
    ///
    /// Promise close-into: exactly what was published is returned.
    pub fn close_into<R: Wait>(self, rt: &R) -> Published<J>
        ensures { result ≡ published self }
    {
        let Self { writer, alloc: _ } = self;
        Box::into_inner(writer.take(rt))
    }
}
