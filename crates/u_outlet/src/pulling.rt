//! What an inlet shows, and learns by a notice.
//!
//! `learn` takes the notice by value. A notice is a reader, and if it knows more than the inlet, the inlet
//! goes on with it and drops its own. So a notice has a reader's place until it is learnt or dropped.
ghost use Rattle.std.specs.Prelude.{◌≡◌, [], All, drop, length, IfOk, IfErr};
ghost use Rattle.left_right.specs.Sides.{view};
ghost use Rattle.u_outlet.specs.Fronts.{StartsWith, longer};
ghost use Rattle.u_outlet.specs.Ends.{seen_by, told_by};
ghost use Rattle.u_outlet.specs.Sound.{IsSound};

use crate::answer::PullFault;
use crate::ends::{Inlet, Notice};
use crate::named::Named;
use crate::reading::{Pull, read};
use crate::rule::FiringReader;
use core::mem::replace_with;
use std::alloc::Global;
use u_rule::Firing;

impl<J: Named> Inlet<J> {
    pub(crate) fn over(reader: FiringReader<J>, alloc: Global) -> Inlet<J>
        requires { view reader.place ≡ [] }
        ensures { result.reader ≡ reader }
    {
        Inlet {
            reader,
            count: 0,
            alloc,
        }
    }

    /// How many firings the inlet has seen or learnt of.
    pub fn seen(&self) -> usize
        ensures { result ≡ length (seen_by self.now) }
    {
        self.count
    }

    /// Copies of the published firings from a place on, counted from 0; none where there are no more.
    ///
    /// Promise pull: the firings are those from the place on of all that the inlet has seen then, which
    /// begins with what it had seen or learnt of.
    ///
    /// # Errors
    /// `NoReading` where the outlet gives no reading, since it is closed; the inlet has seen no more
    /// than before. `NoMemory` where there is no memory.
    pub fn pull(&mut self, place: usize) -> Result<Vec<Firing>, PullFault>
        ensures later { StartsWith (seen_by self.new) (seen_by self.old) }
        ensures firings { IfOk result (λ v. v.items ≡ drop place (seen_by self.new)) }
        ensures sound { IfOk result (λ v. All (IsSound J.job) v.items) }
        ensures unread { IfErr result
            (λ e. e ≡ PullFault.NoReading → seen_by self.new ≡ seen_by self.old) }
    {
        let pull = Pull {
            alloc: self.alloc,
            place,
            count: self.count,
        };
        let (count, copies) = replace_with(&mut self.reader, pull, read);
        self.count = count;
        copies
    }

    /// Takes what the notice tells as seen. It is meant for a notice of this inlet's outlet: then later pulls
    /// show all that the notice tells.
    ///
    /// Promise learn: the inlet has seen then the longer of what it had seen and what the notice tells.
    pub fn learn(&mut self, notice: Notice<J>)
        ensures { seen_by self.new ≡ longer (seen_by self.old) (told_by notice) }
    {
        if self.count < notice.count {
            let Notice { reader, count } = notice;
            self.reader = reader;
            self.count = count;
        }
    }
}

impl<J: Named> Notice<J> {
    pub(crate) fn over(reader: FiringReader<J>, count: usize) -> Notice<J>
        requires { length (view reader.place) ≡ count }
        ensures { result.reader ≡ reader }
    {
        Notice { reader, count }
    }
}
