//! One look of a reader at what is published.
ghost use Rattle.std.specs.Prelude.{◌≡◌, All, drop, length, IfOk, IfErr};
ghost use Rattle.left_right.specs.Sides.{view};
ghost use Rattle.u_outlet.specs.Fronts.{StartsWith};
ghost use Rattle.u_outlet.specs.Sound.{IsSound};

use crate::answer::PullFault;
use crate::named::Named;
use crate::published::Published;
use crate::rule::{FiringReader, Sees};
use std::alloc::Global;
use u_rule::Firing;

/// From which place on firings are wanted, and how many the reader saw before.
pub struct Pull {
    pub alloc: Global,
    pub place: usize,
    pub count: usize,
}

/// How many firings the reader has seen, and those that are wanted.
pub type Pulled = (usize, Result<Vec<Firing>, PullFault>);

/// Looks once.
pub fn read<J: Named>(reader: FiringReader<J>, pull: Pull) -> (FiringReader<J>, Pulled)
    requires { length (view reader.place) ≡ pull.count }
    ensures later { StartsWith (view result.0.place) (view reader.place) }
    ensures count { result.1.0 ≡ length (view result.0.place) }
    ensures firings { IfOk result.1.1 (λ v. v.items ≡ drop pull.place (view result.0.place)) }
    ensures sound { IfOk result.1.1 (λ v. All (IsSound J.job) v.items) }
    ensures unread { IfErr result.1.1
        (λ e. e ≡ PullFault.NoReading → view result.0.place ≡ view reader.place) }
{
    let Pull {
        alloc,
        place,
        count,
    } = pull;
    match reader.enter_as::<Sees>() {
        Ok(reading) => {
            let all: &Published<J> = reading.get();
            let count = all.len();
            let copies = all.copy_from(alloc, place);
            let reader = reading.leave();
            match copies {
                Ok(copies) => (reader, (count, Ok(copies))),
                Err(_) => (reader, (count, Err(PullFault::NoMemory))),
            }
        }
        Err(reader) => (reader, (count, Err(PullFault::NoReading))),
    }
}
