//! The rule over a published list, and what each step of a seat does to what the seat knows.
ghost use Rattle.std.specs.Prelude.{◌≡◌, []};
ghost use Rattle.u_outlet.specs.Fronts.{StartsWith, StartsWithEach};

use crate::named::Named;
use crate::published::Published;
use atomic_table::{Join, Split};
use crossbeam_utils::rule::{Outcome, Protocol};
use left_right::reader::Reader;
use left_right::writer::Writer;
use u_rule::Firing;

/// The rule of a published list.
///
/// Promise each-knows-a-front: at every moment what is published begins with what each seat knows, so of what
/// two seats know one begins the other.
pub struct Grows;

impl<J: Named> Protocol<Published<J>, [Firing; 0]> for Grows {
    ghost holds = { StartsWithEach };

    ghost first = { [] };
}

/// A publication, or a look at what is published: the seat then knows the whole list, which begins with
/// what it knew.
pub struct Sees;

impl<J: Named> Outcome<Published<J>, [Firing; 0]> for Sees {
    ghost then = { λ before _ shown after. StartsWith shown before × (after ≡ shown) };
}

/// A reader is told all that the writer knows.
pub struct Tells;

impl Split<[Firing; 0]> for Tells {
    ghost left = { λ known. known };

    ghost right = { λ known. known };
}

impl Join<[Firing; 0]> for Tells {
    ghost both = { λ _ told. told };

    ghost spent = { [] };
}

/// The end of `left_right` that publishes.
pub type FiringWriter<J> = Writer<Published<J>, Published<J>, [Firing; 0], Grows>;

/// The end of `left_right` that reads.
pub type FiringReader<J> = Reader<Published<J>, [Firing; 0], Grows>;
