//! The ends of a published list.
ghost use Rattle.std.specs.Prelude.{◌≡◌, length};
ghost use Rattle.left_right.specs.Sides.{view};

use crate::named::Named;
use crate::published::Published;
use crate::rule::{FiringReader, Grows};
use crossbeam_utils::rule::Protocol;
use left_right::Absorb;
use left_right::writer::Writer;
use std::alloc::Global;
use u_rule::Firing;

/// The end that publishes, over any list. It is not `Drop`: end it by `close` or `close_into`.
pub struct OutletOf<T: Absorb<O, State = V> + Drop, O: Drop, V, P: Protocol<T, V>> {
    pub writer: Writer<T, O, V, P>,
    pub(crate) alloc: Global,
    ghost level: { view writer.desk.place ≡ T.state writer.desk.shown.value },
}

/// Publishes sound firings of a job. It is not `Drop`: end it by `close` or `close_into`.
pub type Outlet<J> = OutletOf<Published<J>, Published<J>, [Firing; 0], Grows>;

/// Shows what an outlet published. It takes no lock and waits for nobody.
#[derive(Drop)]
pub struct Inlet<J: Named> {
    pub reader: FiringReader<J>,
    pub(crate) count: usize,
    pub(crate) alloc: Global,
    ghost counted: { length (view reader.place) ≡ count },
}

/// What an outlet had published once. It may cross threads.
#[derive(Drop)]
pub struct Notice<J: Named> {
    pub reader: FiringReader<J>,
    pub(crate) count: usize,
    ghost counted: { length (view reader.place) ≡ count },
}
