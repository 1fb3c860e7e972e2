//! Outlets are closed.
ghost use Rattle.std.specs.Prelude.{◌≡◌, ◌≤◌, [], map, vec_len, vec_capacity};
ghost use Rattle.u_fleet.specs.Fleets.{list_of, end_of};

use crate::plan::End;
use crate::worker::Pair;
use std::sync::Wait;
use u_delta::Firings;
use u_outlet::Named;

/// What the workers of a fleet left, in their order.
#[derive(Drop)]
pub struct Ended {
    /// What each worker published.
    pub published: Vec<Firings>,
    /// How each worker ended.
    pub ends: Vec<End>,
}

/// Closes each outlet, and returns what was published and how the workers ended. It may wait for
/// readers, and takes no memory: `ended` is empty, and its lists have room for each pair.
#[tactic(auto, using(crate::proofs::Moving::moved))]
pub fn close_all<J: Named, R: Wait>(rt: &R, mut pairs: Vec<Pair<J>>, mut ended: Ended) -> Ended
    requires empty { (ended.published.items ≡ []) × (ended.ends.items ≡ []) }
    requires published_room { vec_len pairs ≤ vec_capacity ended.published }
    requires ends_room { vec_len pairs ≤ vec_capacity ended.ends }
    ensures published { result.published.items ≡ map list_of pairs.items }
    ensures ends { result.ends.items ≡ map end_of pairs.items }
{
    while let Some((outlet, worker)) = pairs.pop() {
        let list = outlet.close_into(rt);
        ended.published.push_reserved(Firings::new(list.into_vec()));
        ended.ends.push_reserved(worker.end);
    }
    pairs.destroy_empty();
    ended.published.as_mut_slice().reverse();
    ended.ends.as_mut_slice().reverse();
    ended
}

/// Closes each outlet of workers that never ran.
pub fn close_unused<J: Named, R: Wait>(rt: &R, mut pairs: Vec<Pair<J>>) {
    while let Some((outlet, _worker)) = pairs.pop() {
        outlet.close(rt);
    }
    pairs.destroy_empty();
}
