//! Keys of contexts, frames, places and spots tie with nothing but themselves.
ghost use Rattle.u_names.specs.ExactOrders.{key_ties, frame_ties, place_ties, spot_ties};

use crate::context_keys::ContextKey;
use crate::frames::Frame;
use crate::places::NamePlace;
use crate::spots::Spot;
use u_base::ExactOrd;

impl ExactOrd for ContextKey {
    ghost exact = { key_ties };
}

impl ExactOrd for Frame {
    ghost exact = { frame_ties };
}

impl ExactOrd for NamePlace {
    ghost exact = { place_ties };
}

impl ExactOrd for Spot {
    ghost exact = { spot_ties };
}
