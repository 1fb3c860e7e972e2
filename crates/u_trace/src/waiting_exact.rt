//! What waits ties with nothing but itself.
ghost use Rattle.u_trace.specs.ExactOrders.{waiting_ties, read_ties};

use crate::activities::WaitingActivity;
use crate::reads::DeferredRead;
use u_base::ExactOrd;

impl ExactOrd for WaitingActivity {
    ghost exact = { waiting_ties };
}

impl ExactOrd for DeferredRead {
    ghost exact = { read_ties };
}
