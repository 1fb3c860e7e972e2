//! Entries, firings and their parts tie with nothing but themselves.
ghost use Rattle.u_rule.specs.ExactOrders.{fault_ties, entry_cmp_ties, firing_cmp_ties};
ghost use Rattle.u_rule.specs.WrittenOrder.{written_order_ties};

use crate::entry::Entry;
use crate::firing::Firing;
use crate::parts::{Fault, Written};
use u_base::ExactOrd;

impl ExactOrd for Fault {
    ghost exact = { fault_ties };
}

impl ExactOrd for Entry {
    ghost exact = { entry_cmp_ties };
}

impl ExactOrd for Written {
    ghost exact = { written_order_ties };
}

impl ExactOrd for Firing {
    ghost exact = { firing_cmp_ties };
}
