//! Values and fault kinds tie with nothing but themselves.
ghost use Rattle.u_value.specs.ExactOrders.{derived_value_ties, derived_fault_kind_ties};

use crate::fault_kind::FaultKind;
use crate::value::Value;
use u_base::ExactOrd;

impl ExactOrd for Value {
    ghost exact = { derived_value_ties };
}

impl ExactOrd for FaultKind {
    ghost exact = { derived_fault_kind_ties };
}
