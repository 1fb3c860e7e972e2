//! Names and cells tie with nothing but themselves.
ghost use Rattle.u_name.specs.NameOrder.{name_cmp_ties};
ghost use Rattle.u_name.specs.ExactOrders.{cell_cmp_ties};

use crate::cell::Cell;
use crate::name::Name;
use u_base::ExactOrd;

impl ExactOrd for Name {
    ghost exact = { name_cmp_ties };
}

impl ExactOrd for Cell {
    ghost exact = { cell_cmp_ties };
}
