//! Ports tie with nothing but themselves.
ghost use Rattle.u_history.specs.ExactPorts.{port_ties};

use crate::clash::Port;
use u_base::ExactOrd;

impl ExactOrd for Port {
    ghost exact = { port_ties };
}
