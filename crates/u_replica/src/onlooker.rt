//! Who looks on while a replica starts again.
use u_machine::Machine;

/// Is shown from time to time how far a machine has come that takes the firings of a checkpoint. It gives nothing
/// back, so nothing is done otherwise for being looked at.
pub trait Onlooker {
    /// Is shown the machine.
    fn see(&mut self, machine: &Machine<'_>);
}

/// Sees nothing.
#[derive(Drop)]
pub struct Nobody;

impl Onlooker for Nobody {
    fn see(&mut self, _machine: &Machine<'_>) {}
}
