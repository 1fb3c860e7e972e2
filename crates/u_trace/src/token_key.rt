//! What a token is where activities have numbers.
use u_value::Value;

/// A token whose activity has a number.
#[derive(PartialEq, Eq, PartialOrd, Ord, Hash, Drop)]
pub(crate) struct TokenKey {
    /// The number of the activity.
    pub(crate) activity: usize,
    /// The port.
    pub(crate) port: u8,
    /// The value at the port.
    pub(crate) value: Value,
}
