//! Why a member reads no more.

/// Why a member reads no more.
#[derive(Clone, Copy, PartialEq, Eq, Debug)]
pub enum Ended {
    /// Nothing is ready.
    Quiet,
    /// The input ended.
    Input,
}
