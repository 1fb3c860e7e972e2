//! Values and operators.
#![tactic(auto)]

mod exact;
mod fault_kind;
mod operators;
mod procedure;
mod reading;
mod reference;
mod value;

pub use fault_kind::FaultKind;
pub use operators::{BinaryOperator, UnaryOperator, apply1, apply2, select};
pub use procedure::Procedure;
pub use reading::{ValueTextError, front_value};
pub use reference::Reference;
pub use value::Value;
