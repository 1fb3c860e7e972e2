//! The parts of a firing are in their ranges.
//!
//! Whatever is in memory is: the types of its parts allow nothing else. These functions do
//! nothing but to say so, in a clause that their callers go on from.
ghost use Rattle.std.specs.List.{AllByRecursion};
ghost use Rattle.u_name.specs.Name.{IsName};
ghost use Rattle.u_rule.specs.FiringReading.{AreValues, IsFiring, IsWritten};
ghost use Rattle.u_value.specs.Reading.{IsValue};

use u_name::Name;
use u_rule::{Firing, SharedWritten};
use u_value::Value;

/// The parts of the name are in their ranges.
fn name_in_range(name: &Name)
    ensures { IsName name.now }
{
    let _ = name.statement();
}

/// The parts of the value are in their ranges.
fn value_in_range(value: &Value)
    ensures { IsValue value.now }
{
    match value {
        Value::Int(number) => {
            let _number = *number;
        }
        Value::Bool(_) => {}
        Value::Proc(procedure) => {
            let _ = procedure.block().as_bytes();
        }
        Value::Ref(reference) => {
            let _ = reference.length();
            name_in_range(reference.name());
        }
    }
}

/// The parts of each value are in their ranges.
#[tactic(auto, using(crate::proofs::InRange::values_more))]
fn values_in_range(values: &[Value])
    ensures { AreValues values.now }
{
    for value in values {
        value_in_range(value);
    }
}

/// The parts of the write, if there is one, are in their ranges.
fn written_in_range(write: &Option<SharedWritten>)
    ensures { IsWritten write.now }
{
    if let Some(write) = write {
        let written = write.get();
        name_in_range(&written.writer);
        value_in_range(&written.value);
    }
}

/// The parts of the firing are in their ranges. It does nothing.
pub fn in_range(firing: &Firing)
    ensures { IsFiring firing.now }
{
    name_in_range(&firing.activity);
    values_in_range(firing.values.as_slice());
    written_in_range(&firing.write);
}

/// The parts of each firing are in their ranges. It does nothing.
#[tactic(auto, using(crate::proofs::InRange::firings_more))]
pub fn all_in_range(firings: &[Firing])
    ensures { AllByRecursion IsFiring firings.now }
{
    for firing in firings {
        in_range(firing);
    }
}
