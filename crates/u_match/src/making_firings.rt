//! Firings that are made of an activity and values.
ghost use Rattle.std.specs.Prelude.{◌≡◌, [], ◌∷◌, IfOk, Some, None};
ghost use Rattle.u_rule.specs.EntryOrder.{firing};
ghost use Rattle.u_rule.specs.Parts.{IsValueList};

use std::alloc::{AllocError, Global};
use u_rule::{Firing, NameRef, SharedWritten, Values, Written};
use u_value::Value;

/// The firing of one value.
pub(crate) fn of_one(
    alloc: Global,
    activity: &NameRef<'_>,
    first: &Value,
) -> Result<Firing, AllocError>
    ensures { IfOk result (λ f. f ≡ firing activity.now (first.now ∷ []) None) }
{
    Ok(Firing {
        activity: activity.name()?,
        values: Values::one(alloc, first.copy()?)?,
        write: None,
    })
}

/// The firing of two values.
pub(crate) fn of_two(
    alloc: Global,
    activity: &NameRef<'_>,
    first: &Value,
    second: &Value,
) -> Result<Firing, AllocError>
    ensures { IfOk result (λ f. f ≡ firing activity.now (first.now ∷ second.now ∷ []) None) }
{
    Ok(Firing {
        activity: activity.name()?,
        values: Values::two(alloc, first.copy()?, second.copy()?)?,
        write: None,
    })
}

/// The firing of the values, one for each port.
pub(crate) fn of_values(
    alloc: Global,
    activity: &NameRef<'_>,
    values: &[Value],
) -> Result<Firing, AllocError>
    requires { IsValueList values.now }
    ensures { IfOk result (λ f. f ≡ firing activity.now values.now None) }
{
    let values = Values::of(alloc, values)?;
    Ok(Firing {
        activity: activity.name()?,
        values,
        write: None,
    })
}

/// The firing of two values that reads a write.
pub(crate) fn of_read(
    alloc: Global,
    activity: &NameRef<'_>,
    first: &Value,
    second: &Value,
    by: &Written,
) -> Result<Firing, AllocError>
    ensures { IfOk result
        (λ f. f ≡ firing activity.now (first.now ∷ second.now ∷ []) (Some by.now)) }
{
    let by = SharedWritten::new(alloc, by.copy()?)?;
    Ok(Firing {
        activity: activity.name()?,
        values: Values::two(alloc, first.copy()?, second.copy()?)?,
        write: Some(by),
    })
}
