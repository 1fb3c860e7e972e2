//! Questions to the outside: a service, and what it is asked about.
ghost use Rattle.std.specs.Prelude.{◌≡◌};
ghost use Rattle.u_check.specs.Plain.{plain_of, value_of};
ghost use Rattle.u_check.specs.Questions.{question_for, operands_for};

use u_name::BlockName;
use u_value::Value;

/// A number or a truth value, which is all that is sent outside and comes from there.
#[derive(Clone, Copy, Debug, PartialEq, Eq, Hash)]
pub enum Plain {
    /// A number.
    Int(i64),
    /// A truth value.
    Bool(bool),
}

impl Plain {
    /// The value, where it is a number or a truth value.
    pub fn of(value: &Value) -> Option<Plain>
        ensures { result ≡ plain_of value.now }
    {
        match value {
            Value::Int(number) => Some(Plain::Int(*number)),
            Value::Bool(truth) => Some(Plain::Bool(*truth)),
            _ => None,
        }
    }

    /// It, as a value. It takes no memory.
    pub fn value(self) -> Value
        ensures { result ≡ value_of self }
    {
        match self {
            Plain::Int(number) => Value::Int(number),
            Plain::Bool(truth) => Value::Bool(truth),
        }
    }
}

/// One to four numbers and truth values.
#[derive(Clone, Copy, PartialEq, Eq, Hash)]
pub enum Operands {
    /// One.
    One(Plain),
    /// Two.
    Two(Plain, Plain),
    /// Three.
    Three(Plain, Plain, Plain),
    /// Four.
    Four(Plain, Plain, Plain, Plain),
}

impl Operands {
    /// The values, where they are one to four numbers and truth values.
    pub fn of(values: &[Value]) -> Option<Operands>
        ensures { result ≡ operands_for values.now }
    {
        match values {
            [a] => Some(Operands::One(Plain::of(a)?)),
            [a, b] => Some(Operands::Two(Plain::of(a)?, Plain::of(b)?)),
            [a, b, c] => Some(Operands::Three(Plain::of(a)?, Plain::of(b)?, Plain::of(c)?)),
            [a, b, c, d] => Some(Operands::Four(
                Plain::of(a)?,
                Plain::of(b)?,
                Plain::of(c)?,
                Plain::of(d)?,
            )),
            _ => None,
        }
    }
}

/// A service, and what it is asked about.
#[derive(Clone, Copy, PartialEq, Eq, Hash)]
pub struct Question {
    /// The name of the service.
    pub service: BlockName,
    /// What it is asked about.
    pub operands: Operands,
}

impl Question {
    /// The question of the service about these values, where they are one to four numbers and truth values.
    pub fn new(service: BlockName, values: &[Value]) -> Option<Question>
        ensures { result ≡ question_for service values.now }
    {
        let operands = Operands::of(values)?;
        Some(Question { service, operands })
    }
}
