//! Operators on values.
//!
//! The kinds of the operands are tested before all else, so `div` of `true` and 0 gives `kind`. `rem` of
//! the least number by -1 overflows as `div` does, so both fault for the same operands.
ghost use Rattle.std.specs.Prelude.{◌≡◌, int_div, int_rem, MatchResult, OnOk, Ok, Err};
ghost use Rattle.u_value.specs.Division.{IsDivision};
ghost use Rattle.u_value.specs.Operators.{applied1, applied2, chosen, divided, number_or_overflow};
ghost use Rattle.u_value.specs.declared.value.Value.TheVariants as values;

use crate::fault_kind::FaultKind;
use crate::value::Value;

/// An operator with one operand.
#[derive(Clone, Copy, Debug, PartialEq, Eq)]
pub enum UnaryOperator {
    /// The other truth value.
    Not,
    /// The length of a structure, a number.
    Length,
}

/// An operator with two operands.
#[derive(Clone, Copy, Debug, PartialEq, Eq)]
pub enum BinaryOperator {
    /// Whether both of two truth values are true.
    And,
    /// Whether one of two truth values is true.
    Or,
    /// The sum of two numbers.
    Add,
    /// The first number less the second.
    Sub,
    /// The product of two numbers.
    Mul,
    /// The quotient of two numbers, cut toward zero.
    Div,
    /// What that quotient leaves of the first number. It has the first number's sign, or is 0.
    Rem,
    /// Whether the first number is below the second.
    Lt,
    /// Whether the first number is at most the second.
    Le,
    /// Whether two numbers are equal.
    Eq,
}

/// What the operator gives.
///
/// # Errors
/// `Kind` where the operator does not take an operand of that kind. There is no other error.
pub fn apply1(operator: UnaryOperator, a: &Value) -> Result<Value, FaultKind>
    ensures { result ≡ applied1 operator a.now }
{
    match (operator, a) {
        (UnaryOperator::Not, Value::Bool(truth)) => Ok(Value::Bool(!*truth)),
        (UnaryOperator::Length, Value::Ref(structure)) => {
            Ok(Value::Int(i64::from(structure.length())))
        }
        _ => Err(FaultKind::Kind),
    }
}

/// What the operator gives.
///
/// Promise operators: the result is the exact one over whole numbers, or the fault `Kind` before every other,
/// then `Zero`, then `Overflow`.
///
/// # Errors
/// `Kind` where the operator does not take operands of those kinds, whatever they are. Else
/// `Zero` where it divides by 0, and `Overflow` where its result is no signed number of 64 bits,
/// and for both `Div` and `Rem` of the least number by -1.
pub fn apply2(operator: BinaryOperator, a: &Value, b: &Value) -> Result<Value, FaultKind>
    ensures { result ≡ applied2 operator a.now b.now }
{
    match (a, b) {
        (Value::Int(a), Value::Int(b)) => apply_to_numbers(operator, *a, *b),
        (Value::Bool(a), Value::Bool(b)) => apply_to_truths(operator, *a, *b),
        _ => Err(FaultKind::Kind),
    }
}

/// The one of two values that the truth value chooses: the first where it is true.
///
/// # Errors
/// `Kind` where the control is no truth value.
pub fn select<'a>(control: &Value, a: &'a Value, b: &'a Value) -> Result<&'a Value, FaultKind>
    ensures { MatchResult result
        (λ v. chosen control.now a.now b.now ≡ Ok v.now)
        (λ k. chosen control.now a.now b.now ≡ Err k) }
{
    match control {
        Value::Bool(true) => Ok(a),
        Value::Bool(false) => Ok(b),
        _ => Err(FaultKind::Kind),
    }
}

/// What the operator gives of two numbers.
#[tactic(auto, using(crate::proofs::Ranges::fitting_number))]
fn apply_to_numbers(operator: BinaryOperator, a: i64, b: i64) -> Result<Value, FaultKind>
    ensures { result ≡ applied2 operator (values.Int a) (values.Int b) }
{
    match operator {
        BinaryOperator::Add => number_or_overflow(a.checked_add(b)),
        BinaryOperator::Sub => number_or_overflow(a.checked_sub(b)),
        BinaryOperator::Mul => number_or_overflow(a.checked_mul(b)),
        BinaryOperator::Div => quotient(a, b),
        BinaryOperator::Rem => remainder(a, b),
        BinaryOperator::Lt => Ok(Value::Bool(a < b)),
        BinaryOperator::Le => Ok(Value::Bool(a <= b)),
        BinaryOperator::Eq => Ok(Value::Bool(a == b)),
        BinaryOperator::And | BinaryOperator::Or => Err(FaultKind::Kind),
    }
}

/// What the operator gives of two truth values.
fn apply_to_truths(operator: BinaryOperator, a: bool, b: bool) -> Result<Value, FaultKind>
    ensures { result ≡ applied2 operator (values.Bool a) (values.Bool b) }
{
    match operator {
        BinaryOperator::And => Ok(Value::Bool(a && b)),
        BinaryOperator::Or => Ok(Value::Bool(a || b)),
        _ => Err(FaultKind::Kind),
    }
}

/// The number, or the fault where there is none in range.
fn number_or_overflow(number: Option<i64>) -> Result<Value, FaultKind>
    ensures { result ≡ number_or_overflow number }
{
    match number {
        Some(number) => Ok(Value::Int(number)),
        None => Err(FaultKind::Overflow),
    }
}

/// The quotient, cut toward zero.
#[tactic(auto, using(crate::proofs::Ranges::divided_by_zero, crate::proofs::Ranges::fitting_division, crate::proofs::Division::divides))]
fn quotient(a: i64, b: i64) -> Result<Value, FaultKind>
    ensures table { result ≡ divided a b (int_div a b) }
    ensures law { OnOk result (IsDivision a b (int_div a b) (int_rem a b)) }
{
    if b == 0 {
        return Err(FaultKind::Zero);
    }
    number_or_overflow(a.checked_div(b))
}

/// What the quotient leaves of the first number.
#[tactic(auto, using(crate::proofs::Ranges::divided_by_zero, crate::proofs::Ranges::fitting_division, crate::proofs::Division::divides))]
fn remainder(a: i64, b: i64) -> Result<Value, FaultKind>
    ensures table { result ≡ divided a b (int_rem a b) }
    ensures law { OnOk result (IsDivision a b (int_div a b) (int_rem a b)) }
{
    if b == 0 {
        return Err(FaultKind::Zero);
    }
    number_or_overflow(a.checked_rem(b))
}
