//! A value with a place, for each of some numbers.
ghost use Rattle.std.specs.Prelude.{◌≡◌, ◌<◌, ℕ, OnOk, OnErr, IfSome, IfNone, Some, None, length};
ghost use Rattle.u_trace.specs.Firsts.{first_in, value_eq};

use std::alloc::{AllocError, Global};
use u_value::Value;

/// A value with a place.
#[derive(Drop)]
pub(crate) struct ValueAt {
    /// The value.
    pub(crate) value: Value,
    /// The place.
    pub(crate) place: usize,
}

impl ValueAt {
    /// Whether that is the value.
    pub(crate) fn is_of(&self, value: &Value) -> bool
        ensures { result ≡ value_eq self.now.value value.now }
    {
        self.value == *value
    }
}

/// A value with a place for each of some numbers. They stand in a list, so that nothing is looked for.
#[derive(Drop)]
pub(crate) struct Firsts {
    slots: Vec<Option<ValueAt>>,
}

impl Firsts {
    /// No number has a value. It takes no memory.
    pub(crate) fn new(alloc: Global) -> Firsts
        ensures { (n : ℕ) → first_in result n ≡ None }
    {
        Firsts {
            slots: Vec::new(alloc),
        }
    }

    /// The value of the number with its place, if it has one.
    pub(crate) fn at(&self, number: usize) -> Option<&ValueAt>
        ensures some { IfSome result (λ p. first_in self.now number ≡ Some p.now) }
        ensures none { IfNone result (first_in self.now number ≡ None) }
    {
        let slot = self.slots.get(number)?;
        slot.as_ref()
    }

    /// Adds empty slots, until the number has one.
    fn reach(&mut self, number: usize) -> Result<(), AllocError>
        ensures same { (n : ℕ) → first_in self.new n ≡ first_in self.old n }
        ensures ok { OnOk result (number < length self.new.slots.items) }
    {
        while self.slots.len() <= number {
            self.slots.push(None)?;
        }
        Ok(())
    }

    /// Gives the number that value and place.
    ///
    /// # Errors
    /// `AllocError` where there is no memory; all numbers have what they had.
    pub(crate) fn put(&mut self, number: usize, placed: ValueAt) -> Result<(), AllocError>
        ensures here { OnOk result (first_in self.new number ≡ Some placed) }
        ensures others { OnOk result
            ((n : ℕ) → (number ≡ n → ⊥) → first_in self.new n ≡ first_in self.old n) }
        ensures err { OnErr result ((n : ℕ) → first_in self.new n ≡ first_in self.old n) }
    {
        self.reach(number)?;
        self.slots[number] = Some(placed);
        Ok(())
    }
}
