//! The values of a firing.
ghost use Rattle.std.specs.Prelude.{◌≡◌, ◌≤◌, [], ◌∷◌, IfOk, length};
ghost use Rattle.std.proofs.Common.{rules};
ghost use Rattle.std.specs.Cmp.{partial_order_from_own_ties};
ghost use Rattle.std.specs.Cmp.Rules.{comparing};
ghost use Rattle.std.specs.Ordering.{eq_by_cmp, as_partial_cmp};
ghost use Rattle.std.proofs.lemmas.Cmp.{eq_by_cmp_equiv};
ghost use Rattle.u_rule.specs.Parts.{IsValueList};
ghost use Rattle.u_rule.specs.ValuesOrder.{values_order, values_order_total, values_hash, values_hash_alike};

use std::alloc::{AllocError, Global};
use std::cmp::Ordering;
use std::hash::{Hash, Hasher};
use std::marker::Model;
use std::sync::Arc;
use u_value::Value;

/// The values at an activity's ports, in the order of the ports: one at least, and as many as an activity
/// has ports at most. Contracts see a list. Lists are ordered value by value, and a list comes before those
/// that go on behind it. One value or two take no memory of their own, and copies of more share them.
#[derive(Drop)]
pub struct Values {
    held: Held,
}

/// One value or two in their places, or a way to more.
#[derive(Drop)]
enum Held {
    One([Value; 1]),
    Two([Value; 2]),
    More(Arc<Vec<Value>, Global>),
}

impl Model for Values {
    ghost use Rattle.u_rule.specs.Parts.{ValueList, value_list_code, IsValueList};

    ghost Value = { ValueList };

    ghost coded = { value_list_code };

    ghost use Rattle.u_rule.specs.HeldValues.{values_held};

    ghost view = { λ v. values_held v.held };

    ghost invariant = { λ v. IsValueList (values_held v.held) };
}

/// Copies of the values.
fn copies(alloc: Global, values: &[Value]) -> Result<Vec<Value>, AllocError>
    ensures { IfOk result (λ v. v.items ≡ values.now) }
{
    let mut list = Vec::new(alloc);
    list.reserve_exact(values.len())?;
    for value in values {
        list.push(value.copy()?)?;
    }
    Ok(list)
}

impl Values {
    /// One value.
    ///
    /// # Errors
    /// `AllocError` where there is no memory.
    pub fn one(_: Global, first: Value) -> Result<Values, AllocError>
        ensures { IfOk result (λ v. v ≡ first ∷ []) }
    {
        Ok(Values {
            held: Held::One([first]),
        })
    }

    /// Two values.
    ///
    /// # Errors
    /// `AllocError` where there is no memory.
    pub fn two(_: Global, first: Value, second: Value) -> Result<Values, AllocError>
        ensures { IfOk result (λ v. v ≡ first ∷ second ∷ []) }
    {
        Ok(Values {
            held: Held::Two([first, second]),
        })
    }

    /// These values, as they are.
    fn more(alloc: Global, values: Vec<Value>) -> Result<Values, AllocError>
        requires { IsValueList values.items }
        ensures { IfOk result (λ v. v ≡ values.items) }
    {
        let more = Arc::new(alloc, values)?;
        Ok(Values {
            held: Held::More(more),
        })
    }

    /// Copies of these values: one at least, and as many as an activity has ports at most.
    ///
    /// # Errors
    /// `AllocError` where there is no memory.
    pub fn of(alloc: Global, values: &[Value]) -> Result<Values, AllocError>
        requires { IsValueList values.now }
        ensures { IfOk result (λ v. v ≡ values.now) }
    {
        match values {
            [only] => Values::one(alloc, only.copy()?),
            [first, second] => Values::two(alloc, first.copy()?, second.copy()?),
            _ => Values::more(alloc, copies(alloc, values)?),
        }
    }

    /// The values, in the order of the ports.
    pub fn as_slice(&self) -> &[Value]
        ensures values { result.now ≡ self.now }
        ensures count { IsValueList self.now }
    {
        match &self.held {
            Held::One(one) => &one[..],
            Held::Two(two) => &two[..],
            Held::More(more) => &more[..],
        }
    }

    /// The order of the two lists. Of one value each, no list is gone through.
    #[tactic(auto, using(u_name::proofs::PathOrder::then_equal))]
    fn compare(&self, other: &Values) -> Ordering
        ensures { result ≡ values_order self.now other.now }
    {
        if let (Held::One([left]), Held::One([right])) = (&self.held, &other.held) {
            return left.cmp(right);
        }
        self.as_slice().cmp(other.as_slice())
    }

    /// An equal list. Three values and more are shared.
    ///
    /// # Errors
    /// `AllocError` where there is no memory.
    pub fn copy(&self, _: Global) -> Result<Values, AllocError>
        ensures { IfOk result (λ v. v ≡ self.now) }
    {
        let held = match &self.held {
            Held::One([only]) => Held::One([only.copy()?]),
            Held::Two([first, second]) => Held::Two([first.copy()?, second.copy()?]),
            Held::More(more) => Held::More(Arc::try_clone(more)?),
        };
        Ok(Values { held })
    }
}

impl PartialEq for Values {
    ghost eq = { eq_by_cmp values_order };

    ghost laws = { Prim.search (comparing, rules, values_order_total, eq_by_cmp_equiv) };

    fn eq(&self, other: &Values) -> bool {
        self.compare(other).is_eq()
    }
}

impl Eq for Values {
    ghost laws = { eq_by_cmp_equiv values_order_total };
}

impl Ord for Values {
    ghost cmp = { values_order };

    ghost total = { values_order_total };

    ghost matches_partial_cmp = { Prim.search (comparing, rules) };

    ghost matches_eq = { Prim.search (comparing, rules) };

    fn cmp(&self, other: &Values) -> Ordering {
        self.compare(other)
    }
}

impl PartialOrd for Values {
    ghost partial_cmp = { as_partial_cmp values_order };

    ghost laws = { partial_order_from_own_ties (Prim.search (comparing, rules, values_order_total)) (Prim.search (comparing, rules)) };

    fn partial_cmp(&self, other: &Values) -> Option<Ordering> {
        Some(self.cmp(other))
    }
}

impl Hash for Values {
    ghost hash_input = { values_hash };

    ghost respects_eq = { values_hash_alike };

    fn hash<H: Hasher>(&self, state: &mut H) {
        self.as_slice().hash(state);
    }
}
