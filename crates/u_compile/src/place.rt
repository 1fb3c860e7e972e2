//! Where statements lie.
ghost use Rattle.std.specs.Prelude.{◌≡◌, [], ◌∷◌, IfOk, IfSome, IsTrue, not};
ghost use Rattle.u_compile.specs.Scoped.{place, guard, IsOf, AreGuards};

use std::alloc::{AllocError, Global};
use std::marker::Model;

/// That a statement gave a truth value.
#[derive(Clone, Copy, Debug, PartialEq, Eq)]
pub struct Guard {
    /// The number of the statement, from 1.
    pub control: u16,
    /// The truth value.
    pub value: bool,
}

impl Guard {
    /// Whether it is the same.
    fn is(self, other: Guard) -> bool
        ensures { IsTrue result → self ≡ other }
    {
        self.control == other.control
            && if self.value {
                other.value
            } else {
                !other.value
            }
    }
}

/// Where statements lie: a region, and the guards that hold there, the inner ones first.
#[derive(Drop)]
pub struct GuardedRegion {
    region: u8,
    guards: Vec<Guard>,
}

impl Model for GuardedRegion {
    ghost use Rattle.u_compile.specs.Scoped.{GuardedRegionParts, place};

    ghost Value = { GuardedRegionParts };

    ghost view = { λ p. place p.region p.guards.items };
}

impl GuardedRegion {
    /// A region without guards. It takes no memory.
    pub fn new(alloc: Global, region: u8) -> GuardedRegion
        ensures { result ≡ place region [] }
    {
        GuardedRegion {
            region,
            guards: Vec::new(alloc),
        }
    }

    /// A region with these guards, the inner ones first.
    pub fn of(region: u8, guards: Vec<Guard>) -> GuardedRegion
        ensures { result ≡ place region guards.items }
    {
        GuardedRegion { region, guards }
    }

    /// The region: 0, or the number of a loop.
    pub fn region(&self) -> u8
        ensures { result ≡ self.now.region }
    {
        self.region
    }

    /// The guards, the inner ones first.
    pub fn guards(&self) -> &[Guard]
        ensures { result.now ≡ self.now.guards }
    {
        &self.guards
    }

    /// Whether it is the same place.
    pub fn is(&self, other: &GuardedRegion) -> bool
        ensures { IsTrue result → self.now ≡ other.now }
    {
        self.region == other.region && are_same(&self.guards, &other.guards)
    }

    /// Whether that statement gave that truth value here.
    pub fn has(&self, control: u16, value: bool) -> bool
        ensures { IsTrue result → IsOf self.now.guards (guard control value) }
    {
        is_of(&self.guards, Guard { control, value })
    }

    /// The side of a control here: where it gives that truth value.
    ///
    /// # Errors
    /// `AllocError` where there is no memory.
    pub fn side(
        &self,
        alloc: Global,
        control: u16,
        value: bool,
    ) -> Result<GuardedRegion, AllocError>
        ensures { IfOk result
            (λ p. p ≡ place self.now.region (guard control value ∷ self.now.guards)) }
    {
        let mut guards = Vec::new(alloc);
        guards.push(Guard { control, value })?;
        guards.extend_from_slice(&self.guards)?;
        Ok(GuardedRegion {
            region: self.region,
            guards,
        })
    }

    /// An equal place.
    ///
    /// # Errors
    /// `AllocError` where there is no memory.
    pub fn copy(&self, alloc: Global) -> Result<GuardedRegion, AllocError>
        ensures { IfOk result (λ p. p ≡ self.now) }
    {
        let mut guards = Vec::new(alloc);
        guards.extend_from_slice(&self.guards)?;
        Ok(GuardedRegion {
            region: self.region,
            guards,
        })
    }
}

/// Whether the guard is one of these.
fn is_of(guards: &[Guard], guard: Guard) -> bool
    ensures { IsTrue result → IsOf guards.now guard }
{
    let mut rest = guards;
    while let Some((first, others)) = rest.split_first() {
        if first.is(guard) {
            return true;
        }
        rest = others;
    }
    false
}

/// Whether the guards are the same, in the same order.
fn are_same(guards: &[Guard], others: &[Guard]) -> bool
    ensures { IsTrue result → guards.now ≡ others.now }
{
    let mut one = guards;
    let mut two = others;
    while let Some((first, behind)) = one.split_first() {
        match two.split_first() {
            Some((second, after)) => {
                if !first.is(*second) {
                    return false;
                }
                one = behind;
                two = after;
            }
            None => return false,
        }
    }
    two.is_empty()
}

/// Whether each of the one guards is one of the others.
#[tactic(auto, using(crate::proofs::PlacedTests::guards_more))]
pub(crate) fn are_guards(guards: &[Guard], others: &[Guard]) -> bool
    ensures { IsTrue result → AreGuards guards.now others.now }
{
    let mut rest = guards;
    while let Some((first, behind)) = rest.split_first() {
        if !is_of(others, *first) {
            return false;
        }
        rest = behind;
    }
    true
}

/// A guard of the one of which the other has the opposite.
pub(crate) fn opposite(guards: &[Guard], others: &[Guard]) -> Option<Guard>
    ensures { IfSome result
        (λ c. IsOf guards.now c × IsOf others.now (guard c.control (not c.value))) }
{
    let mut rest = guards;
    while let Some((first, behind)) = rest.split_first() {
        let turned = Guard {
            control: first.control,
            value: !first.value,
        };
        if is_of(others, turned) {
            return Some(*first);
        }
        rest = behind;
    }
    None
}
