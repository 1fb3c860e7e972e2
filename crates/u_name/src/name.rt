//! Names of activities, and the linkage calls on them.
//!
//! Below, `u.c.s.i` is the name with the context `u`, the block `c`, the statement `s` and the
//! initiation `i`.
//!
//! The comparisons are written out. Equality looks at the short parts first and at the context last; the
//! order has to look at the context first.
ghost use Rattle.std.specs.Prelude.{◌≡◌, ◌≤◌, ◌<◌, ◌+◌, IfOk, MatchResult, OnOk, IsTrue, ◌↔◌, ◌++◌};
ghost use Rattle.u_name.specs.Context.{depth, IsBetween, Tree};
ghost use Rattle.u_name.specs.Greatest.{greatest_initiation};
ghost use Rattle.u_name.specs.Name.{Activity, activity, IsName, loop_context, call_context, IsInLoop, IsInCall, left, returned};
ghost use Rattle.std.proofs.Common.{rules};
ghost use Rattle.std.specs.Cmp.{partial_order_from_own_ties};
ghost use Rattle.std.specs.Cmp.Rules.{comparing, hashing};
ghost use Rattle.std.specs.Ordering.{eq_by_cmp, as_partial_cmp};
ghost use Rattle.std.proofs.lemmas.Cmp.{eq_by_cmp_equiv};
ghost use Rattle.u_name.specs.NameOrder.{name_cmp, name_cmp_total, name_hash, names_hash_alike};
ghost use Rattle.u_name.specs.Refusal.{RefusesAt};
ghost use Rattle.u_name.specs.declared.name.NameError.TheVariants.{NoMemory, Deep, Initiation};

use crate::block_name::BlockName;
use crate::context::{Context, Node};
use std::alloc::{AllocError, AllocFailed, Global};
use std::cmp::Ordering;
use std::hash::{Hash, Hasher};
use std::marker::Model;
use thiserror::Error;

/// Why a linkage call gives no name.
#[derive(Debug, Drop, PartialEq, Eq, Error)]
pub enum NameError {
    /// The new context would be deeper than 64.
    #[error("the context would be deeper than 64")]
    Deep,
    /// The initiation is 18446744073709551615, the greatest one.
    #[error("the initiation is the greatest one already")]
    Initiation,
    /// A growth was refused.
    #[error("no memory")]
    NoMemory,
}

impl From<AllocError> for NameError {
    ghost from_gives = { λ _ e. e ≡ NoMemory };

    fn from(_: AllocError) -> NameError {
        NameError::NoMemory
    }
}

impl<T: Drop> From<AllocFailed<T>> for NameError {
    ghost from_gives = { λ _ e. e ≡ NoMemory };

    fn from(_: AllocFailed<T>) -> NameError {
        NameError::NoMemory
    }
}

/// The name of an activity: its context, the block and the number of its statement, and the number of its
/// initiation.
///
/// Promise names-in-range: a statement is 1 to 999, an initiation 1 to 18446744073709551615, and a context at
/// most 64 deep.
///
/// Promise names-in-order: two names are equal exactly if these parts are, and names are ordered by the parts
/// in turn.
#[derive(Drop)]
pub struct Name {
    context: Context,
    block: BlockName,
    statement: u16,
    initiation: u64,
}

impl Model for Name {
    ghost use Rattle.u_name.specs.Greatest.{greatest_initiation};
    ghost use Rattle.u_name.specs.Name.{Activity, activity, IsName, activity_code};

    ghost Value = { Activity };

    ghost coded = { activity_code };

    ghost view = { λ n. activity n.context n.block n.statement n.initiation };

    ghost invariant = { λ n. IsName (activity n.context n.block n.statement n.initiation) };
}

impl Name {
    /// The name with these parts.
    pub fn new(context: Context, block: BlockName, statement: u16, initiation: u64) -> Name
        requires statement_in { IsBetween 1 statement 999 }
        requires initiation_in { IsBetween 1 initiation 18446744073709551615 }
        ensures { result ≡ activity context block statement initiation }
    {
        // Brings in that the context is at most 64 deep, and its parts are in their ranges.
        let _ = context.depth();
        // Brings in that the block's name is one: 1 to 16 letters, digits and `_`.
        let _ = block.as_bytes();
        Name {
            context,
            block,
            statement,
            initiation,
        }
    }

    /// The context of the activity.
    pub fn context(&self) -> &Context
        ensures { result.now ≡ self.now.context }
    {
        &self.context
    }

    /// The block that the activity belongs to.
    pub fn block(&self) -> &BlockName
        ensures { result.now ≡ self.now.block }
    {
        &self.block
    }

    /// The number of the statement, 1 to 999.
    pub fn statement(&self) -> u16
        ensures value { result ≡ self.now.statement }
        ensures bounds { IsName self.now }
    {
        self.statement
    }

    /// The number of the initiation, 1 to 18446744073709551615.
    pub fn initiation(&self) -> u64
        ensures value { result ≡ self.now.initiation }
        ensures bounds { IsName self.now }
    {
        self.initiation
    }

    /// The greatest of the initiation and those of the context's loops and calls, 1 to
    /// 18446744073709551615.
    pub fn greatest_initiation(&self) -> u64
        ensures { result ≡ greatest_initiation self.now }
    {
        self.context.greatest_initiation().max(self.initiation)
    }

    /// How deep the context is, 0 to 64.
    pub fn depth(&self) -> u32
        ensures value { result ≡ depth self.now.context }
        ensures bound { depth self.now.context ≤ 64 }
    {
        self.context.depth()
    }

    /// By context, block, statement and initiation in turn.
    fn compare(&self, other: &Name) -> Ordering
        ensures { result ≡ name_cmp self.now other.now }
    {
        match self.context.cmp(&other.context) {
            Ordering::Equal => match self.block.cmp(&other.block) {
                Ordering::Equal => self
                    .statement
                    .cmp(&other.statement)
                    .then(self.initiation.cmp(&other.initiation)),
                unequal => unequal,
            },
            unequal => unequal,
        }
    }

    /// Another activity of the same context and block.
    fn beside(&self, statement: u16, initiation: u64) -> Result<Name, AllocError>
        requires statement_in { IsBetween 1 statement 999 }
        requires initiation_in { IsBetween 1 initiation 18446744073709551615 }
        ensures { IfOk result
            (λ n. n ≡ activity self.now.context self.now.block statement initiation) }
    {
        Ok(Name {
            context: self.context.copy()?,
            block: self.block,
            statement,
            initiation,
        })
    }

    /// An equal name. The outer contexts are shared.
    pub fn copy(&self) -> Result<Name, AllocError>
        ensures { IfOk result (λ n. n ≡ self.now) }
    {
        self.beside(self.statement, self.initiation)
    }

    /// `u.c.t.i` for `u.c.s.i`: another statement of the same context.
    pub fn plain(&self, statement: u16) -> Result<Name, NameError>
        requires { IsBetween 1 statement 999 }
        ensures { MatchResult result
            (λ n. n ≡ activity self.now.context self.now.block statement self.now.initiation)
            (λ e. e ≡ NoMemory) }
    {
        Ok(self.beside(statement, self.initiation)?)
    }

    /// `(u.c.Ll.i).c.t.1` for `u.c.s.i`: a statement of a loop that is entered. `Deep` where the
    /// context has the depth 64.
    ///
    /// Promise linkage: `enter` and `call` return `Deep` exactly at depth 64, and `next` returns `Initiation`
    /// exactly at the greatest one, unless memory runs out before.
    pub fn enter(&self, alloc: Global, number: u8, statement: u16) -> Result<Name, NameError>
        requires number_in { IsBetween 1 number 99 }
        requires statement_in { IsBetween 1 statement 999 }
        ensures value { IfOk result
            (λ n. n ≡ activity (loop_context self.now number) self.now.block statement 1) }
        ensures refusal { MatchResult result (λ _. depth self.now.context < 64)
            (λ e. RefusesAt e Deep (depth self.now.context ≡ 64)) }
    {
        if self.context.depth() == 64 {
            return Err(NameError::Deep);
        }
        let outer = self.context.copy()?;
        Ok(Name {
            context: Context::in_loop(alloc, outer, self.block, number, self.initiation)?,
            block: self.block,
            statement,
            initiation: 1,
        })
    }

    /// `u.c.t.(i + 1)` for `u.c.s.i`: a statement in the next turn of a loop. `Initiation` where the
    /// initiation is 18446744073709551615.
    pub fn next(&self, statement: u16) -> Result<Name, NameError>
        requires { IsBetween 1 statement 999 }
        ensures value { IfOk result (λ n. n
            ≡ activity self.now.context self.now.block statement (self.now.initiation + 1)) }
        ensures refusal { MatchResult result (λ _. self.now.initiation < 18446744073709551615)
            (λ e. RefusesAt e Initiation (self.now.initiation ≡ 18446744073709551615)) }
    {
        if self.initiation == u64::MAX {
            return Err(NameError::Initiation);
        }
        Ok(self.beside(statement, self.initiation + 1)?)
    }

    /// `u.c.t.1` for `u.c.s.i`: a statement behind the last turn of a loop.
    pub fn last(&self, statement: u16) -> Result<Name, NameError>
        requires { IsBetween 1 statement 999 }
        ensures { MatchResult result
            (λ n. n ≡ activity self.now.context self.now.block statement 1)
            (λ e. e ≡ NoMemory) }
    {
        Ok(self.beside(statement, 1)?)
    }

    /// `(u.c.s.i).b.k.1` for `u.c.s.i`: the statement of a called block `b` that the argument `k` goes
    /// to, which is 1 to 4. `Deep` where the context has the depth 64.
    pub fn call(&self, alloc: Global, block: BlockName, argument: u16) -> Result<Name, NameError>
        requires { IsBetween 1 argument 4 }
        ensures value { IfOk result (λ n. n ≡ activity (call_context self.now) block argument 1) }
        ensures refusal { MatchResult result (λ _. depth self.now.context < 64)
            (λ e. RefusesAt e Deep (depth self.now.context ≡ 64)) }
    {
        if self.context.depth() == 64 {
            return Err(NameError::Deep);
        }
        // Brings in that the block's name is one: 1 to 16 letters, digits and `_`.
        let _ = block.as_bytes();
        let outer = self.context.copy()?;
        Ok(Name {
            context: Context::in_call(alloc, outer, self.block, self.statement, self.initiation)?,
            block,
            statement: argument,
            initiation: 1,
        })
    }

    /// Whether the context is a loop's.
    pub fn in_loop(&self) -> bool
        ensures { IsTrue result ↔ IsInLoop self.now.context }
    {
        matches!(self.context.node(), Node::Loop { .. })
    }

    /// Whether the context is a call's.
    pub fn in_call(&self) -> bool
        ensures { IsTrue result ↔ IsInCall self.now.context }
    {
        matches!(self.context.node(), Node::Call { .. })
    }

    /// `v.d.t.j` for a name whose context is the loop's `(v.d.Ll.j)`: a statement outside the loop.
    pub fn leave(&self, statement: u16) -> Result<Name, NameError>
        requires statement_in { IsBetween 1 statement 999 }
        requires in_loop { IsInLoop self.now.context }
        ensures { MatchResult result (λ n. n ≡ left self.now statement) (λ e. e ≡ NoMemory) }
    {
        match self.context.node() {
            Node::Loop {
                outer,
                block,
                initiation,
                ..
            } => Ok(outside(outer, block, statement, initiation)?),
            _ => unreachable!(),
        }
    }

    /// `v.d.t.j` for a name whose context is the call's `(v.d.s.j)`: a statement of the caller.
    pub fn back(&self, statement: u16) -> Result<Name, NameError>
        requires statement_in { IsBetween 1 statement 999 }
        requires in_call { IsInCall self.now.context }
        ensures { MatchResult result (λ n. n ≡ returned self.now statement)
            (λ e. e ≡ NoMemory) }
    {
        match self.context.node() {
            Node::Call {
                outer: caller,
                block,
                initiation,
                ..
            } => Ok(outside(caller, block, statement, initiation)?),
            _ => unreachable!(),
        }
    }
}

/// The activity of the outer context.
fn outside(
    outer: &Context,
    block: &BlockName,
    statement: u16,
    initiation: u64,
) -> Result<Name, AllocError>
    requires statement_in { IsBetween 1 statement 999 }
    requires initiation_in { IsBetween 1 initiation 18446744073709551615 }
    ensures { IfOk result (λ n. n ≡ activity outer.now block.now statement initiation) }
{
    Ok(Name::new(outer.copy()?, *block, statement, initiation))
}

impl PartialEq for Name {
    ghost eq = { eq_by_cmp name_cmp };

    ghost laws = { Prim.search (comparing, rules, name_cmp_total, eq_by_cmp_equiv) };

    /// The contexts come last, since they are the longest.
    #[tactic(auto, using(crate::proofs::EqualNames::other_block, crate::proofs::EqualNames::same_but_context))]
    fn eq(&self, other: &Name) -> bool {
        if self.statement != other.statement {
            return false;
        }
        if self.initiation != other.initiation {
            return false;
        }
        if self.block != other.block {
            return false;
        }
        self.context == other.context
    }
}

impl Eq for Name {
    ghost laws = { eq_by_cmp_equiv name_cmp_total };
}

impl Ord for Name {
    ghost cmp = { name_cmp };

    ghost total = { name_cmp_total };

    ghost matches_partial_cmp = { Prim.search (comparing, rules) };

    ghost matches_eq = { Prim.search (comparing, rules) };

    fn cmp(&self, other: &Name) -> Ordering {
        self.compare(other)
    }
}

impl PartialOrd for Name {
    ghost partial_cmp = { as_partial_cmp name_cmp };

    ghost laws = { partial_order_from_own_ties (Prim.search (comparing, rules, name_cmp_total)) (Prim.search (comparing, rules)) };

    fn partial_cmp(&self, other: &Name) -> Option<Ordering> {
        Some(self.compare(other))
    }
}

impl Hash for Name {
    ghost hash_input = { name_hash };

    ghost respects_eq = { names_hash_alike };

    /// The context, and one number for the statement and the initiation, in which the statement has the
    /// highest ten bits. The block is left out, as in contexts: in the names of one program the other
    /// parts tell almost all of them apart.
    fn hash<H: Hasher>(&self, state: &mut H) {
        self.context.hash(state);
        state.write_u64((u64::from(self.statement) << 54).wrapping_add(self.initiation));
    }
}
