//! Names and tokens by reference: what they are made of, without being made.
//!
//! A token that a firing gives is not made before it enters. The history looks its activity up by these
//! parts, and the name is made only if the token wakes a firing.
ghost use Rattle.std.specs.Prelude.{◌≡◌, IfOk};
ghost use Rattle.u_name.specs.Context.{IsBetween};
ghost use Rattle.u_rule.specs.Parts.{token, most_ports};
ghost use Rattle.u_rule.specs.Rule.{beside};

use crate::parts::Token;
use std::alloc::AllocError;
use std::marker::Model;
use u_name::{BlockName, Name};
use u_value::Value;

/// The name of an activity by reference: another activity of the same context, block and initiation, and
/// the number of the statement. Contracts see the name.
#[derive(Drop)]
pub struct NameRef<'a> {
    near: &'a Name,
    statement: u16,
}

impl<'a> Model for NameRef<'a> {
    ghost use Rattle.u_name.specs.Context.{IsBetween};
    ghost use Rattle.u_name.specs.Name.{Activity, activity_code};
    ghost use Rattle.u_rule.specs.Rule.{beside};

    ghost Value = { Activity };

    ghost coded = { activity_code };

    ghost view = { λ n. beside n.near.now n.statement };

    ghost invariant = { λ n. IsBetween 1 n.statement 999 };
}

impl<'a> NameRef<'a> {
    /// The name of the activity of that statement, 1 to 999, beside the other.
    pub fn beside(near: &'a Name, statement: u16) -> NameRef<'a>
        requires { IsBetween 1 statement 999 }
        ensures { result ≡ beside near.now statement }
    {
        NameRef { near, statement }
    }

    /// That name.
    pub fn of(name: &'a Name) -> NameRef<'a>
        ensures { result ≡ name.now }
    {
        NameRef {
            near: name,
            statement: name.statement(),
        }
    }

    /// An activity of the same context, block and initiation, and the number of the statement, 1 to 999.
    pub fn parts(&self) -> (&'a Name, u16)
        ensures name { beside result.0.now result.1 ≡ self.now }
        ensures bounds { IsBetween 1 result.1 999 }
    {
        (self.near, self.statement)
    }

    /// The block that the activity belongs to.
    pub fn block(&self) -> &'a BlockName
        ensures { result.now ≡ self.now.block }
    {
        self.near.block()
    }

    /// The number of the statement, 1 to 999.
    pub fn statement(&self) -> u16
        ensures value { result ≡ self.now.statement }
        ensures bounds { IsBetween 1 result 999 }
    {
        self.statement
    }

    /// The name.
    ///
    /// # Errors
    /// `AllocError` where so many share the context already, 2^63, that no copy can be made.
    pub fn name(&self) -> Result<Name, AllocError>
        ensures { IfOk result (λ n. n ≡ self.now) }
    {
        self.near.plain(self.statement).map_err(|_| AllocError)
    }
}

/// A token by reference: the name of its activity, its port and its value. Contracts see the token.
#[derive(Drop)]
pub struct TokenRef<'a> {
    activity: NameRef<'a>,
    port: u8,
    value: &'a Value,
}

impl<'a> Model for TokenRef<'a> {
    ghost use Rattle.u_rule.specs.Parts.{TokenParts, token, IsToken, token_code};

    ghost Value = { TokenParts };

    ghost coded = { token_code };

    ghost view = { λ t. token t.activity t.port t.value.now };

    ghost invariant = { λ t. IsToken (token t.activity t.port t.value.now) };
}

impl<'a> TokenRef<'a> {
    /// The token of that value at that port, from 1 on.
    pub fn new(activity: NameRef<'a>, port: u8, value: &'a Value) -> TokenRef<'a>
        requires { IsBetween 1 port most_ports }
        ensures { result ≡ token activity.entry port value.now }
    {
        TokenRef {
            activity,
            port,
            value,
        }
    }

    /// That token.
    pub fn of(lent: &'a Token) -> TokenRef<'a>
        ensures { result ≡ lent.now }
    {
        TokenRef::new(NameRef::of(lent.activity()), lent.port(), lent.value())
    }

    /// The name of the activity.
    pub fn activity(&self) -> &NameRef<'a>
        ensures { result.now ≡ self.now.activity }
    {
        &self.activity
    }

    /// The port, from 1 on.
    pub fn port(&self) -> u8
        ensures port { result ≡ self.now.port }
        ensures range { IsBetween 1 self.now.port most_ports }
    {
        self.port
    }

    /// The value.
    pub fn value(&self) -> &'a Value
        ensures { result.now ≡ self.now.value }
    {
        self.value
    }

    /// The token.
    ///
    /// # Errors
    /// `AllocError` where there is no memory.
    pub fn token(&self) -> Result<Token, AllocError>
        ensures { IfOk result (λ t. t ≡ self.now) }
    {
        let activity = self.activity.name()?;
        let value = self.value.copy()?;
        Ok(Token::new(activity, self.port, value))
    }
}
