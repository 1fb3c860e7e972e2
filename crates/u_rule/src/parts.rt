//! What entries and firings are made of: tokens, writes, faults, and who wrote what.
ghost use Rattle.std.specs.Prelude.{◌≡◌, IfOk};
ghost use Rattle.u_name.specs.Context.{IsBetween};
ghost use Rattle.u_rule.specs.Parts.{token, IsToken, most_ports};

use std::alloc::AllocError;
use std::marker::Model;
use u_name::{Cell, Name};
use u_value::{FaultKind, Value};

/// The greatest number of ports that an activity has.
pub const MOST_PORTS: usize = 5;

/// A value at a port of an activity. Tokens are ordered by activity, port and value.
#[derive(PartialEq, Eq, PartialOrd, Ord, Hash, Drop)]
pub struct Token {
    activity: Name,
    port: u8,
    value: Value,
}

impl Model for Token {
    ghost use Rattle.u_rule.specs.Parts.{TokenParts, token, IsToken, token_code};

    ghost Value = { TokenParts };

    ghost coded = { token_code };

    ghost view = { λ t. token t.activity t.port t.value };

    ghost invariant = { λ t. IsToken (token t.activity t.port t.value) };

    ghost inverse = { λ t. record { activity = t.activity; port = t.port; value = t.value } };
}

impl Token {
    /// The token of that value at that port, from 1 on.
    pub fn new(activity: Name, port: u8, value: Value) -> Token
        requires { IsBetween 1 port most_ports }
        ensures { result ≡ token activity port value }
    {
        Token {
            activity,
            port,
            value,
        }
    }

    /// The activity.
    pub fn activity(&self) -> &Name
        ensures { result.now ≡ self.now.activity }
    {
        &self.activity
    }

    /// The port, from 1 on.
    pub fn port(&self) -> u8
        ensures port { result ≡ self.now.port }
        ensures range { IsToken self.now }
    {
        self.port
    }

    /// The value.
    pub fn value(&self) -> &Value
        ensures { result.now ≡ self.now.value }
    {
        &self.value
    }

    /// The activity, the port and the value.
    pub fn into_parts(self) -> (Name, u8, Value)
        ensures parts { token result.0 result.1 result.2 ≡ self }
        ensures range { IsBetween 1 result.1 most_ports }
    {
        (self.activity, self.port, self.value)
    }

    /// An equal token.
    ///
    /// # Errors
    /// `AllocError` where there is no memory.
    pub fn copy(&self) -> Result<Token, AllocError>
        ensures { IfOk result (λ t. t ≡ self.now) }
    {
        Ok(Token {
            activity: self.activity.copy()?,
            port: self.port,
            value: self.value.copy()?,
        })
    }
}

/// A value that an activity wrote into a cell. Writes are ordered by cell, writer and value.
#[derive(PartialEq, Eq, PartialOrd, Ord, Hash, Drop)]
pub struct Write {
    /// The cell.
    pub cell: Cell,
    /// The name of the activity that wrote it.
    pub writer: Name,
    /// What it wrote.
    pub value: Value,
}

impl Write {
    /// An equal write.
    ///
    /// # Errors
    /// `AllocError` where there is no memory.
    pub fn copy(&self) -> Result<Write, AllocError>
        ensures { IfOk result (λ w. w ≡ self.now) }
    {
        Ok(Write {
            cell: self.cell.copy()?,
            writer: self.writer.copy()?,
            value: self.value.copy()?,
        })
    }
}

/// That an activity could not give a value. Faults are ordered by activity and kind.
#[derive(PartialEq, Eq, PartialOrd, Ord, Hash, Drop)]
pub struct Fault {
    /// The activity.
    pub activity: Name,
    /// Why it could not.
    pub kind: FaultKind,
}

impl Fault {
    /// An equal fault.
    ///
    /// # Errors
    /// `AllocError` where there is no memory.
    pub fn copy(&self) -> Result<Fault, AllocError>
        ensures { IfOk result (λ f. f ≡ self.now) }
    {
        Ok(Fault {
            activity: self.activity.copy()?,
            kind: self.kind,
        })
    }
}

/// The write that a firing read: who wrote, and what. Its cell is given by the firing's first two values.
#[derive(PartialEq, Eq, PartialOrd, Ord, Hash, Drop)]
pub struct Written {
    /// The name of the activity that wrote it.
    pub writer: Name,
    /// What it wrote.
    pub value: Value,
}

impl Written {
    /// An equal write.
    ///
    /// # Errors
    /// `AllocError` where there is no memory.
    pub fn copy(&self) -> Result<Written, AllocError>
        ensures { IfOk result (λ w. w ≡ self.now) }
    {
        Ok(Written {
            writer: self.writer.copy()?,
            value: self.value.copy()?,
        })
    }
}
