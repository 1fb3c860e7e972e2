//! The places of tokens whose activities have numbers.
ghost use Rattle.std.specs.Prelude.{◌≡◌, ◌≤◌, ℕ, IfOk, OnOk, OnErr, None};
ghost use Rattle.u_rule.specs.Parts.{most_ports};
ghost use Rattle.u_trace.specs.Firsts.{first_in};
ghost use Rattle.u_trace.specs.Places.{place_of};
ghost use Rattle.u_trace.specs.TokenKeys.{token_key, key_eq};
ghost use Rattle.u_trace.specs.TokenPlaces.{place_under, IsPlaced, HaveColumns};
ghost use Rattle.u_trace.specs.declared.token_key.TokenKey.{TokenKey};

use crate::firsts::{Firsts, ValueAt};
use crate::places::Places;
use crate::token_key::TokenKey;
use std::alloc::{AllocError, Global};
use std::array;
use u_rule::MOST_PORTS;
use u_value::Value;

/// How many columns there are: one for each port, and one for port 0.
const COLUMNS: usize = MOST_PORTS + 1;

/// A place for each of some tokens. Few activities have several values at one port. So the first value
/// at a port that gets a place stands in the port's column, at the number of its activity; another
/// value there is found by its hash.
#[derive(Drop)]
pub(crate) struct TokenPlaces {
    /// For each port, from 0 on, the first values. No token has port 0.
    columns: [Firsts; COLUMNS],
    /// The places of the other tokens.
    others: Places<TokenKey>,
}

/// The key of a token whose activity has that number.
///
/// # Errors
/// `AllocError` where there is no memory.
fn key_of(number: usize, port: u8, value: &Value) -> Result<TokenKey, AllocError>
    ensures { IfOk result (λ k. k ≡ token_key number port value.now) }
{
    Ok(TokenKey {
        activity: number,
        port,
        value: value.copy()?,
    })
}

impl TokenPlaces {
    /// No token has a place. It takes no memory.
    pub(crate) fn new(alloc: Global) -> TokenPlaces
        ensures none { (k : TokenKey) → place_under result k ≡ None }
        ensures columns { HaveColumns result }
    {
        TokenPlaces {
            columns: array::from_fn(
                |_|
                    ensures { (n : ℕ) → first_in result n ≡ None }
                { Firsts::new(alloc) },
            ),
            others: Places::new(alloc),
        }
    }

    /// The place that the token has under its key.
    ///
    /// # Errors
    /// `AllocError` where there is no memory.
    fn other(&self, number: usize, port: u8, value: &Value) -> Result<Option<usize>, AllocError>
        ensures { IfOk result
            (λ o. o ≡ place_of key_eq self.now.others (token_key number port value.now)) }
    {
        if self.others.is_empty() {
            return Ok(None);
        }
        let key = key_of(number, port, value)?;
        Ok(self.others.of(&key))
    }

    /// The place of the token of that value, at that port of the activity that has the number, if it has
    /// a place.
    ///
    /// # Errors
    /// `AllocError` where there is no memory.
    pub(crate) fn of(
        &self,
        number: usize,
        port: u8,
        value: &Value,
    ) -> Result<Option<usize>, AllocError>
        requires columns { HaveColumns self.now }
        requires port { port ≤ most_ports }
        ensures { IfOk result
            (λ o. o ≡ place_under self.now (token_key number port value.now)) }
    {
        let Some(first) = self.columns[usize::from(port)].at(number) else {
            return self.other(number, port, value);
        };
        if first.is_of(value) {
            return Ok(Some(first.place));
        }
        self.other(number, port, value)
    }

    /// Gives the token, which has no place, that one.
    ///
    /// # Errors
    /// `AllocError` where there is no memory; all tokens have the places that they had.
    pub(crate) fn put(
        &mut self,
        number: usize,
        port: u8,
        value: Value,
        place: usize,
    ) -> Result<(), AllocError>
        requires columns { HaveColumns self.old }
        requires port { port ≤ most_ports }
        requires none { place_under self.old (token_key number port value) ≡ None }
        ensures ok { OnOk result
            (IsPlaced (place_under self.old) (token_key number port value) place
            (place_under self.new)) }
        ensures err { OnErr result
            ((k : TokenKey) → place_under self.new k ≡ place_under self.old k) }
        ensures columns { HaveColumns self.new }
    {
        let column = usize::from(port);
        match self.columns[column].at(number) {
            None => self.columns[column].put(number, ValueAt { value, place }),
            Some(_) => {
                let key = TokenKey {
                    activity: number,
                    port,
                    value,
                };
                self.others.put(key, place)
            }
        }
    }
}
