//! What a firing gives, as it is held: tokens of one value are lent one by one, and no list of them is
//! made. A token alone is held as it is, and all else in a list, so that little is moved.
ghost use Rattle.std.specs.Prelude.{◌≡◌, ◌<◌, [], ◌∷◌, IfOk, length, map, slice_get, Some};
ghost use Rattle.std.specs.List.{AllByRecursion};
ghost use Rattle.u_program.specs.Limits.{IsDestination};
ghost use Rattle.u_rule.specs.HeldEntries.{entries_given};
ghost use Rattle.u_rule.specs.Rule.{sent, beside};
ghost use Rattle.u_rule.specs.declared.entry.Entry.TheVariants as entries;

use crate::entry::Entry;
use crate::lent::{NameRef, TokenRef};
use crate::parts::Token;
use std::alloc::{AllocError, Global};
use std::marker::Model;
use u_name::Name;
use u_program::Destination;
use u_value::Value;

/// What a firing gives, in the order of entries.
#[derive(Drop)]
pub enum Given<'a> {
    /// Tokens of one value.
    Sent(Sending<'a>),
    /// One token.
    Alone(Token),
    /// All else: several entries, none, or one that is no token.
    Listed(Vec<Entry>),
}

/// A value that goes to destinations which lie beside an activity. Contracts see the list of the tokens,
/// as entries.
#[derive(Drop)]
pub struct Sending<'a> {
    near: Name,
    value: Value,
    to: &'a [Destination],
}

impl<'a> Model for Sending<'a> {
    ghost use Rattle.std.specs.Prelude.{map};
    ghost use Rattle.std.specs.List.{AllByRecursion};
    ghost use Rattle.u_program.specs.Limits.{IsDestination};
    ghost use Rattle.u_rule.specs.EntryOrder.{EntryList, entry_list_code};
    ghost use Rattle.u_rule.specs.Rule.{sent, beside};

    ghost Value = { EntryList };

    ghost coded = { entry_list_code };

    ghost view = { λ s. map (sent (beside s.near) s.value) s.to.now };

    ghost invariant = { λ s. AllByRecursion IsDestination s.to.now };
}

/// The token of the value at the destination at that place, beside the activity.
fn token_at<'a>(near: &'a Name, value: &'a Value, to: &[Destination], place: usize) -> TokenRef<'a>
    requires in_range { AllByRecursion IsDestination to.now }
    requires there { place < length to.now }
    ensures { slice_get (map (sent (beside near.now) value.now) to.now) place
        ≡ Some (entries.Token result) }
{
    let destination = &to[place];
    let activity = NameRef::beside(near, destination.statement);
    TokenRef::new(activity, destination.port, value)
}

impl<'a> Sending<'a> {
    /// The value that goes to the destinations beside the activity.
    pub(crate) fn new(near: Name, value: Value, to: &'a [Destination]) -> Sending<'a>
        requires { AllByRecursion IsDestination to.now }
        ensures { result ≡ map (sent (beside near) value) to.now }
    {
        Sending { near, value, to }
    }

    /// How many tokens there are.
    pub fn len(&self) -> usize
        ensures { result ≡ length self.now }
    {
        self.to.len()
    }

    /// The token at that place, from 0 on.
    #[tactic(auto, using(crate::proofs::SentTokens::one_for_each))]
    pub fn token(&self, place: usize) -> TokenRef<'_>
        requires { place < length self.now }
        ensures { slice_get self.now place ≡ Some (entries.Token result) }
    {
        token_at(&self.near, &self.value, self.to, place)
    }
}

/// The list of the tokens of the value at the destinations, beside the activity.
fn tokens_of(
    alloc: Global,
    near: &Name,
    value: &Value,
    to: &[Destination],
) -> Result<Vec<Entry>, AllocError>
    requires { AllByRecursion IsDestination to.now }
    ensures { IfOk result (λ v. v.items ≡ map (sent (beside near.now) value.now) to.now) }
{
    let mut all = Vec::new(alloc);
    for destination in to {
        let activity = NameRef::beside(near, destination.statement);
        let lent = TokenRef::new(activity, destination.port, value);
        all.push(Entry::Token(lent.token()?))?;
    }
    Ok(all)
}

/// The list of that entry.
fn list_of(alloc: Global, entry: Entry) -> Result<Vec<Entry>, AllocError>
    ensures { IfOk result (λ v. v.items ≡ entry ∷ []) }
{
    let mut all = Vec::new(alloc);
    all.push(entry)?;
    Ok(all)
}

impl<'a> Given<'a> {
    /// That entry alone, in a list. It need not be a token.
    pub(crate) fn one(alloc: Global, entry: Entry) -> Result<Given<'a>, AllocError>
        ensures { IfOk result (λ g. entries_given g ≡ entry ∷ []) }
    {
        Ok(Given::Listed(list_of(alloc, entry)?))
    }

    /// The list of the entries.
    ///
    /// # Errors
    /// `AllocError` where there is no memory.
    pub(crate) fn into_list(self, alloc: Global) -> Result<Vec<Entry>, AllocError>
        ensures { IfOk result (λ v. v.items ≡ entries_given self.entry) }
    {
        match self {
            Given::Sent(sent) => tokens_of(alloc, &sent.near, &sent.value, sent.to),
            Given::Alone(token) => list_of(alloc, Entry::Token(token)),
            Given::Listed(entries) => Ok(entries),
        }
    }
}
