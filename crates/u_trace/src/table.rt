//! The places of the givers of entries, where a token is found by its activity's number.
//!
//! The first value that a port gets stands at its activity's number; others at that port, of which there
//! are few, are found by their hashes. Most activities lie beside the one before, so few names are hashed,
//! and no token is copied.
ghost use Rattle.std.specs.Prelude.{length};
ghost use Rattle.u_trace.specs.Numbers.{HaveOneNumber, LieUnder};
ghost use Rattle.u_trace.specs.TokenPlaces.{HaveColumns};

use crate::places::Places;
use crate::token_places::TokenPlaces;
use std::alloc::{AllocError, Global};
use u_name::Name;
use u_names::Activities;
use u_rule::{Entry, Firing, NameRef, TokenRef};

/// A place for each of some entries. That of a token stands under the number of its activity, its port
/// and its value, so that no name is hashed; that of another entry stands under the entry.
#[derive(Drop)]
pub(crate) struct Givers {
    /// The activities that were asked for. The number of one is its place.
    names: Activities,
    tokens: TokenPlaces,
    others: Places<Entry>,
    /// The numbers of the activities of some firings.
    owners: Vec<usize>,
    ghost one_number: { HaveOneNumber names },
    ghost numbered: { LieUnder (length names) tokens },
    ghost columns: { HaveColumns tokens },
}

impl Givers {
    ghost use Rattle.std.specs.Prelude.{◌≡◌, ◌<◌, ◌∷◌, [], IfOk, OnOk, Some, None, slice_get};
    ghost use Rattle.u_rule.specs.Parts.{TokenParts};
    ghost use Rattle.u_rule.specs.declared.entry.Entry.{Entry};
    ghost use Rattle.u_rule.specs.declared.entry.Entry.TheVariants as entries;
    ghost use Rattle.u_trace.specs.Numbers.{number_in};
    ghost use Rattle.u_trace.specs.Table.{place_in, StillOwns, OwnsMore};
    ghost use Rattle.u_trace.specs.Givers.{Notes};

    /// No entry has a place, and no activity a number. It takes no memory.
    pub(crate) fn new(alloc: Global) -> Givers
        ensures places { (e : Entry) → place_in result e ≡ None }
        ensures owners { result.owners.items ≡ [] }
    {
        Givers {
            names: Activities::new(alloc),
            tokens: TokenPlaces::new(alloc),
            others: Places::new(alloc),
            owners: Vec::new(alloc),
        }
    }

    /// The number of the activity, or one that no activity has.
    pub(crate) fn number_for(&self, activity: &Name) -> usize
        ensures { result ≡ number_in self.now.names activity.now }
    {
        match self.names.find(activity) {
            Some(number) => number,
            None => self.names.len(),
        }
    }

    /// The number of the activity of the firing at that place.
    pub(crate) fn owner(&self, place: usize) -> usize
        requires { place < length self.now.owners.items }
        ensures { slice_get self.now.owners.items place ≡ Some result }
    {
        self.owners[place]
    }

    /// The place of the token, whose activity has that number, if it has a place.
    ///
    /// # Errors
    /// `AllocError` where there is no memory.
    pub(crate) fn at(
        &self,
        number: usize,
        token: &TokenRef<'_>,
    ) -> Result<Option<usize>, AllocError>
        requires { number ≡ number_in self.now.names token.now.activity }
        ensures { IfOk result (λ o. o ≡ place_in self.now (entries.Token token.now)) }
    {
        self.tokens.of(number, token.port(), token.value())
    }

    /// The place of the entry, if it has one.
    ///
    /// # Errors
    /// `AllocError` where there is no memory.
    pub(crate) fn of(&self, entry: &Entry) -> Result<Option<usize>, AllocError>
        ensures { IfOk result (λ o. o ≡ place_in self.now entry.now) }
    {
        match entry {
            Entry::Token(token) => {
                let number = self.number_for(token.activity());
                self.at(number, &TokenRef::of(token))
            }
            Entry::Write(_) | Entry::Fault(_) | Entry::Answer(_) => Ok(self.others.of(entry)),
        }
    }

    /// The number of the activity. If it has none, it gets one.
    ///
    /// # Errors
    /// `AllocError` where there is no memory.
    fn number_at(&mut self, activity: &NameRef<'_>) -> Result<usize, AllocError>
        ensures number { IfOk result (λ n. n ≡ number_in self.new.names activity.now) }
        ensures below { IfOk result (λ n. n < length self.new.names) }
        ensures same { (e : Entry) → place_in self.new e ≡ place_in self.old e }
        ensures owns { StillOwns self.old self.new }
    {
        let (near, statement) = activity.parts();
        let number = self.names.number_beside(near, statement)?;
        Ok(number)
    }

    /// Notes the number of the firing's activity, behind those of other firings.
    ///
    /// # Errors
    /// `AllocError` where there is no memory.
    pub(crate) fn own(&mut self, firing: &Firing) -> Result<(), AllocError>
        ensures more { OnOk result (OwnsMore self.old firing.now self.new) }
        ensures same { (e : Entry) → place_in self.new e ≡ place_in self.old e }
    {
        let number = self.number_at(&NameRef::of(&firing.activity))?;
        self.owners.push(number)?;
        Ok(())
    }

    /// Gives the token, whose activity has that number, the place, unless it has one.
    ///
    /// # Errors
    /// `AllocError` where there is no memory.
    fn note_at(
        &mut self,
        number: usize,
        token: &TokenRef<'_>,
        place: usize,
    ) -> Result<(), AllocError>
        requires number { number ≡ number_in self.old.names token.now.activity }
        requires below { number < length self.old.names }
        ensures notes { OnOk result
            (Notes (place_in self.old) (entries.Token token.now ∷ []) place (place_in self.new)) }
        ensures names { self.new.names ≡ self.old.names }
        ensures owners { self.new.owners.items ≡ self.old.owners.items }
    {
        let port = token.port();
        let found = self.tokens.of(number, port, token.value())?;
        if let Some(_) = found {
            return Ok(());
        }
        let value = token.value().copy()?;
        self.tokens.put(number, port, value, place)?;
        Ok(())
    }

    /// Gives the token that place, unless it has one.
    ///
    /// # Errors
    /// `AllocError` where there is no memory.
    pub(crate) fn note_token(
        &mut self,
        token: &TokenRef<'_>,
        place: usize,
    ) -> Result<(), AllocError>
        ensures notes { OnOk result
            (Notes (place_in self.old) (entries.Token token.now ∷ []) place (place_in self.new)) }
        ensures owns { StillOwns self.old self.new }
    {
        let number = self.number_at(token.activity())?;
        self.note_at(number, token, place)
    }

    /// Gives the entry, which is no token, that place, unless it has one.
    fn note_other(&mut self, entry: &Entry, place: usize) -> Result<(), AllocError>
        requires { (t : TokenParts) → entry.now ≡ entries.Token t → ⊥ }
        ensures notes { OnOk result
            (Notes (place_in self.old) (entry.now ∷ []) place (place_in self.new)) }
        ensures names { self.new.names ≡ self.old.names }
        ensures owners { self.new.owners.items ≡ self.old.owners.items }
    {
        if let Some(_) = self.others.of(entry) {
            return Ok(());
        }
        let copy = entry.copy()?;
        self.others.put(copy, place)?;
        Ok(())
    }

    /// Gives the entry that place, unless it has one.
    ///
    /// # Errors
    /// `AllocError` where there is no memory.
    pub(crate) fn note(&mut self, entry: &Entry, place: usize) -> Result<(), AllocError>
        ensures notes { OnOk result
            (Notes (place_in self.old) (entry.now ∷ []) place (place_in self.new)) }
        ensures owns { StillOwns self.old self.new }
    {
        if let Entry::Token(token) = entry {
            return self.note_token(&TokenRef::of(token), place);
        }
        self.note_other(entry, place)
    }
}
