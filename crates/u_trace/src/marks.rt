//! Which firings of a list an entry's story has.
//!
//! The giver of the entry is marked. Then the list is gone over from its end: of each firing that is
//! marked, the givers of its needs are marked too. They stand before it, since the list is a
//! derivation, so one pass is enough.
ghost use Rattle.std.specs.Prelude.{◌≡◌, ◌↔◌, ◌<◌, ℕ, ◌≤◌, IfOk, OnOk, IsTrue, length, false, replicate};
ghost use Rattle.u_rule.specs.Parts.{most_ports};
ghost use Rattle.u_rule.specs.Rule.{own_of, start_of, needs_of, tokens_from};
ghost use Rattle.u_rule.specs.declared.entry.Entry.TheVariants as entries;
ghost use Rattle.u_sets.specs.Members.{SomeOf};
ghost use Rattle.u_base.specs.Firing.{Derivation};
ghost use Rattle.u_trace.specs.Numbers.{number_in};
ghost use Rattle.u_trace.specs.Table.{place_in, Owns};
ghost use Rattle.u_trace.specs.Givers.{AreGivers};
ghost use Rattle.u_trace.specs.Stories.{InStory};
ghost use Rattle.u_trace.specs.Marks.{IsMarked, IsWanted, Marks, MarksBehind, LieBelow};

use crate::table::Givers;
use std::alloc::{AllocError, Global};
use u_check::Job;
use u_name::Name;
use u_rule::{Entry, Firing, NameRef, TokenRef, needs, start};
use u_value::Value;

/// The entries that a firing of the job needs, in a list. The caller's firing is one of the job, so want of
/// memory is the one refusal that comes.
fn needs_of(alloc: Global, job: &Job, firing: &Firing) -> Result<Vec<Entry>, AllocError>
    ensures { IfOk result (λ v. v.items ≡ (own_of job.now).needs firing.now) }
{
    match needs(alloc, job, firing) {
        Ok(entries) => Ok(entries),
        Err(_) => Err(AllocError),
    }
}

/// Whether the two are one entry.
#[tactic(auto, using(u_match::proofs::Wakes::same_entry))]
pub(crate) fn is_same(left: &Entry, right: &Entry) -> bool
    ensures { IsTrue result ↔ (left.now ≡ right.now) }
{
    left.cmp(right).is_eq()
}

/// Marks the giver of the entry, if it has one. Nobody is to give the start.
fn mark(start: &Entry, givers: &Givers, entry: &Entry, marks: &mut [bool]) -> Result<(), AllocError>
    requires { LieBelow (place_in givers.now) (length marks.old) }
    ensures { OnOk result
        (Marks marks.old (IsWanted start.now (place_in givers.now) entry.now) marks.new) }
{
    if is_same(entry, start) {
        return Ok(());
    }
    if let Some(place) = givers.of(entry)? {
        marks[place] = true;
    }
    Ok(())
}

/// Marks the givers of the entries.
fn mark_all(
    start: &Entry,
    givers: &Givers,
    entries: &[Entry],
    marks: &mut [bool],
) -> Result<(), AllocError>
    requires { LieBelow (place_in givers.now) (length marks.old) }
    ensures { OnOk result
        (Marks marks.old
        (SomeOf entries.now (IsWanted start.now (place_in givers.now))) marks.new) }
{
    for entry in entries {
        mark(start, givers, entry, marks)?;
    }
    Ok(())
}

/// Whether a token stands where the start token does, at port 1 of an activity of a statement 1.
fn is_at_start(token: &TokenRef<'_>) -> bool
    ensures { IsTrue result
        ↔ ((token.now.port ≡ 1) × (token.now.activity.statement ≡ 1)) }
{
    token.port() == 1 && token.activity().statement() == 1
}

/// The token, as an entry.
fn entry_of(token: &TokenRef<'_>) -> Result<Entry, AllocError>
    ensures { IfOk result (λ e. e ≡ entries.Token token.now) }
{
    let made = token.token()?;
    Ok(Entry::Token(made))
}

/// Whether the place is marked.
pub(crate) fn is_marked(marks: &[bool], place: usize) -> bool
    requires { place < length marks.now }
    ensures { IsTrue result ↔ IsMarked marks.now place }
{
    marks[place]
}

/// The firings that were applied, with what their stories are found by: the job, its start, and the
/// place of each entry's giver.
#[derive(Clone, Copy)]
struct Applied<'a> {
    alloc: Global,
    job: &'a Job,
    start: &'a Entry,
    log: &'a [Firing],
    givers: &'a Givers,
}

impl Applied<'_> {
    /// Marks the giver of the token, whose activity has that number, if it has a giver. Nobody is to
    /// give the start.
    fn mark_token(
        &self,
        number: usize,
        token: &TokenRef<'_>,
        marks: &mut [bool],
    ) -> Result<(), AllocError>
        requires start { self.now.start.now ≡ start_of self.now.job.now }
        requires number { number ≡ number_in self.now.givers.now.names token.now.activity }
        requires below { LieBelow (place_in self.now.givers.now) (length marks.old) }
        ensures { OnOk result
            (Marks marks.old
            (IsWanted self.now.start.now (place_in self.now.givers.now)
            (entries.Token token.now)) marks.new) }
    {
        if is_at_start(token) {
            return mark(self.start, self.givers, &entry_of(token)?, marks);
        }
        let found = self.givers.at(number, token)?;
        if let Some(place) = found {
            marks[place] = true;
        }
        Ok(())
    }

    /// Marks the givers of the tokens that have these values at the ports of the activity, which has
    /// that number.
    fn mark_tokens(
        &self,
        number: usize,
        activity: &Name,
        values: &[Value],
        marks: &mut [bool],
    ) -> Result<(), AllocError>
        requires start { self.now.start.now ≡ start_of self.now.job.now }
        requires number { number ≡ number_in self.now.givers.now.names activity.now }
        requires few { length values.now ≤ most_ports }
        requires below { LieBelow (place_in self.now.givers.now) (length marks.old) }
        ensures { OnOk result
            (Marks marks.old
            (SomeOf (tokens_from activity.now 1 values.now)
            (IsWanted self.now.start.now (place_in self.now.givers.now))) marks.new) }
    {
        let mut port = 1;
        for value in values {
            let token = TokenRef::new(NameRef::of(activity), port, value);
            self.mark_token(number, &token, marks)?;
            port += 1;
        }
        Ok(())
    }

    /// Marks the givers of what the firing needs, of which a list is made.
    #[inline(never)]
    fn mark_listed(&self, firing: &Firing, marks: &mut [bool]) -> Result<(), AllocError>
        requires { LieBelow (place_in self.now.givers.now) (length marks.old) }
        ensures { OnOk result
            (Marks marks.old
            (SomeOf (needs_of firing.now)
            (IsWanted self.now.start.now (place_in self.now.givers.now))) marks.new) }
    {
        let needed = needs_of(self.alloc, self.job, firing)?;
        mark_all(self.start, self.givers, &needed, marks)
    }

    /// Marks the givers of what the firing needs, whose activity has that number. Where it needs tokens
    /// alone, no list is made.
    fn mark_needs(
        &self,
        number: usize,
        firing: &Firing,
        marks: &mut [bool],
    ) -> Result<(), AllocError>
        requires start { self.now.start.now ≡ start_of self.now.job.now }
        requires number { number ≡ number_in self.now.givers.now.names firing.now.activity }
        requires below { LieBelow (place_in self.now.givers.now) (length marks.old) }
        ensures { OnOk result
            (Marks marks.old
            (SomeOf (needs_of firing.now)
            (IsWanted self.now.start.now (place_in self.now.givers.now))) marks.new) }
    {
        if firing.write.is_some() {
            return self.mark_listed(firing, marks);
        }
        self.mark_tokens(number, &firing.activity, firing.values.as_slice(), marks)
    }

    /// Marks the givers of what the firing at that place needs, if it is marked.
    fn mark_behind(&self, place: usize, marks: &mut [bool]) -> Result<(), AllocError>
        requires start { self.now.start.now ≡ start_of self.now.job.now }
        requires place { place < length self.now.log.now }
        requires count { length marks.old ≡ length self.now.log.now }
        requires below { LieBelow (place_in self.now.givers.now) (length self.now.log.now) }
        requires owners { Owns self.now.givers.now self.now.log.now }
        ensures { OnOk result
            (MarksBehind (own_of self.now.job.now) self.now.start.now self.now.log.now
            (place_in self.now.givers.now) place marks.old marks.new) }
    {
        if !is_marked(marks, place) {
            return Ok(());
        }
        let number = self.givers.owner(place);
        self.mark_needs(number, &self.log[place], marks)
    }

    /// Marks all firings of the list that the entry's story has.
    fn mark_story(&self, entry: &Entry, marks: &mut [bool]) -> Result<(), AllocError>
        requires start { self.now.start.now ≡ start_of self.now.job.now }
        requires derivation { Derivation (own_of self.now.job.now) self.now.log.now }
        requires givers { AreGivers (own_of self.now.job.now) self.now.log.now
            (place_in self.now.givers.now) }
        requires owners { Owns self.now.givers.now self.now.log.now }
        requires count { length marks.old ≡ length self.now.log.now }
        requires none { (k : ℕ) → IsMarked marks.old k → ⊥ }
        ensures { OnOk result
            ((k : ℕ) → IsMarked marks.new k
            ↔ InStory (own_of self.now.job.now) self.now.log.now entry.now k) }
    {
        mark(self.start, self.givers, entry, marks)?;
        let mut left = self.log.len();
        while left > 0 {
            left -= 1;
            self.mark_behind(left, marks)?;
        }
        Ok(())
    }
}

/// So many places, of which none is marked.
///
/// # Errors
/// `AllocError` where there is no memory.
fn unmarked(alloc: Global, count: usize) -> Result<Vec<bool>, AllocError>
    ensures { IfOk result (λ v. v.items ≡ replicate count false) }
{
    let marks = vec![in alloc; false; count]?;
    Ok(marks)
}

/// For each firing of the list, whether the entry's story has it.
///
/// # Errors
/// `AllocError` where there is no memory.
pub(crate) fn marks_of(
    alloc: Global,
    job: &Job,
    log: &[Firing],
    givers: &Givers,
    entry: &Entry,
) -> Result<Vec<bool>, AllocError>
    requires derivation { Derivation (own_of job.now) log.now }
    requires givers { AreGivers (own_of job.now) log.now (place_in givers.now) }
    requires owners { Owns givers.now log.now }
    ensures count { IfOk result (λ v. length v.items ≡ length log.now) }
    ensures marked { IfOk result
        (λ v. (k : ℕ)
        → IsMarked v.items k ↔ InStory (own_of job.now) log.now entry.now k) }
{
    let mut marks = unmarked(alloc, log.len())?;
    let first = start(job);
    let applied = Applied {
        alloc,
        job,
        start: &first,
        log,
        givers,
    };
    applied.mark_story(entry, &mut marks)?;
    Ok(marks)
}
