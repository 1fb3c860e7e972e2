//! Graphs with what was noted of their statements and loops: what is put into one lies well.
ghost use Rattle.std.specs.Prelude.{◌≡◌, ◌⊎◌, ◌+◌, ◌≤◌, ℕ, [], ◌∷◌, ◌++◌, cond, length, Some, IfOk, IfSome, IsTrue, MatchResult, false, true};
ghost use Rattle.u_compile.specs.Drafts.{DraftParts, draft};
ghost use Rattle.u_compile.specs.Graphs.{graph, draft_at, enters, is_enter};
ghost use Rattle.u_check.specs.Kinds.{back_named};
ghost use Rattle.u_program.specs.Limits.{IsBlockOf, limits_of};
ghost use Rattle.u_program.specs.declared.program.Version.TheVariants as versions;
ghost use Rattle.u_determinate.specs.Determinate.{IsDeterminateBlock};
ghost use Rattle.u_program.specs.declared.program.Kind.TheVariants as kinds;
ghost use Rattle.u_compile.specs.Kept.{KeepsItself};
ghost use Rattle.u_compile.specs.Fanning.{IsFinished};
ghost use Rattle.u_compile.specs.Scoped.{place, sent_by, IsControlled, IsCalled};
ghost use Rattle.u_compile.specs.Placed.{entry, note, test_of, placed, layout_of, IsSender, IsArrived, OneSends, MayTake, MayCome, MeetsWell, LiesWell, FitsIn, AreFree, IsUntested, stands_against, opens, with_link, with_statement, with_loop, with_test, finished, IsLastFull, EachIsFull, HasNext, EachGoesOn};

use crate::fanning::draft_at;
use crate::graph::{Draft, Full, Graph, Link, Output};
use crate::linked::{comes_from_outside, is_full, leads, leads_alone};
use crate::orderly::{leaves_well, stands_well};
use crate::place::{GuardedRegion, are_guards, opposite};
use std::alloc::{AllocError, Global};
use std::marker::Model;
use u_name::BlockName;
use u_program::{Block, Destination, Kind};

/// What is noted of a statement: its place, and of a `switch` the statement that chooses its side, else 0.
#[derive(Drop)]
pub(crate) struct Note {
    place: GuardedRegion,
    control: u16,
}

impl Model for Note {
    ghost use Rattle.u_compile.specs.Placed.{NoteParts, note};

    ghost Value = { NoteParts };

    ghost view = { λ n. note n.place n.control };
}

impl Note {
    /// A place and a control.
    fn new(place: GuardedRegion, control: u16) -> Note
        ensures { result ≡ note place control }
    {
        Note { place, control }
    }

    /// The place.
    fn place(&self) -> &GuardedRegion
        ensures { result.now ≡ self.now.place }
    {
        &self.place
    }

    /// The statement that chooses the side of a `switch`.
    fn control(&self) -> u16
        ensures { result ≡ self.now.control }
    {
        self.control
    }
}

/// The statement that says whether a loop goes on.
#[derive(Clone, Copy, Debug, PartialEq, Eq)]
pub struct Test {
    /// The number of the loop.
    pub region: u8,
    /// The number of the statement.
    pub control: u16,
}

/// What is noted of the statement of that number, which counts from 1.
#[tactic(auto, using(crate::proofs::Entries::entry_there))]
fn note_at(notes: &[Note], number: u16) -> Option<&Note>
    ensures { IfSome result (λ n. n.now ≡ entry (note (place 0 []) 0) notes.now number) }
{
    if number == 0 {
        return None;
    }
    notes.get(number as usize - 1)
}

/// The place that holds the loop of that number, which counts from 1.
#[tactic(auto, using(crate::proofs::Entries::entry_there))]
fn around(places: &[GuardedRegion], number: u8) -> Option<&GuardedRegion>
    ensures { IfSome result (λ p. p.now ≡ entry (place 0 []) places.now number) }
{
    if number == 0 {
        return None;
    }
    places.get(number as usize - 1)
}

/// The test of the turns of a loop: 0 where none is known.
fn test_of(tests: &[Test], region: u8) -> u16
    ensures { result ≡ test_of tests.now region }
{
    let mut rest = tests;
    while let Some((test, others)) = rest.split_first() {
        if test.region == region {
            return test.control;
        }
        rest = others;
    }
    0
}

/// Whether the one statement stands against the other, which comes.
fn stands_against(new: &Draft, old: &Draft) -> bool
    ensures { result ≡ stands_against new.now old.now }
{
    match new.kind() {
        Kind::Enter(number) => matches!(old.kind(), Kind::Leave) && old.region() == number,
        Kind::Next => matches!(old.kind(), Kind::Next) && old.shares() == new.shares(),
        Kind::Apply(back, _) => match old.kind() {
            Kind::Apply(other, _) => back == other,
            _ => false,
        },
        Kind::End => matches!(old.kind(), Kind::End),
        _ => false,
    }
}

/// Whether none of the statements stands against the one that comes.
#[tactic(auto, using(crate::proofs::PlacedTests::free_more))]
fn are_free(drafts: &[Draft], new: &Draft) -> bool
    ensures { IsTrue result → AreFree drafts.now new.now }
{
    let mut rest = drafts;
    while let Some((draft, others)) = rest.split_first() {
        if stands_against(new, draft) {
            return false;
        }
        rest = others;
    }
    true
}

/// Whether the statement is a `next` or a `last` of the loop.
fn is_tested(draft: &Draft, region: u8) -> bool
    ensures next { draft.now.region ≡ region → draft.now.kind ≡ kinds.Next → result ≡ true }
    ensures last { draft.now.region ≡ region → draft.now.kind ≡ kinds.Last → result ≡ true }
{
    draft.region() == region && matches!(draft.kind(), Kind::Next | Kind::Last)
}

/// Whether the loop has no `next` and no `last`.
#[tactic(auto, using(crate::proofs::PlacedTests::untested_more))]
fn is_untested(drafts: &[Draft], region: u8) -> bool
    ensures { IsTrue result → IsUntested drafts.now region }
{
    let mut rest = drafts;
    while let Some((draft, others)) = rest.split_first() {
        if is_tested(draft, region) {
            return false;
        }
        rest = others;
    }
    true
}

/// Whether the statement is an `enter`.
fn is_enter(draft: &Draft) -> bool
    ensures { result ≡ enters draft.now.kind }
{
    matches!(draft.kind(), Kind::Enter(_))
}

/// Whether a `next` among the statements has the links of that `enter`.
#[tactic(auto, using(crate::proofs::PlacedTests::next_first))]
fn has_next(drafts: &[Draft], enter: u16) -> bool
    ensures { IsTrue result → HasNext drafts.now enter }
{
    let mut rest = drafts;
    while let Some((draft, others)) = rest.split_first() {
        if matches!(draft.kind(), Kind::Next) && draft.shares() == enter {
            return true;
        }
        rest = others;
    }
    false
}

/// Whether the statement is no `enter`, or has a `next` among the statements.
fn keeps_on(drafts: &[Draft], draft: &Draft) -> bool
    ensures { IsTrue result → enters draft.now.kind ≡ true → HasNext drafts.now draft.now.shares }
{
    if !is_enter(draft) {
        return true;
    }
    has_next(drafts, draft.shares())
}

/// Whether each `enter` among the statements has a `next`.
fn goes_on(drafts: &[Draft]) -> bool
    ensures { IsTrue result → EachGoesOn drafts.now drafts.now }
{
    let mut rest = drafts;
    while let Some((draft, others)) = rest.split_first() {
        if !keeps_on(drafts, draft) {
            return false;
        }
        rest = others;
    }
    true
}

/// Whether a statement of the kind is not finished when it is added: a `switch` or an `apply`.
fn opens(kind: &Kind) -> bool
    ensures { result ≡ opens kind.now }
{
    matches!(kind, Kind::Switch | Kind::Apply(_, _))
}

/// A graph with what was noted: of each statement its place, and of a `switch` what chooses its side; the places that
/// hold loops; the tests of their turns; and the number of the statement that is not finished, 0 where there is none.
#[derive(Drop)]
pub(crate) struct Noted {
    graph: Graph,
    notes: Vec<Note>,
    arounds: Vec<GuardedRegion>,
    tests: Vec<Test>,
    unfinished: u16,
    alloc: Global,
}

impl Model for Noted {
    ghost use Rattle.u_compile.specs.Placed.{PlacedParts, placed, IsPlaced};

    ghost Value = { PlacedParts };

    ghost view = { λ n. placed n.graph n.notes.items n.arounds.items n.tests.items n.unfinished };

    ghost invariant = { λ n. IsPlaced
        (placed n.graph n.notes.items n.arounds.items n.tests.items n.unfinished) };
}

impl Noted {
    /// A graph without loops and statements.
    #[tactic(auto, using(crate::proofs::PlacedLaws::none_placed))]
    pub fn new(alloc: Global) -> Noted
        ensures { result ≡ placed (graph [] [] []) [] [] [] 0 }
    {
        Noted {
            graph: Graph::new(alloc),
            notes: Vec::new(alloc),
            arounds: Vec::new(alloc),
            tests: Vec::new(alloc),
            unfinished: 0,
            alloc,
        }
    }

    /// How many statements it has.
    pub fn len(&self) -> usize
        ensures { result ≡ length self.now.graph.statements }
    {
        self.graph.len()
    }

    /// Whether the output is that of an `enter`.
    pub fn is_entered(&self, output: Output) -> bool
        ensures { result ≡ is_enter (draft_at self.now.graph.statements output.statement) }
    {
        self.graph.is_entered(output)
    }

    /// The statement of an output, if it is no `next`.
    fn sender(&self, output: Output) -> Option<&Draft>
        ensures { IfSome result (λ d. IsSender self.now output d.now) }
    {
        match draft_at(self.graph.drafts(), output.statement) {
            Some(draft) => {
                if matches!(draft.kind(), Kind::Next) {
                    return None;
                }
                Some(draft)
            }
            None => None,
        }
    }

    /// Where what an output of the statement sends arrives.
    fn sent(&self, output: Output, draft: &Draft) -> Result<Option<GuardedRegion>, AllocError>
        ensures { IfOk result (λ o. IfSome o (λ at. at ≡ sent_by (layout_of self.now)
            output.statement output.on_false draft.now.region draft.now.kind)) }
    {
        let Some(note) = note_at(&self.notes, output.statement) else {
            return Ok(None);
        };
        let place = note.place();
        match draft.kind() {
            Kind::Switch => Ok(Some(place.side(self.alloc, note.control(), !output.on_false)?)),
            Kind::Enter(number) => Ok(Some(GuardedRegion::new(self.alloc, number))),
            Kind::Last => Ok(Some(GuardedRegion::new(self.alloc, place.region()))),
            Kind::Leave => match around(&self.arounds, draft.region()) {
                Some(around) => Ok(Some(around.copy(self.alloc)?)),
                None => Ok(None),
            },
            _ => Ok(Some(place.copy(self.alloc)?)),
        }
    }

    /// Whether a link and one from the output, whose value arrives there, may lead to one port.
    fn may_meet(
        &self,
        link: &Link,
        output: Output,
        sent: &GuardedRegion,
    ) -> Result<bool, AllocError>
        requires { IsArrived self.now output sent.now }
        ensures { IfOk result
            (λ b. IsTrue b → (link.now.from ≡ output) ⊎ OneSends self.now link.now.from output) }
    {
        if link.from.is(output) {
            return Ok(true);
        }
        let Some(draft) = self.sender(link.from) else {
            return Ok(false);
        };
        let Some(other) = self.sent(link.from, draft)? else {
            return Ok(false);
        };
        match opposite(other.guards(), sent.guards()) {
            Some(_) => Ok(true),
            None => Ok(false),
        }
    }

    /// Whether a link from the output, whose value arrives there, may lead to the port beside that link.
    fn may_lead(
        &self,
        link: &Link,
        output: Output,
        sent: &GuardedRegion,
        to: Destination,
    ) -> Result<bool, AllocError>
        requires { IsArrived self.now output sent.now }
        ensures { IfOk result (λ b. IsTrue b → link.now.to ≡ to →
            (link.now.from ≡ output) ⊎ OneSends self.now link.now.from output) }
    {
        if link.to.statement != to.statement {
            return Ok(true);
        }
        if link.to.port != to.port {
            return Ok(true);
        }
        self.may_meet(link, output, sent)
    }

    /// Whether a link from the output, whose value arrives there, may lead to the port beside those that do.
    fn meets_well(
        &self,
        output: Output,
        sent: &GuardedRegion,
        to: Destination,
    ) -> Result<bool, AllocError>
        requires { IsArrived self.now output sent.now }
        ensures { IfOk result
            (λ b. IsTrue b → MeetsWell self.now output to self.now.graph.links) }
    {
        let mut rest = self.graph.links();
        while let Some((link, others)) = rest.split_first() {
            if !self.may_lead(link, output, sent, to)? {
                return Ok(false);
            }
            rest = others;
        }
        Ok(true)
    }

    /// Whether what arrives there may come to the statement.
    fn takes(&self, sent: &GuardedRegion, statement: u16) -> bool
        ensures { IsTrue result → MayTake self.now sent.now statement }
    {
        let (Some(draft), Some(note)) = (
            draft_at(self.graph.drafts(), statement),
            note_at(&self.notes, statement),
        ) else {
            return false;
        };
        let place = note.place();
        !comes_from_outside(&draft.kind())
            && sent.region() == place.region()
            && are_guards(place.guards(), sent.guards())
    }

    /// Whether the value of the output may come to the port.
    fn may_come(&self, output: Output, to: Destination) -> Result<bool, AllocError>
        ensures { IfOk result (λ b. IsTrue b → MayCome self.now output to) }
    {
        if output.statement >= to.statement {
            return Ok(false);
        }
        let Some(draft) = self.sender(output) else {
            return Ok(false);
        };
        let Some(sent) = self.sent(output, draft)? else {
            return Ok(false);
        };
        if !self.takes(&sent, to.statement) {
            return Ok(false);
        }
        self.meets_well(output, &sent, to)
    }

    /// Whether links may lead to the last statement: to a `switch` only until it is finished.
    fn is_unfinished(&self) -> bool
        ensures { IsTrue result → (d : DraftParts)
            → draft_at self.now.graph.statements (length self.now.graph.statements) ≡ Some d
            → d.kind ≡ kinds.Switch → length self.now.graph.statements ≡ self.now.unfinished }
    {
        let last = self.graph.len();
        match draft_at(self.graph.drafts(), last as u16) {
            Some(draft) => !matches!(draft.kind(), Kind::Switch)
                || self.unfinished as usize == last,
            None => true,
        }
    }

    /// Links an output to a port of the last statement.
    ///
    /// # Errors
    /// `Misplaced` where the value may not come there, `NoMemory` where there is no memory. Nothing is linked.
    pub fn lead(&mut self, from: Output, port: u8) -> Result<(), Full>
        ensures { MatchResult result (λ _. self.new ≡ with_link self.old from port)
            (λ _. self.new ≡ self.old) }
    {
        let to = Destination {
            statement: self.graph.len() as u16,
            port,
        };
        if !self.is_unfinished()
            || !leaves_well(self.graph.drafts(), from.statement, to.statement)
            || !self.may_come(from, to)?
        {
            return Err(Full::Misplaced);
        }
        match self.graph.lead(from, to) {
            Ok(()) => Ok(()),
            Err(full) => Err(full),
        }
    }

    /// Whether a statement of that kind lies in that place.
    fn lies_well(&self, new: &Draft, place: &GuardedRegion) -> bool
        ensures { IsTrue result → LiesWell self.now new.now place.now }
    {
        match new.kind() {
            Kind::Begin | Kind::Param(_) => place.guards().is_empty(),
            Kind::Enter(number) => match around(&self.arounds, number) {
                Some(around) => place.is(around),
                None => false,
            },
            Kind::Next => place.has(test_of(&self.tests, new.region()), true),
            Kind::Last => place.has(test_of(&self.tests, new.region()), false),
            _ => true,
        }
    }

    /// Whether the statement may be added in that place.
    fn fits(&self, new: &Draft, place: &GuardedRegion) -> bool
        ensures { IsTrue result → FitsIn self.now new.now place.now }
    {
        let drafts = self.graph.drafts();
        new.region() == place.region()
            && self.lies_well(new, place)
            && are_free(drafts, new)
            && stands_well(drafts, self.graph.len() as u16 + 1, new, self.unfinished)
    }

    /// Whether each port of the last statement is linked.
    fn is_last_full(&self) -> bool
        ensures { IsTrue result → IsLastFull self.now.graph }
    {
        let last = self.graph.len() as u16;
        let drafts = self.graph.drafts();
        let links = self.graph.links();
        match draft_at(drafts, last) {
            Some(draft) => is_full(links, last, draft),
            None => true,
        }
    }

    /// Whether a statement of the kind may be added to what is not finished: one that is not finished itself only where
    /// there is no other.
    fn may_open(&self, kind: &Kind) -> bool
        ensures { IsTrue result → opens kind.now ≡ true → self.now.unfinished ≡ 0 }
    {
        !opens(kind) || self.unfinished == 0
    }

    /// The statement that is not finished with one more, of that kind and with that number.
    fn unfinished_with(&self, kind: &Kind, number: u16) -> u16
        ensures { result ≡ cond (opens kind.now) number self.now.unfinished }
    {
        if opens(kind) { number } else { self.unfinished }
    }

    /// Adds a statement other than `next` in a place. A `switch` gets what chooses its side.
    ///
    /// # Errors
    /// `Misplaced` where it may not stand there, where a port of the last statement is not linked, or, of a `switch` and
    /// an `apply`, where another one is not finished; those of `Graph::put`. Nothing is added.
    pub fn put(&mut self, place: &GuardedRegion, kind: &Kind, control: u16) -> Result<u16, Full>
        ensures { MatchResult result
            (λ number. (number ≡ length self.old.graph.statements + 1)
            × (self.new ≡ with_statement self.old (draft place.now.region kind.now number) place.now
            control (cond (opens kind.now) number self.old.unfinished)))
            (λ _. self.new ≡ self.old) }
    {
        let number = self.graph.len() as u16 + 1;
        let new = Draft::new(place.region(), *kind, number);
        if !self.may_open(kind) || !self.is_last_full() || !self.fits(&new, place) {
            return Err(Full::Misplaced);
        }
        let unfinished = self.unfinished_with(kind, number);
        let note = Note::new(place.copy(self.alloc)?, control);
        self.notes.push(note)?;
        match self.graph.put(place.region(), kind) {
            Ok(added) => {
                self.unfinished = unfinished;
                Ok(added)
            }
            Err(full) => {
                self.notes.pop();
                Err(full)
            }
        }
    }

    /// Adds a `next` of an `enter` in a place.
    ///
    /// # Errors
    /// `Misplaced` where it may not stand there, or where a port of the last statement is not linked; those of
    /// `Graph::put_next`. Nothing is added.
    pub fn put_next(&mut self, place: &GuardedRegion, enter: u16) -> Result<u16, Full>
        ensures { MatchResult result
            (λ number. (number ≡ length self.old.graph.statements + 1)
            × (self.new ≡ with_statement self.old (draft place.now.region kinds.Next enter)
            place.now 0 self.old.unfinished))
            (λ _. self.new ≡ self.old) }
    {
        // Brings in that it is a graph.
        let _ = self.graph.len();
        let new = Draft::new(place.region(), Kind::Next, enter);
        if !self.is_last_full() || !self.fits(&new, place) {
            return Err(Full::Misplaced);
        }
        let note = Note::new(place.copy(self.alloc)?, 0);
        self.notes.push(note)?;
        match self.graph.put_next(place.region(), enter) {
            Ok(added) => Ok(added),
            Err(full) => {
                self.notes.pop();
                Err(full)
            }
        }
    }

    /// Adds a loop that stands in a place, and returns its number.
    ///
    /// # Errors
    /// Those of `Graph::put_loop`. Nothing is added.
    pub fn put_loop(&mut self, around: &GuardedRegion) -> Result<u8, Full>
        ensures { MatchResult result
            (λ number. (number ≡ length self.old.graph.loops + 1)
            × (self.new ≡ with_loop self.old around.now))
            (λ _. self.new ≡ self.old) }
    {
        // Brings in that it is a graph.
        let _ = self.graph.len();
        let place = around.copy(self.alloc)?;
        self.arounds.push(place)?;
        match self.graph.put_loop(around.region()) {
            Ok(number) => Ok(number),
            Err(full) => {
                self.arounds.pop();
                Err(full)
            }
        }
    }

    /// Says which statement tests whether a loop goes on.
    ///
    /// # Errors
    /// `Misplaced` where the loop has a `next` or a `last`, `NoMemory` where there is no memory. Nothing changes.
    pub fn set_test(&mut self, region: u8, control: u16) -> Result<(), Full>
        ensures { MatchResult result (λ _. self.new ≡ with_test self.old region control)
            (λ _. self.new ≡ self.old) }
    {
        // Brings in that it is a graph.
        let _ = self.graph.len();
        if !is_untested(self.graph.drafts(), region) {
            return Err(Full::Misplaced);
        }
        self.tests.push(Test { region, control })?;
        Ok(())
    }

    /// Whether the links of the `switch` that is not finished are as they should be: that output alone says which side,
    /// and its statement is the one that was noted.
    #[tactic(auto, using(crate::proofs::PlacedTests::controlled))]
    fn is_controlled(&self, from: Output) -> bool
        ensures { IsTrue result
            → IsControlled (layout_of self.now) self.now.graph self.now.unfinished }
    {
        let (Some(note), Some(draft)) = (note_at(&self.notes, self.unfinished), self.sender(from))
        else {
            return false;
        };
        let to = Destination {
            statement: self.unfinished,
            port: 2,
        };
        if note.control() != from.statement {
            return false;
        }
        if is_enter(draft) {
            return false;
        }
        let links = self.graph.links();
        if !leads(links, from, to) {
            return false;
        }
        leads_alone(links, from, to)
    }

    /// Whether the statement is an `apply` that names that `back`.
    fn names(&self, apply: u16, back: u16) -> bool
        ensures { IsTrue result → (d : DraftParts)
            → draft_at self.now.graph.statements apply ≡ Some d → back_named d.kind ≡ Some back }
    {
        match draft_at(self.graph.drafts(), apply) {
            Some(draft) => match draft.kind() {
                Kind::Apply(named, _) => named == back,
                _ => false,
            },
            None => false,
        }
    }

    /// Whether it is a `back` in the place of the statement that is not finished, behind it.
    fn is_called(&self, back: u16) -> bool
        ensures { IsTrue result → IsCalled (layout_of self.now) self.now.graph.statements
            self.now.unfinished back }
    {
        let (Some(one), Some(other), Some(draft)) = (
            note_at(&self.notes, self.unfinished),
            note_at(&self.notes, back),
            draft_at(self.graph.drafts(), back),
        ) else {
            return false;
        };
        if !matches!(draft.kind(), Kind::Back) {
            return false;
        }
        self.unfinished < back && one.place().is(other.place())
    }

    /// Whether the statement that is not finished is a `switch`.
    fn is_switch(&self) -> bool
        ensures { IsTrue result → (d : DraftParts)
            → draft_at self.now.graph.statements self.now.unfinished ≡ Some d
            → d.kind ≡ kinds.Switch }
    {
        match draft_at(self.graph.drafts(), self.unfinished) {
            Some(draft) => matches!(draft.kind(), Kind::Switch),
            None => false,
        }
    }

    /// Whether no statement is unfinished.
    fn is_finished(&self) -> bool
        ensures { IsTrue result → self.now.unfinished ≡ 0 }
    {
        self.unfinished == 0
    }

    /// Finishes a `switch`, whose side that output chooses.
    ///
    /// # Errors
    /// `Misplaced` where there is none, or where not that output alone leads to its port 2. Nothing changes.
    pub fn finish_switch(&mut self, from: Output) -> Result<(), Full>
        ensures { MatchResult result (λ _. self.new ≡ finished self.old)
            (λ _. self.new ≡ self.old) }
    {
        if !self.is_switch() || !self.is_controlled(from) {
            return Err(Full::Misplaced);
        }
        self.unfinished = 0;
        Ok(())
    }

    /// Finishes an `apply` whose `back` that is.
    ///
    /// # Errors
    /// `Misplaced` where there is none, or where the `back` does not stand in its place behind it. Nothing changes.
    pub fn finish_call(&mut self, back: u16) -> Result<(), Full>
        ensures { MatchResult result (λ _. self.new ≡ finished self.old)
            (λ _. self.new ≡ self.old) }
    {
        if !self.names(self.unfinished, back) || !self.is_called(back) {
            return Err(Full::Misplaced);
        }
        self.unfinished = 0;
        Ok(())
    }

    /// The graph as a block of version 2 with this name. It is determinate, and keeps the rules of the checker.
    ///
    /// # Errors
    /// Those of `Graph::complete`; `Misplaced` where a statement or a port is not finished, or an `enter` has no `next`.
    pub fn complete(self, name: BlockName) -> Result<Block, Full>
        ensures block { IfOk result (λ b. IsBlockOf (limits_of versions.Two) b) }
        ensures determinate { IfOk result (λ b. IsDeterminateBlock b) }
        ensures linked { IfOk result (λ _. EachIsFull self.graph) }
        ensures next { IfOk result (λ _. EachGoesOn self.graph.statements self.graph.statements) }
        ensures kept { IfOk result (λ b. KeepsItself b) }
        ensures finished { IfOk result (IsFinished name self.graph) }
    {
        if !self.is_finished() {
            return Err(Full::Misplaced);
        }
        if !self.is_last_full() || !goes_on(self.graph.drafts()) {
            return Err(Full::Misplaced);
        }
        let Noted { graph, alloc, .. } = self;
        graph.complete(alloc, name)
    }
}
