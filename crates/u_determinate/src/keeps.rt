//! What each statement of a determinate block keeps.
ghost use Rattle.std.specs.Prelude.{◌≡◌, ◌+◌, ◌≤◌, ◌<◌, ◌↔◌, ◌⊎◌, ℕ, Bool, true, false, IsTrue, length, Contains};
ghost use Rattle.u_program.specs.declared.program.Kind.TheVariants.{Enter, Next, Last, Back, End};
ghost use Rattle.u_determinate.specs.Arcs.{ArcFrom};
ghost use Rattle.u_determinate.specs.Guards.{Stands, HasGuard, ArcHasGuard};
ghost use Rattle.u_determinate.specs.Determinate.{Exclude, ArcsExclude, EnterAndNext, MayMeet, OneApply};
ghost use Rattle.u_determinate.specs.declared.incoming.Link.{Link};
ghost use Rattle.u_determinate.specs.Flow.{AreSources, AreMarks, AreAllMarks, IsMarked, arc_of};
ghost use Rattle.u_determinate.specs.Meetings.{Asks, ArcsMeet, ArcsMayMeet, ArcsOpposed, Opposed};
ghost use Rattle.u_determinate.specs.Meetings.{NoEndBefore, IsNoLaterEnd, ReturnsOneCall};
ghost use Rattle.u_determinate.specs.Meetings.{IsLastOf, LastsExclude, NextExcludes};

use crate::hints::Hints;
use crate::incoming::{Link, statement_of};
use crate::marking::{Flow, is_marked};
use crate::sides::{ControlMarks, Side};
use crate::verdict::Meeting;
use u_program::Kind;

/// The statements of a block, what leads to each, the guards of each control, and hints at controls.
#[derive(Clone, Copy)]
pub(crate) struct Guarded<'a> {
    pub flow: Flow<'a>,
    pub guards: &'a [ControlMarks],
    pub hints: &'a Hints,
}

/// Whether the links are one arc.
fn is_same_arc(one: &Link, other: &Link) -> bool
    ensures { IsTrue result ↔ (arc_of one.now ≡ arc_of other.now) }
{
    one.statement == other.statement && one.on_false == other.on_false && one.place == other.place
}

/// Whether each of the numbers is that one.
fn all_are(numbers: &[usize], it: usize) -> bool
    ensures { IsTrue result ↔ ((n : ℕ) → Contains numbers.now n → n ≡ it) }
{
    for number in numbers {
        if *number != it {
            return false;
        }
    }
    true
}

/// Whether the numbers are one.
fn are_one(numbers: &[usize]) -> bool
    ensures { IsTrue result
        ↔ ((m n : ℕ) → Contains numbers.now m → Contains numbers.now n → m ≡ n) }
{
    match numbers.get(0) {
        Some(first) => all_are(numbers, *first),
        None => true,
    }
}

impl Guarded<'_> {
    /// Whether the arc has the control's guard for that truth value.
    fn on_side(&self, guards: &ControlMarks, value: bool, link: &Link) -> bool
        requires sources { AreSources self.now.flow.statements.now self.now.flow.sources.now }
        requires marks { AreMarks self.now.flow.statements.now guards.now.control guards.now }
        ensures { IsTrue result ↔ ArcHasGuard self.now.flow.statements.now guards.now.control value
            (arc_of link.now) }
    {
        let side = Side {
            flow: self.flow,
            control: guards.control,
            passed: &guards.passed,
            value,
        };
        if value {
            side.arc_has(&guards.on_true, link)
        } else {
            side.arc_has(&guards.on_false, link)
        }
    }

    /// Whether one link has the guard for true and the other the guard for false.
    fn are_sides(&self, guards: &ControlMarks, on_true: &Link, on_false: &Link) -> bool
        requires sources { AreSources self.now.flow.statements.now self.now.flow.sources.now }
        requires marks { AreMarks self.now.flow.statements.now guards.now.control guards.now }
        ensures { IsTrue result
            ↔ (ArcHasGuard self.now.flow.statements.now guards.now.control true (arc_of on_true.now)
            × ArcHasGuard self.now.flow.statements.now guards.now.control false
            (arc_of on_false.now)) }
    {
        self.on_side(guards, true, on_true) && self.on_side(guards, false, on_false)
    }

    /// Whether the links have opposite guards of the control.
    fn are_opposed(&self, guards: &ControlMarks, one: &Link, other: &Link) -> bool
        requires sources { AreSources self.now.flow.statements.now self.now.flow.sources.now }
        requires marks { AreMarks self.now.flow.statements.now guards.now.control guards.now }
        ensures { IsTrue result ↔ ArcsOpposed self.now.flow.statements.now guards.now.control
            (arc_of one.now) (arc_of other.now) }
    {
        self.are_sides(guards, one, other) || self.are_sides(guards, other, one)
    }

    /// Whether the control at which the hint is excludes one link by the other.
    fn hint_excludes(&self, hint: Option<usize>, one: &Link, other: &Link) -> bool
        requires sources { AreSources self.now.flow.statements.now self.now.flow.sources.now }
        requires all { AreAllMarks self.now.flow.statements.now self.now.guards.now }
        ensures { IsTrue result
            → ArcsExclude self.now.flow.statements.now (arc_of one.now) (arc_of other.now) }
    {
        match hint {
            Some(control) => match self.guards.get(control) {
                Some(guards) => self.are_opposed(guards, one, other),
                None => false,
            },
            None => false,
        }
    }

    /// Whether some control excludes one link by the other.
    fn exclude(&self, one: &Link, other: &Link) -> bool
        requires sources { AreSources self.now.flow.statements.now self.now.flow.sources.now }
        requires all { AreAllMarks self.now.flow.statements.now self.now.guards.now }
        ensures { IsTrue result
            ↔ ArcsExclude self.now.flow.statements.now (arc_of one.now) (arc_of other.now) }
    {
        if self.hint_excludes(self.hints.of_arcs(one, other), one, other) {
            return true;
        }
        for guards in self.guards {
            if self.are_opposed(guards, one, other) {
                return true;
            }
        }
        false
    }

    /// Whether the arc comes from an `enter`.
    fn comes_from_enter(&self, link: &Link) -> bool
        ensures { IsTrue result ↔ ((l : ℕ)
            × ArcFrom self.now.flow.statements.now (arc_of link.now) (Enter l)) }
    {
        match statement_of(self.flow.statements, link.statement) {
            Some(statement) => matches!(statement.kind(), Kind::Enter(_)),
            None => false,
        }
    }

    /// Whether the arc comes from a `next`.
    fn comes_from_next(&self, link: &Link) -> bool
        ensures { IsTrue result ↔ ArcFrom self.now.flow.statements.now (arc_of link.now) Next }
    {
        match statement_of(self.flow.statements, link.statement) {
            Some(statement) => matches!(statement.kind(), Kind::Next),
            None => false,
        }
    }

    /// Whether one comes from an `enter` and the other from a `next`.
    fn enter_and_next(&self, enter: &Link, next: &Link) -> bool
        ensures { IsTrue result
            ↔ EnterAndNext self.now.flow.statements.now (arc_of enter.now) (arc_of next.now) }
    {
        self.comes_from_enter(enter) && self.comes_from_next(next)
    }

    /// Whether one comes from an `enter` and the other from a `next`, or some control excludes one
    /// by the other.
    fn are_apart(&self, one: &Link, other: &Link) -> bool
        requires sources { AreSources self.now.flow.statements.now self.now.flow.sources.now }
        requires all { AreAllMarks self.now.flow.statements.now self.now.guards.now }
        ensures { IsTrue result
            ↔ (EnterAndNext self.now.flow.statements.now (arc_of other.now) (arc_of one.now)
            ⊎ ArcsExclude self.now.flow.statements.now (arc_of one.now) (arc_of other.now)) }
    {
        self.enter_and_next(other, one) || self.exclude(one, other)
    }

    /// Whether no place gets a value from each of two links.
    fn are_distinct(&self, one: &Link, other: &Link) -> bool
        requires sources { AreSources self.now.flow.statements.now self.now.flow.sources.now }
        requires all { AreAllMarks self.now.flow.statements.now self.now.guards.now }
        ensures { IsTrue result
            ↔ (EnterAndNext self.now.flow.statements.now (arc_of one.now) (arc_of other.now)
            ⊎ (EnterAndNext self.now.flow.statements.now (arc_of other.now) (arc_of one.now)
            ⊎ ArcsExclude self.now.flow.statements.now (arc_of one.now) (arc_of other.now))) }
    {
        self.enter_and_next(one, other) || self.are_apart(one, other)
    }

    /// Whether the two links may lead to one port.
    fn may_meet(&self, one: &Link, other: &Link) -> bool
        requires sources { AreSources self.now.flow.statements.now self.now.flow.sources.now }
        requires all { AreAllMarks self.now.flow.statements.now self.now.guards.now }
        ensures { IsTrue result
            ↔ MayMeet self.now.flow.statements.now (arc_of one.now) (arc_of other.now) }
    {
        is_same_arc(one, other) || self.are_distinct(one, other)
    }

    /// Whether the link and each other one to its port may meet.
    fn meets_all(&self, links: &[Link], one: &Link) -> bool
        requires sources { AreSources self.now.flow.statements.now self.now.flow.sources.now }
        requires all { AreAllMarks self.now.flow.statements.now self.now.guards.now }
        ensures { IsTrue result ↔ ((k : Link) → Contains links.now k → k.port ≡ one.now.port
            → MayMeet self.now.flow.statements.now (arc_of one.now) (arc_of k)) }
    {
        for other in links {
            if other.port == one.port && !self.may_meet(one, other) {
                return false;
            }
        }
        true
    }

    /// Whether those of the links that lead to one port may meet.
    fn all_meet(&self, links: &[Link]) -> bool
        requires sources { AreSources self.now.flow.statements.now self.now.flow.sources.now }
        requires all { AreAllMarks self.now.flow.statements.now self.now.guards.now }
        ensures { IsTrue result ↔ ((j k : Link) → Contains links.now j → Contains links.now k
            → k.port ≡ j.port
            → MayMeet self.now.flow.statements.now (arc_of j) (arc_of k)) }
    {
        for (i, one) in links.iter().enumerate() {
            if !self.meets_all(&links[..i], one) {
                return false;
            }
        }
        true
    }

    /// Whether those arcs to statement `number` that lead to one port may meet.
    fn arcs_meet(&self, number: usize) -> bool
        requires sources { AreSources self.now.flow.statements.now self.now.flow.sources.now }
        requires all { AreAllMarks self.now.flow.statements.now self.now.guards.now }
        requires within { number ≤ length self.now.flow.statements.now }
        ensures { IsTrue result ↔ ArcsMeet self.now.flow.statements.now number }
    {
        match self.flow.sources.get(number) {
            Some(sources) => self.all_meet(&sources.links),
            None => false,
        }
    }

    /// Whether the arcs to each port of statement `number` may meet.
    fn keeps_arcs(&self, number: usize) -> bool
        requires sources { AreSources self.now.flow.statements.now self.now.flow.sources.now }
        requires all { AreAllMarks self.now.flow.statements.now self.now.guards.now }
        ensures { IsTrue result ↔ ArcsMayMeet self.now.flow.statements.now number }
    {
        match statement_of(self.flow.statements, number) {
            Some(_) => self.arcs_meet(number),
            None => true,
        }
    }

    /// Whether statement `number` is an `end`.
    fn is_end(&self, number: usize) -> bool
        ensures { IsTrue result ↔ Stands self.now.flow.statements.now number End }
    {
        match statement_of(self.flow.statements, number) {
            Some(statement) => matches!(statement.kind(), Kind::End),
            None => false,
        }
    }

    /// Whether no statement before that number is an `end`.
    fn no_end_before(&self, number: usize) -> bool
        ensures { IsTrue result ↔ NoEndBefore self.now.flow.statements.now number }
    {
        for other in 0..number {
            if self.is_end(other) {
                return false;
            }
        }
        true
    }

    /// Whether statement `number` is no `end` behind another one.
    fn keeps_ends(&self, number: usize) -> bool
        ensures { IsTrue result ↔ IsNoLaterEnd self.now.flow.statements.now number }
    {
        !self.is_end(number) || self.no_end_before(number)
    }

    /// Whether at most one `apply` names that `back`.
    fn has_one_call(&self, number: usize) -> bool
        requires sources { AreSources self.now.flow.statements.now self.now.flow.sources.now }
        requires back { Stands self.now.flow.statements.now number Back }
        requires within { number ≤ length self.now.flow.statements.now }
        ensures { IsTrue result ↔ OneApply self.now.flow.statements.now number }
    {
        match self.flow.sources.get(number) {
            Some(sources) => are_one(&sources.behind),
            None => false,
        }
    }

    /// Whether statement `number` is a `back`.
    fn is_back(&self, number: usize) -> bool
        ensures { IsTrue result ↔ Stands self.now.flow.statements.now number Back }
    {
        match statement_of(self.flow.statements, number) {
            Some(statement) => matches!(statement.kind(), Kind::Back),
            None => false,
        }
    }

    /// Whether statement `number` is no `back` that two statements name.
    fn keeps_calls(&self, number: usize) -> bool
        requires sources { AreSources self.now.flow.statements.now self.now.flow.sources.now }
        ensures { IsTrue result ↔ ReturnsOneCall self.now.flow.statements.now number }
    {
        !self.is_back(number) || self.has_one_call(number)
    }

    /// Whether one statement has the control's guard for true and the other the guard for false.
    fn have_sides(&self, guards: &ControlMarks, on_true: usize, on_false: usize) -> bool
        requires marks { AreMarks self.now.flow.statements.now guards.now.control guards.now }
        ensures { IsTrue result
            ↔ (HasGuard self.now.flow.statements.now guards.now.control true on_true
            × HasGuard self.now.flow.statements.now guards.now.control false on_false) }
    {
        is_marked(&guards.on_true, on_true) && is_marked(&guards.on_false, on_false)
    }

    /// Whether the statements have opposite guards of the control.
    fn have_opposed(&self, guards: &ControlMarks, one: usize, other: usize) -> bool
        requires marks { AreMarks self.now.flow.statements.now guards.now.control guards.now }
        ensures { IsTrue result
            ↔ Opposed self.now.flow.statements.now guards.now.control one other }
    {
        self.have_sides(guards, one, other) || self.have_sides(guards, other, one)
    }

    /// Whether the control at which the hint is excludes statement `one` by statement `other`.
    fn hint_parts(&self, hint: Option<usize>, one: usize, other: usize) -> bool
        requires all { AreAllMarks self.now.flow.statements.now self.now.guards.now }
        ensures { IsTrue result → Exclude self.now.flow.statements.now one other }
    {
        match hint {
            Some(control) => match self.guards.get(control) {
                Some(guards) => self.have_opposed(guards, one, other),
                None => false,
            },
            None => false,
        }
    }

    /// Whether some control excludes statement `one` by statement `other`.
    fn statements_exclude(&self, one: usize, other: usize) -> bool
        requires all { AreAllMarks self.now.flow.statements.now self.now.guards.now }
        ensures { IsTrue result ↔ Exclude self.now.flow.statements.now one other }
    {
        if self.hint_parts(self.hints.of_statements(one, other), one, other) {
            return true;
        }
        for guards in self.guards {
            if self.have_opposed(guards, one, other) {
                return true;
            }
        }
        false
    }

    /// Whether statement `number` is a `last` of that loop.
    fn is_last_of(&self, region: u8, number: usize) -> bool
        ensures { IsTrue result ↔ IsLastOf self.now.flow.statements.now region number }
    {
        match statement_of(self.flow.statements, number) {
            Some(statement) => match statement.kind() {
                Kind::Last => statement.region() == region,
                _ => false,
            },
            None => false,
        }
    }

    /// Whether each `last` of that loop and statement `number` exclude each other.
    fn lasts_exclude(&self, region: u8, number: usize) -> bool
        requires all { AreAllMarks self.now.flow.statements.now self.now.guards.now }
        ensures { IsTrue result ↔ LastsExclude self.now.flow.statements.now region number }
    {
        for other in 0..self.flow.statements.len() + 1 {
            if self.is_last_of(region, other) && !self.statements_exclude(number, other) {
                return false;
            }
        }
        true
    }

    /// Whether statement `number` is no `next`, or each `last` of its loop excludes it.
    fn keeps_turns(&self, number: usize) -> bool
        requires all { AreAllMarks self.now.flow.statements.now self.now.guards.now }
        ensures { IsTrue result ↔ NextExcludes self.now.flow.statements.now number }
    {
        match statement_of(self.flow.statements, number) {
            Some(next) => match next.kind() {
                Kind::Next => self.lasts_exclude(next.region(), number),
                _ => true,
            },
            None => true,
        }
    }

    /// Whether statement `number` keeps what it does where that does not meet at it.
    pub(crate) fn keeps(&self, meeting: Meeting, number: usize) -> bool
        requires sources { AreSources self.now.flow.statements.now self.now.flow.sources.now }
        requires all { AreAllMarks self.now.flow.statements.now self.now.guards.now }
        ensures { IsTrue result ↔ Asks meeting self.now.flow.statements.now number }
    {
        match meeting {
            Meeting::Arcs => self.keeps_arcs(number),
            Meeting::Ends => self.keeps_ends(number),
            Meeting::Calls => self.keeps_calls(number),
            Meeting::Turns => self.keeps_turns(number),
        }
    }
}
