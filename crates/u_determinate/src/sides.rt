//! Which guards the statements of a block have, found along the arcs, and in rounds until nothing is new.
ghost use Rattle.std.specs.Prelude.{◌≡◌, ◌+◌, ◌<◌, ◌≤◌, ◌↔◌, ◌⊎◌, ℕ, Bool, IsTrue, IfOk, length, Contains};
ghost use Rattle.u_check.specs.Kinds.{ports_of};
ghost use Rattle.u_check.specs.Rules.{Arc};
ghost use Rattle.u_determinate.specs.Arcs.{Leads};
ghost use Rattle.u_determinate.specs.Guards.{IsPassed, ArcOf, StatementOf, HasGuard};
ghost use Rattle.u_determinate.specs.declared.incoming.Link.{Link};
ghost use Rattle.u_determinate.specs.Flow.{AreSources, AllBehind, IsSide, IsMarked, arc_of, Marked, Swept, SomePort};
ghost use Rattle.u_determinate.specs.Flow.{AreMarks, AreAllMarks};

use crate::incoming::{Link, statement_of};
use crate::marking::{Flow, is_marked};
use crate::trail::Course;
use std::alloc::{AllocError, Global};
use u_check::ports_of;
use u_program::Kind;

/// The guards of one control: by their numbers, the statements that hand on its value, and those
/// that fire only if it gives true, and only if it gives false.
#[derive(Drop)]
pub(crate) struct ControlMarks {
    pub control: usize,
    pub passed: Vec<bool>,
    pub on_true: Vec<bool>,
    pub on_false: Vec<bool>,
}

/// One side of a control: the statements that hand on its value, and the truth value.
#[derive(Clone, Copy)]
pub(crate) struct Side<'a, 'b> {
    pub flow: Flow<'a>,
    pub control: usize,
    pub passed: &'b [bool],
    pub value: bool,
}

/// Whether each of the numbers is marked.
fn are_marked(marks: &[bool], numbers: &[usize]) -> bool
    ensures { IsTrue result ↔ ((n : ℕ) → Contains numbers.now n → IsMarked marks.now n) }
{
    for number in numbers {
        if !is_marked(marks, *number) {
            return false;
        }
    }
    true
}

impl Side<'_, '_> {
    /// Whether each statement behind statement `number` is marked.
    fn all_behind(&self, marks: &[bool], number: usize) -> bool
        requires sources { AreSources self.now.flow.statements.now self.now.flow.sources.now }
        requires within { number ≤ length self.now.flow.statements.now }
        ensures { IsTrue result
            ↔ AllBehind self.now.flow.statements.now (IsMarked marks.now) number }
    {
        match self.flow.sources.get(number) {
            Some(sources) => are_marked(marks, &sources.behind),
            None => false,
        }
    }

    /// Whether the arc comes from the list for this side, and the only arc to the `switch`'s control
    /// from a statement that hands on the control's value.
    fn is_side(&self, link: &Link) -> bool
        requires sources { AreSources self.now.flow.statements.now self.now.flow.sources.now }
        requires within { link.now.statement ≤ length self.now.flow.statements.now }
        ensures { IsTrue result ↔ IsSide self.now.flow.statements.now (IsMarked self.now.passed.now)
            self.now.value (arc_of link.now) }
    {
        link.on_false != self.value && self.flow.takes_marked(self.passed, link.statement, 2)
    }

    /// Whether the arc from a `switch` has the guard, where the marked statements have it.
    fn switch_has(&self, marks: &[bool], link: &Link) -> bool
        requires sources { AreSources self.now.flow.statements.now self.now.flow.sources.now }
        requires within { link.now.statement ≤ length self.now.flow.statements.now }
        ensures { IsTrue result ↔ (IsMarked marks.now link.now.statement
            ⊎ IsSide self.now.flow.statements.now (IsMarked self.now.passed.now) self.now.value
            (arc_of link.now)) }
    {
        is_marked(marks, link.statement) || self.is_side(link)
    }

    /// Whether the arc has the guard, where the marked statements have it.
    pub(crate) fn arc_has(&self, marks: &[bool], link: &Link) -> bool
        requires sources { AreSources self.now.flow.statements.now self.now.flow.sources.now }
        requires passed { (n : ℕ) → IsMarked self.now.passed.now n
            ↔ IsPassed self.now.flow.statements.now self.now.control n }
        ensures { IsTrue result ↔ ArcOf self.now.flow.statements.now self.now.control
            self.now.value (IsMarked marks.now) (arc_of link.now) }
    {
        match statement_of(self.flow.statements, link.statement) {
            Some(statement) => match statement.kind() {
                Kind::Enter(_) => false,
                Kind::Next => false,
                Kind::Last => false,
                Kind::Leave => self.all_behind(marks, link.statement),
                Kind::Switch => self.switch_has(marks, link),
                _ => is_marked(marks, link.statement),
            },
            None => false,
        }
    }

    /// Whether each of the links that leads to that port has it.
    fn links_have(&self, marks: &[bool], links: &[Link], port: usize) -> bool
        requires sources { AreSources self.now.flow.statements.now self.now.flow.sources.now }
        requires passed { (n : ℕ) → IsMarked self.now.passed.now n
            ↔ IsPassed self.now.flow.statements.now self.now.control n }
        ensures { IsTrue result ↔ ((k : Link) → Contains links.now k → k.port ≡ port
            → ArcOf self.now.flow.statements.now self.now.control self.now.value
            (IsMarked marks.now) (arc_of k)) }
    {
        for link in links {
            if usize::from(link.port) == port && !self.arc_has(marks, link) {
                return false;
            }
        }
        true
    }

    /// Whether each arc to that port of statement `number` has it.
    fn port_has(&self, marks: &[bool], number: usize, port: usize) -> bool
        requires sources { AreSources self.now.flow.statements.now self.now.flow.sources.now }
        requires passed { (n : ℕ) → IsMarked self.now.passed.now n
            ↔ IsPassed self.now.flow.statements.now self.now.control n }
        requires within { number ≤ length self.now.flow.statements.now }
        ensures { IsTrue result ↔ ((a : Arc) → Leads self.now.flow.statements.now number port a
            → ArcOf self.now.flow.statements.now self.now.control self.now.value
            (IsMarked marks.now) a) }
    {
        match self.flow.sources.get(number) {
            Some(sources) => self.links_have(marks, &sources.links, port),
            None => false,
        }
    }

    /// Whether each arc to some port of statement `number`, which is of that kind, has it.
    fn some_port_has(&self, marks: &[bool], number: usize, kind: &Kind) -> bool
        requires sources { AreSources self.now.flow.statements.now self.now.flow.sources.now }
        requires passed { (n : ℕ) → IsMarked self.now.passed.now n
            ↔ IsPassed self.now.flow.statements.now self.now.control n }
        requires within { number ≤ length self.now.flow.statements.now }
        ensures { IsTrue result ↔ SomePort self.now.flow.statements.now
            (ArcOf self.now.flow.statements.now self.now.control self.now.value
            (IsMarked marks.now)) number (ports_of kind.now) }
    {
        for place in 0..ports_of(kind) {
            if self.port_has(marks, number, place + 1) {
                return true;
            }
        }
        false
    }

    /// Whether statement `number` has it.
    fn statement_has(&self, marks: &[bool], number: usize) -> bool
        requires sources { AreSources self.now.flow.statements.now self.now.flow.sources.now }
        requires passed { (n : ℕ) → IsMarked self.now.passed.now n
            ↔ IsPassed self.now.flow.statements.now self.now.control n }
        ensures { IsTrue result ↔ StatementOf self.now.flow.statements.now self.now.control
            self.now.value (IsMarked marks.now) number }
    {
        match statement_of(self.flow.statements, number) {
            Some(statement) => match statement.kind() {
                Kind::Begin => false,
                Kind::Param(_) => false,
                Kind::Back => self.all_behind(marks, number),
                kind => self.some_port_has(marks, number, kind),
            },
            None => false,
        }
    }

    /// Whether the number has a mark to come, and follows.
    fn is_next(&self, marks: &[bool], number: usize) -> bool
        requires sources { AreSources self.now.flow.statements.now self.now.flow.sources.now }
        requires passed { (n : ℕ) → IsMarked self.now.passed.now n
            ↔ IsPassed self.now.flow.statements.now self.now.control n }
        ensures within { IsTrue result → number < length marks.now }
        ensures follows { IsTrue result → StatementOf self.now.flow.statements.now
            self.now.control self.now.value (IsMarked marks.now) number }
    {
        number < marks.len() && !is_marked(marks, number) && self.statement_has(marks, number)
    }

    /// Marks those of the numbers that follow.
    fn mark_all(&self, numbers: &[usize], marks: &mut [bool])
        requires sources { AreSources self.now.flow.statements.now self.now.flow.sources.now }
        requires passed { (n : ℕ) → IsMarked self.now.passed.now n
            ↔ IsPassed self.now.flow.statements.now self.now.control n }
        ensures { Marked (StatementOf self.now.flow.statements.now self.now.control
            self.now.value) marks.old marks.new }
    {
        for number in numbers {
            if self.is_next(marks, *number) {
                marks[*number] = true;
            }
        }
    }

    /// Marks what follows. Whether any was new.
    fn sweep(&self, marks: &mut [bool]) -> bool
        requires sources { AreSources self.now.flow.statements.now self.now.flow.sources.now }
        requires passed { (n : ℕ) → IsMarked self.now.passed.now n
            ↔ IsPassed self.now.flow.statements.now self.now.control n }
        ensures { Swept (StatementOf self.now.flow.statements.now self.now.control
            self.now.value) marks.old marks.new result }
    {
        let mut new = false;
        for number in 0..marks.len() {
            if !is_marked(marks, number) && self.statement_has(marks, number) {
                marks[number] = true;
                new = true;
            }
        }
        new
    }

    /// The statements that have it.
    fn having(&self, alloc: Global) -> Result<Vec<bool>, AllocError>
        requires sources { AreSources self.now.flow.statements.now self.now.flow.sources.now }
        requires passed { (n : ℕ) → IsMarked self.now.passed.now n
            ↔ IsPassed self.now.flow.statements.now self.now.control n }
        ensures { IfOk result (λ v. (n : ℕ) → IsMarked v.items n
            ↔ HasGuard self.now.flow.statements.now self.now.control self.now.value n) }
    {
        let mut marks = vec![in alloc; false; self.flow.statements.len() + 1]?;
        let course = Course {
            statements: self.flow.statements,
            ahead: self.flow.ahead,
        };
        let numbers = course.turning(alloc, self.passed, self.value)?;
        self.mark_all(&numbers, &mut marks);
        let mut new = true;
        while new {
            new = self.sweep(&mut marks);
        }
        Ok(marks)
    }
}

/// The guards of the control.
fn marks_of(alloc: Global, flow: Flow<'_>, control: usize) -> Result<ControlMarks, AllocError>
    requires sources { AreSources flow.statements.now flow.sources.now }
    requires within { control ≤ length flow.statements.now }
    ensures { IfOk result (AreMarks flow.entry.statements.now control) }
{
    let passed = flow.passed(alloc, control)?;
    let on_true = Side {
        flow,
        control,
        passed: &passed,
        value: true,
    }
    .having(alloc)?;
    let on_false = Side {
        flow,
        control,
        passed: &passed,
        value: false,
    }
    .having(alloc)?;
    Ok(ControlMarks {
        control,
        passed,
        on_true,
        on_false,
    })
}

/// The guards of each control.
pub(crate) fn all_marks(alloc: Global, flow: Flow<'_>) -> Result<Vec<ControlMarks>, AllocError>
    requires sources { AreSources flow.statements.now flow.sources.now }
    ensures { IfOk result (λ v. AreAllMarks flow.entry.statements.now v.items) }
{
    let mut all = Vec::new(alloc);
    for control in 0..flow.statements.len() + 1 {
        let guards = marks_of(alloc, flow, control)?;
        all.push(guards)?;
    }
    Ok(all)
}
