//! Which guards the statements of a block have, found along the arcs, and in rounds until nothing is new.
ghost use Rattle.std.specs.Prelude.{◌≡◌, ◌+◌, ◌<◌, ◌≤◌, ◌↔◌, ℕ, Bool, IsTrue, IfOk, IfSome, IfNone, length, Contains};
ghost use Rattle.u_determinate.specs.Guards.{Passes, PassedOn, IsPassed};
ghost use Rattle.u_determinate.specs.Flow.{AreSources, marked, IsMarked, OnlyLink, TakesFrom, Marked, Swept};
ghost use Rattle.u_determinate.specs.declared.incoming.Link.{Link};

use crate::incoming::{Link, Sources, statement_of};
use crate::trail::{Course, Followers};
use std::alloc::{AllocError, Global};
use u_program::{Kind, Statement};

/// The statements of a block, and what leads to each and follows each.
#[derive(Clone, Copy)]
pub(crate) struct Flow<'a> {
    pub statements: &'a [Statement],
    pub sources: &'a [Sources],
    pub ahead: &'a Followers,
}

/// Whether the number is marked.
pub(crate) fn is_marked(marks: &[bool], number: usize) -> bool
    ensures { result ≡ marked marks.now number }
{
    marks.get(number).copied().unwrap_or(false)
}

/// Whether it is that arc: both lead to one port.
fn is_arc(link: &Link, other: &Link) -> bool
    requires { link.now.port ≡ other.now.port }
    ensures { IsTrue result ↔ (link.now ≡ other.now) }
{
    link.statement == other.statement
        && link.on_false == other.on_false
        && link.place == other.place
}

/// Whether no other of the links leads to the port of that one.
fn is_alone(links: &[Link], link: &Link) -> bool
    ensures { IsTrue result
        ↔ ((k : Link) → Contains links.now k → k.port ≡ link.now.port → k ≡ link.now) }
{
    for other in links {
        if other.port == link.port && !is_arc(other, link) {
            return false;
        }
    }
    true
}

/// The only one of the links that leads to that port.
pub(crate) fn only_link(links: &[Link], port: u8) -> Option<Link>
    ensures some { IfSome result (λ l. OnlyLink links.now port l) }
    ensures none { IfNone result ((l : Link) → OnlyLink links.now port l → ⊥) }
{
    for link in links {
        if link.port == port {
            return if is_alone(links, link) {
                Some(*link)
            } else {
                None
            };
        }
    }
    None
}

impl Flow<'_> {
    /// The statement from which the only arc to that port of statement `number` comes is marked.
    pub(crate) fn takes_marked(&self, marks: &[bool], number: usize, port: u8) -> bool
        requires sources { AreSources self.now.statements.now self.now.sources.now }
        requires within { number ≤ length self.now.statements.now }
        ensures { IsTrue result
            ↔ TakesFrom self.now.statements.now (IsMarked marks.now) number port }
    {
        match self.sources.get(number) {
            Some(sources) => match only_link(&sources.links, port) {
                Some(link) => is_marked(marks, link.statement),
                None => false,
            },
            None => false,
        }
    }

    /// Whether statement `number` is a `pass` that hands on what a marked statement gives.
    fn hands_on(&self, passed: &[bool], number: usize) -> bool
        requires sources { AreSources self.now.statements.now self.now.sources.now }
        ensures { IsTrue result
            ↔ Passes self.now.statements.now (IsMarked passed.now) number }
    {
        match statement_of(self.statements, number) {
            Some(statement) => {
                matches!(statement.kind(), Kind::Pass) && self.takes_marked(passed, number, 1)
            }
            None => false,
        }
    }

    /// Whether statement `number` is the control, or hands on what a marked statement gives.
    fn is_passed(&self, control: usize, passed: &[bool], number: usize) -> bool
        requires sources { AreSources self.now.statements.now self.now.sources.now }
        ensures { IsTrue result
            ↔ PassedOn self.now.statements.now control (IsMarked passed.now) number }
    {
        number == control || self.hands_on(passed, number)
    }

    /// Whether the number has a mark to come, and follows.
    fn is_next_passed(&self, control: usize, passed: &[bool], number: usize) -> bool
        requires sources { AreSources self.now.statements.now self.now.sources.now }
        ensures within { IsTrue result → number < length passed.now }
        ensures follows { IsTrue result
            → PassedOn self.now.statements.now control (IsMarked passed.now) number }
    {
        number < passed.len()
            && !is_marked(passed, number)
            && self.is_passed(control, passed, number)
    }

    /// Marks those of the numbers that follow.
    fn mark_passed(&self, control: usize, numbers: &[usize], passed: &mut [bool])
        requires sources { AreSources self.now.statements.now self.now.sources.now }
        ensures { Marked (PassedOn self.now.statements.now control) passed.old passed.new }
    {
        for number in numbers {
            if self.is_next_passed(control, passed, *number) {
                passed[*number] = true;
            }
        }
    }

    /// Marks what follows. Whether any was new.
    fn sweep_passed(&self, control: usize, passed: &mut [bool]) -> bool
        requires sources { AreSources self.now.statements.now self.now.sources.now }
        ensures { Swept (PassedOn self.now.statements.now control) passed.old passed.new result }
    {
        let mut new = false;
        for number in 0..passed.len() {
            if !is_marked(passed, number) && self.is_passed(control, passed, number) {
                passed[number] = true;
                new = true;
            }
        }
        new
    }

    /// The statements that hand on what the control gives.
    pub(crate) fn passed(&self, alloc: Global, control: usize) -> Result<Vec<bool>, AllocError>
        requires sources { AreSources self.now.statements.now self.now.sources.now }
        requires within { control ≤ length self.now.statements.now }
        ensures { IfOk result (λ v. (n : ℕ)
            → IsMarked v.items n ↔ IsPassed self.now.statements.now control n) }
    {
        let mut passed = vec![in alloc; false; self.statements.len() + 1]?;
        let course = Course {
            statements: self.statements,
            ahead: self.ahead,
        };
        let numbers = course.passing(alloc, control)?;
        self.mark_passed(control, &numbers, &mut passed);
        let mut new = true;
        while new {
            new = self.sweep_passed(control, &mut passed);
        }
        Ok(passed)
    }
}
