//! What the firings of each statement depend on: the arcs that lead to it, and what a `leave` and a
//! `back` follow.
ghost use Rattle.std.specs.Prelude.{◌≡◌, ◌+◌, ◌↔◌, ◌⊎◌, ℕ, true, false, length, Contains, IfOk, OnOk};
ghost use Rattle.std.specs.Option.{option_copied};
ghost use Rattle.u_check.specs.Rules.{statement_at};
ghost use Rattle.u_determinate.specs.Flow.{IsListed, AreLinks, is_behind, IsBehind, StandsBehind, AreSources};
ghost use Rattle.u_determinate.specs.declared.incoming.Link.{Link};

use std::alloc::{AllocError, Global};
use u_program::{Destination, Kind, Statement};

/// An arc, by where it stands, and the port that it leads to.
#[derive(Clone, Copy)]
pub(crate) struct Link {
    /// The number of the statement that sends.
    pub statement: usize,
    /// Whether it stands in the list on which a `switch` sends on false.
    pub on_false: bool,
    /// Its place in the list, from 0.
    pub place: usize,
    /// The port that it leads to.
    pub port: u8,
}

/// What leads to a statement.
#[derive(Drop)]
pub(crate) struct Sources {
    /// The arcs to its ports.
    pub links: Vec<Link>,
    /// Of a `leave` each `enter` of its loop, and of a `back` each `apply` that names it.
    pub behind: Vec<usize>,
}

/// The statement of that number, which counts from 1: none where there is no such statement.
#[tactic(auto, unfolding(u_check::specs::Rules::statement_at))]
pub(crate) fn statement_of(statements: &[Statement], number: usize) -> Option<&Statement>
    ensures { option_copied result ≡ statement_at statements.now number }
{
    if number == 0 {
        return None;
    }
    statements.get(number - 1)
}

/// Adds those destinations of the list that are ports of statement `to`.
fn add_links(
    links: &mut Vec<Link>,
    list: &[Destination],
    statement: usize,
    on_false: bool,
    to: usize,
) -> Result<(), AllocError>
    ensures { OnOk result ((l : Link) → Contains links.new.items l
        ↔ (Contains links.old.items l ⊎ IsListed list.now statement on_false to l)) }
{
    for (place, destination) in list.iter().enumerate() {
        if usize::from(destination.statement) == to {
            links.push(Link {
                statement,
                on_false,
                place,
                port: destination.port,
            })?;
        }
    }
    Ok(())
}

/// The arcs that lead to statement `to`.
fn links_to(alloc: Global, statements: &[Statement], to: usize) -> Result<Vec<Link>, AllocError>
    ensures { IfOk result (λ v. AreLinks statements.now to v.items) }
{
    let mut links = Vec::new(alloc);
    for (i, statement) in statements.iter().enumerate() {
        add_links(&mut links, statement.destinations(), i + 1, false, to)?;
        add_links(&mut links, statement.otherwise(), i + 1, true, to)?;
    }
    Ok(links)
}

/// Whether the statement is an `enter` of the loop that a `leave` leaves, or an `apply` that names
/// a `back`, where statement `number` is that `leave` or `back`.
fn is_behind(number: usize, statement: &Statement, other: &Statement) -> bool
    ensures { result ≡ is_behind number statement.now statement.now.kind other.now.kind }
{
    match (statement.kind(), other.kind()) {
        (Kind::Leave, Kind::Enter(entered)) => *entered == statement.region(),
        (Kind::Back, Kind::Apply(named, _)) => usize::from(*named) == number,
        _ => false,
    }
}

/// The statements that stand so behind that statement, which has that number.
fn behind_statement(
    alloc: Global,
    statements: &[Statement],
    number: usize,
    statement: &Statement,
) -> Result<Vec<usize>, AllocError>
    ensures { IfOk result (λ v. (m : ℕ) → Contains v.items m
        ↔ IsBehind statements.now number statement.now m) }
{
    let mut all = Vec::new(alloc);
    for (i, other) in statements.iter().enumerate() {
        if is_behind(number, statement, other) {
            all.push(i + 1)?;
        }
    }
    Ok(all)
}

/// The statements that stand so behind statement `number`.
fn behind(alloc: Global, statements: &[Statement], number: usize) -> Result<Vec<usize>, AllocError>
    ensures { IfOk result
        (λ v. (m : ℕ) → Contains v.items m ↔ StandsBehind statements.now number m) }
{
    match statement_of(statements, number) {
        Some(statement) => behind_statement(alloc, statements, number, statement),
        None => Ok(Vec::new(alloc)),
    }
}

/// What leads to each statement, by its number; nothing leads to number 0, which no statement has.
pub(crate) fn sources_of(
    alloc: Global,
    statements: &[Statement],
) -> Result<Vec<Sources>, AllocError>
    ensures { IfOk result (λ v. AreSources statements.now v.items) }
{
    let mut all = Vec::new(alloc);
    for number in 0..statements.len() + 1 {
        let links = links_to(alloc, statements, number)?;
        let behind = behind(alloc, statements, number)?;
        all.push(Sources { links, behind })?;
    }
    Ok(all)
}
