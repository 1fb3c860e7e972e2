//! Where statements stand: their regions, and the statements that others name.
ghost use Rattle.std.specs.Prelude.{◌≡◌, ◌-◌, ◌<◌, ◌≤◌};
ghost use Rattle.std.specs.Option.{option_copied};
ghost use Rattle.u_check.specs.Rules.{is_outer, has_region, held_by, statement_at, begins_well, has_port, reaches, takes_tokens, lies_in, lies_in_some, lies_in_entered, enters_inward, is_back_in, names_back, applies_to, is_applied, is_param_in, follows_params, comes_in_order, leaves_after_last};

use crate::kinds::{comes_from_outside, is_back, is_begin, is_leave, is_param, ports_of};
use u_program::{Destination, Kind, Parameter, Statement};

/// Whether the statement lies in region 0.
pub fn is_outer(statement: &Statement) -> bool
    ensures { result ≡ is_outer statement.now }
{
    statement.region() == 0
}

/// Whether the region is 0 or one of the loops.
pub fn has_region(loops: &[u8], region: u8) -> bool
    ensures { result ≡ has_region loops.now region }
{
    usize::from(region) <= loops.len()
}

/// The region that holds the loop of that number, which counts from 1: none where there is no such loop.
#[tactic(auto, unfolding(crate::specs::Rules::held_by))]
pub fn held_by(loops: &[u8], number: u8) -> Option<u8>
    ensures { result ≡ held_by loops.now number }
{
    if number == 0 {
        return None;
    }
    loops.get(usize::from(number) - 1).copied()
}

/// Whether statement 1 is `begin` in region 0, and no other is `begin`.
#[tactic(auto, unfolding(crate::specs::Rules::begins_well))]
pub fn begins_well(number: usize, statement: &Statement) -> bool
    ensures { result ≡ begins_well number statement.now }
{
    let begin = is_begin(statement.kind());
    if number == 1 {
        return begin && is_outer(statement);
    }
    !begin
}

/// Whether the loop of an `enter` is held by the statement's region.
#[tactic(auto, unfolding(crate::specs::Rules::enters_inward))]
pub fn enters_inward(loops: &[u8], region: u8, kind: &Kind) -> bool
    ensures { result ≡ enters_inward loops.now region kind.now }
{
    match kind {
        Kind::Enter(number) => match held_by(loops, *number) {
            Some(holder) => region == holder,
            None => false,
        },
        _ => true,
    }
}

/// The statement of that number, which counts from 1: none where there is no such statement.
#[tactic(auto, unfolding(crate::specs::Rules::statement_at))]
pub fn statement_at(statements: &[Statement], number: u16) -> Option<&Statement>
    ensures { option_copied result ≡ statement_at statements.now number }
{
    if number == 0 {
        return None;
    }
    statements.get(usize::from(number) - 1)
}

/// Whether the statement of that number is a `back` in the region.
fn is_back_in(region: u8, statements: &[Statement], number: u16) -> bool
    ensures { result ≡ is_back_in region (statement_at statements.now number) }
{
    match statement_at(statements, number) {
        Some(statement) => is_back(statement.kind()) && region == statement.region(),
        None => false,
    }
}

/// Whether the statement that an `apply` names is a `back` in its region.
#[tactic(auto, unfolding(crate::specs::Rules::names_back))]
pub fn names_back(statements: &[Statement], region: u8, kind: &Kind) -> bool
    ensures { result ≡ names_back statements.now region kind.now }
{
    match kind {
        Kind::Apply(number, _) => is_back_in(region, statements, *number),
        _ => true,
    }
}

/// Whether it is an `apply` that names the statement of that number.
fn applies_to(number: usize, kind: &Kind) -> bool
    ensures { result ≡ applies_to number kind.now }
{
    match kind {
        Kind::Apply(named, _) => usize::from(*named) == number,
        _ => false,
    }
}

/// Whether some `apply` names the statement of that number.
#[tactic(auto, unfolding(crate::specs::Rules::is_applied))]
pub fn is_applied(statements: &[Statement], number: usize) -> bool
    ensures { result ≡ is_applied statements.now number }
{
    statements.iter().any(|s| applies_to(number, s.kind()))
}

/// Whether the statement of that number is a `param`.
fn is_param_in(statements: &[Statement], number: u16) -> bool
    ensures { result ≡ is_param_in (statement_at statements.now number) }
{
    match statement_at(statements, number) {
        Some(statement) => is_param(statement.kind()),
        None => false,
    }
}

/// Whether the statements of the parameters behind the first and before this one are `param`.
#[tactic(auto, unfolding(crate::specs::Rules::follows_params))]
fn follows_params(statements: &[Statement], parameter: Parameter) -> bool
    ensures { result ≡ follows_params statements.now parameter }
{
    match parameter {
        Parameter::Second => true,
        Parameter::Third => is_param_in(statements, 2),
        Parameter::Fourth => is_param_in(statements, 2) && is_param_in(statements, 3),
    }
}

/// Whether the statement, if it is a `param`, stands in region 0, at the number of its parameter and
/// behind those of the ones before it.
#[tactic(auto, unfolding(crate::specs::Rules::comes_in_order))]
pub fn comes_in_order(statements: &[Statement], number: usize, statement: &Statement) -> bool
    ensures { result ≡ comes_in_order statements.now number statement.now statement.now.kind }
{
    match statement.kind() {
        Kind::Param(parameter) => {
            number == usize::from(parameter.place())
                && is_outer(statement)
                && follows_params(statements, *parameter)
        }
        _ => true,
    }
}

/// Whether there is a statement of that number, and its ports go up to that one.
fn has_port(statements: &[Statement], number: u16, port: u8) -> bool
    ensures { result ≡ has_port (statement_at statements.now number) port }
{
    match statement_at(statements, number) {
        Some(statement) => usize::from(port) <= ports_of(statement.kind()),
        None => false,
    }
}

/// Whether the destination names a statement of the block and a port of it.
#[tactic(auto, unfolding(crate::specs::Rules::reaches))]
pub fn reaches(statements: &[Statement], destination: &Destination) -> bool
    ensures { result ≡ reaches statements.now destination.now }
{
    let port = destination.port;
    port >= 1 && has_port(statements, destination.statement, port)
}

/// Whether the destination is no `begin`, no `param` and no `back`.
pub fn takes_tokens(statements: &[Statement], destination: &Destination) -> bool
    ensures { result ≡ takes_tokens (statement_at statements.now destination.now.statement) }
{
    match statement_at(statements, destination.statement) {
        Some(statement) => !comes_from_outside(statement.kind()),
        None => true,
    }
}

/// Whether the destination lies in that region.
pub fn lies_in(region: u8, statements: &[Statement], destination: &Destination) -> bool
    ensures { result ≡ lies_in region (statement_at statements.now destination.now.statement) }
{
    match statement_at(statements, destination.statement) {
        Some(statement) => region == statement.region(),
        None => true,
    }
}

/// Whether there is such a region, and the destination lies in it.
pub fn lies_in_some(region: Option<u8>, statements: &[Statement], destination: &Destination) -> bool
    ensures { result ≡ lies_in_some region (statement_at statements.now destination.now.statement) }
{
    match region {
        Some(region) => lies_in(region, statements, destination),
        None => false,
    }
}

/// Whether the destination of an `enter` lies in its loop.
#[tactic(auto, unfolding(crate::specs::Rules::lies_in_entered))]
pub fn lies_in_entered(kind: &Kind, statements: &[Statement], destination: &Destination) -> bool
    ensures { result
        ≡ lies_in_entered kind.now (statement_at statements.now destination.now.statement) }
{
    match kind {
        Kind::Enter(number) => lies_in(*number, statements, destination),
        _ => true,
    }
}

/// Whether the destination is a `leave` where a `last` sends to it, and none where another does.
pub fn leaves_after_last(last: bool, statements: &[Statement], destination: &Destination) -> bool
    ensures { result
        ≡ leaves_after_last last (statement_at statements.now destination.now.statement) }
{
    match statement_at(statements, destination.statement) {
        Some(statement) => {
            let leave = is_leave(statement.kind());
            if last { leave } else { !leave }
        }
        None => true,
    }
}
