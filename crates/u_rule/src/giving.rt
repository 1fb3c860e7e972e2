//! What a statement gives on the values at its ports.
//!
//! The linkage statements are those of Arvind and Gostelow (1982): `enter`, `next`, `last` and
//! `leave` for loops, `apply` and `back` for calls. That contexts are at most 64 deep and initiations
//! have a greatest, and that a fault is given beyond, is this project's profile, and that an `apply`
//! of several arguments sends each to its own statement. Structures are those of Arvind and Nikhil
//! (1990), which `alloc` makes, `store` writes and `fetch` reads.
//!
//! How many arguments a call has is tested as it fires, since a procedure is a value. The fault `arity`
//! comes after `kind` and before `deep`. `leave` and `end` have no fault for a context of the wrong shape:
//! those branches are proved to be out of reach.
ghost use Rattle.std.specs.Prelude.{◌≡◌, ◌≤◌, ◌∷◌, [], length, true, Ok, IfOk, IfSome, MatchResult, None};
ghost use Rattle.u_name.specs.Context.{IsBetween};
ghost use Rattle.u_program.specs.Limits.{IsStatement, IsKind, the_limits};
ghost use Rattle.u_check.specs.Kinds.{is_end};
ghost use Rattle.u_rule.specs.HandingOn.{outcome_of, IsReachable, IsRefusal, IsEndable};
ghost use Rattle.u_rule.specs.Fits.{statement_of};
ghost use Rattle.u_rule.specs.HeldEntries.{entries_given};
ghost use Rattle.u_rule.specs.Structures.{cell_named, allocated, fetched, stored, asked, replied};
ghost use Rattle.u_rule.specs.Rule.{first_of, result_of, value_of, list_of, beside, reached, refusal_of, handed_on, arguments_from, begun, called, back_of, finished, ended, given, given_with, fault_of};

use crate::entry::Entry;
use crate::firing::Firing;
use crate::fits::{block_of, statement_of};
use crate::held::{Given, Sending};
use crate::initiations::last_turn;
use crate::parameters::parameters_of;
use crate::parts::{Fault, Token};
use crate::structures::{are_plain, cell_named, is_answer, replied, wrote};
use std::alloc::{AllocError, Global};
use u_name::{BlockName, Name, NameError, Node};
use u_program::{Constant, Destination, Kind, Program, Statement, Version};
use u_value::{FaultKind, Procedure, Reference, Value, apply1, apply2, select};

/// The constant as a value.
fn value_of(alloc: Global, constant: &Constant) -> Result<Value, AllocError>
    ensures { IfOk result (λ v. v ≡ value_of constant.now) }
{
    match constant {
        Constant::Int(number) => Ok(Value::Int(*number)),
        Constant::Bool(truth) => Ok(Value::Bool(*truth)),
        Constant::Proc(block) => Ok(Value::Proc(Procedure::new(alloc, *block)?)),
    }
}

/// What a statement made, or why it made nothing.
#[derive(Drop)]
enum Made {
    Value(Value),
    Fault(FaultKind),
}

/// What an operator gave.
fn operated(given: Result<Value, FaultKind>) -> Made
    ensures { outcome_of result ≡ given }
{
    match given {
        Ok(value) => Made::Value(value),
        Err(kind) => Made::Fault(kind),
    }
}

/// What `alloc` makes: a structure of that length, with the name of the activity.
fn allocated(alloc: Global, activity: &Name, values: &[Value]) -> Result<Made, AllocError>
    ensures { IfOk result (λ m. allocated activity.now values.now ≡ outcome_of m) }
{
    match values {
        [Value::Int(length), ..] => {
            if 0 <= *length && *length <= 1_000_000 {
                let structure = Reference::new(alloc, activity.copy()?, *length as u32)?;
                Ok(Made::Value(Value::Ref(structure)))
            } else {
                Ok(Made::Fault(FaultKind::Length))
            }
        }
        _ => Ok(Made::Fault(FaultKind::Kind)),
    }
}

/// What `ask` makes of plain values: a structure of one cell, with the name of the activity.
fn asked(alloc: Global, activity: &Name, values: &[Value]) -> Result<Made, AllocError>
    ensures { IfOk result (λ m. asked activity.now values.now ≡ outcome_of m) }
{
    if are_plain(values) {
        let structure = Reference::new(alloc, activity.copy()?, 1)?;
        Ok(Made::Value(Value::Ref(structure)))
    } else {
        Ok(Made::Fault(FaultKind::Kind))
    }
}

/// What `fetch` makes: the value of the firing's write, where its first values name a cell.
fn fetched(firing: &Firing) -> Result<Made, AllocError>
    ensures { IfOk result
        (λ m. fetched (cell_named firing.now.values) firing.now.write ≡ outcome_of m) }
{
    match (cell_named(firing.values.as_slice()), &firing.write) {
        (Err(kind), _) => Ok(Made::Fault(kind)),
        (Ok(_), Some(write)) => Ok(Made::Value(write.get().value.copy()?)),
        (Ok(_), None) => Ok(Made::Fault(FaultKind::Bounds)),
    }
}

/// What a statement of that kind makes of the values at its ports and of the write that it reads.
#[tactic(auto, unfolding(crate::specs::Rule::result_of))]
fn made_by(alloc: Global, kind: &Kind, firing: &Firing) -> Result<Made, AllocError>
    ensures { IfOk result
        (λ m. result_of kind.now firing.now.activity firing.now.values firing.now.write
        ≡ outcome_of m) }
{
    match (kind, firing.values.as_slice()) {
        (Kind::Const(constant), _) => Ok(Made::Value(value_of(alloc, constant)?)),
        (Kind::Alloc, values) => allocated(alloc, &firing.activity, values),
        (Kind::Fetch, _) => fetched(firing),
        (Kind::Ask(_, _), values) => asked(alloc, &firing.activity, values),
        (Kind::Unary(operator), [first, ..]) => Ok(operated(apply1(*operator, first))),
        (Kind::Binary(operator), [first, second, ..]) => {
            Ok(operated(apply2(*operator, first, second)))
        }
        (Kind::Select, [control, first, second, ..]) => match select(control, first, second) {
            Ok(value) => Ok(Made::Value(value.copy()?)),
            Err(kind) => Ok(Made::Fault(kind)),
        },
        (Kind::Switch, [data, Value::Bool(_), ..]) => Ok(Made::Value(data.copy()?)),
        (Kind::Unary(_) | Kind::Binary(_) | Kind::Select | Kind::Switch, _) => {
            Ok(Made::Fault(FaultKind::Kind))
        }
        (_, [first, ..]) => Ok(Made::Value(first.copy()?)),
        _ => Ok(Made::Fault(FaultKind::Kind)),
    }
}

/// Where a statement sends its value.
fn list_of<'a>(statement: &'a Statement, values: &[Value]) -> &'a [Destination]
    ensures { result.now ≡ list_of statement.now.kind statement.now values.now }
{
    match (statement.kind(), values) {
        (Kind::Switch, [_, Value::Bool(false), ..]) => statement.otherwise(),
        _ => statement.destinations(),
    }
}

/// The fault of the activity.
fn fault<'a>(alloc: Global, activity: &Name, kind: FaultKind) -> Result<Given<'a>, AllocError>
    ensures { IfOk result (λ g. entries_given g ≡ fault_of activity.now kind ∷ []) }
{
    let activity = activity.copy()?;
    Given::one(alloc, Entry::Fault(Fault { activity, kind }))
}

/// The activity beside which the destinations lie of a statement of that kind.
fn reached(alloc: Global, version: Version, kind: &Kind, activity: &Name) -> Result<Name, NameError>
    requires reaches { IsReachable kind.now activity.now }
    requires limits { IsKind kind.now }
    ensures { MatchResult result
        (λ n. (n ≡ reached kind.now activity.now activity.now.statement)
        × (refusal_of version kind.now activity.now ≡ None))
        (λ e. IsRefusal version kind.now activity.now e) }
{
    let statement = activity.statement();
    match kind {
        Kind::Enter(number) => activity.enter(alloc, *number, statement),
        Kind::Next if activity.initiation() >= last_turn(version) => Err(NameError::Initiation),
        Kind::Next => activity.next(statement),
        Kind::Last => activity.last(statement),
        Kind::Leave => activity.leave(statement),
        _ => activity.plain(statement),
    }
}

/// The value at each of the destinations, or the fault why the statement reaches none.
#[tactic(auto, using(crate::proofs::Linkage::refused_on, crate::proofs::Destinations::list_in_range))]
fn delivered<'a>(
    alloc: Global,
    version: Version,
    statement: &'a Statement,
    firing: &Firing,
    value: Value,
) -> Result<Given<'a>, AllocError>
    requires reaches { IsReachable statement.now.kind firing.now.activity }
    requires limits { IsStatement the_limits statement.now }
    ensures { IfOk result (λ g. entries_given g
        ≡ handed_on version statement.now.kind firing.now.activity
        (list_of statement.now.kind statement.now firing.now.values)
        (Ok value)) }
{
    let activity = &firing.activity;
    let to = list_of(statement, firing.values.as_slice());
    match reached(alloc, version, statement.kind(), activity) {
        Ok(near) => Ok(Given::Sent(Sending::new(near, value, to))),
        Err(NameError::Deep) => fault(alloc, activity, FaultKind::Deep),
        Err(NameError::Initiation) => fault(alloc, activity, FaultKind::Initiation),
        Err(NameError::NoMemory) => Err(AllocError),
    }
}

/// What a statement that makes a value hands on.
fn handed_on<'a>(
    alloc: Global,
    version: Version,
    statement: &'a Statement,
    firing: &Firing,
) -> Result<Given<'a>, AllocError>
    requires reaches { IsReachable statement.now.kind firing.now.activity }
    requires limits { IsStatement the_limits statement.now }
    ensures { IfOk result (λ g. entries_given g
        ≡ handed_on version statement.now.kind firing.now.activity
        (list_of statement.now.kind statement.now firing.now.values)
        (result_of statement.now.kind firing.now.activity firing.now.values firing.now.write)) }
{
    match made_by(alloc, statement.kind(), firing)? {
        Made::Fault(kind) => fault(alloc, &firing.activity, kind),
        Made::Value(value) => delivered(alloc, version, statement, firing, value),
    }
}

/// The tokens of the arguments: each at the statement with its number, beside the first.
fn arguments_at(alloc: Global, first: &Name, arguments: &[Value]) -> Result<Vec<Entry>, AllocError>
    requires { length arguments.now ≤ 4 }
    ensures { IfOk result (λ v. v.items ≡ arguments_from first.now 1 arguments.now) }
{
    let mut entries = Vec::new(alloc);
    let mut place = 1;
    for argument in arguments {
        let name = first.plain(place).map_err(|_| AllocError)?;
        entries.push(Entry::Token(Token::new(name, 1, argument.copy()?)))?;
        place += 1;
    }
    Ok(entries)
}

/// The arguments at the first statements of the called block, or the fault where the context is the
/// deepest.
fn begun<'a>(
    alloc: Global,
    activity: &Name,
    block: &BlockName,
    arguments: &[Value],
) -> Result<Given<'a>, AllocError>
    requires { length arguments.now ≤ 4 }
    ensures { IfOk result
        (λ g. entries_given g ≡ begun activity.now block.now arguments.now) }
{
    match (activity.call(alloc, *block, 1), arguments) {
        (Ok(first), [only]) => {
            let argument = only.copy()?;
            Ok(Given::Alone(Token::new(first, 1, argument)))
        }
        (Ok(first), _) => Ok(Given::Listed(arguments_at(alloc, &first, arguments)?)),
        (Err(NameError::NoMemory), _) => Err(AllocError),
        (Err(_), _) => fault(alloc, activity, FaultKind::Deep),
    }
}

/// What `apply` gives. A first value that is no procedure of the program is looked for before another
/// number of arguments, and this before the depth of the context.
fn called<'a>(
    alloc: Global,
    program: &Program,
    activity: &Name,
    values: &[Value],
) -> Result<Given<'a>, AllocError>
    ensures { IfOk result
        (λ g. entries_given g ≡ called program.now.blocks activity.now values.now) }
{
    let Some((Value::Proc(procedure), arguments)) = values.split_first() else {
        return fault(alloc, activity, FaultKind::Kind);
    };
    let name = procedure.block();
    match block_of(program, name) {
        None => fault(alloc, activity, FaultKind::Kind),
        Some(block) if arguments.len() == parameters_of(block) => {
            begun(alloc, activity, name, arguments)
        }
        Some(_) => fault(alloc, activity, FaultKind::Arity),
    }
}

/// The `back` that a statement names, which is an `apply`.
fn back_of(program: &Program, block: &BlockName, number: u16) -> Option<u16>
    ensures back { result ≡ back_of (statement_of program.now.blocks block.now number) }
    ensures limits { IfSome result (λ b. IsBetween 1 b 999) }
{
    match statement_of(program, block, number)?.kind() {
        Kind::Apply(back, _) => Some(*back),
        _ => None,
    }
}

/// What `end` gives of its value: in the root the answer, in a call its result.
fn finished<'a>(
    alloc: Global,
    program: &Program,
    activity: &Name,
    value: Value,
) -> Result<Given<'a>, AllocError>
    requires { IsEndable program.now.blocks activity.now.context }
    ensures { IfOk result (λ g. entries_given g
        ≡ finished program.now.blocks activity.now activity.now.context value) }
{
    match activity.context().node() {
        Node::Root => Given::one(alloc, Entry::Answer(value)),
        Node::Loop { .. } => unreachable!(),
        Node::Call {
            block,
            statement,
            ..
        } => match back_of(program, block, statement) {
            None => unreachable!(),
            Some(back) => {
                let name = activity.back(back).map_err(|_| AllocError)?;
                Ok(Given::Alone(Token::new(name, 1, value)))
            }
        },
    }
}

/// What `end` gives.
fn ended<'a>(
    alloc: Global,
    program: &Program,
    activity: &Name,
    values: &[Value],
) -> Result<Given<'a>, AllocError>
    requires { IsEndable program.now.blocks activity.now.context }
    ensures { IfOk result (λ g. entries_given g
        ≡ ended program.now.blocks activity.now (first_of values.now)) }
{
    match values {
        [first, ..] => finished(alloc, program, activity, first.copy()?),
        _ => fault(alloc, activity, FaultKind::Kind),
    }
}

/// What `store` gives: the write of its third value into the cell that the others name.
fn stored<'a>(alloc: Global, activity: &Name, values: &[Value]) -> Result<Given<'a>, AllocError>
    ensures { IfOk result (λ g. entries_given g ≡ stored activity.now values.now) }
{
    match (cell_named(values), values) {
        (Ok((structure, index)), [_, _, value, ..]) => {
            Given::one(alloc, wrote(structure, index, activity, value)?)
        }
        (Ok(_), _) => fault(alloc, activity, FaultKind::Kind),
        (Err(kind), _) => fault(alloc, activity, kind),
    }
}

/// What a statement gives on the values at its ports, and on the write that it reads.
fn given_own<'a>(
    alloc: Global,
    program: &Program,
    statement: &'a Statement,
    firing: &Firing,
) -> Result<Given<'a>, AllocError>
    requires limits { IsStatement the_limits statement.now }
    requires reaches { IsReachable statement.now.kind firing.now.activity }
    requires ends { is_end statement.now.kind ≡ true
        → IsEndable program.now.blocks firing.now.activity.context }
    ensures { IfOk result (λ g. entries_given g
        ≡ given program.now.version program.now.blocks statement.now firing.now.activity
        firing.now.values firing.now.write) }
{
    let activity = &firing.activity;
    let values = firing.values.as_slice();
    match statement.kind() {
        Kind::Apply(..) => called(alloc, program, activity, values),
        Kind::End => ended(alloc, program, activity, values),
        Kind::Store => stored(alloc, activity, values),
        _ => handed_on(alloc, program.version(), statement, firing),
    }
}

/// What a firing of the statement gives: a reply its write, and any other what the statement gives.
pub(crate) fn given_at<'a>(
    alloc: Global,
    program: &Program,
    statement: &'a Statement,
    firing: &Firing,
) -> Result<Given<'a>, AllocError>
    requires limits { IsStatement the_limits statement.now }
    requires reaches { IsReachable statement.now.kind firing.now.activity }
    requires ends { is_end statement.now.kind ≡ true
        → IsEndable program.now.blocks firing.now.activity.context }
    ensures { IfOk result (λ g. entries_given g
        ≡ given_with program.now.version program.now.blocks statement.now firing.now.activity
        firing.now.values firing.now.write) }
{
    if is_answer(statement.kind(), firing) {
        return Given::one(alloc, replied(firing)?);
    }
    given_own(alloc, program, statement, firing)
}
