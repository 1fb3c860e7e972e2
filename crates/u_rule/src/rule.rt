//! The firing rule: which firings a job has, what each needs and what each gives.
//!
//! A firing needs one token for each port of its statement, and gives one for each destination, as
//! in Arvind and Gostelow (1982); a firing that reads a cell needs a write of it too, as in Arvind and
//! Nikhil (1990). By this project's profile an operator that has no value for its
//! operands gives a fault in its place, and `end` in the root gives the answer.
ghost use Rattle.std.specs.Prelude.{◌≡◌, ◌≤◌, ◌<◌, ◌+◌, ◌++◌, List, true, false, length, Some, Ok, Err, IfOk, IfSome, OnOk, IsTrue, ◌↔◌};
ghost use Rattle.std.specs.Option.{option_copied};
ghost use Rattle.u_program.specs.Limits.{IsStatement, the_limits};
ghost use Rattle.u_program.specs.Parts.{BlockParts};
ghost use Rattle.u_rule.specs.declared.rule.RuleError.TheVariants as errors;
ghost use Rattle.u_rule.specs.EntryOrder.{entry_cmp};
ghost use Rattle.u_sets.specs.Rising.{Rises};
ghost use Rattle.u_rule.specs.Fits.{statement_of, fits_at, IsExecutable, IsPlaced, IsFitting, AllFit};
ghost use Rattle.u_rule.specs.HeldEntries.{entries_given};
ghost use Rattle.u_rule.specs.Parts.{most_ports};
ghost use Rattle.u_rule.specs.Replies.{IsReply};
ghost use Rattle.u_rule.specs.Rule.{tokens_from, start_of, needs_of, gives_of, is_firing_of, is_firing_at, is_own_of, is_own_at, is_reply_at, is_known, says, is_told_at, has_its_values, has_own_form, has_its_form};

use crate::entry::Entry;
use crate::firing::Firing;
use crate::fits::{fits, statement_of};
use crate::giving::given_at;
use crate::held::Given;
use crate::initiations::fires_in_turns;
use crate::lent::NameRef;
use crate::parts::Token;
use crate::replies::value_for;
use crate::structures::{add_write, answers, has_its_write, is_answer};
use std::alloc::{AllocError, AllocFailed, Global};
use thiserror::Error;
use u_check::{Job, Table, is_ask, ports_of};
use u_name::{BlockName, Context, Name};
use u_program::{Program, Statement};
use u_value::Value;

/// The statement that an activity executes, where the program has it.
fn executed<'a>(program: &'a Program, activity: &Name) -> Option<&'a Statement>
    ensures statement { option_copied result
        ≡ statement_of program.now.blocks activity.now.block activity.now.statement }
    ensures limits { IfSome result (λ s. IsStatement the_limits s.now) }
{
    statement_of(program, activity.block(), activity.statement())
}

/// The statement that an activity executes, where the job has it.
pub fn statement_at<'a>(job: &'a Job, activity: &NameRef<'_>) -> Option<&'a Statement>
    ensures { option_copied result
        ≡ statement_of job.now.program.blocks activity.now.block activity.now.statement }
{
    statement_of(job.program(), activity.block(), activity.statement())
}

/// Whether the activity may execute a statement of that region.
fn fits_at(program: &Program, region: u8, activity: &Name) -> bool
    ensures { result ≡ fits_at program.now.blocks region activity.now }
{
    let initiation = activity.initiation();
    fits(
        program,
        activity.context(),
        activity.block(),
        region,
        initiation,
    )
}

/// Whether the firing has one value for each port of the statement, and a write exactly where the
/// statement is a `fetch` and its values name a cell.
fn has_its_values(statement: &Statement, firing: &Firing) -> bool
    ensures { result ≡ has_its_values statement.now firing.now }
{
    firing.values.as_slice().len() == ports_of(statement.kind())
        && has_its_write(statement.kind(), firing)
}

/// Whether the firing has what a reply of the statement has: an `ask`, with one value for each port, and a
/// write that the activity itself makes, all of numbers and truth values.
fn is_reply_at(statement: &Statement, firing: &Firing) -> bool
    ensures { result ≡ is_reply_at statement.now firing.now }
{
    is_ask(statement.kind())
        && (firing.values.as_slice().len() == ports_of(statement.kind()) && answers(firing))
}

/// Whether the firing has what an own firing of the statement has, or what a reply has.
fn has_its_form(statement: &Statement, firing: &Firing) -> bool
    ensures { result ≡ has_its_form statement.now firing.now }
{
    has_its_values(statement, firing) || is_reply_at(statement, firing)
}

/// Whether the firing is one of that statement: its activity fits, and it has what an own firing has, or
/// what a reply has. The place is looked at last, since that goes through the whole context.
#[tactic(auto, using(crate::proofs::Both::with_true, crate::proofs::Both::with_false))]
fn is_firing_at(program: &Program, statement: &Statement, firing: &Firing) -> bool
    ensures { result ≡ is_firing_at program.now.blocks (Some statement.now) firing.now }
{
    has_its_form(statement, firing) && fits_at(program, statement.region(), &firing.activity)
}

/// Whether it is a firing of the job: an activity that fits, with one value for each port of its
/// statement, and a write exactly where the statement is a `fetch` and its values name a cell; or a reply.
/// A reply is of an `ask`, and has a write too, which its own activity makes; its values and what it writes
/// are numbers and truth values. Where the program is of version 1, each initiation in it is at most
/// 4294967295, in its values and its write too.
///
/// Promise what-is-a-firing: the answer is true exactly if it is a firing of the job as the rule defines it.
#[tactic(auto, unfolding(crate::specs::Rule::is_firing_of))]
pub fn is_firing(job: &Job, firing: &Firing) -> bool
    ensures { result ≡ is_firing_of job.now firing.now }
{
    let program = job.program();
    match executed(program, &firing.activity) {
        None => false,
        Some(statement) => is_firing_at(program, statement, firing)
            && fires_in_turns(program, firing),
    }
}

/// Whether the value is the one that is known.
fn is_known(known: Option<Value>, value: &Value) -> bool
    ensures { result ≡ is_known known value.now }
{
    match known {
        None => false,
        Some(other) => other.compare(value).is_eq(),
    }
}

/// Whether the firing has a write, of the value that the table says to the statement about the firing's values.
fn says(table: &Table, statement: &Statement, firing: &Firing) -> bool
    ensures { result ≡ says table.now statement.now.kind firing.now.values firing.now.write }
{
    match &firing.write {
        None => false,
        Some(write) => {
            let known = value_for(table, statement.kind(), firing.values.as_slice());
            is_known(known, &write.get().value)
        }
    }
}

/// Whether the firing has what a reply of the statement has, and the table has it.
fn is_told_at(table: &Table, statement: &Statement, firing: &Firing) -> bool
    ensures { result ≡ is_told_at table.now statement.now firing.now }
{
    is_reply_at(statement, firing) && says(table, statement, firing)
}

/// Whether the firing has what an inner firing of the statement has, or what a reply has that the table has.
fn has_own_form(table: &Table, statement: &Statement, firing: &Firing) -> bool
    ensures { result ≡ has_own_form table.now statement.now firing.now }
{
    has_its_values(statement, firing) || is_told_at(table, statement, firing)
}

/// Whether the firing is an own one of that statement: its activity fits, and it has one value for each port,
/// and a write exactly where the statement is a `fetch` and its values name a cell; or it is a reply that the
/// table has. The place is looked at last.
#[tactic(auto, using(crate::proofs::Both::with_true, crate::proofs::Both::with_false))]
fn is_own_at(table: &Table, program: &Program, statement: &Statement, firing: &Firing) -> bool
    ensures { result
        ≡ is_own_at table.now program.now.blocks (Some statement.now) firing.now }
{
    has_own_form(table, statement, firing) && fits_at(program, statement.region(), &firing.activity)
}

/// Whether it is an own firing of the job, which a machine fires by itself: all firings are own ones but the
/// replies that the table of the job lacks, which come from outside.
#[tactic(auto, unfolding(crate::specs::Rule::is_own_of))]
pub fn is_own(job: &Job, firing: &Firing) -> bool
    ensures { result ≡ is_own_of job.now firing.now }
{
    let program = job.program();
    match executed(program, &firing.activity) {
        None => false,
        Some(statement) => is_own_at(job.table(), program, statement, firing)
            && fires_in_turns(program, firing),
    }
}

/// Whether a firing of the job is a reply: one of an `ask` that has a write. It doesn't look whether it is a
/// firing of the job.
#[tactic(auto, using(crate::proofs::Own::reply_if_answers, crate::proofs::Own::reply_stands))]
pub fn is_reply(job: &Job, firing: &Firing) -> bool
    requires { IsTrue (is_firing_of job.now firing.now) }
    ensures { IsTrue result ↔ IsReply job.now firing.now }
{
    match executed(job.program(), &firing.activity) {
        None => false,
        Some(statement) => is_answer(statement.kind(), firing),
    }
}

/// Whether the token lies at a port of a statement that its activity may execute.
#[tactic(auto, using(crate::proofs::Placing::placed, crate::proofs::Placing::of_none, crate::proofs::Placing::fits_there, crate::proofs::Placing::within_ports))]
fn is_placed(program: &Program, token: &Token) -> bool
    ensures { IsTrue result ↔ IsPlaced program.now.blocks token.now }
{
    match executed(program, token.activity()) {
        None => false,
        Some(statement) => {
            usize::from(token.port()) <= ports_of(statement.kind())
                && fits_at(program, statement.region(), token.activity())
        }
    }
}

/// Whether the entry fits the job: a token lies at a port of a statement that its activity may execute,
/// and writes, faults and answers lie anywhere.
#[tactic(auto, unfolding(crate::specs::Fits::IsFitting))]
pub fn is_fitting(job: &Job, entry: &Entry) -> bool
    ensures { IsTrue result ↔ IsFitting job.now.program.blocks entry.now }
{
    match entry {
        Entry::Token(token) => is_placed(job.program(), token),
        Entry::Write(_write) => true,
        Entry::Fault(_fault) => true,
        Entry::Answer(_value) => true,
    }
}

/// Whether the firing is an own one of that statement, where its activity fits.
fn is_fitting_firing_at(table: &Table, statement: &Statement, firing: &Firing) -> bool
    ensures { (p : List BlockParts) → fits_at p statement.now.region firing.now.activity ≡ true
        → result ≡ is_own_at table.now p (Some statement.now) firing.now }
{
    has_own_form(table, statement, firing)
}

/// Whether it is an own firing of the job, as `is_own` answers, where its activity may execute the statement
/// that it names, and this is that statement. It neither looks for the statement nor goes through the
/// context.
#[tactic(auto, unfolding(crate::specs::Rule::is_own_of))]
pub fn is_own_of_statement(job: &Job, statement: &Statement, firing: &Firing) -> bool
    requires executable { IsExecutable job.now.program.blocks firing.now.activity }
    requires stands { statement_of job.now.program.blocks firing.now.activity.block
        firing.now.activity.statement ≡ Some statement.now }
    ensures { result ≡ is_own_of job.now firing.now }
{
    is_fitting_firing_at(job.table(), statement, firing) && fires_in_turns(job.program(), firing)
}

/// Why a list of entries could not be made.
#[derive(Clone, Copy, Debug, PartialEq, Eq, Error)]
pub enum RuleError {
    /// It is no firing of the job.
    #[error("not a firing of this job")]
    NotAFiring,
    /// There is no memory.
    #[error("no memory")]
    NoMemory,
}

impl From<AllocError> for RuleError {
    ghost from_gives = { λ _ e. e ≡ errors.NoMemory };

    fn from(_: AllocError) -> RuleError {
        RuleError::NoMemory
    }
}

impl<T: Drop> From<AllocFailed<T>> for RuleError {
    ghost from_gives = { λ _ e. e ≡ errors.NoMemory };

    fn from(_: AllocFailed<T>) -> RuleError {
        RuleError::NoMemory
    }
}

/// The one start token of the job: its argument, at port 1 of statement 1 of `main`.
#[tactic(auto, unfolding(crate::specs::Rule::start_of))]
pub fn start(job: &Job) -> Entry
    ensures start { result ≡ start_of job.now }
    ensures fitting { IsFitting job.now.program.blocks result }
{
    let program = job.program();
    // Brings in that the program lies within its limits.
    let _ = program.blocks();
    let main = BlockName::new(b"main");
    let activity = Name::new(Context::root(), main, 1, 1);
    Entry::Token(Token::new(activity, 1, Value::Int(job.argument())))
}

/// The entries that a firing of the job gives: its value at each destination, in their order, what begins a
/// call or brings back its result, the write of a `store`, the answer from `end` in the root, or the one
/// fault. They stand in the order of entries, each once.
///
/// Promise needs-and-gives: what is returned is exactly what the firing gives by the rule, which has a line
/// for each kind of statement.
///
/// Promise tokens-fit: every token is for a statement and a port that the program has, and its context,
/// region and initiation fit.
///
/// # Errors
/// `NotAFiring` exactly where it is no firing of the job. `NoMemory` where there is no memory.
#[tactic(auto, unfolding(crate::specs::Rule::gives_of, crate::specs::Rule::is_firing_of), using(crate::proofs::Follow::leaves_loop, crate::proofs::Follow::ends_call))]
pub fn gives(alloc: Global, job: &Job, firing: &Firing) -> Result<Vec<Entry>, RuleError>
    ensures ok { IfOk result
        (λ v. IsTrue (is_firing_of job.now firing.now) × (v.items ≡ gives_of job.now firing.now)) }
    ensures order { IfOk result (λ v. Rises entry_cmp v.items) }
    ensures fitting { IfOk result (λ v. AllFit job.now.program.blocks v.items) }
    ensures refused { result ≡ Err errors.NotAFiring ↔ (is_firing_of job.now firing.now ≡ false) }
{
    let program = job.program();
    let Some(statement) = executed(program, &firing.activity) else {
        return Err(RuleError::NotAFiring);
    };
    if !is_firing_at(program, statement, firing) {
        return Err(RuleError::NotAFiring);
    }
    if !fires_in_turns(program, firing) {
        return Err(RuleError::NotAFiring);
    }
    // Brings in that the program lies within its limits.
    let _ = program.blocks();
    let all = given_at(alloc, program, statement, firing)?;
    let entries = all.into_list(alloc)?;
    Ok(entries)
}

/// What a firing of the job gives: the entries that `gives` returns. It doesn't look whether it is a
/// firing of the job.
///
/// # Errors
/// `AllocError` where there is no memory.
#[tactic(auto, unfolding(crate::specs::Rule::gives_of, crate::specs::Rule::is_firing_of), using(crate::proofs::Follow::leaves_loop, crate::proofs::Follow::ends_call))]
pub fn given<'a>(alloc: Global, job: &'a Job, firing: &Firing) -> Result<Given<'a>, AllocError>
    requires { IsTrue (is_firing_of job.now firing.now) }
    ensures all { IfOk result (λ g. entries_given g ≡ gives_of job.now firing.now) }
    ensures fitting { AllFit job.now.program.blocks (gives_of job.now firing.now) }
{
    let program = job.program();
    let Some(statement) = executed(program, &firing.activity) else {
        unreachable!();
    };
    // Brings in that the program lies within its limits.
    let _ = program.blocks();
    given_at(alloc, program, statement, firing)
}

/// The entries that a firing of the job gives, as `gives` returns them. It doesn't look whether it is
/// a firing of the job.
///
/// # Errors
/// `AllocError` where there is no memory.
pub fn given_by(alloc: Global, job: &Job, firing: &Firing) -> Result<Vec<Entry>, AllocError>
    requires { IsTrue (is_firing_of job.now firing.now) }
    ensures all { IfOk result (λ v. v.items ≡ gives_of job.now firing.now) }
    ensures fitting { IfOk result (λ v. AllFit job.now.program.blocks v.items) }
{
    let all = given(alloc, job, firing)?.into_list(alloc)?;
    Ok(all)
}

/// Adds the tokens that have these values at the activity's ports, from that port on.
fn add_tokens(tokens: &mut Vec<Entry>, activity: &Name, values: &[Value]) -> Result<(), AllocError>
    requires { length values.now ≤ most_ports }
    ensures { OnOk result
        (tokens.new.items ≡ tokens.old.items ++ tokens_from activity.now 1 values.now) }
{
    let mut port = 1;
    for value in values {
        let token = Token::new(activity.copy()?, port, value.copy()?);
        tokens.push(Entry::Token(token))?;
        port += 1;
    }
    Ok(())
}

/// The entries that a firing needs, as `needs` returns them. It doesn't look whether it is a firing of a job.
///
/// # Errors
/// `AllocError` where there is no memory.
#[tactic(auto, unfolding(crate::specs::Rule::needs_of), using(crate::proofs::InOrder::needs_rise))]
pub fn needed_by(alloc: Global, firing: &Firing) -> Result<Vec<Entry>, AllocError>
    ensures all { IfOk result (λ v. v.items ≡ needs_of firing.now) }
    ensures order { IfOk result (λ v. Rises entry_cmp v.items) }
{
    let mut entries = Vec::new(alloc);
    add_tokens(&mut entries, &firing.activity, firing.values.as_slice())?;
    add_write(&mut entries, firing)?;
    Ok(entries)
}

/// The entries that a firing of the job needs: the token of its value at each port, from port 1 on, and the
/// write that it reads.
///
/// Promise needs-in-order: `needs` and `gives` return entries in their order, each once.
///
/// # Errors
/// `NotAFiring` exactly where it is no firing of the job. `NoMemory` where there is no memory.
pub fn needs(alloc: Global, job: &Job, firing: &Firing) -> Result<Vec<Entry>, RuleError>
    ensures ok { IfOk result
        (λ v. IsTrue (is_firing_of job.now firing.now) × (v.items ≡ needs_of firing.now)) }
    ensures order { IfOk result (λ v. Rises entry_cmp v.items) }
    ensures refused { result ≡ Err errors.NotAFiring ↔ (is_firing_of job.now firing.now ≡ false) }
{
    if !is_firing(job, firing) {
        return Err(RuleError::NotAFiring);
    }
    let entries = needed_by(alloc, firing)?;
    Ok(entries)
}
