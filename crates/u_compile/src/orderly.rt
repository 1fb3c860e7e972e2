//! Which statements and links a graph gets, wherever they lie: what the rules of the checker ask of them.
ghost use Rattle.std.specs.Prelude.{◌≡◌, ◌≤◌, true, IsTrue};
ghost use Rattle.u_program.specs.declared.program.Kind.TheVariants as kinds;
ghost use Rattle.u_program.specs.declared.program.Parameter.{Parameter};
ghost use Rattle.u_check.specs.Kinds.{is_of_loop};
ghost use Rattle.u_compile.specs.Orderly.{IsNamed, EntersLoop, IsParamAt, FollowsParams, ComesInOrder, StandsWell, LeavesWell};

use crate::fanning::draft_at;
use crate::graph::Draft;
use u_program::{Kind, Parameter};

/// Whether the statement is a `begin` in the outer region where it is the first one, and no `begin` elsewhere.
fn begins_well(number: u16, new: &Draft) -> bool
    ensures first { IsTrue result → number ≡ 1 → new.now.kind ≡ kinds.Begin }
    ensures begins { IsTrue result → new.now.kind ≡ kinds.Begin
        → (number ≡ 1) × (new.now.region ≡ 0) }
{
    match new.kind() {
        Kind::Begin => number == 1 && new.region() == 0,
        _ => number != 1,
    }
}

/// Whether the statement lies in no loop where it is an `end`, and in one where it makes the turns of a loop.
fn has_its_region(new: &Draft) -> bool
    ensures ends { IsTrue result → new.now.kind ≡ kinds.End → new.now.region ≡ 0 }
    ensures turns { IsTrue result → is_of_loop new.now.kind ≡ true → 1 ≤ new.now.region }
{
    match new.kind() {
        Kind::End => new.region() == 0,
        Kind::Next | Kind::Last | Kind::Leave => new.region() != 0,
        _ => true,
    }
}

/// Whether the statement of that number enters that loop.
#[tactic(auto, using(crate::proofs::OrderlyTests::enters))]
fn enters_loop(drafts: &[Draft], number: u16, region: u8) -> bool
    ensures { IsTrue result → EntersLoop drafts.now number region }
{
    match draft_at(drafts, number) {
        Some(draft) => match draft.kind() {
            Kind::Enter(entered) => entered == region,
            _ => false,
        },
        None => false,
    }
}

/// Whether the statement, if it is a `next`, lies in the loop that its `enter` enters.
fn goes_on(drafts: &[Draft], new: &Draft) -> bool
    ensures { IsTrue result → new.now.kind ≡ kinds.Next
        → EntersLoop drafts.now new.now.shares new.now.region }
{
    match new.kind() {
        Kind::Next => enters_loop(drafts, new.shares(), new.region()),
        _ => true,
    }
}

/// Whether the statement with number `apply` is an `apply` that names that `back`.
#[tactic(auto, using(crate::proofs::OrderlyTests::named))]
fn names(drafts: &[Draft], apply: u16, back: u16) -> bool
    ensures { IsTrue result → IsNamed drafts.now back }
{
    match draft_at(drafts, apply) {
        Some(draft) => match draft.kind() {
            Kind::Apply(named, _) => named == back,
            _ => false,
        },
        None => false,
    }
}

/// Whether the statement, if it is a `back`, is the one that the `apply` with that number names.
fn comes_back(drafts: &[Draft], number: u16, new: &Draft, apply: u16) -> bool
    ensures { IsTrue result → new.now.kind ≡ kinds.Back → IsNamed drafts.now number }
{
    match new.kind() {
        Kind::Back => names(drafts, apply, number),
        _ => true,
    }
}

/// Whether the statement of that number is a `param`.
#[tactic(auto, using(crate::proofs::OrderlyTests::param))]
fn is_param(drafts: &[Draft], number: u16) -> bool
    ensures { IsTrue result → IsParamAt drafts.now number }
{
    match draft_at(drafts, number) {
        Some(draft) => matches!(draft.kind(), Kind::Param(_)),
        None => false,
    }
}

/// Whether the statements of the parameters behind the first and before this one are `param`.
fn follows_params(drafts: &[Draft], parameter: Parameter) -> bool
    ensures { IsTrue result → FollowsParams drafts.now parameter }
{
    match parameter {
        Parameter::Second => true,
        Parameter::Third => is_param(drafts, 2),
        Parameter::Fourth => is_param(drafts, 2) && is_param(drafts, 3),
    }
}

/// Whether the parameter's `param` may be the statement of that number, in that region.
fn comes_in_order(drafts: &[Draft], number: u16, region: u8, parameter: Parameter) -> bool
    ensures { IsTrue result → ComesInOrder drafts.now number region parameter }
{
    number == u16::from(parameter.place()) && region == 0 && follows_params(drafts, parameter)
}

/// Whether the statement, if it is a `param`, may have that number.
fn takes_its_turn(drafts: &[Draft], number: u16, new: &Draft) -> bool
    ensures { IsTrue result → (k : Parameter) → new.now.kind ≡ kinds.Param k
        → ComesInOrder drafts.now number new.now.region k }
{
    match new.kind() {
        Kind::Param(parameter) => comes_in_order(drafts, number, new.region(), parameter),
        _ => true,
    }
}

/// Whether the statement may have that number behind the others, where the `apply` with the other number, if there is
/// one, waits for its `back`.
pub(crate) fn stands_well(drafts: &[Draft], number: u16, new: &Draft, apply: u16) -> bool
    ensures { IsTrue result → StandsWell drafts.now number new.now }
{
    if !begins_well(number, new) || !has_its_region(new) {
        return false;
    }
    if !goes_on(drafts, new) || !comes_back(drafts, number, new, apply) {
        return false;
    }
    takes_its_turn(drafts, number, new)
}

/// Whether a link may lead from the one statement to the other: from a `last` to a `leave` alone, and from nothing else
/// to one.
#[tactic(auto, using(crate::proofs::OrderlyTests::leaves))]
pub(crate) fn leaves_well(drafts: &[Draft], from: u16, to: u16) -> bool
    ensures { IsTrue result → LeavesWell drafts.now from to }
{
    let (Some(sender), Some(taker)) = (draft_at(drafts, from), draft_at(drafts, to)) else {
        return false;
    };
    let leaves = matches!(taker.kind(), Kind::Leave);
    match sender.kind() {
        Kind::Last => leaves,
        _ => !leaves,
    }
}
