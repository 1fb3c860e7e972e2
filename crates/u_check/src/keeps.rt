//! What each rule demands of a program, a block, a statement and a destination.
//!
//! `u_compile/blocks` tests the names of blocks as it makes them; here finished programs are looked at.
ghost use Rattle.std.specs.Prelude.{◌≡◌, ◌-◌, ◌<◌, ◌≤◌, ◌==◌, ◌&&◌, ◌||◌, not, length, take};
ghost use Rattle.std.specs.List.{list_any, list_all, range_with_len};
ghost use Rattle.u_program.specs.declared.program.Destination.{Destination};
ghost use Rattle.u_check.specs.Rules.{main_name, same_name, names_block, gives_block, sends_to, is_fed, is_whole, program_keeps, block_keeps, itself_keeps, destination_keeps, statement_keeps};

use crate::kinds::{
    comes_from_outside, crosses, is_back, is_end, is_last, is_leave, is_of_loop, is_param, ports_of,
};
use crate::places::{
    begins_well, comes_in_order, enters_inward, has_region, held_by, is_applied, is_outer,
    leaves_after_last, lies_in, lies_in_entered, lies_in_some, names_back, reaches, takes_tokens,
};
use crate::rule::Rule;
use u_name::BlockName;
use u_program::{Block, Constant, Destination, Kind, Statement};

/// Whether a block of the list has that name.
fn names_block(blocks: &[Block], name: &BlockName) -> bool
    ensures { result ≡ names_block blocks.now name.now }
{
    blocks.iter().any(|block| block.name() == name)
}

/// Whether a block of the list is called `main`.
fn has_main(blocks: &[Block]) -> bool
    ensures { result ≡ names_block blocks.now main_name }
{
    let main = BlockName::new(b"main");
    names_block(blocks, &main)
}

/// Whether the block is called `main`.
fn is_main(block: &Block) -> bool
    ensures { result ≡ same_name block.now.name main_name }
{
    *block.name() == BlockName::new(b"main")
}

/// Whether a procedure that the statement gives is that of a block.
#[tactic(auto, unfolding(crate::specs::Rules::gives_block))]
fn gives_block(blocks: &[Block], kind: &Kind) -> bool
    ensures { result ≡ gives_block blocks.now kind.now }
{
    match kind {
        Kind::Const(Constant::Proc(name)) => names_block(blocks, name),
        _ => true,
    }
}

/// Whether a destination of the list is that port of the statement of that number.
fn lists(sent: &[Destination], number: usize, port: usize) -> bool
    ensures { result
        ≡ list_any (λ (d : Destination). d.statement == number && d.port == port) sent.now }
{
    sent.iter().any(|d| usize::from(d.statement) == number && usize::from(d.port) == port)
}

/// Whether a destination of the statement is that port of the statement of that number.
#[tactic(auto, using(crate::proofs::Lists::sends_either))]
fn sends_to(statement: &Statement, number: usize, port: usize) -> bool
    ensures { result ≡ sends_to statement.now number port }
{
    lists(statement.destinations(), number, port) || lists(statement.otherwise(), number, port)
}

/// Whether some statement sends to that port of the statement of that number.
#[tactic(auto, unfolding(crate::specs::Rules::is_fed))]
fn is_fed(statements: &[Statement], number: usize, port: usize) -> bool
    ensures { result ≡ is_fed statements.now number port }
{
    statements.iter().any(|s| sends_to(s, number, port))
}

/// Whether each of so many ports of the statement of that number is some destination of the block.
fn all_fed(statements: &[Statement], number: usize, ports: usize) -> bool
    requires { ports ≤ 5 }
    ensures { result
        ≡ list_all (λ port. is_fed statements.now number port) (range_with_len 1 ports) }
{
    (1..ports + 1).all(|port| is_fed(statements, number, port))
}

/// Whether every port of the statement is some destination of the block.
#[tactic(auto, unfolding(crate::specs::Rules::is_whole))]
fn is_whole(statements: &[Statement], number: usize, kind: &Kind) -> bool
    ensures { result ≡ is_whole statements.now number kind.now }
{
    comes_from_outside(kind) || all_fed(statements, number, ports_of(kind))
}

/// Whether the program as a whole keeps the rule.
pub fn program_keeps(rule: Rule, blocks: &[Block]) -> bool
    ensures { result ≡ program_keeps rule blocks.now }
{
    match rule {
        Rule::MainExists => has_main(blocks),
        _ => true,
    }
}

/// Whether the block of that number keeps the rule.
pub fn block_keeps(rule: Rule, blocks: &[Block], number: usize, block: &Block) -> bool
    requires some { 1 ≤ number }
    requires there { number ≤ length blocks.now }
    ensures { result ≡ block_keeps rule blocks.now number block.now }
{
    match rule {
        Rule::BlockNamesDiffer => !names_block(&blocks[..number - 1], block.name()),
        _ => true,
    }
}

/// Whether the statement of that number keeps the rule, its destinations apart.
fn itself_keeps(
    rule: Rule,
    blocks: &[Block],
    block: &Block,
    number: usize,
    statement: &Statement,
) -> bool
    ensures { result ≡ itself_keeps rule blocks.now block.now number statement.now }
{
    let kind = statement.kind();
    let region = statement.region();
    match rule {
        Rule::BeginComesFirst => begins_well(number, statement),
        Rule::RegionExists => has_region(block.loops(), region),
        Rule::EnterReachesItsLoop => enters_inward(block.loops(), region, kind),
        Rule::ApplyNamesBack => names_back(block.statements(), region, kind),
        Rule::BackIsNamed => !is_back(kind) || is_applied(block.statements(), number),
        Rule::ConstantNamesBlock => gives_block(blocks, kind),
        Rule::LoopStatementsInLoops => !is_of_loop(kind) || !is_outer(statement),
        Rule::EndInOuterRegion => !is_end(kind) || is_outer(statement),
        Rule::PortsAreFed => is_whole(block.statements(), number, kind),
        Rule::ParamsComeInOrder => comes_in_order(block.statements(), number, statement),
        Rule::MainTakesOne => !is_param(kind) || !is_main(block),
        _ => true,
    }
}

/// Whether a destination of the statement keeps the rule.
fn destination_keeps(
    rule: Rule,
    block: &Block,
    statement: &Statement,
    destination: &Destination,
) -> bool
    ensures { result ≡ destination_keeps rule block.now statement.now destination.now }
{
    let statements = block.statements();
    let kind = statement.kind();
    let region = statement.region();
    match rule {
        Rule::DestinationExists => reaches(statements, destination),
        Rule::BeginAndBackTakeNothing => takes_tokens(statements, destination),
        Rule::EnterReachesItsLoop => lies_in_entered(kind, statements, destination),
        Rule::LastSendsToLeave => leaves_after_last(is_last(kind), statements, destination),
        Rule::LeaveSendsOut => !is_leave(kind)
            || lies_in_some(held_by(block.loops(), region), statements, destination),
        Rule::OwnRegion => crosses(kind) || lies_in(region, statements, destination),
        _ => true,
    }
}

/// Whether each destination of the list, which the statement sends to, keeps the rule.
fn all_keep(rule: Rule, block: &Block, statement: &Statement, sent: &[Destination]) -> bool
    ensures { result ≡ list_all (λ d. destination_keeps rule block.now statement.now d) sent.now }
{
    sent.iter()
        .all(|d| destination_keeps(rule, block, statement, d))
}

/// Whether the statement of that number of the block keeps the rule.
#[tactic(auto, using(crate::proofs::Lists::statement_in_parts))]
pub fn statement_keeps(
    rule: Rule,
    blocks: &[Block],
    block: &Block,
    number: usize,
    statement: &Statement,
) -> bool
    ensures { result ≡ statement_keeps rule blocks.now block.now number statement.now }
{
    itself_keeps(rule, blocks, block, number, statement)
        && all_keep(rule, block, statement, statement.destinations())
        && all_keep(rule, block, statement, statement.otherwise())
}
