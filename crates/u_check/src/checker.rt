//! The checker.
//!
//! The check goes over the program once for each rule, and hands the program back. It takes no memory, so
//! it can't fail for want of it. `Refused` is no error: it has the program, and the breach, which is the
//! error.
ghost use Rattle.std.specs.Prelude.{◌≡◌, ℕ, ◌↔◌, IsOk, IfOk, IfErr, IfSome, IfNone, ◌<◌};
ghost use Rattle.u_check.specs.Rules.{IsChecked, Breaches, StatementBreaks, IsFirstOfRule, IsFirstBreach};

use crate::job::Checked;
use crate::keeps::{block_keeps, program_keeps, statement_keeps};
use crate::rule::{Breach, Rule};
use u_program::{Block, Program};

/// The rules, in the order of their numbers.
const RULES: [Rule; 18] = [
    Rule::BlockNamesDiffer,
    Rule::MainExists,
    Rule::BeginComesFirst,
    Rule::RegionExists,
    Rule::DestinationExists,
    Rule::BeginAndBackTakeNothing,
    Rule::EnterReachesItsLoop,
    Rule::ApplyNamesBack,
    Rule::BackIsNamed,
    Rule::ConstantNamesBlock,
    Rule::LoopStatementsInLoops,
    Rule::LastSendsToLeave,
    Rule::LeaveSendsOut,
    Rule::EndInOuterRegion,
    Rule::OwnRegion,
    Rule::PortsAreFed,
    Rule::ParamsComeInOrder,
    Rule::MainTakesOne,
];

/// A program that breaks a rule, handed back, and the first breach.
#[derive(Drop)]
pub struct Refused {
    /// The program, as it was given.
    pub program: Program,
    /// The first rule that it breaks, by number, and the first place where it does.
    pub breach: Breach,
}

/// The number of the first statement that breaks the rule.
fn first_statement(rule: Rule, blocks: &[Block], block: &Block) -> Option<usize>
    ensures breach { IfSome result (λ n. StatementBreaks blocks.now rule block.now n) }
    ensures first { IfSome result
        (λ n. (m : ℕ) → m < n → StatementBreaks blocks.now rule block.now m → ⊥) }
    ensures none { IfNone result ((m : ℕ) → StatementBreaks blocks.now rule block.now m → ⊥) }
{
    for (i, statement) in block.statements().iter().enumerate() {
        if !statement_keeps(rule, blocks, block, i + 1, statement) {
            return Some(i + 1);
        }
    }
    None
}

/// The first place where the program breaks the rule.
fn first_of_rule(rule: Rule, blocks: &[Block]) -> Option<Breach>
    ensures rule { IfSome result (λ e. e.rule ≡ rule) }
    ensures first { IfSome result (λ e. IsFirstOfRule blocks.now rule e.block e.statement) }
    ensures none { IfNone result ((b s : ℕ) → Breaches blocks.now rule b s → ⊥) }
{
    if !program_keeps(rule, blocks) {
        return Some(Breach {
            rule,
            block: 0,
            statement: 0,
        });
    }
    for (i, block) in blocks.iter().enumerate() {
        if !block_keeps(rule, blocks, i + 1, block) {
            return Some(Breach {
                rule,
                block: i + 1,
                statement: 0,
            });
        }
        if let Some(statement) = first_statement(rule, blocks, block) {
            return Some(Breach {
                rule,
                block: i + 1,
                statement,
            });
        }
    }
    None
}

/// The first breach, by the rule's number, then the block, then the statement.
fn first_breach(blocks: &[Block]) -> Option<Breach>
    ensures first { IfSome result (λ e. IsFirstBreach blocks.now e.rule e.block e.statement) }
    ensures none { IfNone result (IsChecked blocks.now) }
{
    for rule in RULES {
        if let Some(breach) = first_of_rule(rule, blocks) {
            return Some(breach);
        }
    }
    None
}

/// The program as a checked one, where it breaks no rule.
///
/// Promise check-is-exact: a checked program is returned exactly if no rule is broken, and it is the program
/// that was passed.
///
/// Promise first-breach: an error has the least rule that is broken, and of its breaches that of the first
/// block, and there of the first statement.
///
/// # Errors
/// The program itself and its first breach. The check takes no memory.
pub fn check(program: Program) -> Result<Checked, Refused>
    ensures exact { IsOk result ↔ IsChecked program.blocks }
    ensures ok { IfOk result (λ c. c ≡ program) }
    ensures back { IfErr result (λ e. e.program ≡ program) }
    ensures first { IfErr result
        (λ e. IsFirstBreach program.blocks e.breach.rule e.breach.block e.breach.statement) }
{
    match first_breach(program.blocks()) {
        Some(breach) => Err(Refused { program, breach }),
        None => Ok(Checked::of(program)),
    }
}
