//! The rules of the checker, and where a program breaks one.
//!
//! Of several breaches the first by the rule's number is reported, then by block, then by statement. So a
//! program with a wrong region and two blocks of one name is told of the names.
ghost use Rattle.std.specs.Prelude.{◌≡◌};
ghost use Rattle.u_check.specs.Rules.{number_of};

use std::fmt;
use thiserror::Error;

/// What the checker demands of a program: this project's profile of the programs that it runs.
#[derive(Clone, Copy, Debug, PartialEq, Eq)]
pub enum Rule {
    /// The names of the blocks differ. Broken by the later block.
    BlockNamesDiffer,
    /// A block `main` exists. Broken by the program.
    MainExists,
    /// Statement 1 of a block is `begin` in region 0, and no other is `begin`.
    BeginComesFirst,
    /// A statement's region is 0 or a loop of its block.
    RegionExists,
    /// A destination names a statement of the block and a port of it. Broken by the sender.
    DestinationExists,
    /// No destination is a `begin`, a `param` or a `back`. Broken by the sender.
    BeginAndBackTakeNothing,
    /// The loop of an `enter` is held by the statement's region, and all its destinations lie in it.
    EnterReachesItsLoop,
    /// The `back` of an `apply` is a `back` of the block in the same region.
    ApplyNamesBack,
    /// A `back` is named by some `apply` of its block.
    BackIsNamed,
    /// The procedure of a `const` names a block.
    ConstantNamesBlock,
    /// A `next`, a `last` and a `leave` lie in a loop.
    LoopStatementsInLoops,
    /// A `last` sends to a `leave` only, and nothing else sends to a `leave`. Broken by the sender.
    LastSendsToLeave,
    /// A `leave` sends only into the region that holds its loop.
    LeaveSendsOut,
    /// An `end` lies in region 0.
    EndInOuterRegion,
    /// Every statement but `enter` and `leave` sends into its own region. Broken by the sender.
    OwnRegion,
    /// Every port of every statement but `begin`, `param` and `back` is some destination of the block.
    PortsAreFed,
    /// `param K` is statement K in region 0, and the statements 2 to K - 1 are `param`. Broken by the
    /// `param`.
    ParamsComeInOrder,
    /// Block `main` has no `param`. Broken by its first one.
    MainTakesOne,
}

impl Rule {
    /// The rule's number, 1 to 18, by which rules are ordered.
    pub fn number(self) -> u8
        ensures { result ≡ number_of self }
    {
        match self {
            Rule::BlockNamesDiffer => 1,
            Rule::MainExists => 2,
            Rule::BeginComesFirst => 3,
            Rule::RegionExists => 4,
            Rule::DestinationExists => 5,
            Rule::BeginAndBackTakeNothing => 6,
            Rule::EnterReachesItsLoop => 7,
            Rule::ApplyNamesBack => 8,
            Rule::BackIsNamed => 9,
            Rule::ConstantNamesBlock => 10,
            Rule::LoopStatementsInLoops => 11,
            Rule::LastSendsToLeave => 12,
            Rule::LeaveSendsOut => 13,
            Rule::EndInOuterRegion => 14,
            Rule::OwnRegion => 15,
            Rule::PortsAreFed => 16,
            Rule::ParamsComeInOrder => 17,
            Rule::MainTakesOne => 18,
        }
    }
}

/// A rule that a program breaks, and where.
#[derive(Clone, Copy, Debug, PartialEq, Eq, Error)]
#[error("rule {rule} block {block} statement {statement}")]
pub struct Breach {
    /// The rule.
    pub rule: Rule,
    /// The block's number from 1, or 0 where the rule names no block.
    pub block: usize,
    /// The statement's number from 1, or 0 where the rule names no statement.
    pub statement: usize,
}

/// Prints the rule's number.
impl fmt::Display for Rule {
    ghost use Rattle.std.specs.Prelude.{Some};
    ghost use Rattle.std.specs.Fmt.{decimal};

    ghost output = { λ r. Some (decimal (number_of r)) };

    fn fmt<W: fmt::Write>(&self, f: &mut fmt::Formatter<W>) -> fmt::Result {
        write!(f, "{}", self.number())
    }
}
