//! Which destination of a statement breaks a rule.
use u_check::{Rule, held_by, ports_of, statement_at};
use u_program::{Block, Destination, Kind, Statement};

/// A destination of a statement, with its place in the lists.
#[derive(Clone, Copy)]
pub struct DestinationAt {
    /// The destination.
    pub destination: Destination,
    /// How many words stand between the arrow and it.
    pub words: usize,
}

/// Whether the destination of the statement breaks the rule.
fn breaks(rule: Rule, block: &Block, statement: &Statement, sent: Destination) -> bool {
    let Some(target) = statement_at(block.statements(), sent.statement) else {
        return rule == Rule::DestinationExists;
    };
    let (from, to) = (statement.region(), target.region());
    match (rule, statement.kind(), target.kind()) {
        (Rule::DestinationExists, _, kind) => usize::from(sent.port) > ports_of(kind),
        (Rule::BeginAndBackTakeNothing, _, kind) => {
            matches!(kind, Kind::Begin | Kind::Param(_) | Kind::Back)
        }
        (Rule::LastSendsToLeave, kind, target) => {
            matches!(kind, Kind::Last) != matches!(target, Kind::Leave)
        }
        (Rule::EnterReachesItsLoop, Kind::Enter(number), _) => to != *number,
        (Rule::LeaveSendsOut, Kind::Leave, _) => held_by(block.loops(), from) != Some(to),
        (Rule::OwnRegion, Kind::Enter(_) | Kind::Leave, _) => false,
        (Rule::OwnRegion, _, _) => to != from,
        _ => false,
    }
}

/// Whether an `enter` stands in the region that holds its loop. Of other kinds it holds.
fn enters_inward(block: &Block, statement: &Statement) -> bool {
    match statement.kind() {
        Kind::Enter(number) => held_by(block.loops(), *number) == Some(statement.region()),
        _ => true,
    }
}

/// The first destination of the statement that breaks the rule, if there is one and the statement
/// does not break it by itself.
pub fn wrong_destination(
    rule: Rule,
    block: &Block,
    statement: &Statement,
) -> Option<DestinationAt> {
    if rule == Rule::EnterReachesItsLoop && !enters_inward(block, statement) {
        return None;
    }
    let first = statement.destinations();
    for (i, sent) in first.iter().chain(statement.otherwise()).enumerate() {
        if breaks(rule, block, statement, *sent) {
            let slash = usize::from(i >= first.len());
            return Some(DestinationAt {
                destination: *sent,
                words: i.saturating_add(slash),
            });
        }
    }
    None
}
