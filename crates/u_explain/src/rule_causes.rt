//! Why a statement breaks a rule, in a sentence, and the other place that is involved.
use crate::arcs::{StatementPort, is_fed};
use crate::breaking::DestinationAt;
use crate::scanning::BlockLine;
use crate::spot::behind_arrow;
use crate::telling::{Article, Count, Named, Quoted, Region, Told};
use u_check::{Rule, held_by, ports_of, statement_at};
use u_program::{Block, Constant, Destination, Kind, Parameter, Statement, kind_word};

/// A statement that breaks a rule.
#[derive(Clone, Copy)]
pub struct Breaking<'a> {
    /// The block that it stands in.
    pub block: &'a Block,
    /// The statement's number in its block, from 1.
    pub number: usize,
    /// The statement.
    pub statement: &'a Statement,
    /// The destination that breaks the rule, if one does.
    pub sent: Option<DestinationAt>,
}

impl<'a> Breaking<'a> {
    /// The statement of that number of the block.
    fn at(&self, number: u16) -> Option<&'a Statement> {
        statement_at(self.block.statements(), number)
    }

    /// The region that holds the loop of that number of the block.
    fn held_by(&self, number: u8) -> Option<u8> {
        held_by(self.block.loops(), number)
    }

    /// How many statements the block has.
    fn statements(&self) -> Count {
        Count(self.block.statements().len(), "statement")
    }

    /// How many loops the block has.
    fn loops(&self) -> Count {
        Count(self.block.loops().len(), "loop")
    }

    /// The first port of the statement to which nothing sends; 0, if there is none.
    fn unfed_port(&self) -> usize {
        for port in 1..6 {
            let to = StatementPort(self.number, port);
            if port <= ports_of(self.statement.kind()) && !is_fed(self.block, to) {
                return port;
            }
        }
        0
    }

    /// The statement for which a `param` breaks rule 17, if it is not for its own place: the first one
    /// between the `begin` and it that is no `param`.
    fn ahead(&self) -> Option<(usize, &'a Statement)> {
        let number = match (self.statement.kind(), self.statement.region()) {
            (Kind::Param(parameter), 0) => usize::from(parameter.place()),
            _ => 0,
        };
        for (i, other) in self.block.statements().iter().enumerate().skip(1) {
            if i + 1 < number && number == self.number && !matches!(other.kind(), Kind::Param(_)) {
                return Some((i + 1, other));
            }
        }
        None
    }
}

/// Rule 3.
fn tell_begin(out: &mut String, it: &Breaking<'_>) -> Told {
    let region = it.statement.region();
    match (it.number, it.statement.kind()) {
        (1, Kind::Begin) => write!(
            out,
            "the `begin` stands in region {region}; it belongs in region 0"
        ),
        (1, kind) => write!(
            out,
            "statement 1 of the block is {}, and not a `begin`",
            Article(kind)
        ),
        (number, _) => write!(
            out,
            "statement {number} is a `begin` too; only statement 1 is one"
        ),
    }
}

/// Rule 7, if the loop is not there or not held by the region.
fn tell_enter(out: &mut String, it: &Breaking<'_>, number: u8) -> Told {
    match it.held_by(number) {
        None => write!(
            out,
            "there is no loop {number} to enter: the block has {}",
            it.loops()
        ),
        Some(holder) => write!(
            out,
            "loop {number} is entered from region {holder}, which holds it, and this `enter` stands in {}",
            Region(it.statement.region())
        ),
    }
}

/// Rule 8.
fn tell_apply(out: &mut String, it: &Breaking<'_>, number: u16) -> Told {
    write!(out, "the `apply` names statement {number}")?;
    let own = Region(it.statement.region());
    match it.at(number) {
        None => write!(
            out,
            ", which is not there: the block has {}",
            it.statements()
        ),
        Some(target) if matches!(target.kind(), Kind::Back) => {
            let region = Region(target.region());
            write!(out, ", a `back` in {region}, and stands itself in {own}")
        }
        Some(target) => write!(
            out,
            ", which is {} and not a `back`",
            Article(target.kind())
        ),
    }
}

/// Rule 17.
fn tell_param(out: &mut String, it: &Breaking<'_>, parameter: Parameter) -> Told {
    let (place, number) = (parameter.place(), it.number);
    if usize::from(place) != number {
        return write!(
            out,
            "this `param {place}` is statement {number}; it belongs at statement {place}"
        );
    }
    match (it.statement.region(), it.ahead()) {
        (0, Some((number, other))) => {
            let named = Named(number, Some(other));
            write!(out, "{named}, stands before it, and is no `param`")
        }
        (0, None) => Ok(()),
        (region, _) => write!(
            out,
            "the `param` stands in region {region}; it belongs in region 0"
        ),
    }
}

/// The cause if a destination breaks the rule.
fn tell_sent(out: &mut String, rule: Rule, it: &Breaking<'_>, sent: Destination) -> Told {
    let (number, port) = (sent.statement, sent.port);
    write!(out, "the destination `{number}.{port}`")?;
    let Some(target) = it.at(number) else {
        let all = it.statements();
        return write!(
            out,
            " leads nowhere: there is no statement {number}, as the block has {all}"
        );
    };
    let named = Named(usize::from(number), Some(target));
    let lies = Region(target.region());
    let own = it.statement.region();
    let sender = Article(it.statement.kind());
    match (rule, it.statement.kind()) {
        (Rule::DestinationExists, _) => {
            let ports = Count(ports_of(target.kind()), "port");
            write!(out, " names port {port}, and {named}, has {ports}")
        }
        (Rule::BeginAndBackTakeNothing, _) => write!(
            out,
            " is {named}, whose value comes from a call and from no destination"
        ),
        (Rule::EnterReachesItsLoop, _) => {
            write!(out, " lies in {lies}, and not in the loop that is entered")
        }
        (Rule::LastSendsToLeave, Kind::Last) => {
            write!(out, " is {named}, and a `last` sends to `leave` alone")
        }
        (Rule::LastSendsToLeave, _) => write!(
            out,
            " is {named}, to which only a `last` sends, and the sender is {sender}"
        ),
        (Rule::LeaveSendsOut, _) => {
            let holder = it.held_by(own).unwrap_or(0);
            write!(
                out,
                " lies in {lies}; the `leave` stands in loop {own}, which region "
            )?;
            write!(out, "{holder} holds, and sends there alone")
        }
        _ => write!(
            out,
            " lies in {lies}, and the sender, {sender}, in {}",
            Region(own)
        ),
    }
}

/// The cause if the statement itself breaks the rule.
fn tell_itself(out: &mut String, rule: Rule, it: &Breaking<'_>) -> Told {
    let (number, region) = (it.number, it.statement.region());
    let word = Quoted(kind_word(it.statement.kind()));
    match (rule, it.statement.kind()) {
        (Rule::BeginComesFirst, _) => tell_begin(out, it),
        (Rule::RegionExists, _) => write!(
            out,
            "there is no loop {region}: the block has {}",
            it.loops()
        ),
        (Rule::EnterReachesItsLoop, Kind::Enter(entered)) => tell_enter(out, it, *entered),
        (Rule::ApplyNamesBack, Kind::Apply(named, _)) => tell_apply(out, it, *named),
        (Rule::BackIsNamed, _) => {
            write!(out, "no `apply` of the block names statement {number}")
        }
        (Rule::ConstantNamesBlock, Kind::Const(Constant::Proc(name))) => {
            write!(out, "no block is called {}", Quoted(name.as_bytes()))
        }
        (Rule::LoopStatementsInLoops, _) => {
            write!(out, "this {word} stands in region 0, outside of all loops")
        }
        (Rule::EndInOuterRegion, _) => write!(out, "this `end` stands in loop {region}"),
        (Rule::ParamsComeInOrder, Kind::Param(parameter)) => tell_param(out, it, *parameter),
        (Rule::MainTakesOne, Kind::Param(parameter)) => write!(
            out,
            "the argument of the program comes to the `begin` of `main`, and this `param {}` asks for \
                another one",
            parameter.place()
        ),
        _ => {
            let port = it.unfed_port();
            write!(out, "nothing feeds port {port} of the {word}: ")?;
            write!(out, "no destination of the block is `{number}.{port}`")
        }
    }
}

/// Appends the cause for which the statement breaks the rule, without a line's end.
pub fn tell_breach(out: &mut String, rule: Rule, it: &Breaking<'_>) -> Told {
    match it.sent {
        Some(sent) => tell_sent(out, rule, it, sent.destination),
        None => tell_itself(out, rule, it),
    }
}

/// The index of the word of the statement's line under which the mark stands.
pub fn marked_word(rule: Rule, it: &Breaking<'_>) -> usize {
    match (&it.sent, rule, it.statement.kind()) {
        (Some(sent), _, kind) => sent.words.saturating_add(behind_arrow(kind)),
        (_, Rule::RegionExists | Rule::LoopStatementsInLoops | Rule::EndInOuterRegion, _) => 1,
        (_, Rule::ApplyNamesBack | Rule::ConstantNamesBlock, _) => 3,
        (_, Rule::EnterReachesItsLoop, Kind::Enter(number)) if it.held_by(*number).is_none() => 3,
        (_, Rule::EnterReachesItsLoop, _) => 1,
        _ => 2,
    }
}

/// The other line of the block that is involved, if there is one.
pub fn other_place(rule: Rule, it: &Breaking<'_>) -> Option<BlockLine> {
    let number = match (&it.sent, rule, it.statement.kind()) {
        (Some(sent), _, _) => sent.destination.statement,
        (_, Rule::ApplyNamesBack, Kind::Apply(named, _)) => *named,
        (_, Rule::BeginComesFirst, _) if it.number != 1 => 1,
        (_, Rule::ParamsComeInOrder, _) => return Some(BlockLine::Statement(it.ahead()?.0)),
        (_, Rule::EnterReachesItsLoop, Kind::Enter(entered)) => {
            it.held_by(*entered)?;
            return Some(BlockLine::Loop(usize::from(*entered)));
        }
        _ => return None,
    };
    it.at(number)?;
    Some(BlockLine::Statement(usize::from(number)))
}

/// The index of the word of the other line under which the mark stands.
pub fn other_word(rule: Rule, part: BlockLine) -> usize {
    match (rule, part) {
        (_, BlockLine::Loop(_)) => 2,
        (Rule::EnterReachesItsLoop | Rule::LeaveSendsOut | Rule::OwnRegion, _) => 1,
        _ => 2,
    }
}
