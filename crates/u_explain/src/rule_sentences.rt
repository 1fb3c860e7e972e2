//! The rules of the checker, each in one sentence.
use u_check::Rule;
use u_program::Version;

/// What the rule demands of programs of the version, in one sentence without a full stop.
pub fn sentence_of_rule(version: Version, rule: Rule) -> &'static str {
    match (version, rule) {
        (Version::Two, Rule::BeginAndBackTakeNothing) =>
            "no destination is a `begin`, a `param` or a `back`: their values come from calls",
        (Version::Two, Rule::PortsAreFed) =>
            "to each port of each statement some destination of its block leads, but for `begin`, \
                `param` and `back`",
        _ => sentence_of_both(rule),
    }
}

/// What the rule demands of programs of either version; of the two rules that treat a `param` as a
/// `begin`, what it demands if there is none.
fn sentence_of_both(rule: Rule) -> &'static str {
    match rule {
        Rule::BlockNamesDiffer => "the names of the blocks differ",
        Rule::MainExists => "one block is called `main`: there the program begins",
        Rule::BeginComesFirst =>
            "statement 1 of a block is `begin` in region 0, and no other statement is `begin`",
        Rule::RegionExists => "the region of a statement is 0 or the number of a loop of its block",
        Rule::DestinationExists => "a destination names a statement of its block and a port of it",
        Rule::BeginAndBackTakeNothing =>
            "no destination is a `begin` or a `back`: their values come from calls",
        Rule::EnterReachesItsLoop =>
            "an `enter` stands in the region that holds its loop, and sends into its loop alone",
        Rule::ApplyNamesBack => "an `apply` names a `back` of its block in its own region",
        Rule::BackIsNamed => "a `back` is named by some `apply` of its block",
        Rule::ConstantNamesBlock => "the `@NAME` of a `const` is the name of a block",
        Rule::LoopStatementsInLoops => "a `next`, a `last` and a `leave` lie in a loop",
        Rule::LastSendsToLeave =>
            "a `last` sends to `leave` alone, and nothing else sends to a `leave`",
        Rule::LeaveSendsOut => "a `leave` sends only into the region that holds its loop",
        Rule::EndInOuterRegion => "an `end` lies in region 0",
        Rule::OwnRegion =>
            "a statement sends into its own region; only `enter` and `leave` send into another",
        Rule::PortsAreFed =>
            "to each port of each statement some destination of its block leads, but for `begin` \
                and `back`",
        Rule::ParamsComeInOrder =>
            "a `param K` is statement K of its block, in region 0, and each statement between the \
                `begin` and it is a `param`",
        Rule::MainTakesOne => "`main` has no `param`: a program takes one argument",
    }
}
