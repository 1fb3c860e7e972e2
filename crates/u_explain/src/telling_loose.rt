//! What is told of a program that is not strict.
use crate::arcs::{StatementPort, sources_of};
use crate::scanning::BlockLine;
use crate::spot::Spot;
use crate::telling::Told;
use crate::telling_meeting::tell_met;
use crate::telling_sources::{Why, tell_ports};
use crate::tests_of_loops::{TurnEnd, exits_of, first_amiss, first_tested};
use std::alloc::{AllocError, Global};
use u_check::Checked;
use u_determinate::{Meeting, StrictRule, Strictness};

/// What the rule of strict programs demands.
fn sentence_of_strict_rule(rule: StrictRule) -> &'static str {
    match rule {
        StrictRule::OneSource =>
            "one destination leads to each port, or two, one of an `enter` and one of a `next`",
        StrictRule::OneEnd => "a block has one `end` at most",
        StrictRule::OneApply => "one `apply` names each `back`",
        StrictRule::OneTest =>
            "whether a loop goes on depends on one statement of it, its test: each `next` takes its value \
                from the list for true, and each `last` from that for false, of a `switch` with that control",
    }
}

/// Why the loop of that number has no test, by what its `next`s and `last`s depend on.
fn tell_exits(out: &mut String, alloc: Global, spot: &Spot<'_>, exits: &[TurnEnd]) -> Told {
    if let Some((number, why)) = first_amiss(exits) {
        writeln!(out, "{}, {why}", spot.named(number))?;
        spot.see(out, &[number])?;
        let to = StatementPort(number, 1);
        return spot.show_sources(out, &sources_of(alloc, spot.block, to)?);
    }
    let Some((exit, test)) = first_tested(exits, None) else {
        return out.push_str(
            "the loop has no `next`, no `last` and no statement that can be its test\n",
        );
    };
    write!(out, "{}, depends on {}", spot.named(exit), spot.named(test))?;
    let Some((other, its)) = first_tested(exits, Some(test)) else {
        out.push_str(
            "; a test is a statement of the loop, and no `enter`, `next`, `leave` or `switch`\n",
        )?;
        return spot.see(out, &[exit, test]);
    };
    writeln!(
        out,
        ", and {}, depends on {}",
        spot.named(other),
        spot.named(its)
    )?;
    spot.see(out, &[exit, test, other, its])
}

/// Appends how the rule is broken.
fn tell_broken(out: &mut String, alloc: Global, spot: &Spot<'_>, rule: StrictRule) -> Told {
    match rule {
        StrictRule::OneSource => tell_ports(out, alloc, spot, Why::NotOne),
        StrictRule::OneEnd => tell_met(out, alloc, spot, Meeting::Ends),
        StrictRule::OneApply => tell_met(out, alloc, spot, Meeting::Calls),
        StrictRule::OneTest => {
            let exits = exits_of(alloc, spot.block, spot.number)?;
            spot.show(out, BlockLine::Loop(spot.number), 1)?;
            out.push_str("cause: ")?;
            tell_exits(out, alloc, spot, &exits)
        }
    }
}

/// Why a program is not strict, for people: some lines of text, each with its newline; nothing of a
/// strict one. `bytes` are the text of the program, and `strictness` is what `strictness` says of it.
///
/// It says the rule that is broken, in which block, the line of the statement or of the loop with a
/// mark, and the cause; and it shows the other lines that are involved, four of them at most.
///
/// # Errors
/// `AllocError` if there is no memory.
pub fn explain_loose(
    alloc: Global,
    bytes: &[u8],
    checked: &Checked,
    strictness: Strictness,
) -> Result<Vec<u8>, AllocError> {
    let mut out = String::new(alloc);
    if let Strictness::Loose { rule, block, at } = strictness {
        writeln!(out, "strict rule {rule}: {}", sentence_of_strict_rule(rule))?;
        if let Some(spot) = Spot::new(bytes, checked.program(), block, at) {
            tell_broken(&mut out, alloc, &spot, rule)?;
        }
    }
    Ok(out.into_bytes())
}
