//! What is told of a program that breaks a rule.
use crate::breaking::wrong_destination;
use crate::rule_causes::{Breaking, marked_word, other_place, other_word, tell_breach};
use crate::rule_sentences::sentence_of_rule;
use crate::scanning::BlockLine;
use crate::spot::Spot;
use crate::telling::{Quoted, Told};
use u_check::{Breach, Rule};
use u_program::{Block, Program};

/// How many names of blocks are listed.
const LISTED: usize = 8;

/// A program without a block of the name `main`.
fn tell_no_main(out: &mut String, blocks: &[Block]) -> Told {
    out.push_str("cause: no block is called `main`; the names of the blocks are")?;
    for block in blocks.iter().take(LISTED) {
        write!(out, " {}", Quoted(block.name().as_bytes()))?;
    }
    out.push_str(if blocks.len() > LISTED {
        " ...\n"
    } else {
        "\n"
    })
}

/// A block whose name an earlier one has.
fn tell_same_name(out: &mut String, bytes: &[u8], program: &Program, it: &Spot<'_>) -> Told {
    it.show_line(out, BlockLine::Block, 1)?;
    let name = it.block.name();
    writeln!(
        out,
        "cause: an earlier block is called {} already\nsee:",
        Quoted(name.as_bytes())
    )?;
    let first = program
        .blocks()
        .iter()
        .position(|block| block.name() == name);
    let number = first.unwrap_or(0).saturating_add(1);
    match Spot::new(bytes, program, number, 0) {
        Some(first) => first.show_line(out, BlockLine::Block, 1),
        None => Ok(()),
    }
}

/// A statement that breaks the rule.
fn tell_statement(out: &mut String, rule: Rule, spot: &Spot<'_>, it: &Breaking<'_>) -> Told {
    spot.show(out, BlockLine::Statement(it.number), marked_word(rule, it))?;
    out.push_str("cause: ")?;
    tell_breach(out, rule, it)?;
    out.push_str("\n")?;
    match other_place(rule, it) {
        None => Ok(()),
        Some(other) => {
            out.push_str("see:\n")?;
            spot.show_line(out, other, other_word(rule, other))
        }
    }
}

/// Appends what is told of a program that breaks a rule, whose text is `bytes`.
pub fn tell_rule(out: &mut String, bytes: &[u8], program: &Program, breach: &Breach) -> Told {
    let rule = breach.rule;
    writeln!(
        out,
        "rule {rule}: {}",
        sentence_of_rule(program.version(), rule)
    )?;
    let Some(spot) = Spot::new(bytes, program, breach.block, breach.statement) else {
        return tell_no_main(out, program.blocks());
    };
    let block = spot.block;
    let Some(statement) = spot.statement() else {
        return tell_same_name(out, bytes, program, &spot);
    };
    let it = Breaking {
        block,
        number: spot.number,
        statement,
        sent: wrong_destination(rule, block, statement),
    };
    tell_statement(out, rule, &spot, &it)
}
