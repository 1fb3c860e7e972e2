//! Reports.
//!
//! A report and an exit status are made of one outcome, so answers and clashes are searched for once.
ghost use Rattle.std.specs.Prelude.{◌≡◌, ◌++◌, List, Contains, OnOk, IfOk, codes, decimal, length, map};
ghost use Rattle.u_sets.specs.Rising.{Rises};
ghost use Rattle.u_rule.specs.EntryOrder.{entry_cmp};
ghost use Rattle.u_rule.specs.declared.entry.Entry.{Entry};
ghost use Rattle.u_history.specs.Clashes.{cell_pairs, port_values};
ghost use Rattle.u_history.specs.Verdicts.{judgement};
ghost use Rattle.u_history.specs.Report.{texts, count_line, state_line, answer_line, cell_line, cell_lines, port_line, port_lines, fault_line, verdict_line, counts_text, outcome_text, report_text, IsReportOf};
ghost use Rattle.u_history.specs.OutcomeParts.{IsOutcomeOf, outcome_text_of, report_text_of};

use crate::clash::{CellClash, PortClash};
use crate::history::History;
use crate::outcome::Outcome;
use crate::verdict::Verdict;
use itoa::Buffer;
use std::alloc::{AllocError, Global};
use u_name::{Cell, Name};
use u_rule::{Fault, Written};
use u_value::Value;

/// Whether a run ended.
#[derive(Clone, Copy, Debug, PartialEq, Eq)]
pub enum Ending {
    /// Nothing is ready to fire.
    Quiet,
    /// The run stopped while something was ready to fire.
    Paused,
}

/// What a report counts.
#[derive(Clone, Copy, Debug, PartialEq, Eq)]
pub struct Counts {
    /// How many firings were applied.
    pub firings: usize,
    /// How many firings are parked.
    pub parked: usize,
    /// How many entries the history has.
    pub entries: usize,
}

/// Puts the text at the end.
fn put(out: &mut Vec<u8>, text: &[u8]) -> Result<(), AllocError>
    ensures { OnOk result (out.new.items ≡ out.old.items ++ text.now) }
{
    out.extend_from_slice(text)
}

/// Puts the number at the end.
fn put_number(out: &mut Vec<u8>, number: usize) -> Result<(), AllocError>
    ensures { OnOk result (out.new.items ≡ out.old.items ++ decimal number) }
{
    let mut buffer = Buffer::new();
    out.extend_from_slice(buffer.format(number).as_bytes())
}

/// Puts a word, a number and a newline at the end.
#[tactic(auto, unfolding(crate::specs::Report::count_line))]
fn put_count(out: &mut Vec<u8>, word: &[u8], number: usize) -> Result<(), AllocError>
    ensures { OnOk result (out.new.items ≡ out.old.items ++ count_line word.now number) }
{
    put(out, word)?;
    put_number(out, number)?;
    put(out, b"\n")
}

#[tactic(auto, unfolding(crate::specs::Report::state_line))]
fn put_state(out: &mut Vec<u8>, state: Ending) -> Result<(), AllocError>
    ensures { OnOk result (out.new.items ≡ out.old.items ++ state_line state) }
{
    match state {
        Ending::Quiet => put(out, b"state quiet\n"),
        Ending::Paused => put(out, b"state paused\n"),
    }
}

#[tactic(auto, unfolding(crate::specs::Report::counts_text))]
fn put_counts(out: &mut Vec<u8>, counts: Counts) -> Result<(), AllocError>
    ensures { OnOk result
        (out.new.items
        ≡ out.old.items ++ counts_text counts.firings counts.parked counts.entries) }
{
    put_count(out, b"firings ", counts.firings)?;
    put_count(out, b"parked ", counts.parked)?;
    put_count(out, b"entries ", counts.entries)
}

#[tactic(auto, unfolding(crate::specs::Report::answer_line))]
fn put_answer(out: &mut Vec<u8>, answer: &Value) -> Result<(), AllocError>
    ensures { OnOk result (out.new.items ≡ out.old.items ++ answer_line answer.now) }
{
    put(out, b"answer ")?;
    answer.write_text(out)?;
    put(out, b"\n")
}

#[tactic(auto, unfolding(crate::specs::Report::cell_line))]
fn put_pair(out: &mut Vec<u8>, cell: &Cell, pair: &Written) -> Result<(), AllocError>
    ensures { OnOk result (out.new.items ≡ out.old.items ++ cell_line cell.now pair.now) }
{
    put(out, b"cell ")?;
    cell.write_text(out)?;
    put(out, b" ")?;
    pair.writer.write_text(out)?;
    put(out, b" ")?;
    pair.value.write_text(out)?;
    put(out, b"\n")
}

fn put_pairs(out: &mut Vec<u8>, cell: &Cell, pairs: &[Written]) -> Result<(), AllocError>
    ensures { OnOk result (out.new.items ≡ out.old.items ++ texts (cell_line cell.now) pairs.now) }
{
    for pair in pairs {
        put_pair(out, cell, pair)?;
    }
    Ok(())
}

#[tactic(auto, unfolding(crate::specs::Report::port_line))]
fn put_value(out: &mut Vec<u8>, activity: &Name, port: u8, value: &Value) -> Result<(), AllocError>
    ensures { OnOk result (out.new.items ≡ out.old.items ++ port_line activity.now port value.now) }
{
    put(out, b"port ")?;
    activity.write_text(out)?;
    put(out, b" ")?;
    put_number(out, usize::from(port))?;
    put(out, b" ")?;
    value.write_text(out)?;
    put(out, b"\n")
}

fn put_values(
    out: &mut Vec<u8>,
    activity: &Name,
    port: u8,
    values: &[Value],
) -> Result<(), AllocError>
    ensures { OnOk result
        (out.new.items ≡ out.old.items ++ texts (port_line activity.now port) values.now) }
{
    for value in values {
        put_value(out, activity, port, value)?;
    }
    Ok(())
}

#[tactic(auto, unfolding(crate::specs::Report::fault_line))]
fn put_fault(out: &mut Vec<u8>, fault: &Fault) -> Result<(), AllocError>
    ensures { OnOk result (out.new.items ≡ out.old.items ++ fault_line fault.now) }
{
    put(out, b"fault ")?;
    fault.activity.write_text(out)?;
    put(out, b" ")?;
    put(out, fault.kind.text().as_bytes())?;
    put(out, b"\n")
}

fn put_answers(out: &mut Vec<u8>, answers: &[Value]) -> Result<(), AllocError>
    ensures { OnOk result (out.new.items ≡ out.old.items ++ texts answer_line answers.now) }
{
    for answer in answers {
        put_answer(out, answer)?;
    }
    Ok(())
}

#[tactic(auto, unfolding(crate::specs::Report::cell_lines))]
fn put_cell(out: &mut Vec<u8>, clash: &CellClash) -> Result<(), AllocError>
    ensures { OnOk result (out.new.items ≡ out.old.items ++ cell_lines (cell_pairs clash.now)) }
{
    put_pairs(out, &clash.cell, clash.pairs.as_slice())
}

fn put_cells(out: &mut Vec<u8>, clashes: &[CellClash]) -> Result<(), AllocError>
    ensures { OnOk result
        (out.new.items ≡ out.old.items ++ texts cell_lines (map cell_pairs clashes.now)) }
{
    for clash in clashes {
        put_cell(out, clash)?;
    }
    Ok(())
}

#[tactic(auto, unfolding(crate::specs::Report::port_lines))]
fn put_port(out: &mut Vec<u8>, clash: &PortClash) -> Result<(), AllocError>
    ensures { OnOk result (out.new.items ≡ out.old.items ++ port_lines (port_values clash.now)) }
{
    put_values(out, &clash.activity, clash.port, clash.values.as_slice())
}

fn put_ports(out: &mut Vec<u8>, clashes: &[PortClash]) -> Result<(), AllocError>
    ensures { OnOk result
        (out.new.items ≡ out.old.items ++ texts port_lines (map port_values clashes.now)) }
{
    for clash in clashes {
        put_port(out, clash)?;
    }
    Ok(())
}

fn put_faults(out: &mut Vec<u8>, faults: &[Fault]) -> Result<(), AllocError>
    ensures { OnOk result (out.new.items ≡ out.old.items ++ texts fault_line faults.now) }
{
    for fault in faults {
        put_fault(out, fault)?;
    }
    Ok(())
}

#[tactic(auto)]
fn put_answer_verdict(out: &mut Vec<u8>, answer: &Value) -> Result<(), AllocError>
    ensures { OnOk result
        (out.new.items ≡ out.old.items ++ (codes "verdict " ++ answer_line answer.now)) }
{
    put(out, b"verdict ")?;
    put_answer(out, answer)
}

impl Verdict<'_> {
    /// Appends the verdict's line with its newline: `verdict clashed`, `verdict faulted`,
    /// `verdict answer VALUE` or `verdict none`.
    ///
    /// # Errors
    /// `AllocError` if there is no memory. Then a part of the line may stand behind what `out` had.
    #[tactic(auto, unfolding(crate::specs::Report::verdict_line))]
    pub fn write_text(self, out: &mut Vec<u8>) -> Result<(), AllocError>
        ensures { OnOk result
            (out.new.items ≡ out.old.items ++ verdict_line (judgement self.entry)) }
    {
        match self {
            Verdict::Clashed => put(out, b"verdict clashed\n"),
            Verdict::Faulted => put(out, b"verdict faulted\n"),
            Verdict::Answer(answer) => put_answer_verdict(out, answer),
            Verdict::NoAnswer => put(out, b"verdict none\n"),
        }
    }
}

#[tactic(auto, unfolding(crate::specs::Report::outcome_text))]
fn put_outcome(out: &mut Vec<u8>, outcome: &Outcome) -> Result<(), AllocError>
    ensures { OnOk result (out.new.items ≡ out.old.items ++ outcome_text_of outcome.now) }
{
    put_answers(out, outcome.answers.as_slice())?;
    put_cells(out, outcome.cell_clashes.as_slice())?;
    put_ports(out, outcome.port_clashes.as_slice())?;
    put_faults(out, outcome.faults.as_slice())?;
    outcome.verdict().write_text(out)
}

#[tactic(auto, unfolding(crate::specs::Report::report_text))]
fn put_report(
    out: &mut Vec<u8>,
    state: Ending,
    counts: Counts,
    outcome: &Outcome,
) -> Result<(), AllocError>
    ensures { OnOk result
        (out.new.items ≡ out.old.items ++ report_text_of state counts outcome.now) }
{
    put_state(out, state)?;
    put_counts(out, counts)?;
    put_outcome(out, outcome)
}

/// The report of a history with that outcome and so many entries, as `report_text` has it. It is for a
/// caller that needs the outcome besides, and has made it.
///
/// # Errors
/// `AllocError` where there is no memory.
pub fn report_of_outcome(
    alloc: Global,
    state: Ending,
    counts: Counts,
    outcome: &Outcome,
) -> Result<Vec<u8>, AllocError>
    ensures text { IfOk result (λ v. v.items ≡ report_text_of state counts outcome.now) }
    ensures of { (es : List Entry) → Rises entry_cmp es → counts.entries ≡ length es
        → IsOutcomeOf (Contains es) outcome.now
        → IfOk result
        (λ v. IsReportOf (Contains es) state counts.firings counts.parked v.items) }
{
    let mut out = Vec::new(alloc);
    put_report(&mut out, state, counts, outcome)?;
    Ok(out)
}

/// The report of a history, after so many firings were applied and so many are parked: the state; how
/// many firings, parked firings and entries there are; all answers; all that clashes; all faults; the
/// verdict. Each line ends with a newline, and each kind of line is in order.
///
/// Promise report: the bytes are exactly the report of the history's entries, with the state and the counts
/// that are passed.
///
/// # Errors
/// `AllocError` where there is no memory.
pub fn report_text(
    alloc: Global,
    state: Ending,
    firings: usize,
    parked: usize,
    history: &History,
) -> Result<Vec<u8>, AllocError>
    ensures { IfOk result
        (λ v. IsReportOf (Contains history.now) state firings parked v.items) }
{
    let outcome = history.outcome()?;
    let counts = Counts {
        firings,
        parked,
        entries: history.len(),
    };
    report_of_outcome(alloc, state, counts, &outcome)
}
