//! What a set of entries says.
//!
//! An outcome puts in order what it lists, and counts the rest. It has each clashed cell once with all its
//! pairs of a writer and a value, and each clashed port once with all its values.
ghost use Rattle.std.specs.Prelude.{◌≡◌, ◌↔◌, ◌⊎◌, OnOk, IfOk, Contains};
ghost use Rattle.u_sets.specs.Rising.{Rises, IsListOf};
ghost use Rattle.u_rule.specs.EntryOrder.{entry_cmp};
ghost use Rattle.u_value.specs.declared.value.Value.{Value};
ghost use Rattle.u_rule.specs.declared.parts.Fault.{Fault};
ghost use Rattle.u_rule.specs.declared.entry.Entry.TheVariants as kinds;
ghost use Rattle.u_history.specs.Orders.{value_order, fault_order};
ghost use Rattle.u_history.specs.Outcomes.{lent};
ghost use Rattle.u_history.specs.OutcomeParts.{IsOutcomeOf, judged_of};
ghost use Rattle.u_history.specs.Verdicts.{judgement};
ghost use Rattle.u_sets.specs.Members.{Gains};

use crate::clash::{CellClash, PortClash, cell_clashes, port_clashes};
use crate::listed::Listed;
use crate::place::entry_at;
use crate::verdict::Verdict;
use std::alloc::{AllocError, Global};
use u_rule::{Entry, Fault};
use u_sets::place_in;
use u_value::Value;

/// What a set of entries says. Each list is in order.
#[derive(Drop)]
pub struct Outcome {
    /// All answers.
    pub answers: Listed<Value>,
    /// The cells that have two pairs of a writer and a value, or more, each with all its pairs, by cell.
    pub cell_clashes: Listed<CellClash>,
    /// The ports that have two values or more, each with all its values, by activity and port.
    pub port_clashes: Listed<PortClash>,
    /// All faults.
    pub faults: Listed<Fault>,
}

/// Adds the entry, if it is an answer.
fn add_answer(list: &mut Vec<Value>, entry: &Entry) -> Result<(), AllocError>
    requires { Rises value_order list.old.items }
    ensures rises { Rises value_order list.new.items }
    ensures ok { OnOk result
        (Gains list.old.items (λ (x : Value). entry.now ≡ kinds.Answer x) list.new.items) }
{
    if let Entry::Answer(item) = entry {
        place_in(list, item.copy()?)?;
    }
    Ok(())
}

/// Adds the entry, if it is a fault.
fn add_fault(list: &mut Vec<Fault>, entry: &Entry) -> Result<(), AllocError>
    requires { Rises fault_order list.old.items }
    ensures rises { Rises fault_order list.new.items }
    ensures ok { OnOk result
        (Gains list.old.items (λ (x : Fault). entry.now ≡ kinds.Fault x) list.new.items) }
{
    if let Entry::Fault(item) = entry {
        place_in(list, item.copy()?)?;
    }
    Ok(())
}

/// The answers, in order.
fn answers(alloc: Global, entries: &[&Entry]) -> Result<Vec<Value>, AllocError>
    ensures { IfOk result
        (λ v. IsListOf value_order (λ x. Contains (lent entries.now) (kinds.Answer x)) v.items) }
{
    let mut list = Vec::new(alloc);
    for index in 0..entries.len() {
        add_answer(&mut list, entry_at(entries, index))?;
    }
    Ok(list)
}

/// The faults, in order.
fn faults(alloc: Global, entries: &[&Entry]) -> Result<Vec<Fault>, AllocError>
    ensures { IfOk result
        (λ v. IsListOf fault_order (λ x. Contains (lent entries.now) (kinds.Fault x)) v.items) }
{
    let mut list = Vec::new(alloc);
    for index in 0..entries.len() {
        add_fault(&mut list, entry_at(entries, index))?;
    }
    Ok(list)
}

impl Outcome {
    /// What the entries say.
    pub(crate) fn of(alloc: Global, entries: &[&Entry]) -> Result<Outcome, AllocError>
        requires { Rises entry_cmp (lent entries.now) }
        ensures { IfOk result (IsOutcomeOf (Contains (lent entries.now))) }
    {
        Ok(Outcome {
            answers: Listed::new(answers(alloc, entries)?),
            cell_clashes: Listed::new(cell_clashes(alloc, entries)?),
            port_clashes: Listed::new(port_clashes(alloc, entries)?),
            faults: Listed::new(faults(alloc, entries)?),
        })
    }

    /// The verdict.
    ///
    /// Promise verdict: it is clashed if something clashes or there are two answers, else faulted if there is
    /// a fault, else the answer, else none.
    pub fn verdict(&self) -> Verdict<'_>
        ensures { judgement result ≡ judged_of self.now }
    {
        if !self.cell_clashes.is_empty()
            || !self.port_clashes.is_empty()
            || self.answers.len() > 1
        {
            return Verdict::Clashed;
        }
        if !self.faults.is_empty() {
            return Verdict::Faulted;
        }
        match self.answers.first() {
            Some(answer) => Verdict::Answer(answer),
            None => Verdict::NoAnswer,
        }
    }
}
