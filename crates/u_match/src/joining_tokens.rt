//! The firings of a job that a token makes with what it meets. What it meets is in the history, so each
//! of them has all that it needs; which of them are firings of the job is tested as they are made. They
//! are gathered in no order, and put in order once all are there.
//!
//! The loops over values and over writes have one form. What differs is in their clauses.
ghost use Rattle.std.specs.Prelude.{◌≡◌, ◌↔◌, ◌⊎◌, ◌+◌, [], ◌∷◌, length, OnOk, IfOk, IfErr, IfSome, Contains};
ghost use Rattle.u_name.specs.Context.{IsBetween};
ghost use Rattle.u_rule.specs.declared.entry.Entry.TheVariants.{Token as token_entry};
ghost use Rattle.u_rule.specs.EntryOrder.{firing_cmp};
ghost use Rattle.u_rule.specs.Rule.{is_own_of};
ghost use Rattle.u_rule.specs.Replies.{told_to};
ghost use Rattle.u_sets.specs.Rising.{Rises};
ghost use Rattle.u_sets.specs.Members.{SomeOf, AreThose, Gains, HasOr};
ghost use Rattle.u_sets.specs.Columns.{MayNumber};
ghost use Rattle.u_match.specs.Finite.{HasSome};
ghost use Rattle.u_match.specs.Joins.{IsKnown, IsSame, IsSomeSame, IsKept, IsOne, IsReading, ReadsCell, JoinsTwo, JoinsSome, JoinsAll};
ghost use Rattle.u_match.specs.Keys.{lent_lists};
ghost use Rattle.u_match.specs.Ports.{ports_at};
ghost use Rattle.u_rule.specs.Parts.{most_ports};
ghost use Rattle.u_match.specs.Waking.{IsWokenBy, WakesSome};

use crate::halt::Halt;
use crate::making_firings::{of_one, of_read, of_two, of_values};
use crate::meeting::{met_at, met_at_each};
use crate::ordering::put_in_order;
use std::alloc::{AllocError, Global};
use u_check::{Job, ports_of};
use u_history::NumberedHistory;
use u_program::Statement;
use u_rule::{Firing, NameRef, TokenRef, Written, cell_at, is_own, is_own_of_statement, told_to};
use u_value::Value;

/// How firings of an activity are made.
#[derive(Clone, Copy)]
pub(crate) struct Making {
    /// How many there may be at most.
    pub(crate) most: usize,
    /// Whether it is known that the activity may execute the statement that it names. Then the statement is
    /// not looked for again, and no firing's context is gone through.
    pub(crate) is_executable: bool,
}

/// What the firings of one activity are made over: the job, the history, and the activity with its number
/// and the statement that it executes; and how they are made.
#[derive(Clone, Copy)]
pub(crate) struct Joining<'a> {
    pub(crate) alloc: Global,
    pub(crate) job: &'a Job,
    pub(crate) history: &'a NumberedHistory,
    pub(crate) activity: &'a NameRef<'a>,
    pub(crate) statement: &'a Statement,
    pub(crate) number: usize,
    pub(crate) making: Making,
}

impl Joining<'_> {
    /// How many ports the activity has.
    #[tactic(auto, using(crate::proofs::Made::ports_of_stated))]
    fn ports(&self) -> usize
        requires { IsKnown self.now.making.is_executable self.now.job.now self.now.activity.now
            self.now.statement.now }
        ensures { result ≡ ports_at self.now.job.now self.now.activity.now }
    {
        ports_of(self.statement.kind())
    }

    /// Whether the firing, one of the activity, is one of the job.
    fn is_one(&self, firing: &Firing) -> bool
        requires known { IsKnown self.now.making.is_executable self.now.job.now
            self.now.activity.now self.now.statement.now }
        requires own { firing.now.activity ≡ self.now.activity.now }
        ensures { result ≡ is_own_of self.now.job.now firing.now }
    {
        if self.making.is_executable {
            return is_own_of_statement(self.job, self.statement, firing);
        }
        is_own(self.job, firing)
    }

    /// Adds the firing, if it is one of the job.
    fn keep(&self, found: &mut Vec<Firing>, firing: Firing) -> Result<(), Halt>
        requires known { IsKnown self.now.making.is_executable self.now.job.now
            self.now.activity.now self.now.statement.now }
        requires own { firing.activity ≡ self.now.activity.now }
        ensures ok { OnOk result
            (Gains found.old.items (IsSame self.now.job.now firing) found.new.items) }
        ensures many { IfErr result
            (λ e. e ≡ Halt.TooMany → HasSome
            (IsSame self.now.job.now firing)) }
    {
        if !self.is_one(&firing) {
            return Ok(());
        }
        if found.len() >= self.making.most {
            return Err(Halt::TooMany);
        }
        found.push(firing)?;
        Ok(())
    }

    /// The reply to the firing that the table of the job has.
    fn told(&self, firing: &Firing) -> Result<Option<Firing>, Halt>
        requires own { firing.now.activity ≡ self.now.activity.now }
        ensures told { IfOk result (λ o. o
            ≡ told_to self.now.job.now.table self.now.statement.now.kind firing.now) }
        ensures own { IfOk result (λ o. IfSome o (λ f. f.activity ≡ self.now.activity.now)) }
        ensures many { IfErr result (λ e. e ≡ Halt.TooMany → ⊥) }
    {
        let reply = told_to(self.alloc, self.job, self.statement, firing)?;
        Ok(reply)
    }

    /// Adds the reply to a firing, if there is one.
    fn keep_told(&self, found: &mut Vec<Firing>, told: Option<Firing>) -> Result<(), Halt>
        requires known { IsKnown self.now.making.is_executable self.now.job.now
            self.now.activity.now self.now.statement.now }
        requires own { IfSome told (λ f. f.activity ≡ self.now.activity.now) }
        ensures ok { OnOk result
            (Gains found.old.items (IsSomeSame self.now.job.now told) found.new.items) }
        ensures many { IfErr result
            (λ e. e ≡ Halt.TooMany → HasSome
            (IsSomeSame self.now.job.now told)) }
    {
        match told {
            None => Ok(()),
            Some(reply) => self.keep(found, reply),
        }
    }

    /// Adds the firing, if it is one of the job, and the reply to it that the table of the job has.
    fn add(&self, found: &mut Vec<Firing>, firing: Firing) -> Result<(), Halt>
        requires known { IsKnown self.now.making.is_executable self.now.job.now
            self.now.activity.now self.now.statement.now }
        requires own { firing.activity ≡ self.now.activity.now }
        ensures ok { OnOk result
            (Gains found.old.items (IsKept self.now.job.now firing) found.new.items) }
        ensures many { IfErr result
            (λ e. e ≡ Halt.TooMany → HasSome
            (IsKept self.now.job.now firing)) }
    {
        let told = self.told(&firing)?;
        self.keep(found, firing)?;
        self.keep_told(found, told)?;
        Ok(())
    }

    /// Adds the firings of one value of the list.
    fn add_ones(&self, firsts: &[Value], found: &mut Vec<Firing>) -> Result<(), Halt>
        requires known { IsKnown self.now.making.is_executable self.now.job.now
            self.now.activity.now self.now.statement.now }
        ensures ok { OnOk result
            (Gains found.old.items
            (SomeOf firsts.now (IsOne self.now.job.now self.now.activity.now)) found.new.items) }
        ensures many { IfErr result
            (λ e. e ≡ Halt.TooMany → HasSome
            (SomeOf firsts.now (IsOne self.now.job.now self.now.activity.now))) }
    {
        for first in firsts {
            let single = of_one(self.alloc, self.activity, first)?;
            self.add(found, single)?;
        }
        Ok(())
    }

    /// Adds the firings of two values that read one of the writes.
    #[inline(never)]
    fn add_readings(
        &self,
        first: &Value,
        second: &Value,
        writes: &[Written],
        found: &mut Vec<Firing>,
    ) -> Result<(), Halt>
        requires known { IsKnown self.now.making.is_executable self.now.job.now
            self.now.activity.now self.now.statement.now }
        ensures ok { OnOk result
            (Gains found.old.items
            (SomeOf writes.now
            (IsReading self.now.job.now self.now.activity.now first.now second.now))
            found.new.items) }
        ensures many { IfErr result
            (λ e. e ≡ Halt.TooMany → HasSome
            (SomeOf writes.now
            (IsReading self.now.job.now self.now.activity.now first.now second.now))) }
    {
        for write in writes {
            let reading = of_read(self.alloc, self.activity, first, second, write)?;
            self.add(found, reading)?;
        }
        Ok(())
    }

    /// Adds the firings of two values that read a write of the cell that these name.
    fn add_reads(&self, first: &Value, second: &Value, found: &mut Vec<Firing>) -> Result<(), Halt>
        requires known { IsKnown self.now.making.is_executable self.now.job.now
            self.now.activity.now self.now.statement.now }
        ensures ok { OnOk result
            (Gains found.old.items
            (ReadsCell self.now.job.now (Contains self.now.history.now.entries)
            self.now.activity.now first.now second.now)
            found.new.items) }
        ensures many { IfErr result
            (λ e. e ≡ Halt.TooMany → HasSome
            (ReadsCell self.now.job.now (Contains self.now.history.now.entries)
            self.now.activity.now first.now second.now)) }
    {
        let named = cell_at(first, second)?;
        let cell = match named {
            None => return Ok(()),
            Some(cell) => cell,
        };
        let writes = self.history.writes_to(&cell);
        self.add_readings(first, second, writes, found)?;
        Ok(())
    }

    /// Adds the firings that have these two values, and besides nothing or a write.
    fn add_two(&self, first: &Value, second: &Value, found: &mut Vec<Firing>) -> Result<(), Halt>
        requires known { IsKnown self.now.making.is_executable self.now.job.now
            self.now.activity.now self.now.statement.now }
        ensures ok { OnOk result
            (Gains found.old.items
            (JoinsTwo self.now.job.now (Contains self.now.history.now.entries)
            self.now.activity.now first.now second.now)
            found.new.items) }
        ensures many { IfErr result
            (λ e. e ≡ Halt.TooMany → HasSome
            (JoinsTwo self.now.job.now (Contains self.now.history.now.entries)
            self.now.activity.now first.now second.now)) }
    {
        let joined = of_two(self.alloc, self.activity, first, second)?;
        self.add(found, joined)?;
        self.add_reads(first, second, found)?;
        Ok(())
    }

    /// Adds the firings that have this first value and a second one of the list.
    fn add_seconds(
        &self,
        first: &Value,
        seconds: &[Value],
        found: &mut Vec<Firing>,
    ) -> Result<(), Halt>
        requires known { IsKnown self.now.making.is_executable self.now.job.now
            self.now.activity.now self.now.statement.now }
        ensures ok { OnOk result
            (Gains found.old.items
            (JoinsSome self.now.job.now (Contains self.now.history.now.entries)
            self.now.activity.now seconds.now first.now)
            found.new.items) }
        ensures many { IfErr result
            (λ e. e ≡ Halt.TooMany → HasSome
            (JoinsSome self.now.job.now (Contains self.now.history.now.entries)
            self.now.activity.now seconds.now first.now)) }
    {
        for second in seconds {
            self.add_two(first, second, found)?;
        }
        Ok(())
    }

    /// Adds the firings that have a first and a second value of the lists.
    fn add_twos(
        &self,
        firsts: &[Value],
        seconds: &[Value],
        found: &mut Vec<Firing>,
    ) -> Result<(), Halt>
        requires known { IsKnown self.now.making.is_executable self.now.job.now
            self.now.activity.now self.now.statement.now }
        ensures ok { OnOk result
            (Gains found.old.items
            (SomeOf firsts.now
            (JoinsSome self.now.job.now (Contains self.now.history.now.entries)
            self.now.activity.now seconds.now))
            found.new.items) }
        ensures many { IfErr result
            (λ e. e ≡ Halt.TooMany → HasSome
            (SomeOf firsts.now
            (JoinsSome self.now.job.now (Contains self.now.history.now.entries)
            self.now.activity.now seconds.now))) }
    {
        for first in firsts {
            self.add_seconds(first, seconds, found)?;
        }
        Ok(())
    }

    /// Adds the firings that have the chosen values and behind them one of each of the lists. What is
    /// chosen stays.
    #[cycle(choosing)]
    #[inline(never)]
    fn add_all(
        &self,
        lists: &[&[Value]],
        chosen: &mut Vec<Value>,
        found: &mut Vec<Firing>,
    ) -> Result<(), Halt>
        requires known { IsKnown self.now.making.is_executable self.now.job.now
            self.now.activity.now self.now.statement.now }
        requires ports { IsBetween 1 (length chosen.old.items + length lists.now) most_ports }
        ensures ok { OnOk result
            (Gains found.old.items
            (JoinsAll self.now.job.now self.now.activity.now chosen.old.items
            (lent_lists lists.now))
            found.new.items) }
        ensures same { OnOk result (chosen.new.items ≡ chosen.old.items) }
        ensures many { IfErr result
            (λ e. e ≡ Halt.TooMany → HasSome
            (JoinsAll self.now.job.now self.now.activity.now chosen.old.items
            (lent_lists lists.now))) }
    {
        let [values, others @ ..] = lists else {
            let joined = of_values(self.alloc, self.activity, chosen)?;
            self.add(found, joined)?;
            return Ok(());
        };
        self.add_each(values, others, chosen, found)?;
        Ok(())
    }

    /// Adds the firings that have the chosen values and behind them one of these values, and one of each
    /// of the other lists. What is chosen stays.
    #[cycle(choosing)]
    fn add_each(
        &self,
        values: &[Value],
        others: &[&[Value]],
        chosen: &mut Vec<Value>,
        found: &mut Vec<Firing>,
    ) -> Result<(), Halt>
        requires known { IsKnown self.now.making.is_executable self.now.job.now
            self.now.activity.now self.now.statement.now }
        requires ports { IsBetween 1 (length chosen.old.items + 1 + length others.now) most_ports }
        ensures ok { OnOk result
            (Gains found.old.items
            (JoinsAll self.now.job.now self.now.activity.now chosen.old.items
            (values.now ∷ lent_lists others.now))
            found.new.items) }
        ensures same { OnOk result (chosen.new.items ≡ chosen.old.items) }
        ensures many { IfErr result
            (λ e. e ≡ Halt.TooMany → HasSome
            (JoinsAll self.now.job.now self.now.activity.now chosen.old.items
            (values.now ∷ lent_lists others.now))) }
    {
        for value in values {
            let copy = value.copy()?;
            chosen.push(copy)?;
            self.add_all(others, chosen, found)?;
            chosen.pop();
        }
        Ok(())
    }

    /// The firings of the job that the token wakes where it enters the history, in no order. They go into
    /// the empty list. What lies at a port is asked of the history only where the activity has that port.
    fn gathered(&self, token: &TokenRef<'_>, found: &mut Vec<Firing>) -> Result<(), Halt>
        requires known { IsKnown self.now.making.is_executable self.now.job.now
            self.now.activity.now self.now.statement.now }
        requires activity { self.now.activity.now ≡ token.now.activity }
        requires number { MayNumber self.now.history.now.names token.now.activity self.now.number }
        requires empty { found.old.items ≡ [] }
        ensures exact { OnOk result
            (AreThose
            (IsWokenBy self.now.job.now (token_entry token.now)
            (HasOr self.now.history.now.entries (token_entry token.now)))
            found.new.items) }
        ensures many { IfErr result
            (λ e. e ≡ Halt.TooMany → WakesSome self.now.job.now (token_entry token.now)
            (HasOr self.now.history.now.entries (token_entry token.now))) }
    {
        let ports = self.ports();
        if ports < usize::from(token.port()) {
            return Ok(());
        }
        if ports > 2 {
            let lists = met_at_each(self.alloc, self.history, self.number, token, ports)?;
            let mut chosen = Vec::new(self.alloc);
            self.add_all(&lists, &mut chosen, found)?;
            return Ok(());
        }
        let firsts = met_at(self.history, self.number, token, 1);
        if ports == 1 {
            self.add_ones(firsts, found)?;
            return Ok(());
        }
        let seconds = met_at(self.history, self.number, token, 2);
        self.add_twos(firsts, seconds, found)?;
        Ok(())
    }

    /// The firings of the job that the token, one of the activity, wakes where it enters the history. They
    /// stand in order, each once, in the list, which was empty.
    ///
    /// # Errors
    /// `TooMany` where there are more than `most`, and it gives up on the first that is one too many.
    /// `NoMemory` where there is no memory. The list may have some of the firings then.
    pub(crate) fn woken_by(&self, token: &TokenRef<'_>, found: &mut Vec<Firing>) -> Result<(), Halt>
        requires known { IsKnown self.now.making.is_executable self.now.job.now
            self.now.activity.now self.now.statement.now }
        requires activity { self.now.activity.now ≡ token.now.activity }
        requires number { MayNumber self.now.history.now.names token.now.activity self.now.number }
        requires empty { found.old.items ≡ [] }
        ensures exact { OnOk result
            (AreThose
            (IsWokenBy self.now.job.now (token_entry token.now)
            (HasOr self.now.history.now.entries (token_entry token.now)))
            found.new.items) }
        ensures rises { OnOk result (Rises firing_cmp found.new.items) }
        ensures many { IfErr result
            (λ e. e ≡ Halt.TooMany → WakesSome self.now.job.now (token_entry token.now)
            (HasOr self.now.history.now.entries (token_entry token.now))) }
    {
        self.gathered(token, found)?;
        put_in_order(found);
        Ok(())
    }
}
