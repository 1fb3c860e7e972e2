//! Tables of replies: what is known beforehand of the outside.
ghost use Rattle.std.specs.Prelude.{◌≡◌, ◌↔◌, [], IsTrue, OnOk, OnErr, IfOk, IfErr, Some, if◌then◌else◌};
ghost use Rattle.u_check.specs.Tables.{TableRows, table_value, value_at, same_question};
ghost use Rattle.u_check.specs.declared.question.Question as questions;

use crate::question::{Plain, Question};
use indexmap::IndexMap;
use std::alloc::{AllocFailed, Global};
use std::marker::Model;
use u_name::BlockName;
use u_value::Value;

/// A value for each of finitely many questions. Questions are found by their hashes. Contracts see the list
/// of the questions with their values.
#[derive(Drop)]
pub struct Table {
    rows: IndexMap<Question, Plain>,
}

impl Model for Table {
    ghost use Rattle.u_check.specs.Tables.{TableRows};

    ghost Value = { TableRows };

    ghost view = { λ t. t.rows.entries };
}

impl Table {
    /// The table that knows nothing. It takes no memory.
    pub fn new(alloc: Global) -> Table
        ensures { result ≡ [] }
    {
        Table {
            rows: IndexMap::new(alloc),
        }
    }

    /// What the service says to these values, where the table has it. It takes no memory.
    ///
    /// Promise table-says: a value is returned exactly where the table has one for the question, and it is that one.
    #[tactic(auto, unfolding(crate::specs::Tables::table_value))]
    pub fn value(&self, service: &BlockName, values: &[Value]) -> Option<Value>
        ensures { result ≡ table_value self.now service.now values.now }
    {
        let question = Question::new(*service, values)?;
        let plain = self.rows.get(&question)?;
        Some(plain.value())
    }

    /// Whether the other table has the same rows, in the same order. It takes no memory.
    pub fn is_same(&self, other: &Table) -> bool
        ensures { IsTrue result ↔ (self.now ≡ other.now) }
    {
        self.rows.as_slice() == other.rows.as_slice()
    }

    /// Puts down the value for the question. Returns the value that the table had for it.
    ///
    /// Promise table-rows: afterwards the table has this value for the question, and for all others what it had.
    ///
    /// # Errors
    /// `AllocFailed` with the row where there is no memory; the table stays as it was.
    pub fn put(
        &mut self,
        question: Question,
        value: Plain,
    ) -> Result<Option<Plain>, AllocFailed<(Question, Plain)>>
        ensures before { IfOk result (λ old. old ≡ value_at self.old question) }
        ensures ok { OnOk result
            ((q : questions.Question) → value_at self.new q
            ≡ (if same_question question q then Some value else value_at self.old q)) }
        ensures err { OnErr result (self.new ≡ self.old) }
        ensures back { IfErr result (λ e. e.value ≡ (question, value)) }
    {
        self.rows.insert(question, value)
    }
}
