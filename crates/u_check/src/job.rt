//! Checked programs, and jobs.
ghost use Rattle.std.specs.Prelude.{◌≡◌};
ghost use Rattle.std.specs.Cmp.{partial_equiv_from_equiv, and_equiv, on_equiv, int_eq_equiv};
ghost use Rattle.std.specs.Cmp.Lexicographic.{on_texts_equal};
ghost use Rattle.u_check.specs.Jobs.{JobParts, job, is_same_job};
ghost use Rattle.u_check.specs.Rules.{IsChecked};
ghost use Rattle.u_program.specs.Limits.{IsProgram, the_limits};
ghost use Rattle.u_program.specs.Equality.{text_of};

use crate::table::Table;
use std::marker::Model;
use u_program::{Block, Program};

/// A program that breaks no rule of the checker.
#[derive(Drop)]
pub struct Checked {
    program: Program,
}

impl Model for Checked {
    ghost use Rattle.u_program.specs.Parts.{ProgramParts};
    ghost use Rattle.u_check.specs.Rules.{IsChecked};

    ghost Value = { ProgramParts };

    ghost view = { λ c. c.program };

    ghost invariant = { λ c. IsChecked c.program.blocks };
}

/// A checked program with the argument that it runs on, and a table of replies.
#[derive(Drop)]
pub struct Job {
    checked: Checked,
    argument: i64,
    table: Table,
}

impl Model for Job {
    ghost use Rattle.u_check.specs.Jobs.{JobParts, job};

    ghost Value = { JobParts };

    ghost view = { λ j. job j.checked j.argument j.table };
}

impl Checked {
    /// A program that breaks no rule.
    pub(crate) fn of(program: Program) -> Checked
        requires { IsChecked program.blocks }
        ensures { result ≡ program }
    {
        Checked { program }
    }

    /// The program.
    pub fn program(&self) -> &Program
        ensures program { result.now ≡ self.now }
        ensures checked { IsChecked self.now.blocks }
    {
        &self.program
    }

    /// The program, taken out.
    pub fn into_program(self) -> Program
        ensures program { result ≡ self }
        ensures checked { IsChecked self.blocks }
    {
        self.program
    }
}

impl Job {
    /// The job of running the program on the argument, where that table is known of the outside.
    pub fn new(checked: Checked, argument: i64, table: Table) -> Job
        ensures { result ≡ job checked argument table }
    {
        Job {
            checked,
            argument,
            table,
        }
    }

    /// The program.
    ///
    /// Promise jobs-are-checked: the program breaks no rule of the checker.
    pub fn program(&self) -> &Program
        ensures program { result.now ≡ self.now.program }
        ensures checked { IsChecked self.now.program.blocks }
    {
        self.checked.program()
    }

    /// The argument.
    pub fn argument(&self) -> i64
        ensures { result ≡ self.now.argument }
    {
        self.argument
    }

    /// What is known beforehand of the outside.
    pub fn table(&self) -> &Table
        ensures { result.now ≡ self.now.table }
    {
        &self.table
    }
}

impl PartialEq for Job {
    ghost eq = { is_same_job };

    ghost laws = { partial_equiv_from_equiv (and_equiv (on_equiv (λ (j : JobParts). j.program) (on_texts_equal text_of)) (on_equiv (λ (j : JobParts). j.argument) int_eq_equiv)) };

    /// Compares the jobs. It takes no memory.
    ///
    /// Promise jobs-are-equal: two jobs are equal exactly if their programs and their arguments are, whatever their tables.
    fn eq(&self, other: &Job) -> bool {
        self.argument == other.argument && *self.program() == *other.program()
    }
}

impl Eq for Job {
    ghost laws = { and_equiv (on_equiv (λ (j : JobParts). j.program) (on_texts_equal text_of)) (on_equiv (λ (j : JobParts). j.argument) int_eq_equiv) };
}
