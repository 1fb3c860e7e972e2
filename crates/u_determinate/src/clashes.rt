//! What holds of the runs of strict and of determinate jobs.
//!
//! Each law is the clause of a function that does nothing, as those of machines and replicas are: its
//! callers have it of a job at hand. It is proved once, for determinate programs, and a strict program is
//! shown to be determinate.
ghost use Rattle.u_determinate.specs.Strict.{IsStrict};
ghost use Rattle.u_determinate.specs.Determinate.{IsDeterminate};
ghost use Rattle.u_determinate.specs.Theorem.{IsDeterminateJob};
ghost use Rattle.u_determinate.specs.Outside.{QuietIsWhole, RepliesAloneWrite};
ghost use Rattle.u_rule.specs.Outside.{HasOneOutcome, EndsWhole};

use u_check::Job;

/// What holds of each run of the job, and of its whole history. It does nothing, and callers cite its
/// clauses.
///
/// Promise only-writes-clash: if the program is strict or determinate, two values at one port, or two
/// answers, come only with two writes of one cell.
///
/// Promise one-outcome: a run at its end, with no question open, whose replies one function says, holds all that
/// any run with such replies holds. Two such runs hold the same and fired the same, whatever their tables.
///
/// Promise whole-with-replies: a run of own firings and of these replies, of which nothing is left, holds all
/// that such runs hold.
pub fn only_writes_clash(job: &Job)
    ensures determinate { IsDeterminate job.now.program.blocks → IsDeterminateJob job.now }
    ensures strict { IsStrict job.now.program.blocks → IsDeterminateJob job.now }
    ensures ends { EndsWhole job.now }
    ensures outcome { HasOneOutcome job.now }
    ensures whole { QuietIsWhole job.now }
    ensures asked { RepliesAloneWrite job.now }
{
    // Brings in that the program is checked.
    let _program = job.program();
}
