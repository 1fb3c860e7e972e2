//! Questions to the outside, and the replies to them.
ghost use Rattle.std.specs.Prelude.{◌≡◌, IfOk};
ghost use Rattle.u_rule.specs.Replies.{question_of, reply_to, value_for, told_to};

use crate::firing::Firing;
use crate::parts::Written;
use crate::shared_written::SharedWritten;
use std::alloc::{AllocError, Global};
use u_check::{Job, Table};
use u_program::{Kind, Statement};
use u_value::Value;

/// The question that a reply is to: the same values of the same activity, and no write.
///
/// # Errors
/// `AllocError` where there is no memory.
pub fn question_of(alloc: Global, firing: &Firing) -> Result<Firing, AllocError>
    ensures { IfOk result (λ f. f ≡ question_of firing.now) }
{
    Ok(Firing {
        activity: firing.activity.copy()?,
        values: firing.values.copy(alloc)?,
        write: None,
    })
}

/// The reply of that value to a question: the same values of the same activity, and the write that the
/// activity itself makes of the value.
///
/// # Errors
/// `AllocError` where there is no memory.
pub fn reply_to(alloc: Global, question: &Firing, value: Value) -> Result<Firing, AllocError>
    ensures { IfOk result (λ f. f ≡ reply_to question.now value) }
{
    let writer = question.activity.copy()?;
    let write = SharedWritten::new(alloc, Written { writer, value })?;
    Ok(Firing {
        activity: question.activity.copy()?,
        values: question.values.copy(alloc)?,
        write: Some(write),
    })
}

/// What the table says to a statement of that kind about these values, where it is an `ask`.
pub(crate) fn value_for(table: &Table, kind: &Kind, values: &[Value]) -> Option<Value>
    ensures { result ≡ value_for table.now kind.now values.now }
{
    match kind {
        Kind::Ask(service, _) => table.value(service, values),
        _ => None,
    }
}

/// The reply that the table of the job has to a firing of that statement, if it has one. To a firing that has
/// a write it has none.
///
/// # Errors
/// `AllocError` where there is no memory.
pub fn told_to(
    alloc: Global,
    job: &Job,
    statement: &Statement,
    firing: &Firing,
) -> Result<Option<Firing>, AllocError>
    ensures { IfOk result (λ o. o ≡ told_to job.now.table statement.now.kind firing.now) }
{
    if firing.write.is_some() {
        return Ok(None);
    }
    match value_for(job.table(), statement.kind(), firing.values.as_slice()) {
        None => Ok(None),
        Some(value) => {
            let reply = reply_to(alloc, firing, value)?;
            Ok(Some(reply))
        }
    }
}
