//! Tables of replies: what they say, and to which questions; and the replies to a worked question.
use std::alloc::{AllocError, Global};
use std::test::Fail;
use u_check::{Plain, Question, Table};
use u_name::BlockName;
use u_plain::worked::firing_of;
use u_rule::{Firing, question_of, reply_to};
use u_value::Value;

/// What is asked of a table, with the number that the table has for it.
const ASKED: &[(&[u8], &[i64], Option<i64>)] = &[
    (b"price", &[5], Some(17)),
    (b"price", &[6], None),
    (b"cost", &[17, 5], Some(-4)),
    (b"cost", &[5, 17], None),
    (b"cost", &[5], None),
    (b"price", &[], None),
    (b"price", &[5, 5, 5, 5, 5], None),
];

/// The numbers as values.
fn values_of(alloc: Global, numbers: &[i64]) -> Result<Vec<Value>, AllocError> {
    let mut values = Vec::new(alloc);
    for number in numbers {
        values.push(Value::Int(*number))?;
    }
    Ok(values)
}

/// Puts down the number. Returns whether there was no other before.
fn is_put(table: &mut Table, question: Option<Question>, number: i64) -> Result<bool, AllocError> {
    match question {
        Some(question) => Ok(table.put(question, Plain::Int(number))?.is_none()),
        None => Ok(false),
    }
}

/// A question of the service about the numbers, if they may be asked about.
fn question(
    alloc: Global,
    service: &[u8],
    numbers: &[i64],
) -> Result<Option<Question>, AllocError> {
    let values = values_of(alloc, numbers)?;
    match BlockName::read(service) {
        Some(name) => Ok(Question::new(name, &values)),
        None => Ok(None),
    }
}

/// Whether the table has that number, or none, for the service and the numbers.
fn says(
    alloc: Global,
    table: &Table,
    service: &[u8],
    numbers: &[i64],
    wanted: Option<i64>,
) -> Result<bool, AllocError> {
    let values = values_of(alloc, numbers)?;
    let Some(name) = BlockName::read(service) else {
        return Ok(false);
    };
    Ok(match table.value(&name, &values) {
        Some(Value::Int(number)) => wanted == Some(number),
        Some(_) => false,
        None => wanted.is_none(),
    })
}

/// The table with all numbers of the rows.
fn filled(alloc: Global) -> Result<Table, AllocError> {
    let mut table = Table::new(alloc);
    for (service, numbers, known) in ASKED {
        if let Some(number) = known {
            is_put(&mut table, question(alloc, service, numbers)?, *number)?;
        }
    }
    Ok(table)
}

/// Whether the table says what the rows have, and a value that is put down again takes the place of the first.
fn table_says(alloc: Global) -> Result<bool, AllocError> {
    let mut table = filled(alloc)?;
    for (service, numbers, known) in ASKED {
        if !says(alloc, &table, service, numbers, *known)? {
            return Ok(false);
        }
    }
    let other = filled(alloc)?;
    let is_same = table.is_same(&other) && !table.is_same(&Table::new(alloc));
    let is_new = is_put(&mut table, question(alloc, b"price", &[5])?, 18)?;
    Ok(
        is_same
            && !is_new
            && !table.is_same(&other)
            && says(alloc, &table, b"price", &[5], Some(18))?,
    )
}

/// Whether the reply of -4 to the question of the firing is the firing itself.
fn is_reply(alloc: Global, reply: &Firing) -> Result<bool, AllocError> {
    let question = question_of(alloc, reply)?;
    let again = reply_to(alloc, &question, Value::Int(-4))?;
    Ok(question.write.is_none() && again.cmp(reply).is_eq())
}

#[test]
fn tables_say_what_was_put_down(rt: HostRuntime) -> Result<(), Fail> {
    assert!(rt; table_says(rt.alloc())?);
    let reply = firing_of(rt.alloc(), "f -.main.6.1 17 5 by -.main.6.1 -4")?;
    assert!(rt; is_reply(rt.alloc(), &reply)?);
    Ok(())
}
