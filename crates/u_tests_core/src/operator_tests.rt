//! The operators and `select`, by their words in a program, on worked values.
use crate::answers::is_value_written;
use std::alloc::{AllocError, Global};
use std::test::Fail;
use u_program::{Kind, Program, read};
use u_value::{FaultKind, Value, ValueTextError, apply1, apply2, select};

/// What each operator gives of its operands, a value or a fault, one a line.
const ROWS: &str = "\
add -4 1 = -3\n\
sub 4 9 = -5\n\
mul -6 7 = -42\n\
div -7 2 = -3\n\
rem -7 2 = -1\n\
lt -1 0 = true\n\
le 3 3 = true\n\
eq -1 0 = false\n\
and true false = false\n\
or true false = true\n\
not true = false\n\
length &-.main.6.1#10 = 10\n\
select true @one @rec = @one\n\
select false @one @rec = @rec\n\
add 9223372036854775807 1 = overflow\n\
div -9223372036854775808 -1 = overflow\n\
rem -9223372036854775808 -1 = overflow\n\
div 5 0 = zero\n\
rem 5 0 = zero\n\
mul true 0 = kind\n\
length 10 = kind\n\
select 1 @one @rec = kind\n\
";

/// The values whose texts these are, with a space between each two.
fn values(alloc: Global, texts: &str) -> Result<Vec<Value>, ValueTextError> {
    let mut values = Vec::new(alloc);
    for text in texts.split(' ') {
        values
            .push(Value::read(alloc, text.as_bytes())?)
            .map_err(AllocError::from)?;
    }
    Ok(values)
}

/// Whether the value is written so, or the fault's word is that.
fn is_outcome(
    alloc: Global,
    outcome: &Result<Value, FaultKind>,
    wanted: &str,
) -> Result<bool, AllocError> {
    match outcome {
        Ok(value) => is_value_written(alloc, value, wanted),
        Err(fault) => Ok(fault.text() == wanted),
    }
}

/// Whether a statement of that kind makes that of the values.
fn is_made(alloc: Global, kind: &Kind, values: &[Value], wanted: &str) -> Result<bool, AllocError> {
    match (kind, values) {
        (Kind::Unary(operator), [a]) => is_outcome(alloc, &apply1(*operator, a), wanted),
        (Kind::Binary(operator), [a, b]) => is_outcome(alloc, &apply2(*operator, a, b), wanted),
        (Kind::Select, [control, a, b]) => match select(control, a, b) {
            Ok(value) => is_value_written(alloc, value, wanted),
            Err(fault) => Ok(fault.text() == wanted),
        },
        _ => Ok(false),
    }
}

/// Whether a statement of that kind makes that of the values with these texts.
fn makes(alloc: Global, kind: &Kind, texts: &str, wanted: &str) -> Result<bool, ValueTextError> {
    let values = values(alloc, texts)?;
    Ok(is_made(alloc, kind, &values, wanted)?)
}

/// The kind of the first statement.
fn first_kind(program: &Program) -> Option<&Kind> {
    let block = program.blocks().first()?;
    let statement = block.statements().first()?;
    Some(statement.kind())
}

/// Whether the first statement of the program makes that of the values with these texts.
fn is_run(alloc: Global, program: &str, texts: &str, wanted: &str) -> Result<bool, Fail> {
    let program = read(alloc, program.as_bytes())?;
    match first_kind(&program) {
        Some(kind) => Ok(makes(alloc, kind, texts, wanted)?),
        None => Ok(false),
    }
}

/// Whether the line is so.
fn is_so(alloc: Global, line: &str) -> Result<bool, Fail> {
    let Some((word, operation)) = line.split_once(' ') else {
        return Ok(false);
    };
    let Some((texts, wanted)) = operation.split_once(" = ") else {
        return Ok(false);
    };
    let program = "u-program 1\nblock main\n1 0 # ->\n".replace(alloc, "#", word)?;
    is_run(alloc, program.as_str(), texts, wanted)
}

#[test]
fn operators_give_their_values_and_faults(rt: HostRuntime) -> Result<(), Fail> {
    for line in ROWS.lines() {
        assert!(rt; is_so(rt.alloc(), line)?, "{line}");
    }
    Ok(())
}
