//! What is answered to a text: the text of what was read, or the words of the refusal.
use std::alloc::{AllocError, Global};
use std::fmt::Display;
use u_name::Name;
use u_value::Value;

/// What is answered to a text that is written as it was read.
pub const SAME: &str = "as it was read";

/// What a text is of.
#[derive(Clone, Copy)]
pub enum Subject {
    Name,
    Value,
}

/// Whether it is printed so.
pub fn is_printed<T: Display>(
    alloc: Global,
    printed: &T,
    wanted: &str,
) -> Result<bool, AllocError> {
    let text = printed.to_string(alloc)?;
    Ok(text.as_str() == wanted)
}

/// Whether the name is written so.
pub fn is_name_written(alloc: Global, name: &Name, wanted: &str) -> Result<bool, AllocError> {
    let mut out = Vec::new(alloc);
    name.write_text(&mut out)?;
    Ok(out.as_slice() == wanted.as_bytes())
}

/// Whether the value is written so.
pub fn is_value_written(alloc: Global, value: &Value, wanted: &str) -> Result<bool, AllocError> {
    let mut out = Vec::new(alloc);
    value.write_text(&mut out)?;
    Ok(out.as_slice() == wanted.as_bytes())
}

/// Whether a copy of the name is written so.
fn is_name_copied(alloc: Global, name: &Name, wanted: &str) -> Result<bool, AllocError> {
    let copy = name.copy()?;
    is_name_written(alloc, &copy, wanted)
}

/// Whether a copy of the value is written so.
fn is_value_copied(alloc: Global, value: &Value, wanted: &str) -> Result<bool, AllocError> {
    let copy = value.copy()?;
    is_value_written(alloc, &copy, wanted)
}

/// Whether that is answered to the text.
pub fn is_answered(
    alloc: Global,
    subject: Subject,
    text: &str,
    wanted: &str,
) -> Result<bool, AllocError> {
    match subject {
        Subject::Name => match Name::read(alloc, text.as_bytes()) {
            Ok(name) => Ok(wanted == SAME && is_name_copied(alloc, &name, text)?),
            Err(error) => is_printed(alloc, &error, wanted),
        },
        Subject::Value => match Value::read(alloc, text.as_bytes()) {
            Ok(value) => Ok(wanted == SAME && is_value_copied(alloc, &value, text)?),
            Err(error) => is_printed(alloc, &error, wanted),
        },
    }
}
