//! Tables of names: which number each name gets, and which name has a number.
use crate::answers::is_name_written;
use std::alloc::{AllocError, Global};
use std::test::Fail;
use u_name::Name;
use u_names::Names;

/// Names in the order in which they are asked for, each with the number that it gets.
const NUMBERS: &[(&str, usize)] = &[
    ("-.main.1.1", 0),
    ("-.main.2.1", 1),
    ("-.main.1.1", 0),
    ("(-.main.L1.1).main.1.1", 2),
    ("(-.main.1.1).main.1.1", 3),
    ("(-.main.L1.2).main.1.1", 4),
    ("((-.main.L1.1).main.L1.2).main.1.1", 5),
    ("(-.main.L1.1).main.1.1", 2),
    ("(-.main.1.1).main.1.1", 3),
    ("-.other.1.1", 6),
];

/// The number of the name with that text.
fn number_of(alloc: Global, names: &mut Names, text: &str) -> Result<usize, Fail> {
    let name = Name::read(alloc, text.as_bytes())?;
    Ok(names.id_of(&name)?)
}

/// Whether the name that has that number is written so, where a text is wanted, or is not there.
fn is_numbered(
    alloc: Global,
    names: &Names,
    number: usize,
    wanted: Option<&str>,
) -> Result<bool, AllocError> {
    match (names.name_of(number)?, wanted) {
        (Some(name), Some(text)) => is_name_written(alloc, &name, text),
        (None, None) => Ok(true),
        _ => Ok(false),
    }
}

/// Whether each name gets its number.
fn are_numbered(alloc: Global, names: &mut Names) -> Result<bool, Fail> {
    for (text, number) in NUMBERS {
        if number_of(alloc, names, text)? != *number {
            return Ok(false);
        }
    }
    Ok(true)
}

/// Whether each number leads back to its name.
fn lead_back(alloc: Global, names: &Names) -> Result<bool, AllocError> {
    for (text, number) in NUMBERS {
        if !is_numbered(alloc, names, *number, Some(text))? {
            return Ok(false);
        }
    }
    is_numbered(alloc, names, 7, None)
}

#[test]
fn each_name_has_one_number(rt: HostRuntime) -> Result<(), Fail> {
    let mut names = Names::new(rt.alloc());
    assert!(rt; is_numbered(rt.alloc(), &names, 0, None)?);
    assert!(rt; are_numbered(rt.alloc(), &mut names)?);
    assert!(rt; lead_back(rt.alloc(), &names)?);
    assert!(rt; names.len() == 7);
    Ok(())
}
