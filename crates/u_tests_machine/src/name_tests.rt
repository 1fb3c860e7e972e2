//! What the names of worked sources mean, and the first clash of their kinds.
use std::alloc::{AllocError, Global};
use std::test::Fail;
use u_scope::{CheckedSource, Meaning, check_kinds};
use u_source::Source;

/// Texts, and what each name means that is used or has its next value: the place of the name, and the token that
/// shows the node from which it is known.
const MEANINGS: &[(&str, &str)] = &[
    (
        "def main(n) { f(n, 2) }\ndef f(a, b) { a - b }",
        "1:15 to 2:1, 1:17 to 1:1, 2:15 to 2:1, 2:19 to 2:8",
    ),
    (
        "def main(n) { loop i = n, s = 1 while i < n { next i = i + s; next s = i; } give s }",
        "\
1:24 to 1:1, 1:39 to 1:15, 1:43 to 1:1, 1:52 to 1:15, 1:56 to 1:15, 1:60 to 1:25, 1:68 to 1:25, 1:72 to 1:15, 1:82 to 1:25",
    ),
    (
        "def main(n) {\nif n < 1 { a = 1; a } else { a = 2; a }\n}",
        "2:4 to 1:1, 2:19 to 2:14, 2:37 to 2:32",
    ),
];

/// Appends the place of the token with this number.
fn push_place(
    alloc: Global,
    out: &mut String,
    source: &Source,
    number: usize,
) -> Result<(), AllocError> {
    if let Some(token) = source.tokens().get(number) {
        out.push_str(token.place().line.to_string(alloc)?.as_str())?;
        out.push(':')?;
        out.push_str(token.place().column.to_string(alloc)?.as_str())?;
    }
    Ok(())
}

/// The number of the node from which a name is known.
fn known_from(meaning: Meaning) -> Option<usize> {
    match meaning {
        Meaning::Nothing => None,
        Meaning::Procedure(number) => Some(number),
        Meaning::Name(number) => Some(number),
    }
}

/// What the names mean.
fn shown(alloc: Global, source: &Source, checked: &CheckedSource) -> Result<String, AllocError> {
    let mut out = String::new(alloc);
    for (node, meaning) in source.nodes().iter().zip(checked.meanings()) {
        let Some(number) = known_from(*meaning) else {
            continue;
        };
        if let Some(definition) = source.nodes().get(number) {
            if !out.is_empty() {
                out.push_str(", ")?;
            }
            push_place(alloc, &mut out, source, node.token)?;
            out.push_str(" to ")?;
            push_place(alloc, &mut out, source, definition.token)?;
        }
    }
    Ok(out)
}

/// What the names of a text mean, or the words of the refusal.
fn answer(alloc: Global, text: &str) -> Result<String, AllocError> {
    match Source::read(alloc, text.as_bytes()) {
        Ok(source) => match CheckedSource::check(alloc, &source) {
            Ok(checked) => shown(alloc, &source, &checked),
            Err(error) => error.to_string(alloc),
        },
        Err(error) => error.to_string(alloc),
    }
}

#[test]
fn names_mean_this(rt: HostRuntime) -> Result<(), Fail> {
    let alloc = rt.alloc();
    for (text, wanted) in MEANINGS {
        let found = answer(alloc, text)?;
        assert!(rt; found.as_str() == *wanted, "{text}: {found}");
    }
    Ok(())
}

/// Whether the kinds of a source whose names are allowed do not clash.
fn is_of_kinds(alloc: Global, text: &str) -> bool {
    match Source::read(alloc, text.as_bytes()) {
        Ok(source) => match CheckedSource::check(alloc, &source) {
            Ok(checked) => check_kinds(alloc, &source, &checked).is_ok(),
            Err(_) => false,
        },
        Err(_) => false,
    }
}

#[test]
fn kinds_clash_or_not(rt: HostRuntime) {
    assert!(rt; is_of_kinds(rt.alloc(), "def main(n) { n + n[n] + n(n) - length n }"));
    assert!(rt; !is_of_kinds(rt.alloc(), "def main(n) { n + true }"));
}
