//! The tokens and the syntax trees of worked sources, and the places of their nodes.
use std::alloc::{AllocError, Global};
use std::test::Fail;
use u_source::{Form, Node, Source, SourceError, Token, Word, tokens};

/// A text, and its tree or the words of the refusal.
type Row = (&'static str, &'static str);

/// Blocks of `main`, without their braces, and what their nodes are, the children before their parent.
const BLOCKS: &[Row] = &[
    ("", "NoItems"),
    (
        "a = n - b / c % d * -e; a",
        "NoItems a n b c Divide d Remainder e Negate Multiply Subtract Define AddItem a AddValue",
    ),
    (
        "not a or b + 1 <= -1 and c > d",
        "NoItems a Not b 1 Add -1 AtMost c d Greater And Or AddValue",
    ),
    (
        "a[i] = length x == 1; f(x)[0] = array true;",
        "\
NoItems a i Index x Length 1 Equal Write AddItem \
f NoArguments x AddArgument Call 0 Index True Array Write AddItem",
    ),
    (
        "f(1, 2)(3);",
        "NoItems f NoArguments 1 AddArgument 2 AddArgument Call NoArguments 3 AddArgument Call Statement AddItem",
    ),
    (
        "x = if a { 1 } else if b { 2 } else { 3 } + 4;",
        "\
NoItems x a NoItems 1 AddValue Block Otherwise b NoItems 2 AddValue Block \
Otherwise NoItems 3 AddValue Block Else If Else If 4 Add Define AddItem",
    ),
    (
        "if a { } (n)",
        "NoItems a NoItems Block NoElse If AddItem n AddValue",
    ),
    (
        "loop i = n, s = 0 while 0 < i { next i = i - 1; next s = s + i; } give s",
        "\
NoItems NoVariables i n AddVariable s 0 AddVariable Variables 0 i Less \
NoItems i i 1 Subtract Next AddItem s s i Add Next AddItem Block s Give Loop AddValue",
    ),
    (
        "for i in 0 .. n { a[i] = i; } a",
        "\
NoItems i 0 n NoVariables Variables NoItems a i Index i Write AddItem Block NoGive For AddItem a AddValue",
    ),
];

/// A text, and the places of the tokens that show its nodes.
const PLACES: Row = (
    "def main(n) {\n  a[n] - -b * f(-2)\n}",
    "\
1:1 1:5 1:1 1:10 1:1 1:13 2:3 2:5 2:4 2:11 2:11 2:15 2:16 2:18 2:16 2:16 2:13 2:8 3:1 1:13 1:1",
);

/// Whether a node is shown by its token alone.
fn is_leaf(form: Form) -> bool {
    matches!(form, Form::Name | Form::Number)
}

/// Appends a name or a number.
fn push_token(alloc: Global, out: &mut String, token: &Token) -> Result<(), AllocError> {
    match token.word() {
        Word::Name(name) => {
            for byte in name.as_bytes() {
                out.push(char::from(*byte))?;
            }
            Ok(())
        }
        Word::Number(number) => out.push_str(number.to_string(alloc)?.as_str()),
        Word::Mark(_) => out.push('?'),
    }
}

/// Appends what a node is.
fn push_node(
    alloc: Global,
    out: &mut String,
    node: &Node,
    tokens: &[Token],
) -> Result<(), AllocError> {
    match tokens.get(node.token) {
        Some(token) if is_leaf(node.form) => push_token(alloc, out, token),
        Some(token) if node.form == Form::Negative => {
            out.push('-')?;
            push_token(alloc, out, token)
        }
        _ => out.push_str(format!(in alloc; "{:?}", node.form)?.as_str()),
    }
}

/// What the nodes of the tree are, or the words of the refusal.
fn shown(alloc: Global, answer: &Result<Source, SourceError>) -> Result<String, AllocError> {
    let mut out = String::new(alloc);
    match answer {
        Ok(source) => {
            for node in source.nodes() {
                if !out.is_empty() {
                    out.push(' ')?;
                }
                push_node(alloc, &mut out, node, source.tokens())?;
            }
        }
        Err(error) => out.push_str(error.to_string(alloc)?.as_str())?,
    }
    Ok(out)
}

/// The places of the tokens that show the nodes.
fn places(alloc: Global, source: &Source) -> Result<String, AllocError> {
    let mut out = String::new(alloc);
    for node in source.nodes() {
        if !out.is_empty() {
            out.push(' ')?;
        }
        if let Some(token) = source.tokens().get(node.token) {
            out.push_str(token.place().line.to_string(alloc)?.as_str())?;
            out.push(':')?;
            out.push_str(token.place().column.to_string(alloc)?.as_str())?;
        }
    }
    Ok(out)
}

#[test]
fn blocks_have_these_trees(rt: HostRuntime) -> Result<(), Fail> {
    let alloc = rt.alloc();
    for (block, tree) in BLOCKS {
        let text = format!(in alloc; "def main(n) {{{block}}}")?;
        let wanted = format!(in alloc;
            "NoProcedures main NoParameters n AddParameter {tree} Block AddProcedure"
        )?;
        let found = shown(alloc, &Source::read(alloc, text.as_bytes()))?;
        assert!(rt; found == wanted, "{text}: {found}");
    }
    Ok(())
}

#[test]
fn nodes_are_shown_by_these_tokens(rt: HostRuntime) -> Result<(), Fail> {
    let alloc = rt.alloc();
    let (text, wanted) = PLACES;
    let found = match Source::read(alloc, text.as_bytes()) {
        Ok(source) => places(alloc, &source)?,
        Err(error) => error.to_string(alloc)?,
    };
    assert!(rt; found.as_str() == wanted, "{found}");
    Ok(())
}

#[test]
fn a_text_has_tokens(rt: HostRuntime) -> Result<(), Fail> {
    let found = tokens(rt.alloc(), b"a..b # no token\n<=1")?;
    assert!(rt; found.len() == 5);
    Ok(())
}
