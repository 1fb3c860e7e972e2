//! The writer of DOT: quoted texts, attributes, nodes, arcs, and what lies within a cluster. The
//! language is that of Graphviz; what is used of it stands in `specs/Dot.antt`.
ghost use Rattle.std.specs.Prelude.{◌≡◌, ◌++◌, ◌∷◌, [], ◌==◌, ◌||◌, if◌then◌else◌, OnOk, OnErr, codes};
ghost use Rattle.u_base.specs.Appending.{Extends};
ghost use Rattle.u_pictures.specs.Dot.{escaped, quoted, attribute, attribute_text, bracketed, opened};

use std::alloc::AllocError;
use u_base::push_spaced;

/// Appends a byte of a quoted text: `"` and `\` behind a `\`, any other byte as it is. On an error the
/// `\` may stand there.
#[tactic(auto, using(u_base::proofs::AppendingLaws::extends_same, u_base::proofs::AppendingLaws::extends_by, crate::proofs::Texts::join2))]
fn push_escaped_byte(out: &mut Vec<u8>, byte: u8) -> Result<(), AllocError>
    ensures ok { OnOk result (out.new.items ≡ out.old.items ++ escaped (byte ∷ [])) }
    ensures err { OnErr result (Extends out.old.items out.new.items) }
{
    if byte == b'"' || byte == b'\\' {
        out.push(b'\\')?;
    }
    out.push(byte)?;
    Ok(())
}

/// Appends the bytes of a quoted text. On an error a part of them may stand there.
#[tactic(auto, using(u_base::proofs::AppendingLaws::extends_by, u_base::proofs::AppendingLaws::extends_behind, crate::proofs::Escapes::escaped_more))]
fn push_escaped(out: &mut Vec<u8>, text: &[u8]) -> Result<(), AllocError>
    ensures ok { OnOk result (out.new.items ≡ out.old.items ++ escaped text.now) }
    ensures err { OnErr result (Extends out.old.items out.new.items) }
{
    for byte in text {
        push_escaped_byte(out, *byte)?;
    }
    Ok(())
}

/// Appends the text between quotes. On an error a part of it may stand there.
#[tactic(auto, unfolding(crate::specs::Dot::quoted), using(u_base::proofs::AppendingLaws::extends_same, u_base::proofs::AppendingLaws::extends_behind, crate::proofs::Texts::join3))]
pub fn push_quoted(out: &mut Vec<u8>, text: &[u8]) -> Result<(), AllocError>
    ensures ok { OnOk result (out.new.items ≡ out.old.items ++ quoted text.now) }
    ensures err { OnErr result (Extends out.old.items out.new.items) }
{
    out.push(b'"')?;
    push_escaped(out, text)?;
    out.push(b'"')?;
    Ok(())
}

/// Appends a space and an attribute: its name, `=` and its value between quotes. On an error a part of
/// it may stand there.
#[tactic(auto, unfolding(crate::specs::Dot::attribute_text), using(u_base::proofs::AppendingLaws::extends_same, u_base::proofs::AppendingLaws::extends_behind, crate::proofs::Texts::join3))]
pub fn push_attribute(out: &mut Vec<u8>, key: &[u8], value: &[u8]) -> Result<(), AllocError>
    ensures ok { OnOk result
        (out.new.items ≡ out.old.items ++ attribute_text (attribute key.now value.now)) }
    ensures err { OnErr result (Extends out.old.items out.new.items) }
{
    push_spaced(out, key)?;
    out.push(b'=')?;
    push_quoted(out, value)
}

/// Appends a list of attributes that have this text. On an error a part of it may stand there.
#[tactic(auto, unfolding(crate::specs::Dot::bracketed), using(u_base::proofs::AppendingLaws::extends_same, u_base::proofs::AppendingLaws::extends_behind, crate::proofs::Texts::join3))]
fn push_bracketed(out: &mut Vec<u8>, attributes: &[u8]) -> Result<(), AllocError>
    ensures ok { OnOk result (out.new.items ≡ out.old.items ++ bracketed attributes.now) }
    ensures err { OnErr result (Extends out.old.items out.new.items) }
{
    out.extend_from_slice(b" [")?;
    out.extend_from_slice(attributes)?;
    out.extend_from_slice(b" ];")
}

/// Appends what begins the part within the cluster of that name. On an error a part of it may stand
/// there.
#[tactic(auto, unfolding(crate::specs::Dot::opened), using(u_base::proofs::AppendingLaws::extends_same, u_base::proofs::AppendingLaws::extends_behind, crate::proofs::Texts::join3))]
pub fn push_opened(out: &mut Vec<u8>, name: &[u8]) -> Result<(), AllocError>
    ensures ok { OnOk result (out.new.items ≡ out.old.items ++ opened name.now) }
    ensures err { OnErr result (Extends out.old.items out.new.items) }
{
    out.extend_from_slice(b"subgraph ")?;
    push_quoted(out, name)?;
    out.extend_from_slice(b" { ")
}

/// Appends what gives the cluster around it attributes that have this text. On an error a part of it may
/// stand there.
#[tactic(auto, using(u_base::proofs::AppendingLaws::extends_same, u_base::proofs::AppendingLaws::extends_behind, crate::proofs::Texts::join2))]
pub fn push_cluster(out: &mut Vec<u8>, attributes: &[u8]) -> Result<(), AllocError>
    ensures ok { OnOk result
        (out.new.items ≡ out.old.items ++ (codes "graph" ++ bracketed attributes.now)) }
    ensures err { OnErr result (Extends out.old.items out.new.items) }
{
    out.extend_from_slice(b"graph")?;
    push_bracketed(out, attributes)
}

/// Appends the node of that name, with attributes that have this text. On an error a part of it may
/// stand there.
#[tactic(auto, using(u_base::proofs::AppendingLaws::extends_same, u_base::proofs::AppendingLaws::extends_behind, crate::proofs::Texts::join2))]
pub fn push_node(out: &mut Vec<u8>, name: &[u8], attributes: &[u8]) -> Result<(), AllocError>
    ensures ok { OnOk result
        (out.new.items ≡ out.old.items ++ (quoted name.now ++ bracketed attributes.now)) }
    ensures err { OnErr result (Extends out.old.items out.new.items) }
{
    push_quoted(out, name)?;
    push_bracketed(out, attributes)
}

/// Appends the arc between these nodes, with attributes that have this text. On an error a part of it
/// may stand there.
#[tactic(auto, using(u_base::proofs::AppendingLaws::extends_same, u_base::proofs::AppendingLaws::extends_behind, crate::proofs::Texts::join3))]
fn push_ends(out: &mut Vec<u8>, from: &[u8], to: &[u8], attributes: &[u8]) -> Result<(), AllocError>
    ensures ok { OnOk result
        (out.new.items ≡ out.old.items
        ++ (quoted from.now ++ (codes " -> " ++ (quoted to.now ++ bracketed attributes.now)))) }
    ensures err { OnErr result (Extends out.old.items out.new.items) }
{
    push_quoted(out, from)?;
    out.extend_from_slice(b" -> ")?;
    push_node(out, to, attributes)
}

/// Appends a line with the arc between these nodes, with attributes that have this text. On an error a
/// part of it may stand there.
#[tactic(auto, using(u_base::proofs::AppendingLaws::extends_same, u_base::proofs::AppendingLaws::extends_behind, crate::proofs::Texts::join3))]
pub fn push_arc(
    out: &mut Vec<u8>,
    from: &[u8],
    to: &[u8],
    attributes: &[u8],
) -> Result<(), AllocError>
    ensures ok { OnOk result
        (out.new.items ≡ out.old.items ++ (codes "  " ++ ((quoted from.now
        ++ (codes " -> " ++ (quoted to.now ++ bracketed attributes.now))) ++ (10 ∷ [])))) }
    ensures err { OnErr result (Extends out.old.items out.new.items) }
{
    out.extend_from_slice(b"  ")?;
    push_ends(out, from, to, attributes)?;
    out.push(b'\n')?;
    Ok(())
}
