//! How statements and arcs look, by what they do.
//!
//! `next` has no say in what stands above what: with one, loops are torn apart.
ghost use Rattle.std.specs.Prelude.{◌≡◌, ◌∷◌, []};
ghost use Rattle.u_pictures.specs.Dot.{attributes_text};
ghost use Rattle.u_pictures.specs.Styles.{fill, ports, label_above, label_below, exit_of};
ghost use Rattle.u_pictures.specs.Styles.{exit_attributes, join, entry, result_arc, point, block_style, loop_style};

use u_check::ports_of;
use u_program::Kind;

/// The fill of a statement's node, by its family: the edges of a block, loops, choices, calls,
/// structures, questions, and all others.
pub fn fill_of(kind: &Kind) -> &'static [u8]
    ensures { result.now ≡ fill kind.now }
{
    match kind {
        Kind::Begin | Kind::Param(_) | Kind::End => b"#d9ead3".as_slice(),
        Kind::Enter(_) | Kind::Next | Kind::Last | Kind::Leave => b"#dbe7f6".as_slice(),
        Kind::Select | Kind::Switch => b"#fff2cc".as_slice(),
        Kind::Apply(_, _) | Kind::Back => b"#eadcf4".as_slice(),
        Kind::Alloc | Kind::Store | Kind::Fetch => b"#fce5cd".as_slice(),
        Kind::Ask(_, _) => b"#f4cccc".as_slice(),
        _ => b"#ffffff".as_slice(),
    }
}

/// So many ports, from 1 to 5, each with its number.
fn ports(count: usize) -> &'static [u8]
    ensures { result.now ≡ ports count }
{
    match count {
        1 => b"<i1>".as_slice(),
        2 => b"{{<i1>1|<i2>2}|".as_slice(),
        3 => b"{{<i1>1|<i2>2|<i3>3}|".as_slice(),
        4 => b"{{<i1>1|<i2>2|<i3>3|<i4>4}|".as_slice(),
        _ => b"{{<i1>1|<i2>2|<i3>3|<i4>4|<i5>5}|".as_slice(),
    }
}

/// What stands in a label above the number: the ports.
pub fn label_above(kind: &Kind) -> &'static [u8]
    ensures { result.now ≡ label_above kind.now }
{
    ports(ports_of(kind))
}

/// What stands in a label below the kind: the two ways out of a `switch`, and what ends the ports if there
/// are two or more.
pub fn label_below(kind: &Kind) -> &'static [u8]
    ensures { result.now ≡ label_below kind.now }
{
    match kind {
        Kind::Switch => b"|{<t>T|<f>F}}".as_slice(),
        _ if ports_of(kind) == 1 => b"".as_slice(),
        _ => b"}".as_slice(),
    }
}

/// How arcs leave a node.
#[derive(Clone, Copy, PartialEq, Eq)]
pub enum Exit {
    /// From a statement that is neither `switch` nor `next`.
    Plain,
    /// From a `switch`, for true: green.
    OnTrue,
    /// From a `switch`, for false: red.
    OnFalse,
    /// From a `next`: blue, and without a say in what stands above what.
    Turning,
    /// From the point of a list.
    FromPoint,
}

/// How arcs leave a statement of that kind; of a `switch`, those for true.
pub fn exit_of(kind: &Kind) -> Exit
    ensures { result ≡ exit_of kind.now }
{
    match kind {
        Kind::Switch => Exit::OnTrue,
        Kind::Next => Exit::Turning,
        _ => Exit::Plain,
    }
}

/// The attributes of arcs that leave so.
#[tactic(auto, unfolding(crate::specs::Dot::attribute_text, crate::specs::Dot::quoted))]
pub fn exit_text(exit: Exit) -> &'static [u8]
    ensures { result.now ≡ attributes_text (exit_attributes exit) }
{
    match exit {
        Exit::Plain => b" tailport=\"s\"".as_slice(),
        Exit::OnTrue => b" tailport=\"t:s\" color=\"#2e7d32\"".as_slice(),
        Exit::OnFalse => b" tailport=\"f:s\" color=\"#c62828\"".as_slice(),
        Exit::Turning => { b" color=\"#3569b0\" penwidth=\"1.4\" constraint=\"false\"".as_slice() }
        Exit::FromPoint => b"".as_slice(),
    }
}

/// The attributes of the arc from a statement to the point of its list.
#[tactic(auto, unfolding(crate::specs::Dot::attribute_text, crate::specs::Dot::quoted))]
pub fn join_of(kind: &Kind) -> &'static [u8]
    ensures { result.now ≡ attributes_text (join kind.now) }
{
    match kind {
        Kind::Next => b" color=\"#3569b0\" penwidth=\"1.4\" constraint=\"false\"".as_slice(),
        _ => b" tailport=\"s\" arrowhead=\"none\"".as_slice(),
    }
}

/// The attribute of an arc that ends at that port.
#[tactic(auto, unfolding(crate::specs::Dot::attribute_text, crate::specs::Dot::quoted))]
pub fn entry_of(port: u8) -> &'static [u8]
    ensures { result.now ≡ attributes_text (entry port ∷ []) }
{
    match port {
        1 => b" headport=\"i1:n\"".as_slice(),
        2 => b" headport=\"i2:n\"".as_slice(),
        3 => b" headport=\"i3:n\"".as_slice(),
        4 => b" headport=\"i4:n\"".as_slice(),
        _ => b" headport=\"i5:n\"".as_slice(),
    }
}

/// The attributes of the arc from an `apply` to its `back`.
#[tactic(auto, unfolding(crate::specs::Dot::attribute_text, crate::specs::Dot::quoted))]
pub fn result_arc() -> &'static [u8]
    ensures { result.now ≡ attributes_text result_arc }
{
    b" tailport=\"s\" headport=\"i1:n\" style=\"dashed\" color=\"#7b3fa0\" label=\"  result\"".as_slice()
}

/// The attributes of the point of a list.
#[tactic(auto, unfolding(crate::specs::Dot::attribute_text, crate::specs::Dot::quoted))]
pub fn point() -> &'static [u8]
    ensures { result.now ≡ attributes_text point }
{
    b" shape=\"point\" width=\"0.07\" style=\"solid\"".as_slice()
}

/// How the cluster of a block looks.
#[tactic(auto, unfolding(crate::specs::Dot::attribute_text, crate::specs::Dot::quoted))]
pub fn block_style() -> &'static [u8]
    ensures { result.now ≡ attributes_text block_style }
{
    b" labeljust=\"l\" style=\"rounded\" color=\"#888888\"".as_slice()
}

/// How the cluster of a loop looks.
#[tactic(auto, unfolding(crate::specs::Dot::attribute_text, crate::specs::Dot::quoted))]
pub fn loop_style() -> &'static [u8]
    ensures { result.now ≡ attributes_text loop_style }
{
    b" labeljust=\"l\" style=\"rounded,filled\" color=\"#9db8dd\" fillcolor=\"#f4f8fd\"".as_slice()
}
