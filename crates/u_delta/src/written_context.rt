//! Contexts whose text stands in the bytes already. Neighbours in a log mostly stand in one context, so its
//! text is made once and copied for the others.
ghost use Rattle.std.specs.Prelude.{◌≡◌, ◌++◌, ◌∷◌, [], IfOk, IfSome, OnErr, OnOk, codes};
ghost use Rattle.u_name.specs.NameText.{context_text};
ghost use Rattle.u_rule.specs.FiringText.{firing_text};
ghost use Rattle.u_base.specs.Appending.{Extends};
ghost use Rattle.u_delta.specs.WrittenContexts.{StandsAt};

use std::alloc::AllocError;
use u_name::Context;
use u_rule::Firing;

/// A context, and where its text stands in the bytes.
#[derive(Clone, Copy)]
pub(crate) struct WrittenContext<'a> {
    context: &'a Context,
    /// The place of its first byte.
    start: usize,
    /// The place behind its last byte.
    end: usize,
}

/// Appends the text of the context. If it is the context whose text stands there, that is copied.
#[tactic(auto, using(u_base::proofs::AppendingLaws::extends_same, crate::proofs::WrittenContexts::stands_same))]
fn push_context(
    out: &mut Vec<u8>,
    context: &Context,
    near: Option<WrittenContext<'_>>,
) -> Result<(), AllocError>
    requires { IfSome near (λ w. StandsAt out.old.items w.context.now w.start w.end) }
    ensures ok { OnOk result (out.new.items ≡ out.old.items ++ context_text context.now) }
    ensures err { OnErr result (Extends out.old.items out.new.items) }
{
    if let Some(near) = near {
        if near.context == context {
            out.extend_from_within(near.start..near.end)?;
            return Ok(());
        }
    }
    context.write_text(out)
}

/// Appends the text of the firing and a newline. Returns where the text of its context stands. On an
/// error a part of it may stand there.
#[tactic(auto, using(u_base::proofs::AppendingLaws::extends_same, u_base::proofs::AppendingLaws::extends_by, u_base::proofs::AppendingLaws::extends_behind, crate::proofs::WrittenContexts::line_written))]
pub(crate) fn push_line<'a>(
    out: &mut Vec<u8>,
    firing: &'a Firing,
    near: Option<WrittenContext<'a>>,
) -> Result<WrittenContext<'a>, AllocError>
    requires { IfSome near (λ w. StandsAt out.old.items w.context.now w.start w.end) }
    ensures line { OnOk result
        (out.new.items ≡ (out.old.items ++ firing_text firing.now) ++ (10 ∷ [])) }
    ensures stands { IfOk result (λ w. StandsAt out.new.items w.context.now w.start w.end) }
    ensures err { OnErr result (Extends out.old.items out.new.items) }
{
    out.extend_from_slice(b"f ")?;
    let context = firing.activity.context();
    let start = out.len();
    push_context(out, context, near)?;
    let end = out.len();
    firing.write_behind_context(out)?;
    out.push(b'\n')?;
    Ok(WrittenContext {
        context,
        start,
        end,
    })
}
