//! The words for what a replica did.
ghost use Rattle.std.specs.Prelude.{◌≡◌, ◌++◌, IfOk, OnOk};
ghost use Rattle.u_pictures.specs.Words.{short_name, new_words, again_words, words, full_words};

use crate::happening::Deed;
use std::alloc::{AllocError, Global};
use u_base::{push_long, push_long_behind};
use u_name::Name;

/// Appends the activity's name without its context.
#[tactic(auto, unfolding(crate::specs::Words::short_name), using(crate::proofs::Texts::join3))]
fn push_short_name(out: &mut Vec<u8>, activity: &Name) -> Result<(), AllocError>
    ensures { OnOk result (out.new.items ≡ out.old.items ++ short_name activity.now) }
{
    out.extend_from_slice(activity.block().as_bytes())?;
    push_long_behind(out, b'.', u64::from(activity.statement()))?;
    push_long_behind(out, b'.', activity.initiation())
}

/// Appends how many firings are new.
pub fn push_new(out: &mut Vec<u8>, count: usize) -> Result<(), AllocError>
    ensures { OnOk result (out.new.items ≡ out.old.items ++ new_words count) }
{
    if count == 0 {
        return out.extend_from_slice(b"nothing new");
    }
    push_long(out, count as u64)?;
    out.extend_from_slice(b" new")
}

/// Appends with how many firings a replica starts again, and how many it had before.
#[tactic(auto, using(crate::proofs::Texts::join4))]
fn push_again(out: &mut Vec<u8>, had: usize, has: usize) -> Result<(), AllocError>
    ensures { OnOk result (out.new.items ≡ out.old.items ++ again_words had has) }
{
    out.extend_from_slice(b"starts again, with ")?;
    push_long(out, has as u64)?;
    out.extend_from_slice(b" firings, had ")?;
    push_long(out, had as u64)?;
    Ok(())
}

/// Appends the words that stand on the node.
#[tactic(auto, unfolding(crate::specs::Words::words), using(crate::proofs::Texts::join2))]
fn push_words(out: &mut Vec<u8>, deed: &Deed) -> Result<(), AllocError>
    ensures { OnOk result (out.new.items ≡ out.old.items ++ words deed.now) }
{
    match deed {
        Deed::Fires(activity) => {
            out.extend_from_slice(b"fires ")?;
            push_short_name(out, activity)
        }
        Deed::Idles => out.extend_from_slice(b"fires nothing"),
        Deed::Asks(asked) => {
            out.extend_from_slice(b"asks ")?;
            push_long(out, u64::from(*asked))
        }
        Deed::Answers(_) => out.extend_from_slice(b"answers"),
        Deed::Takes(_, count) => {
            out.extend_from_slice(b"takes ")?;
            push_new(out, *count)
        }
        Deed::Merges(_, count) => {
            out.extend_from_slice(b"merges ")?;
            push_new(out, *count)
        }
        Deed::Saves => out.extend_from_slice(b"saves"),
        Deed::Restarts(had, has) => push_again(out, *had, *has),
    }
}

/// The words that stand on the node.
pub fn words(alloc: Global, deed: &Deed) -> Result<Vec<u8>, AllocError>
    ensures { IfOk result (λ v. v.items ≡ words deed.now) }
{
    let mut text = Vec::new(alloc);
    push_words(&mut text, deed)?;
    Ok(text)
}

/// The same with the whole name of the activity.
#[tactic(auto, unfolding(crate::specs::Words::full_words))]
pub fn full_words(alloc: Global, deed: &Deed) -> Result<Vec<u8>, AllocError>
    ensures { IfOk result (λ v. v.items ≡ full_words deed.now) }
{
    let mut text = Vec::new(alloc);
    match deed {
        Deed::Fires(activity) => {
            text.extend_from_slice(b"fires ")?;
            activity.write_text(&mut text)?;
        }
        _ => push_words(&mut text, deed)?,
    }
    Ok(text)
}
