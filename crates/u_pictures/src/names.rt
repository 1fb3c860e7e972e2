//! The names of nodes and clusters.
ghost use Rattle.std.specs.Prelude.{◌≡◌, IfOk};
ghost use Rattle.u_rule.specs.FiringText.{firing_text};
ghost use Rattle.u_pictures.specs.Names.{entry_name, context_cluster, turn_cluster};

use std::alloc::{AllocError, Global};
use u_base::push_long_behind;
use u_name::Context;
use u_rule::{Entry, Firing};

/// The name of an entry's node: of a write the cell's text, of any other entry its own.
#[tactic(auto, unfolding(crate::specs::Names::entry_name))]
pub fn entry_name(alloc: Global, entry: &Entry) -> Result<Vec<u8>, AllocError>
    ensures { IfOk result (λ v. v.items ≡ entry_name entry.now) }
{
    let mut name = Vec::new(alloc);
    match entry {
        Entry::Write(write) => write.cell.write_text(&mut name)?,
        _ => entry.write_text(&mut name)?,
    }
    Ok(name)
}

/// The name of a firing's node, which is its text.
pub fn firing_name(alloc: Global, firing: &Firing) -> Result<Vec<u8>, AllocError>
    ensures { IfOk result (λ v. v.items ≡ firing_text firing.now) }
{
    let mut name = Vec::new(alloc);
    firing.write_text(&mut name)?;
    Ok(name)
}

/// The name of a context's cluster: `cluster_CONTEXT`.
pub fn context_cluster(alloc: Global, context: &Context) -> Result<Vec<u8>, AllocError>
    ensures { IfOk result (λ v. v.items ≡ context_cluster context.now) }
{
    let mut name = Vec::new(alloc);
    name.extend_from_slice(b"cluster_")?;
    context.write_text(&mut name)?;
    Ok(name)
}

/// The name of the cluster of a turn: `cluster_CONTEXT.INITIATION`.
pub fn turn_cluster(alloc: Global, context: &Context, turn: u64) -> Result<Vec<u8>, AllocError>
    ensures { IfOk result (λ v. v.items ≡ turn_cluster context.now turn) }
{
    let mut name = context_cluster(alloc, context)?;
    push_long_behind(&mut name, b'.', turn)?;
    Ok(name)
}
