//! The names of nodes and clusters. No two things of a checked program have the same name, since no
//! block's name has a dot or a space.
ghost use Rattle.std.specs.Prelude.{◌≡◌, IfOk};
ghost use Rattle.u_pictures.specs.ProgramNames.{statement_name, point_name, block_cluster, loop_cluster};

use std::alloc::{AllocError, Global};
use u_base::push_long;
use u_program::{Destination, push_list};

/// The name of a statement's node: `BLOCK.NUMBER`.
#[tactic(auto, using(crate::proofs::Texts::join2))]
pub fn statement_name(alloc: Global, block: &[u8], number: u64) -> Result<Vec<u8>, AllocError>
    ensures { IfOk result (λ v. v.items ≡ statement_name block.now number) }
{
    let mut name = Vec::new(alloc);
    name.extend_from_slice(block)?;
    name.push(b'.')?;
    push_long(&mut name, number)?;
    Ok(name)
}

/// The name of the point of a list: the block's name, and behind it the list.
pub fn point_name(alloc: Global, block: &[u8], to: &[Destination]) -> Result<Vec<u8>, AllocError>
    ensures { IfOk result (λ v. v.items ≡ point_name block.now to.now) }
{
    let mut name = Vec::new(alloc);
    name.extend_from_slice(block)?;
    push_list(&mut name, to)?;
    Ok(name)
}

/// The name of a block's cluster: `cluster_BLOCK`.
pub fn block_cluster(alloc: Global, block: &[u8]) -> Result<Vec<u8>, AllocError>
    ensures { IfOk result (λ v. v.items ≡ block_cluster block.now) }
{
    let mut name = Vec::new(alloc);
    name.extend_from_slice(b"cluster_")?;
    name.extend_from_slice(block)?;
    Ok(name)
}

/// The name of a loop's cluster: `cluster_BLOCK.LNUMBER`.
#[tactic(auto, using(crate::proofs::Texts::join2))]
pub fn loop_cluster(alloc: Global, block: &[u8], number: usize) -> Result<Vec<u8>, AllocError>
    ensures { IfOk result (λ v. v.items ≡ loop_cluster block.now number) }
{
    let mut name = block_cluster(alloc, block)?;
    name.extend_from_slice(b".L")?;
    push_long(&mut name, number as u64)?;
    Ok(name)
}
