//! Names of blocks, held in place.
ghost use Rattle.std.specs.Prelude.{◌≡◌, ◌≤◌, ◌<◌, ◌↔◌, MatchOption, IsTrue, ◌==◌, List, ℕ, false};
ghost use Rattle.std.proofs.Common.{rules};
ghost use Rattle.std.specs.Cmp.Lexicographic.{slice_cmp};
ghost use Rattle.std.specs.Cmp.{partial_order_from_own_ties};
ghost use Rattle.std.specs.Cmp.Rules.{comparing, hashing};
ghost use Rattle.std.specs.Ordering.{nat_cmp, as_partial_cmp};
ghost use Rattle.std.specs.Hash as fed;
ghost use Rattle.std.proofs.lemmas.Cmp.{nat_list_cmp_total, nat_list_eq_equiv};
ghost use Rattle.u_name.specs.Block.{IsBlock};
ghost use Rattle.u_name.specs.Words.{high_word, low_word};
ghost use lib.Pointwise.{pointwise};

use crate::block_text::{begins_with_letter, block_len};
use std::alloc::AllocError;
use std::cmp::Ordering;
use std::hash::{Hash, Hasher};
use std::marker::Model;

/// The name of a block: 1 to 16 bytes of `a-z`, `0-9` and `_`, the first a letter. Names are ordered
/// by their bytes.
#[derive(Drop)]
pub struct BlockName {
    bytes: [u8; 16],
    len: u8,
}

impl Model for BlockName {
    ghost use Rattle.std.specs.Prelude.{List, ℕ};

    ghost Value = { List ℕ };

    ghost use Rattle.u_name.specs.Block.{name_of, LiesWell, laid_out};
    ghost use Rattle.u_name.specs.BlockLaws.{laid_out-name_of};

    ghost view = { name_of };

    ghost invariant = { LiesWell };

    ghost inverse = { laid_out };

    ghost inverse_ok = { laid_out-name_of };
}

impl Clone for BlockName {
    fn clone(&self) -> Result<BlockName, AllocError> {
        Ok(*self)
    }
}

impl Copy for BlockName {}

impl BlockName {
    /// The block's name with these bytes.
    #[tactic(auto, using(crate::proofs::LaidOut::lies_well))]
    pub fn new(name: &[u8]) -> BlockName
        requires { IsBlock name.now }
        ensures { result ≡ name.now }
    {
        let mut bytes = [0; 16];
        bytes[..name.len()].copy_from_slice(name);
        BlockName {
            bytes,
            len: name.len() as u8,
        }
    }

    /// The block's name where the bytes are one.
    #[tactic(auto, using(crate::proofs::Spans::whole_block, crate::proofs::Spans::block_begins, crate::proofs::Spans::block_spans))]
    pub fn read(bytes: &[u8]) -> Option<BlockName>
        ensures { MatchOption result (¬ IsBlock bytes.now)
            (λ name. IsBlock bytes.now × (name ≡ bytes.now)) }
    {
        if begins_with_letter(bytes) && block_len(bytes) == bytes.len() {
            Some(BlockName::new(bytes))
        } else {
            None
        }
    }

    /// The bytes of the name.
    pub fn as_bytes(&self) -> &[u8]
        ensures value { result.now ≡ self.now }
        ensures block { IsBlock self.now }
    {
        &self.bytes[..self.len as usize]
    }

    /// The name as two numbers, that of its first eight bytes and that of its last eight, the first byte
    /// being the highest. Bytes that it does not have count as 0.
    pub(crate) fn words(&self) -> (u64, u64)
        ensures { result ≡ (high_word self.now, low_word self.now) }
    {
        let number = u128::from_be_bytes(self.bytes);
        ((number >> 64) as u64, (number % TWO_TO_64) as u64)
    }
}

/// The least number that has more than 64 bits.
const TWO_TO_64: u128 = 1 << 64;

/// Whether they are the same bytes. Sixteen bytes are compared as one number.
fn same_bytes(left: &[u8; 16], right: &[u8; 16]) -> bool
    ensures { IsTrue result ↔ (left.now ≡ right.now) }
{
    u128::from_be_bytes(*left) == u128::from_be_bytes(*right)
}

impl PartialEq for BlockName {
    ghost eq = { pointwise ◌==◌ };

    ghost laws = { Prim.search (comparing, rules) };

    /// Equal names have the same length and the same zeros behind them, so that no byte is looked at alone.
    fn eq(&self, other: &BlockName) -> bool {
        if self.len != other.len {
            return false;
        }
        same_bytes(&self.bytes, &other.bytes)
    }
}

impl Eq for BlockName {
    ghost laws = { Prim.search (comparing, rules) };
}

impl Ord for BlockName {
    ghost cmp = { slice_cmp nat_cmp };

    ghost total = { Prim.search (comparing, rules) };

    ghost matches_partial_cmp = { Prim.search (comparing, rules) };

    ghost matches_eq = { Prim.search (comparing, rules) };

    fn cmp(&self, other: &BlockName) -> Ordering {
        if self.len == other.len && same_bytes(&self.bytes, &other.bytes) {
            return Ordering::Equal;
        }
        self.as_bytes().cmp(other.as_bytes())
    }
}

impl PartialOrd for BlockName {
    ghost partial_cmp = { as_partial_cmp (slice_cmp nat_cmp) };

    ghost laws = { partial_order_from_own_ties (Prim.search (comparing, rules)) (Prim.search (comparing, rules)) };

    fn partial_cmp(&self, other: &BlockName) -> Option<Ordering> {
        Some(self.cmp(other))
    }
}

impl Hash for BlockName {
    ghost hash_input = { λ a. fed.slice fed.u8 a };

    ghost respects_eq = { Prim.search (hashing, rules) };

    fn hash<H: Hasher>(&self, state: &mut H) {
        self.as_bytes().hash(state);
    }
}
