//! The name of a block at the front of some bytes.
ghost use Rattle.std.specs.Prelude.{◌≡◌, ◌≤◌, length};
ghost use Rattle.u_name.specs.Block.{is_block_byte};
ghost use Rattle.u_name.specs.BlockText.{block_span, begins_with_letter};

/// How many bytes of a block's name stand at the front, 16 at most.
#[tactic(auto, using(crate::proofs::Spans::span_step, crate::proofs::Spans::span_stop, crate::proofs::Spans::span_full, crate::proofs::Spans::span_nil))]
pub fn block_len(bytes: &[u8]) -> usize
    ensures value { result ≡ block_span 16 bytes.now }
    ensures inside { result ≤ length bytes.now }
    ensures small { result ≤ 16 }
{
    let mut len = 0;
    let mut rest = bytes;
    while let Some((byte, others)) = rest.split_first() {
        if len == 16 || !is_block_byte(*byte) {
            break;
        }
        len += 1;
        rest = others;
    }
    len
}

fn is_block_byte(byte: u8) -> bool
    ensures { result ≡ is_block_byte byte }
{
    matches!(byte, b'a'..=b'z' | b'0'..=b'9' | b'_')
}

/// Whether a letter stands at the front.
pub fn begins_with_letter(bytes: &[u8]) -> bool
    ensures { result ≡ begins_with_letter bytes.now }
{
    match bytes.split_first() {
        Some((first, _)) => matches!(*first, b'a'..=b'z'),
        None => false,
    }
}
