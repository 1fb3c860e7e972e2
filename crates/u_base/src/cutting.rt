//! Bytes cut at a byte.
ghost use Rattle.std.specs.Prelude.{◌≡◌, ◌≤◌, ◌<◌, [], length, MatchOption};
ghost use Rattle.u_base.specs.Pieces.{pieces, IsCutInto};

/// The bytes before the first `byte`, and those behind it.
#[tactic(auto, using(crate::proofs::PiecesLaws::cut_here, crate::proofs::PiecesLaws::cut_nowhere, crate::proofs::PiecesLaws::free_step, crate::proofs::PiecesLaws::drop_step))]
pub fn cut(bytes: &[u8], byte: u8) -> Option<(&[u8], &[u8])>
    ensures cut { MatchOption result
        (pieces byte bytes.now ≡ ([], bytes.now))
        (λ p. IsCutInto byte bytes.now p.0.now p.1.now) }
    ensures shorter { MatchOption result (0 ≤ 0) (λ p. length p.1.now < length bytes.now) }
{
    let mut len = 0;
    let mut rest = bytes;
    while let Some((first, others)) = rest.split_first() {
        if *first == byte {
            return Some((&bytes[..len], others));
        }
        len += 1;
        rest = others;
    }
    None
}
