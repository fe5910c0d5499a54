// Numbers of two bytes, low byte first.
ghost use Rattle.std.specs.Prelude.{◌≡◌};
ghost use Rattle.cards.specs.Words.{word_at, words_bytes};
ghost use Rattle.cards.specs.Written.{filled};

use crate::kind::WrongWidth;

// The number whose low byte stands at a place; bytes past the end count as 0.
pub fn word_at(bytes: &[u8], at: usize) -> u16
    ensures { result ≡ word_at bytes.now at }
{
    match bytes.get(at..) {
        Some([low, high, ..]) => u16::from_le_bytes([*low, *high]),
        Some([low]) => u16::from(*low),
        _ => 0,
    }
}

// Writes numbers over the whole of `out`, one behind the other, if it is twice as long.
#[tactic(auto, using(crate::proofs::Puts::put_again, crate::proofs::Puts::two_bytes, crate::proofs::Puts::length_words_bytes))]
pub fn put_words(out: &mut [u8], words: &[u16]) -> Result<(), WrongWidth>
    ensures { (result, out.new) ≡ filled (words_bytes words.now) out.old }
{
    if out.len() != 2 * words.len() {
        return Err(WrongWidth);
    }
    // By ranges: of `chunks_exact_mut` the check does not know what it leaves in `out`.
    for (i, word) in words.iter().enumerate() {
        out[2 * i..2 * i + 2].copy_from_slice(&word.to_le_bytes());
    }
    Ok(())
}
