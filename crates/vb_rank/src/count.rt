//! Counts within a block.
ghost use Rattle.std.specs.Prelude.{◌≡◌, ◌+◌, ◌-◌, ◌*◌, ◌^◌, ◌<◌, ◌≤◌, length, min};
ghost use Rattle.vb_bits.specs.Bits.{bits, count};
ghost use Rattle.vb_bits.specs.Digits.{digits};
ghost use Rattle.vb_bits.specs.InBytes.{InBytes};
ghost use Rattle.vb_count.specs.Looks.{LooksAtMost};

use crate::front_mask::front_mask;
use vb_bits::full_word;
use vb_count::{Glance, count_ones_by};

/// Returns the number of set bits among the `len` bits from bit `at` on, at most 512.
///
/// Loads one chunk of 64 bytes, and counts the bits in it without a branch that depends on their
/// number. If the bytes end within that chunk, or the bits reach beyond it, calls
/// [`count_ones_by`]. Makes at most 16 looks.
pub(crate) fn count_in_block<G: Glance>(src: &mut G, at: usize, len: usize) -> usize
    requires window { InBytes (G.seen src.old).bytes at len }
    requires block { len ≤ 512 }
    ensures value { result ≡ count (bits (G.seen src.old).bytes at len) }
    ensures looks { LooksAtMost 16 (G.seen src.old) (G.seen src.new) }
{
    let (first, skip) = (at / 8, at % 8);
    if src.size() < first + 64 || 512 < skip + len {
        return count_ones_by(src, at, len);
    }
    let chunk = src.chunk(first);
    front_ones(&chunk, skip + len) - front_ones_of_word(&chunk, 0, skip)
}

/// Returns the number of set bits among the first `n` bits of the chunk.
fn front_ones(chunk: &[u8; 64], n: usize) -> usize
    requires { n ≤ 512 }
    ensures { result ≡ count (bits chunk.now 0 n) }
{
    let mut ones = 0;
    for word in 0..8 {
        ones += front_ones_of_word(chunk, word, n);
    }
    ones
}

/// Returns the number of set bits in word `word` of the chunk that are among its first `n` bits.
fn front_ones_of_word(chunk: &[u8; 64], word: usize, n: usize) -> usize
    requires inside { word < 8 }
    requires block { n ≤ 512 }
    ensures { result ≡ count (bits chunk.now (64 * word) (min (n - 64 * word) 64)) }
{
    (full_word(chunk, 8 * word, 0) & front_mask(word, n)).count_ones() as usize
}
