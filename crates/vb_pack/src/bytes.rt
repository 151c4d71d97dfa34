//! Packs truth values into bits of bytes.
ghost use Rattle.std.specs.Prelude.{◌≡◌, ◌+◌, ◌*◌, ◌≤◌, ◌==◌, not, length, map};
ghost use Rattle.vb_pack.specs.Asked.{Answers, CanAsk, span};
ghost use Rattle.vb_pack.specs.Bits.{bits};
ghost use Rattle.vb_pack.specs.Digits.{digits};
ghost use Rattle.vb_pack.specs.WordBits.{filled_to};
ghost use Rattle.vb_pack.specs.Writes.{Writes};

use crate::collect::{collect_full, collect_part};
use crate::pack::Lanes;
use crate::truths::pack_values;

/// Calls `f` with each number below `len`, in ascending order, and packs the results into the first
/// bytes of `bytes`, eight per byte, least significant bit first. Clears the bits after them in the
/// last byte that it writes; later bytes are unchanged. The caller must prove that `bytes` has at
/// least `len` bits and that `f` can be called with these numbers.
///
/// It packs full words of 64 results by vectors of bytes, and the rest bit by bit.
pub fn collect_bool_bytes<F: FnMut(usize) -> bool>(bytes: &mut [u8], len: usize, f: &mut F)
    requires room { len ≤ 8 * length bytes.old }
    requires callable { CanAsk (F.pre) (F.step) f.old (span 0 len) }
    ensures answered { Answers (F.step) f.old (span 0 len) (bits bytes.new 0 len) f.new }
    ensures written { Writes bytes.old bytes.new 0 (filled_to 8 (bits bytes.new 0 len)) }
{
    let full = len / 64;
    for k in 0..full {
        let word = collect_full::<Lanes, F>(64 * k, f);
        write_front(bytes, 8 * k, 8, word);
    }
    let rest = len % 64;
    let last = collect_part(64 * full, rest, f);
    write_front(bytes, 8 * full, rest.div_ceil(8), last);
}

/// Packs the values of `bools` into the first bytes of `bytes`, eight per byte, least significant
/// bit first. Clears the bits after them in the last byte that it writes; later bytes are
/// unchanged. The caller must prove that `bytes` has at least `bools.len()` bits.
///
/// If there are at least 64 values, it packs all of them by words, else bit by bit.
pub fn pack_bools(bytes: &mut [u8], bools: &[bool])
    requires { length bools.now ≤ 8 * length bytes.old }
    ensures packed { bits bytes.new 0 (length bools.now) ≡ bools.now }
    ensures written { Writes bytes.old bytes.new 0 (filled_to 8 (bools.now)) }
{
    pack_values(bytes, bools);
}

/// Packs one bit for each byte of `truthy`, true if the byte isn't 0, into the first bytes of
/// `bytes`, eight per byte, least significant bit first. Clears the bits after them in the last
/// byte that it writes; later bytes are unchanged. The caller must prove that `bytes` has at least
/// `truthy.len()` bits.
///
/// If there are at least 64 bytes, it packs all of them by words, else bit by bit.
pub fn pack_truthy(bytes: &mut [u8], truthy: &[u8])
    requires { length truthy.now ≤ 8 * length bytes.old }
    ensures packed { bits bytes.new 0 (length truthy.now) ≡ map (λ x. not (x == 0)) truthy.now }
    ensures written { Writes bytes.old bytes.new 0
        (filled_to 8 (map (λ x. not (x == 0)) truthy.now)) }
{
    pack_values(bytes, truthy);
}

/// Writes the `n` lowest bytes of `word`, least significant first, to the bytes from index `at` on.
#[inline(always)]
pub(crate) fn write_front(bytes: &mut [u8], at: usize, n: usize, word: u64)
    requires in_word { n ≤ 8 }
    requires inside { at + n ≤ length bytes.old }
    ensures { Writes bytes.old bytes.new (8 * at) (digits word 0 (8 * n)) }
{
    bytes[at..at + n].copy_from_slice(&word.to_le_bytes()[..n]);
}
