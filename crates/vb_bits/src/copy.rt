//! Copies of windows, and of the digits of a word.
ghost use Rattle.std.specs.Prelude.{◌≤◌};
ghost use Rattle.vb_bits.specs.Bits.{bits};
ghost use Rattle.vb_bits.specs.Digits.{digits};
ghost use Rattle.vb_bits.specs.InBytes.{InBytes};
ghost use Rattle.vb_bits.specs.Writes.{Writes};

use crate::few::merge_digits;
use crate::merge::merge_bits;
use crate::operator::Right;

/// Copies the `len` bits of `src` from bit `s` on to the bits of `dst` from bit `d` on, and leaves
/// every other bit of `dst` unchanged. The caller must prove that both windows are in bounds, and
/// that `d + len` and `s + len` fit in a `usize`.
///
/// It processes words of 64 bits, four at a time, at any two offsets.
pub fn copy_bits(dst: &mut [u8], d: usize, src: &[u8], s: usize, len: usize)
    requires into { InBytes dst.old d len }
    requires from { InBytes src.now s len }
    ensures { Writes dst.old dst.new d (bits src.now s len) }
{
    merge_bits::<Right>(dst, d, src, s, len);
}

/// Writes the `count` lowest digits of `word` to the bits of `dst` from bit `at` on, and leaves
/// every other bit of `dst` unchanged. The caller must prove that `count` is at most 64, that the
/// window is in bounds, and that `at + count` fits in a `usize`.
///
/// It writes one word under a mask, and the bits in a ninth byte.
pub fn write_digits(dst: &mut [u8], at: usize, count: usize, word: u64)
    requires in_word { count ≤ 64 }
    requires into { InBytes dst.old at count }
    ensures { Writes dst.old dst.new at (digits word 0 count) }
{
    if count > 0 {
        merge_digits::<Right>(dst, at, count, word);
    }
}
