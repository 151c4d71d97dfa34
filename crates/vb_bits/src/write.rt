//! Writes the lowest digits of a number as bits.
ghost use Rattle.std.specs.Prelude.{ℕ, ◌+◌, ◌*◌, ◌%◌, ◌^◌, ◌<◌, ◌≤◌, length};
ghost use Rattle.vb_bits.specs.Digits.{digits};
ghost use Rattle.vb_bits.specs.Writes.{Writes};

use crate::bytes::{byte_mask, word_at, write_four, write_two, write_word};
use crate::word::with_digits;

/// Writes the `count` lowest digits of `word` to the bits of `bytes` from bit `at` on, and leaves
/// every other bit of `bytes` unchanged. The caller must prove that the window is within one byte
/// and in bounds.
///
/// It reads that byte alone, and none if `count` is 0.
pub fn write_in_byte(bytes: &mut [u8], at: usize, count: usize, word: u64)
    requires in_byte { at % 8 + count ≤ 8 }
    requires inside { at + count ≤ 8 * length bytes.old }
    ensures { Writes bytes.old bytes.new at (digits word 0 count) }
{
    if count == 0 {
        return;
    }
    let from = at % 8;
    let mask = byte_mask(from, from + count);
    let byte = ((word << from) & 0xFF) as u8;
    bytes[at / 8] = (bytes[at / 8] & !mask) | (byte & mask);
}

/// Writes the `count` lowest digits of `word` into the word that starts at byte `first`, from its
/// digit `from` on.
#[inline(always)]
pub(crate) fn write_in_word(bytes: &mut [u8], first: usize, from: usize, count: usize, word: u64)
    requires some { 0 < count }
    requires in_word { from + count ≤ 64 }
    requires inside { first + 8 ≤ length bytes.old }
    ensures { Writes bytes.old bytes.new (8 * first + from) (digits word 0 count) }
{
    let old = word_at(bytes, first);
    write_word(bytes, first, with_digits(old, from, count, word));
}

/// Writes the lowest digits of `word` to all bits of `bytes`, which has at most eight bytes.
///
/// It writes two or more bytes by two stores of four or of two bytes each, which may overlap.
pub(crate) fn write_u64_le(bytes: &mut [u8], word: u64)
    requires { length bytes.old ≤ 8 }
    ensures { Writes bytes.old bytes.new 0 (digits word 0 (8 * length bytes.old)) }
{
    let n = bytes.len();
    if n >= 4 {
        write_four(bytes, 0, (word & 0xFFFF_FFFF) as u32);
        write_four(bytes, n - 4, ((word >> (8 * (n - 4))) & 0xFFFF_FFFF) as u32);
        return;
    }
    if n >= 2 {
        write_two(bytes, 0, (word & 0xFFFF) as u16);
        write_two(bytes, n - 2, ((word >> (8 * (n - 2))) & 0xFFFF) as u16);
        return;
    }
    if n == 1 {
        bytes[0] = (word & 0xFF) as u8;
    }
}
