//! Four words at once, as an explicit vector, since not every compiler vectorizes loops.
ghost use Rattle.std.specs.Prelude.{◌≡◌, ◌+◌, ◌*◌, ◌^◌, ◌<◌, ◌≤◌, length};
ghost use Rattle.std.specs.Simd.Lanes.{Each1};
ghost use Rattle.vb_bits.specs.Bits.{bits};
ghost use Rattle.vb_bits.specs.Digits.{lane_bits};
ghost use Rattle.vb_bits.specs.Writes.{Writes};

use std::simd::prelude::*;

/// Returns the four words from byte `at` on, least significant byte first, by one vector load. The
/// caller must prove that their 32 bytes are in bounds.
#[inline(always)]
pub fn words_at(bytes: &[u8], at: usize) -> u64x4
    requires { at + 32 ≤ length bytes.now }
    ensures len { length result ≡ 4 }
    ensures words { Each1 (λ x. x < 2 ^ 64) result }
    ensures digits { lane_bits result ≡ bits bytes.now (8 * at) 256 }
{
    words_of(&bytes[at..at + 32])
}

/// Returns 32 bytes as four words. They are a slice, since a proof knows that a slice's bytes are
/// below 256, but not that an array's are.
#[inline(always)]
fn words_of(bytes: &[u8]) -> u64x4
    requires { length bytes.now ≡ 32 }
    ensures len { length result ≡ 4 }
    ensures words { Each1 (λ x. x < 2 ^ 64) result }
    ensures digits { lane_bits result ≡ bits bytes.now 0 256 }
{
    u64x4::from_le_bytes(u8x32::from_slice(bytes))
}

/// Returns the four words from bit `shift` of byte `first` on. It loads the 32 bytes from `first`
/// on, and the 32 bytes that start one byte later for each word's missing high digits. The caller
/// must prove that `shift` is 1 to 7 and that 33 bytes are in bounds.
#[inline(always)]
pub fn shifted_words(bytes: &[u8], first: usize, shift: usize) -> u64x4
    requires part { 0 < shift }
    requires in_byte { shift < 8 }
    requires inside { first + 33 ≤ length bytes.now }
    ensures len { length result ≡ 4 }
    ensures digits { lane_bits result ≡ bits bytes.now (8 * first + shift) 256 }
{
    let low = words_at(bytes, first) >> u64x4::splat(shift as u64);
    let high = words_at(bytes, first + 1) << u64x4::splat(8 - shift as u64);
    low | high
}

/// Writes four words into the 32 bytes from `at` on.
///
/// It stores the vector into the slice directly, since a call would copy the bytes of an array.
#[inline(always)]
pub(crate) fn write_words(bytes: &mut [u8], at: usize, words: u64x4)
    requires inside { at + 32 ≤ length bytes.old }
    requires len { length words ≡ 4 }
    ensures { Writes bytes.old bytes.new (8 * at) (lane_bits words) }
{
    let lanes = words.to_le_bytes();
    lanes.copy_to_slice(&mut bytes[at..at + 32]);
}
