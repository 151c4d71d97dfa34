//! 64 truth values as one word.
ghost use Rattle.std.specs.Prelude.{◌≡◌, length};
ghost use Rattle.std.specs.Simd.Lanes.{mask_l};
ghost use Rattle.vb_pack.specs.Digits.{digits};

use std::simd::prelude::*;

/// A way to pack 64 truth values into a word.
///
/// It is a type, so that each way has its own loops, which the compiler vectorizes.
pub(crate) trait Pack {
    /// Returns the word whose digit `i` is truth value `i`.
    fn pack(bools: &[bool; 64]) -> u64
        ensures { digits result 0 64 ≡ bools.now };
}

/// Packs by multiplication.
pub(crate) struct Multiply;

/// Packs by a comparison of vectors.
pub(crate) struct Lanes;

impl Pack for Multiply {
    fn pack(bools: &[bool; 64]) -> u64 {
        pack_bool_word_swar(bools)
    }
}

impl Pack for Lanes {
    fn pack(bools: &[bool; 64]) -> u64 {
        pack_bool_word_lanes(bools)
    }
}

/// Returns the word whose digit `i` is truth value `i`. It multiplies once for eight values.
#[inline]
pub fn pack_bool_word_swar(bools: &[bool; 64]) -> u64
    ensures { digits result 0 64 ≡ bools.now }
{
    let mut packed = 0u64;
    for k in 0..8 {
        packed |= u64::from(pack_byte(&bools[8 * k..8 * k + 8])) << (8 * k);
    }
    packed
}

/// Returns the word whose digit `i` is truth value `i`. It compares a vector of 64 bytes with 1;
/// the word is the bit mask of the result.
#[inline]
pub fn pack_bool_word_lanes(bools: &[bool; 64]) -> u64
    ensures { digits result 0 64 ≡ bools.now }
{
    pack_lanes(bools)
}

/// [`pack_bool_word_lanes`] of a slice of 64 values.
#[inline(always)]
pub(crate) fn pack_lanes(bools: &[bool]) -> u64
    requires { length bools.now ≡ 64 }
    ensures { digits result 0 64 ≡ bools.now }
{
    let mut bytes = [0u8; 64];
    for i in 0..64 {
        bytes[i] = u8::from(bools[i]);
    }
    u8x64::from_array(bytes)
        .simd_eq(u8x64::splat(1))
        .to_bitmask()
}

/// Returns eight truth values as one byte: a multiplication moves the lowest digit of byte `i` to
/// digit `56 + i`.
#[inline(always)]
fn pack_byte(eight: &[bool]) -> u8
    requires { length eight.now ≡ 8 }
    ensures { result ≡ mask_l eight.now }
{
    let word = u64::from_le_bytes([
        u8::from(eight[0]),
        u8::from(eight[1]),
        u8::from(eight[2]),
        u8::from(eight[3]),
        u8::from(eight[4]),
        u8::from(eight[5]),
        u8::from(eight[6]),
        u8::from(eight[7]),
    ]);
    (word.wrapping_mul(0x0102_0408_1020_4080) >> 56) as u8
}
