//! Reads up to 64 bits as one number.
ghost use Rattle.std.specs.Prelude.{◌≡◌, ◌+◌, ◌*◌, ◌^◌, ◌<◌, ◌≤◌, length};
ghost use Rattle.vb_bits.specs.Bits.{bits};
ghost use Rattle.vb_bits.specs.Digits.{digits};

use crate::bytes::{four_at, two_at, word_at};
use crate::word::low_digits;

/// Returns the bytes as one number: its lowest digits are those of the first byte, and its digits
/// past the last byte are 0. The caller must prove that there are at most eight bytes.
///
/// It reads two or more bytes by two loads of four or of two bytes each, which may overlap.
pub fn read_u64_le(bytes: &[u8]) -> u64
    requires { length bytes.now ≤ 8 }
    ensures { digits result 0 64 ≡ bits bytes.now 0 64 }
{
    let n = bytes.len();
    if n >= 4 {
        return u64::from(four_at(bytes, 0)) | u64::from(four_at(bytes, n - 4)) << (8 * (n - 4));
    }
    if n >= 2 {
        return u64::from(two_at(bytes, 0)) | u64::from(two_at(bytes, n - 2)) << (8 * (n - 2));
    }
    if n == 1 { u64::from(bytes[0]) } else { 0 }
}

/// Returns the window of `count` bits from bit `at` on as one number: its lowest digit is bit `at`,
/// and its digits from `count` on are 0. The caller must prove that `count` is at most 64 and that
/// the window is in bounds.
///
/// It reads at most nine bytes, with one load of eight if `bytes` has eight.
pub fn read_bits(bytes: &[u8], at: usize, count: usize) -> u64
    requires in_word { count ≤ 64 }
    requires inside { at + count ≤ 8 * length bytes.now }
    ensures digits { digits result 0 count ≡ bits bytes.now at count }
    ensures clear { result < 2 ^ count }
{
    low_digits(read_shifted(bytes, at, count), count)
}

/// [`read_bits`], except that the digits from `count` on are unspecified.
#[inline(always)]
pub(crate) fn read_shifted(bytes: &[u8], at: usize, count: usize) -> u64
    requires in_word { count ≤ 64 }
    requires inside { at + count ≤ 8 * length bytes.now }
    ensures { digits result 0 count ≡ bits bytes.now at count }
{
    if bytes.len() >= 8 {
        read_in_eight(bytes, at, count)
    } else {
        read_u64_le(&bytes[at / 8..]) >> (at % 8)
    }
}

/// [`read_shifted`] for at least eight bytes. It reads the word that starts at the first byte, and
/// the ninth byte if the bits reach it. If fewer than eight bytes are left, it reads the last word.
#[inline(always)]
pub(crate) fn read_in_eight(bytes: &[u8], at: usize, count: usize) -> u64
    requires in_word { count ≤ 64 }
    requires inside { at + count ≤ 8 * length bytes.now }
    requires eight { 8 ≤ length bytes.now }
    ensures { digits result 0 count ≡ bits bytes.now at count }
{
    let first = at / 8;
    let shift = at % 8;
    let left = bytes.len() - first;
    if left < 8 {
        return word_at(bytes, bytes.len() - 8) >> (8 * (7 - left)) >> (8 + shift);
    }
    let low = word_at(bytes, first) >> shift;
    if shift + count > 64 {
        low | u64::from(bytes[first + 8]) << (64 - shift)
    } else {
        low
    }
}

/// [`read_shifted`] of at most eight bits, from one byte or from two.
#[inline(always)]
pub(crate) fn read_few(bytes: &[u8], at: usize, count: usize) -> u64
    requires some { 0 < count }
    requires few { count ≤ 8 }
    requires inside { at + count ≤ 8 * length bytes.now }
    ensures { digits result 0 count ≡ bits bytes.now at count }
{
    let first = at / 8;
    let shift = at % 8;
    let low = u64::from(bytes[first]) >> shift;
    if shift + count > 8 {
        low | u64::from(bytes[first + 1]) << (8 - shift)
    } else {
        low
    }
}

/// Does [`read_bits`], with the fewest steps for 64 bits and for at most eight. It is for windows
/// that a call reads once; a loop over words has one path for all.
#[inline(always)]
pub fn read_short(bytes: &[u8], at: usize, count: usize) -> u64
    requires in_word { count ≤ 64 }
    requires inside { at + count ≤ 8 * length bytes.now }
    ensures digits { digits result 0 count ≡ bits bytes.now at count }
    ensures clear { result < 2 ^ count }
{
    low_digits(read_loose(bytes, at, count), count)
}

/// Does [`read_short`], except that the digits from `count` on are unspecified.
#[inline(always)]
pub(crate) fn read_loose(bytes: &[u8], at: usize, count: usize) -> u64
    requires in_word { count ≤ 64 }
    requires inside { at + count ≤ 8 * length bytes.now }
    ensures { digits result 0 count ≡ bits bytes.now at count }
{
    let (first, shift) = (at / 8, at % 8);
    if count == 64 {
        full_word(bytes, first, shift)
    } else if count <= 8 && count > 0 {
        read_few(bytes, at, count)
    } else {
        read_shifted(bytes, at, count)
    }
}

/// Returns the window of `count` bits from bit `at` on as one number, as [`read_bits`] does, and
/// reads 64 bits by [`full_word`]. The caller must prove that `count` is at most 64 and that the
/// window is in bounds.
#[inline(always)]
pub fn read_word(bytes: &[u8], at: usize, count: usize) -> u64
    requires in_word { count ≤ 64 }
    requires inside { at + count ≤ 8 * length bytes.now }
    ensures digits { digits result 0 count ≡ bits bytes.now at count }
    ensures clear { result < 2 ^ count }
{
    if count == 64 {
        full_word(bytes, at / 8, at % 8)
    } else {
        read_bits(bytes, at, count)
    }
}

/// Returns the 64 bits from bit `shift` of byte `first` on as one number. The caller must prove
/// that `shift` is below 8 and that the bits are in bounds.
#[inline(always)]
pub fn full_word(bytes: &[u8], first: usize, shift: usize) -> u64
    requires in_byte { shift < 8 }
    requires inside { 8 * first + shift + 64 ≤ 8 * length bytes.now }
    ensures { digits result 0 64 ≡ bits bytes.now (8 * first + shift) 64 }
{
    if shift == 0 {
        word_at(bytes, first)
    } else {
        shifted_word(bytes, first, shift)
    }
}

/// [`full_word`] of bits that start within a byte: the digits of eight bytes, and the missing ones
/// from the eight bytes that start one byte later.
#[inline(always)]
pub(crate) fn shifted_word(bytes: &[u8], first: usize, shift: usize) -> u64
    requires part { 0 < shift }
    requires in_byte { shift < 8 }
    requires inside { first + 9 ≤ length bytes.now }
    ensures { digits result 0 64 ≡ bits bytes.now (8 * first + shift) 64 }
{
    word_at(bytes, first) >> shift | word_at(bytes, first + 1) << (8 - shift)
}
