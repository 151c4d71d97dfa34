// Written in part by tools/write-lists from tools/families/bytes.txt.
//! Reads and writes of several bytes of a slice at once, and masks of one byte.
ghost use Rattle.std.specs.Prelude.{◌≡◌, ◌+◌, ◌-◌, ◌*◌, ◌^◌, ◌≤◌, length, slice_range};
ghost use Rattle.std.specs.Int.{w16, w32, w64, to_le_bytes};
ghost use Rattle.vb_bits.specs.Digits.{digits};
ghost use Rattle.vb_bits.specs.Writes.{Writes};

use std::simd::prelude::*;

/// Returns the 64 bytes from index `at` on, by one vector load. The caller must prove that they are
/// in bounds.
pub fn chunk_at(bytes: &[u8], at: usize) -> [u8; 64]
    requires { at + 64 ≤ length bytes.now }
    ensures { result ≡ slice_range bytes.now at (at + 64) }
{
    u8x64::from_slice(&bytes[at..at + 64]).to_array()
}

/// Returns the eight bytes from index `at` on as a number, least significant byte first. The caller
/// must prove that they are in bounds.
///
/// It loads a vector of eight bytes, since turning a slice into an array would leave a length test.
pub fn word_at(bytes: &[u8], at: usize) -> u64
    requires { at + 8 ≤ length bytes.now }
    ensures { to_le_bytes w64 result ≡ slice_range bytes.now at (at + 8) }
{
    u64::from_le_bytes(u8x8::from_slice(&bytes[at..at + 8]).to_array())
}

/// Returns the four bytes from index `at` on as a number, least significant byte first.
#[inline(always)]
pub(crate) fn four_at(bytes: &[u8], at: usize) -> u32
    requires { at + 4 ≤ length bytes.now }
    ensures { to_le_bytes w32 result ≡ slice_range bytes.now at (at + 4) }
{
    u32::from_le_bytes(u8x4::from_slice(&bytes[at..at + 4]).to_array())
}

/// Returns the two bytes from index `at` on as a number, least significant byte first.
#[inline(always)]
pub(crate) fn two_at(bytes: &[u8], at: usize) -> u16
    requires { at + 2 ≤ length bytes.now }
    ensures { to_le_bytes w16 result ≡ slice_range bytes.now at (at + 2) }
{
    u16::from_le_bytes(u8x2::from_slice(&bytes[at..at + 2]).to_array())
}

/// Writes `word` into the eight bytes from index `at` on, least significant byte first. The caller
/// must prove that they are in bounds.
///
/// It stores a vector: for an array, the toolchain's own compiler would emit a copy that first
/// tests whether source and target overlap.
pub fn write_word(bytes: &mut [u8], at: usize, word: u64)
    requires { at + 8 ≤ length bytes.old }
    ensures { Writes bytes.old bytes.new (8 * at) (digits word 0 64) }
{
    u8x8::from_array(word.to_le_bytes()).copy_to_slice(&mut bytes[at..at + 8]);
}

/// Writes `word` into the four bytes from index `at` on, least significant byte first.
#[inline(always)]
pub(crate) fn write_four(bytes: &mut [u8], at: usize, word: u32)
    requires { at + 4 ≤ length bytes.old }
    ensures { Writes bytes.old bytes.new (8 * at) (digits word 0 32) }
{
    u8x4::from_array(word.to_le_bytes()).copy_to_slice(&mut bytes[at..at + 4]);
}

/// Writes `word` into the two bytes from index `at` on, least significant byte first.
#[inline(always)]
pub(crate) fn write_two(bytes: &mut [u8], at: usize, word: u16)
    requires { at + 2 ≤ length bytes.old }
    ensures { Writes bytes.old bytes.new (8 * at) (digits word 0 16) }
{
    u8x2::from_array(word.to_le_bytes()).copy_to_slice(&mut bytes[at..at + 2]);
}

/// Returns a byte with ones in the digits `from..to`.
pub(crate) fn byte_mask(from: usize, to: usize) -> u8
    requires ordered { from ≤ to }
    requires in_byte { to ≤ 8 }
    ensures { result ≡ 2 ^ to - 2 ^ from }
{
    ((1u16 << to) - (1u16 << from)) as u8
}
