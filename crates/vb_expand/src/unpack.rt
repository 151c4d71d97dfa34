//! The bits of a window, written as bytes.
ghost use Rattle.std.specs.Int.{from_bool};
ghost use Rattle.std.specs.Prelude.{◌≡◌, ◌≤◌, ◌++◌, drop, length, map};
ghost use Rattle.vb_bits.specs.Bits.{bits};
ghost use Rattle.vb_bits.specs.Digits.{digits};
ghost use Rattle.vb_bits.specs.InBytes.{InBytes};

use std::simd::prelude::*;
use vb_bits::{full_word, read_bits};

/// For each of the 16 lowest bits of a word, the index of the byte that has it.
const BYTES: [u8; 16] = [0, 0, 0, 0, 0, 0, 0, 0, 1, 1, 1, 1, 1, 1, 1, 1];

/// The value of each of these bits in its byte.
const POWERS: [u8; 16] = [1, 2, 4, 8, 16, 32, 64, 128, 1, 2, 4, 8, 16, 32, 64, 128];

/// Writes each of the `len` bits of `bytes` from bit `offset` on as a byte, 1 if it is set and 0
/// else, to the front of `out`. The bytes of `out` after them are unchanged.
///
/// The window must be in the bytes, and `out` must have a byte for each bit. Processes 64 bits at a
/// time, by vectors.
pub fn unpack_bytes(out: &mut [u8], bytes: &[u8], offset: usize, len: usize)
    requires room { len ≤ length out.old }
    requires window { InBytes bytes.now offset len }
    ensures { out.new ≡ map from_bool (bits bytes.now offset len) ++ drop len out.old }
{
    let whole = len / 64;
    for t in 0..whole {
        let word = full_word(bytes, (offset + 64 * t) / 8, (offset + 64 * t) % 8);
        unpack_word(&mut out[64 * t..64 * t + 64], word);
    }
    let rest = len % 64;
    let mut last = [0u8; 64];
    unpack_word(&mut last, read_bits(bytes, offset + 64 * whole, rest));
    out[64 * whole..len].copy_from_slice(&last[..rest]);
}

/// Sets each of 64 bytes to the bit of the word at its index.
#[inline(always)]
fn unpack_word(out: &mut [u8], word: u64)
    requires { length out.old ≡ 64 }
    ensures { out.new ≡ map from_bool (digits word 0 64) }
{
    for k in 0..4 {
        lowest_sixteen(word >> (16 * k)).copy_to_slice(&mut out[16 * k..16 * k + 16]);
    }
}

/// Returns the 16 lowest bits of a word as bytes: copies to each lane the byte that has its bit,
/// and keeps that bit alone.
#[inline(always)]
fn lowest_sixteen(word: u64) -> u8x16
    ensures { result ≡ map from_bool (digits word 0 16) }
{
    let bytes = u64x2::splat(word)
        .to_le_bytes()
        .swizzle_dyn(u8x16::from_array(BYTES));
    (bytes & u8x16::from_array(POWERS)).simd_min(u8x16::splat(1))
}
