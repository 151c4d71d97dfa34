//! Negation of windows.
ghost use Rattle.std.specs.Prelude.{ℕ, ◌+◌, ◌-◌, ◌*◌, ◌%◌, ◌^◌, ◌<◌, ◌≤◌, length};
ghost use Rattle.vb_bits.specs.Bits.{bits, complement};
ghost use Rattle.vb_bits.specs.InBytes.{InBytes};
ghost use Rattle.vb_bits.specs.Writes.{Writes};

use crate::bytes::{byte_mask, word_at, write_word};
use crate::lanes::{words_at, write_words};
use std::simd::prelude::*;

/// Negates each of the `len` bits from bit `offset` on, and leaves every other bit unchanged. The
/// caller must prove that the window is in bounds and that `offset + len` fits in a `usize`.
///
/// It negates the bits of a partial first and last byte by a mask. It negates the whole bytes
/// between them four words at a time, then word by word, and then byte by byte.
pub fn map_words(bytes: &mut [u8], offset: usize, len: usize)
    requires window { InBytes bytes.old offset len }
    ensures { Writes bytes.old bytes.new offset (complement (bits bytes.old offset len)) }
{
    let end = offset + len;
    let first = offset.div_ceil(8);
    let last = end / 8;
    if last < first {
        negate_in_byte(bytes, offset, end);
        return;
    }
    let words = (last - first) / 8;
    negate_in_byte(bytes, offset, 8 * first);
    negate_words(bytes, first, words);
    negate_bytes(bytes, first + 8 * words, last);
    negate_in_byte(bytes, 8 * last, end);
}

/// Negates the bits `start..end`, which are in one byte.
fn negate_in_byte(bytes: &mut [u8], start: usize, end: usize)
    requires ordered { start ≤ end }
    requires in_byte { start % 8 + (end - start) ≤ 8 }
    requires inside { end ≤ 8 * length bytes.old }
    ensures { Writes bytes.old bytes.new start (complement (bits bytes.old start (end - start))) }
{
    if start == end {
        return;
    }
    let from = start % 8;
    bytes[start / 8] ^= byte_mask(from, from + (end - start));
}

/// Negates `n` words from byte `at` on: four at a time, then the rest.
fn negate_words(bytes: &mut [u8], at: usize, n: usize)
    requires { at + 8 * n ≤ length bytes.old }
    ensures { Writes bytes.old bytes.new (8 * at) (complement (bits bytes.old (8 * at) (64 * n))) }
{
    if n < 4 {
        negate_few_words(bytes, at, n);
        return;
    }
    let blocks = n / 4;
    negate_blocks(bytes, at, blocks);
    negate_few_words(bytes, at + 32 * blocks, n % 4);
}

/// Negates `n` times four words from byte `at` on.
fn negate_blocks(bytes: &mut [u8], at: usize, n: usize)
    requires { at + 32 * n ≤ length bytes.old }
    ensures { Writes bytes.old bytes.new (8 * at) (complement (bits bytes.old (8 * at) (256 * n))) }
{
    for k in 0..n {
        let words = words_at(bytes, at + 32 * k);
        write_words(bytes, at + 32 * k, words ^ u64x4::splat(u64::MAX));
    }
}

/// Negates `n` words from byte `at` on, fewer than four, without a loop. The compiler would turn a
/// loop over so few words into masked vectors, which wait for the stores just before.
fn negate_few_words(bytes: &mut [u8], at: usize, n: usize)
    requires few { n < 4 }
    requires inside { at + 8 * n ≤ length bytes.old }
    ensures { Writes bytes.old bytes.new (8 * at) (complement (bits bytes.old (8 * at) (64 * n))) }
{
    if n == 0 {
        return;
    }
    negate_word(bytes, at);
    if n == 1 {
        return;
    }
    negate_word(bytes, at + 8);
    if n == 2 {
        return;
    }
    negate_word(bytes, at + 16);
}

/// Negates the word from byte `at` on.
#[inline(always)]
fn negate_word(bytes: &mut [u8], at: usize)
    requires { at + 8 ≤ length bytes.old }
    ensures { Writes bytes.old bytes.new (8 * at) (complement (bits bytes.old (8 * at) 64)) }
{
    let word = word_at(bytes, at);
    write_word(bytes, at, !word);
}

/// Negates the bytes `first..last`.
fn negate_bytes(bytes: &mut [u8], first: usize, last: usize)
    requires ordered { first ≤ last }
    requires inside { last ≤ length bytes.old }
    requires fits { 8 * last < 2 ^ 64 }
    ensures { Writes bytes.old bytes.new (8 * first)
        (complement (bits bytes.old (8 * first) (8 * (last - first)))) }
{
    for k in first..last {
        negate_in_byte(bytes, 8 * k, 8 * k + 8);
    }
}
