//! Fewer than 64 truth values as the bits of one word.
ghost use Rattle.std.specs.Prelude.{◌≡◌, ◌+◌, ◌-◌, ◌*◌, ◌^◌, ◌<◌, ◌≤◌, length, take, drop};
ghost use Rattle.vb_compare.specs.Digits.{digits};

use crate::truths::Truths;
use std::simd::prelude::*;

/// Returns a word whose lowest bits are the last `n` truth values, fewer than 64.
///
/// If `n` is at least 8, computes eight at a time; the last eight may begin before the end of the
/// previous eight.
#[inline(always)]
pub(crate) fn last_values<S: Truths>(source: &S, n: usize) -> u64
    requires few { n < 64 }
    requires there { n ≤ length (S.truths source.now) }
    ensures { digits result 0 n
        ≡ drop (length (S.truths source.now) - n) (S.truths source.now) }
{
    let len = source.len();
    if n < 8 {
        one_by_one(source, len - n, n)
    } else {
        eights(source, len - n, n / 8) | eight(source, len - 8) << (n - 8)
    }
}

/// Returns a word whose bits are the 64 truth values from index `from` on.
#[inline(always)]
pub(crate) fn word_from<S: Truths>(source: &S, from: usize) -> u64
    requires fits { length (S.truths source.now) < 2 ^ 64 }
    requires there { from + 64 ≤ length (S.truths source.now) }
    ensures { digits result 0 64 ≡ take 64 (drop from (S.truths source.now)) }
{
    if S::IS_WIDE {
        eights(source, from, 8)
    } else {
        source.word(from)
    }
}

/// Returns a word whose lowest bits are the `n` truth values from index `from` on.
#[inline(always)]
fn one_by_one<S: Truths>(source: &S, from: usize, n: usize) -> u64
    requires few { n < 8 }
    requires fits { length (S.truths source.now) < 2 ^ 64 }
    requires there { from + n ≤ length (S.truths source.now) }
    ensures { digits result 0 n ≡ take n (drop from (S.truths source.now)) }
{
    let mut word = 0u64;
    for k in 0..n {
        word |= u64::from(source.one(from + k)) << k;
    }
    word
}

/// Returns a word whose lowest bits are the `8 * n` truth values from index `from` on; its higher
/// bits are 0.
#[inline(always)]
fn eights<S: Truths>(source: &S, from: usize, n: usize) -> u64
    requires few { n ≤ 8 }
    requires fits { length (S.truths source.now) < 2 ^ 64 }
    requires there { from + 8 * n ≤ length (S.truths source.now) }
    ensures digits { digits result 0 (8 * n) ≡ take (8 * n) (drop from (S.truths source.now)) }
    ensures clear { result < 2 ^ (8 * n) }
{
    let mut word = 0u64;
    for k in 0..n {
        word |= eight(source, from + 8 * k) << (8 * k);
    }
    word
}

/// Returns the eight truth values from index `from` on, as a number below 256.
///
/// Stores them as bytes first, so that the compiler compares the values by vectors.
#[inline(always)]
pub(crate) fn eight<S: Truths>(source: &S, from: usize) -> u64
    requires fits { length (S.truths source.now) < 2 ^ 64 }
    requires there { from + 8 ≤ length (S.truths source.now) }
    ensures digits { digits result 0 8 ≡ take 8 (drop from (S.truths source.now)) }
    ensures clear { result < 2 ^ 8 }
{
    let mut bytes = [0u8; 8];
    for k in 0..8 {
        bytes[k] = u8::from(source.one(from + k));
    }
    u8x8::from_array(bytes).simd_eq(u8x8::splat(1)).to_bitmask()
}
