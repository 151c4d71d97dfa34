//! Combines two windows into a third one, in one pass.
ghost use Rattle.std.specs.Prelude.{◌≡◌, ◌+◌, ◌*◌, ◌%◌, ◌^◌, ◌<◌, ◌≤◌, length};
ghost use Rattle.vb_bits.specs.Bits.{bits};
ghost use Rattle.vb_bits.specs.Digits.{lane_bits};
ghost use Rattle.vb_bits.specs.InBytes.{InBytes};
ghost use Rattle.vb_bits.specs.Operators.{combined_by, merged_by};
ghost use Rattle.vb_bits.specs.Writes.{Writes};

use crate::bytes::write_word;
use crate::few::{merge_digits, merge_in_eight};
use crate::lanes::{shifted_words, words_at, write_words};
use crate::operator::{And, AndNot, Merge, Or, Right, Xor};
use crate::read::{full_word, read_few, read_in_eight, read_loose};
use crate::write::write_in_byte;
use crate::zip::BitOp;
use std::simd::prelude::*;

/// Replaces bit `o + i` of `out`, for each `i` below `len`, by `op` of bit `l + i` of `left` and
/// bit `r + i` of `right`. No other bit of `out` changes.
///
/// The caller must prove that the three windows are in bounds, and that `o + len`, `l + len` and
/// `r + len` fit in a `usize`.
///
/// It processes words of 64 bits, four at a time, at any three offsets.
#[inline(always)]
pub fn zip_into(
    out: &mut [u8],
    o: usize,
    left: &[u8],
    l: usize,
    right: &[u8],
    r: usize,
    len: usize,
    op: BitOp,
)
    requires into { InBytes out.old o len }
    requires from_left { InBytes left.now l len }
    requires from_right { InBytes right.now r len }
    ensures { Writes out.old out.new o
        (combined_by op (bits left.now l len) (bits right.now r len)) }
{
    match op {
        BitOp::And => merge_into::<And>(out, o, left, l, right, r, len),
        BitOp::Or => merge_into::<Or>(out, o, left, l, right, r, len),
        BitOp::Xor => merge_into::<Xor>(out, o, left, l, right, r, len),
        BitOp::AndNot => merge_into::<AndNot>(out, o, left, l, right, r, len),
    }
}

/// [`zip_into`] by the operator `M`.
#[inline(always)]
fn merge_into<M: Merge>(
    out: &mut [u8],
    o: usize,
    left: &[u8],
    l: usize,
    right: &[u8],
    r: usize,
    len: usize,
)
    requires into { InBytes out.old o len }
    requires from_left { InBytes left.now l len }
    requires from_right { InBytes right.now r len }
    ensures { Writes out.old out.new o
        (merged_by (M.bit) (bits left.now l len) (bits right.now r len)) }
{
    if len <= 64 {
        merge_few_into::<M>(out, o, left, l, right, r, len);
    } else {
        merge_many_into::<M>(out, o, left, l, right, r, len);
    }
}

/// [`merge_into`] of at most 64 bits.
#[inline(never)]
fn merge_few_into<M: Merge>(
    out: &mut [u8],
    o: usize,
    left: &[u8],
    l: usize,
    right: &[u8],
    r: usize,
    len: usize,
)
    requires in_word { len ≤ 64 }
    requires into { InBytes out.old o len }
    requires from_left { l + len ≤ 8 * length left.now }
    requires from_right { r + len ≤ 8 * length right.now }
    ensures { Writes out.old out.new o
        (merged_by (M.bit) (bits left.now l len) (bits right.now r len)) }
{
    if len == 0 {
        return;
    }
    if len == 64 && o % 8 == 0 {
        let first = full_word(left, l / 8, l % 8);
        let second = full_word(right, r / 8, r % 8);
        write_word(out, o / 8, M::word(first, second));
        return;
    }
    let first = read_loose(left, l, len);
    let second = read_loose(right, r, len);
    merge_digits::<Right>(out, o, len, M::word(first, second));
}

/// [`merge_into`] of more than 64 bits: the bits of a partial first byte of `out` by a mask, then
/// whole words, then the rest by one more word.
#[inline(never)]
fn merge_many_into<M: Merge>(
    out: &mut [u8],
    o: usize,
    left: &[u8],
    l: usize,
    right: &[u8],
    r: usize,
    len: usize,
)
    requires many { 64 < len }
    requires into { InBytes out.old o len }
    requires from_left { InBytes left.now l len }
    requires from_right { InBytes right.now r len }
    ensures { Writes out.old out.new o
        (merged_by (M.bit) (bits left.now l len) (bits right.now r len)) }
{
    let head = (8 - o % 8) % 8;
    merge_byte_into::<M>(out, o, left, l, right, r, head);
    let words = (len - head) / 64;
    let blocks = words / 4;
    merge_blocks_into::<M>(out, o + head, left, l + head, right, r + head, blocks);
    let done = head + 256 * blocks;
    merge_words_into::<M>(out, o + done, left, l + done, right, r + done, words % 4);
    let last = head + 64 * words;
    merge_rest_into::<M>(out, o + last, left, l + last, right, r + last, len - last);
}

/// [`merge_into`] of bits within one byte of `out`.
fn merge_byte_into<M: Merge>(
    out: &mut [u8],
    o: usize,
    left: &[u8],
    l: usize,
    right: &[u8],
    r: usize,
    len: usize,
)
    requires in_byte { o % 8 + len ≤ 8 }
    requires into { o + len ≤ 8 * length out.old }
    requires from_left { l + len ≤ 8 * length left.now }
    requires from_right { r + len ≤ 8 * length right.now }
    ensures { Writes out.old out.new o
        (merged_by (M.bit) (bits left.now l len) (bits right.now r len)) }
{
    if len == 0 {
        return;
    }
    let first = read_few(left, l, len);
    let second = read_few(right, r, len);
    write_in_byte(out, o, len, M::word(first, second));
}

/// [`merge_into`] of `n` times four words, which start at a byte of `out`.
fn merge_blocks_into<M: Merge>(
    out: &mut [u8],
    o: usize,
    left: &[u8],
    l: usize,
    right: &[u8],
    r: usize,
    n: usize,
)
    requires whole { o % 8 ≡ 0 }
    requires into { o + 256 * n ≤ 8 * length out.old }
    requires from_left { l + 256 * n ≤ 8 * length left.now }
    requires from_right { r + 256 * n ≤ 8 * length right.now }
    ensures { Writes out.old out.new o
        (merged_by (M.bit) (bits left.now l (256 * n)) (bits right.now r (256 * n))) }
{
    for k in 0..n {
        let first = four_words(left, l / 8 + 32 * k, l % 8);
        let second = four_words(right, r / 8 + 32 * k, r % 8);
        write_words(out, o / 8 + 32 * k, M::words(first, second));
    }
}

/// Returns the four words from bit `shift` of byte `first` on.
#[inline(always)]
fn four_words(bytes: &[u8], first: usize, shift: usize) -> u64x4
    requires in_byte { shift < 8 }
    requires inside { 8 * first + shift + 256 ≤ 8 * length bytes.now }
    ensures len { length result ≡ 4 }
    ensures digits { lane_bits result ≡ bits bytes.now (8 * first + shift) 256 }
{
    if shift == 0 {
        words_at(bytes, first)
    } else {
        shifted_words(bytes, first, shift)
    }
}

/// [`merge_into`] of `n` words, fewer than four, which start at a byte of `out`.
fn merge_words_into<M: Merge>(
    out: &mut [u8],
    o: usize,
    left: &[u8],
    l: usize,
    right: &[u8],
    r: usize,
    n: usize,
)
    requires few { n < 4 }
    requires whole { o % 8 ≡ 0 }
    requires into { InBytes out.old o (64 * n) }
    requires from_left { InBytes left.now l (64 * n) }
    requires from_right { InBytes right.now r (64 * n) }
    ensures { Writes out.old out.new o
        (merged_by (M.bit) (bits left.now l (64 * n)) (bits right.now r (64 * n))) }
{
    if n == 0 {
        return;
    }
    merge_word_into::<M>(out, o, left, l, right, r);
    if n == 1 {
        return;
    }
    merge_word_into::<M>(out, o + 64, left, l + 64, right, r + 64);
    if n == 2 {
        return;
    }
    merge_word_into::<M>(out, o + 128, left, l + 128, right, r + 128);
}

/// [`merge_words_into`] of one word.
#[inline(always)]
fn merge_word_into<M: Merge>(
    out: &mut [u8],
    o: usize,
    left: &[u8],
    l: usize,
    right: &[u8],
    r: usize,
)
    requires whole { o % 8 ≡ 0 }
    requires into { o + 64 ≤ 8 * length out.old }
    requires from_left { l + 64 ≤ 8 * length left.now }
    requires from_right { r + 64 ≤ 8 * length right.now }
    ensures { Writes out.old out.new o
        (merged_by (M.bit) (bits left.now l 64) (bits right.now r 64)) }
{
    let first = full_word(left, l / 8, l % 8);
    let second = full_word(right, r / 8, r % 8);
    write_word(out, o / 8, M::word(first, second));
}

/// [`merge_into`] of at most 64 bits, which start at a byte of `out`, for slices of at least eight
/// bytes each.
fn merge_rest_into<M: Merge>(
    out: &mut [u8],
    o: usize,
    left: &[u8],
    l: usize,
    right: &[u8],
    r: usize,
    len: usize,
)
    requires in_word { len ≤ 64 }
    requires whole { o % 8 ≡ 0 }
    requires into { o + len ≤ 8 * length out.old }
    requires from_left { l + len ≤ 8 * length left.now }
    requires from_right { r + len ≤ 8 * length right.now }
    requires eight { 8 ≤ length out.old }
    requires left_eight { 8 ≤ length left.now }
    requires right_eight { 8 ≤ length right.now }
    ensures { Writes out.old out.new o
        (merged_by (M.bit) (bits left.now l len) (bits right.now r len)) }
{
    if len == 0 {
        return;
    }
    let first = read_in_eight(left, l, len);
    let second = read_in_eight(right, r, len);
    merge_in_eight::<Right>(out, o, len, M::word(first, second));
}
