//! Combines a window with one of another slice.
ghost use Rattle.std.specs.Prelude.{◌≡◌, ◌+◌, ◌*◌, ◌%◌, ◌^◌, ◌<◌, ◌≤◌, length};
ghost use Rattle.vb_bits.specs.Bits.{bits};
ghost use Rattle.vb_bits.specs.InBytes.{InBytes};
ghost use Rattle.vb_bits.specs.Operators.{merged_by};
ghost use Rattle.vb_bits.specs.Writes.{Writes};

use crate::bytes::{word_at, write_word};
use crate::few::{merge_few, merge_in_eight};
use crate::lanes::{shifted_words, words_at, write_words};
use crate::operator::Merge;
use crate::read::{full_word, read_few, read_in_eight};
use crate::write::write_in_byte;

/// From this number of bits on, [`merge_bits`] first combines the bits up to a multiple of four
/// words of `dst`: if `dst` starts at a cache line, no vector store then crosses one.
const MIN_ALIGNED_BITS: usize = 65_536;

/// Combines the `len` bits of `dst` from bit `d` on with the bits of `src` from bit `s` on, and
/// leaves every other bit of `dst` unchanged.
///
/// It is inlined to select the path in the caller, so that a call with few bits doesn't save the
/// registers that the path for many needs.
#[inline(always)]
pub(crate) fn merge_bits<M: Merge>(dst: &mut [u8], d: usize, src: &[u8], s: usize, len: usize)
    requires into { InBytes dst.old d len }
    requires from { InBytes src.now s len }
    ensures { Writes dst.old dst.new d
        (merged_by (M.bit) (bits dst.old d len) (bits src.now s len)) }
{
    if len <= 64 {
        merge_few::<M>(dst, d, src, s, len);
    } else if len < MIN_ALIGNED_BITS || d % 256 == 0 {
        merge_run::<M>(dst, d, src, s, len);
    } else {
        merge_aligned::<M>(dst, d, src, s, len);
    }
}

/// [`merge_bits`] of at least 256 bits: first up to a multiple of four words of `dst`, then the
/// rest.
#[inline(never)]
fn merge_aligned<M: Merge>(dst: &mut [u8], d: usize, src: &[u8], s: usize, len: usize)
    requires many { 256 ≤ len }
    requires into { InBytes dst.old d len }
    requires from { InBytes src.now s len }
    ensures { Writes dst.old dst.new d
        (merged_by (M.bit) (bits dst.old d len) (bits src.now s len)) }
{
    let lead = 256 - d % 256;
    merge_run::<M>(dst, d, src, s, lead);
    merge_run::<M>(dst, d + lead, src, s + lead, len - lead);
}

/// [`merge_bits`] at any offset: the bits of a partial first byte of `dst` by a mask, then whole
/// words, then the rest by one more word.
#[inline(never)]
fn merge_run<M: Merge>(dst: &mut [u8], d: usize, src: &[u8], s: usize, len: usize)
    requires into { InBytes dst.old d len }
    requires from { InBytes src.now s len }
    requires eight { 8 ≤ length dst.old }
    requires eight_source { 8 ≤ length src.now }
    ensures { Writes dst.old dst.new d
        (merged_by (M.bit) (bits dst.old d len) (bits src.now s len)) }
{
    let head = len.min((8 - d % 8) % 8);
    merge_in_byte::<M>(dst, d, src, s, head);
    let words = (len - head) / 64;
    merge_words::<M>(dst, d + head, src, s + head, words);
    let done = head + 64 * words;
    merge_rest::<M>(dst, d + done, src, s + done, len - done);
}

/// [`merge_bits`] of bits within one byte of `dst`.
fn merge_in_byte<M: Merge>(dst: &mut [u8], d: usize, src: &[u8], s: usize, len: usize)
    requires in_byte { d % 8 + len ≤ 8 }
    requires into { d + len ≤ 8 * length dst.old }
    requires from { s + len ≤ 8 * length src.now }
    ensures { Writes dst.old dst.new d
        (merged_by (M.bit) (bits dst.old d len) (bits src.now s len)) }
{
    if len == 0 {
        return;
    }
    let left = read_few(dst, d, len);
    let right = read_few(src, s, len);
    write_in_byte(dst, d, len, M::word(left, right));
}

/// [`merge_bits`] of `n` words, which start at a byte of `dst`: four at a time, then the rest.
fn merge_words<M: Merge>(dst: &mut [u8], d: usize, src: &[u8], s: usize, n: usize)
    requires whole { 0 < n → d % 8 ≡ 0 }
    requires into { InBytes dst.old d (64 * n) }
    requires from { InBytes src.now s (64 * n) }
    ensures { Writes dst.old dst.new d
        (merged_by (M.bit) (bits dst.old d (64 * n)) (bits src.now s (64 * n))) }
{
    let blocks = n / 4;
    merge_blocks::<M>(dst, d, src, s, blocks);
    let done = 256 * blocks;
    merge_few_words::<M>(dst, d + done, src, s + done, n % 4);
}

/// [`merge_words`] of `n` times four words.
fn merge_blocks<M: Merge>(dst: &mut [u8], d: usize, src: &[u8], s: usize, n: usize)
    requires whole { 0 < n → d % 8 ≡ 0 }
    requires into { d + 256 * n ≤ 8 * length dst.old }
    requires from { s + 256 * n ≤ 8 * length src.now }
    ensures { Writes dst.old dst.new d
        (merged_by (M.bit) (bits dst.old d (256 * n)) (bits src.now s (256 * n))) }
{
    if s % 8 == 0 {
        merge_whole_blocks::<M>(dst, d, src, s, n);
    } else {
        merge_shifted_blocks::<M>(dst, d, src, s, n);
    }
}

/// [`merge_blocks`] if the blocks of `src` also start at a byte.
fn merge_whole_blocks<M: Merge>(dst: &mut [u8], d: usize, src: &[u8], s: usize, n: usize)
    requires whole { 0 < n → d % 8 ≡ 0 }
    requires whole_source { s % 8 ≡ 0 }
    requires into { d + 256 * n ≤ 8 * length dst.old }
    requires from { s + 256 * n ≤ 8 * length src.now }
    ensures { Writes dst.old dst.new d
        (merged_by (M.bit) (bits dst.old d (256 * n)) (bits src.now s (256 * n))) }
{
    for k in 0..n {
        let left = words_at(dst, d / 8 + 32 * k);
        let right = words_at(src, s / 8 + 32 * k);
        write_words(dst, d / 8 + 32 * k, M::words(left, right));
    }
}

/// [`merge_blocks`] if the blocks of `src` start within a byte.
fn merge_shifted_blocks<M: Merge>(dst: &mut [u8], d: usize, src: &[u8], s: usize, n: usize)
    requires whole { 0 < n → d % 8 ≡ 0 }
    requires part { 0 < s % 8 }
    requires into { d + 256 * n ≤ 8 * length dst.old }
    requires from { s + 256 * n ≤ 8 * length src.now }
    ensures { Writes dst.old dst.new d
        (merged_by (M.bit) (bits dst.old d (256 * n)) (bits src.now s (256 * n))) }
{
    for k in 0..n {
        let left = words_at(dst, d / 8 + 32 * k);
        let right = shifted_words(src, s / 8 + 32 * k, s % 8);
        write_words(dst, d / 8 + 32 * k, M::words(left, right));
    }
}

/// [`merge_words`] of fewer than four words, without a loop. The compiler would turn a loop over so
/// few words into masked vectors, which wait for the stores just before.
fn merge_few_words<M: Merge>(dst: &mut [u8], d: usize, src: &[u8], s: usize, n: usize)
    requires few { n < 4 }
    requires whole { 0 < n → d % 8 ≡ 0 }
    requires into { InBytes dst.old d (64 * n) }
    requires from { InBytes src.now s (64 * n) }
    ensures { Writes dst.old dst.new d
        (merged_by (M.bit) (bits dst.old d (64 * n)) (bits src.now s (64 * n))) }
{
    if n == 0 {
        return;
    }
    merge_word::<M>(dst, d, src, s);
    if n == 1 {
        return;
    }
    merge_word::<M>(dst, d + 64, src, s + 64);
    if n == 2 {
        return;
    }
    merge_word::<M>(dst, d + 128, src, s + 128);
}

/// [`merge_words`] of one word.
#[inline(always)]
fn merge_word<M: Merge>(dst: &mut [u8], d: usize, src: &[u8], s: usize)
    requires whole { d % 8 ≡ 0 }
    requires into { d + 64 ≤ 8 * length dst.old }
    requires from { s + 64 ≤ 8 * length src.now }
    ensures { Writes dst.old dst.new d
        (merged_by (M.bit) (bits dst.old d 64) (bits src.now s 64)) }
{
    let left = word_at(dst, d / 8);
    let right = full_word(src, s / 8, s % 8);
    write_word(dst, d / 8, M::word(left, right));
}

/// [`merge_bits`] of at most 64 bits, which start at a byte of `dst`.
fn merge_rest<M: Merge>(dst: &mut [u8], d: usize, src: &[u8], s: usize, len: usize)
    requires in_word { len ≤ 64 }
    requires whole { 0 < len → d % 8 ≡ 0 }
    requires into { d + len ≤ 8 * length dst.old }
    requires from { s + len ≤ 8 * length src.now }
    requires eight { 8 ≤ length dst.old }
    requires eight_source { 8 ≤ length src.now }
    ensures { Writes dst.old dst.new d
        (merged_by (M.bit) (bits dst.old d len) (bits src.now s len)) }
{
    if len > 0 {
        merge_in_eight::<M>(dst, d, len, read_in_eight(src, s, len));
    }
}
