//! Counts the set bits of two combined windows.
//!
//! If there are more than 512 bits, the left window is read by whole bytes after its first bits,
//! and only the right one is shifted. The combined bits aren't stored.
ghost use Rattle.std.specs.Prelude.{◌≡◌, ◌+◌, ◌*◌, ◌^◌, ◌<◌, ◌≤◌, length};
ghost use Rattle.vb_bits.specs.InBytes.{InBytes};
ghost use Rattle.vb_pair.specs.Merged.{merged_ones};

use vb_bits::{Merge, full_word, low_digits, read_short, shifted_words, word_at, words_at};
use vb_count::{LaneSum, digit_ones};

/// Returns the number of set bits after combining the `len` bits of `left` from bit `l` on with
/// those of `right` from bit `r` on.
pub(crate) fn count_merged<M: Merge>(
    left: &[u8],
    l: usize,
    right: &[u8],
    r: usize,
    len: usize,
) -> usize
    requires left { InBytes left.now l len }
    requires right { InBytes right.now r len }
    ensures { result ≡ merged_ones (M.bit) left.now l right.now r len }
{
    if len == 64 {
        merged_word_ones::<M>(left, l, right, r)
    } else if len < 64 {
        few_ones::<M>(left, l, right, r, len)
    } else {
        count_many::<M>(left, l, right, r, len)
    }
}

/// Does [`count_merged`] for more than 64 bits. It isn't inlined, so that a call with fewer doesn't
/// save the registers that the loops need.
#[inline(never)]
fn count_many<M: Merge>(left: &[u8], l: usize, right: &[u8], r: usize, len: usize) -> usize
    requires left { InBytes left.now l len }
    requires right { InBytes right.now r len }
    ensures { result ≡ merged_ones (M.bit) left.now l right.now r len }
{
    if len <= 512 {
        count_short::<M>(left, l, right, r, len)
    } else {
        count_long::<M>(left, l, right, r, len)
    }
}

/// [`count_merged`] by words, at any offset.
#[inline(always)]
pub(crate) fn count_short<M: Merge>(
    left: &[u8],
    l: usize,
    right: &[u8],
    r: usize,
    len: usize,
) -> usize
    requires left { InBytes left.now l len }
    requires right { InBytes right.now r len }
    ensures { result ≡ merged_ones (M.bit) left.now l right.now r len }
{
    let mut ones = 0;
    for k in 0..len / 64 {
        ones += merged_word_ones::<M>(left, l + 64 * k, right, r + 64 * k);
    }
    let done = len / 64 * 64;
    ones + few_ones::<M>(left, l + done, right, r + done, len % 64)
}

/// [`count_merged`] of many bits: the bits of a partial first byte of `left`, then blocks of 32
/// bytes, then the rest by words.
#[inline(never)]
fn count_long<M: Merge>(left: &[u8], l: usize, right: &[u8], r: usize, len: usize) -> usize
    requires long { 8 ≤ len }
    requires left { InBytes left.now l len }
    requires right { InBytes right.now r len }
    ensures { result ≡ merged_ones (M.bit) left.now l right.now r len }
{
    let head = (8 - l % 8) % 8;
    let blocks = (len - head) / 256;
    let done = head + 256 * blocks;
    let first = few_ones::<M>(left, l, right, r, head);
    let last = count_short::<M>(left, l + done, right, r + done, len - done);
    first + last + count_blocks::<M>(left, (l + head) / 8, right, r + head, blocks)
}

/// Counts `n` blocks of 32 bytes from byte `l` and bit `r` on.
fn count_blocks<M: Merge>(left: &[u8], l: usize, right: &[u8], r: usize, n: usize) -> usize
    requires left { InBytes left.now (8 * l) (256 * n) }
    requires right { InBytes right.now r (256 * n) }
    ensures { result ≡ merged_ones (M.bit) left.now (8 * l) right.now r (256 * n) }
{
    if r % 8 == 0 {
        sum_blocks::<M>(left, l, right, r / 8, n).total()
    } else {
        sum_shifted_blocks::<M>(left, l, right, r / 8, r % 8, n).total()
    }
}

/// [`count_blocks`] if the blocks of `right` start at byte `r`.
fn sum_blocks<M: Merge>(left: &[u8], l: usize, right: &[u8], r: usize, n: usize) -> LaneSum
    requires left { InBytes left.now (8 * l) (256 * n) }
    requires right { InBytes right.now (8 * r) (256 * n) }
    ensures { result ≡ merged_ones (M.bit) left.now (8 * l) right.now (8 * r) (256 * n) }
{
    let mut sum = LaneSum::of(0);
    for k in 0..n {
        sum = sum.plus(block::<M>(left, l + 32 * k, right, r + 32 * k));
    }
    sum
}

/// [`count_blocks`] if the blocks of `right` start at bit `shift` of byte `r`.
fn sum_shifted_blocks<M: Merge>(
    left: &[u8],
    l: usize,
    right: &[u8],
    r: usize,
    shift: usize,
    n: usize,
) -> LaneSum
    requires part { 0 < shift }
    requires in_byte { shift < 8 }
    requires left { InBytes left.now (8 * l) (256 * n) }
    requires right { InBytes right.now (8 * r + shift) (256 * n) }
    ensures { result ≡ merged_ones (M.bit) left.now (8 * l) right.now (8 * r + shift) (256 * n) }
{
    let mut sum = LaneSum::of(0);
    for k in 0..n {
        sum = sum.plus(shifted_block::<M>(left, l + 32 * k, right, r + 32 * k, shift));
    }
    sum
}

/// Counts a block word by word.
#[inline(always)]
fn block<M: Merge>(left: &[u8], l: usize, right: &[u8], r: usize) -> LaneSum
    requires left { l + 32 ≤ length left.now }
    requires right { r + 32 ≤ length right.now }
    ensures { result ≡ merged_ones (M.bit) left.now (8 * l) right.now (8 * r) 256 }
{
    LaneSum::of_four(
        whole_word_ones::<M>(left, l, right, r),
        whole_word_ones::<M>(left, l + 8, right, r + 8),
        whole_word_ones::<M>(left, l + 16, right, r + 16),
        whole_word_ones::<M>(left, l + 24, right, r + 24),
    )
}

/// Counts a block whose bits of `right` start at bit `shift` of byte `r`. Its words are shifted and
/// combined as a vector, and counted one by one.
#[inline(always)]
fn shifted_block<M: Merge>(left: &[u8], l: usize, right: &[u8], r: usize, shift: usize) -> LaneSum
    requires part { 0 < shift }
    requires in_byte { shift < 8 }
    requires left { l + 32 ≤ length left.now }
    requires right { r + 33 ≤ length right.now }
    ensures { result ≡ merged_ones (M.bit) left.now (8 * l) right.now (8 * r + shift) 256 }
{
    let words = M::words(words_at(left, l), shifted_words(right, r, shift)).to_array();
    LaneSum::of_four(
        digit_ones(words[0]),
        digit_ones(words[1]),
        digit_ones(words[2]),
        digit_ones(words[3]),
    )
}

/// Counts the words at byte `l` and byte `r`.
#[inline(always)]
fn whole_word_ones<M: Merge>(left: &[u8], l: usize, right: &[u8], r: usize) -> usize
    requires left { l + 8 ≤ length left.now }
    requires right { r + 8 ≤ length right.now }
    ensures value { result ≡ merged_ones (M.bit) left.now (8 * l) right.now (8 * r) 64 }
    ensures few { result ≤ 64 }
{
    digit_ones(M::word(word_at(left, l), word_at(right, r)))
}

/// Counts the words from bit `l` and bit `r` on.
#[inline(always)]
pub(crate) fn merged_word_ones<M: Merge>(left: &[u8], l: usize, right: &[u8], r: usize) -> usize
    requires left { l + 64 ≤ 8 * length left.now }
    requires right { r + 64 ≤ 8 * length right.now }
    ensures value { result ≡ merged_ones (M.bit) left.now l right.now r 64 }
    ensures few { result ≤ 64 }
{
    let left = full_word(left, l / 8, l % 8);
    let right = full_word(right, r / 8, r % 8);
    digit_ones(M::word(left, right))
}

/// Counts at most 64 bits.
#[inline(always)]
pub(crate) fn few_ones<M: Merge>(left: &[u8], l: usize, right: &[u8], r: usize, len: usize) -> usize
    requires in_word { len ≤ 64 }
    requires left { l + len ≤ 8 * length left.now }
    requires right { r + len ≤ 8 * length right.now }
    ensures value { result ≡ merged_ones (M.bit) left.now l right.now r len }
    ensures few { result ≤ len }
{
    if len == 0 {
        return 0;
    }
    let word = M::word(read_short(left, l, len), read_short(right, r, len));
    low_digits(word, len).count_ones() as usize
}
