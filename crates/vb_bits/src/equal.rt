//! Comparison of windows.
ghost use Rattle.std.specs.Prelude.{◌≡◌, ◌+◌, ◌*◌, ◌%◌, ◌^◌, ◌<◌, ◌≤◌, ◌↔◌, length, IsTrue};
ghost use Rattle.vb_bits.specs.Bits.{bits};
ghost use Rattle.vb_bits.specs.InBytes.{InBytes};

use crate::bytes::word_at;
use crate::read::{read_in_eight, read_short, shifted_word};
use crate::word::low_digits;

/// The number of words that are compared before a test for a difference: a vector loop can't exit
/// early.
const BLOCK_WORDS: usize = 64;

/// Fewer words are compared at once, from any address: finding the blocks takes longer than to
/// compare all of them, even if the first one differs.
const FEW_WORDS: usize = 16;

/// Returns whether the `len` bits of `left` from bit `l` on equal those of `right` from bit `r` on.
/// The caller must prove that both windows are in bounds, and that `l + len` and `r + len` fit in a
/// `usize`.
///
/// It compares up to 64 bits as one number. In a longer window it compares the bits up to a word
/// boundary of `left` as one number, the last 64 bits as another, and the words between at once if
/// there are fewer than 16, else in blocks of 512 bytes. If `left` starts at a cache line, so do
/// these blocks. It reads no block after the first one that differs.
pub fn equal_bits(left: &[u8], l: usize, right: &[u8], r: usize, len: usize) -> bool
    requires left { InBytes left.now l len }
    requires right { InBytes right.now r len }
    ensures { IsTrue result ↔ (bits left.now l len ≡ bits right.now r len) }
{
    if len <= 64 {
        equal_few(left, l, right, r, len)
    } else {
        equal_many(left, l, right, r, len)
    }
}

/// [`equal_bits`] of more than 64 bits.
#[inline(never)]
fn equal_many(left: &[u8], l: usize, right: &[u8], r: usize, len: usize) -> bool
    requires many { 64 < len }
    requires left { InBytes left.now l len }
    requires right { InBytes right.now r len }
    ensures { IsTrue result ↔ (bits left.now l len ≡ bits right.now r len) }
{
    let head = 64 - l % 64;
    let rest = len - 64;
    equal_in_eight(left, l, right, r, head)
        && equal_words(left, (l + head) / 8, right, r + head, (len - head) / 64)
        && equal_in_eight(left, l + rest, right, r + rest, 64)
}

/// [`equal_bits`] of at most 64 bits.
fn equal_few(left: &[u8], l: usize, right: &[u8], r: usize, len: usize) -> bool
    requires in_word { len ≤ 64 }
    requires left_inside { l + len ≤ 8 * length left.now }
    requires right_inside { r + len ≤ 8 * length right.now }
    ensures { IsTrue result ↔ (bits left.now l len ≡ bits right.now r len) }
{
    read_short(left, l, len) == read_short(right, r, len)
}

/// [`equal_few`] for slices of at least eight bytes each.
#[inline(always)]
fn equal_in_eight(left: &[u8], l: usize, right: &[u8], r: usize, len: usize) -> bool
    requires in_word { len ≤ 64 }
    requires left_inside { l + len ≤ 8 * length left.now }
    requires right_inside { r + len ≤ 8 * length right.now }
    requires left_eight { 8 ≤ length left.now }
    requires right_eight { 8 ≤ length right.now }
    ensures { IsTrue result ↔ (bits left.now l len ≡ bits right.now r len) }
{
    low_digits(read_in_eight(left, l, len), len) == low_digits(read_in_eight(right, r, len), len)
}

/// [`equal_bits`] of the `n` words from byte `a` of `left` on.
#[inline(always)]
fn equal_words(left: &[u8], a: usize, right: &[u8], r: usize, n: usize) -> bool
    requires left_inside { a + 8 * n ≤ length left.now }
    requires right { InBytes right.now r (64 * n) }
    ensures { IsTrue result ↔ (bits left.now (8 * a) (64 * n) ≡ bits right.now r (64 * n)) }
{
    if n < FEW_WORDS {
        differing_digits(left, a, right, r, n) == 0
    } else {
        equal_many_words(left, a, right, r, n)
    }
}

/// Does [`equal_words`]: compares the words up to a multiple of 64 bytes, then whole blocks, then
/// the remaining words.
#[inline(never)]
fn equal_many_words(left: &[u8], a: usize, right: &[u8], r: usize, n: usize) -> bool
    requires left_inside { a + 8 * n ≤ length left.now }
    requires right { InBytes right.now r (64 * n) }
    ensures { IsTrue result ↔ (bits left.now (8 * a) (64 * n) ≡ bits right.now r (64 * n)) }
{
    let lead = n.min((8 - a / 8 % 8) % 8);
    let blocks = (n - lead) / BLOCK_WORDS;
    let done = lead + BLOCK_WORDS * blocks;
    differing_digits(left, a, right, r, lead) == 0
        && equal_blocks(left, a + 8 * lead, right, r + 64 * lead, blocks)
        && differing_digits(left, a + 8 * done, right, r + 64 * done, n - done) == 0
}

/// [`equal_bits`] of the `n` blocks from byte `a` of `left` on.
fn equal_blocks(left: &[u8], a: usize, right: &[u8], r: usize, n: usize) -> bool
    requires left_inside { a + 8 * (BLOCK_WORDS * n) ≤ length left.now }
    requires right { InBytes right.now r (64 * (BLOCK_WORDS * n)) }
    ensures { IsTrue result ↔ (bits left.now (8 * a) (64 * (BLOCK_WORDS * n))
        ≡ bits right.now r (64 * (BLOCK_WORDS * n))) }
{
    for k in 0..n {
        let done = BLOCK_WORDS * k;
        if differing_digits(left, a + 8 * done, right, r + 64 * done, BLOCK_WORDS) != 0 {
            return false;
        }
    }
    true
}

/// Returns 0 exactly if the `n` words of `left` from byte `a` on equal those of `right` from bit
/// `r` on. Otherwise the result has the digits in which some pair of words differs.
#[inline(always)]
fn differing_digits(left: &[u8], a: usize, right: &[u8], r: usize, n: usize) -> u64
    requires left_inside { a + 8 * n ≤ length left.now }
    requires right_inside { r + 64 * n ≤ 8 * length right.now }
    ensures { (result ≡ 0) ↔ (bits left.now (8 * a) (64 * n) ≡ bits right.now r (64 * n)) }
{
    if r % 8 == 0 {
        differing_whole(left, a, right, r / 8, n)
    } else {
        differing_shifted(left, a, right, r, n)
    }
}

/// [`differing_digits`] if the words of both start at a byte.
#[inline(always)]
fn differing_whole(left: &[u8], a: usize, right: &[u8], b: usize, n: usize) -> u64
    requires left_inside { a + 8 * n ≤ length left.now }
    requires right_inside { b + 8 * n ≤ length right.now }
    ensures { (result ≡ 0) ↔ (bits left.now (8 * a) (64 * n) ≡ bits right.now (8 * b) (64 * n)) }
{
    let mut differing = 0;
    for k in 0..n {
        differing |= word_at(left, a + 8 * k) ^ word_at(right, b + 8 * k);
    }
    differing
}

/// [`differing_digits`] if the words of `right` start within a byte.
#[inline(always)]
fn differing_shifted(left: &[u8], a: usize, right: &[u8], r: usize, n: usize) -> u64
    requires part { 0 < r % 8 }
    requires left_inside { a + 8 * n ≤ length left.now }
    requires right_inside { r + 64 * n ≤ 8 * length right.now }
    ensures { (result ≡ 0) ↔ (bits left.now (8 * a) (64 * n) ≡ bits right.now r (64 * n)) }
{
    let mut differing = 0;
    for k in 0..n {
        differing |= word_at(left, a + 8 * k) ^ shifted_word(right, r / 8 + 8 * k, r % 8);
    }
    differing
}
