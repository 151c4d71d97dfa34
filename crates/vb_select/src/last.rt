// Written in part by tools/write-lists from tools/families/nearest.txt.
//! The last bit with a given value, and the last one before an index.
ghost use Rattle.std.specs.Prelude.{ℕ, ◌≡◌, ◌+◌, ◌*◌, ◌%◌, ◌<◌, ◌≤◌, not, min};
ghost use Rattle.vb_bits.specs.Bits.{bit_of, bits, complement};
ghost use Rattle.vb_bits.specs.InBytes.{InBytes};
ghost use Rattle.vb_bits.specs.Nearest.{IsPrevious};
ghost use Rattle.vb_bits.specs.Runs.{last_place};
ghost use Rattle.vb_count.specs.Hits.{hits};
ghost use Rattle.vb_count.specs.Looks.{looks, LooksAtMost, StopsAtPrevious};

use crate::matches::{digits_of_any, matches_before, read_matches};
use crate::nearest::{Nearest, nearest_in_look};
use vb_count::{Glance, last_look};

/// The greatest number of words that one test passes together.
const PASSED_WORDS: usize = 8;

/// Returns the index of the last set bit of the window, or `None` if no bit is set. The index is
/// relative to the window of `len` bits from bit `offset` on. The caller must prove that the window
/// is in bounds and that `offset + len` fits in a `usize`.
///
/// It reads the last word, and then words towards the front. It passes words without a set bit in
/// blocks of eight, then of four, and then one by one.
pub fn last_set_index(bytes: &[u8], offset: usize, len: usize) -> Option<usize>
    requires window { InBytes bytes.now offset len }
    ensures { result ≡ last_place (bits bytes.now offset len) }
{
    last_match(bytes, offset, len, true)
}

/// Returns the index of the last set bit below index `before`, or `None` if there is none. Indices
/// are relative to the window; any `before` from `len` on includes the whole window. The caller
/// must prove that the window is in bounds and that `offset + len` fits in a `usize`.
///
/// It reads as [`last_set_index`] does, from index `before` to the front.
pub fn previous_set(bytes: &[u8], offset: usize, len: usize, before: usize) -> Option<usize>
    requires window { InBytes bytes.now offset len }
    ensures { IsPrevious (bits bytes.now offset len) before result }
{
    last_match(bytes, offset, len.min(before), true)
}

/// Returns the index of the last unset bit below index `before`, or `None` if there is none.
/// Indices are relative to the window; any `before` from `len` on includes the whole window. The
/// caller must prove that the window is in bounds and that `offset + len` fits in a `usize`.
///
/// It reads as [`last_set_index`] does, from index `before` to the front.
pub fn previous_unset(bytes: &[u8], offset: usize, len: usize, before: usize) -> Option<usize>
    requires window { InBytes bytes.now offset len }
    ensures { IsPrevious (complement (bits bytes.now offset len)) before result }
{
    last_match(bytes, offset, len.min(before), false)
}

/// [`last_set_index`] of a counted source: returns the index of the last set bit of the window, or
/// `None` if no bit is set.
///
/// If it finds a bit, its looks are at most those of `vb_count::count_ones_by` over the bits from
/// that bit, included, up to the end (clause `stops`). If it finds none, they are at most those
/// over all bits (clause `looks`). `vb_count::most_looks` bounds both. Does not allocate. The
/// caller must prove that the window is in bounds of the source and that `offset + len` fits in a
/// `usize`.
pub fn last_set_index_by<G: Glance>(src: &mut G, offset: usize, len: usize) -> Option<usize>
    requires window { InBytes (G.seen src.old).bytes offset len }
    ensures value { result ≡ last_place (bits (G.seen src.old).bytes offset len) }
    ensures looks { LooksAtMost (looks offset len) (G.seen src.old) (G.seen src.new) }
    ensures stops { StopsAtPrevious (bits (G.seen src.old).bytes offset len) offset len
        (G.seen src.old) (G.seen src.new) }
{
    last_match_by(src, offset, len, true)
}

/// [`previous_set`] of a counted source: returns the index of the last set bit below index
/// `before`, or `None` if there is none. Indices are relative to the window.
///
/// If it finds a bit, its looks are at most those of `vb_count::count_ones_by` over the bits from
/// that bit, included, up to index `before` (clause `stops`). If it finds none, they are at most
/// those over all bits before that index (clause `looks`). `vb_count::most_looks` bounds both. Does
/// not allocate. The caller must prove that the window is in bounds of the source and that
/// `offset + len` fits in a `usize`.
pub fn previous_set_by<G: Glance>(
    src: &mut G,
    offset: usize,
    len: usize,
    before: usize,
) -> Option<usize>
    requires window { InBytes (G.seen src.old).bytes offset len }
    ensures value { IsPrevious (bits (G.seen src.old).bytes offset len) before result }
    ensures looks { LooksAtMost (looks offset (min len before)) (G.seen src.old) (G.seen src.new) }
    ensures stops { StopsAtPrevious (bits (G.seen src.old).bytes offset len) offset (min len before)
        (G.seen src.old) (G.seen src.new) }
{
    last_match_by(src, offset, len.min(before), true)
}

/// [`previous_unset`] of a counted source: returns the index of the last unset bit below index
/// `before`, or `None` if there is none. Indices are relative to the window.
///
/// If it finds a bit, its looks are at most those of `vb_count::count_ones_by` over the bits from
/// that bit, included, up to index `before` (clause `stops`). If it finds none, they are at most
/// those over all bits before that index (clause `looks`). `vb_count::most_looks` bounds both. Does
/// not allocate. The caller must prove that the window is in bounds of the source and that
/// `offset + len` fits in a `usize`.
pub fn previous_unset_by<G: Glance>(
    src: &mut G,
    offset: usize,
    len: usize,
    before: usize,
) -> Option<usize>
    requires window { InBytes (G.seen src.old).bytes offset len }
    ensures value { IsPrevious (complement (bits (G.seen src.old).bytes offset len)) before result }
    ensures looks { LooksAtMost (looks offset (min len before)) (G.seen src.old) (G.seen src.new) }
    ensures stops { StopsAtPrevious (complement (bits (G.seen src.old).bytes offset len)) offset
        (min len before) (G.seen src.old) (G.seen src.new) }
{
    last_match_by(src, offset, len.min(before), false)
}

/// Returns the index of the last bit that is `value`.
///
/// It is inlined, so that the searches for set and for unset bits each have their own loops.
#[inline(always)]
fn last_match_by<G: Glance>(src: &mut G, offset: usize, len: usize, value: bool) -> Option<usize>
    requires window { InBytes (G.seen src.old).bytes offset len }
    ensures value { IsPrevious (hits value (bits (G.seen src.old).bytes offset len)) len result }
    ensures looks { LooksAtMost (looks offset len) (G.seen src.old) (G.seen src.new) }
    ensures stops { StopsAtPrevious (hits value (bits (G.seen src.old).bytes offset len)) offset len
        (G.seen src.old) (G.seen src.new) }
{
    let mut left = len;
    while left > 0 {
        let bits = last_look(offset, left);
        let from = left - bits;
        match nearest_in_look(src, offset + from, bits, value, Nearest::Last) {
            Some(place) => return Some(from + place),
            None => left = from,
        }
    }
    None
}

/// Returns the index of the last bit that is `value`.
///
/// It is inlined, so that the searches for set and for unset bits each have their own loops.
#[inline(always)]
fn last_match(bytes: &[u8], offset: usize, len: usize, value: bool) -> Option<usize>
    requires window { InBytes bytes.now offset len }
    ensures { IsPrevious (hits value (bits bytes.now offset len)) len result }
{
    if len == 0 {
        return None;
    }
    if len <= 64 {
        return last_in_few(bytes, offset, len, value);
    }
    let end = offset + len;
    let word = matches_before(bytes, end, value);
    if word != 0 {
        return Some(len - 1 - word.leading_zeros() as usize);
    }
    let read = 64 - (8 - end % 8) % 8;
    last_in_words(bytes, offset, len - read, value)
}

/// [`last_match`] of at most 64 bits.
#[inline(always)]
fn last_in_few(bytes: &[u8], offset: usize, len: usize, value: bool) -> Option<usize>
    requires few { len ≤ 64 }
    requires window { InBytes bytes.now offset len }
    ensures { IsPrevious (hits value (bits bytes.now offset len)) len result }
{
    let word = read_matches(bytes, offset, len, value);
    if word == 0 {
        return None;
    }
    Some(63 - word.leading_zeros() as usize)
}

/// [`last_match`] of a window that ends with a byte: by whole words, and then in the rest.
#[inline(always)]
fn last_in_words(bytes: &[u8], offset: usize, len: usize, value: bool) -> Option<usize>
    requires whole { (offset + len) % 8 ≡ 0 }
    requires window { InBytes bytes.now offset len }
    ensures { IsPrevious (hits value (bits bytes.now offset len)) len result }
{
    let mut left = len;
    while left > 0 {
        left = pass_words(bytes, offset, left, value);
        if left == 0 {
            return None;
        }
        let count = left.min(64);
        left -= count;
        let word = read_matches(bytes, offset + left, count, value);
        if word != 0 {
            return Some(left + (63 - word.leading_zeros() as usize));
        }
    }
    None
}

/// Passes whole words at the end of the `len` bits while none of their bits is `value`: eight at a
/// time, then four, then one by one. Returns the number of bits left. The bits must end at a whole
/// byte.
#[inline(always)]
fn pass_words(bytes: &[u8], offset: usize, len: usize, value: bool) -> usize
    requires whole { 0 < len → (offset + len) % 8 ≡ 0 }
    requires window { InBytes bytes.now offset len }
    ensures within { result ≤ len }
    ensures whole { 0 < result → (offset + result) % 8 ≡ 0 }
    ensures passed { (i : ℕ) → result ≤ i → i < len → bit_of bytes.now (offset + i) ≡ not value }
{
    let eights = pass_groups(bytes, offset, len, PASSED_WORDS, value);
    let fours = pass_groups(bytes, offset, eights, 4, value);
    pass_groups(bytes, offset, fours, 1, value)
}

/// [`pass_words`], `n` words at a time.
#[inline(always)]
fn pass_groups(bytes: &[u8], offset: usize, len: usize, n: usize, value: bool) -> usize
    requires some { 0 < n }
    requires few { n ≤ PASSED_WORDS }
    requires whole { 0 < len → (offset + len) % 8 ≡ 0 }
    requires window { InBytes bytes.now offset len }
    ensures within { result ≤ len }
    ensures whole { 0 < result → (offset + result) % 8 ≡ 0 }
    ensures passed { (i : ℕ) → result ≤ i → i < len → bit_of bytes.now (offset + i) ≡ not value }
{
    let mut left = len;
    while left >= 64 * n {
        if digits_of_any(bytes, (offset + left) / 8 - 8 * n, n, value) != 0 {
            return left;
        }
        left -= 64 * n;
    }
    left
}
