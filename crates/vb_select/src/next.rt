// Written in part by tools/write-lists from tools/families/nearest.txt.
//! The next bit with a given value, from an index on.
ghost use Rattle.std.specs.Prelude.{◌≡◌, ◌+◌, ◌-◌, ◌*◌, ◌%◌, ◌^◌, ◌<◌, ◌≤◌, ◌↔◌, length, IsTrue};
ghost use Rattle.vb_bits.specs.Bits.{bits, count, complement};
ghost use Rattle.vb_bits.specs.InBytes.{InBytes};
ghost use Rattle.vb_bits.specs.Nearest.{IsNext};
ghost use Rattle.vb_count.specs.Hits.{hits};
ghost use Rattle.vb_count.specs.Looks.{looks, LooksAtMost, StopsAtNext};

use crate::matches::{digits_of_any, matches_before, read_matches};
use crate::nearest::{Nearest, nearest_in_look};
use vb_bits::word_at;
use vb_count::{Glance, first_look};
use vb_walk::{first_other, others};

/// Returns the index of the first set bit from index `from` on, or `None` if there is none; from
/// `len` on there is none. Indices are relative to the window. The caller must prove that the
/// window is in bounds and that `offset + len` fits in a `usize`.
///
/// It reads the eight bytes from the byte of index `from` on, then the next eight, and then four
/// words at a time, up to the four that contain the bit.
pub fn next_set(bytes: &[u8], offset: usize, len: usize, from: usize) -> Option<usize>
    requires window { InBytes bytes.now offset len }
    ensures { IsNext (bits bytes.now offset len) from result }
{
    next_match(bytes, offset, len, from, true)
}

/// Returns the index of the first unset bit from index `from` on, or `None` if there is none; from
/// `len` on there is none. Indices are relative to the window. The caller must prove that the
/// window is in bounds and that `offset + len` fits in a `usize`.
///
/// It reads as [`next_set`] does.
pub fn next_unset(bytes: &[u8], offset: usize, len: usize, from: usize) -> Option<usize>
    requires window { InBytes bytes.now offset len }
    ensures { IsNext (complement (bits bytes.now offset len)) from result }
{
    next_match(bytes, offset, len, from, false)
}

/// Returns whether any bit of the window is set, which is false for a window of no bits. The caller
/// must prove that the window is in bounds and that `offset + len` fits in a `usize`.
///
/// It reads up to 64 bits as one word. Of more bits it reads the first eight bytes, then the last
/// eight, and then the words between, eight at a time, up to those that have a set bit.
pub fn any_set(bytes: &[u8], offset: usize, len: usize) -> bool
    requires window { InBytes bytes.now offset len }
    ensures { IsTrue result ↔ (0 < count (bits bytes.now offset len)) }
{
    !is_without(bytes, offset, len, true)
}

/// Returns whether all bits of the window are set, which is true for a window of no bits. The
/// caller must prove that the window is in bounds and that `offset + len` fits in a `usize`. It
/// reads as [`any_set`] does, up to the words that have an unset bit.
pub fn all_set(bytes: &[u8], offset: usize, len: usize) -> bool
    requires window { InBytes bytes.now offset len }
    ensures { IsTrue result ↔ (count (bits bytes.now offset len) ≡ len) }
{
    is_without(bytes, offset, len, false)
}

/// [`next_set`] of a counted source: returns the index of the first set bit from index `from` on,
/// or `None` if there is none. Indices are relative to the window.
///
/// If it finds a bit, its looks are at most those of `vb_count::count_ones_by` over the bits from
/// index `from` up to that bit, included (clause `stops`). If it finds none, they are at most those
/// over all bits from index `from` on (clause `looks`). `vb_count::most_looks` bounds both. Does
/// not allocate. The caller must prove that the window is in bounds of the source and that
/// `offset + len` fits in a `usize`.
pub fn next_set_by<G: Glance>(src: &mut G, offset: usize, len: usize, from: usize) -> Option<usize>
    requires window { InBytes (G.seen src.old).bytes offset len }
    ensures value { IsNext (bits (G.seen src.old).bytes offset len) from result }
    ensures looks { LooksAtMost (looks (offset + from) (len - from))
        (G.seen src.old) (G.seen src.new) }
    ensures stops { StopsAtNext (bits (G.seen src.old).bytes offset len) offset from
        (G.seen src.old) (G.seen src.new) }
{
    next_match_by(src, offset, len, from, true)
}

/// [`next_unset`] of a counted source: returns the index of the first unset bit from index `from`
/// on, or `None` if there is none. Indices are relative to the window.
///
/// If it finds a bit, its looks are at most those of `vb_count::count_ones_by` over the bits from
/// index `from` up to that bit, included (clause `stops`). If it finds none, they are at most those
/// over all bits from index `from` on (clause `looks`). `vb_count::most_looks` bounds both. Does
/// not allocate. The caller must prove that the window is in bounds of the source and that
/// `offset + len` fits in a `usize`.
pub fn next_unset_by<G: Glance>(
    src: &mut G,
    offset: usize,
    len: usize,
    from: usize,
) -> Option<usize>
    requires window { InBytes (G.seen src.old).bytes offset len }
    ensures value { IsNext (complement (bits (G.seen src.old).bytes offset len)) from result }
    ensures looks { LooksAtMost (looks (offset + from) (len - from))
        (G.seen src.old) (G.seen src.new) }
    ensures stops { StopsAtNext (complement (bits (G.seen src.old).bytes offset len)) offset from
        (G.seen src.old) (G.seen src.new) }
{
    next_match_by(src, offset, len, from, false)
}

/// [`any_set`] of a counted source: returns whether any bit of the window is set.
///
/// If it finds a set bit, its looks are at most those of `vb_count::count_ones_by` over the bits up
/// to that bit, included (clause `stops`). If it finds none, they are at most those over all bits
/// (clause `looks`). `vb_count::most_looks` bounds both. Does not allocate. The caller must prove
/// that the window is in bounds of the source and that `offset + len` fits in a `usize`.
pub fn any_set_by<G: Glance>(src: &mut G, offset: usize, len: usize) -> bool
    requires window { InBytes (G.seen src.old).bytes offset len }
    ensures value { IsTrue result ↔ (0 < count (bits (G.seen src.old).bytes offset len)) }
    ensures looks { LooksAtMost (looks offset len) (G.seen src.old) (G.seen src.new) }
    ensures stops { StopsAtNext (bits (G.seen src.old).bytes offset len) offset 0
        (G.seen src.old) (G.seen src.new) }
{
    next_set_by(src, offset, len, 0).is_some()
}

/// [`all_set`] of a counted source: returns whether all bits of the window are set.
///
/// If it finds an unset bit, its looks are at most those of `vb_count::count_ones_by` over the bits
/// up to that bit, included (clause `stops`). If it finds none, they are at most those over all
/// bits (clause `looks`). `vb_count::most_looks` bounds both. Does not allocate. The caller must
/// prove that the window is in bounds of the source and that `offset + len` fits in a `usize`.
pub fn all_set_by<G: Glance>(src: &mut G, offset: usize, len: usize) -> bool
    requires window { InBytes (G.seen src.old).bytes offset len }
    ensures value { IsTrue result ↔ (count (bits (G.seen src.old).bytes offset len) ≡ len) }
    ensures looks { LooksAtMost (looks offset len) (G.seen src.old) (G.seen src.new) }
    ensures stops { StopsAtNext (complement (bits (G.seen src.old).bytes offset len)) offset 0
        (G.seen src.old) (G.seen src.new) }
{
    next_unset_by(src, offset, len, 0).is_none()
}

/// Returns the index of the first bit from index `from` on that is `value`.
///
/// It is inlined, so that the searches for set and for unset bits each have their own code.
#[inline(always)]
fn next_match_by<G: Glance>(
    src: &mut G,
    offset: usize,
    len: usize,
    from: usize,
    value: bool,
) -> Option<usize>
    requires window { InBytes (G.seen src.old).bytes offset len }
    ensures value { IsNext (hits value (bits (G.seen src.old).bytes offset len)) from result }
    ensures looks { LooksAtMost (looks (offset + from) (len - from))
        (G.seen src.old) (G.seen src.new) }
    ensures stops { StopsAtNext (hits value (bits (G.seen src.old).bytes offset len)) offset from
        (G.seen src.old) (G.seen src.new) }
{
    let mut at = from;
    while at < len {
        let bits = first_look(offset + at, len - at);
        match nearest_in_look(src, offset + at, bits, value, Nearest::First) {
            Some(place) => return Some(at + place),
            None => at += bits,
        }
    }
    None
}

/// Returns the index of the first bit from index `from` on that is `value`.
///
/// It is inlined, so that the searches for set and for unset bits each have their own code.
#[inline(always)]
fn next_match(bytes: &[u8], offset: usize, len: usize, from: usize, value: bool) -> Option<usize>
    requires window { InBytes bytes.now offset len }
    ensures { IsNext (hits value (bits bytes.now offset len)) from result }
{
    if len <= from {
        return None;
    }
    let at = offset + from;
    if bytes.len() - at / 8 < 8 {
        return next_in_rest(bytes, offset, len, from, value);
    }
    let word = others(word_at(bytes, at / 8), !value) >> (at % 8);
    if word == 0 {
        let read = 64 - at % 8;
        if len - from <= read {
            return None;
        }
        return next_in_words(bytes, offset, len, from + read, value);
    }
    let digit = word.trailing_zeros() as usize;
    if digit < len - from {
        Some(from + digit)
    } else {
        None
    }
}

/// [`next_match`] from an index that starts a byte: by whole words, and then in the rest.
#[inline(always)]
fn next_in_words(bytes: &[u8], offset: usize, len: usize, from: usize, value: bool) -> Option<usize>
    requires window { InBytes bytes.now offset len }
    requires within { from ≤ len }
    requires aligned { (offset + from) % 8 ≡ 0 }
    ensures { IsNext (hits value (bits bytes.now offset len)) from result }
{
    let left = (len - from) % 64;
    let byte = (offset + from) / 8;
    match first_other(bytes, byte, byte + (len - from) / 64 * 8, !value) {
        Some(other) => {
            let digit = others(other.word, !value).trailing_zeros() as usize;
            Some(8 * (other.behind - 8) - offset + digit)
        },
        None => next_in_rest(bytes, offset, len, len - left, value),
    }
}

/// [`next_match`] if at most 64 bits are left.
#[inline(always)]
fn next_in_rest(bytes: &[u8], offset: usize, len: usize, from: usize, value: bool) -> Option<usize>
    requires window { InBytes bytes.now offset len }
    requires within { from ≤ len }
    requires few { len - from ≤ 64 }
    ensures { IsNext (hits value (bits bytes.now offset len)) from result }
{
    let word = read_matches(bytes, offset + from, len - from, value);
    if word == 0 {
        return None;
    }
    Some(from + word.trailing_zeros() as usize)
}

/// Returns whether no bit of the window is `value`.
///
/// It is inlined, so that the searches for set and for unset bits each have their own code.
#[inline(always)]
fn is_without(bytes: &[u8], offset: usize, len: usize, value: bool) -> bool
    requires window { InBytes bytes.now offset len }
    ensures { IsTrue result ↔ (count (hits value (bits bytes.now offset len)) ≡ 0) }
{
    if len <= 64 {
        return read_matches(bytes, offset, len, value) == 0;
    }
    let word = others(word_at(bytes, offset / 8), !value) >> (offset % 8);
    if word != 0 {
        return false;
    }
    is_without_behind(bytes, offset, len, value)
}

/// [`is_without`] if the window continues after its first eight bytes, and none of its bits in
/// these is `value`: by the last eight bytes, and then by the words between.
#[inline(always)]
fn is_without_behind(bytes: &[u8], offset: usize, len: usize, value: bool) -> bool
    requires window { InBytes bytes.now offset len }
    requires more { 64 - offset % 8 < len }
    requires none { count (hits value (bits bytes.now offset (64 - offset % 8))) ≡ 0 }
    ensures { IsTrue result ↔ (count (hits value (bits bytes.now offset len)) ≡ 0) }
{
    if matches_before(bytes, offset + len, value) != 0 {
        return false;
    }
    are_without(bytes, offset / 8 + 8, (len - (64 - offset % 8)) / 64, value)
}

/// [`is_without`] of the `n` words from byte `at` on: eight at once, then four, then one by one.
#[inline(always)]
fn are_without(bytes: &[u8], at: usize, n: usize, value: bool) -> bool
    requires inside { at + 8 * n ≤ length bytes.now }
    ensures { IsTrue result ↔ (count (hits value (bits bytes.now (8 * at) (64 * n))) ≡ 0) }
{
    let eights = pass_groups(bytes, at, n, 0, 8, value);
    let fours = pass_groups(bytes, at, n, eights, 4, value);
    let ones = pass_groups(bytes, at, n, fours, 1, value);
    ones == n
}

/// Passes words, `size` at a time, of the `n` words from byte `at` on, while none of their bits is
/// `value`. Starts after the first `done` words, which have no such bit. Returns the number of
/// words passed, including these.
#[inline(always)]
fn pass_groups(bytes: &[u8], at: usize, n: usize, done: usize, size: usize, value: bool) -> usize
    requires some { 0 < size }
    requires inside { at + 8 * n ≤ length bytes.now }
    requires within { done ≤ n }
    requires none { count (hits value (bits bytes.now (8 * at) (64 * done))) ≡ 0 }
    ensures within { result ≤ n }
    ensures none { count (hits value (bits bytes.now (8 * at) (64 * result))) ≡ 0 }
    ensures found { size ≤ n - result
        → 0 < count (hits value (bits bytes.now (8 * at) (64 * n))) }
{
    let mut passed = done;
    while n - passed >= size {
        if digits_of_any(bytes, at + 8 * passed, size, value) != 0 {
            return passed;
        }
        passed += size;
    }
    passed
}
