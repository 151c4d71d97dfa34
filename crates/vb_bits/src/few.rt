//! Combines windows of at most 64 bits, by one word and a ninth byte.
ghost use Rattle.std.specs.Prelude.{ℕ, ◌≡◌, ◌+◌, ◌*◌, ◌%◌, ◌^◌, ◌<◌, ◌≤◌, length};
ghost use Rattle.vb_bits.specs.Bits.{bits};
ghost use Rattle.vb_bits.specs.Digits.{digits};
ghost use Rattle.vb_bits.specs.InBytes.{InBytes};
ghost use Rattle.vb_bits.specs.Operators.{merged_by};
ghost use Rattle.vb_bits.specs.Writes.{Writes};

use crate::bytes::word_at;
use crate::operator::Merge;
use crate::read::{full_word, read_loose, read_u64_le};
use crate::word::with_digits;
use crate::write::{write_in_byte, write_in_word, write_u64_le};

/// Combines the `len` bits of `dst` from bit `d` on, at most 64, with the bits of `src` from bit
/// `s` on, and leaves every other bit of `dst` unchanged.
#[inline(never)]
pub(crate) fn merge_few<M: Merge>(dst: &mut [u8], d: usize, src: &[u8], s: usize, len: usize)
    requires in_word { len ≤ 64 }
    requires into { InBytes dst.old d len }
    requires from { s + len ≤ 8 * length src.now }
    ensures { Writes dst.old dst.new d
        (merged_by (M.bit) (bits dst.old d len) (bits src.now s len)) }
{
    if len == 64 && d % 8 == 0 {
        merge_in_word::<M>(dst, d / 8, 0, 64, full_word(src, s / 8, s % 8));
    } else if len > 0 {
        merge_digits::<M>(dst, d, len, read_loose(src, s, len));
    }
}

/// Combines the `count` bits of `dst` from bit `d` on with the lowest digits of `right`, and leaves
/// every other bit of `dst` unchanged.
#[inline(always)]
pub(crate) fn merge_digits<M: Merge>(dst: &mut [u8], d: usize, count: usize, right: u64)
    requires some { 0 < count }
    requires in_word { count ≤ 64 }
    requires into { InBytes dst.old d count }
    ensures { Writes dst.old dst.new d
        (merged_by (M.bit) (bits dst.old d count) (digits right 0 count)) }
{
    if d % 8 + count > 64 {
        let head = 64 - d % 8;
        merge_in_word::<M>(dst, d / 8, d % 8, head, right);
        merge_in_byte::<M>(dst, d / 8 + 8, count - head, right >> head);
        return;
    }
    if dst.len() < 8 {
        merge_in_bytes::<M>(dst, d, count, right);
    } else {
        merge_in_eight::<M>(dst, d, count, right);
    }
}

/// [`merge_digits`] within one word, for at least eight bytes: the word that starts at the byte of
/// bit `d`, or the last word of `dst`.
#[inline(always)]
pub(crate) fn merge_in_eight<M: Merge>(dst: &mut [u8], d: usize, count: usize, right: u64)
    requires some { 0 < count }
    requires in_word { d % 8 + count ≤ 64 }
    requires into { d + count ≤ 8 * length dst.old }
    requires eight { 8 ≤ length dst.old }
    ensures { Writes dst.old dst.new d
        (merged_by (M.bit) (bits dst.old d count) (digits right 0 count)) }
{
    let first = (d / 8).min(dst.len() - 8);
    merge_in_word::<M>(dst, first, d - 8 * first, count, right);
}

/// [`merge_digits`] within the word that starts at byte `first`, from its digit `from` on.
#[inline(always)]
fn merge_in_word<M: Merge>(dst: &mut [u8], first: usize, from: usize, count: usize, right: u64)
    requires some { 0 < count }
    requires in_word { from + count ≤ 64 }
    requires inside { first + 8 ≤ length dst.old }
    ensures { Writes dst.old dst.new (8 * first + from)
        (merged_by (M.bit) (bits dst.old (8 * first + from) count) (digits right 0 count)) }
{
    let left = word_at(dst, first) >> from;
    write_in_word(dst, first, from, count, M::word(left, right));
}

/// [`merge_digits`] for at most eight bytes.
#[inline(always)]
fn merge_in_bytes<M: Merge>(dst: &mut [u8], d: usize, count: usize, right: u64)
    requires some { 0 < count }
    requires few { length dst.old ≤ 8 }
    requires inside { d + count ≤ 8 * length dst.old }
    ensures { Writes dst.old dst.new d
        (merged_by (M.bit) (bits dst.old d count) (digits right 0 count)) }
{
    let old = read_u64_le(dst);
    write_u64_le(dst, with_digits(old, d, count, M::word(old >> d, right)));
}

/// [`merge_digits`] of the lowest `count` bits of byte `at`.
#[inline(always)]
fn merge_in_byte<M: Merge>(dst: &mut [u8], at: usize, count: usize, right: u64)
    requires few { count ≤ 8 }
    requires inside { at < length dst.old }
    requires fits { 8 * at < 2 ^ 64 }
    ensures { Writes dst.old dst.new (8 * at)
        (merged_by (M.bit) (bits dst.old (8 * at) count) (digits right 0 count)) }
{
    let left = u64::from(dst[at]);
    write_in_byte(dst, 8 * at, count, M::word(left, right));
}
