//! The bits that a mask selects, written into bytes.
ghost use Rattle.std.specs.Prelude.{◌≡◌, ◌+◌, ◌*◌, ◌/◌, ◌%◌, ◌^◌, ◌<◌, ◌≤◌, ◌++◌, length};
ghost use Rattle.std.specs.Prelude.{slice_range};
ghost use Rattle.vb_bits.specs.Bits.{bits, count};
ghost use Rattle.vb_bits.specs.Digits.{digits};
ghost use Rattle.vb_bits.specs.InBytes.{InBytes};
ghost use Rattle.vb_bits.specs.Kept.{kept_by};
ghost use Rattle.vb_bits.specs.Writes.{Writes};
ghost use Rattle.vb_filter.specs.Pending.{first_bits};
ghost use Rattle.vb_view.specs.View.{bits_of};

use crate::digits::pack_digits;
use crate::pending::{push_digits, write_pending};
use vb_bits::read_bits;
use vb_view::{BitBufferView, view_word};

/// Writes the bits of `values` whose bit of the mask is true, in order, to the first bits of `out`,
/// and returns their number. The other bits of `out` are unchanged.
///
/// The mask must have one bit for each bit of `values`, and `out` one bit for each set bit of the
/// mask. Processes 64 bits at a time: packs those that the mask selects, and writes a word at a
/// time. If it selects none of 64, the call reads no values. Does not allocate.
pub fn filter_into(out: &mut [u8], values: BitBufferView<'_>, mask: BitBufferView<'_>) -> usize
    requires same_len { length (bits_of values) ≡ length (bits_of mask) }
    requires room { count (bits_of mask) ≤ 8 * length out.old }
    ensures count { result ≡ count (bits_of mask.entry) }
    ensures kept { Writes out.old out.new 0 (kept_by (bits_of mask.entry) (bits_of values.entry)) }
{
    filter_behind(out, 0, 0, values, mask)
}

/// Writes the bits whose bit in the mask is true, in order, to `out` from bit `offset` on, and
/// returns their number. All other bits of `out` keep their values.
///
/// The mask must be as long as the bits. The selected bits must fit in `out` from bit `offset` on,
/// and `offset` plus their number must fit in a `usize`. Stores no byte after that of the last
/// selected bit, and at most eight before that of bit `offset`. Does not allocate. Works as
/// [`filter_into`] does, 64 bits at a time.
pub fn filter_into_at(
    out: &mut [u8],
    offset: usize,
    values: BitBufferView<'_>,
    mask: BitBufferView<'_>,
) -> usize
    requires same_len { length (bits_of values) ≡ length (bits_of mask) }
    requires room { InBytes out.old offset (count (bits_of mask)) }
    ensures count { result ≡ count (bits_of mask.entry) }
    ensures kept { Writes out.old out.new offset
        (kept_by (bits_of mask.entry) (bits_of values.entry)) }
{
    let pending = read_bits(out, offset - offset % 64, offset % 64);
    filter_behind(out, pending, offset, values, mask)
}

/// Returns the selected bits, in order, as the lowest digits of a word, and their number. The other
/// digits are 0. The mask must be as long as the bits, at most 64. Reads each window at most once.
pub fn filter_word(values: BitBufferView<'_>, mask: BitBufferView<'_>) -> (u64, usize)
    requires few { length (bits_of mask) ≤ 64 }
    requires same_len { length (bits_of values) ≡ length (bits_of mask) }
    ensures count { result.1 ≡ count (bits_of mask.entry) }
    ensures few { result.1 ≤ 64 }
    ensures kept { digits result.0 0 result.1
        ≡ kept_by (bits_of mask.entry) (bits_of values.entry) }
    ensures clear { result.0 < 2 ^ result.1 }
{
    kept_digits(values, mask, 0, mask.len())
}

/// Does what [`filter_into_at`] does; `pending` has the bits before bit `offset` that are in its
/// word.
#[inline(always)]
fn filter_behind(
    out: &mut [u8],
    pending: u64,
    offset: usize,
    values: BitBufferView<'_>,
    mask: BitBufferView<'_>,
) -> usize
    requires same_len { length (bits_of values) ≡ length (bits_of mask) }
    requires room { InBytes out.old offset (count (bits_of mask)) }
    requires pending { first_bits out.old pending offset ≡ bits out.old 0 offset }
    requires clear { pending < 2 ^ (offset % 64) }
    ensures count { result ≡ count (bits_of mask.entry) }
    ensures kept { Writes out.old out.new offset
        (kept_by (bits_of mask.entry) (bits_of values.entry)) }
{
    let total = mask.len();
    let whole = total / 64;
    let mut word = pending;
    let mut len = offset;
    for t in 0..whole {
        let (next, end) = push_kept(out, word, len, values, mask, 64 * t, 64);
        word = next;
        len = end;
    }
    let (last, end) = push_kept(out, word, len, values, mask, 64 * whole, total % 64);
    write_pending(out, last, end);
    end - offset
}

/// Appends bits to the `len` bits written so far: those that the mask selects of the `n` bits from
/// index `start` on. Returns the word that is pending then, and the number of bits written then.
///
/// If the mask selects none, one test is enough: a mask that selects few bits selects none in most
/// words.
#[inline(always)]
fn push_kept(
    out: &mut [u8],
    pending: u64,
    len: usize,
    values: BitBufferView<'_>,
    mask: BitBufferView<'_>,
    start: usize,
    n: usize,
) -> (u64, usize)
    requires few { n ≤ 64 }
    requires inside { start + n ≤ length (bits_of mask) }
    requires same_len { length (bits_of values) ≡ length (bits_of mask) }
    requires pending { pending < 2 ^ (len % 64) }
    requires room { InBytes out.old len
        (count (slice_range (bits_of mask) start (start + n))) }
    ensures number { result.1
        ≡ len + count (slice_range (bits_of mask.entry) start (start + n)) }
    ensures written { first_bits out.new result.0 result.1
        ≡ first_bits out.old pending len ++ kept_by
        (slice_range (bits_of mask.entry) start (start + n))
        (slice_range (bits_of values.entry) start (start + n)) }
    ensures clear { result.0 < 2 ^ (result.1 % 64) }
    ensures others { Writes out.old out.new 0 (bits out.new 0 (64 * (result.1 / 64))) }
{
    let (packed, added) = kept_digits(values, mask, start, n);
    if added == 0 {
        return (pending, len);
    }
    (push_digits(out, pending, len, packed, added), len + added)
}

/// Returns the bits that the mask selects among the `n` from index `start` on, as the lowest bits
/// of a word, and their number.
#[inline(always)]
fn kept_digits(
    values: BitBufferView<'_>,
    mask: BitBufferView<'_>,
    start: usize,
    n: usize,
) -> (u64, usize)
    requires few { n ≤ 64 }
    requires inside { start + n ≤ length (bits_of mask) }
    requires same_len { length (bits_of values) ≡ length (bits_of mask) }
    ensures count { result.1 ≡ count (slice_range (bits_of mask.entry) start (start + n)) }
    ensures few { result.1 ≤ 64 }
    ensures kept { digits result.0 0 result.1 ≡ kept_by
        (slice_range (bits_of mask.entry) start (start + n))
        (slice_range (bits_of values.entry) start (start + n)) }
    ensures clear { result.0 < 2 ^ result.1 }
{
    let keep = view_word(mask, start, n);
    if keep == 0 {
        return (0, 0);
    }
    let packed = pack_digits(view_word(values, start, n), keep);
    (packed, keep.count_ones() as usize)
}
