//! Bits deposited at the set bits of a mask.
ghost use Rattle.std.specs.Prelude.{◌≡◌, ◌+◌, ◌^◌, ◌<◌, ◌≤◌, false, drop, length, replicate};
ghost use Rattle.std.specs.Prelude.{slice_range};
ghost use Rattle.vb_bits.specs.Bits.{bits, complement, count};
ghost use Rattle.vb_bits.specs.Digits.{digits};
ghost use Rattle.vb_bits.specs.InBytes.{InBytes};
ghost use Rattle.vb_bits.specs.Kept.{kept_by};
ghost use Rattle.vb_bits.specs.Writes.{Writes};
ghost use Rattle.vb_filter.specs.Spread.{spread_by};
ghost use Rattle.vb_view.specs.View.{bits_of};

use crate::pending::{push_digits, write_pending};
use crate::spread::spread_digits;
use vb_bits::{full_word, read_bits, write_digits};
use vb_view::{BitBufferView, view_word};

/// Writes one bit for each bit of the mask to the bits of `out` from bit `offset` on: the bits of
/// `values`, in order, where the mask is true, and false elsewhere. The other bits of `out` are
/// unchanged.
///
/// It undoes [`filter_into`](crate::filter_into): the mask selects `values` from the new bits.
/// `values` must have one bit for each set bit of the mask. `out` must have `offset` bits and one
/// more for each bit of the mask, and `offset` plus the length of the mask must fit in a `usize`.
///
/// Processes 64 bits of the mask at a time, and writes a word at a time. If the mask has at most 64
/// bits, it builds one word. If none of 64 is true, it reads no values. Does not allocate.
pub fn deposit_into(
    out: &mut [u8],
    offset: usize,
    values: BitBufferView<'_>,
    mask: BitBufferView<'_>,
)
    requires same_count { length (bits_of values) ≡ count (bits_of mask) }
    requires room { InBytes out.old offset (length (bits_of mask)) }
    ensures spread { Writes out.old out.new offset
        (spread_by (bits_of mask.entry) (bits_of values.entry)) }
    ensures kept { kept_by (bits_of mask.entry)
        (bits out.new offset (length (bits_of mask.entry))) ≡ bits_of values.entry }
    ensures others { kept_by (complement (bits_of mask.entry))
        (bits out.new offset (length (bits_of mask.entry)))
        ≡ replicate (count (complement (bits_of mask.entry))) false }
{
    if mask.len() <= 64 {
        deposit_few(out, offset, values, mask);
    } else {
        deposit_many(out, offset, values, mask);
    }
}

/// Does [`deposit_into`] for a mask of at most 64 bits, by one word.
fn deposit_few(out: &mut [u8], offset: usize, values: BitBufferView<'_>, mask: BitBufferView<'_>)
    requires few { length (bits_of mask) ≤ 64 }
    requires same_count { length (bits_of values) ≡ count (bits_of mask) }
    requires room { InBytes out.old offset (length (bits_of mask)) }
    ensures { Writes out.old out.new offset
        (spread_by (bits_of mask.entry) (bits_of values.entry)) }
{
    let total = mask.len();
    let (word, _) = spread_digits_of(values, 0, mask, 0, total);
    write_digits(out, offset, total, word);
}

/// Does [`deposit_into`] for a mask of any length, a word at a time.
fn deposit_many(out: &mut [u8], offset: usize, values: BitBufferView<'_>, mask: BitBufferView<'_>)
    requires same_count { length (bits_of values) ≡ count (bits_of mask) }
    requires room { InBytes out.old offset (length (bits_of mask)) }
    ensures { Writes out.old out.new offset
        (spread_by (bits_of mask.entry) (bits_of values.entry)) }
{
    let total = mask.len();
    let whole = total / 64;
    let mut pending = read_bits(out, offset - offset % 64, offset % 64);
    let mut taken = 0;
    for t in 0..whole {
        let (word, added) = spread_digits_of(values, taken, mask, 64 * t, 64);
        pending = push_digits(out, pending, offset + 64 * t, word, 64);
        taken += added;
    }
    let (word, _) = spread_digits_of(values, taken, mask, 64 * whole, total % 64);
    pending = push_digits(out, pending, offset + 64 * whole, word, total % 64);
    write_pending(out, pending, offset + total);
}

/// Returns a word with the values from index `taken` on, deposited at the set bits of a part of the
/// mask: its `n` bits from index `start` on. Returns the number of these values too.
#[inline(always)]
fn spread_digits_of(
    values: BitBufferView<'_>,
    taken: usize,
    mask: BitBufferView<'_>,
    start: usize,
    n: usize,
) -> (u64, usize)
    requires few { n ≤ 64 }
    requires inside { start + n ≤ length (bits_of mask) }
    requires enough { taken + count (slice_range (bits_of mask) start (start + n))
        ≤ length (bits_of values) }
    ensures count { result.1 ≡ count (slice_range (bits_of mask.entry) start (start + n)) }
    ensures spread { digits result.0 0 n ≡ spread_by
        (slice_range (bits_of mask.entry) start (start + n)) (drop taken (bits_of values.entry)) }
    ensures clear { result.0 < 2 ^ n }
{
    let places = view_word(mask, start, n);
    if places == 0 {
        return (0, 0);
    }
    let added = places.count_ones() as usize;
    (
        spread_digits(word_from(values, taken, added), places),
        added,
    )
}

/// Returns the `n` bits from index `start` on as the lowest bits of a word; its higher bits may be
/// any.
///
/// If nine bytes are left, it makes two loads for any `n`.
#[inline(always)]
#[tactic(auto, using(vb_bits::proofs::WindowLemmas::windows))]
fn word_from(view: BitBufferView<'_>, start: usize, n: usize) -> u64
    requires few { n ≤ 64 }
    requires inside { start + n ≤ length (bits_of view) }
    ensures { digits result 0 n ≡ slice_range (bits_of view.entry) start (start + n) }
{
    let bytes = view.inner();
    let at = view.offset() + start;
    if bytes.len() - at / 8 > 8 {
        full_word(bytes, at / 8, at % 8)
    } else {
        read_bits(bytes, at, n)
    }
}
