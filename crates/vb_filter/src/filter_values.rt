//! The values of a slice that a mask selects, written into another slice.
ghost use Rattle.std.specs.Prelude.{◌≡◌, ◌+◌, ◌^◌, ◌<◌, ◌≤◌, ◌++◌, count_ones, length, drop};
ghost use Rattle.vb_bits.specs.Bits.{count};
ghost use Rattle.vb_bits.specs.Digits.{digits};
ghost use Rattle.vb_bits.specs.Kept.{kept_by};
ghost use Rattle.vb_filter.specs.Gathered.{PutsAt};
ghost use Rattle.vb_view.specs.View.{bits_of};

use vb_view::{BitBufferView, view_word};

/// Writes the values whose bit of the mask is true, in order, to the front of `out`, and returns
/// their number. The other items of `out` are unchanged.
///
/// The mask must have one bit for each value, and `out` one item for each set bit of the mask.
/// Processes 64 bits at a time: copies 64 values as a block if all bits are true, else each
/// selected value on its own, and reads no others. Does not allocate.
pub fn filter_values_into<T: Copy>(out: &mut [T], values: &[T], mask: BitBufferView<'_>) -> usize
    requires same_len { length values.now ≡ length (bits_of mask) }
    requires room { count (bits_of mask) ≤ length out.old }
    ensures count { result ≡ count (bits_of mask.entry) }
    ensures kept { out.new ≡ kept_by (bits_of mask.entry) values.now ++ drop result out.old }
{
    filter_words::<T, OneByOne>(out, values, mask)
}

/// A way to write the selected ones of at most 64 values. Each way is a type, so that it has its
/// own loop.
pub(crate) trait PutWord<T> {
    /// Writes the values whose bit of `keep` is 1 after the first `len` items of `out`, and returns
    /// their number.
    fn put_word(out: &mut [T], len: usize, values: &[T], keep: u64) -> usize
        requires few { length values.now ≤ 64 }
        requires clear { keep < 2 ^ length values.now }
        requires room { len + count_ones keep ≤ length out.old }
        ensures count { result ≡ count_ones keep }
        ensures kept { PutsAt len (kept_by (digits keep 0 (length values.now)) values.now)
            out.old out.new };
}

/// Writes the values by [`put_word`].
struct OneByOne;

impl<T: Copy> PutWord<T> for OneByOne {
    #[inline(always)]
    fn put_word(out: &mut [T], len: usize, values: &[T], keep: u64) -> usize {
        put_word(out, len, values, keep)
    }
}

/// Does [`filter_values_into`], and writes the values of each word by `W`.
#[inline(always)]
pub(crate) fn filter_words<T: Copy, W: PutWord<T>>(
    out: &mut [T],
    values: &[T],
    mask: BitBufferView<'_>,
) -> usize
    requires same_len { length values.now ≡ length (bits_of mask) }
    requires room { count (bits_of mask) ≤ length out.old }
    ensures count { result ≡ count (bits_of mask.entry) }
    ensures kept { out.new ≡ kept_by (bits_of mask.entry) values.now ++ drop result out.old }
{
    let whole = mask.len() / 64;
    let mut len = 0;
    for t in 0..whole {
        let keep = view_word(mask, 64 * t, 64);
        len += W::put_word(out, len, &values[64 * t..64 * t + 64], keep);
    }
    let n = mask.len() % 64;
    if n == 0 {
        return len;
    }
    let keep = view_word(mask, 64 * whole, n);
    len + W::put_word(out, len, &values[64 * whole..64 * whole + n], keep)
}

/// Writes the values whose bit of `keep` is 1, the lowest bit first, to the front of `out`, and
/// returns their number, as [`filter_values_into`] does by a mask of at most 64 bits. The other
/// items of `out` are unchanged.
///
/// There must be at most 64 values, no 1 in `keep` after the bits of these, and one item of `out`
/// for each 1. Does not allocate.
#[inline]
pub fn filter_word_into<T: Copy>(out: &mut [T], values: &[T], keep: u64) -> usize
    requires few { length values.now ≤ 64 }
    requires clear { keep < 2 ^ length values.now }
    requires room { count_ones keep ≤ length out.old }
    ensures count { result ≡ count_ones keep }
    ensures kept { out.new
        ≡ kept_by (digits keep 0 (length values.now)) values.now ++ drop result out.old }
{
    put_word(out, 0, values, keep)
}

/// Writes the values whose bit of `keep` is 1 after the first `len` items of `out`, and returns
/// their number.
#[inline(always)]
pub(crate) fn put_word<T: Copy>(out: &mut [T], len: usize, values: &[T], keep: u64) -> usize
    requires few { length values.now ≤ 64 }
    requires clear { keep < 2 ^ length values.now }
    requires room { len + count_ones keep ≤ length out.old }
    ensures count { result ≡ count_ones keep }
    ensures kept { PutsAt len (kept_by (digits keep 0 (length values.now)) values.now)
        out.old out.new }
{
    let count = keep.count_ones() as usize;
    if count == values.len() {
        out[len..len + count].copy_from_slice(values);
    } else {
        put_places(out, len, values, keep);
    }
    count
}

/// Writes the values whose bit of `keep` is 1 after the first `len` items of `out`, one by one.
#[inline(always)]
pub(crate) fn put_places<T: Copy>(out: &mut [T], len: usize, values: &[T], keep: u64)
    requires few { length values.now ≤ 64 }
    requires clear { keep < 2 ^ length values.now }
    requires room { len + count_ones keep ≤ length out.old }
    ensures { PutsAt len (kept_by (digits keep 0 (length values.now)) values.now) out.old out.new }
{
    let mut end = len;
    let mut left = keep;
    while left != 0 {
        let place = left.trailing_zeros() as usize;
        out[end] = values[place];
        end += 1;
        left &= left - 1;
    }
}
