//! The values of a slice that a mask selects, moved to its front.
ghost use Rattle.std.specs.Prelude.{◌≡◌, ◌+◌, ◌^◌, ◌<◌, ◌≤◌, ◌++◌, count_ones, length, drop};
ghost use Rattle.std.specs.Prelude.{slice_range};
ghost use Rattle.vb_bits.specs.Bits.{count};
ghost use Rattle.vb_bits.specs.Digits.{digits};
ghost use Rattle.vb_bits.specs.Kept.{kept_by};
ghost use Rattle.vb_filter.specs.Gathered.{PutsAt};
ghost use Rattle.vb_view.specs.View.{bits_of};

use vb_view::{BitBufferView, view_word};

/// Moves the values whose bit of the mask is true, in order, to the front of the slice, and returns
/// their number. The values from that index on are unchanged.
///
/// The mask must have one bit for each value. Processes 64 bits at a time: moves 64 values as a
/// block if all bits are true, else each selected value on its own, and reads no others. Stores
/// nothing from the returned index on. Does not allocate.
pub fn retain_values<T: Copy>(values: &mut [T], mask: BitBufferView<'_>) -> usize
    requires same_len { length values.old ≡ length (bits_of mask) }
    ensures count { result ≡ count (bits_of mask.entry) }
    ensures kept { values.new
        ≡ kept_by (bits_of mask.entry) values.old ++ drop result values.old }
{
    let whole = mask.len() / 64;
    let mut len = 0;
    for t in 0..whole {
        let keep = view_word(mask, 64 * t, 64);
        len += move_word(values, len, 64 * t, 64, keep);
    }
    let n = mask.len() % 64;
    if n == 0 {
        return len;
    }
    let keep = view_word(mask, 64 * whole, n);
    len + move_word(values, len, 64 * whole, n, keep)
}

/// Moves values behind the first `len` values, and returns the number of moved ones: of the `n`
/// values from index `start` on, it moves value `start + k` if bit `k` of `keep` is 1.
#[inline(always)]
fn move_word<T: Copy>(values: &mut [T], len: usize, start: usize, n: usize, keep: u64) -> usize
    requires few { n ≤ 64 }
    requires clear { keep < 2 ^ n }
    requires before { len ≤ start }
    requires inside { start + n ≤ length values.old }
    ensures count { result ≡ count_ones keep }
    ensures kept { PutsAt len
        (kept_by (digits keep 0 n) (slice_range values.old start (start + n)))
        values.old values.new }
{
    let count = keep.count_ones() as usize;
    if count == n {
        if len < start {
            values.copy_within(start..start + n, len);
        }
        return count;
    }
    let mut end = len;
    let mut left = keep;
    while left != 0 {
        let place = left.trailing_zeros() as usize;
        values[end] = values[start + place];
        end += 1;
        left &= left - 1;
    }
    count
}
