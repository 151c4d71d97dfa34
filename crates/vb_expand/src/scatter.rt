//! Values scattered by a mask.
ghost use Rattle.std.specs.Prelude.{◌≡◌, ◌+◌, ◌^◌, ◌<◌, ◌≤◌, count_ones, drop, length, take};
ghost use Rattle.vb_bits.specs.Bits.{complement, count};
ghost use Rattle.vb_bits.specs.Digits.{digits};
ghost use Rattle.vb_bits.specs.Kept.{kept_by};
ghost use Rattle.vb_expand.specs.Scatter.{scattered_by};
ghost use Rattle.vb_view.specs.View.{bits_of};

use vb_view::{BitBufferView, view_word};

/// Writes the values, in order, over the items of `out` whose bit in the mask is true. Returns
/// their number. The other items of `out` are unchanged. Undoes a filter by the mask: the mask
/// selects the written values from the new items.
///
/// The mask must be as long as `out`, and must not have more true bits than there are values;
/// further values are ignored. Processes 64 bits at a time: copies a block of values if all are
/// true, else writes the selected items one by one.
pub fn scatter_values_into<T: Copy>(out: &mut [T], values: &[T], mask: BitBufferView<'_>) -> usize
    requires same_len { length out.old ≡ length (bits_of mask) }
    requires enough { count (bits_of mask) ≤ length values.now }
    ensures count { result ≡ count (bits_of mask.entry) }
    ensures scattered { out.new ≡ scattered_by (bits_of mask.entry) values.now out.old }
    ensures kept { kept_by (bits_of mask.entry) out.new ≡ take result values.now }
    ensures others { kept_by (complement (bits_of mask.entry)) out.new
        ≡ kept_by (complement (bits_of mask.entry)) out.old }
{
    let whole = mask.len() / 64;
    let mut taken = 0;
    for t in 0..whole {
        let places = view_word(mask, 64 * t, 64);
        taken += scatter_word(&mut out[64 * t..64 * t + 64], values, taken, places);
    }
    let n = mask.len() % 64;
    let places = view_word(mask, 64 * whole, n);
    taken + scatter_word(&mut out[64 * whole..64 * whole + n], values, taken, places)
}

/// Writes the values after the first `taken` over the items whose bit of `places` is 1. Returns
/// their number.
#[inline(always)]
fn scatter_word<T: Copy>(out: &mut [T], values: &[T], taken: usize, places: u64) -> usize
    requires few { length out.old ≤ 64 }
    requires clear { places < 2 ^ length out.old }
    requires enough { taken + count_ones places ≤ length values.now }
    ensures count { result ≡ count_ones places }
    ensures scattered { out.new
        ≡ scattered_by (digits places 0 (length out.old)) (drop taken values.now) out.old }
{
    let count = places.count_ones() as usize;
    if count == out.len() {
        out.copy_from_slice(&values[taken..taken + count]);
    } else {
        scatter_ones(out, values, taken, places);
    }
    count
}

/// Does [`scatter_word`] one by one.
#[inline(always)]
fn scatter_ones<T: Copy>(out: &mut [T], values: &[T], taken: usize, places: u64)
    requires few { length out.old ≤ 64 }
    requires clear { places < 2 ^ length out.old }
    requires enough { taken + count_ones places ≤ length values.now }
    ensures { out.new
        ≡ scattered_by (digits places 0 (length out.old)) (drop taken values.now) out.old }
{
    let mut next = taken;
    let mut left = places;
    while left != 0 {
        let place = left.trailing_zeros() as usize;
        out[place] = values[next];
        next += 1;
        left &= left - 1;
    }
}
