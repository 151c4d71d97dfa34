// Written in part by tools/write-lists from tools/families/filter.txt.
//! Values that a mask selects.
ghost use Rattle.std.specs.Prelude.{◌≡◌, ◌^◌, ◌<◌, ◌≤◌, length};
ghost use Rattle.vb_bits.specs.Bits.{bits, count};
ghost use Rattle.vb_bits.specs.Digits.{digits};
ghost use Rattle.vb_c_core.specs.Fits.{DoneIf, KeptFits};
ghost use Rattle.vb_c_gather.specs.Filtered.{Filters};

use crate::wide::Wide;
use vb_bits::{read_word, window_fits};
use vb_core::Element;
use vb_count::count_ones_wide;
use vb_filter::{filter_elements_into, filter_word_into};
use vb_view::BitBufferView;

/// Writes the values that the mask selects to the front of `out`, in order, and returns their
/// number. A value is selected if its bit of `mask`, from bit `m` on, is true. `out` must have an
/// item for each selected value; the items after these are unchanged.
#[unsafe(no_mangle)]
pub extern "C" fn vb_filter_values_u8(out: &mut [u8], values: &[u8], mask: &[u8], m: usize) -> usize
    requires { KeptFits mask.now m (length values.now) (length out.old) }
    ensures { Filters (bits mask.now m (length values.now)) values.now out.old out.new result }
{
    filter_values(out, values, mask, m)
}

/// Returns whether the bytes of the mask have a bit for each value, and `out` an item for each
/// selected value. If so, does [`vb_filter_values_u8`] and writes its result to `written`; else
/// leaves `out` and `written` unchanged.
#[unsafe(no_mangle)]
pub extern "C" fn vb_try_filter_values_u8(
    out: &mut [u8],
    values: &[u8],
    mask: &[u8],
    m: usize,
    written: &mut usize,
) -> bool
    ensures { DoneIf (KeptFits mask.now m (length values.now) (length out.old))
        (Filters (bits mask.now m (length values.now)) values.now out.old out.new written.new)
        ((out.new ≡ out.old) × (written.new ≡ written.old)) result }
{
    try_filter_values(out, values, mask, m, written)
}

/// Writes the values that the mask selects to the front of `out`, in order, and returns their
/// number. A value of two bytes is selected if its bit of `mask`, from bit `m` on, is true. `out`
/// must have an item for each selected value; the items after these are unchanged.
#[unsafe(no_mangle)]
pub extern "C" fn vb_filter_values_u16(
    out: &mut [u16],
    values: &[u16],
    mask: &[u8],
    m: usize,
) -> usize
    requires { KeptFits mask.now m (length values.now) (length out.old) }
    ensures { Filters (bits mask.now m (length values.now)) values.now out.old out.new result }
{
    filter_values(out, values, mask, m)
}

/// Returns whether the bytes of the mask have a bit for each value, and `out` an item for each
/// selected value. If so, does [`vb_filter_values_u16`] and writes its result to `written`; else
/// leaves `out` and `written` unchanged.
#[unsafe(no_mangle)]
pub extern "C" fn vb_try_filter_values_u16(
    out: &mut [u16],
    values: &[u16],
    mask: &[u8],
    m: usize,
    written: &mut usize,
) -> bool
    ensures { DoneIf (KeptFits mask.now m (length values.now) (length out.old))
        (Filters (bits mask.now m (length values.now)) values.now out.old out.new written.new)
        ((out.new ≡ out.old) × (written.new ≡ written.old)) result }
{
    try_filter_values(out, values, mask, m, written)
}

/// Writes the values that the mask selects to the front of `out`, in order, and returns their
/// number. A value of four bytes is selected if its bit of `mask`, from bit `m` on, is true. `out`
/// must have an item for each selected value; the items after these are unchanged.
#[unsafe(no_mangle)]
pub extern "C" fn vb_filter_values_u32(
    out: &mut [u32],
    values: &[u32],
    mask: &[u8],
    m: usize,
) -> usize
    requires { KeptFits mask.now m (length values.now) (length out.old) }
    ensures { Filters (bits mask.now m (length values.now)) values.now out.old out.new result }
{
    filter_values(out, values, mask, m)
}

/// Returns whether the bytes of the mask have a bit for each value, and `out` an item for each
/// selected value. If so, does [`vb_filter_values_u32`] and writes its result to `written`; else
/// leaves `out` and `written` unchanged.
#[unsafe(no_mangle)]
pub extern "C" fn vb_try_filter_values_u32(
    out: &mut [u32],
    values: &[u32],
    mask: &[u8],
    m: usize,
    written: &mut usize,
) -> bool
    ensures { DoneIf (KeptFits mask.now m (length values.now) (length out.old))
        (Filters (bits mask.now m (length values.now)) values.now out.old out.new written.new)
        ((out.new ≡ out.old) × (written.new ≡ written.old)) result }
{
    try_filter_values(out, values, mask, m, written)
}

/// Writes the values that the mask selects to the front of `out`, in order, and returns their
/// number. A value of eight bytes is selected if its bit of `mask`, from bit `m` on, is true. `out`
/// must have an item for each selected value; the items after these are unchanged.
#[unsafe(no_mangle)]
pub extern "C" fn vb_filter_values_u64(
    out: &mut [u64],
    values: &[u64],
    mask: &[u8],
    m: usize,
) -> usize
    requires { KeptFits mask.now m (length values.now) (length out.old) }
    ensures { Filters (bits mask.now m (length values.now)) values.now out.old out.new result }
{
    filter_values(out, values, mask, m)
}

/// Returns whether the bytes of the mask have a bit for each value, and `out` an item for each
/// selected value. If so, does [`vb_filter_values_u64`] and writes its result to `written`; else
/// leaves `out` and `written` unchanged.
#[unsafe(no_mangle)]
pub extern "C" fn vb_try_filter_values_u64(
    out: &mut [u64],
    values: &[u64],
    mask: &[u8],
    m: usize,
    written: &mut usize,
) -> bool
    ensures { DoneIf (KeptFits mask.now m (length values.now) (length out.old))
        (Filters (bits mask.now m (length values.now)) values.now out.old out.new written.new)
        ((out.new ≡ out.old) × (written.new ≡ written.old)) result }
{
    try_filter_values(out, values, mask, m, written)
}

/// Writes the values that the mask selects to the front of `out`, in order, and returns their
/// number. A value of 16 bytes is selected if its bit of `mask`, from bit `m` on, is true. `out`
/// must have an item for each selected value; the items after these are unchanged.
#[unsafe(no_mangle)]
pub extern "C" fn vb_filter_values_u128(
    out: &mut [Wide],
    values: &[Wide],
    mask: &[u8],
    m: usize,
) -> usize
    requires { KeptFits mask.now m (length values.now) (length out.old) }
    ensures { Filters (bits mask.now m (length values.now)) values.now out.old out.new result }
{
    filter_values(out, values, mask, m)
}

/// Returns whether the bytes of the mask have a bit for each value, and `out` an item for each
/// selected value. If so, does [`vb_filter_values_u128`] and writes its result to `written`; else
/// leaves `out` and `written` unchanged.
#[unsafe(no_mangle)]
pub extern "C" fn vb_try_filter_values_u128(
    out: &mut [Wide],
    values: &[Wide],
    mask: &[u8],
    m: usize,
    written: &mut usize,
) -> bool
    ensures { DoneIf (KeptFits mask.now m (length values.now) (length out.old))
        (Filters (bits mask.now m (length values.now)) values.now out.old out.new written.new)
        ((out.new ≡ out.old) × (written.new ≡ written.old)) result }
{
    try_filter_values(out, values, mask, m, written)
}

/// Writes the values whose bit of `mask`, from bit `m` on, is true, in order, to the front of
/// `out`, and returns their number.
fn filter_values<T: Element>(out: &mut [T], values: &[T], mask: &[u8], m: usize) -> usize
    requires { KeptFits mask.now m (length values.now) (length out.old) }
    ensures { Filters (bits mask.now m (length values.now)) values.now out.old out.new result }
{
    if values.len() <= 64 {
        return filter_word_into(out, values, read_word(mask, m, values.len()));
    }
    filter_many(out, values, mask, m)
}

/// Does [`filter_values`] for more than 64 values. Not inlined, so that a call with fewer doesn't
/// save the registers that the loop needs.
#[inline(never)]
fn filter_many<T: Element>(out: &mut [T], values: &[T], mask: &[u8], m: usize) -> usize
    requires { KeptFits mask.now m (length values.now) (length out.old) }
    ensures { Filters (bits mask.now m (length values.now)) values.now out.old out.new result }
{
    let kept = count_ones_wide(mask, m, values.len());
    filter_to_front(out, kept, values, mask, m)
}

/// Returns whether the bytes of the mask have a bit for each value, and `out` an item for each
/// selected value. If so, does [`filter_values`] and writes its result to `written`; else leaves
/// `out` and `written` unchanged.
fn try_filter_values<T: Element>(
    out: &mut [T],
    values: &[T],
    mask: &[u8],
    m: usize,
    written: &mut usize,
) -> bool
    ensures { DoneIf (KeptFits mask.now m (length values.now) (length out.old))
        (Filters (bits mask.now m (length values.now)) values.now out.old out.new written.new)
        ((out.new ≡ out.old) × (written.new ≡ written.old)) result }
{
    if !window_fits(mask, m, values.len()) {
        return false;
    }
    if values.len() <= 64 {
        return try_filter_word(out, values, read_word(mask, m, values.len()), written);
    }
    let kept = count_ones_wide(mask, m, values.len());
    if out.len() < kept {
        return false;
    }
    *written = filter_to_front(out, kept, values, mask, m);
    true
}

/// Does [`try_filter_values`] by a mask that is the word `keep`.
fn try_filter_word<T: Element>(out: &mut [T], values: &[T], keep: u64, written: &mut usize) -> bool
    requires few { length values.now ≤ 64 }
    requires clear { keep < 2 ^ length values.now }
    ensures { DoneIf (count (digits keep 0 (length values.now)) ≤ length out.old)
        (Filters (digits keep 0 (length values.now)) values.now out.old out.new written.new)
        ((out.new ≡ out.old) × (written.new ≡ written.old)) result }
{
    if out.len() < keep.count_ones() as usize {
        return false;
    }
    *written = filter_word_into(out, values, keep);
    true
}

/// Does [`filter_values`]. `kept` must be the number of selected values. Passes the kernel only the
/// first `kept` items of `out`: if values have four bytes, the kernel may overwrite the items after
/// the selected ones, and restore them.
fn filter_to_front<T: Element>(
    out: &mut [T],
    kept: usize,
    values: &[T],
    mask: &[u8],
    m: usize,
) -> usize
    requires room { KeptFits mask.now m (length values.now) (length out.old) }
    requires kept { kept ≡ count (bits mask.now m (length values.now)) }
    ensures { Filters (bits mask.now m (length values.now)) values.now out.old out.new result }
{
    let mask = BitBufferView::new_with_offset(mask, values.len(), m);
    filter_elements_into(&mut out[..kept], values, mask)
}
