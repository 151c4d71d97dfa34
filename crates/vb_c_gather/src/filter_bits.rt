//! Bits that a mask selects.
ghost use Rattle.std.specs.Prelude.{◌≡◌, ◌≤◌};
ghost use Rattle.vb_bits.specs.Bits.{bits, count};
ghost use Rattle.vb_bits.specs.InBytes.{InBytes};
ghost use Rattle.vb_c_gather.specs.Filtered.{FiltersBitsAt, KeptFitsAt};
ghost use Rattle.vb_c_core.specs.Fits.{DoneIf};

use vb_bits::window_fits;
use vb_c_core::write_to_window;
use vb_count::count_ones_wide;
use vb_filter::{filter_into, filter_into_at, filter_word};
use vb_view::BitBufferView;

/// Writes the bits that the mask selects to the bits of `out` from bit `o` on, in order, and
/// returns their number. A bit among the `len` bits of `bytes` from bit `offset` on is selected if
/// its bit of `mask`, from bit `m` on, is true. The bits to write must be in `out`. Every other bit
/// of `out` is unchanged.
#[unsafe(no_mangle)]
pub extern "C" fn vb_filter_bits(
    out: &mut [u8],
    o: usize,
    bytes: &[u8],
    offset: usize,
    mask: &[u8],
    m: usize,
    len: usize,
) -> usize
    requires window { InBytes bytes.now offset len }
    requires mask { KeptFitsAt out.old o mask.now m len }
    ensures { FiltersBitsAt (bits mask.now m len) (bits bytes.now offset len)
        out.old out.new o result }
{
    if len <= 64 {
        return filter_few(out, o, bytes, offset, mask, m, len);
    }
    let kept = count_ones_wide(mask, m, len);
    filter_at(out, o, kept, bytes, offset, mask, m, len)
}

/// Returns whether both windows are in their bytes, and the bits to write are in `out`. If so, does
/// [`vb_filter_bits`] and writes its result to `written`; else leaves `out` and `written`
/// unchanged.
#[unsafe(no_mangle)]
pub extern "C" fn vb_try_filter_bits(
    out: &mut [u8],
    o: usize,
    bytes: &[u8],
    offset: usize,
    mask: &[u8],
    m: usize,
    len: usize,
    written: &mut usize,
) -> bool
    ensures { DoneIf (InBytes bytes.now offset len × KeptFitsAt out.old o mask.now m len)
        (FiltersBitsAt (bits mask.now m len) (bits bytes.now offset len)
        out.old out.new o written.new)
        ((out.new ≡ out.old) × (written.new ≡ written.old)) result }
{
    if !window_fits(bytes, offset, len) || !window_fits(mask, m, len) {
        return false;
    }
    let kept = count_ones_wide(mask, m, len);
    if !window_fits(out, o, kept) {
        return false;
    }
    *written = if len <= 64 {
        filter_few(out, o, bytes, offset, mask, m, len)
    } else {
        filter_at(out, o, kept, bytes, offset, mask, m, len)
    };
    true
}

/// Does [`vb_filter_bits`] for at most 64 bits. Counts the bits to write in the same word of the
/// mask that selects them: a separate count would read it twice.
fn filter_few(
    out: &mut [u8],
    o: usize,
    bytes: &[u8],
    offset: usize,
    mask: &[u8],
    m: usize,
    len: usize,
) -> usize
    requires few { len ≤ 64 }
    requires window { InBytes bytes.now offset len }
    requires mask { KeptFitsAt out.old o mask.now m len }
    ensures { FiltersBitsAt (bits mask.now m len) (bits bytes.now offset len)
        out.old out.new o result }
{
    let values = BitBufferView::new_with_offset(bytes, len, offset);
    let mask = BitBufferView::new_with_offset(mask, len, m);
    let (word, kept) = filter_word(values, mask);
    write_to_window(out, o, kept, word);
    kept
}

/// Does [`vb_filter_bits`] if the mask selects `kept` bits. Passes the kernel only the bytes of
/// these bits.
fn filter_at(
    out: &mut [u8],
    o: usize,
    kept: usize,
    bytes: &[u8],
    offset: usize,
    mask: &[u8],
    m: usize,
    len: usize,
) -> usize
    requires window { InBytes bytes.now offset len }
    requires mask { KeptFitsAt out.old o mask.now m len }
    requires kept { kept ≡ count (bits mask.now m len) }
    ensures { FiltersBitsAt (bits mask.now m len) (bits bytes.now offset len)
        out.old out.new o result }
{
    // For no bits the kernel would still store the byte of bit `o`.
    if kept == 0 {
        return 0;
    }
    let values = BitBufferView::new_with_offset(bytes, len, offset);
    let mask = BitBufferView::new_with_offset(mask, len, m);
    let end = (o + kept).div_ceil(8);
    // The kernel for the first bits is the faster one: it loads nothing of `out`.
    if o % 8 == 0 {
        return filter_into(&mut out[o / 8..end], values, mask);
    }
    filter_into_at(&mut out[o / 8..end], o % 8, values, mask)
}
