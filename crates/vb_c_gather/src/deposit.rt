//! Bits deposited at the set bits of a mask.
ghost use Rattle.std.specs.Prelude.{◌≡◌};
ghost use Rattle.vb_bits.specs.Bits.{bits};
ghost use Rattle.vb_c_gather.specs.Deposited.{Deposits, DepositFits};
ghost use Rattle.vb_c_core.specs.Fits.{DoneIf};

use vb_bits::window_fits;
use vb_count::count_ones_wide;
use vb_filter::deposit_into;
use vb_view::BitBufferView;

/// Writes `len` bits to `out` from bit `o` on. Where a bit of `mask`, from bit `m` on, is true,
/// writes the next bit of `bytes`, from bit `offset` on; elsewhere writes false. `bytes` must have
/// a bit for each set bit of the mask. Every other bit of `out` is unchanged. It is the inverse of
/// `vb_filter_bits` for the bits that the mask selects.
#[unsafe(no_mangle)]
pub extern "C" fn vb_deposit_bits(
    out: &mut [u8],
    o: usize,
    bytes: &[u8],
    offset: usize,
    mask: &[u8],
    m: usize,
    len: usize,
)
    requires { DepositFits out.old o bytes.now offset mask.now m len }
    ensures { Deposits bytes.now offset (bits mask.now m len) out.old out.new o }
{
    // Even for no bits, the kernel would store the byte of bit `o` again.
    if len == 0 {
        return;
    }
    let mask = BitBufferView::new_with_offset(mask, len, m);
    let values = BitBufferView::new_with_offset(bytes, mask.true_count(), offset);
    let end = (o + len).div_ceil(8);
    deposit_into(&mut out[o / 8..end], o % 8, values, mask);
}

/// Returns whether all windows are in their bytes, and that of `bytes` has a bit for each set bit
/// of `mask`. If so, does [`vb_deposit_bits`]; else leaves `out` unchanged.
#[unsafe(no_mangle)]
pub extern "C" fn vb_try_deposit_bits(
    out: &mut [u8],
    o: usize,
    bytes: &[u8],
    offset: usize,
    mask: &[u8],
    m: usize,
    len: usize,
) -> bool
    ensures { DoneIf (DepositFits out.old o bytes.now offset mask.now m len)
        (Deposits bytes.now offset (bits mask.now m len) out.old out.new o)
        (out.new ≡ out.old) result }
{
    if !window_fits(out, o, len)
        || !window_fits(mask, m, len)
        || !window_fits(bytes, offset, count_ones_wide(mask, m, len))
    {
        return false;
    }
    vb_deposit_bits(out, o, bytes, offset, mask, m, len);
    true
}
