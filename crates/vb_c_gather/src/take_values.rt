//! Values at indices. Each file has the functions for indices of one width.
ghost use Rattle.std.specs.Prelude.{◌≡◌, ◌≤◌, length, map};
ghost use Rattle.vb_c_core.specs.Fits.{DoneIf};
ghost use Rattle.vb_c_core.specs.Validity.{HasValidity, validity_of};
ghost use Rattle.vb_c_gather.specs.Taken.{TakesValues};

pub mod by_u16;
pub mod by_u32;
pub mod by_u64;
pub mod by_u8;

use vb_bits::window_fits;
use vb_c_core::Taken;
use vb_core::{BitIndex, Element};
use vb_take::take_values_into;
use vb_view::BitBufferView;

/// Writes the values at the indices to the front of `out`. Returns the first position that counts
/// and whose index is out of range, if there is one.
#[inline(always)]
fn take_values<T: Element, I: BitIndex>(
    out: &mut [T],
    values: &[T],
    indices: &[I],
    all_valid: bool,
    validity: &[u8],
    v: usize,
) -> Taken
    requires room { length indices.now ≤ length out.old }
    requires validity { HasValidity all_valid validity.now v (length indices.now) }
    ensures { TakesValues T.zero values.now (map I.number indices.now)
        (validity_of all_valid validity.now v (length indices.now)) out.old out.new result }
{
    let valid = if all_valid {
        None
    } else {
        Some(BitBufferView::new_with_offset(validity, indices.len(), v))
    };
    let out = &mut out[..indices.len()];
    take_values_into(out, values, indices, valid).err().into()
}

/// Returns whether `out` has an item for each index, and the validity, unless it is ignored, a bit
/// for each. If so, does [`take_values`] and writes its result to `taken`; else leaves `out` and
/// `taken` unchanged.
fn try_take_values<T: Element, I: BitIndex>(
    out: &mut [T],
    values: &[T],
    indices: &[I],
    all_valid: bool,
    validity: &[u8],
    v: usize,
    taken: &mut Taken,
) -> bool
    ensures { DoneIf ((length indices.now ≤ length out.old)
        × HasValidity all_valid validity.now v (length indices.now))
        (TakesValues T.zero values.now (map I.number indices.now)
        (validity_of all_valid validity.now v (length indices.now)) out.old out.new taken.new)
        ((out.new ≡ out.old) × (taken.new ≡ taken.old)) result }
{
    if out.len() < indices.len() || !all_valid && !window_fits(validity, v, indices.len()) {
        return false;
    }
    *taken = take_values(out, values, indices, all_valid, validity, v);
    true
}
