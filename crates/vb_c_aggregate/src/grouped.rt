//! Counts and sums by group, by a window of bytes as the mask.
ghost use Rattle.std.specs.Prelude.{◌≡◌, ◌+ℤ◌, length};
ghost use Rattle.vb_c_aggregate.specs.Grouped.{CountsGroups, SumsGroups};
ghost use Rattle.vb_c_core.specs.Fits.{DoneIf};
ghost use Rattle.vb_c_core.specs.Validity.{HasValidity, validity_of};

use vb_aggregate::Summand;
use vb_bits::window_fits;
use vb_c_core::Taken;
use vb_group::{Widen, group_counts, group_sums};
use vb_view::BitBufferView;

/// Counts the selected rows of each group. Returns the first selected row whose code has no count,
/// if there is one.
///
/// Inlined, since a call would copy the arguments on the stack.
#[inline(always)]
pub(crate) fn count<C: Summand>(
    counts: &mut [u64],
    codes: &[C],
    all_selected: bool,
    mask: &[u8],
    m: usize,
) -> Taken
    requires { HasValidity all_selected mask.now m (length codes.now) }
    ensures { CountsGroups C.number codes.now
        (validity_of all_selected mask.now m (length codes.now)) counts.old counts.new result }
{
    let mask = if all_selected {
        None
    } else {
        Some(BitBufferView::new_with_offset(mask, codes.len(), m))
    };
    group_counts(counts, codes, mask).err().into()
}

/// Returns whether the mask, unless it is ignored, has a bit for each code. If so, does [`count`]
/// and writes its result to `past`; else leaves `counts` and `past` unchanged.
pub(crate) fn try_count<C: Summand>(
    counts: &mut [u64],
    codes: &[C],
    all_selected: bool,
    mask: &[u8],
    m: usize,
    past: &mut Taken,
) -> bool
    ensures { DoneIf (HasValidity all_selected mask.now m (length codes.now))
        (CountsGroups C.number codes.now
        (validity_of all_selected mask.now m (length codes.now)) counts.old counts.new past.new)
        ((counts.new ≡ counts.old) × (past.new ≡ past.old)) result }
{
    if !all_selected && !window_fits(mask, m, codes.len()) {
        return false;
    }
    *past = count(counts, codes, all_selected, mask, m);
    true
}

/// Adds the selected values to the sums of their groups. Returns the first selected row whose code
/// has no sum, if there is one.
///
/// Inlined, as [`count`] is.
#[inline(always)]
pub(crate) fn sum<C: Summand, V: Widen>(
    sums: &mut [V::Wide],
    codes: &[C],
    values: &[V],
    all_selected: bool,
    mask: &[u8],
    m: usize,
) -> Taken
    requires same_len { length values.now ≡ length codes.now }
    requires mask { HasValidity all_selected mask.now m (length codes.now) }
    ensures { SumsGroups C.number
        (λ sum value. V.Wide.wrapped (V.Wide.number sum +ℤ V.number value)) codes.now values.now
        (validity_of all_selected mask.now m (length codes.now)) sums.old sums.new result }
{
    let mask = if all_selected {
        None
    } else {
        Some(BitBufferView::new_with_offset(mask, codes.len(), m))
    };
    group_sums(sums, codes, values, mask).err().into()
}

/// Returns whether there is a value for each code, and the mask, unless it is ignored, has a bit
/// for each. If so, does [`sum`] and writes its result to `past`; else leaves `sums` and `past`
/// unchanged.
pub(crate) fn try_sum<C: Summand, V: Widen>(
    sums: &mut [V::Wide],
    codes: &[C],
    values: &[V],
    all_selected: bool,
    mask: &[u8],
    m: usize,
    past: &mut Taken,
) -> bool
    ensures { DoneIf ((length values.now ≡ length codes.now)
        × HasValidity all_selected mask.now m (length codes.now))
        (SumsGroups C.number
        (λ sum value. V.Wide.wrapped (V.Wide.number sum +ℤ V.number value)) codes.now values.now
        (validity_of all_selected mask.now m (length codes.now)) sums.old sums.new past.new)
        ((sums.new ≡ sums.old) × (past.new ≡ past.old)) result }
{
    let rows = codes.len();
    if values.len() != rows || !all_selected && !window_fits(mask, m, rows) {
        return false;
    }
    *past = sum(sums, codes, values, all_selected, mask, m);
    true
}
