// Written by tools/write-lists from tools/families/groups.txt.
//! Counts of rows by group.
ghost use Rattle.std.specs.Prelude.{◌≡◌, length, pos};
ghost use Rattle.vb_c_aggregate.specs.Grouped.{CountsGroups};
ghost use Rattle.vb_c_core.specs.Fits.{DoneIf};
ghost use Rattle.vb_c_core.specs.Validity.{HasValidity, validity_of};

use crate::grouped::{count, try_count};
use vb_c_core::Taken;

/// Adds to each `counts[c]` the number of selected rows with the code `c`, modulo 2^64. Codes are
/// of one byte each. Returns the index of the first selected row whose code isn't below the number
/// of counts, if there is one; the counts are then unchanged.
///
/// If `all_selected` is true, each row is selected, and the mask is ignored. Else a row is selected
/// if its bit of `mask`, from bit `m` on, is true; the codes of the others are ignored.
#[unsafe(no_mangle)]
pub extern "C" fn vb_group_counts_u8(
    counts: &mut [u64],
    codes: &[u8],
    all_selected: bool,
    mask: &[u8],
    m: usize,
) -> Taken
    requires { HasValidity all_selected mask.now m (length codes.now) }
    ensures { CountsGroups pos codes.now
        (validity_of all_selected mask.now m (length codes.now)) counts.old counts.new result }
{
    count(counts, codes, all_selected, mask, m)
}

/// Returns whether the mask, unless it is ignored, has a bit for each code. If so, does
/// [`vb_group_counts_u8`] and writes its result to `past`; else leaves `counts` and `past`
/// unchanged.
#[unsafe(no_mangle)]
pub extern "C" fn vb_try_group_counts_u8(
    counts: &mut [u64],
    codes: &[u8],
    all_selected: bool,
    mask: &[u8],
    m: usize,
    past: &mut Taken,
) -> bool
    ensures { DoneIf (HasValidity all_selected mask.now m (length codes.now))
        (CountsGroups pos codes.now
        (validity_of all_selected mask.now m (length codes.now)) counts.old counts.new past.new)
        ((counts.new ≡ counts.old) × (past.new ≡ past.old)) result }
{
    try_count(counts, codes, all_selected, mask, m, past)
}

/// Adds to each `counts[c]` the number of selected rows with the code `c`, modulo 2^64. Codes are
/// of two bytes each. Returns the index of the first selected row whose code isn't below the number
/// of counts, if there is one; the counts are then unchanged.
///
/// If `all_selected` is true, each row is selected, and the mask is ignored. Else a row is selected
/// if its bit of `mask`, from bit `m` on, is true; the codes of the others are ignored.
#[unsafe(no_mangle)]
pub extern "C" fn vb_group_counts_u16(
    counts: &mut [u64],
    codes: &[u16],
    all_selected: bool,
    mask: &[u8],
    m: usize,
) -> Taken
    requires { HasValidity all_selected mask.now m (length codes.now) }
    ensures { CountsGroups pos codes.now
        (validity_of all_selected mask.now m (length codes.now)) counts.old counts.new result }
{
    count(counts, codes, all_selected, mask, m)
}

/// Returns whether the mask, unless it is ignored, has a bit for each code. If so, does
/// [`vb_group_counts_u16`] and writes its result to `past`; else leaves `counts` and `past`
/// unchanged.
#[unsafe(no_mangle)]
pub extern "C" fn vb_try_group_counts_u16(
    counts: &mut [u64],
    codes: &[u16],
    all_selected: bool,
    mask: &[u8],
    m: usize,
    past: &mut Taken,
) -> bool
    ensures { DoneIf (HasValidity all_selected mask.now m (length codes.now))
        (CountsGroups pos codes.now
        (validity_of all_selected mask.now m (length codes.now)) counts.old counts.new past.new)
        ((counts.new ≡ counts.old) × (past.new ≡ past.old)) result }
{
    try_count(counts, codes, all_selected, mask, m, past)
}

/// Adds to each `counts[c]` the number of selected rows with the code `c`, modulo 2^64. Codes are
/// of four bytes each. Returns the index of the first selected row whose code isn't below the
/// number of counts, if there is one; the counts are then unchanged.
///
/// If `all_selected` is true, each row is selected, and the mask is ignored. Else a row is selected
/// if its bit of `mask`, from bit `m` on, is true; the codes of the others are ignored.
#[unsafe(no_mangle)]
pub extern "C" fn vb_group_counts_u32(
    counts: &mut [u64],
    codes: &[u32],
    all_selected: bool,
    mask: &[u8],
    m: usize,
) -> Taken
    requires { HasValidity all_selected mask.now m (length codes.now) }
    ensures { CountsGroups pos codes.now
        (validity_of all_selected mask.now m (length codes.now)) counts.old counts.new result }
{
    count(counts, codes, all_selected, mask, m)
}

/// Returns whether the mask, unless it is ignored, has a bit for each code. If so, does
/// [`vb_group_counts_u32`] and writes its result to `past`; else leaves `counts` and `past`
/// unchanged.
#[unsafe(no_mangle)]
pub extern "C" fn vb_try_group_counts_u32(
    counts: &mut [u64],
    codes: &[u32],
    all_selected: bool,
    mask: &[u8],
    m: usize,
    past: &mut Taken,
) -> bool
    ensures { DoneIf (HasValidity all_selected mask.now m (length codes.now))
        (CountsGroups pos codes.now
        (validity_of all_selected mask.now m (length codes.now)) counts.old counts.new past.new)
        ((counts.new ≡ counts.old) × (past.new ≡ past.old)) result }
{
    try_count(counts, codes, all_selected, mask, m, past)
}
