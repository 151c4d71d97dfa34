//! The first selected row whose code isn't the number of a group.
ghost use Rattle.std.specs.Prelude.{◌≡◌, ◌↔◌, ◌<◌, length, IsTrue, IsFalse, true, slice_index_or};
ghost use Rattle.std.specs.Option.{ForSome, option_map};
ghost use Rattle.vb_group.specs.Groups.{IsGroup, HaveGroups, IsFirstPast, is_selected};
ghost use Rattle.vb_view.specs.View.{bits_of};

use vb_core::BitIndex;
use vb_view::BitBufferView;

/// Returns the first selected row whose code isn't the number of one of the groups. There must be
/// such a row.
#[tactic(auto, using(crate::proofs::ChecksLemmas::have_more))]
pub(crate) fn first_past<C: BitIndex>(
    codes: &[C],
    mask: Option<BitBufferView<'_>>,
    groups: usize,
) -> usize
    requires mask { ForSome mask (λ m. length (bits_of m) ≡ length codes.now) }
    requires past { ¬ HaveGroups C.number groups codes.now (option_map bits_of mask)
        (length codes.now) }
    ensures { IsFirstPast C.number groups codes.now (option_map bits_of mask.entry) result }
{
    for row in 0..codes.len() {
        if is_past(codes, mask, groups, row) {
            return row;
        }
    }
    codes.len()
}

/// Returns whether the row is selected and its code isn't the number of one of the groups.
fn is_past<C: BitIndex>(
    codes: &[C],
    mask: Option<BitBufferView<'_>>,
    groups: usize,
    row: usize,
) -> bool
    requires row { row < length codes.now }
    requires mask { ForSome mask (λ m. length (bits_of m) ≡ length codes.now) }
    ensures selected { IsTrue result → is_selected (option_map bits_of mask.entry) row ≡ true }
    ensures past { (d : C) → IsTrue result
        → ¬ IsGroup groups (C.number (slice_index_or codes.now row d)) }
    ensures group { (d : C) → IsFalse result
        → is_selected (option_map bits_of mask.entry) row ≡ true
        → IsGroup groups (C.number (slice_index_or codes.now row d)) }
{
    is_selected(mask, row) && !is_group(codes[row], groups)
}

/// Returns whether the row is selected.
fn is_selected(mask: Option<BitBufferView<'_>>, row: usize) -> bool
    requires { ForSome mask (λ m. row < length (bits_of m)) }
    ensures { result ≡ is_selected (option_map bits_of mask.entry) row }
{
    match mask {
        Some(bits) => bits.value(row),
        None => true,
    }
}

/// Returns whether the code is the number of one of the groups.
#[inline(always)]
fn is_group<C: BitIndex>(code: C, groups: usize) -> bool
    ensures { IsTrue result ↔ IsGroup groups (C.number code) }
{
    match code.place() {
        Some(place) => place < groups,
        None => false,
    }
}
