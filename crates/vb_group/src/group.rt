//! Counts and sums by group.
ghost use Rattle.std.specs.Prelude.{◌≡◌, ℕ, ◌+◌, ◌%◌, ◌^◌, ◌<◌, ◌+ℤ◌, length, zip};
ghost use Rattle.std.specs.Prelude.{IfOk, IfErr, slice_index_or};
ghost use Rattle.std.specs.Option.{ForSome, option_map};
ghost use Rattle.vb_group.specs.Groups.{AddsRows, codes_of, selected, HaveGroups, IsFirstPast};
ghost use Rattle.vb_view.specs.View.{bits_of};

use crate::addition::{Count, Sum};
use crate::undo::add_or_undo;
use crate::widen::Widen;
use vb_aggregate::Summand;
use vb_view::BitBufferView;

/// Adds to each `counts[c]` the number of selected rows with the code `c`. A count wraps around at
/// 2^64.
///
/// Without a `mask` each row is selected; a `mask` must have one bit for each code. Returns
/// `Err(row)` for the first selected row whose code is negative or not below the number of counts;
/// the counts are then unchanged.
#[inline(always)]
pub fn group_counts<C: Summand>(
    counts: &mut [u64],
    codes: &[C],
    mask: Option<BitBufferView<'_>>,
) -> Result<(), usize>
    requires mask { ForSome mask (λ m. length (bits_of m) ≡ length codes.now) }
    ensures counted { IfOk result (λ _. (g : ℕ) → g < length counts.old
        → slice_index_or counts.new g 0 % 2 ^ 64 ≡ (slice_index_or counts.old g 0
        + length (codes_of C.number g (selected (option_map bits_of mask.entry) codes.now)))
        % 2 ^ 64) }
    ensures groups { IfOk result (λ _. HaveGroups C.number (length counts.old) codes.now
        (option_map bits_of mask.entry) (length codes.now)) }
    ensures past { IfErr result (IsFirstPast C.number (length counts.old) codes.now
        (option_map bits_of mask.entry)) }
    ensures unchanged { IfErr result (λ _. counts.new ≡ counts.old) }
{
    // It is inlined, up to the test for few rows: a call would copy the arguments on the stack.
    add_or_undo::<C, C, Count>(counts, codes, codes, mask)
}

/// Adds each selected value, in order, to `sums[c]`, where `c` is the code of its row. The values
/// have at most 64 bits. The sums have 64 bits, and wrap around at the end of their type: `u64` for
/// unsigned values, `i64` for signed ones.
///
/// There must be one value for each code. Without a `mask` each row is selected; a `mask` must have
/// one bit for each code. Returns `Err(row)` for the first selected row whose code is negative or
/// not below the number of sums; the sums are then unchanged.
#[inline(always)]
pub fn group_sums<C: Summand, V: Widen>(
    sums: &mut [V::Wide],
    codes: &[C],
    values: &[V],
    mask: Option<BitBufferView<'_>>,
) -> Result<(), usize>
    requires same_len { length values.now ≡ length codes.now }
    requires mask { ForSome mask (λ m. length (bits_of m) ≡ length codes.now) }
    ensures summed { IfOk result (λ _. AddsRows C.number
        (λ sum value. V.Wide.wrapped (V.Wide.number sum +ℤ V.number value)) sums.old sums.new
        (selected (option_map bits_of mask.entry) (zip codes.now values.now))) }
    ensures groups { IfOk result (λ _. HaveGroups C.number (length sums.old) codes.now
        (option_map bits_of mask.entry) (length codes.now)) }
    ensures past { IfErr result (IsFirstPast C.number (length sums.old) codes.now
        (option_map bits_of mask.entry)) }
    ensures unchanged { IfErr result (λ _. sums.new ≡ sums.old) }
{
    // It is inlined, as `group_counts` is.
    add_or_undo::<C, V, Sum>(sums, codes, values, mask)
}
