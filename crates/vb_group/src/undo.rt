//! Additions that leave the totals as they were if a code has no total.
ghost use Rattle.std.specs.Prelude.{◌≡◌, ◌≤◌, Bool, Some, None, false, List, length, take, zip};
ghost use Rattle.std.specs.Prelude.{IfOk, IfErr};
ghost use Rattle.std.specs.Option.{ForSome, option_map};
ghost use Rattle.vb_group.specs.Groups.{AddsRows, TriesRows, selected, HaveGroups};
ghost use Rattle.vb_group.specs.Groups.{IsFirstPast};
ghost use Rattle.vb_bits.specs.Bits.{bits};
ghost use Rattle.vb_bits.specs.InBytes.{InBytes};
ghost use Rattle.vb_bits.specs.Kept.{kept_by};
ghost use Rattle.vb_view.specs.View.{bits_of};

use crate::addition::{Reversible, Undo};
use crate::check::first_past;
use crate::rows::{add_few, add_selected};
use vb_core::BitIndex;
use vb_view::BitBufferView;

/// Adds the selected rows, if the code of each is the number of a total. Returns `Err(row)` for the
/// first selected row whose code isn't; the totals are then unchanged.
///
/// It tests each code as it adds the row. If one has no total, it takes back the rows that were
/// added.
#[inline(always)]
pub(crate) fn add_or_undo<C: BitIndex, V: Copy, A: Reversible<V>>(
    totals: &mut [A::Total],
    codes: &[C],
    values: &[V],
    mask: Option<BitBufferView<'_>>,
) -> Result<(), usize>
    requires same_len { length values.now ≡ length codes.now }
    requires mask { ForSome mask (λ m. length (bits_of m) ≡ length codes.now) }
    requires stops { A.skips ≡ false }
    ensures added { IfOk result (λ _. AddsRows C.number A.plus totals.old totals.new
        (selected (option_map bits_of mask.entry) (zip codes.now values.now))) }
    ensures groups { IfOk result (λ _. HaveGroups C.number (length totals.old) codes.now
        (option_map bits_of mask.entry) (length codes.now)) }
    ensures past { IfErr result (IsFirstPast C.number (length totals.old) codes.now
        (option_map bits_of mask.entry)) }
    ensures unchanged { IfErr result (λ _. totals.new ≡ totals.old) }
{
    match mask {
        Some(bits) => {
            if codes.len() <= 64 {
                add_few_or_undo::<C, V, A>(totals, codes, values, bits)
            } else {
                add_kept_or_undo::<C, V, A>(totals, codes, values, bits.inner(), bits.offset())
            }
        }
        None => add_all_or_undo::<C, V, A>(totals, codes, values),
    }
}

/// Does [`add_or_undo`] for at most 64 rows and a mask: such a call has no loop over words, and
/// doesn't save the registers for it.
#[inline(always)]
fn add_few_or_undo<C: BitIndex, V: Copy, A: Reversible<V>>(
    totals: &mut [A::Total],
    codes: &[C],
    values: &[V],
    mask: BitBufferView<'_>,
) -> Result<(), usize>
    requires few { length codes.now ≤ 64 }
    requires same_len { length values.now ≡ length codes.now }
    requires mask { length (bits_of mask) ≡ length codes.now }
    requires stops { A.skips ≡ false }
    ensures added { IfOk result (λ _. AddsRows C.number A.plus totals.old totals.new
        (kept_by (bits_of mask.entry) (zip codes.now values.now))) }
    ensures groups { IfOk result (λ _. HaveGroups C.number (length totals.old) codes.now
        (Some (bits_of mask.entry)) (length codes.now)) }
    ensures past { IfErr result (IsFirstPast C.number (length totals.old) codes.now
        (Some (bits_of mask.entry))) }
    ensures unchanged { IfErr result (λ _. totals.new ≡ totals.old) }
{
    match add_few::<C, V, A>(totals, codes, values, mask) {
        Some(rows) => Err(undo::<C, V, A>(totals, codes, values, Some(mask), rows)),
        None => Ok(()),
    }
}

/// Does [`add_or_undo`] by a mask that starts at bit `offset` of `bytes`. The parts of a view are
/// passed in registers, and a view itself in memory.
#[inline(never)]
fn add_kept_or_undo<C: BitIndex, V: Copy, A: Reversible<V>>(
    totals: &mut [A::Total],
    codes: &[C],
    values: &[V],
    bytes: &[u8],
    offset: usize,
) -> Result<(), usize>
    requires same_len { length values.now ≡ length codes.now }
    requires mask { InBytes bytes.now offset (length codes.now) }
    requires stops { A.skips ≡ false }
    ensures added { IfOk result (λ _. AddsRows C.number A.plus totals.old totals.new
        (kept_by (bits bytes.now offset (length codes.now))
        (zip codes.now values.now))) }
    ensures groups { IfOk result (λ _. HaveGroups C.number (length totals.old) codes.now
        (Some (bits bytes.now offset (length codes.now))) (length codes.now)) }
    ensures past { IfErr result (IsFirstPast C.number (length totals.old) codes.now
        (Some (bits bytes.now offset (length codes.now)))) }
    ensures unchanged { IfErr result (λ _. totals.new ≡ totals.old) }
{
    let mask = BitBufferView::new_with_offset(bytes, codes.len(), offset);
    add_any_or_undo::<C, V, A>(totals, codes, values, Some(mask))
}

/// Does [`add_or_undo`] without a mask.
#[inline(never)]
fn add_all_or_undo<C: BitIndex, V: Copy, A: Reversible<V>>(
    totals: &mut [A::Total],
    codes: &[C],
    values: &[V],
) -> Result<(), usize>
    requires same_len { length values.now ≡ length codes.now }
    requires stops { A.skips ≡ false }
    ensures added { IfOk result (λ _. AddsRows C.number A.plus totals.old totals.new
        (zip codes.now values.now)) }
    ensures groups { IfOk result (λ _. HaveGroups C.number (length totals.old) codes.now
        None (length codes.now)) }
    ensures past { IfErr result (IsFirstPast C.number (length totals.old) codes.now
        None) }
    ensures unchanged { IfErr result (λ _. totals.new ≡ totals.old) }
{
    add_any_or_undo::<C, V, A>(totals, codes, values, None)
}

/// Does [`add_or_undo`] for any rows.
#[inline(always)]
fn add_any_or_undo<C: BitIndex, V: Copy, A: Reversible<V>>(
    totals: &mut [A::Total],
    codes: &[C],
    values: &[V],
    mask: Option<BitBufferView<'_>>,
) -> Result<(), usize>
    requires same_len { length values.now ≡ length codes.now }
    requires mask { ForSome mask (λ m. length (bits_of m) ≡ length codes.now) }
    requires stops { A.skips ≡ false }
    ensures added { IfOk result (λ _. AddsRows C.number A.plus totals.old totals.new
        (selected (option_map bits_of mask.entry) (zip codes.now values.now))) }
    ensures groups { IfOk result (λ _. HaveGroups C.number (length totals.old) codes.now
        (option_map bits_of mask.entry) (length codes.now)) }
    ensures past { IfErr result (IsFirstPast C.number (length totals.old) codes.now
        (option_map bits_of mask.entry)) }
    ensures unchanged { IfErr result (λ _. totals.new ≡ totals.old) }
{
    match add_selected::<C, V, A>(totals, codes, values, mask) {
        Some(rows) => Err(undo::<C, V, A>(totals, codes, values, mask, rows)),
        None => Ok(()),
    }
}

/// Takes back the selected ones of the first `rows` rows, and returns the first selected row whose
/// code isn't the number of a total. There must be such a row.
///
/// A separate function saves the registers for its loops only where it is called.
#[inline(never)]
fn undo<C: BitIndex, V: Copy, A: Reversible<V>>(
    totals: &mut [A::Total],
    codes: &[C],
    values: &[V],
    mask: Option<BitBufferView<'_>>,
    rows: usize,
) -> usize
    requires same_len { length values.now ≡ length codes.now }
    requires mask { ForSome mask (λ m. length (bits_of m) ≡ length codes.now) }
    requires within { rows ≤ length codes.now }
    requires past { ¬ HaveGroups C.number (length totals.old) codes.now
        (option_map bits_of mask) (length codes.now) }
    ensures restored { (start : List A.Total)
        → TriesRows C.number A.plus A.is_total A.skips start totals.old
        (selected (option_map (take rows) (option_map bits_of mask.entry))
        (take rows (zip codes.now values.now))) false → totals.new ≡ start }
    ensures past { IsFirstPast C.number (length totals.old) codes.now
        (option_map bits_of mask.entry) result }
{
    let groups = totals.len();
    take_back::<C, V, A>(totals, &codes[..rows], &values[..rows], front(mask, rows));
    first_past(codes, mask, groups)
}

/// Undoes [`add_selected`] on the same rows.
fn take_back<C: BitIndex, V: Copy, A: Reversible<V>>(
    totals: &mut [A::Total],
    codes: &[C],
    values: &[V],
    mask: Option<BitBufferView<'_>>,
)
    requires same_len { length values.now ≡ length codes.now }
    requires mask { ForSome mask (λ m. length (bits_of m) ≡ length codes.now) }
    ensures { (start : List A.Total) (good : Bool)
        → TriesRows C.number A.plus A.is_total A.skips start totals.old
        (selected (option_map bits_of mask.entry) (zip codes.now values.now)) good
        → totals.new ≡ start }
{
    add_selected::<C, V, Undo<A>>(totals, codes, values, mask);
}

/// Returns the first `n` bits of the mask, if there is one.
fn front(mask: Option<BitBufferView<'_>>, n: usize) -> Option<BitBufferView<'_>>
    requires { ForSome mask (λ m. n ≤ length (bits_of m)) }
    ensures bits { option_map bits_of result
        ≡ option_map (take n) (option_map bits_of mask.entry) }
    ensures len { ForSome result (λ m. length (bits_of m) ≡ n) }
{
    match mask {
        Some(bits) => Some(bits.slice(0..n)),
        None => None,
    }
}
