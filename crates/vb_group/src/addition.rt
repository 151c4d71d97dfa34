//! Additions of a row to the total of its group.
ghost use Rattle.std.specs.Prelude.{◌≡◌, ◌+◌, ◌-◌, ◌%◌, ◌^◌, ◌<◌, ◌+ℤ◌, ◌-ℤ◌, [], ◌∷◌};
ghost use Rattle.std.specs.Prelude.{ℕ, Bool, true, false, IsTrue, IsFalse, pos, length};
ghost use Rattle.std.specs.Prelude.{slice_index_or};
ghost use Rattle.vb_group.specs.Groups.{AddsRows, IsGroup};
ghost use Rattle.vb_group.specs.Reversed.{count_undone, count_commutes, sum_undone, sum_commutes};

use crate::widen::{Widen, WrappingMinus};
use std::marker::PhantomData;
use vb_aggregate::Summand;
use vb_core::{BitIndex, Element};

/// An addition of values to totals. Each addition is a type, so that it has its own loops.
pub(crate) trait Addition<V: Copy> {
    /// The type of a total.
    type Total: Copy;

    // The total with one more value.
    ghost plus: { Self.Total → V → Self.Total };

    // Holds for the values of the type of a total.
    ghost is_total: { Self.Total → Type 0 };

    // Whether rows whose code has no total are passed over.
    ghost skips: { Bool };

    /// Returns whether rows whose code has no total are passed over.
    fn skips() -> bool
        ensures { result ≡ skips };

    /// Returns the total with one more value.
    fn plus(total: Self::Total, value: V) -> Self::Total
        ensures sum { result ≡ plus total value }
        ensures in_type { is_total total };
}

/// An addition that can be undone.
pub(crate) trait Reversible<V: Copy>: Addition<V> {
    // The total with one value taken back.
    ghost minus: { Self.Total → V → Self.Total };

    /// Returns the total with one value taken back.
    fn minus(total: Self::Total, value: V) -> Self::Total
        ensures difference { result ≡ minus total value }
        ensures in_type { Self.is_total total };

    // A total is the same after a value was added and taken back.
    ghost undoes: { (total : Self.Total) (value : V) → Self.is_total total
        → minus (Self.plus total value) value ≡ total };

    // It doesn't matter whether one value is added first, or another one taken back.
    ghost commutes: { (total : Self.Total) (value back : V)
        → minus (Self.plus total value) back ≡ Self.plus (minus total back) value };
}

/// Adds 1 for each row.
pub(crate) struct Count;

impl<V: Copy> Addition<V> for Count {
    type Total = u64;

    ghost plus = { λ count _. (count + 1) % 2 ^ 64 };

    ghost is_total = { λ count. count < 2 ^ 64 };

    ghost skips = { false };

    #[inline(always)]
    fn skips() -> bool {
        false
    }

    #[inline(always)]
    fn plus(count: u64, _value: V) -> u64 {
        count.wrapping_add(1)
    }
}

impl<V: Copy> Reversible<V> for Count {
    ghost minus = { λ count _. (count + (2 ^ 64 - 1)) % 2 ^ 64 };

    #[inline(always)]
    fn minus(count: u64, _value: V) -> u64 {
        count.wrapping_sub(1)
    }

    ghost undoes = { λ count value inside. count_undone count inside };

    ghost commutes = { λ count value back. count_commutes count };
}

/// Adds the value of each row.
pub(crate) struct Sum;

impl<V: Widen> Addition<V> for Sum {
    type Total = V::Wide;

    ghost plus = { λ sum value. V.Wide.wrapped (V.Wide.number sum +ℤ V.number value) };

    ghost is_total = { V.Wide.is_in_type };

    ghost skips = { false };

    #[inline(always)]
    fn skips() -> bool {
        false
    }

    #[inline(always)]
    fn plus(sum: V::Wide, value: V) -> V::Wide {
        sum.is_value();
        sum.wrapping_plus(value.widened())
    }
}

impl<V: Widen> Reversible<V> for Sum {
    ghost minus = { λ sum value. V.Wide.wrapped (V.Wide.number sum -ℤ V.number value) };

    #[inline(always)]
    fn minus(sum: V::Wide, value: V) -> V::Wide {
        sum.is_value();
        sum.wrapping_minus(value.widened())
    }

    ghost undoes = { λ sum value inside. sum_undone V.Wide.number V.Wide.wrapped
        V.Wide.wraps_each sum (V.number value) (V.Wide.wraps_own sum inside) };

    ghost commutes = { λ sum value back. sum_commutes V.Wide.number V.Wide.wrapped
        V.Wide.wraps_each sum (V.number value) (V.number back) };
}

/// Takes back what an addition has added. Rows whose code has no total are passed over, since they
/// were not added.
pub(crate) struct Undo<A> {
    addition: PhantomData<A>,
}

impl<V: Copy, A: Reversible<V>> Addition<V> for Undo<A> {
    type Total = A::Total;

    ghost plus = { A.minus };

    ghost is_total = { A.is_total };

    ghost skips = { true };

    #[inline(always)]
    fn skips() -> bool {
        true
    }

    #[inline(always)]
    fn plus(total: A::Total, value: V) -> A::Total {
        A::minus(total, value)
    }
}

/// Adds one row, if its code is the number of a total. Returns true if it is, or if rows without a
/// total are passed over.
#[inline(always)]
pub(crate) fn add_row<C: BitIndex, V: Copy, A: Addition<V>>(
    totals: &mut [A::Total],
    code: C,
    value: V,
) -> bool
    ensures added { AddsRows C.number A.plus totals.old totals.new ((code, value) ∷ []) }
    ensures in_type { (g : ℕ) (d : A.Total) → g < length totals.old → C.number code ≡ pos g
        → A.is_total (slice_index_or totals.old g d) }
    ensures group { IsTrue result → A.skips ≡ false → IsGroup (length totals.old) (C.number code) }
    ensures past { IsFalse result → ¬ IsGroup (length totals.old) (C.number code) }
    ensures skips { A.skips ≡ true → IsTrue result }
{
    if let Some(place) = code.place() {
        if place < totals.len() {
            totals[place] = A::plus(totals[place], value);
            return true;
        }
    }
    A::skips()
}
