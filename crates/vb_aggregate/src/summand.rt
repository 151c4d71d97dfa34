//! Whole numbers as terms of sums that wrap around.
ghost use Rattle.std.specs.Prelude.{◌≡◌, ℤ, pos, ◌+ℤ◌, int_lt};

mod signed;
mod unsigned;

use vb_core::{BitIndex, Element};

/// A whole number that can be compared and summed. The twelve whole-number types implement it.
pub trait Summand: BitIndex + Element {
    // The value of the type that differs from a number by a multiple of 2^n, for a type of n bits.
    ghost wrapped: { ℤ → Self };

    /// Returns whether this value is less than `other`.
    fn is_less(self, other: Self) -> bool
        ensures { result ≡ int_lt (Self.number self) (Self.number other) };

    /// Returns the sum of both, wrapped around at the end of the type.
    fn wrapping_plus(self, other: Self) -> Self
        ensures { result ≡ wrapped (Self.number self +ℤ Self.number other) };

    // Wrapping a sum around before the next term is added gives the same as wrapping it at the end.
    ghost wraps_on: { (sum : ℤ) (value : Self)
        → wrapped (Self.number (wrapped sum) +ℤ Self.number value)
        ≡ wrapped (sum +ℤ Self.number value) };

    // The sum of no values, wrapped around, is 0.
    ghost wraps_zero: { wrapped (pos 0) ≡ Self.zero };
}
