//! Whole numbers as terms of sums of 64 bits.
ghost use Rattle.std.specs.Prelude.{◌≡◌, ℤ, ◌+ℤ◌, ◌-ℤ◌};

mod minus;
mod signed;
mod unsigned;

use vb_aggregate::Summand;

/// A whole number that can be subtracted. `u64` and `i64` implement it.
pub trait WrappingMinus: Summand {
    /// Returns the difference of both, wrapped around at the end of the type.
    fn wrapping_minus(self, other: Self) -> Self
        ensures { result ≡ Self.wrapped (Self.number self -ℤ Self.number other) };

    // Wrapping the first of two terms around before they are added changes nothing.
    ghost wraps_each: { (a b : ℤ) → Self.wrapped (Self.number (Self.wrapped a) +ℤ b)
        ≡ Self.wrapped (a +ℤ b) };

    // A value of the type doesn't wrap around.
    ghost wraps_own: { (value : Self) → Self.is_in_type value
        → Self.wrapped (Self.number value) ≡ value };
}

/// A whole number of at most 64 bits. The ten whole-number types of at most 64 bits implement it.
pub trait Widen: Summand {
    /// The 64-bit type of the same signedness: `u64` or `i64`.
    type Wide: WrappingMinus;

    /// Returns the same number in 64 bits.
    fn widened(self) -> Self::Wide
        ensures { Self.Wide.number result ≡ Self.number self };
}
