//! Whole numbers as terms of exact sums.
ghost use Rattle.std.specs.Prelude.{◌≡◌, ℕ, ◌+◌, ◌*◌, ◌^◌, ◌<◌, ℤ, pos, ◌+ℤ◌};
ghost use Rattle.vb_aggregate.specs.Sums.{Within, IsValueOf};

mod signed;
mod unsigned;

use crate::summand::Summand;

/// A whole number of at most 64 bits, for which a `u128` or an `i128` holds the sum of the values
/// of any slice. The ten whole-number types of at most 64 bits implement it.
pub trait WideSummand: Summand {
    /// A sum of at most 64 values.
    type Part: Copy;

    /// A sum of the values of a slice: `u128` for unsigned types, `i128` for signed ones.
    type Total: Copy;

    // No value is further from 0 than this.
    ghost reach: { ℕ };

    // A part as a number.
    ghost part_number: { Self.Part → ℤ };

    // A total as a number.
    ghost total_number: { Self.Total → ℤ };

    /// Returns 0, the sum of no values.
    fn no_part() -> Self::Part
        ensures { part_number result ≡ pos 0 };

    /// Returns `sum`, of fewer than 64 values, with one more value added.
    fn plus(sum: Self::Part, value: Self) -> Self::Part
        ensures sum { (k : ℕ) → k < 64 → Within (k * reach) (part_number sum)
            → part_number result ≡ part_number sum +ℤ Self.number value }
        ensures within { Within reach (Self.number value) };

    /// Returns 0, the sum of no values.
    fn no_total() -> Self::Total
        ensures { total_number result ≡ pos 0 };

    /// Returns the total of `sum` and `part`, which together have fewer than 2^64 values.
    fn join(sum: Self::Total, part: Self::Part) -> Self::Total
        ensures { (j k : ℕ) → j + k < 2 ^ 64 → Within (j * reach) (total_number sum)
            → Within (k * reach) (part_number part)
            → total_number result ≡ total_number sum +ℤ part_number part };

    /// Returns the sum as a value of the type; `None` if the type has no such value.
    fn narrow(sum: Self::Total) -> Option<Self>
        ensures { IsValueOf Self.is_in_type Self.number (total_number sum) result };
}
