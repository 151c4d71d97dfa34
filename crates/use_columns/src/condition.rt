//! The condition of a filter on a value.
ghost use Rattle.std.specs.Prelude.{◌≡◌, ℕ, pos};

use vortex_buffer::Comparison;

/// The condition of a filter on a value.
#[derive(Clone, Copy, Debug, PartialEq, Eq)]
pub enum Condition {
    /// It is below this number.
    Below(u32),
    /// It is this number or above it.
    AtLeast(u32),
    /// It is this number.
    Equals(u32),
}

impl Condition {
    ghost use Rattle.use_columns.specs.Filters.{is_met};
    ghost use Rattle.vortex_buffer.specs.Compares.{compares};

    /// Returns whether a value meets the condition.
    pub fn is_met_by(self, value: u32) -> bool
        ensures { result ≡ is_met self value }
    {
        match self {
            Condition::Below(number) => value < number,
            Condition::AtLeast(number) => value >= number,
            Condition::Equals(number) => value == number,
        }
    }

    /// Returns `op` and `number`: a value meets the condition exactly if `value op number` is true.
    pub fn comparison(self) -> (Comparison, u32)
        ensures { (value : ℕ) → compares result.0 (pos value) (pos result.1) ≡ is_met self value }
    {
        match self {
            Condition::Below(number) => (Comparison::Less, number),
            Condition::AtLeast(number) => (Comparison::GreaterOrEqual, number),
            Condition::Equals(number) => (Comparison::Equal, number),
        }
    }
}
