//! The comparisons of two values.

/// A comparison of a left value with a right one.
#[derive(Clone, Copy, Debug, PartialEq, Eq)]
pub enum Comparison {
    /// The values are equal.
    Equal,
    /// The values differ.
    NotEqual,
    /// The left value is less than the right one.
    Less,
    /// The left value is less than the right one, or equal to it.
    LessOrEqual,
    /// The left value is greater than the right one.
    Greater,
    /// The left value is greater than the right one, or equal to it.
    GreaterOrEqual,
}
