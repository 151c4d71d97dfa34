//! A number of one type among the values of another, compared exactly.
use query_csv::compare;
use std::cmp::Ordering;
use std::num::{nearest_i64_to_f64, saturating_f64_to_i64};
use vortex_buffer::Comparison;

/// The position of a number next to a value of a type.
#[derive(Clone, Copy, PartialEq, Eq)]
pub enum Side {
    /// It equals that value.
    At,
    /// It is above that value, and below the next one.
    Above,
    /// It is below that value, and above the one before.
    Below,
}

/// The test of values of one type that replaces their comparison with a number of another type: it
/// has the same result for each value.
#[derive(Clone, Copy, PartialEq, Eq)]
pub enum Meaning {
    /// A comparison with the value next to the number.
    Compare(Comparison),
    /// The same truth value for each.
    Always(bool),
}

/// Returns a whole number next to a finite float, and the side of it on which the float is.
pub fn among_wholes(number: f64) -> (i64, Side) {
    let floor = saturating_f64_to_i64(number.floor());
    match compare(floor, number) {
        Ordering::Less => (floor, Side::Above),
        Ordering::Equal => (floor, Side::At),
        Ordering::Greater => (floor, Side::Below),
    }
}

/// Returns the float nearest to a whole number, and the side of it on which the whole number is.
pub fn among_floats(number: i64) -> (f64, Side) {
    let nearest = nearest_i64_to_f64(number);
    match compare(number, nearest) {
        Ordering::Less => (nearest, Side::Below),
        Ordering::Equal => (nearest, Side::At),
        Ordering::Greater => (nearest, Side::Above),
    }
}

impl Side {
    /// Returns the test that has the same result for each value as `comparison` with a number on
    /// this side of the neighboring value.
    pub fn meaning(self, comparison: Comparison) -> Meaning {
        match (self, comparison) {
            (Side::At, _) => Meaning::Compare(comparison),
            (_, Comparison::Equal) => Meaning::Always(false),
            (_, Comparison::NotEqual) => Meaning::Always(true),
            (Side::Above, Comparison::Less | Comparison::LessOrEqual) => {
                Meaning::Compare(Comparison::LessOrEqual)
            }
            (Side::Above, _) => Meaning::Compare(Comparison::Greater),
            (Side::Below, Comparison::Less | Comparison::LessOrEqual) => {
                Meaning::Compare(Comparison::Less)
            }
            (Side::Below, _) => Meaning::Compare(Comparison::GreaterOrEqual),
        }
    }
}
