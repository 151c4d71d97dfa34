//! Totals of a column's values.
use query_table::Range;
use std::alloc::{AllocError, Global};
use std::num::nearest_u64_to_f64;

/// Whole numbers. The sum is exact.
#[derive(Clone, Copy)]
pub struct Wholes {
    /// The least one.
    pub least: i64,
    /// The greatest one.
    pub greatest: i64,
    /// The sum.
    pub sum: i128,
}

impl Wholes {
    /// Returns the total of one number.
    pub fn of(number: i64) -> Wholes {
        Wholes {
            least: number,
            greatest: number,
            sum: i128::from(number),
        }
    }

    /// Returns the total with one more number.
    pub fn plus(self, number: i64) -> Wholes {
        Wholes {
            least: self.least.min(number),
            greatest: self.greatest.max(number),
            sum: self.sum.wrapping_add(i128::from(number)),
        }
    }

    /// Returns the range of `count` numbers.
    pub fn range(self, alloc: Global, count: u64) -> Result<Range, AllocError> {
        let sum = format!(in alloc; "{}", self.sum)?;
        let mean = sum.as_str().parse::<f64>().unwrap_or(0.0) / nearest_u64_to_f64(count);
        drop(sum);
        Ok(Range::Whole {
            least: self.least,
            greatest: self.greatest,
            mean,
        })
    }
}

/// Floats.
#[derive(Clone, Copy)]
pub struct Floats {
    /// The least one.
    pub least: f64,
    /// The greatest one.
    pub greatest: f64,
    /// The sum.
    pub sum: Sum,
}

impl Floats {
    /// Returns the total of one number.
    pub fn of(number: f64) -> Floats {
        Floats {
            least: number,
            greatest: number,
            sum: Sum::nothing().plus(number),
        }
    }

    /// Returns the total with one more number.
    pub fn plus(self, number: f64) -> Floats {
        Floats {
            least: least(self.least, number),
            greatest: greatest(self.greatest, number),
            sum: self.sum.plus(number),
        }
    }

    /// Returns the total of both.
    pub fn joined(self, other: Floats) -> Floats {
        Floats {
            least: least(self.least, other.least),
            greatest: greatest(self.greatest, other.greatest),
            sum: self.sum.joined(other.sum),
        }
    }

    /// Returns the range of `count` numbers.
    pub fn range(self, count: u64) -> Range {
        Range::Float {
            least: self.least,
            greatest: self.greatest,
            mean: self.sum.mean(nearest_u64_to_f64(count)),
        }
    }
}

fn least(before: f64, number: f64) -> f64 {
    if number < before { number } else { before }
}

fn greatest(before: f64, number: f64) -> f64 {
    if number > before { number } else { before }
}

/// The unit of large numbers in a [`Sum`], a power of two.
const UNIT: f64 = 18_446_744_073_709_551_616.0;

/// The greatest number that isn't large, `f64::MAX / UNIT`: sums of fewer than `UNIT` such numbers
/// don't overflow.
const LARGEST: f64 = 9.745314011399998e288;

/// A sum of finite floats, which overflows only in the end.
#[derive(Clone, Copy)]
pub struct Sum {
    /// The sum of numbers up to [`LARGEST`].
    small: Part,
    /// The sum of the larger ones, in units of [`UNIT`].
    large: Part,
}

impl Sum {
    /// Returns the sum of no number.
    pub fn nothing() -> Sum {
        Sum {
            small: Part::nothing(),
            large: Part::nothing(),
        }
    }

    /// Returns the sum with one more number.
    pub fn plus(self, number: f64) -> Sum {
        let Sum { small, large } = self;
        if number.abs() <= LARGEST {
            let small = small.plus(number);
            Sum { small, large }
        } else {
            let large = large.plus(number / UNIT);
            Sum { small, large }
        }
    }

    /// Returns the sum of both.
    pub fn joined(self, other: Sum) -> Sum {
        Sum {
            small: self.small.joined(other.small),
            large: self.large.joined(other.large),
        }
    }

    /// Returns the sum, rounded; infinite if it is beyond the range of floats.
    pub fn value(self) -> f64 {
        self.mean(1.0)
    }

    /// Returns the sum divided by a number of values, rounded.
    pub fn mean(self, count: f64) -> f64 {
        let Sum { small, large } = self;
        if large.value() == 0.0 {
            return small.value() / count;
        }
        let sum = large.plus(small.high / UNIT).plus(small.low / UNIT);
        sum.value() / count * UNIT
    }
}

/// A sum of floats that keeps the digits which each step rounds away (Neumaier's).
#[derive(Clone, Copy)]
struct Part {
    high: f64,
    low: f64,
}

impl Part {
    fn nothing() -> Part {
        Part {
            high: 0.0,
            low: 0.0,
        }
    }

    fn plus(self, number: f64) -> Part {
        let high = self.high + number;
        let lost = if self.high.abs() >= number.abs() {
            (self.high - high) + number
        } else {
            (number - high) + self.high
        };
        Part {
            high,
            low: self.low + lost,
        }
    }

    fn joined(self, other: Part) -> Part {
        self.plus(other.high).plus(other.low)
    }

    fn value(self) -> f64 {
        self.high + self.low
    }
}
