// Written in part by tools/write-lists from tools/families/masked_sums.txt.
//! Types whose sums fit in an `i128`.
use vb_aggregate::WideSummand;

/// A whole number of at most 64 bits.
pub(crate) trait Term: WideSummand + Ord {
    /// The value as an `i128`.
    fn number(self) -> i128;

    /// The sum as an `i128`.
    fn sum(total: Self::Total) -> Option<i128>;
}

impl Term for u8 {
    fn number(self) -> i128 {
        i128::from(self)
    }

    fn sum(total: u128) -> Option<i128> {
        i128::try_from(total).ok()
    }
}

impl Term for u16 {
    fn number(self) -> i128 {
        i128::from(self)
    }

    fn sum(total: u128) -> Option<i128> {
        i128::try_from(total).ok()
    }
}

impl Term for u32 {
    fn number(self) -> i128 {
        i128::from(self)
    }

    fn sum(total: u128) -> Option<i128> {
        i128::try_from(total).ok()
    }
}

impl Term for u64 {
    fn number(self) -> i128 {
        i128::from(self)
    }

    fn sum(total: u128) -> Option<i128> {
        i128::try_from(total).ok()
    }
}

impl Term for usize {
    fn number(self) -> i128 {
        i128::from(self as u64)
    }

    fn sum(total: u128) -> Option<i128> {
        i128::try_from(total).ok()
    }
}

impl Term for i8 {
    fn number(self) -> i128 {
        i128::from(self)
    }

    fn sum(total: i128) -> Option<i128> {
        Some(total)
    }
}

impl Term for i16 {
    fn number(self) -> i128 {
        i128::from(self)
    }

    fn sum(total: i128) -> Option<i128> {
        Some(total)
    }
}

impl Term for i32 {
    fn number(self) -> i128 {
        i128::from(self)
    }

    fn sum(total: i128) -> Option<i128> {
        Some(total)
    }
}

impl Term for i64 {
    fn number(self) -> i128 {
        i128::from(self)
    }

    fn sum(total: i128) -> Option<i128> {
        Some(total)
    }
}

impl Term for isize {
    fn number(self) -> i128 {
        i128::from(self as i64)
    }

    fn sum(total: i128) -> Option<i128> {
        Some(total)
    }
}
