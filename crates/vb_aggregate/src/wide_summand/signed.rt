// Written in part by tools/write-lists from tools/families/summands.txt.
//! The signed whole numbers as terms of exact sums.
ghost use Rattle.std.specs.Prelude.{◌^◌};

use crate::wide_summand::WideSummand;

impl WideSummand for i8 {
    type Part = i64;

    type Total = i128;

    ghost reach = { 2 ^ 7 };

    ghost part_number = { λ sum. sum };

    ghost total_number = { λ sum. sum };

    #[inline(always)]
    fn no_part() -> i64 {
        0
    }

    #[inline(always)]
    fn plus(sum: i64, value: i8) -> i64 {
        sum.wrapping_add(i64::from(value))
    }

    #[inline(always)]
    fn no_total() -> i128 {
        0
    }

    #[inline(always)]
    fn join(sum: i128, part: i64) -> i128 {
        sum.wrapping_add(i128::from(part))
    }

    fn narrow(sum: i128) -> Option<i8> {
        i8::try_from(sum).ok()
    }
}

impl WideSummand for i16 {
    type Part = i64;

    type Total = i128;

    ghost reach = { 2 ^ 15 };

    ghost part_number = { λ sum. sum };

    ghost total_number = { λ sum. sum };

    #[inline(always)]
    fn no_part() -> i64 {
        0
    }

    #[inline(always)]
    fn plus(sum: i64, value: i16) -> i64 {
        sum.wrapping_add(i64::from(value))
    }

    #[inline(always)]
    fn no_total() -> i128 {
        0
    }

    #[inline(always)]
    fn join(sum: i128, part: i64) -> i128 {
        sum.wrapping_add(i128::from(part))
    }

    fn narrow(sum: i128) -> Option<i16> {
        i16::try_from(sum).ok()
    }
}

impl WideSummand for i32 {
    type Part = i64;

    type Total = i128;

    ghost reach = { 2 ^ 31 };

    ghost part_number = { λ sum. sum };

    ghost total_number = { λ sum. sum };

    #[inline(always)]
    fn no_part() -> i64 {
        0
    }

    #[inline(always)]
    fn plus(sum: i64, value: i32) -> i64 {
        sum.wrapping_add(i64::from(value))
    }

    #[inline(always)]
    fn no_total() -> i128 {
        0
    }

    #[inline(always)]
    fn join(sum: i128, part: i64) -> i128 {
        sum.wrapping_add(i128::from(part))
    }

    fn narrow(sum: i128) -> Option<i32> {
        i32::try_from(sum).ok()
    }
}

impl WideSummand for i64 {
    type Part = i128;

    type Total = i128;

    ghost reach = { 2 ^ 63 };

    ghost part_number = { λ sum. sum };

    ghost total_number = { λ sum. sum };

    #[inline(always)]
    fn no_part() -> i128 {
        0
    }

    #[inline(always)]
    fn plus(sum: i128, value: i64) -> i128 {
        sum.wrapping_add(i128::from(value))
    }

    #[inline(always)]
    fn no_total() -> i128 {
        0
    }

    #[inline(always)]
    fn join(sum: i128, part: i128) -> i128 {
        sum.wrapping_add(part)
    }

    fn narrow(sum: i128) -> Option<i64> {
        i64::try_from(sum).ok()
    }
}

impl WideSummand for isize {
    type Part = i128;

    type Total = i128;

    ghost reach = { 2 ^ 63 };

    ghost part_number = { λ sum. sum };

    ghost total_number = { λ sum. sum };

    #[inline(always)]
    fn no_part() -> i128 {
        0
    }

    #[inline(always)]
    fn plus(sum: i128, value: isize) -> i128 {
        sum.wrapping_add(value as i128)
    }

    #[inline(always)]
    fn no_total() -> i128 {
        0
    }

    #[inline(always)]
    fn join(sum: i128, part: i128) -> i128 {
        sum.wrapping_add(part)
    }

    fn narrow(sum: i128) -> Option<isize> {
        isize::try_from(sum).ok()
    }
}
