// Written in part by tools/write-lists from tools/families/summands.txt.
//! The unsigned whole numbers as terms of exact sums.
ghost use Rattle.std.specs.Prelude.{◌^◌, pos};

use crate::wide_summand::WideSummand;

impl WideSummand for u8 {
    type Part = u64;

    type Total = u128;

    ghost reach = { 2 ^ 8 };

    ghost part_number = { pos };

    ghost total_number = { pos };

    #[inline(always)]
    fn no_part() -> u64 {
        0
    }

    #[inline(always)]
    fn plus(sum: u64, value: u8) -> u64 {
        sum.wrapping_add(u64::from(value))
    }

    #[inline(always)]
    fn no_total() -> u128 {
        0
    }

    #[inline(always)]
    fn join(sum: u128, part: u64) -> u128 {
        sum.wrapping_add(u128::from(part))
    }

    fn narrow(sum: u128) -> Option<u8> {
        u8::try_from(sum).ok()
    }
}

impl WideSummand for u16 {
    type Part = u64;

    type Total = u128;

    ghost reach = { 2 ^ 16 };

    ghost part_number = { pos };

    ghost total_number = { pos };

    #[inline(always)]
    fn no_part() -> u64 {
        0
    }

    #[inline(always)]
    fn plus(sum: u64, value: u16) -> u64 {
        sum.wrapping_add(u64::from(value))
    }

    #[inline(always)]
    fn no_total() -> u128 {
        0
    }

    #[inline(always)]
    fn join(sum: u128, part: u64) -> u128 {
        sum.wrapping_add(u128::from(part))
    }

    fn narrow(sum: u128) -> Option<u16> {
        u16::try_from(sum).ok()
    }
}

impl WideSummand for u32 {
    type Part = u64;

    type Total = u128;

    ghost reach = { 2 ^ 32 };

    ghost part_number = { pos };

    ghost total_number = { pos };

    #[inline(always)]
    fn no_part() -> u64 {
        0
    }

    #[inline(always)]
    fn plus(sum: u64, value: u32) -> u64 {
        sum.wrapping_add(u64::from(value))
    }

    #[inline(always)]
    fn no_total() -> u128 {
        0
    }

    #[inline(always)]
    fn join(sum: u128, part: u64) -> u128 {
        sum.wrapping_add(u128::from(part))
    }

    fn narrow(sum: u128) -> Option<u32> {
        u32::try_from(sum).ok()
    }
}

impl WideSummand for u64 {
    type Part = u128;

    type Total = u128;

    ghost reach = { 2 ^ 64 };

    ghost part_number = { pos };

    ghost total_number = { pos };

    #[inline(always)]
    fn no_part() -> u128 {
        0
    }

    #[inline(always)]
    fn plus(sum: u128, value: u64) -> u128 {
        sum.wrapping_add(u128::from(value))
    }

    #[inline(always)]
    fn no_total() -> u128 {
        0
    }

    #[inline(always)]
    fn join(sum: u128, part: u128) -> u128 {
        sum.wrapping_add(part)
    }

    fn narrow(sum: u128) -> Option<u64> {
        u64::try_from(sum).ok()
    }
}

impl WideSummand for usize {
    type Part = u128;

    type Total = u128;

    ghost reach = { 2 ^ 64 };

    ghost part_number = { pos };

    ghost total_number = { pos };

    #[inline(always)]
    fn no_part() -> u128 {
        0
    }

    #[inline(always)]
    fn plus(sum: u128, value: usize) -> u128 {
        sum.wrapping_add(value as u128)
    }

    #[inline(always)]
    fn no_total() -> u128 {
        0
    }

    #[inline(always)]
    fn join(sum: u128, part: u128) -> u128 {
        sum.wrapping_add(part)
    }

    fn narrow(sum: u128) -> Option<usize> {
        usize::try_from(sum).ok()
    }
}
