// Written in part by tools/write-lists from tools/families/summands.txt.
//! The signed whole numbers as terms of sums that wrap around.
ghost use Rattle.std.proofs.lemmas.Int.{int_wrap-add_left};
ghost use Rattle.std.specs.Int.{w8, w16, w32, w64, w128, int_wrap};
ghost use Rattle.vb_aggregate.specs.Wraps.{signed_wraps_zero};

use crate::summand::Summand;

impl Summand for i8 {
    ghost wrapped = { int_wrap w8 };

    #[inline(always)]
    fn is_less(self, other: i8) -> bool {
        self < other
    }

    #[inline(always)]
    fn wrapping_plus(self, other: i8) -> i8 {
        self.wrapping_add(other)
    }

    ghost wraps_on = { λ sum value. int_wrap-add_left w8 sum value };

    ghost wraps_zero = { signed_wraps_zero w8 };
}

impl Summand for i16 {
    ghost wrapped = { int_wrap w16 };

    #[inline(always)]
    fn is_less(self, other: i16) -> bool {
        self < other
    }

    #[inline(always)]
    fn wrapping_plus(self, other: i16) -> i16 {
        self.wrapping_add(other)
    }

    ghost wraps_on = { λ sum value. int_wrap-add_left w16 sum value };

    ghost wraps_zero = { signed_wraps_zero w16 };
}

impl Summand for i32 {
    ghost wrapped = { int_wrap w32 };

    #[inline(always)]
    fn is_less(self, other: i32) -> bool {
        self < other
    }

    #[inline(always)]
    fn wrapping_plus(self, other: i32) -> i32 {
        self.wrapping_add(other)
    }

    ghost wraps_on = { λ sum value. int_wrap-add_left w32 sum value };

    ghost wraps_zero = { signed_wraps_zero w32 };
}

impl Summand for i64 {
    ghost wrapped = { int_wrap w64 };

    #[inline(always)]
    fn is_less(self, other: i64) -> bool {
        self < other
    }

    #[inline(always)]
    fn wrapping_plus(self, other: i64) -> i64 {
        self.wrapping_add(other)
    }

    ghost wraps_on = { λ sum value. int_wrap-add_left w64 sum value };

    ghost wraps_zero = { signed_wraps_zero w64 };
}

impl Summand for i128 {
    ghost wrapped = { int_wrap w128 };

    #[inline(always)]
    fn is_less(self, other: i128) -> bool {
        self < other
    }

    #[inline(always)]
    fn wrapping_plus(self, other: i128) -> i128 {
        self.wrapping_add(other)
    }

    ghost wraps_on = { λ sum value. int_wrap-add_left w128 sum value };

    ghost wraps_zero = { signed_wraps_zero w128 };
}

impl Summand for isize {
    ghost wrapped = { int_wrap w64 };

    #[inline(always)]
    fn is_less(self, other: isize) -> bool {
        self < other
    }

    #[inline(always)]
    fn wrapping_plus(self, other: isize) -> isize {
        self.wrapping_add(other)
    }

    ghost wraps_on = { λ sum value. int_wrap-add_left w64 sum value };

    ghost wraps_zero = { signed_wraps_zero w64 };
}
