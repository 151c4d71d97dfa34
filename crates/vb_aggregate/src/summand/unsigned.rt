// Written in part by tools/write-lists from tools/families/summands.txt.
//! The unsigned whole numbers as terms of sums that wrap around.
ghost use Rattle.std.specs.Prelude.{pos, refl};
ghost use Rattle.std.specs.Int.{w8, w16, w32, w64, w128};
ghost use Rattle.vb_aggregate.specs.Wraps.{wrap_unsigned, unsigned_wraps_on};

use crate::summand::Summand;

impl Summand for u8 {
    ghost wrapped = { wrap_unsigned w8 };

    #[inline(always)]
    fn is_less(self, other: u8) -> bool {
        self < other
    }

    #[inline(always)]
    fn wrapping_plus(self, other: u8) -> u8 {
        self.wrapping_add(other)
    }

    ghost wraps_on = { λ sum value. unsigned_wraps_on w8 sum (pos value) };

    ghost wraps_zero = { refl };
}

impl Summand for u16 {
    ghost wrapped = { wrap_unsigned w16 };

    #[inline(always)]
    fn is_less(self, other: u16) -> bool {
        self < other
    }

    #[inline(always)]
    fn wrapping_plus(self, other: u16) -> u16 {
        self.wrapping_add(other)
    }

    ghost wraps_on = { λ sum value. unsigned_wraps_on w16 sum (pos value) };

    ghost wraps_zero = { refl };
}

impl Summand for u32 {
    ghost wrapped = { wrap_unsigned w32 };

    #[inline(always)]
    fn is_less(self, other: u32) -> bool {
        self < other
    }

    #[inline(always)]
    fn wrapping_plus(self, other: u32) -> u32 {
        self.wrapping_add(other)
    }

    ghost wraps_on = { λ sum value. unsigned_wraps_on w32 sum (pos value) };

    ghost wraps_zero = { refl };
}

impl Summand for u64 {
    ghost wrapped = { wrap_unsigned w64 };

    #[inline(always)]
    fn is_less(self, other: u64) -> bool {
        self < other
    }

    #[inline(always)]
    fn wrapping_plus(self, other: u64) -> u64 {
        self.wrapping_add(other)
    }

    ghost wraps_on = { λ sum value. unsigned_wraps_on w64 sum (pos value) };

    ghost wraps_zero = { refl };
}

impl Summand for u128 {
    ghost wrapped = { wrap_unsigned w128 };

    #[inline(always)]
    fn is_less(self, other: u128) -> bool {
        self < other
    }

    #[inline(always)]
    fn wrapping_plus(self, other: u128) -> u128 {
        self.wrapping_add(other)
    }

    ghost wraps_on = { λ sum value. unsigned_wraps_on w128 sum (pos value) };

    ghost wraps_zero = { refl };
}

impl Summand for usize {
    ghost wrapped = { wrap_unsigned w64 };

    #[inline(always)]
    fn is_less(self, other: usize) -> bool {
        self < other
    }

    #[inline(always)]
    fn wrapping_plus(self, other: usize) -> usize {
        self.wrapping_add(other)
    }

    ghost wraps_on = { λ sum value. unsigned_wraps_on w64 sum (pos value) };

    ghost wraps_zero = { refl };
}
