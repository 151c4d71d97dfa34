//! Wrapping subtraction for the whole numbers of 64 bits.
ghost use Rattle.std.proofs.lemmas.Int.{int_wrap-add_left, int_wrap_fits};
ghost use Rattle.std.specs.Int.{w64};
ghost use Rattle.vb_aggregate.specs.Wraps.{unsigned_wraps_on};
ghost use Rattle.vb_group.specs.Reversed.{unsigned_own};

use crate::widen::WrappingMinus;

impl WrappingMinus for u64 {
    #[inline(always)]
    fn wrapping_minus(self, other: u64) -> u64 {
        self.wrapping_sub(other)
    }

    ghost wraps_each = { unsigned_wraps_on w64 };

    ghost wraps_own = { unsigned_own };
}

impl WrappingMinus for i64 {
    #[inline(always)]
    fn wrapping_minus(self, other: i64) -> i64 {
        self.wrapping_sub(other)
    }

    ghost wraps_each = { int_wrap-add_left w64 };

    ghost wraps_own = { int_wrap_fits w64 };
}
