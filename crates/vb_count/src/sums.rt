//! Eight sums, added at once.
ghost use Rattle.std.specs.Prelude.{◌≡◌, ℕ, ◌+◌, ◌*◌, ◌<◌, ◌^◌};
ghost use Rattle.std.specs.Simd.Lanes.{sum_l};
ghost use Rattle.vb_count.specs.Lanes.{EightWords};

use std::marker::Model;
use std::simd::prelude::*;

/// Eight sums. Contracts see their total.
#[derive(Drop)]
pub(crate) struct Sums {
    pub(crate) lanes: u64x8,
}

impl Model for Sums {
    ghost Value = { ℕ };

    ghost view = { λ s. sum_l s.lanes };

    ghost invariant = { λ s. EightWords s.lanes };
}

impl Sums {
    /// Returns sums of 0.
    pub(crate) fn zero() -> Sums
        ensures { result ≡ 0 }
    {
        Sums {
            lanes: u64x8::splat(0),
        }
    }

    /// Returns the sums of both.
    pub(crate) fn plus(self, other: Sums) -> Sums
        requires { self + other < 2 ^ 64 }
        ensures { result ≡ self + other }
    {
        Sums {
            lanes: self.lanes + other.lanes,
        }
    }

    /// Returns twice the sums.
    pub(crate) fn twice(self) -> Sums
        requires { 2 * self < 2 ^ 64 }
        ensures { result ≡ 2 * self }
    {
        Sums {
            lanes: self.lanes + self.lanes,
        }
    }

    /// Returns the total.
    pub(crate) fn total(self) -> usize
        requires { self < 2 ^ 64 }
        ensures { result ≡ self }
    {
        self.lanes.reduce_sum() as usize
    }
}
