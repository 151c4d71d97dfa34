// Written in part by tools/write-lists from tools/families/masked_floats.txt.
//! Floats as terms of sums, and in order.
ghost use Rattle.std.specs.Float.{Float, Format, nan, binary32, binary64, float_zero, NotNan};
ghost use Rattle.std.specs.Prelude.{◌≡◌, is_nan};
ghost use Rattle.vb_aggregate.specs.Floats.{upwards, downwards, comes_before};
ghost use lib.Ieee.{add};

/// A float that can be summed and ordered. `f32` and `f64` implement it.
pub trait FloatSummand: Copy {
    // The format of the type.
    ghost format: { Format };

    // The value, by IEEE 754.
    ghost float: { Self → Float };

    /// Returns 0.0.
    fn zero() -> Self
        ensures { float result ≡ float_zero };

    /// Returns a NaN.
    fn nan() -> Self
        ensures { float result ≡ nan };

    /// Returns whether this is a NaN.
    fn is_nan(self) -> bool
        ensures { result ≡ is_nan (float self) };

    /// Returns whether this is a number below `other`, which must not be a NaN; -0.0 is below 0.0.
    fn is_below(self, other: Self) -> bool
        requires { NotNan (float other) }
        ensures { result ≡ comes_before upwards (float self) (float other) };

    /// Returns whether this is a number above `other`, which must not be a NaN; 0.0 is above -0.0.
    fn is_above(self, other: Self) -> bool
        requires { NotNan (float other) }
        ensures { result ≡ comes_before downwards (float self) (float other) };

    /// Returns the sum of both, rounded.
    fn plus(self, other: Self) -> Self
        ensures { float result ≡ add format (float self) (float other) };
}

impl FloatSummand for f32 {
    ghost format = { binary32 };

    ghost float = { λ x. x };

    #[inline(always)]
    fn zero() -> f32 {
        0.0
    }

    #[inline(always)]
    fn nan() -> f32 {
        f32::NAN
    }

    #[inline(always)]
    fn is_nan(self) -> bool {
        self.is_nan()
    }

    #[inline(always)]
    fn is_below(self, other: f32) -> bool {
        !self.is_nan() && self.total_cmp(&other).is_lt()
    }

    #[inline(always)]
    fn is_above(self, other: f32) -> bool {
        !self.is_nan() && other.total_cmp(&self).is_lt()
    }

    #[inline(always)]
    fn plus(self, other: f32) -> f32 {
        self + other
    }
}

impl FloatSummand for f64 {
    ghost format = { binary64 };

    ghost float = { λ x. x };

    #[inline(always)]
    fn zero() -> f64 {
        0.0
    }

    #[inline(always)]
    fn nan() -> f64 {
        f64::NAN
    }

    #[inline(always)]
    fn is_nan(self) -> bool {
        self.is_nan()
    }

    #[inline(always)]
    fn is_below(self, other: f64) -> bool {
        !self.is_nan() && self.total_cmp(&other).is_lt()
    }

    #[inline(always)]
    fn is_above(self, other: f64) -> bool {
        !self.is_nan() && other.total_cmp(&self).is_lt()
    }

    #[inline(always)]
    fn plus(self, other: f64) -> f64 {
        self + other
    }
}
