//! Floats by their bits, and what IEEE 754 says of two of them.
use crate::written::Pairs;
use std::num::{f32_from_bits_with_nan, f64_from_bits_with_nan};
use vb_compare::{Comparison, FloatLanes};

/// A float of `f32` or `f64`, by its bits.
pub(crate) trait ByBits: FloatLanes {
    /// The bit of the sign, above all others.
    const SIGN: u64;

    /// The bits of infinity. Those of a NaN, without the sign, are above it.
    const INFINITY: u64;

    /// The bits of some floats: zeros, subnormals, normal ones, infinities and NaNs.
    const BITS: &'static [u64];

    /// The float with these bits. Bits of a NaN, quiet or signalling, give the NaN of the language,
    /// which has no sign and no payload. NaNs with a sign or a payload are tested by
    /// bindings/c/compared.c.
    fn of_bits(bits: u64) -> Self;
}

impl ByBits for f64 {
    const SIGN: u64 = 0x8000_0000_0000_0000;

    const INFINITY: u64 = 0x7FF0_0000_0000_0000;

    const BITS: &'static [u64] = &[
        // 0.0, the least subnormal, the greatest one, and the least normal number
        0,
        1,
        0x000F_FFFF_FFFF_FFFF,
        0x0010_0000_0000_0000,
        // 1.0, the next one, and one whose low half is that of 1.0
        0x3FF0_0000_0000_0000,
        0x3FF0_0000_0000_0001,
        0x3FF0_0001_0000_0000,
        // the greatest number, and infinity
        0x7FEF_FFFF_FFFF_FFFF,
        0x7FF0_0000_0000_0000,
        // NaNs: signalling, quiet, and of all digits
        0x7FF0_0000_0000_0001,
        0x7FF8_0000_0000_0000,
        0x7FFF_FFFF_FFFF_FFFF,
        // the same below 0
        0x8000_0000_0000_0000,
        0x8000_0000_0000_0001,
        0x800F_FFFF_FFFF_FFFF,
        0x8010_0000_0000_0000,
        0xBFF0_0000_0000_0000,
        0xBFF0_0000_0000_0001,
        0xBFF0_0001_0000_0000,
        0xFFEF_FFFF_FFFF_FFFF,
        0xFFF0_0000_0000_0000,
        0xFFF8_0000_0000_0000,
    ];

    fn of_bits(bits: u64) -> f64 {
        f64_from_bits_with_nan(bits)
    }
}

impl ByBits for f32 {
    const SIGN: u64 = 0x8000_0000;

    const INFINITY: u64 = 0x7F80_0000;

    const BITS: &'static [u64] = &[
        // 0.0, the least subnormal, the greatest one, and the least normal number
        0,
        1,
        0x007F_FFFF,
        0x0080_0000,
        // 1.0, the next one, and one whose low half is that of 1.0
        0x3F80_0000,
        0x3F80_0001,
        0x3F81_0000,
        // the greatest number, and infinity
        0x7F7F_FFFF,
        0x7F80_0000,
        // NaNs: signalling, quiet, and of all digits
        0x7F80_0001,
        0x7FC0_0000,
        0x7FFF_FFFF,
        // the same below 0
        0x8000_0000,
        0x8000_0001,
        0x807F_FFFF,
        0x8080_0000,
        0xBF80_0000,
        0xBF80_0001,
        0xBF81_0000,
        0xFF7F_FFFF,
        0xFF80_0000,
        0xFFC0_0000,
    ];

    fn of_bits(bits: u64) -> f32 {
        f32_from_bits_with_nan(u32::try_from(bits).unwrap_or(0))
    }
}

/// The bits of float `kind` of [`ByBits::BITS`]. After the last one, the numbers begin again with
/// the first.
pub(crate) fn bits_of<T: ByBits>(kind: usize) -> u64 {
    let kinds = T::BITS.len().max(1);
    T::BITS.get(kind % kinds).copied().unwrap_or(0)
}

/// The rank of a float among all numbers: 0 for both zeros, negative if the sign is set. None for a
/// NaN.
pub(crate) type Rank = Option<i128>;

/// The rank of the float with these bits.
pub(crate) fn rank<T: ByBits>(bits: u64) -> Rank {
    let (is_negative, size) = match bits.checked_sub(T::SIGN) {
        Some(size) => (true, size),
        None => (false, bits),
    };
    if size > T::INFINITY {
        return None;
    }
    let size = i128::from(size);
    Some(if is_negative { -size } else { size })
}

/// Floats and others, by their ranks, and how they are compared.
#[derive(Drop)]
pub(crate) struct Ranks<'a> {
    pub(crate) left: &'a [Rank],
    pub(crate) op: Comparison,
    pub(crate) right: &'a [Rank],
}

impl Pairs for Ranks<'_> {
    fn answer(&self, k: usize) -> Option<bool> {
        Some(answer(*self.left.get(k)?, self.op, *self.right.get(k)?))
    }
}

/// The result by IEEE 754 for two floats of these ranks. With a NaN only `NotEqual` holds.
fn answer(left: Rank, op: Comparison, right: Rank) -> bool {
    let (Some(left), Some(right)) = (left, right) else {
        return op == Comparison::NotEqual;
    };
    match op {
        Comparison::Equal => left == right,
        Comparison::NotEqual => left != right,
        Comparison::Less => left < right,
        Comparison::LessOrEqual => left <= right,
        Comparison::Greater => left > right,
        Comparison::GreaterOrEqual => left >= right,
    }
}
