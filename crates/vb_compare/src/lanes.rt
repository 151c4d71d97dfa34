//! Whole numbers, compared one by one or 64 at a time.
ghost use Rattle.std.specs.Prelude.{◌≡◌, ℤ, ◌<◌, ◌≤◌, List, length, map, replicate, take};
ghost use Rattle.std.specs.Prelude.{All, int_lt};
ghost use Rattle.std.specs.Ordering.{int_eq};
ghost use Rattle.std.specs.Simd.Lanes.{zip2};
ghost use Rattle.vb_compare.specs.Digits.{digits};

mod signed;
mod unsigned;
mod wide;

use vb_core::{BitIndex, Element};

/// A whole number whose values can be compared 64 at a time, or one by one. The twelve whole-number
/// types implement it.
pub trait CompareLanes: BitIndex + Element {
    /// 64 values: a vector, or an array if the processor has no vectors of the type.
    type Block: Copy;

    // The values of a block as numbers, in order.
    ghost numbers: { Self.Block → List ℤ };

    // The property of blocks that `load` and `splat` return.
    ghost is_block: { Self.Block → Type 0 };

    /// Returns the first 64 values. There must be at least 64.
    fn load(values: &[Self]) -> Self::Block
        requires { 64 ≤ length values.now }
        ensures numbers { numbers result ≡ map Self.number (take 64 values.now) }
        ensures block { is_block result };

    /// Returns a block of 64 copies of `value`.
    fn splat(value: Self) -> Self::Block
        ensures numbers { numbers result ≡ replicate 64 (Self.number value) }
        ensures block { is_block result };

    /// Returns a word whose bit `k` says whether value `k` is the same in both blocks.
    fn equal(left: Self::Block, right: Self::Block) -> u64
        requires left { is_block left }
        requires right { is_block right }
        ensures { digits result 0 64 ≡ zip2 int_eq (numbers left) (numbers right) };

    /// Returns a word whose bit `k` says whether value `k` of the left block is less than value `k`
    /// of the right one.
    fn less(left: Self::Block, right: Self::Block) -> u64
        requires left { is_block left }
        requires right { is_block right }
        ensures { digits result 0 64 ≡ zip2 int_lt (numbers left) (numbers right) };

    /// Returns whether this value equals `other`.
    fn is_equal(self, other: Self) -> bool
        ensures { result ≡ int_eq (Self.number self) (Self.number other) };

    /// Returns whether this value is less than `other`.
    fn is_less(self, other: Self) -> bool
        ensures { result ≡ int_lt (Self.number self) (Self.number other) };
}

/// Returns the first 64 values. There must be at least 64.
pub(crate) fn first_values<T: Element>(values: &[T]) -> [T; 64]
    requires { 64 ≤ length values.now }
    ensures values { result ≡ take 64 values.now }
    ensures in_type { All T.is_in_type result }
{
    let mut block = [T::zero(); 64];
    for k in 0..64 {
        let value = values[k];
        value.is_value();
        block[k] = value;
    }
    block
}
