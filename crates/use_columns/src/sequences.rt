//! Buffers from iterator adapters of known length.
ghost use Rattle.std.specs.Prelude.{◌≡◌, ◌/◌, length, map, drop};
ghost use Rattle.vortex_buffer.specs.Makes.{Makes};
ghost use Rattle.use_columns.specs.Sequences.{greater_of};

use std::alloc::Allocator;
use vortex_buffer::{Buffer, Result, trusted_len};

/// Returns half of each value. Returns `OutOfMemory` if memory runs out.
pub fn halved<A: Allocator + Clone>(alloc: A, values: &[u32]) -> Result<Buffer<u32, A>>
    ensures { Makes (λ b. b.list ≡ map (λ value. value / 2) values.now) result }
{
    let halves = trusted_len(values.iter().map(|value| value / 2), values.len());
    Buffer::from_trusted_len_iter(alloc, halves)
}

/// Returns half of each value after the first `n`; there may be none. Returns `OutOfMemory` if
/// memory runs out.
pub fn rest_halved<A: Allocator + Clone>(
    alloc: A,
    values: &[u32],
    n: usize,
) -> Result<Buffer<u32, A>>
    ensures { Makes (λ b. b.list ≡ map (λ value. value / 2) (drop n values.now)) result }
{
    let left = values.len().saturating_sub(n);
    let halves = trusted_len(values.iter().skip(n).map(|value| value / 2), left);
    Buffer::from_trusted_len_iter(alloc, halves)
}

/// Returns the greater of the two values at each index of two columns of the same length. Returns
/// `OutOfMemory` if memory runs out.
pub fn greater<A: Allocator + Clone>(
    alloc: A,
    left: &[u32],
    right: &[u32],
) -> Result<Buffer<u32, A>>
    requires { length left.now ≡ length right.now }
    ensures { Makes (λ b. b.list ≡ greater_of left.now right.now) result }
{
    let pairs = left
        .iter()
        .zip(right)
        .map(|(one, other)| (*one).max(*other));
    Buffer::from_trusted_len_iter(alloc, trusted_len(pairs, left.len()))
}
