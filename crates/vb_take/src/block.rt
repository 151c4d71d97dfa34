//! Blocks of 64 indices: as bit numbers of 32 bits, and the bits at them as a word.
ghost use Rattle.std.specs.Prelude.{◌≡◌, ◌==◌, ℕ, negsuc, ◌+◌, ◌*◌, ◌/◌, ◌%◌, ◌^◌, ◌<◌, ◌≤◌, not};
ghost use Rattle.std.specs.Prelude.{bit_and, min, nat_lt, length, map, slice_index, slice_index_or};
ghost use Rattle.vb_bits.specs.Bits.{bit_of};
ghost use Rattle.vb_bits.specs.Digits.{has_bit};
ghost use Rattle.vb_take.specs.Blocks.{narrow_place, TakesBlock};
ghost use Rattle.vb_view.specs.View.{bits_of};

use std::simd::prelude::*;
use vb_core::BitIndex;
use vb_view::BitBufferView;

/// Returns the 64 indices from position `at` on, each as [`narrow`] returns it.
#[inline(always)]
pub(crate) fn narrow_block<I: BitIndex>(indices: &[I], at: usize) -> [u32; 64]
    requires { at + 64 ≤ length indices.now }
    ensures { (k : ℕ) → k < 64 → slice_index result k
        ≡ narrow_place (slice_index_or (map I.number indices.now) (at + k) (negsuc 0)) }
{
    let mut block = [0; 64];
    for k in 0..64 {
        block[k] = narrow(indices[at + k]);
    }
    block
}

/// Returns the index as 32 bits; `u32::MAX` if it is negative or greater than that.
#[inline(always)]
fn narrow<I: BitIndex>(index: I) -> u32
    ensures { result ≡ narrow_place (I.number index) }
{
    match index.place() {
        Some(place) => place.min(u32::MAX as usize) as u32,
        None => u32::MAX,
    }
}

/// Returns a word whose bit `k` is the bit of `bits` at index `block[k]`, and 0 if bit `k` of
/// `valid` is 0. Returns `Err(k)` for the first `k` whose bit of `valid` is 1 and whose index isn't
/// below the length.
///
/// If no position counts, it reads nothing. If all indices are below the length, even at the
/// positions that don't count, one test shows it. Each index is lowered to the last bit before the
/// read, since one that doesn't count may be any number.
#[inline(always)]
pub(crate) fn take_block(
    bits: BitBufferView<'_>,
    block: &[u32; 64],
    valid: u64,
) -> Result<u64, usize>
    requires some { 0 < length (bits_of bits) }
    requires few { length (bits_of bits) + 8 < 2 ^ 32 }
    ensures { TakesBlock (bits_of bits.entry) block.now valid result }
{
    if valid == 0 {
        return Ok(0);
    }
    let len = bits.len() as u32;
    let past = valid & !within_word(block, len);
    if past != 0 {
        return Err(past.trailing_zeros() as usize);
    }
    let places = bit_places(block, len - 1, bits.offset() as u32);
    Ok(take_word(bits.inner(), &places) & valid)
}

/// Returns a word whose bit `k` says whether `block[k]` is below `len`. If all are, one test is
/// enough.
#[inline(always)]
fn within_word(block: &[u32; 64], len: u32) -> u64
    ensures { (k : ℕ) → k < 64 → has_bit result k ≡ nat_lt (slice_index block.now k) len }
{
    if greatest(block) < len {
        u64::MAX
    } else {
        lanes_below(*block, len)
    }
}

/// Returns the greatest number of the block. The contract says only that no number is above it.
#[inline(always)]
fn greatest(block: &[u32; 64]) -> u32
    ensures { (k : ℕ) → k < 64 → slice_index block.now k ≤ result }
{
    let mut top = 0;
    for k in 0..64 {
        top = top.max(block[k]);
    }
    top
}

/// Returns a word whose bit `k` says whether `block[k]` is below `len`.
#[inline(always)]
fn lanes_below(block: [u32; 64], len: u32) -> u64
    ensures { (k : ℕ) → k < 64 → has_bit result k ≡ nat_lt (slice_index block k) len }
{
    Simd::<u32, 64>::from_array(block)
        .simd_lt(Simd::<u32, 64>::splat(len))
        .to_bitmask()
}

/// Returns each index, lowered to `last` if it is above, plus `offset`: the number of its bit in
/// the bytes.
#[inline(always)]
fn bit_places(block: &[u32; 64], last: u32, offset: u32) -> [u32; 64]
    requires { last + offset < 2 ^ 32 }
    ensures { (k : ℕ) → k < 64 → slice_index result k
        ≡ min (slice_index block.now k) last + offset }
{
    let mut places = [0; 64];
    for k in 0..64 {
        places[k] = block[k].min(last) + offset;
    }
    places
}

/// Returns a word whose bit `k` is bit `places[k]` of the bytes.
///
/// It loads the 64 bytes one by one into a vector, and then tests the bit of each lane at once.
#[inline(always)]
fn take_word(bytes: &[u8], places: &[u32; 64]) -> u64
    requires { (k : ℕ) → k < 64 → slice_index places.now k < 8 * length bytes.now }
    ensures { (k : ℕ) → k < 64 → has_bit result k ≡ bit_of bytes.now (slice_index places.now k) }
{
    common_bits(bytes_at(bytes, places), masks_at(places))
}

/// Returns the bytes that have the bits.
#[inline(always)]
fn bytes_at(bytes: &[u8], places: &[u32; 64]) -> [u32; 64]
    requires { (k : ℕ) → k < 64 → slice_index places.now k < 8 * length bytes.now }
    ensures { (k : ℕ) → k < 64 → slice_index result k
        ≡ slice_index bytes.now (slice_index places.now k / 8) }
{
    let mut taken = [0; 64];
    for k in 0..64 {
        taken[k] = u32::from(bytes[(places[k] / 8) as usize]);
    }
    taken
}

/// Returns for each bit a mask with a 1 at the position of the bit in its byte.
#[inline(always)]
fn masks_at(places: &[u32; 64]) -> [u32; 64]
    ensures { (k : ℕ) → k < 64 → slice_index result k ≡ 2 ^ (slice_index places.now k % 8) }
{
    let mut masks = [0; 64];
    for k in 0..64 {
        masks[k] = 1 << (places[k] % 8);
    }
    masks
}

/// Returns a word whose bit `k` says whether `taken[k]` and `masks[k]` have a 1 in common.
#[inline(always)]
fn common_bits(taken: [u32; 64], masks: [u32; 64]) -> u64
    ensures { (k : ℕ) → k < 64 → has_bit result k
        ≡ not (bit_and (slice_index taken k) (slice_index masks k) == 0) }
{
    (Simd::<u32, 64>::from_array(taken) & Simd::<u32, 64>::from_array(masks))
        .simd_ne(Simd::<u32, 64>::splat(0))
        .to_bitmask()
}
