//! The bits of a word that a mask selects, by vectors: packs sixteen fields of four bits at once,
//! and then joins two neighbours at a time.
ghost use Rattle.std.specs.Int.Bits.{bit_and};
ghost use Rattle.std.specs.Prelude.{◌≡◌, ℕ, ◌+◌, ◌-◌, ◌*◌, ◌/◌, ◌%◌, ◌^◌, ◌<◌, length};
ghost use Rattle.std.specs.Prelude.{slice_index};
ghost use Rattle.vb_bits.specs.Bits.{count};
ghost use Rattle.vb_bits.specs.Digits.{digits};
ghost use Rattle.vb_bits.specs.Kept.{kept_by};
ghost use Rattle.vb_filter.specs.Fields.{ArePacked, ArePairs, kept_number};

use std::simd::prelude::*;

/// For each mask of four bits, the bits that move down by one: the mask has one or three zeros
/// below them.
const BY_ONE: [u8; 16] = [0, 0, 2, 0, 0, 4, 6, 0, 8, 0, 2, 8, 0, 12, 14, 0];

/// For each mask of four bits, the bits that then move down by two: before the first move the mask
/// has two or three zeros below them.
const BY_TWO: [u8; 16] = [0, 0, 0, 0, 4, 0, 0, 0, 4, 8, 8, 0, 12, 0, 0, 0];

/// For each mask of four digits, 2 to the number of its ones.
const POWERS: [u8; 16] = [1, 2, 2, 4, 2, 4, 4, 8, 2, 4, 4, 8, 4, 8, 8, 16];

/// Returns the bits of `word` where `mask` has a 1, packed to the lowest bits; the higher bits are
/// 0.
///
/// Within a field bits move down by one and then by two, as in the compress of Hacker's Delight. To
/// join a field to the one below it, multiplies the upper field by 2 to the number of bits that the
/// mask selects in the lower one. It has no branch on the mask, and each table is a vector of 16
/// entries.
#[inline(always)]
pub(crate) fn pack_fields(word: u64, mask: u64) -> u64
    ensures kept { digits result 0 (count (digits mask 0 64))
        ≡ kept_by (digits mask 0 64) (digits word 0 64) }
    ensures clear { result < 2 ^ count (digits mask 0 64) }
{
    let (kept, powers) = pack_fours(word, mask);
    let (kept, powers) = join_fours(kept, powers);
    let (kept, powers) = join_eights(kept, powers);
    let [low, high] = join_sixteens(kept, powers).to_array();
    low | high << (mask & 0xffff_ffff).count_ones()
}

/// Returns for each four bits of the word the bits that the mask selects, packed, and 2 to the
/// number of these.
#[inline(always)]
fn pack_fours(word: u64, mask: u64) -> (u8x16, u8x16)
    ensures { ArePacked mask word 4 16 result.0 result.1 }
{
    let masks = fours(mask);
    (pack_each(fours(word), masks), look_up(POWERS, masks))
}

/// Returns each four bits of a word, the lowest first.
#[inline(always)]
fn fours(word: u64) -> u8x16
    ensures len { length result ≡ 16 }
    ensures each { (i : ℕ) → i < 16 → slice_index result i ≡ word / 2 ^ (4 * i) % 2 ^ 4 }
{
    let bytes = bytes_of(word);
    ((bytes | bytes << u16x8::splat(4)) & u16x8::splat(0x0f0f)).to_le_bytes()
}

/// Returns each byte of a word, the lowest first.
#[inline(always)]
fn bytes_of(word: u64) -> u16x8
    ensures len { length result ≡ 8 }
    ensures each { (i : ℕ) → i < 8 → slice_index result i ≡ word / 2 ^ (8 * i) % 2 ^ 8 }
{
    Simd::<u64, 1>::splat(word).to_le_bytes().cast::<u16>()
}

/// Returns for each lane the entry of the table for its mask.
#[inline(always)]
fn look_up(table: [u8; 16], masks: u8x16) -> u8x16
    requires len { length masks ≡ 16 }
    requires few { (i : ℕ) → i < 16 → slice_index masks i < 16 }
    ensures len { length result ≡ 16 }
    ensures each { (i : ℕ) → i < 16
        → slice_index result i ≡ slice_index table (slice_index masks i) }
{
    u8x16::from_array(table).swizzle_dyn(masks)
}

/// Returns for each lane the bits of four that its mask selects, packed to the lowest bits.
#[inline(always)]
fn pack_each(words: u8x16, masks: u8x16) -> u8x16
    requires lens { (length words ≡ 16) × (length masks ≡ 16) }
    requires words { (i : ℕ) → i < 16 → slice_index words i < 16 }
    requires masks { (i : ℕ) → i < 16 → slice_index masks i < 16 }
    ensures len { length result ≡ 16 }
    ensures each { (i : ℕ) → i < 16 → slice_index result i
        ≡ kept_number (slice_index masks i) (slice_index words i) 0 4 }
{
    let near = move_down(words & masks, look_up(BY_ONE, masks), 1);
    move_down(near, look_up(BY_TWO, masks), 2)
}

/// Returns for each lane the word with the bits that are set in `which` moved down by `places`.
#[inline(always)]
fn move_down(words: u8x16, which: u8x16, places: u8) -> u8x16
    requires lens { (length words ≡ 16) × (length which ≡ 16) }
    requires inside { places < 8 }
    ensures len { length result ≡ 16 }
    ensures each { (i : ℕ) → i < 16 → slice_index result i ≡ slice_index words i
        - bit_and (slice_index words i) (slice_index which i)
        + bit_and (slice_index words i) (slice_index which i) / 2 ^ places }
{
    let moved = words & which;
    (words - moved) + (moved >> u8x16::splat(places))
}

/// Joins neighbours of four bits to parts of eight.
#[inline(always)]
fn join_fours(kept: u8x16, powers: u8x16) -> (u16x8, u16x8)
    ensures { (mask word : ℕ) → ArePacked mask word 4 16 kept powers
        → ArePacked mask word 8 8 result.0 result.1 }
{
    let (kept, above) = pair_fours(kept);
    let (power, power_above) = pair_fours(powers);
    (kept + above * power, power * power_above)
}

/// Joins neighbours of eight bits to parts of 16.
#[inline(always)]
fn join_eights(kept: u16x8, powers: u16x8) -> (u32x4, u32x4)
    ensures { (mask word : ℕ) → ArePacked mask word 8 8 kept powers
        → ArePacked mask word 16 4 result.0 result.1 }
{
    let (kept, above) = pair_eights(kept);
    let (power, power_above) = pair_eights(powers);
    (kept + above * power, power * power_above)
}

/// Joins neighbours of 16 bits to parts of 32.
#[inline(always)]
fn join_sixteens(kept: u32x4, powers: u32x4) -> u64x2
    ensures { (mask word i : ℕ) → ArePacked mask word 16 4 kept powers → i < 2
        → slice_index result i ≡ kept_number mask word (32 * i) 32 }
{
    let (kept, above) = pair_sixteens(kept);
    kept + above * pair_sixteens(powers).0
}

/// Returns the even-numbered lanes, and the odd-numbered ones, as lanes twice as wide.
#[inline(always)]
fn pair_fours(lanes: u8x16) -> (u16x8, u16x8)
    ensures { ArePairs lanes 8 result.0 result.1 }
{
    let pairs = u16x8::from_le_bytes(lanes);
    (pairs & u16x8::splat(0xff), pairs >> u16x8::splat(8))
}

/// Returns the even-numbered lanes, and the odd-numbered ones, as lanes twice as wide.
#[inline(always)]
fn pair_eights(lanes: u16x8) -> (u32x4, u32x4)
    ensures { ArePairs lanes 4 result.0 result.1 }
{
    let pairs = u32x4::from_le_bytes(lanes.to_le_bytes());
    (pairs & u32x4::splat(0xffff), pairs >> u32x4::splat(16))
}

/// Returns the even-numbered lanes, and the odd-numbered ones, as lanes twice as wide.
#[inline(always)]
fn pair_sixteens(lanes: u32x4) -> (u64x2, u64x2)
    ensures { ArePairs lanes 2 result.0 result.1 }
{
    let pairs = u64x2::from_le_bytes(lanes.to_le_bytes());
    (pairs & u64x2::splat(0xffff_ffff), pairs >> u64x2::splat(32))
}
