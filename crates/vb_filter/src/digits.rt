//! The bits of a word that a mask selects.
ghost use Rattle.std.specs.Int.{trailing_zeros, w64};
ghost use Rattle.std.specs.Int.Bits.{bit_and};
ghost use Rattle.std.specs.Prelude.{◌≡◌, ◌-◌, ◌^◌, ◌<◌, ◌≤◌, false};
ghost use Rattle.vb_bits.specs.Bits.{count};
ghost use Rattle.vb_bits.specs.Digits.{digits, has_bit};
ghost use Rattle.vb_bits.specs.Kept.{kept_by};

use crate::fields::pack_fields;
use vb_bits::{digit, low_digits};
use vb_walk::lowest_run;

/// Returns the bits of `word` where `mask` has a 1, packed to the lowest bits; the higher bits are
/// 0.
///
/// Visits the ones of the mask if they are few, its runs of ones if these are long, else fields of
/// four bits. From x86-64-v3 on the processor has an instruction for it (`pext`), but Rattle
/// doesn't offer it.
#[inline(always)]
pub(crate) fn pack_digits(word: u64, mask: u64) -> u64
    ensures kept { digits result 0 (count (digits mask 0 64))
        ≡ kept_by (digits mask 0 64) (digits word 0 64) }
    ensures clear { result < 2 ^ count (digits mask 0 64) }
{
    let ones = mask.count_ones();
    if ones <= LOOP_ONES {
        pack_ones(word, mask)
    } else if ones <= STEP_ONES {
        pack_steps(word, mask, STEP_ONES)
    } else if LONG_RUN * (mask & !(mask << 1)).count_ones() < ones {
        pack_runs(word, mask)
    } else {
        pack_fields(word, mask)
    }
}

/// The most ones for which a loop over them is not slower than eight steps.
const LOOP_ONES: u32 = 4;

/// The most ones for which a step for each is faster than fields.
const STEP_ONES: u32 = 8;

/// Runs longer than this are faster than fields.
const LONG_RUN: u32 = 12;

/// Does [`pack_digits`] by the runs of ones of the mask.
#[inline(always)]
fn pack_runs(word: u64, mask: u64) -> u64
    ensures kept { digits result 0 (count (digits mask 0 64))
        ≡ kept_by (digits mask 0 64) (digits word 0 64) }
    ensures clear { result < 2 ^ count (digits mask 0 64) }
{
    let mut packed = 0u64;
    let mut n = 0usize;
    let mut left = mask;
    while left != 0 {
        let run = lowest_run(left);
        let len = run.end - run.start;
        packed |= low_digits(word >> run.start, len) << n;
        n += len;
        left = run.rest;
    }
    packed
}

/// Does [`pack_digits`] by the ones of the mask.
#[inline(always)]
fn pack_ones(word: u64, mask: u64) -> u64
    ensures kept { digits result 0 (count (digits mask 0 64))
        ≡ kept_by (digits mask 0 64) (digits word 0 64) }
    ensures clear { result < 2 ^ count (digits mask 0 64) }
{
    let mut packed = 0u64;
    let mut n = 0u32;
    let mut left = mask;
    while left != 0 {
        let place = left.trailing_zeros() as usize;
        packed |= u64::from(digit(word, place)) << n;
        n += 1;
        left &= left - 1;
    }
    packed
}

/// Does [`pack_digits`] in `steps` steps; each takes a one of the mask, if any is left.
///
/// It has no branch on the mask: if the number of ones changes from word to word, no processor can
/// predict the end of a loop over them.
#[inline(always)]
fn pack_steps(word: u64, mask: u64, steps: u32) -> u64
    requires enough { count (digits mask 0 64) ≤ steps }
    requires few { steps ≤ 64 }
    ensures kept { digits result 0 (count (digits mask 0 64))
        ≡ kept_by (digits mask 0 64) (digits word 0 64) }
    ensures clear { result < 2 ^ count (digits mask 0 64) }
{
    let mut packed = 0u64;
    let mut left = mask;
    for n in 0..steps {
        let (bit, rest) = lowest_kept(word, left);
        packed |= u64::from(bit) << n;
        left = rest;
    }
    packed
}

/// Returns the bit of `word` at the lowest one of `left`, and `left` without that one; false and 0
/// if `left` is 0.
#[inline(always)]
fn lowest_kept(word: u64, left: u64) -> (bool, u64)
    ensures some { 0 < left → (result.0 ≡ has_bit word (trailing_zeros w64 left))
        × (result.1 ≡ bit_and left (left - 1)) }
    ensures none { left ≡ 0 → (result.0 ≡ false) × (result.1 ≡ 0) }
{
    let rest = left & left.wrapping_sub(1);
    (word & (left ^ rest) != 0, rest)
}
