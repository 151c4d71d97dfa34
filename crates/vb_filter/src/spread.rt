//! The bits of a word, deposited at the ones of a mask.
ghost use Rattle.std.specs.Prelude.{◌≡◌};
ghost use Rattle.vb_bits.specs.Digits.{digits};
ghost use Rattle.vb_filter.specs.Spread.{spread_by};

use crate::spread_table::SPREAD;
use vb_bits::low_digits;
use vb_walk::lowest_run;

/// Returns a word with the lowest bits of `word`, in order, at the ones of `mask`, and 0 elsewhere.
/// It uses one bit of `word` for each one of the mask.
///
/// Visits the ones of the mask if they are few, its runs of ones if these are long, else six bits
/// at a time. From x86-64-v3 on the processor has an instruction for it (`pdep`), but Rattle
/// doesn't offer it.
#[inline(always)]
pub(crate) fn spread_digits(word: u64, mask: u64) -> u64
    ensures { digits result 0 64 ≡ spread_by (digits mask 0 64) (digits word 0 64) }
{
    let ones = mask.count_ones();
    if ones <= SPREAD_ONES {
        spread_ones(word, mask)
    } else if LONG_RUN * (mask & !(mask << 1)).count_ones() < ones {
        spread_runs(word, mask)
    } else {
        spread_sixes(word, mask)
    }
}

/// The most ones that are faster one by one than eleven reads of a table.
const SPREAD_ONES: u32 = 8;

/// Runs longer than this are faster than eleven reads of a table.
const LONG_RUN: u32 = 12;

/// Does [`spread_digits`] by the ones of the mask.
#[inline(always)]
fn spread_ones(word: u64, mask: u64) -> u64
    ensures { digits result 0 64 ≡ spread_by (digits mask 0 64) (digits word 0 64) }
{
    let mut spread = 0;
    let mut source = word;
    let mut left = mask;
    while left != 0 {
        spread |= (source & 1) << left.trailing_zeros();
        source >>= 1;
        left &= left - 1;
    }
    spread
}

/// Does [`spread_digits`] by the runs of ones of the mask.
#[inline(always)]
fn spread_runs(word: u64, mask: u64) -> u64
    ensures { digits result 0 64 ≡ spread_by (digits mask 0 64) (digits word 0 64) }
{
    let mut spread = 0;
    let mut source = word;
    let mut left = mask;
    while left != 0 {
        let run = lowest_run(left);
        let len = run.end - run.start;
        spread |= low_digits(source, len) << run.start;
        // Two shifts, since their sum may be 64.
        source = (source >> 1) >> (len - 1);
        left = run.rest;
    }
    spread
}

/// Does [`spread_digits`] by six bits of the mask at a time, with a table. The last six reach two
/// bits beyond the word.
#[inline(always)]
fn spread_sixes(word: u64, mask: u64) -> u64
    ensures { digits result 0 64 ≡ spread_by (digits mask 0 64) (digits word 0 64) }
{
    let mut spread = 0;
    let mut source = word;
    for k in 0..11u32 {
        let six = (mask >> (6 * k)) & 63;
        let row = 64 * six + (source & 63);
        spread |= u64::from(SPREAD[row as usize]) << (6 * k);
        source >>= six.count_ones();
    }
    spread
}
