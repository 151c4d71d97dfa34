//! The lowest ones of a word.
ghost use Rattle.std.specs.Prelude.{◌≡◌, ℕ, ◌+◌, ◌^◌, ◌<◌, false};
ghost use Rattle.vb_bits.specs.Digits.{has_bit};
ghost use Rattle.vb_walk.specs.Ones.{CutsOnes};

use crate::run::LowestRun;

/// Returns the lowest run of ones of a word. The caller must prove that the word isn't 0.
#[inline(always)]
pub fn lowest_run(word: u64) -> LowestRun
    requires { 0 < word }
    ensures some { result.start < result.end }
    ensures below { (i : ℕ) → i < result.start → has_bit word i ≡ false }
    ensures cut { CutsOnes word result.start result.end result.rest }
{
    let filled = word | (word - 1);
    LowestRun {
        start: word.trailing_zeros() as usize,
        end: filled.trailing_ones() as usize,
        rest: word & filled.wrapping_add(1),
    }
}

/// Returns the number of ones below the lowest 0 of a word, and the word without them.
#[inline(always)]
pub(crate) fn lowest_ones(word: u64) -> (usize, u64)
    requires { word + 1 < 2 ^ 64 }
    ensures few { result.0 < 64 }
    ensures cut { CutsOnes word 0 result.0 result.1 }
{
    (word.trailing_ones() as usize, word & (word + 1))
}
