//! Searches for the block, or the group of blocks, that has a bit.
ghost use Rattle.std.specs.Prelude.{◌≡◌, ℕ, ◌+◌, ◌-◌, ◌*◌, ◌^◌, ◌<◌, ◌≤◌, length, slice_index};
ghost use Rattle.vb_rank.specs.Tables.{count_before, BeginsBefore, Rises};
ghost use Rattle.vb_rank.specs.Tables.{binary_digits, ProbesExactly};

use crate::level::Level;

/// Returns the last block that has at most `n` bits that are `value` before it, and the number of
/// these bits. So it is the block of the `n`-th such bit, counted from 0, if there is one.
///
/// The counts are those of blocks, or of groups of blocks, of `width` bits each. `size` must be the
/// number of counts, and at least 1; each block must begin below bit 2^64. The result is right if
/// no count is greater than the number of bits before its block, and no block has more such bits
/// before it than a later one. With other counts it is any block of these, and a number of at most
/// `n`.
///
/// Makes one probe for each binary digit of `size - 1`. Each probe halves the counts that are left,
/// by conditional moves instead of branches, so the number of turns depends on `size` alone. It
/// never reads count 0, which is 0.
pub fn find_block<S, L: Level<S>>(
    source: &mut S,
    level: &L,
    size: usize,
    width: usize,
    n: usize,
    value: bool,
) -> (usize, usize)
    requires size { size ≡ length (L.seen level.now source.old).entries }
    requires some { 0 < size }
    requires fits { (j : ℕ) → j < size → width * j < 2 ^ 64 }
    ensures within { result.0 < size }
    ensures low { result.1 ≤ n }
    ensures block { Rises width value (L.seen level.now source.old).entries
        → BeginsBefore width value (L.seen level.now source.old).entries n result.0 result.1 }
    ensures same { L.held source.new ≡ L.held source.old }
    ensures probes { ProbesExactly
        (binary_digits (length (L.seen level.now source.old).entries - 1))
        (L.seen level.now source.old) (L.seen level.now source.new) }
{
    let mut low = 0;
    let mut before = 0;
    let mut left = size;
    while left > 1 {
        let half = left / 2;
        let here = bits_before(source, level, width, low + half, value);
        if here <= n {
            low += half;
            before = here;
        }
        left -= half;
    }
    (low, before)
}

/// Returns the number of bits that are `value` before block `j`, which must not be the first one.
/// Makes one probe.
pub(crate) fn bits_before<S, L: Level<S>>(
    source: &mut S,
    level: &L,
    width: usize,
    j: usize,
    value: bool,
) -> usize
    requires some { 0 < j }
    requires within { j < length (L.seen level.now source.old).entries }
    requires fits { width * j < 2 ^ 64 }
    ensures value { slice_index (L.seen level.now source.old).entries j ≤ width * j
        → result ≡ count_before width value (L.seen level.now source.old).entries j }
    ensures same { L.held source.new ≡ L.held source.old }
    ensures probe { ProbesExactly 1 (L.seen level.now source.old) (L.seen level.now source.new) }
{
    let ones = level.entry(source, j);
    if value {
        ones
    } else {
        (width * j).wrapping_sub(ones)
    }
}
