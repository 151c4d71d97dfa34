//! Bits of a view as a word.
ghost use Rattle.std.specs.Prelude.{◌≡◌, ◌+◌, ◌^◌, ◌<◌, ◌≤◌, length, slice_range};
ghost use Rattle.vb_bits.specs.Digits.{digits};
ghost use Rattle.vb_view.specs.View.{bits_of};

use crate::view::BitBufferView;
use vb_bits::read_word;

/// Returns the `n` bits from index `start` on, at most 64, as the low bits of a word; its higher
/// bits are 0. `start + n` must be at most the length.
///
/// Reading 64 bits takes at most two loads.
#[inline(always)]
#[tactic(auto, using(vb_bits::proofs::WindowLemmas::windows))]
pub fn view_word(view: BitBufferView<'_>, start: usize, n: usize) -> u64
    requires few { n ≤ 64 }
    requires inside { start + n ≤ length (bits_of view) }
    ensures digits { digits result 0 n ≡ slice_range (bits_of view.entry) start (start + n) }
    ensures clear { result < 2 ^ n }
{
    read_word(view.inner(), view.offset() + start, n)
}
