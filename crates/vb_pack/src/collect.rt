//! Packs the results of a closure into one word.
ghost use Rattle.std.specs.Prelude.{◌+◌, ◌^◌, ◌<◌, ◌≤◌};
ghost use Rattle.vb_pack.specs.Asked.{Answers, CanAsk, span};
ghost use Rattle.vb_pack.specs.Digits.{digits};

use crate::pack::{Multiply, Pack};

/// Calls `f` with each number below `len`, in ascending order, and returns a word with the results,
/// which it packs bit by bit: result `i` is bit `i`, and the bits from `len` on are 0. The caller
/// must prove that `len` is at most 64 and that `f` can be called with these numbers.
pub fn collect_bool_word_scalar<F: FnMut(usize) -> bool>(len: usize, f: &mut F) -> u64
    requires in_word { len ≤ 64 }
    requires callable { CanAsk (F.pre) (F.step) f.old (span 0 len) }
    ensures answered { Answers (F.step) f.old (span 0 len) (digits result 0 len) f.new }
    ensures clear { result < 2 ^ len }
{
    collect_part(0, len, f)
}

/// Calls `f` with each number below `len`, in ascending order, and returns a word with the results:
/// result `i` is bit `i`, and the bits from `len` on are 0. The caller must prove that `len` is at
/// most 64 and that `f` can be called with these numbers.
///
/// It packs exactly 64 results by multiplication, and fewer bit by bit.
pub fn collect_bool_word<F: FnMut(usize) -> bool>(len: usize, f: &mut F) -> u64
    requires in_word { len ≤ 64 }
    requires callable { CanAsk (F.pre) (F.step) f.old (span 0 len) }
    ensures answered { Answers (F.step) f.old (span 0 len) (digits result 0 len) f.new }
    ensures clear { result < 2 ^ len }
{
    if len == 64 {
        collect_full::<Multiply, F>(0, f)
    } else {
        collect_part(0, len, f)
    }
}

/// Returns a word with the results of `f` for the `len` numbers from `base` on, at most 64.
#[inline(always)]
pub(crate) fn collect_part<F: FnMut(usize) -> bool>(base: usize, len: usize, f: &mut F) -> u64
    requires in_word { len ≤ 64 }
    requires fits { base + len < 2 ^ 64 }
    requires callable { CanAsk (F.pre) (F.step) f.old (span base len) }
    ensures answered { Answers (F.step) f.old (span base len) (digits result 0 len) f.new }
    ensures clear { result < 2 ^ len }
{
    let mut packed = 0u64;
    for i in 0..len {
        packed |= u64::from(f(base + i)) << i;
    }
    packed
}

/// Returns a word with the results of `f` for the 64 numbers from `base` on, packed by `P`.
#[inline(always)]
pub(crate) fn collect_full<P: Pack, F: FnMut(usize) -> bool>(base: usize, f: &mut F) -> u64
    requires fits { base + 64 < 2 ^ 64 }
    requires callable { CanAsk (F.pre) (F.step) f.old (span base 64) }
    ensures { Answers (F.step) f.old (span base 64) (digits result 0 64) f.new }
{
    let mut bools = [false; 64];
    for i in 0..64 {
        bools[i] = f(base + i);
    }
    P::pack(&bools)
}
