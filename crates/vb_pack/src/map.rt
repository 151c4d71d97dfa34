//! Packs the results of a closure over the bits of a window.
ghost use Rattle.std.specs.Prelude.{◌≡◌, ◌+◌, ◌*◌, ◌^◌, ◌<◌, ◌≤◌, length};
ghost use Rattle.vb_bits.specs.InBytes.{InBytes};
ghost use Rattle.vb_pack.specs.Asked.{Answers, CanAsk, span};
ghost use Rattle.vb_pack.specs.Bits.{at, bit_of, bits};
ghost use Rattle.vb_pack.specs.Digits.{digits};
ghost use Rattle.vb_pack.specs.WordBits.{filled_to};
ghost use Rattle.vb_pack.specs.Writes.{Writes};

use crate::bytes::write_front;
use crate::pack::pack_bool_word_lanes;
use vb_bits::{digit, full_word, read_bits};

/// Calls `f(i, b)` for each `i` below `len`, in ascending order, where `b` is bit `offset + i` of
/// `src`. Packs the results into the first bytes of `dst`, eight per byte, least significant bit
/// first. Clears the bits after them in the last byte that it writes; later bytes are unchanged.
///
/// The caller must prove that the window is in bounds of `src`, that `offset + len` fits in a
/// `usize`, that `dst` has at least `len` bits, and that `f` can be called with these arguments.
///
/// It packs full words of 64 results by vectors of bytes, and the rest bit by bit.
pub fn map_bool_bytes<F: FnMut(usize, bool) -> bool>(
    dst: &mut [u8],
    src: &[u8],
    offset: usize,
    len: usize,
    f: &mut F,
)
    requires room { len ≤ 8 * length dst.old }
    requires window { InBytes src.now offset len }
    requires callable { CanAsk (λ p i. F.pre p i (at (bits src.now offset len) i))
        (λ p i b q. F.step p i (at (bits src.now offset len) i) b q) f.old (span 0 len) }
    ensures answered { Answers (λ p i b q. F.step p i (at (bits src.now offset len) i) b q)
        f.old (span 0 len) (bits dst.new 0 len) f.new }
    ensures written { Writes dst.old dst.new 0 (filled_to 8 (bits dst.new 0 len)) }
{
    let full = len / 64;
    for k in 0..full {
        let word = map_full(src, offset, 64 * k, f);
        write_front(dst, 8 * k, 8, word);
    }
    let rest = len % 64;
    let last = map_part(src, offset, 64 * full, rest, f);
    write_front(dst, 8 * full, rest.div_ceil(8), last);
}

/// Returns a word with the results of `f(i, b)` for the 64 indices `i` from `base` on, where `b` is
/// bit `offset + i`.
#[inline(always)]
fn map_full<F: FnMut(usize, bool) -> bool>(src: &[u8], offset: usize, base: usize, f: &mut F) -> u64
    requires window { InBytes src.now (offset + base) 64 }
    requires callable { CanAsk (λ p i. F.pre p i (bit_of src.now (offset + i)))
        (λ p i b q. F.step p i (bit_of src.now (offset + i)) b q) f.old (span base 64) }
    ensures { Answers (λ p i b q. F.step p i (bit_of src.now (offset + i)) b q)
        f.old (span base 64) (digits result 0 64) f.new }
{
    let word = full_word(src, (offset + base) / 8, (offset + base) % 8);
    let mut bools = [false; 64];
    for i in 0..64 {
        bools[i] = f(base + i, digit(word, i));
    }
    pack_bool_word_lanes(&bools)
}

/// [`map_full`] for the `len` indices from `base` on, at most 64.
#[inline(always)]
fn map_part<F: FnMut(usize, bool) -> bool>(
    src: &[u8],
    offset: usize,
    base: usize,
    len: usize,
    f: &mut F,
) -> u64
    requires in_word { len ≤ 64 }
    requires window { InBytes src.now (offset + base) len }
    requires callable { CanAsk (λ p i. F.pre p i (bit_of src.now (offset + i)))
        (λ p i b q. F.step p i (bit_of src.now (offset + i)) b q) f.old (span base len) }
    ensures answered { Answers (λ p i b q. F.step p i (bit_of src.now (offset + i)) b q)
        f.old (span base len) (digits result 0 len) f.new }
    ensures clear { result < 2 ^ len }
{
    let word = read_bits(src, offset + base, len);
    let mut packed = 0u64;
    for i in 0..len {
        packed |= u64::from(f(base + i, digit(word, i))) << i;
    }
    packed
}
