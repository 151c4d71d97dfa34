//! Runs of equal bits.
ghost use Rattle.std.specs.Prelude.{ℕ, ◌+◌, ◌-◌, ◌*◌, ◌%◌, ◌≤◌, length, replicate};
ghost use Rattle.vb_bits.specs.Writes.{Writes};

use crate::bytes::byte_mask;

/// Sets the bits `start..end` to `v`. No other bit changes, and none changes if `start >= end`. The
/// caller must prove that `end` is at most the number of bits in `bytes`.
///
/// It sets the bits of a partial first and last byte by a mask, and the whole bytes between by one
/// fill.
pub fn fill_bits(bytes: &mut [u8], start: usize, end: usize, v: bool)
    requires { end ≤ 8 * length bytes.old }
    ensures { Writes bytes.old bytes.new start (replicate (end - start) v) }
{
    if start >= end {
        return;
    }
    let first = start.div_ceil(8);
    let last = end / 8;
    if last < first {
        fill_in_byte(bytes, start, end, v);
        return;
    }
    fill_in_byte(bytes, start, 8 * first, v);
    fill_bytes(bytes, first, last, v);
    fill_in_byte(bytes, 8 * last, end, v);
}

/// [`fill_bits`] of bits within one byte.
fn fill_in_byte(bytes: &mut [u8], start: usize, end: usize, v: bool)
    requires ordered { start ≤ end }
    requires in_byte { start % 8 + (end - start) ≤ 8 }
    requires inside { end ≤ 8 * length bytes.old }
    ensures { Writes bytes.old bytes.new start (replicate (end - start) v) }
{
    if start == end {
        return;
    }
    let from = start % 8;
    let mask = byte_mask(from, from + (end - start));
    if v {
        bytes[start / 8] |= mask;
    } else {
        bytes[start / 8] &= !mask;
    }
}

/// [`fill_bits`] of the bytes `first..last`.
fn fill_bytes(bytes: &mut [u8], first: usize, last: usize, v: bool)
    requires ordered { first ≤ last }
    requires inside { last ≤ length bytes.old }
    ensures { Writes bytes.old bytes.new (8 * first) (replicate (8 * last - 8 * first) v) }
{
    bytes[first..last].fill(if v { u8::MAX } else { 0 });
}
