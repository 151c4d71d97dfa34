//! Bits taken at indices.
ghost use Rattle.std.specs.Prelude.{◌≡◌, ℕ, ◌+◌, ◌^◌, ◌<◌, ◌≤◌, ◌*◌, Some, false, length, map};
ghost use Rattle.std.specs.Prelude.{IfOk, IfErr, if◌then◌else◌};
ghost use Rattle.std.specs.Option.{ForSome, option_map};
ghost use Rattle.vb_bits.specs.Bits.{at, bits as window};
ghost use Rattle.vb_bits.specs.InBytes.{InBytes};
ghost use Rattle.vb_bits.specs.Writes.{Writes};
ghost use Rattle.vb_view.specs.View.{bits_of};
ghost use Rattle.vb_take.specs.Takes.{value_at, taken_at, TakesPart, IsTaken, IsFirstPast};

use crate::block::{narrow_block, take_block};
use crate::valid::valid_word;
use vb_bits::{digit, write_digits};
use vb_core::BitIndex;
use vb_view::BitBufferView;

/// In a view shorter than this many bits each bit number fits in 32 bits, even if counted from the
/// byte of the first bit.
const NARROW: usize = u32::MAX as usize - 8;

/// Takes one bit of `bits` for each index: sets bit `k` of `out` to bit `indices[k]` of `bits`.
/// Returns `Err(k)` for the first position `k` that counts and whose index is negative or not below
/// the length of `bits`.
///
/// Without a `validity` each position counts. A `validity` must have one bit for each index; a
/// position counts if its bit is true. At the other positions false is written, and the index may
/// be any number.
///
/// `out` must have at least one bit for each index; its bits after these never change. On `Err` the
/// bits of the indices are unspecified.
///
/// Processes 64 indices at a time if `bits` is shorter than 2^32 - 9 bits, else one by one.
pub fn take_into<I: BitIndex>(
    out: &mut [u8],
    bits: BitBufferView<'_>,
    indices: &[I],
    validity: Option<BitBufferView<'_>>,
) -> Result<(), usize>
    requires room { length indices.now ≤ 8 * length out.old }
    requires validity { ForSome validity (λ v. length (bits_of v) ≡ length indices.now) }
    ensures taken { IfOk result (λ _. IsTaken (bits_of bits.entry) (map I.number indices.now)
        (option_map bits_of validity.entry) (window out.new 0 (length indices.now))) }
    ensures past { IfErr result (λ p. IsFirstPast (bits_of bits.entry) (map I.number indices.now)
        (option_map bits_of validity.entry) p) }
    ensures others { Writes out.old out.new 0 (window out.new 0 (length indices.now)) }
{
    take_into_at(out, 0, bits, indices, validity)
}

/// Does what [`take_into`] does, but writes to `out` from bit `o` on: bit `o + k` is the one at
/// `indices[k]`. These bits, one for each index, must be in bounds, and `o + indices.len()` must
/// fit in a `usize`. Every other bit of `out` keeps its value.
#[inline(always)]
pub fn take_into_at<I: BitIndex>(
    out: &mut [u8],
    o: usize,
    bits: BitBufferView<'_>,
    indices: &[I],
    validity: Option<BitBufferView<'_>>,
) -> Result<(), usize>
    requires room { InBytes out.old o (length indices.now) }
    requires validity { ForSome validity (λ v. length (bits_of v) ≡ length indices.now) }
    ensures taken { IfOk result (λ _. IsTaken (bits_of bits.entry) (map I.number indices.now)
        (option_map bits_of validity.entry) (window out.new o (length indices.now))) }
    ensures past { IfErr result (λ p. IsFirstPast (bits_of bits.entry) (map I.number indices.now)
        (option_map bits_of validity.entry) p) }
    ensures others { Writes out.old out.new o (window out.new o (length indices.now)) }
{
    // It is inlined, up to this test: a call would copy the arguments on the stack.
    let n = indices.len();
    if n >= 64 {
        return take_many(out, o, bits, indices, validity);
    }
    match take_few(bits, indices, validity, 0, n) {
        Ok(word) => write_digits(out, o, n, word),
        Err(k) => return Err(k),
    }
    Ok(())
}

/// Does [`take_into_at`] for at least 64 indices. Not inlined, so that a call with fewer doesn't
/// make room for blocks.
#[inline(never)]
fn take_many<I: BitIndex>(
    out: &mut [u8],
    o: usize,
    bits: BitBufferView<'_>,
    indices: &[I],
    validity: Option<BitBufferView<'_>>,
) -> Result<(), usize>
    requires room { InBytes out.old o (length indices.now) }
    requires validity { ForSome validity (λ v. length (bits_of v) ≡ length indices.now) }
    ensures taken { IfOk result (λ _. IsTaken (bits_of bits.entry) (map I.number indices.now)
        (option_map bits_of validity.entry) (window out.new o (length indices.now))) }
    ensures past { IfErr result (λ p. IsFirstPast (bits_of bits.entry) (map I.number indices.now)
        (option_map bits_of validity.entry) p) }
    ensures others { Writes out.old out.new o (window out.new o (length indices.now)) }
{
    for t in 0..indices.len().div_ceil(64) {
        let at = 64 * t;
        let count = (indices.len() - at).min(64);
        match take_part(bits, indices, validity, at, count) {
            Ok(word) => write_digits(out, o + at, count, word),
            Err(k) => return Err(at + k),
        }
    }
    Ok(())
}

/// Returns a word whose lowest bits are those that the `count` positions from `at` on take. Returns
/// `Err(k)` for the first `k` whose position `at + k` takes none.
#[inline(always)]
fn take_part<I: BitIndex>(
    bits: BitBufferView<'_>,
    indices: &[I],
    validity: Option<BitBufferView<'_>>,
    at: usize,
    count: usize,
) -> Result<u64, usize>
    requires few { count ≤ 64 }
    requires inside { at + count ≤ length indices.now }
    requires validity { ForSome validity (λ v. length (bits_of v) ≡ length indices.now) }
    ensures { TakesPart (λ k. taken_at (bits_of bits.entry) (map I.number indices.now)
        (option_map bits_of validity.entry) (at + k)) count result }
{
    if count == 64 && 0 < bits.len() && bits.len() < NARROW {
        let block = narrow_block(indices, at);
        take_block(bits, &block, valid_word(validity, at, 64))
    } else {
        take_few(bits, indices, validity, at, count)
    }
}

/// Does [`take_part`] one by one.
#[inline(always)]
fn take_few<I: BitIndex>(
    bits: BitBufferView<'_>,
    indices: &[I],
    validity: Option<BitBufferView<'_>>,
    at: usize,
    count: usize,
) -> Result<u64, usize>
    requires few { count ≤ 64 }
    requires inside { at + count ≤ length indices.now }
    requires validity { ForSome validity (λ v. length (bits_of v) ≡ length indices.now) }
    ensures { TakesPart (λ k. taken_at (bits_of bits.entry) (map I.number indices.now)
        (option_map bits_of validity.entry) (at + k)) count result }
{
    let valid = valid_word(validity, at, count);
    let mut word = 0;
    for k in 0..count {
        match taken_value(bits, indices[at + k], digit(valid, k)) {
            Some(value) => word |= u64::from(value) << k,
            None => return Err(k),
        }
    }
    Ok(word)
}

/// Returns the bit that a position takes: false if it isn't valid, else the bit at `index`. Returns
/// `None` if it is valid and the index is out of range.
#[inline(always)]
fn taken_value<I: BitIndex>(bits: BitBufferView<'_>, index: I, valid: bool) -> Option<bool>
    ensures { result
        ≡ (if valid then value_at (bits_of bits.entry) (I.number index) else Some false) }
{
    if valid {
        value_at(bits, index)
    } else {
        Some(false)
    }
}

/// Returns the bit at `index`; `None` if the index is out of range.
#[inline(always)]
fn value_at<I: BitIndex>(bits: BitBufferView<'_>, index: I) -> Option<bool>
    ensures { result ≡ value_at (bits_of bits.entry) (I.number index) }
{
    let place = index.place()?;
    if place < bits.len() {
        Some(bits.value(place))
    } else {
        None
    }
}
