//! Values taken at indices.
ghost use Rattle.std.specs.Prelude.{◌≡◌, ℕ, ℤ, negsuc, ◌+◌, ◌<◌, ◌≤◌, true};
ghost use Rattle.std.specs.Prelude.{None, Some, IsSome, length, map, take, drop, slice_index_or};
ghost use Rattle.std.specs.Prelude.{IfOk, IfErr, IsTrue, if◌then◌else◌};
ghost use Rattle.std.specs.Option.{ForSome, option_map};
ghost use Rattle.vb_bits.specs.Digits.{has_bit};
ghost use Rattle.vb_take.specs.ItemsTaken.{item_named, item_or, item_taken};
ghost use Rattle.vb_take.specs.ItemsTaken.{AreTaken, IsFirstUntaken};
ghost use Rattle.vb_take.specs.Takes.{TakenTo};
ghost use Rattle.vb_take.specs.ValueBlocks.{PutsOnes, FailsAt, PutsZeros};
ghost use Rattle.vb_view.specs.View.{bits_of};

use crate::valid::{is_valid, valid_word};
use vb_bits::low_digits;
use vb_core::{BitIndex, Element};
use vb_view::BitBufferView;

/// Writes the values at the indices to the front of `out`, one for each index. `out` must have at
/// least `indices.len()` items; the items after these never change. Returns `Err(k)` for the first
/// position `k` that counts and whose index is negative or not below the number of values. On `Err`
/// the first `indices.len()` items of `out` are unspecified.
///
/// Without a `validity` each position counts. A `validity` must have one bit for each index; a
/// position counts if its bit is true. At the other positions 0 is written, and the index may be
/// any number.
///
/// From 64 positions on, processes 64 at a time with a `validity`: visits the set bits of a word of
/// the validity. Without one, processes four at a time.
#[inline]
pub fn take_values_into<T: Element, I: BitIndex>(
    out: &mut [T],
    values: &[T],
    indices: &[I],
    validity: Option<BitBufferView<'_>>,
) -> Result<(), usize>
    requires room { length indices.now ≤ length out.old }
    requires validity { ForSome validity (λ v. length (bits_of v) ≡ length indices.now) }
    ensures taken { IfOk result (λ _. AreTaken T.zero values.now (map I.number indices.now)
        (option_map bits_of validity.entry) (take (length indices.now) out.new)) }
    ensures past { IfErr result (λ p. IsFirstUntaken T.zero values.now (map I.number indices.now)
        (option_map bits_of validity.entry) p) }
    ensures others { drop (length indices.now) out.new ≡ drop (length indices.now) out.old }
{
    if indices.len() >= 64 {
        return match validity {
            Some(valid) => take_blocks(out, values, indices, valid),
            None => take_all(out, values, indices),
        };
    }
    take_rest(out, values, indices, validity, 0)
}

/// Does [`take_values_into`] without a validity: four positions at a time, which takes a quarter
/// fewer instructions than one at a time, and then the others.
///
/// Not inlined, so that a call for few positions doesn't pay for it.
#[inline(never)]
fn take_all<T: Element, I: BitIndex>(
    out: &mut [T],
    values: &[T],
    indices: &[I],
) -> Result<(), usize>
    requires room { length indices.now ≤ length out.old }
    ensures taken { IfOk result (λ _. AreTaken T.zero values.now (map I.number indices.now) None
        (take (length indices.now) out.new)) }
    ensures past { IfErr result (λ p. IsFirstUntaken T.zero values.now (map I.number indices.now)
        None p) }
    ensures others { drop (length indices.now) out.new ≡ drop (length indices.now) out.old }
{
    let fours = indices.len() / 4;
    for t in 0..fours {
        take_four(out, values, indices, 4 * t)?;
    }
    take_rest(out, values, indices, None, 4 * fours)
}

/// Does [`take_all`] for the four positions from `at` on; those before them must be done.
#[inline(always)]
fn take_four<T: Element, I: BitIndex>(
    out: &mut [T],
    values: &[T],
    indices: &[I],
    at: usize,
) -> Result<(), usize>
    requires room { length indices.now ≤ length out.old }
    requires inside { at + 4 ≤ length indices.now }
    requires before { TakenTo at (item_taken T.zero values.now (map I.number indices.now) None)
        (item_or T.zero out.old) }
    ensures taken { IfOk result (λ _. TakenTo (at + 4) (item_taken T.zero values.now
        (map I.number indices.now) None) (item_or T.zero out.new)) }
    ensures past { IfErr result (λ p. IsFirstUntaken T.zero values.now (map I.number indices.now)
        None p) }
    ensures others { drop (length indices.now) out.new ≡ drop (length indices.now) out.old }
{
    take_one(out, values, indices, at)?;
    take_one(out, values, indices, at + 1)?;
    take_one(out, values, indices, at + 2)?;
    take_one(out, values, indices, at + 3)
}

/// Does [`take_all`] for the position `k`; those before it must be done.
#[inline(always)]
fn take_one<T: Element, I: BitIndex>(
    out: &mut [T],
    values: &[T],
    indices: &[I],
    k: usize,
) -> Result<(), usize>
    requires room { length indices.now ≤ length out.old }
    requires inside { k < length indices.now }
    requires before { TakenTo k (item_taken T.zero values.now (map I.number indices.now) None)
        (item_or T.zero out.old) }
    ensures taken { IfOk result (λ _. TakenTo (k + 1) (item_taken T.zero values.now
        (map I.number indices.now) None) (item_or T.zero out.new)) }
    ensures past { IfErr result (λ p. IsFirstUntaken T.zero values.now (map I.number indices.now)
        None p) }
    ensures others { drop (length indices.now) out.new ≡ drop (length indices.now) out.old }
{
    match value_named(values, indices[k]) {
        Some(value) => out[k] = value,
        None => return Err(k),
    }
    Ok(())
}

/// Does [`take_values_into`] for blocks of 64 positions, and then for the others one by one.
///
/// Not inlined, so that a call that needs no blocks doesn't pay for them.
#[inline(never)]
fn take_blocks<T: Element, I: BitIndex>(
    out: &mut [T],
    values: &[T],
    indices: &[I],
    valid: BitBufferView<'_>,
) -> Result<(), usize>
    requires room { length indices.now ≤ length out.old }
    requires validity { length (bits_of valid) ≡ length indices.now }
    ensures taken { IfOk result (λ _. AreTaken T.zero values.now (map I.number indices.now)
        (Some (bits_of valid.entry)) (take (length indices.now) out.new)) }
    ensures past { IfErr result (λ p. IsFirstUntaken T.zero values.now (map I.number indices.now)
        (Some (bits_of valid.entry)) p) }
    ensures others { drop (length indices.now) out.new ≡ drop (length indices.now) out.old }
{
    let blocks = indices.len() / 64;
    for t in 0..blocks {
        take_block(out, values, indices, valid, 64 * t)?;
    }
    take_rest(out, values, indices, Some(valid), 64 * blocks)
}

/// Does [`take_values_into`] for the 64 positions from `at` on; those before them must be done.
///
/// Visits the set bits of the validity, so that no branch depends on the bit of a position. If they
/// are few, it tests all their indices first, and then writes 0 to all 64 items at once; else it
/// writes 0 to the items that don't count, one by one. On `Err` it leaves the same items as a loop
/// over all positions would: those before the failing position are done, those from it on are
/// unchanged.
#[inline(always)]
fn take_block<T: Element, I: BitIndex>(
    out: &mut [T],
    values: &[T],
    indices: &[I],
    valid: BitBufferView<'_>,
    at: usize,
) -> Result<(), usize>
    requires room { length indices.now ≤ length out.old }
    requires validity { length (bits_of valid) ≡ length indices.now }
    requires inside { at + 64 ≤ length indices.now }
    requires before { TakenTo at (item_taken T.zero values.now (map I.number indices.now)
        (Some (bits_of valid))) (item_or T.zero out.old) }
    ensures taken { IfOk result (λ _. TakenTo (at + 64) (item_taken T.zero values.now
        (map I.number indices.now) (Some (bits_of valid.entry))) (item_or T.zero out.new)) }
    ensures past { IfErr result (λ p. IsFirstUntaken T.zero values.now (map I.number indices.now)
        (Some (bits_of valid.entry)) p) }
    ensures begun { IfErr result (λ p. TakenTo p (item_taken T.zero values.now
        (map I.number indices.now) (Some (bits_of valid.entry))) (item_or T.zero out.new)) }
    ensures stays { IfErr result (λ p. drop p out.new ≡ drop p out.old) }
    ensures others { drop (length indices.now) out.new ≡ drop (length indices.now) out.old }
{
    let word = valid_word(Some(valid), at, 64);
    if word == u64::MAX {
        put_full(out, values, indices, at)
    } else if word.count_ones() <= MAX_ONES_READ_TWICE && all_named(values, indices, at, word) {
        clear_block(out, at);
        put_ones(out, values, indices, at, word)
    } else {
        let answer = put_ones(out, values, indices, at, word);
        match answer {
            Ok(()) => put_zeros(out, at, word, 64),
            Err(place) => put_zeros(out, at, word, place - at),
        }
        answer
    }
}

/// The most set bits for which testing their indices twice is not slower than writing 0 to the
/// other items one by one.
const MAX_ONES_READ_TWICE: u32 = 20;

/// Returns whether the index at each set bit of `word` is in range: `indices[at + k]` for bit `k`.
#[inline(always)]
fn all_named<T: Element, I: BitIndex>(values: &[T], indices: &[I], at: usize, word: u64) -> bool
    requires { at + 64 ≤ length indices.now }
    ensures { IsTrue result → (k : ℕ) → k < 64 → has_bit word k ≡ true
        → IsSome (item_named values.now
        (slice_index_or (map I.number indices.now) (at + k) (negsuc 0))) }
{
    let mut left = word;
    while left != 0 {
        let k = left.trailing_zeros() as usize;
        if value_named(values, indices[at + k]).is_none() {
            return false;
        }
        left &= left - 1;
    }
    true
}

/// Writes the value at index `indices[at + k]` to item `at + k`, for each set bit `k` of `word`.
/// Stops at the first index that is out of range, and returns its position as the error.
#[inline(always)]
fn put_ones<T: Element, I: BitIndex>(
    out: &mut [T],
    values: &[T],
    indices: &[I],
    at: usize,
    word: u64,
) -> Result<(), usize>
    requires room { at + 64 ≤ length out.old }
    requires inside { at + 64 ≤ length indices.now }
    ensures put { IfOk result (λ _. PutsOnes T.zero values.now (map I.number indices.now) at word
        64 out.old out.new) }
    ensures past { IfErr result (λ p. FailsAt T.zero values.now (map I.number indices.now) at word
        p out.old out.new) }
{
    let mut left = word;
    while left != 0 {
        let place = at + left.trailing_zeros() as usize;
        match value_named(values, indices[place]) {
            Some(value) => out[place] = value,
            None => return Err(place),
        }
        left &= left - 1;
    }
    Ok(())
}

/// Does [`put_ones`] for a word whose 64 bits are 1.
#[inline(always)]
fn put_full<T: Element, I: BitIndex>(
    out: &mut [T],
    values: &[T],
    indices: &[I],
    at: usize,
) -> Result<(), usize>
    requires room { at + 64 ≤ length out.old }
    requires inside { at + 64 ≤ length indices.now }
    ensures put { IfOk result (λ _. PutsOnes T.zero values.now (map I.number indices.now) at u64.MAX
        64 out.old out.new) }
    ensures past { IfErr result (λ p. FailsAt T.zero values.now (map I.number indices.now) at
        u64.MAX p out.old out.new) }
{
    for position in at..at + 64 {
        match value_named(values, indices[position]) {
            Some(value) => out[position] = value,
            None => return Err(position),
        }
    }
    Ok(())
}

/// Writes 0 to item `at + k` for each `k` below `n` whose bit of `word` is 0.
#[inline(always)]
fn put_zeros<T: Element>(out: &mut [T], at: usize, word: u64, n: usize)
    requires few { n ≤ 64 }
    requires room { at + n ≤ length out.old }
    ensures { PutsZeros T.zero at word n out.old out.new }
{
    let mut left = low_digits(!word, n);
    while left != 0 {
        out[at + left.trailing_zeros() as usize] = T::zero();
        left &= left - 1;
    }
}

/// Writes 0 to the 64 items from `at` on.
#[inline(always)]
fn clear_block<T: Element>(out: &mut [T], at: usize)
    requires { at + 64 ≤ length out.old }
    ensures zero { (i : ℕ) → at ≤ i → i < at + 64 → slice_index_or out.new i T.zero ≡ T.zero }
    ensures before { (i : ℕ) → i < at
        → slice_index_or out.new i T.zero ≡ slice_index_or out.old i T.zero }
    ensures behind { drop (at + 64) out.new ≡ drop (at + 64) out.old }
{
    for k in at..at + 64 {
        out[k] = T::zero();
    }
}

/// Does [`take_values_into`] for the positions from `from` on, one by one; those before them must
/// be done.
///
/// Each branch writes its own item, a value or 0: choosing between the two first would hold a value
/// of any size on the stack.
#[inline(always)]
fn take_rest<T: Element, I: BitIndex>(
    out: &mut [T],
    values: &[T],
    indices: &[I],
    validity: Option<BitBufferView<'_>>,
    from: usize,
) -> Result<(), usize>
    requires room { length indices.now ≤ length out.old }
    requires validity { ForSome validity (λ v. length (bits_of v) ≡ length indices.now) }
    requires begun { from ≤ length indices.now }
    requires before { TakenTo from (item_taken T.zero values.now (map I.number indices.now)
        (option_map bits_of validity)) (item_or T.zero out.old) }
    ensures taken { IfOk result (λ _. AreTaken T.zero values.now (map I.number indices.now)
        (option_map bits_of validity.entry) (take (length indices.now) out.new)) }
    ensures past { IfErr result (λ p. IsFirstUntaken T.zero values.now (map I.number indices.now)
        (option_map bits_of validity.entry) p) }
    ensures others { drop (length indices.now) out.new ≡ drop (length indices.now) out.old }
{
    for k in from..indices.len() {
        if is_valid(validity, k) {
            match value_named(values, indices[k]) {
                Some(value) => out[k] = value,
                None => return Err(k),
            }
        } else {
            out[k] = T::zero();
        }
    }
    Ok(())
}

/// Returns the value at `index`; `None` if the index is out of range.
#[inline(always)]
fn value_named<T: Element, I: BitIndex>(values: &[T], index: I) -> Option<T>
    ensures { result ≡ item_named values.now (I.number index) }
{
    values.get(index.place()?).copied()
}
