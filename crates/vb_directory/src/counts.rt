//! The counts of a directory, in one list of numbers. This file builds and edits them; ranks and
//! selects read them only through a source of counts.
mod plain;
#[cfg(test)]
mod tally;

ghost use Rattle.std.specs.Prelude.{◌≡◌, ℕ, ◌+◌, ◌-◌, ◌*◌, ◌/◌, ◌%◌, ◌^◌, ◌<◌, ◌≤◌, not};
ghost use Rattle.std.specs.Prelude.{Bool, List, [], ◌∷◌, ◌++◌, length, min, take};
ghost use Rattle.std.specs.Prelude.{slice_index, slice_set, vec_len, vec_capacity};
ghost use Rattle.std.specs.Prelude.{IfOk, OnOk, IsOkUnless};
ghost use Rattle.vb_bits.specs.Bits.{at, count};
ghost use Rattle.vb_directory.specs.Counts.{AreCounts, numbers_for, count_before_group};
ghost use Rattle.vb_directory.specs.Counts.{count_in_group};
ghost use Rattle.vb_view.specs.View.{bits_of};

use crate::size::{BASE, BEFORE_DIGITS, GROUP_BITS, GROUP_BLOCKS, GROUP_NUMBERS};
pub(crate) use plain::PlainGroups;
use std::alloc::Allocator;
use std::marker::Model;
#[cfg(test)]
pub(crate) use tally::TallyGroups;
use vb_core::{BufferError, Result};
use vb_count::count_ones;
use vb_rank::BLOCK_BITS;
use vb_view::BitBufferView;

/// The least number of numbers that [`Counts::reserve`] allocates: 24 bytes. An allocator uses up
/// that much for fewer numbers too.
const FIRST_NUMBERS: usize = 12;

/// The number of set bits before each block of 512 bits, by groups of 128 blocks.
///
/// A group begins with the number of set bits before it, as four digits of 16 bits, the lowest
/// first. One number of 16 bits follows for each of its blocks but the first: the number of set
/// bits of the group before the block. The last group has only the numbers that its blocks need.
///
/// Contracts see the numbers, and the number for which there is capacity.
#[derive(Drop)]
pub struct Counts<A: Allocator> {
    numbers: Vec<u16, A>,
}

impl<A: Allocator> Model for Counts<A> {
    ghost use Rattle.std.specs.Prelude.{vec_capacity};
    ghost use Rattle.vb_directory.specs.Counts.{HeldCounts};

    ghost Value = { HeldCounts };

    ghost view = { λ c. record { numbers = c.numbers.items; room = vec_capacity c.numbers } };
}

impl<A: Allocator> Counts<A> {
    /// Returns the counts of the bits. If there are any bits, allocates once, with capacity for the
    /// counts of `room` bits, which must be at least the number of bits; else doesn't allocate.
    /// Returns `OutOfMemory` if that fails, and no other error. Counts the bits of all blocks but
    /// the last one, once.
    pub fn of(alloc: A, bits: BitBufferView<'_>, room: usize) -> Result<Self>
        requires room { length (bits_of bits) ≤ room }
        ensures counts { IfOk result (λ c. AreCounts (bits_of bits.entry) c.numbers) }
        ensures room { IfOk result (λ c. 0 < length (bits_of bits.entry)
            → numbers_for room ≤ c.room) }
        ensures refused { IsOkUnless result BufferError.OutOfMemory }
    {
        let blocks = bits.len().div_ceil(BLOCK_BITS);
        if blocks == 0 {
            return Ok(Counts {
                numbers: Vec::new(alloc),
            });
        }
        let mut numbers = Vec::with_capacity(alloc, size_for(room))?;
        push_before(&mut numbers, 0);
        let mut ones = 0;
        for block in 1..blocks {
            let start = BLOCK_BITS * (block - 1);
            ones += count_ones(bits.inner(), bits.offset() + start, BLOCK_BITS);
            push_count(&mut numbers, block, ones);
        }
        Ok(Counts { numbers })
    }

    /// Returns the counts as a source of them, with no probe so far.
    pub(crate) fn groups(&self) -> PlainGroups<'_>
        ensures numbers { result.entries ≡ self.now.numbers }
        ensures unread { result.probes ≡ 0 }
    {
        PlainGroups::new(self.numbers.as_slice())
    }

    /// Ensures capacity for the counts of `bits` bits. Returns `OutOfMemory` if it can't allocate,
    /// and no other error; the counts are unchanged then, and the capacity is no less.
    pub fn reserve(&mut self, bits: usize) -> Result<()>
        ensures numbers { self.new.numbers ≡ self.old.numbers }
        ensures grows { self.old.room ≤ self.new.room }
        ensures ok { OnOk result (numbers_for bits ≤ self.new.room) }
        ensures refused { IsOkUnless result BufferError.OutOfMemory }
    {
        let size = size_for(bits);
        if self.numbers.capacity() < size {
            let wanted = size.max(FIRST_NUMBERS);
            self.numbers
                .reserve(wanted.saturating_sub(self.numbers.len()))?;
        }
        Ok(())
    }

    /// Appends `ones`, the number of set bits before block `block`. Before the call these must be
    /// the counts of `block` whole blocks, with capacity for those of one more block; after it they
    /// are the counts of these blocks and of 1 to 512 bits after them. Does not allocate, and the
    /// capacity stays the same.
    pub fn push(&mut self, block: usize, ones: usize)
        requires size { length self.old.numbers ≡ numbers_for (BLOCK_BITS * block) }
        requires room { numbers_for (BLOCK_BITS * block + 1) ≤ self.old.room }
        ensures pushed { (l m : List Bool) → AreCounts l self.old.numbers
            → length l ≡ BLOCK_BITS * block → ones ≡ count l → length l < 2 ^ 64
            → take (length l) m ≡ l → length l < length m → length m ≤ length l + BLOCK_BITS
            → AreCounts m self.new.numbers }
        ensures room { self.new.room ≡ self.old.room }
    {
        push_count(&mut self.numbers, block, ones);
    }

    /// Adds 1 to the counts after the block of bit `i` if `up`, since the bit becomes true; else
    /// subtracts 1, since it becomes false. If the counts are those of the bits before bit `i`
    /// changes, they become those of the bits after that. Bit `i` must be in a group that has
    /// counts. Changes the later numbers of that group, at most 127, and the counts before all
    /// later groups. Does not allocate, and the capacity stays the same.
    pub fn move_behind(&mut self, i: usize, up: bool)
        requires { GROUP_NUMBERS * (i / GROUP_BITS) + BEFORE_DIGITS ≤ length self.old.numbers }
        ensures moved { (l : List Bool) → AreCounts l self.old.numbers → length l < 2 ^ 64
            → i < length l → at l i ≡ not up → AreCounts (slice_set l i up) self.new.numbers }
        ensures room { self.new.room ≡ self.old.room }
    {
        move_counts(self.numbers.as_mut_slice(), i, up);
    }
}

impl<A: Allocator + Clone> Counts<A> {
    /// Returns a copy. If there are any counts, allocates once, from a copy of the allocator, with
    /// capacity for the counts of `room` bits; else doesn't allocate. Returns `OutOfMemory` if the
    /// allocation or the allocator's clone fails, and no other error.
    pub fn copy(&self, room: usize) -> Result<Self>
        ensures numbers { IfOk result (λ c. c.numbers ≡ self.now.numbers) }
        ensures room { IfOk result (λ c. 0 < length self.now.numbers
            → numbers_for room ≤ c.room) }
        ensures refused { IsOkUnless result BufferError.OutOfMemory }
    {
        let alloc = self.numbers.allocator().clone()?;
        if self.numbers.is_empty() {
            return Ok(Counts {
                numbers: Vec::new(alloc),
            });
        }
        let mut numbers = Vec::with_capacity(alloc, size_for(room))?;
        numbers.extend_from_slice(self.numbers.as_slice())?;
        Ok(Counts { numbers })
    }
}

/// Returns the number of numbers that the counts of `bits` bits have.
fn size_for(bits: usize) -> usize
    ensures { result ≡ numbers_for bits }
{
    bits.div_ceil(BLOCK_BITS) + (BEFORE_DIGITS - 1) * bits.div_ceil(GROUP_BITS)
}

/// Appends the count of block `block`, which is the next one.
fn push_count<A: Allocator>(numbers: &mut Vec<u16, A>, block: usize, ones: usize)
    requires size { length numbers.old.items ≡ numbers_for (BLOCK_BITS * block) }
    requires room { numbers_for (BLOCK_BITS * block + 1) ≤ vec_capacity numbers.old }
    ensures pushed { (l m : List Bool) → AreCounts l numbers.old.items
        → length l ≡ BLOCK_BITS * block → ones ≡ count l → length l < 2 ^ 64
        → take (length l) m ≡ l → length l < length m → length m ≤ length l + BLOCK_BITS
        → AreCounts m numbers.new.items }
    ensures room { vec_capacity numbers.new ≡ vec_capacity numbers.old }
{
    if block % GROUP_BLOCKS == 0 {
        push_before(numbers, ones);
    } else {
        let before = before_group(numbers.as_slice(), block / GROUP_BLOCKS);
        numbers.push_reserved((ones.wrapping_sub(before) % BASE) as u16);
    }
}

/// Appends the number of set bits before a group, as its digits.
fn push_before<A: Allocator>(numbers: &mut Vec<u16, A>, ones: usize)
    requires room { vec_len numbers.old + BEFORE_DIGITS ≤ vec_capacity numbers.old }
    ensures items { numbers.new.items ≡ numbers.old.items ++ ones % BASE ∷ ones / BASE % BASE
        ∷ ones / BASE / BASE % BASE ∷ ones / BASE / BASE / BASE ∷ [] }
    ensures len { vec_len numbers.new ≡ vec_len numbers.old + BEFORE_DIGITS }
    ensures room { vec_capacity numbers.new ≡ vec_capacity numbers.old }
{
    let second = ones / BASE;
    let third = second / BASE;
    numbers.push_reserved((ones % BASE) as u16);
    numbers.push_reserved((second % BASE) as u16);
    numbers.push_reserved((third % BASE) as u16);
    numbers.push_reserved((third / BASE) as u16);
}

/// Returns the number of set bits before group `k`.
fn before_group(numbers: &[u16], k: usize) -> usize
    requires { GROUP_NUMBERS * k + BEFORE_DIGITS ≤ length numbers.now }
    ensures { result ≡ count_before_group numbers.now k }
{
    let at = GROUP_NUMBERS * k;
    let high = usize::from(numbers[at + 2]) + BASE * usize::from(numbers[at + 3]);
    let low = usize::from(numbers[at]) + BASE * usize::from(numbers[at + 1]);
    low + BASE * BASE * high
}

/// Writes the number of set bits before group `k`.
fn write_before(numbers: &mut [u16], k: usize, ones: usize)
    requires { GROUP_NUMBERS * k + BEFORE_DIGITS ≤ length numbers.old }
    ensures len { length numbers.new ≡ length numbers.old }
    ensures value { count_before_group numbers.new k ≡ ones }
    ensures keeps { (j : ℕ) → j < GROUP_NUMBERS * k → slice_index numbers.new j
        ≡ slice_index numbers.old j }
    ensures keeps_more { (j : ℕ) → GROUP_NUMBERS * k + BEFORE_DIGITS ≤ j
        → slice_index numbers.new j ≡ slice_index numbers.old j }
{
    let at = GROUP_NUMBERS * k;
    let second = ones / BASE;
    let third = second / BASE;
    numbers[at] = (ones % BASE) as u16;
    numbers[at + 1] = (second % BASE) as u16;
    numbers[at + 2] = (third % BASE) as u16;
    numbers[at + 3] = (third / BASE) as u16;
}

/// Adds 1 to the counts after the block of bit `i` if `up`, since the bit becomes true; else
/// subtracts 1, since it becomes false.
fn move_counts(numbers: &mut [u16], i: usize, up: bool)
    requires { GROUP_NUMBERS * (i / GROUP_BITS) + BEFORE_DIGITS ≤ length numbers.old }
    ensures len { length numbers.new ≡ length numbers.old }
    ensures moved { (l : List Bool) → AreCounts l numbers.old → length l < 2 ^ 64
        → i < length l → at l i ≡ not up → AreCounts (slice_set l i up) numbers.new }
{
    if numbers.len() <= GROUP_NUMBERS {
        move_single(numbers, i, up);
    } else {
        move_groups(numbers, i, up);
    }
}

/// Does [`move_counts`] for a single group, which is all that most sets have.
fn move_single(numbers: &mut [u16], i: usize, up: bool)
    requires { length numbers.old ≤ GROUP_NUMBERS }
    ensures len { length numbers.new ≡ length numbers.old }
    ensures moved { (l : List Bool) → AreCounts l numbers.old → length l < 2 ^ 64
        → i < length l → at l i ≡ not up → AreCounts (slice_set l i up) numbers.new }
{
    let narrow = if up { 1 } else { u16::MAX };
    let end = numbers.len();
    add_within(numbers, BEFORE_DIGITS + i / BLOCK_BITS, end, narrow);
}

/// Does [`move_counts`] for several groups.
fn move_groups(numbers: &mut [u16], i: usize, up: bool)
    requires { GROUP_NUMBERS * (i / GROUP_BITS) + BEFORE_DIGITS ≤ length numbers.old }
    ensures len { length numbers.new ≡ length numbers.old }
    ensures moved { (l : List Bool) → AreCounts l numbers.old → length l < 2 ^ 64
        → i < length l → at l i ≡ not up → AreCounts (slice_set l i up) numbers.new }
{
    let (group, block) = (i / GROUP_BITS, i / BLOCK_BITS % GROUP_BLOCKS);
    let start = GROUP_NUMBERS * group;
    let end = (start + GROUP_NUMBERS).min(numbers.len());
    // If the bit becomes false, adding this wraps to one less.
    let narrow = if up { 1 } else { u16::MAX };
    let wide = if up { 1 } else { usize::MAX };
    // The number of the next block is after the digits and the numbers of the blocks up to this
    // one.
    add_within(numbers, start + BEFORE_DIGITS + block, end, narrow);
    add_before(numbers, group + 1, wide);
}

/// Adds `step`, wrapping, to the numbers from `from` up to `to`, `to` excluded.
fn add_within(numbers: &mut [u16], from: usize, to: usize, step: u16)
    requires { to ≤ length numbers.old }
    ensures len { length numbers.new ≡ length numbers.old }
    ensures before { (k : ℕ) → k < from → slice_index numbers.new k ≡ slice_index numbers.old k }
    ensures moved { (k : ℕ) → from ≤ k → k < to
        → slice_index numbers.new k ≡ (slice_index numbers.old k + step) % 2 ^ 16 }
    ensures behind { (k : ℕ) → to ≤ k → slice_index numbers.new k ≡ slice_index numbers.old k }
{
    for k in from..to {
        numbers[k] = numbers[k].wrapping_add(step);
    }
}

/// Adds `step`, wrapping, to the counts before the groups from `from` on.
fn add_before(numbers: &mut [u16], from: usize, step: usize)
    ensures len { length numbers.new ≡ length numbers.old }
    ensures before { (k : ℕ) → k < from
        → count_before_group numbers.new k ≡ count_before_group numbers.old k }
    ensures moved { (k : ℕ) → from ≤ k → GROUP_NUMBERS * k + BEFORE_DIGITS ≤ length numbers.old
        → count_before_group numbers.new k
        ≡ (count_before_group numbers.old k + step) % 2 ^ 64 }
    ensures within { (k i : ℕ) → i < GROUP_BLOCKS
        → count_in_group numbers.new k i ≡ count_in_group numbers.old k i }
{
    for k in from..(numbers.len() + GROUP_NUMBERS - BEFORE_DIGITS) / GROUP_NUMBERS {
        let moved = before_group(numbers, k).wrapping_add(step);
        write_before(numbers, k, moved);
    }
}
