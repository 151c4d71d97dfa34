//! Capacity for one bit, and the count of the bits before it.
ghost use Rattle.std.specs.Prelude.{◌≡◌, ◌+◌, ◌%◌, ◌^◌, ◌<◌, ◌≤◌, true, false, length};
ghost use Rattle.std.specs.Prelude.{OnOk, OnErr};
ghost use Rattle.vb_directory.specs.Counts.{AreCounts, numbers_for};
ghost use Rattle.vb_ranked.specs.Counted.{IsReadyForBit, NeedsCountedBits};

use crate::room::{make_first_room, make_room};
use std::alloc::Allocator;
use vb_directory::Counts;
use vb_rank::BLOCK_BITS;
use vb_set::{BitBufferMut, Result};

/// Prepares a set and its counts for one more bit, which the caller has to append next. Returns
/// whether they are ready: the set has capacity for the bit, and if the bit begins a block, the
/// counts have the number of true bits before that block.
///
/// May allocate if the set is full, and for the first bit. Returns `false` if memory runs out, or
/// if offset and length together are `usize::MAX`: the set, its capacity and the numbers of the
/// counts are unchanged then.
///
/// This function is out of line, since few bits need it: so `append` saves no registers for the
/// calls in here. It returns a `bool` instead of an error: for an error a caller's loop would clear
/// a stack slot at each bit.
#[cold]
#[inline(never)]
pub(crate) fn make_ready<A: Allocator + Clone>(
    set: &mut BitBufferMut<A>,
    counts: &mut Counts<A>,
) -> bool
    requires exact { AreCounts set.old.bits counts.old.numbers }
    requires held { 0 < length set.old.bits → numbers_for set.old.room ≤ counts.old.room }
    ensures set { set.new ≡ record set.old { room = set.new.room } }
    ensures set_grows { set.old.room ≤ set.new.room }
    ensures counts_grow { counts.old.room ≤ counts.new.room }
    ensures ready { result ≡ true → IsReadyForBit set.new counts.new }
    ensures in_room { 0 < length set.old.bits → length set.old.bits + 1 ≤ set.old.room
        → result ≡ true }
    ensures stays { length set.old.bits + 1 ≤ set.old.room → set.new ≡ set.old }
    ensures too_many { 2 ^ 64 ≤ set.old.offset + length set.old.bits + 1 → result ≡ false }
    ensures refused { result ≡ false → set.new ≡ set.old }
    ensures numbers { result ≡ false → counts.new.numbers ≡ counts.old.numbers }
{
    if set.is_empty() {
        return make_first_ready(set, counts).is_ok();
    }
    if set.len() % BLOCK_BITS == 0 {
        return make_block_ready(set, counts).is_ok();
    }
    make_room(set, counts).is_ok()
}

/// Does the work of [`make_ready`] for the first bit, which has no counts before it. May allocate
/// even if the set has capacity.
fn make_first_ready<A: Allocator + Clone>(
    set: &mut BitBufferMut<A>,
    counts: &mut Counts<A>,
) -> Result<()>
    requires none { length set.old.bits ≡ 0 }
    requires exact { AreCounts set.old.bits counts.old.numbers }
    ensures set { set.new ≡ record set.old { room = set.new.room } }
    ensures set_grows { set.old.room ≤ set.new.room }
    ensures counts_grow { counts.old.room ≤ counts.new.room }
    ensures ready { OnOk result (IsReadyForBit set.new counts.new) }
    ensures stays { length set.old.bits + 1 ≤ set.old.room → set.new ≡ set.old }
    ensures needs { NeedsCountedBits 1 result set.old set.new }
    ensures numbers { OnErr result (counts.new.numbers ≡ counts.old.numbers) }
{
    make_first_room(set, counts)?;
    counts.push(0, 0);
    Ok(())
}

/// Does the work of [`make_ready`] for a bit that begins a block and is not the first bit. Counts
/// the bits before it.
fn make_block_ready<A: Allocator + Clone>(
    set: &mut BitBufferMut<A>,
    counts: &mut Counts<A>,
) -> Result<()>
    requires some { 0 < length set.old.bits }
    requires whole { length set.old.bits % BLOCK_BITS ≡ 0 }
    requires exact { AreCounts set.old.bits counts.old.numbers }
    requires held { numbers_for set.old.room ≤ counts.old.room }
    ensures set { set.new ≡ record set.old { room = set.new.room } }
    ensures set_grows { set.old.room ≤ set.new.room }
    ensures counts_grow { counts.old.room ≤ counts.new.room }
    ensures ready { OnOk result (IsReadyForBit set.new counts.new) }
    ensures stays { length set.old.bits + 1 ≤ set.old.room → set.new ≡ set.old }
    ensures needs { NeedsCountedBits 1 result set.old set.new }
    ensures numbers { OnErr result (counts.new.numbers ≡ counts.old.numbers) }
{
    let len = set.len();
    let ones = counts.rank(set.as_view(), len);
    make_room(set, counts)?;
    counts.push(len / BLOCK_BITS, ones);
    Ok(())
}
