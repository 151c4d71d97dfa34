//! Capacity for bits and their counts.
ghost use Rattle.std.specs.Prelude.{◌≡◌, ◌+◌, ◌^◌, ◌≤◌, ◌<◌, length, IsOk, IsOkUnless};
ghost use Rattle.std.specs.Prelude.{IsErrOf, OnOk, OnErr};
ghost use Rattle.vb_directory.specs.Counts.{numbers_for};

use std::alloc::Allocator;
use vb_directory::Counts;
use vb_set::{BitBufferMut, BufferError, Result};

/// A set that grows gets bytes for at least this number of bits, counted from the start of its
/// bytes.
const LEAST_ROOM: usize = 64;

/// Reserves capacity for one more bit in a set with bits, and for the counts of all bits that the
/// set can then hold. The counts already have space for the set's capacity, so the call does
/// nothing if the set is not full.
#[inline(always)]
pub(crate) fn make_room<A: Allocator + Clone>(
    set: &mut BitBufferMut<A>,
    counts: &mut Counts<A>,
) -> Result<()>
    requires held { numbers_for set.old.room ≤ counts.old.room }
    ensures set { set.new ≡ record set.old { room = set.new.room } }
    ensures set_grows { set.old.room ≤ set.new.room }
    ensures numbers { counts.new.numbers ≡ counts.old.numbers }
    ensures counts_grow { counts.old.room ≤ counts.new.room }
    ensures room { OnOk result (length set.old.bits + 1 ≤ set.new.room) }
    ensures counts_room { OnOk result (numbers_for set.new.room ≤ counts.new.room) }
    ensures in_room { length set.old.bits + 1 ≤ set.old.room → IsOk result }
    ensures stays { length set.old.bits + 1 ≤ set.old.room → set.new ≡ set.old }
    ensures fits { set.old.offset + length set.old.bits + 1 < 2 ^ 64
        → IsOkUnless result BufferError.OutOfMemory }
    ensures too_many { 2 ^ 64 ≤ set.old.offset + length set.old.bits + 1
        → IsErrOf result BufferError.TooManyBits }
    ensures err { OnErr result (set.new ≡ set.old) }
{
    if set.has_room() {
        return Ok(());
    }
    ask_for_room(set, counts, 1)
}

/// Does the work of [`make_room`] for a set without bits. Most of these have no capacity either:
/// they get the least capacity of a set that grows, and both sizes are known at compile time.
#[inline(always)]
pub(crate) fn make_first_room<A: Allocator + Clone>(
    set: &mut BitBufferMut<A>,
    counts: &mut Counts<A>,
) -> Result<()>
    requires none { length set.old.bits ≡ 0 }
    ensures set { set.new ≡ record set.old { room = set.new.room } }
    ensures set_grows { set.old.room ≤ set.new.room }
    ensures numbers { counts.new.numbers ≡ counts.old.numbers }
    ensures counts_grow { counts.old.room ≤ counts.new.room }
    ensures room { OnOk result (1 ≤ set.new.room) }
    ensures counts_room { OnOk result (numbers_for set.new.room ≤ counts.new.room) }
    ensures stays { 1 ≤ set.old.room → set.new ≡ set.old }
    ensures fits { set.old.offset + 1 < 2 ^ 64 → IsOkUnless result BufferError.OutOfMemory }
    ensures too_many { 2 ^ 64 ≤ set.old.offset + 1 → IsErrOf result BufferError.TooManyBits }
    ensures err { OnErr result (set.new ≡ set.old) }
{
    if set.offset() > 0 || set.capacity() > 0 {
        return ask_for_room(set, counts, 1);
    }
    // The 7 bits cover a capacity that is rounded up to a whole byte, as in `ask_for_room`.
    counts.reserve(LEAST_ROOM + 7)?;
    set.reserve_exact(LEAST_ROOM)?;
    // This shows the prover that the capacity fits in `usize`.
    let _room = set.capacity();
    Ok(())
}

/// Does the work of [`make_room`] for `n` more bits. For no bits it does nothing.
pub(crate) fn make_room_for<A: Allocator + Clone>(
    set: &mut BitBufferMut<A>,
    counts: &mut Counts<A>,
    n: usize,
) -> Result<()>
    requires held { 0 < length set.old.bits → numbers_for set.old.room ≤ counts.old.room }
    ensures set { set.new ≡ record set.old { room = set.new.room } }
    ensures set_grows { set.old.room ≤ set.new.room }
    ensures numbers { counts.new.numbers ≡ counts.old.numbers }
    ensures counts_grow { counts.old.room ≤ counts.new.room }
    ensures room { OnOk result (length set.old.bits + n ≤ set.new.room) }
    ensures counts_room { OnOk result (0 < length set.old.bits + n
        → numbers_for set.new.room ≤ counts.new.room) }
    ensures in_room { 0 < length set.old.bits → length set.old.bits + n ≤ set.old.room
        → IsOk result }
    ensures stays { length set.old.bits + n ≤ set.old.room → set.new ≡ set.old }
    ensures fits { set.old.offset + length set.old.bits + n < 2 ^ 64
        → IsOkUnless result BufferError.OutOfMemory }
    ensures too_many { 2 ^ 64 ≤ set.old.offset + length set.old.bits + n
        → IsOkUnless result BufferError.TooManyBits }
    ensures err { OnErr result (set.new ≡ set.old) }
{
    let left = set.capacity() - set.len();
    if n == 0 || (!set.is_empty() && n <= left) {
        return Ok(());
    }
    ask_for_room(set, counts, n)
}

/// Does the work of [`make_room_for`] for at least one bit if the set is too full or has no bits.
/// Allocates nothing for the counts if they already have the space.
///
/// A set that is too full gets capacity for at least twice the bits, so that a bit takes amortized
/// constant time. The call allocates the counts first, so that the capacity of the set does not
/// change if that fails.
#[cold]
fn ask_for_room<A: Allocator + Clone>(
    set: &mut BitBufferMut<A>,
    counts: &mut Counts<A>,
    n: usize,
) -> Result<()>
    requires some { 0 < n }
    ensures set { set.new ≡ record set.old { room = set.new.room } }
    ensures set_grows { set.old.room ≤ set.new.room }
    ensures numbers { counts.new.numbers ≡ counts.old.numbers }
    ensures counts_grow { counts.old.room ≤ counts.new.room }
    ensures room { OnOk result (length set.old.bits + n ≤ set.new.room) }
    ensures counts_room { OnOk result (numbers_for set.new.room ≤ counts.new.room) }
    ensures stays { length set.old.bits + n ≤ set.old.room → set.new ≡ set.old }
    ensures fits { set.old.offset + length set.old.bits + n < 2 ^ 64
        → IsOkUnless result BufferError.OutOfMemory }
    ensures too_many { 2 ^ 64 ≤ set.old.offset + length set.old.bits + n
        → IsErrOf result BufferError.TooManyBits }
    ensures err { OnErr result (set.new ≡ set.old) }
{
    let (len, room) = (set.len(), set.capacity());
    let end = len.saturating_add(set.offset());
    let left = usize::MAX - end;
    if left < n {
        return Err(BufferError::TooManyBits);
    }
    if n <= room - len {
        return counts.reserve(room);
    }
    let more = end.max(LEAST_ROOM.saturating_sub(end)).max(n).min(left);
    // The 7 bits cover a capacity that is rounded up to a whole byte.
    counts.reserve((len + more).saturating_add(7))?;
    set.reserve_exact(more)?;
    // This shows the prover that the capacity fits in `usize`.
    let _room = set.capacity();
    Ok(())
}
