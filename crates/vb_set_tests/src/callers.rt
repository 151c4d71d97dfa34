//! Callers of views that write, and of appends. Tests only check runs. The clauses here prove that
//! a caller can reason about what is written through a view, and about what is appended within the
//! capacity.
ghost use Rattle.std.specs.Prelude.{◌≡◌, ℕ, ◌+◌, ◌<◌, ◌≤◌, [], ◌∷◌, length, slice_set, take};
ghost use Rattle.std.specs.Prelude.{true, false, IsOk, OnOk, OnErr};
ghost use Rattle.vb_set.specs.Bits.{bits, count};
ghost use Rattle.vb_set.specs.Edits.{with_fill};
ghost use Rattle.vb_set.specs.OpenSet.{AddsBits, KeepsLayout};

use std::alloc::Allocator;
use vb_set::{BitBuffer, BitBufferMut, BitBufferMutView, Result};

/// Edits a set through a view.
pub(crate) fn edit_through_view<A: Allocator + Clone>(set: &mut BitBufferMut<A>)
    requires { 7 < length set.old.bits }
    ensures bits { set.new.bits ≡ slice_set set.old.bits 7 true }
    ensures keeps { KeepsLayout set.old set.new }
{
    set.as_mut_view().set_to(7, true);
}

/// Edits and queries a set through one view.
pub(crate) fn edit_and_count<A: Allocator + Clone>(set: &mut BitBufferMut<A>, i: usize) -> usize
    requires { i < length set.old.bits }
    ensures bits { set.new.bits ≡ with_fill (slice_set set.old.bits i false) 0 i true }
    ensures count { result ≡ count set.new.bits }
{
    let mut view = set.as_mut_view();
    view.unset(i);
    view.fill_range(0, i, true);
    view.true_count()
}

/// Edits bytes through a view.
pub(crate) fn edit_bytes(bytes: &mut [u8])
    requires { 0 < length bytes.old }
    ensures { bits bytes.new 0 8 ≡ slice_set (bits bytes.old 0 8) 7 true }
{
    BitBufferMutView::new(bytes, 8).set_to(7, true);
}

/// Appends a shared set of up to 512 bits within the capacity, which stays the same.
pub(crate) fn append_within_room<A: Allocator + Clone>(
    set: &mut BitBufferMut<A>,
    block: &BitBuffer<A>,
) -> Result<()>
    requires few { length block.now.bits ≤ 512 }
    requires room { length set.old.bits + length block.now.bits ≤ set.old.room }
    ensures ok { IsOk result }
    ensures stays { set.new.room ≡ set.old.room }
{
    set.append_buffer(block)
}

/// Adds two bits by an appender. If the second fails, the set has the first.
pub(crate) fn append_two<A: Allocator + Clone>(
    set: &mut BitBufferMut<A>,
    first: bool,
    second: bool,
) -> Result<()>
    ensures ok { OnOk result (AddsBits (first ∷ second ∷ []) set.old set.new) }
    ensures in_room { length set.old.bits + 2 ≤ set.old.room → IsOk result }
{
    let mut appender = set.appender();
    appender.append(first)?;
    appender.append(second)?;
    drop(appender);
    Ok(())
}

/// Adds truth values by an appender. On error the set has those before it.
pub(crate) fn append_each<A: Allocator + Clone>(
    set: &mut BitBufferMut<A>,
    bools: &[bool],
) -> Result<()>
    ensures ok { OnOk result (AddsBits bools.now set.old set.new) }
    ensures err { OnErr result ((n : ℕ) × AddsBits (take n bools.now) set.old set.new) }
{
    let mut appender = set.appender();
    for bit in bools {
        appender.append(*bit)?;
    }
    Ok(())
}
