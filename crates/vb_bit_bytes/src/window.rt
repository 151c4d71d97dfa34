//! Bits of other bytes appended at the end.
ghost use Rattle.std.specs.Prelude.{◌≡◌, ◌+◌, ◌*◌, ◌^◌, ◌<◌, ◌≤◌};
ghost use Rattle.std.specs.Prelude.{length, max, IsOk, IsOkUnless, OnOk, OnErr};
ghost use Rattle.std.specs.Int.{div_ceil};
ghost use Rattle.vb_bits.specs.Bits.{bits};
ghost use Rattle.vb_bits.specs.InBytes.{InBytes};
ghost use Rattle.vb_bits.specs.Writes.{Writes, extension};

use crate::edit::copy;
use crate::lengthen::push_slice;
use std::alloc::Allocator;
use vb_core::{BufferError, Result};
use vb_mem::ByteBufferMut;

/// Writes the `n` bits of `source` from bit `offset` on after the bits below bit `start`, which
/// must be in the bytes. Processes whole words. If `start` and `offset` are the same modulo 8, it
/// copies bytes. `start + n` and `offset + n` must fit in `usize`.
///
/// Returns `OutOfMemory` if memory runs out; the bytes and the capacity are unchanged then. If
/// there is capacity, the call does not allocate and succeeds. If `n` is at most 512, the capacity
/// does not change either.
#[tactic(auto, using(crate::proofs::BytesLemmas::edits))]
pub fn push_window<A: Allocator + Clone>(
    bytes: &mut ByteBufferMut<A>,
    start: usize,
    source: &[u8],
    offset: usize,
    n: usize,
) -> Result<()>
    requires inside { start ≤ 8 * length bytes.old.list }
    requires fits { start + n < 2 ^ 64 }
    requires source { InBytes source.now offset n }
    ensures len { OnOk result (length bytes.new.list
        ≡ max (length bytes.old.list) (div_ceil (start + n) 8)) }
    ensures bits { OnOk result (Writes (extension bytes.old.list bytes.new.list) bytes.new.list
        start (bits source.now offset n)) }
    ensures alignment { bytes.new.alignment ≡ bytes.old.alignment }
    ensures room { bytes.old.room ≤ bytes.new.room }
    ensures in_room { start + n ≤ 8 * max (length bytes.old.list) bytes.old.room → IsOk result }
    ensures stays { n ≤ 512 → start + n ≤ 8 * max (length bytes.old.list) bytes.old.room
        → bytes.new.room ≡ bytes.old.room }
    ensures err { OnErr result (bytes.new ≡ bytes.old) }
    ensures refused { IsOkUnless result BufferError.OutOfMemory }
{
    let len = bytes.len();
    let count = (start + n).div_ceil(8);
    if count <= len {
        copy(bytes, start, source, offset, n);
        return Ok(());
    }
    let added = count - len;
    if start % 8 != offset % 8 {
        bytes.push_n(0, added)?;
        copy(bytes, start, source, offset, n);
        return Ok(());
    }
    let there = 8 * len - start;
    let from = (offset + there) / 8;
    push_slice(bytes, &source[from..from + added])?;
    copy(bytes, start, source, offset, there);
    Ok(())
}
