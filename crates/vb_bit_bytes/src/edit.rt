//! Edits in place.
ghost use Rattle.std.specs.Prelude.{◌≡◌, ◌+◌, ◌-◌, ◌*◌, ◌/◌, ◌^◌, ◌<◌, ◌≤◌, [], ◌∷◌};
ghost use Rattle.std.specs.Prelude.{length, replicate};
ghost use Rattle.vb_bits.specs.Bits.{bits, complement};
ghost use Rattle.vb_bits.specs.InBytes.{InBytes};
ghost use Rattle.vb_bits.specs.Operators.{combined_by};
ghost use Rattle.vb_bits.specs.Writes.{Writes};

use std::alloc::Allocator;
use vb_bits::{BitOp, copy_bits, fill_bits, map_words, set_bit_to, zip_words};
use vb_mem::ByteBufferMut;

/// Sets bit `i` to `v`. The bit must be in the bytes.
pub fn write_bit<A: Allocator + Clone>(bytes: &mut ByteBufferMut<A>, i: usize, v: bool)
    requires { i / 8 < length bytes.old.list }
    ensures bits { Writes bytes.old.list bytes.new.list i (v ∷ []) }
    ensures keeps { bytes.new ≡ record bytes.old { list = bytes.new.list } }
{
    set_bit_to(bytes.as_mut_slice(), i, v);
}

/// Sets bits `start..end` to `v`, whole bytes at a time. `end` must be in bounds of the bytes. If
/// `end` is at most `start`, nothing changes.
pub fn fill<A: Allocator + Clone>(bytes: &mut ByteBufferMut<A>, start: usize, end: usize, v: bool)
    requires { end ≤ 8 * length bytes.old.list }
    ensures bits { Writes bytes.old.list bytes.new.list start (replicate (end - start) v) }
    ensures keeps { bytes.new ≡ record bytes.old { list = bytes.new.list } }
{
    fill_bits(bytes.as_mut_slice(), start, end, v);
}

/// Negates the `len` bits from bit `offset` on, 32 bytes at a time.
pub fn negate<A: Allocator + Clone>(bytes: &mut ByteBufferMut<A>, offset: usize, len: usize)
    requires window { InBytes bytes.old.list offset len }
    ensures bits { Writes bytes.old.list bytes.new.list offset
        (complement (bits bytes.old.list offset len)) }
    ensures keeps { bytes.new ≡ record bytes.old { list = bytes.new.list } }
{
    map_words(bytes.as_mut_slice(), offset, len);
}

/// Combines the `len` bits from bit `offset` on, as the left operand of `op`, with the `len` bits
/// of `right` from bit `start` on, and writes the result over the left bits. Processes whole words
/// at any two offsets.
pub fn combine<A: Allocator + Clone>(
    bytes: &mut ByteBufferMut<A>,
    offset: usize,
    right: &[u8],
    start: usize,
    len: usize,
    op: BitOp,
)
    requires window { InBytes bytes.old.list offset len }
    requires right { InBytes right.now start len }
    ensures bits { Writes bytes.old.list bytes.new.list offset
        (combined_by op (bits bytes.old.list offset len) (bits right.now start len)) }
    ensures keeps { bytes.new ≡ record bytes.old { list = bytes.new.list } }
{
    zip_words(bytes.as_mut_slice(), offset, right, start, len, op);
}

/// Copies the `len` bits of `from` from bit `start` on to the bits from bit `offset` on. Processes
/// whole words at any two offsets.
pub fn copy<A: Allocator + Clone>(
    bytes: &mut ByteBufferMut<A>,
    offset: usize,
    from: &[u8],
    start: usize,
    len: usize,
)
    requires window { InBytes bytes.old.list offset len }
    requires source { InBytes from.now start len }
    ensures bits { Writes bytes.old.list bytes.new.list offset (bits from.now start len) }
    ensures keeps { bytes.new ≡ record bytes.old { list = bytes.new.list } }
{
    copy_bits(bytes.as_mut_slice(), offset, from, start, len);
}
