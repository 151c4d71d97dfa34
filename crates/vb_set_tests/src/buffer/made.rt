//! Lists and sets to start from. No clause says what they hold, since the proof of a test would
//! search among these facts at each of its calls.
use std::alloc::Allocator;
use vb_bit_buffer::BitBuffer;
use vb_bits::{set_bit_to, window_fits};
use vb_core::{BufferError, Result};
use vb_mem::{BufferMut, ByteBuffer};

/// How many bits the longest list of a table has.
pub(crate) const LONGEST: usize = 200;

/// Enough bytes for the longest list, at the greatest offset.
const BYTES: usize = 30;

/// A byte that a seed and an index determine.
fn noise(seed: usize, place: usize) -> u8 {
    let mixed = seed
        .wrapping_mul(0x9E37_79B9)
        .wrapping_add(place)
        .wrapping_mul(0xC2B2_AE3D_27D4_EB4F);
    ((mixed >> 40) & 0xFF) as u8
}

/// Bits that a seed determines.
pub(crate) fn list(seed: usize) -> [bool; LONGEST] {
    let mut bits = [false; LONGEST];
    for (place, bit) in bits.iter_mut().enumerate() {
        *bit = noise(seed, place) & 1 == 1;
    }
    bits
}

/// The first `len` bits of a list; all of them if it has fewer.
pub(crate) fn front(list: &[bool], len: usize) -> &[bool] {
    &list[..len.min(list.len())]
}

/// The bits of a list, from bit `offset` on in bytes of noise.
pub(crate) fn set<A: Allocator + Clone>(
    alloc: A,
    list: &[bool],
    offset: usize,
) -> Result<BitBuffer<A>> {
    let mut bytes = BufferMut::zeroed(alloc, BYTES)?;
    write(bytes.as_mut_slice(), list, offset);
    window(bytes.freeze(), offset, list.len())
}

/// Writes noise, and the bits of a list from bit `offset` on.
fn write(bytes: &mut [u8], list: &[bool], offset: usize) {
    for (place, byte) in bytes.iter_mut().enumerate() {
        *byte = noise(offset, place);
    }
    for (i, bit) in list.iter().enumerate() {
        let place = offset.saturating_add(i);
        if place / 8 < bytes.len() {
            set_bit_to(bytes, place, *bit);
        }
    }
}

/// True bits, from bit `offset` on.
pub(crate) fn ones<A: Allocator + Clone>(
    alloc: A,
    offset: usize,
    len: usize,
) -> Result<BitBuffer<A>> {
    window(ByteBuffer::full(alloc, 0xFF, BYTES), offset, len)
}

/// A window of bytes that were made.
pub(crate) fn window<A: Allocator + Clone>(
    made: Result<ByteBuffer<A>>,
    offset: usize,
    len: usize,
) -> Result<BitBuffer<A>> {
    let bytes = made?;
    if window_fits(bytes.as_slice(), offset, len) {
        return Ok(BitBuffer::new_with_offset(bytes, len, offset));
    }
    drop(bytes);
    Err(BufferError::NotAligned)
}

/// The bits of a set from `start` up to `end`, or to its end.
pub(crate) fn part<A: Allocator + Clone>(
    set: &BitBuffer<A>,
    start: usize,
    end: usize,
) -> Result<BitBuffer<A>> {
    let end = end.min(set.len());
    set.slice(start.min(end)..end)
}
