//! The position of bits in bytes.
ghost use Rattle.std.specs.Prelude.{◌≡◌, ◌+◌, ◌-◌, ◌/◌, ◌%◌, ◌^◌, ◌<◌, ◌≤◌, ◌==◌};
ghost use Rattle.std.specs.Int.{div_ceil};

use std::ops::Range;

/// The offset of bits in their first byte, and their number. Contracts see both fields.
#[derive(Clone, Copy, Debug, PartialEq, Eq, Hash)]
pub struct BitBufferMeta {
    offset: usize,
    len: usize,
    ghost in_byte: { offset < 8 },
    ghost fits: { offset + len < 2 ^ 64 },
}

impl BitBufferMeta {
    /// Describes `len` bits from bit `offset` on. `offset` must be below 8, and `offset + len` must
    /// fit in a `usize`.
    pub fn new(offset: usize, len: usize) -> Self
        requires in_byte { offset < 8 }
        requires fits { offset + len < 2 ^ 64 }
        ensures offset { result.offset ≡ offset }
        ensures len { result.len ≡ len }
    {
        BitBufferMeta { offset, len }
    }

    /// Returns the index of the byte that has bit `offset`, and a description of the `len` bits
    /// from that bit on, relative to that byte. `offset % 8 + len` must fit in a `usize`.
    pub fn from_raw_offset(offset: usize, len: usize) -> (usize, Self)
        requires { offset % 8 + len < 2 ^ 64 }
        ensures byte { result.0 ≡ offset / 8 }
        ensures offset { result.1.offset ≡ offset % 8 }
        ensures len { result.1.len ≡ len }
    {
        (offset / 8, BitBufferMeta::new(offset % 8, len))
    }

    /// Returns the index of the byte in which `range` begins, and a description of the bits of
    /// `range`, relative to that byte. `range` must be in order and end within the length.
    pub fn slice(&self, range: Range<usize>) -> (usize, Self)
        requires order { range.start ≤ range.end }
        requires within { range.end ≤ self.now.len }
        ensures byte { result.0 ≡ (self.now.offset + range.start) / 8 }
        ensures offset { result.1.offset ≡ (self.now.offset + range.start) % 8 }
        ensures len { result.1.len ≡ range.end - range.start }
    {
        BitBufferMeta::from_raw_offset(self.offset + range.start, range.end - range.start)
    }

    /// Returns the offset of the first bit in its byte, below 8.
    pub fn offset(&self) -> usize
        ensures value { result ≡ self.now.offset }
        ensures in_byte { result < 8 }
    {
        self.offset
    }

    /// Returns the number of bits.
    pub fn len(&self) -> usize
        ensures value { result ≡ self.now.len }
        ensures fits { self.now.offset + result < 2 ^ 64 }
    {
        self.len
    }

    /// Returns whether there are no bits.
    pub fn is_empty(&self) -> bool
        ensures { result ≡ (self.now.len == 0) }
    {
        self.len == 0
    }

    /// Returns the number of bytes that the bits span, from the byte of the offset on:
    /// `(offset + len) / 8`, rounded up.
    pub fn byte_len(&self) -> usize
        ensures { result ≡ div_ceil (self.now.offset + self.now.len) 8 }
    {
        (self.offset + self.len).div_ceil(8)
    }
}
