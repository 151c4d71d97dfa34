//! What calls are given.
ghost use Rattle.std.specs.Prelude.{◌≡◌, length, IsTrue};
ghost use Rattle.std.specs.Option.{ForSome};
ghost use Rattle.vb_view.specs.View.{bits_of};

use std::alloc::Allocator;
use vb_bit_buffer::BitBuffer;
use vb_core::Result;
use vb_mem::Buffer;
use vb_view::BitBufferView;

/// `Bits(len, n)`: `len` bits, every `n`-th of them true, beginning with the first.
#[derive(Clone, Copy)]
pub(crate) struct Bits(pub(crate) usize, pub(crate) usize);

impl Bits {
    pub(crate) fn set<A: Allocator + Clone>(&self, alloc: A) -> Result<BitBuffer<A>> {
        BitBuffer::from_iter(alloc, (0..self.0).map(|place| self.has(place)))
    }

    fn has(&self, place: usize) -> bool {
        self.1 > 0 && place % self.1 == 0
    }
}

/// The numbers from 0 on.
pub(crate) fn numbers<A: Allocator + Clone>(alloc: A, len: u32) -> Result<Buffer<u32, A>> {
    Buffer::from_trusted_len_iter(alloc, 0..len)
}

/// Whether a validity, if there is one, has so many bits.
pub(crate) fn fits(validity: Option<BitBufferView<'_>>, len: usize) -> bool
    ensures { IsTrue result → ForSome validity.entry (λ v. length (bits_of v) ≡ len) }
{
    match validity {
        Some(valid) => valid.len() == len,
        None => true,
    }
}
