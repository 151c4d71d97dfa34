//! Iterators over the items of a buffer.
ghost use Rattle.std.specs.Prelude.{◌≡◌};
ghost use Rattle.std.specs.Slice.Iter.{iter_rest};

use crate::buffer::Buffer;
use crate::buffer_mut::BufferMut;
use std::alloc::{Allocator, Global};
use vb_core::{Element, HasItems, OwnedItems};

/// An iterator over the items of a buffer, by reference.
pub type Iter<'a, T> = std::slice::Iter<'a, T>;

/// An iterator over the items of a buffer, from either end. It owns the buffer.
pub type BufferIterator<T, A = Global> = OwnedItems<Buffer<T, A>>;

impl<T: Element, A: Allocator> HasItems for Buffer<T, A> {
    type Item = T;

    ghost items = { λ b. b.list };

    fn items(&self) -> &[T] {
        self.as_slice()
    }
}

impl<T: Element, A: Allocator> Buffer<T, A> {
    /// Returns an iterator over the items, by reference.
    pub fn iter(&self) -> Iter<'_, T>
        ensures { iter_rest result ≡ self.now.list }
    {
        self.as_slice().iter()
    }
}

impl<T: Element, A: Allocator> IntoIterator for Buffer<T, A> {
    type Item = T;

    type IntoIter = BufferIterator<T, A>;

    ghost into_iter_gives = { λ b it. it ≡ b.list };

    fn into_iter(self) -> BufferIterator<T, A> {
        OwnedItems::new(self)
    }
}

impl<'a, T: Element, A: Allocator> IntoIterator for &'a Buffer<T, A> {
    type Item = &'a T;

    type IntoIter = Iter<'a, T>;

    ghost into_iter_gives = { λ b it. iter_rest it ≡ b.now.list };

    fn into_iter(self) -> Iter<'a, T> {
        self.as_slice().iter()
    }
}

impl<'a, T: Element, A: Allocator> IntoIterator for &'a BufferMut<T, A> {
    type Item = &'a T;

    type IntoIter = Iter<'a, T>;

    ghost into_iter_gives = { λ b it. iter_rest it ≡ b.now.list };

    fn into_iter(self) -> Iter<'a, T> {
        self.as_slice().iter()
    }
}
