//! A handle to an allocator that refuses one request, so that a test can make a clone of the handle
//! fail.
ghost use Rattle.std.specs.Prelude.{◌≡◌};

use crate::Refusing;
use std::alloc::{AllocError, Allocator};

/// Forwards requests for memory to another allocator, and can be cloned if that is a `&Refusing`.
///
/// Cloning a handle is a request to that `Refusing`, which counts it and may refuse it. Cloning the
/// `&Refusing` is no request, and never fails. So a test passes `&heap` to refuse only requests for
/// memory, and `Handle { inner: &heap }` to refuse clones of the allocator too.
#[derive(Drop)]
pub struct Handle<B: Allocator> {
    /// The allocator that the requests go to.
    pub inner: B,
}

impl<'a, B: Allocator> Clone for Handle<&'a Refusing<B>> {
    ghost is_clone = { λ this that. that ≡ this };

    fn clone(&self) -> Result<Handle<&'a Refusing<B>>, AllocError> {
        if self.inner.refuses_next() {
            return Err(AllocError);
        }
        Ok(Handle { inner: self.inner })
    }
}

unsafe impl<B: Allocator> Allocator for Handle<B> {
    ghost dealloc_token = { λ handle. B.dealloc_token handle.inner };

    fn allocate(&self, size: usize, align: usize) -> Result<*mut u8, AllocError> {
        self.inner.allocate(size, align)
    }

    unsafe fn deallocate(&self, ptr: *mut u8, size: usize, align: usize) {
        unsafe { self.inner.deallocate(ptr, size, align) }
    }
}

#[cfg(test)]
mod tests;
