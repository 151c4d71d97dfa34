//! An allocator that refuses one request, so that a test can make each request fail in turn. It
//! also counts the requests and their bytes, so that a test can check how much a call allocates.
ghost use Rattle.std.specs.Prelude.{◌≡◌};

use std::alloc::{AllocError, Allocator};
use std::cell::Cell;

/// Forwards requests for memory to another allocator, counts them and their bytes, and refuses one
/// of them.
///
/// A `&Refusing` is an allocator too. It can be copied, and shares the counts: the code under test
/// gets `&heap`, and the test keeps `heap`, reads its counts, and makes it refuse another request.
///
/// Each allocation, growth and shrink is one request. A refused request leaves memory unchanged.
/// Freeing a block is no request, and always succeeds. If the inner allocator fails, that counts as
/// a request, but not as the refused one.
///
/// It does not allocate for itself. Contracts can't name the value of a cell, so no clause says
/// which request is refused or how many there were; the tests of this crate check it.
#[derive(Drop)]
pub struct Refusing<B: Allocator> {
    inner: B,
    requests: Requests,
}

impl<B: Allocator> Refusing<B> {
    ghost use Rattle.vb_testing.specs.Refusing.{refusing_inner};

    /// Returns an allocator that forwards requests to `inner` and refuses request `n`, counted from
    /// 1, or none if `n` is 0.
    pub fn new(inner: B, n: u64) -> Refusing<B>
        ensures { refusing_inner result ≡ inner }
    {
        Refusing {
            inner,
            requests: Requests {
                asked: Cell::new(0),
                bytes: Cell::new(0),
                refused: Cell::new(n),
            },
        }
    }

    /// Resets the counts, and refuses request `n` from now on, counted from 1, or none if `n` is 0.
    pub fn refuse(&self, n: u64) {
        self.requests.asked.set(0);
        self.requests.bytes.set(0);
        self.requests.refused.set(n);
    }

    /// Returns the number of requests since `new` or the last `refuse`, including the refused one.
    /// The count stops at `u64::MAX`.
    pub fn asked(&self) -> u64 {
        self.requests.asked.get()
    }

    /// Returns the number of bytes requested since `new` or the last `refuse`, including those of
    /// the refused request. Growing a block requests all bytes of the larger block. The count stops
    /// at `usize::MAX`.
    pub fn asked_bytes(&self) -> usize {
        self.requests.bytes.get()
    }

    /// Returns whether `least` to `most` bytes were requested since `new` or the last `refuse`.
    /// Resets the counts, and refuses no request from now on.
    pub fn asks_within(&self, least: usize, most: usize) -> bool {
        let bytes = self.asked_bytes();
        self.refuse(0);
        least <= bytes && bytes <= most
    }

    /// Returns whether a request was refused since `new` or the last `refuse`.
    pub fn has_refused(&self) -> bool {
        let refused = self.requests.refused.get();
        refused > 0 && self.asked() >= refused
    }

    // Counts one request that isn't for memory, and returns whether it is the one to refuse.
    pub(crate) fn refuses_next(&self) -> bool {
        self.requests.refuses_next(0)
    }
}

unsafe impl<B: Allocator> Allocator for Refusing<B> {
    ghost dealloc_token = { λ heap. B.dealloc_token heap.inner };

    fn allocate(&self, size: usize, align: usize) -> Result<*mut u8, AllocError> {
        if self.requests.refuses_next(size) {
            return Err(AllocError);
        }
        self.inner.allocate(size, align)
    }

    unsafe fn deallocate(&self, ptr: *mut u8, size: usize, align: usize) {
        unsafe { self.inner.deallocate(ptr, size, align) }
    }
}

/// The number of requests and of their bytes so far, and the number of the request to refuse, or 0
/// if none is refused.
#[derive(Drop)]
struct Requests {
    asked: Cell<u64>,
    bytes: Cell<usize>,
    refused: Cell<u64>,
}

impl Requests {
    // Counts one request for `size` bytes, and returns whether it is the one to refuse.
    fn refuses_next(&self, size: usize) -> bool {
        let number = self.asked.get().saturating_add(1);
        self.asked.set(number);
        self.bytes.set(self.bytes.get().saturating_add(size));
        number == self.refused.get()
    }
}

#[cfg(test)]
mod tests;
