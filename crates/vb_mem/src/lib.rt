//! List buffers: growing lists of whole numbers, and lists that share their storage.
//!
//! A [`BufferMut`] owns its storage and grows. [`BufferMut::freeze`] converts it to a [`Buffer`],
//! which callers clone and slice without a copy. [`Buffer::into_mut`] converts a `Buffer` back to a
//! `BufferMut`. No owner sees the writes of another one. A "must" in a docstring is a condition
//! that the caller has to prove.
#![tactic(auto)]

mod buffer;
mod buffer_mut;
mod content;
mod iter;
mod traits;
mod window;

pub use buffer::Buffer;
pub use buffer_mut::BufferMut;
pub use iter::{BufferIterator, Iter};
use std::alloc::Global;
pub use vb_core::Result;

/// A buffer of bytes.
pub type ByteBuffer<A = Global> = Buffer<u8, A>;

/// A growing buffer of bytes.
pub type ByteBufferMut<A = Global> = BufferMut<u8, A>;
