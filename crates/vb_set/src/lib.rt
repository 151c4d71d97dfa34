//! Owned sets of bits over byte buffers: [`BitBufferMut`], which one owner edits, and
//! [`BitBuffer`], whose storage several owners may share, with conversions between them.
//!
//! A set is a list of truth values: the window of its bytes that begins at bit `offset`, least
//! significant bit first. Bits outside the window never affect a result. Lengths, offsets and
//! indices are in bits; an offset plus a length always fits in `usize`. A "must" in a docstring is
//! a condition that the caller has to prove.
#![tactic(auto)]

mod bit_appender;
mod bit_buffer_mut;
mod try_into_mut;

pub use bit_appender::BitAppender;
pub use bit_buffer_mut::BitBufferMut;
pub use try_into_mut::TryIntoMut;
pub use vb_bit_buffer::{BitBuffer, ToBitBuffer};
pub use vb_bits::{BitOp, window_fits};
pub use vb_core::{BitIndex, BufferError, Result};
pub use vb_mem::{ByteBuffer, ByteBufferMut};
pub use vb_view::{BitBufferMeta, BitBufferMutView, BitBufferView, BitStore};
pub use vb_walk::{
    BitChunkIterator, BitChunks, BitIndexIterator, BitIterator, BitSliceIterator,
    PaddedChunkIterator, UnalignedBitChunk, UnalignedBitChunkIterator,
};
