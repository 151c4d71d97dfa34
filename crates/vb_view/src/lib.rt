//! Views of bits over borrowed bytes, with iterators over their bits, words, set bits and runs.
//!
//! Bit `i` of bytes is bit `i % 8` of byte `i / 8`, least significant first. A window is the `len`
//! bits from bit `offset` on. It must end within the bytes, and `offset + len` must fit in a
//! `usize`; `vb_bits::window_fits` tests both. Lengths, offsets and indices are in bits. A "must"
//! in a docstring is a condition that the caller has to prove. No call allocates.
#![tactic(auto)]

mod meta;
mod mut_view;
mod shown;
mod traits;
mod view;
mod word;

pub use meta::BitBufferMeta;
pub use mut_view::{BitBufferMutView, BitStore};
pub use vb_walk::{
    BitChunkIterator, BitChunks, BitIndexIterator, BitIterator, BitSliceIterator,
    PaddedChunkIterator, UnalignedBitChunk, UnalignedBitChunkIterator,
};
pub use view::BitBufferView;
pub use word::view_word;
