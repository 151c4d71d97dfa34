//! Iterates over the bits of borrowed bytes: over the bits, their words, the indices of set bits
//! and their runs.
//!
//! A window is the `len` bits from bit `offset` on, least significant first. The caller must prove
//! that it is in bounds and that `offset + len` fits in a `usize`; `vb_bits::window_fits` tests
//! both at run time. Lengths, offsets and indices are in bits. No call allocates.
#![tactic(auto)]

mod bit;
mod chunks;
mod cursor;
mod index;
mod ones;
mod other_word;
mod run;
mod slices;
mod unaligned;

pub use bit::BitIterator;
pub use chunks::{BitChunkIterator, BitChunks, PaddedChunkIterator};
pub use index::BitIndexIterator;
pub use ones::lowest_run;
pub use other_word::{OtherWord, first_other, others};
pub use run::LowestRun;
pub use slices::BitSliceIterator;
pub use unaligned::{UnalignedBitChunk, UnalignedBitChunkIterator};
