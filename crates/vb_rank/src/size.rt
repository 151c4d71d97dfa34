//! The size of a block.

/// The number of bits of a block, which has one entry in the table.
pub const BLOCK_BITS: usize = 512;
