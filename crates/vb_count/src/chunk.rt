//! Counts the set bits of a chunk of 64 bytes.
ghost use Rattle.std.specs.Prelude.{◌≡◌};
ghost use Rattle.vb_bits.specs.Bits.{bits, count};

use crate::lane_sum::LaneSum;

/// Returns the number of set bits in the chunk.
pub fn chunk_ones(chunk: &[u8; 64]) -> usize
    ensures { result ≡ count (bits chunk.now 0 512) }
{
    LaneSum::of(0).add(chunk).total()
}
