//! A directory of counts in half the memory, for sets of fewer than `2^32` bits.
ghost use Rattle.std.specs.Prelude.{◌≡◌, ◌*◌, ◌^◌, ◌<◌, ◌≤◌, length};
ghost use Rattle.vortex_buffer.specs.Bits.{bits, Selects};
ghost use Rattle.vortex_buffer.specs.Tables.{block_counts, blocks};

use std::marker::Model;
use vortex_buffer::{GhostCount, Plain, Probe, select_by};

/// A table of counts, of four bytes each.
#[derive(Drop)]
pub struct Narrow<'a> {
    counts: &'a [u32],
    probes: GhostCount,
}

impl<'a> Model for Narrow<'a> {
    ghost use Rattle.vortex_buffer.specs.Tables.{CountedEntries};

    ghost Value = { CountedEntries };

    ghost view = { λ s. record { entries = s.counts.now; probes = s.probes.count } };
}

impl<'a> Narrow<'a> {
    /// Returns the table of these counts, without probes so far.
    pub fn new(counts: &'a [u32]) -> Self
        ensures entries { result.entries ≡ counts.now }
        ensures unread { result.probes ≡ 0 }
    {
        Narrow {
            counts,
            probes: GhostCount::zero(),
        }
    }
}

impl Probe for Narrow<'_> {
    ghost seen = { λ s. s };

    fn size(&self) -> usize {
        self.counts.len()
    }

    fn entry(&mut self, j: usize) -> usize {
        self.probes.add_one();
        self.counts[j] as usize
    }
}

/// Returns the index of the `n`-th set bit of the first `len` bits, counted from 0; `None` if at
/// most `n` are set. `counts` must be the numbers of set bits before each block of 512 bits.
pub fn select_narrow(bytes: &[u8], len: usize, counts: &[u32], n: usize) -> Option<usize>
    requires inside { len ≤ 8 * length bytes.now }
    requires size { length counts.now ≡ blocks len }
    ensures { counts.now ≡ block_counts (bits bytes.now 0 len)
        → Selects (bits bytes.now 0 len) n result }
{
    select_by(&mut Plain::new(bytes), 0, len, &mut Narrow::new(counts), n)
}
