//! The counts that a search reads, with the number of reads.
ghost use Rattle.std.specs.Prelude.{◌≡◌, ℕ, List, ◌<◌, length, slice_index};
ghost use Rattle.vb_rank.specs.Tables.{CountedEntries, ProbesExactly};

use crate::probe::Probe;

/// The counts of a source `S` that one search reads. Each call of [`entry`](Level::entry) is one
/// probe of the source.
pub trait Level<S> {
    // All that the source has; no call changes it.
    ghost Held: { Type 0 };

    ghost held: { S → Held };

    // These counts, and the number of probes that the source has had.
    ghost seen: { Self → S → CountedEntries };

    /// Returns count `j`, by one probe. `j` must be above 0, since count 0 is 0, and below the
    /// number of counts.
    fn entry(&self, source: &mut S, j: usize) -> usize
        requires some { 0 < j }
        requires within { j < length (seen self.now source.old).entries }
        ensures value { result ≡ slice_index (seen self.now source.old).entries j }
        ensures same { held source.new ≡ held source.old }
        ensures probe { ProbesExactly 1 (seen self.now source.old) (seen self.now source.new) };
}

/// The level of all entries of a table.
#[derive(Drop)]
pub(crate) struct Entries;

impl<T: Probe> Level<T> for Entries {
    ghost Held = { List ℕ };

    ghost held = { λ t. (T.seen t).entries };

    ghost seen = { λ _ t. T.seen t };

    fn entry(&self, table: &mut T, j: usize) -> usize {
        table.entry(j)
    }
}
