//! Counts by groups, whose every read is counted by contracts, and the levels that a search reads.
ghost use Rattle.std.specs.Prelude.{◌≡◌, ℕ, List, ◌+◌, ◌-◌, ◌*◌, ◌<◌, ◌≤◌, length, slice_index};
ghost use Rattle.vb_directory.specs.Counts.{count_before_group, count_in_group};
ghost use Rattle.vb_directory.specs.Counts.{counts_before, counts_within};
ghost use Rattle.vb_rank.specs.Tables.{CountedEntries, ProbesExactly};

use crate::size::{BEFORE_DIGITS, GROUP_NUMBERS};
use vb_rank::Level;

/// Counts by groups that never change.
///
/// Each call of [`before`](ProbeGroups::before), [`within`](ProbeGroups::within) or
/// [`within_first`](ProbeGroups::within_first) is one probe, and there is no other way to read a
/// count. So a function that is generic over `ProbeGroups` can't read more often than its contract
/// says.
pub(crate) trait ProbeGroups {
    // The numbers, which no call changes, and the number of probes so far.
    ghost seen: { Self → CountedEntries };

    /// Returns the number of set bits before group `k`, by one probe.
    fn before(&mut self, k: usize) -> usize
        requires { GROUP_NUMBERS * k + BEFORE_DIGITS ≤ length (seen self.old).entries }
        ensures value { result ≡ count_before_group (seen self.old).entries k }
        ensures probe { ProbesExactly 1 (seen self.old) (seen self.new) };

    /// Returns the number of set bits of group `k` before its block `place`, which must not be its
    /// first one, by one probe.
    fn within(&mut self, k: usize, place: usize) -> usize
        requires some { 0 < place }
        requires number { GROUP_NUMBERS * k + BEFORE_DIGITS + place
            ≤ length (seen self.old).entries }
        ensures value { result ≡ count_in_group (seen self.old).entries k place }
        ensures probe { ProbesExactly 1 (seen self.old) (seen self.new) };

    /// Returns the number of set bits before block `place` of the first group, by one probe. It
    /// needs no branch for the first block: there it reads the highest digit of the count before
    /// the group, which is 0.
    fn within_first(&mut self, place: usize) -> usize
        requires { BEFORE_DIGITS + place ≤ length (seen self.old).entries }
        ensures value { result ≡ slice_index (seen self.old).entries (BEFORE_DIGITS - 1 + place) }
        ensures probe { ProbesExactly 1 (seen self.old) (seen self.new) };
}

/// The level of the counts before the groups.
#[derive(Clone, Copy, Drop)]
pub(crate) struct Befores;

impl<S: ProbeGroups> Level<S> for Befores {
    ghost Held = { List ℕ };

    ghost held = { λ s. (S.seen s).entries };

    ghost seen = { λ _ s. record {
      entries = counts_before (S.seen s).entries;
      probes = (S.seen s).probes;
    } };

    fn entry(&self, groups: &mut S, j: usize) -> usize {
        groups.before(j)
    }
}

/// The level of the counts before the first `blocks` blocks of group `group`.
#[derive(Clone, Copy, Drop)]
pub(crate) struct Withins {
    pub(crate) group: usize,
    pub(crate) blocks: usize,
}

impl<S: ProbeGroups> Level<S> for Withins {
    ghost Held = { List ℕ };

    ghost held = { λ s. (S.seen s).entries };

    ghost seen = { λ w s. record {
      entries = counts_within (S.seen s).entries w.group w.blocks;
      probes = (S.seen s).probes;
    } };

    fn entry(&self, groups: &mut S, j: usize) -> usize {
        groups.within(self.group, j)
    }
}
