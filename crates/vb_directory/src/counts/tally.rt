//! Counts whose probes are counted when a test runs.
ghost use Rattle.std.specs.Prelude.{◌≡◌, min};
ghost use Rattle.std.below.core.specs.declared.int.u64.TheConstants.{MAX};
ghost use Rattle.vb_rank.specs.Tables.{CountedEntries};

use super::{Counts, before_group};
use crate::probe_groups::ProbeGroups;
use crate::size::{BEFORE_DIGITS, GROUP_NUMBERS};
use std::alloc::Allocator;
use std::marker::Model;
use vb_count::GhostCount;

/// The counts of a slice, with a counter of their probes.
#[derive(Drop)]
pub(crate) struct TallyGroups<'a> {
    data: &'a [u16],
    count: GhostCount,
    seen: u64,
}

impl<'a> Model for TallyGroups<'a> {
    ghost Value = { CountedEntries };

    ghost view = { λ s. record { entries = s.data.now; probes = s.count.count } };

    // The counter stops at `u64::MAX`; the number in contracts does not.
    ghost invariant = { λ s. s.seen ≡ min s.count.count MAX };
}

impl<'a> TallyGroups<'a> {
    /// Returns a source of these counts, with no probe so far.
    pub(crate) fn new<A: Allocator>(counts: &'a Counts<A>) -> Self
        ensures entries { result.entries ≡ counts.now.numbers }
        ensures unread { result.probes ≡ 0 }
    {
        TallyGroups {
            data: counts.numbers.as_slice(),
            count: GhostCount::zero(),
            seen: 0,
        }
    }

    /// Returns the number of probes so far, or `u64::MAX` if there were more.
    pub(crate) fn probes(&self) -> u64
        ensures { result ≡ min self.now.probes u64.MAX }
    {
        self.seen
    }
}

impl ProbeGroups for TallyGroups<'_> {
    ghost seen = { λ s. s };

    fn before(&mut self, k: usize) -> usize {
        self.count.add_one();
        self.seen = self.seen.saturating_add(1);
        before_group(self.data, k)
    }

    fn within(&mut self, k: usize, place: usize) -> usize {
        self.count.add_one();
        self.seen = self.seen.saturating_add(1);
        usize::from(self.data[GROUP_NUMBERS * k + (BEFORE_DIGITS - 1) + place])
    }

    fn within_first(&mut self, place: usize) -> usize {
        self.count.add_one();
        self.seen = self.seen.saturating_add(1);
        usize::from(self.data[BEFORE_DIGITS - 1 + place])
    }
}
