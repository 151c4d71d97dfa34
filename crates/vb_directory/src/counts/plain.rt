//! Counts whose probes are counted in contracts alone.
ghost use Rattle.std.specs.Prelude.{◌≡◌};
ghost use Rattle.vb_rank.specs.Tables.{CountedEntries};

use super::before_group;
use crate::probe_groups::ProbeGroups;
use crate::size::{BEFORE_DIGITS, GROUP_NUMBERS};
use std::marker::Model;
use vb_count::GhostCount;

/// The counts of a slice. Only contracts count their probes: in a program the value is the slice,
/// and nothing is counted at run time.
#[derive(Drop)]
pub(crate) struct PlainGroups<'a> {
    data: &'a [u16],
    count: GhostCount,
}

impl<'a> Model for PlainGroups<'a> {
    ghost Value = { CountedEntries };

    ghost view = { λ s. record { entries = s.data.now; probes = s.count.count } };
}

impl<'a> PlainGroups<'a> {
    /// Returns a source of these numbers, with no probe so far.
    pub(super) fn new(numbers: &'a [u16]) -> Self
        ensures entries { result.entries ≡ numbers.now }
        ensures unread { result.probes ≡ 0 }
    {
        PlainGroups {
            data: numbers,
            count: GhostCount::zero(),
        }
    }
}

impl ProbeGroups for PlainGroups<'_> {
    ghost seen = { λ s. s };

    fn before(&mut self, k: usize) -> usize {
        self.count.add_one();
        before_group(self.data, k)
    }

    fn within(&mut self, k: usize, place: usize) -> usize {
        self.count.add_one();
        usize::from(self.data[GROUP_NUMBERS * k + (BEFORE_DIGITS - 1) + place])
    }

    fn within_first(&mut self, place: usize) -> usize {
        self.count.add_one();
        usize::from(self.data[BEFORE_DIGITS - 1 + place])
    }
}
