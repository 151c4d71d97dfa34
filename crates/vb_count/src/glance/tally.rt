//! A source whose looks are counted at run time.
ghost use Rattle.std.specs.Prelude.{◌≡◌, min};
ghost use Rattle.std.below.core.specs.declared.int.u64.TheConstants.{MAX};
ghost use Rattle.vb_count.specs.Looks.{CountedBytes, LooksExactly};

use crate::ghost_count::GhostCount;
use crate::glance::Glance;
use std::marker::Model;
use vb_bits::{chunk_at, word_at};

/// The bytes of a slice, and the number of looks at them.
#[derive(Drop)]
pub struct Tally<'a> {
    data: &'a [u8],
    count: GhostCount,
    seen: u64,
}

impl<'a> Model for Tally<'a> {
    ghost Value = { CountedBytes };

    ghost view = { λ s. record { bytes = s.data.now; looks = s.count.count } };

    // The counter stops at `u64::MAX`; the count in contracts doesn't.
    ghost invariant = { λ s. s.seen ≡ min s.count.count MAX };
}

impl<'a> Tally<'a> {
    /// Returns a source with these bytes and no look so far.
    pub fn new(bytes: &'a [u8]) -> Self
        ensures bytes { result.bytes ≡ bytes.now }
        ensures unseen { result.looks ≡ 0 }
    {
        Tally {
            data: bytes,
            count: GhostCount::zero(),
            seen: 0,
        }
    }

    /// Returns the number of looks, or `u64::MAX` if there were more.
    pub fn looks(&self) -> u64
        ensures { result ≡ min self.now.looks u64.MAX }
    {
        self.seen
    }

    /// Counts one more look.
    fn look(&mut self)
        ensures { LooksExactly 1 self.old self.new }
    {
        self.count.add_one();
        self.seen = self.seen.saturating_add(1);
    }
}

impl Glance for Tally<'_> {
    ghost seen = { λ s. s };

    fn size(&self) -> usize {
        self.data.len()
    }

    fn chunk(&mut self, at: usize) -> [u8; 64] {
        self.look();
        chunk_at(self.data, at)
    }

    fn word(&mut self, at: usize) -> u64 {
        self.look();
        word_at(self.data, at)
    }

    fn byte(&mut self, at: usize) -> u8 {
        self.look();
        self.data[at]
    }
}
