//! A source whose looks only contracts count.
ghost use Rattle.std.specs.Prelude.{◌≡◌};
ghost use Rattle.vb_count.specs.Looks.{CountedBytes};

use crate::ghost_count::GhostCount;
use crate::glance::Glance;
use std::marker::Model;
use vb_bits::{chunk_at, word_at};

/// The bytes of a slice. Only contracts count its looks: the value is no more than the slice, and
/// no instruction counts.
#[derive(Drop)]
pub struct Plain<'a> {
    data: &'a [u8],
    count: GhostCount,
}

impl<'a> Model for Plain<'a> {
    ghost Value = { CountedBytes };

    ghost view = { λ s. record { bytes = s.data.now; looks = s.count.count } };
}

impl<'a> Plain<'a> {
    /// Returns a source with these bytes and no look so far.
    pub fn new(bytes: &'a [u8]) -> Self
        ensures bytes { result.bytes ≡ bytes.now }
        ensures unseen { result.looks ≡ 0 }
    {
        Plain {
            data: bytes,
            count: GhostCount::zero(),
        }
    }
}

impl Glance for Plain<'_> {
    ghost seen = { λ s. s };

    fn size(&self) -> usize {
        self.data.len()
    }

    fn chunk(&mut self, at: usize) -> [u8; 64] {
        self.count.add_one();
        chunk_at(self.data, at)
    }

    fn word(&mut self, at: usize) -> u64 {
        self.count.add_one();
        word_at(self.data, at)
    }

    fn byte(&mut self, at: usize) -> u8 {
        self.count.add_one();
        self.data[at]
    }
}
