//! A source whose chunks adders count.
ghost use Rattle.std.specs.Prelude.{◌≡◌};
ghost use Rattle.vb_count.specs.Looks.{CountedBytes};

use crate::glance::Glance;
use std::marker::Model;

/// The bytes of another source, with the same looks. Adders count its chunks, if there are many
/// ([`IS_WIDE`](Glance::IS_WIDE)).
#[derive(Drop)]
pub struct Wide<G: Glance> {
    source: G,
}

impl<G: Glance> Model for Wide<G> {
    ghost Value = { CountedBytes };

    ghost view = { λ s. G.seen s.source };
}

impl<G: Glance> Wide<G> {
    /// Returns a source with the bytes of `source` and its looks so far.
    pub fn new(source: G) -> Self
        ensures { result ≡ G.seen source }
    {
        Wide { source }
    }
}

impl<G: Glance> Glance for Wide<G> {
    ghost seen = { λ s. s };

    const IS_WIDE: bool = true;

    fn size(&self) -> usize {
        self.source.size()
    }

    fn chunk(&mut self, at: usize) -> [u8; 64] {
        self.source.chunk(at)
    }

    fn word(&mut self, at: usize) -> u64 {
        self.source.word(at)
    }

    fn byte(&mut self, at: usize) -> u8 {
        self.source.byte(at)
    }
}
