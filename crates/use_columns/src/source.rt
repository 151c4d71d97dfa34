//! A source of bits that counts the bytes that are read from it.
ghost use Rattle.std.specs.Prelude.{◌≡◌, ◌+◌, ◌*◌, ◌^◌, ◌<◌, ◌≤◌, length, min, slice_range};
ghost use Rattle.std.below.core.specs.declared.int.u64.TheConstants.{MAX};
ghost use Rattle.vortex_buffer.specs.Bits.{bits, count};
ghost use Rattle.vortex_buffer.specs.InBytes.{InBytes};
ghost use Rattle.vortex_buffer.specs.Looks.{looks};

use std::marker::Model;
use vortex_buffer::{GhostCount, Glance, count_ones_by};

/// The bytes of a slice, and the number of bytes read.
#[derive(Drop)]
pub struct Metered<'a> {
    data: &'a [u8],
    count: GhostCount,
    read: u64,
}

impl<'a> Model for Metered<'a> {
    ghost use Rattle.std.specs.Prelude.{◌*◌, ◌≤◌};
    ghost use Rattle.use_columns.specs.Sources.{MeteredBytes};

    ghost Value = { MeteredBytes };

    ghost view = { λ s. record { bytes = s.data.now; looks = s.count.count; read = s.read } };

    ghost invariant = { λ s. s.read ≤ 64 * s.count.count };
}

impl<'a> Metered<'a> {
    /// Returns the source of these bytes, of which none has been read.
    pub fn new(bytes: &'a [u8]) -> Self
        ensures bytes { result.bytes ≡ bytes.now }
        ensures unseen { result.looks ≡ 0 }
        ensures unread { result.read ≡ 0 }
    {
        Metered {
            data: bytes,
            count: GhostCount::zero(),
            read: 0,
        }
    }

    /// Returns the number of bytes read; bytes that are read twice count twice. It is `u64::MAX` if
    /// there are more.
    pub fn bytes_read(&self) -> u64
        ensures value { result ≡ self.now.read }
        ensures most { result ≤ 64 * self.now.looks }
    {
        self.read
    }

    // Returns the `N` bytes from byte `at` on, at most 64, by one look.
    fn look<const N: usize>(&mut self, at: usize) -> [u8; N]
        requires few { N ≤ 64 }
        requires inside { at + N ≤ length self.old.bytes }
        ensures value { result ≡ slice_range self.old.bytes at (at + N) }
        ensures bytes { self.new.bytes ≡ self.old.bytes }
        ensures look { self.new.looks ≡ self.old.looks + 1 }
        ensures read { self.new.read ≡ min (self.old.read + N) u64.MAX }
    {
        self.count.add_one();
        self.read = self.read.saturating_add(N as u64);
        let mut bytes = [0; N];
        bytes.copy_from_slice(&self.data[at..at + N]);
        bytes
    }
}

impl Glance for Metered<'_> {
    ghost seen = { λ s. record { bytes = s.bytes; looks = s.looks } };

    fn size(&self) -> usize {
        self.data.len()
    }

    fn chunk(&mut self, at: usize) -> [u8; 64] {
        self.look(at)
    }

    fn word(&mut self, at: usize) -> u64 {
        u64::from_le_bytes(self.look(at))
    }

    fn byte(&mut self, at: usize) -> u8 {
        self.look::<1>(at)[0]
    }
}

/// Returns the number of set bits of a window, and the number of bytes read for it: at most 64 per
/// look.
pub fn count_metered(bytes: &[u8], offset: usize, len: usize) -> (usize, u64)
    requires window { InBytes bytes.now offset len }
    ensures count { result.0 ≡ count (bits bytes.now offset len) }
    ensures read { result.1 ≤ 64 * looks offset len }
{
    let mut source = Metered::new(bytes);
    let ones = count_ones_by(&mut source, offset, len);
    (ones, source.bytes_read())
}
