//! Sources of bytes whose reads are counted.
mod plain;
mod tally;
mod wide;

ghost use Rattle.std.specs.Prelude.{◌≡◌, ◌+◌, ◌<◌, ◌≤◌, length, slice_index, slice_range};
ghost use Rattle.std.specs.Int.{w64, to_le_bytes};
ghost use Rattle.vb_count.specs.Looks.{CountedBytes, LooksExactly};

pub use plain::Plain;
pub use tally::Tally;
pub use wide::Wide;

/// A source of bytes that never change.
///
/// Each call of [`chunk`](Glance::chunk), [`word`](Glance::word) or [`byte`](Glance::byte) is one
/// look, and no other call returns bytes. So a function that is generic over `Glance` can neither
/// read more nor read more often than its contract says.
///
/// The `look` clauses bind only the ghost count of an implementation, not its real reads.
pub trait Glance {
    // The bytes, which no call changes, and the number of looks so far.
    ghost seen: { Self → CountedBytes };

    /// Whether adders count windows of 64 chunks and more, and not only of 8 MiB and more. This is
    /// slower with vectors of 16 bytes (x86-64-v2) and faster with wider ones. It changes neither
    /// results nor looks.
    const IS_WIDE: bool = false;

    /// Returns the number of bytes.
    fn size(&self) -> usize
        ensures { result ≡ length (seen self.now).bytes };

    /// Returns the 64 bytes from byte `at` on, by one look. The caller must prove that they are in
    /// bounds.
    fn chunk(&mut self, at: usize) -> [u8; 64]
        requires { at + 64 ≤ length (seen self.old).bytes }
        ensures value { result ≡ slice_range (seen self.old).bytes at (at + 64) }
        ensures look { LooksExactly 1 (seen self.old) (seen self.new) };

    /// Returns the eight bytes from byte `at` on as a number, least significant first, by one look.
    /// The caller must prove that they are in bounds.
    fn word(&mut self, at: usize) -> u64
        requires { at + 8 ≤ length (seen self.old).bytes }
        ensures value { to_le_bytes w64 result ≡ slice_range (seen self.old).bytes at (at + 8) }
        ensures look { LooksExactly 1 (seen self.old) (seen self.new) };

    /// Returns byte `at`, by one look. The caller must prove that it is in bounds.
    fn byte(&mut self, at: usize) -> u8
        requires { at < length (seen self.old).bytes }
        ensures value { result ≡ slice_index (seen self.old).bytes at }
        ensures look { LooksExactly 1 (seen self.old) (seen self.new) };
}
