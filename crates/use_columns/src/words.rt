//! Bits, read word by word.
ghost use Rattle.std.specs.Prelude.{◌≡◌};
ghost use Rattle.vortex_buffer.specs.Bits.{bits, count};
ghost use Rattle.vortex_buffer.specs.InBytes.{InBytes};

use vortex_buffer::BitChunks;

/// Returns the number of set bits of the window, counted word by word.
pub fn count_words(bytes: &[u8], offset: usize, len: usize) -> usize
    requires window { InBytes bytes.now offset len }
    ensures { result ≡ count (bits bytes.now offset len) }
{
    let mut ones = 0;
    for word in BitChunks::new(bytes, offset, len).iter_padded() {
        ones += word.count_ones() as usize;
    }
    ones
}
