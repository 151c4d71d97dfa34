//! Bits appended to bytes, a word at a time.
ghost use Rattle.std.specs.Prelude.{◌≡◌, ◌+◌, ◌*◌, ◌/◌, ◌%◌, ◌^◌, ◌<◌, ◌≤◌, ◌++◌, length};
ghost use Rattle.vb_bits.specs.Bits.{bits};
ghost use Rattle.vb_bits.specs.Digits.{digits};
ghost use Rattle.vb_bits.specs.InBytes.{InBytes};
ghost use Rattle.vb_bits.specs.Writes.{Writes};
ghost use Rattle.vb_filter.specs.Pending.{first_bits};

use vb_bits::{write_digits, write_word};

/// Appends the `n` lowest bits of `word` to the `len` bits written so far, and returns the word
/// that is pending then. Writes the pending word once it is full.
pub(crate) fn push_digits(out: &mut [u8], pending: u64, len: usize, word: u64, n: usize) -> u64
    requires few { n ≤ 64 }
    requires clear { word < 2 ^ n }
    requires pending { pending < 2 ^ (len % 64) }
    requires room { InBytes out.old len n }
    ensures written { first_bits out.new result (len + n)
        ≡ first_bits out.old pending len ++ digits word 0 n }
    ensures clear { result < 2 ^ ((len + n) % 64) }
    ensures others { Writes out.old out.new 0 (bits out.new 0 (64 * ((len + n) / 64))) }
{
    let shift = len % 64;
    let joined = pending | (word << shift);
    if shift + n < 64 {
        return joined;
    }
    write_word(out, 8 * (len / 64), joined);
    // Two shifts, since their sum may be 64.
    (word >> 1) >> (63 - shift)
}

/// Writes the pending bits, the last `len % 64` of the `len` bits. Stores no byte after that of the
/// last bit, where another thread may write.
pub(crate) fn write_pending(out: &mut [u8], pending: u64, len: usize)
    requires room { len ≤ 8 * length out.old }
    ensures { Writes out.old out.new (64 * (len / 64)) (digits pending 0 (len % 64)) }
{
    let front = &mut out[..len.div_ceil(8)];
    write_digits(front, 64 * (len / 64), len % 64, pending);
}
