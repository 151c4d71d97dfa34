//! The digits of a word or a byte that equal a value.
ghost use Rattle.std.specs.Prelude.{◌≡◌, ◌+◌, ◌^◌, ◌<◌, ◌≤◌, [], ◌∷◌};
ghost use Rattle.std.specs.Int.{w64, to_le_bytes};
ghost use Rattle.vb_bits.specs.Bits.{bits, count};
ghost use Rattle.vb_bits.specs.Digits.{digits};
ghost use Rattle.vb_count.specs.Hits.{hits};

/// Returns the `len` bits of `byte` from bit `from` on as the lowest digits of a word, each 1 if
/// the bit is `value`. The digits above them are 0. The caller must prove that `from + len` is at
/// most 8.
pub fn byte_part(byte: u8, from: usize, len: usize, value: bool) -> u64
    requires { from + len ≤ 8 }
    ensures digits { digits result 0 len ≡ hits value (bits (byte ∷ []) from len) }
    ensures clear { result < 2 ^ len }
{
    let byte = if value { byte } else { !byte };
    (u64::from(byte) >> from) & ((1 << len) - 1)
}

/// Returns the word with a 1 for each digit of `word` that is `value`.
pub fn matching_word(word: u64, value: bool) -> u64
    ensures { digits result 0 64 ≡ hits value (bits (to_le_bytes w64 word) 0 64) }
{
    if value { word } else { !word }
}

/// Returns the number of set digits of `word`.
pub fn digit_ones(word: u64) -> usize
    ensures value { result ≡ count (digits word 0 64) }
    ensures few { result ≤ 64 }
{
    word.count_ones() as usize
}
