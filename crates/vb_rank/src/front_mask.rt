//! Masks of the first bits of a block.
ghost use Rattle.std.specs.Prelude.{◌≡◌, ◌-◌, ◌*◌, ◌^◌, ◌<◌, ◌≤◌, min};

use vb_bits::word_at;

/// An array of 64 bytes of ones, the byte `$digits`, and 63 bytes of zeros.
macro_rules! front {
    ($digits:expr) => {
        [
            255, 255, 255, 255, 255, 255, 255, 255, 255, 255, 255, 255, 255, 255, 255, 255, 255,
            255, 255, 255, 255, 255, 255, 255, 255, 255, 255, 255, 255, 255, 255, 255, 255, 255,
            255, 255, 255, 255, 255, 255, 255, 255, 255, 255, 255, 255, 255, 255, 255, 255, 255,
            255, 255, 255, 255, 255, 255, 255, 255, 255, 255, 255, 255, 255,
            $digits,
            0, 0, 0, 0, 0, 0, 0, 0, 0, 0, 0, 0, 0, 0, 0, 0, 0, 0, 0, 0, 0, 0, 0, 0, 0, 0, 0, 0, 0,
            0, 0, 0, 0, 0, 0, 0, 0, 0, 0, 0, 0, 0, 0, 0, 0, 0, 0, 0, 0, 0, 0, 0, 0, 0, 0, 0, 0, 0,
            0, 0, 0, 0, 0,
        ]
    };
}

/// Row `r` has ones in its first `512 + r` bits, and then zeros. From byte `64 - k` on, a row
/// begins with `8 * k + r` ones.
static FRONTS: [[u8; 128]; 8] = [
    front!(0),
    front!(1),
    front!(3),
    front!(7),
    front!(15),
    front!(31),
    front!(63),
    front!(127),
];

/// Returns the mask of word `word` of a block: a 1 for each of its bits that is among the first `n`
/// bits of the block.
///
/// Reads a table, since a shift would need a different count for each word.
#[inline(always)]
pub(crate) fn front_mask(word: usize, n: usize) -> u64
    requires inside { word < 8 }
    requires block { n ≤ 512 }
    ensures { result ≡ 2 ^ min (n - 64 * word) 64 - 1 }
{
    word_at(&FRONTS[n % 8], 64 - n / 8 + 8 * word)
}
