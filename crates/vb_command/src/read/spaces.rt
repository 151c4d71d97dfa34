//! The spaces of a short text, all found at once.
ghost use Rattle.std.specs.Prelude.{◌≡◌, ◌≢◌, ◌<◌, ◌≤◌, length, take, IfSome};
ghost use Rattle.std.specs.List.{position_or_len, before_first, after_first};
ghost use Rattle.std.specs.Str.{IsAscii};
ghost use Rattle.vb_command.specs.Spaces.{AreSpaces};
ghost use Rattle.vb_command.specs.Words.{is_space};

use std::simd::prelude::*;

/// The number of bytes that are tested at once. Most lines are shorter.
pub(crate) const SHORT_LINE: usize = 32;

/// Returns which of the first `len` bytes are spaces, if these bytes are ASCII. The lowest bit is
/// for the first byte.
#[inline(always)]
pub(crate) fn spaces_of_ascii(bytes: &[u8], len: usize) -> Option<u64>
    requires bytes { SHORT_LINE ≤ length bytes.now }
    requires len { len ≤ SHORT_LINE }
    ensures spaces { IfSome result (AreSpaces (take len bytes.now)) }
    ensures ascii { IfSome result (λ _. IsAscii (take len bytes.now)) }
{
    let near = u8x32::from_slice(bytes);
    let high = near.simd_ge(u8x32::splat(128)).to_bitmask();
    if high % (1 << len) != 0 {
        return None;
    }
    let spaces = near.simd_eq(u8x32::splat(b' ')).to_bitmask();
    Some(spaces % (1 << len))
}

/// Returns the text before the first space, the text after it, and the spaces of the text after it.
/// `spaces` has the spaces of the whole text, and is not 0.
#[inline(always)]
pub(crate) fn cut_at_space(text: &str, spaces: u64) -> (&str, &str, u64)
    requires spaces { AreSpaces text.now spaces }
    requires some { spaces ≢ 0 }
    ensures space { position_or_len is_space text.now < length text.now }
    ensures part { result.0.now ≡ before_first is_space text.now }
    ensures rest { result.1.now ≡ after_first is_space text.now }
    ensures left { AreSpaces result.1.now result.2 }
{
    let at = spaces.trailing_zeros() as usize;
    (&text[..at], &text[at + 1..], spaces >> (at + 1))
}
