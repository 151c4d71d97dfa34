//! Texts cut at a separator.
ghost use Rattle.std.specs.Prelude.{◌≡◌, ◌==◌, ◌<◌, ◌≤◌, length, take, MatchOption};
ghost use Rattle.std.specs.List.{position_or_len, before_first, after_first};

use std::simd::prelude::*;

/// The number of bytes that are compared at once. Most parts are shorter, so only longer ones pay
/// for a search of any length.
const HEAD: usize = 16;

/// Returns the text before the first separator and the text after it, if there is a separator. It
/// is `split_once`, but faster if the part is short.
#[inline]
pub(crate) fn split_short(text: &str, separator: char) -> Option<(&str, &str)>
    requires { separator < 128 }
    ensures { MatchOption result
        (position_or_len (λ b. b == separator) text.now ≡ length text.now)
        (λ (part, rest). (position_or_len (λ b. b == separator) text.now < length text.now)
        × (part.now ≡ before_first (λ b. b == separator) text.now)
        × (rest.now ≡ after_first (λ b. b == separator) text.now)) }
{
    let at = near(text.as_bytes(), separator as u8);
    if at >= HEAD {
        return split_far(text, separator);
    }
    if at == text.len() {
        return None;
    }
    Some((&text[..at], &text[at + 1..]))
}

/// Does the same by a search of any number of bytes. It is a separate function, since it needs more
/// registers than the loops over parts can spare.
#[inline(never)]
fn split_far(text: &str, separator: char) -> Option<(&str, &str)>
    requires { separator < 128 }
    ensures { MatchOption result
        (position_or_len (λ b. b == separator) text.now ≡ length text.now)
        (λ (part, rest). (position_or_len (λ b. b == separator) text.now < length text.now)
        × (part.now ≡ before_first (λ b. b == separator) text.now)
        × (rest.now ≡ after_first (λ b. b == separator) text.now)) }
{
    text.split_once(separator)
}

/// Returns the smaller of `HEAD` and the index of the first separator. If there is no separator,
/// its index counts as the number of bytes.
fn near(bytes: &[u8], separator: u8) -> usize
    ensures place { result < HEAD → result ≡ position_or_len (λ b. b == separator) bytes.now }
    ensures within { result ≤ length bytes.now }
{
    if bytes.len() < HEAD {
        near_end(bytes, separator)
    } else {
        near_front(bytes, separator)
    }
}

/// Returns the index of the first separator, or the number of bytes if there is none. Searches byte
/// by byte.
#[tactic(auto, using(crate::proofs::Cuts::searches))]
fn near_end(bytes: &[u8], separator: u8) -> usize
    ensures place { result ≡ position_or_len (λ b. b == separator) bytes.now }
    ensures within { result ≤ length bytes.now }
{
    let mut at = 0;
    while at < bytes.len() && bytes[at] != separator {
        at += 1;
    }
    at
}

/// Returns the index of the first separator among the first `HEAD` bytes, or `HEAD` if there is
/// none. Compares all of them at once: a loop would end at the length of a part, which no branch
/// predictor foresees in a list.
#[inline(always)]
fn near_front(bytes: &[u8], separator: u8) -> usize
    requires { HEAD ≤ length bytes.now }
    ensures { result ≡ position_or_len (λ b. b == separator) (take HEAD bytes.now) }
{
    let found = u8x16::from_slice(bytes)
        .simd_eq(u8x16::splat(separator))
        .to_bitmask();
    if found == 0 {
        HEAD
    } else {
        found.trailing_zeros() as usize
    }
}
