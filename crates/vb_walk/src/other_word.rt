//! Finds the first word with a digit that differs: passes over words whose digits are all equal.
ghost use Rattle.std.specs.Prelude.{◌≡◌, ℕ, ◌+◌, ◌-◌, ◌*◌, ◌%◌, ◌<◌, ◌≤◌, length, IsTrue};
ghost use Rattle.vb_bits.specs.Bits.{bit_of};
ghost use Rattle.vb_walk.specs.Walks.{others, AreAll, FindsOther};

use vb_bits::word_at;

/// A word, and the index of the byte after it.
#[derive(Clone, Copy)]
pub struct OtherWord {
    /// The index of the byte after the word's eight bytes.
    pub behind: usize,
    /// These bytes, least significant first.
    pub word: u64,
}

/// Returns the first of the whole words from byte `at` up to byte `end` with a digit that isn't
/// `value`, or `None` if there is none. The caller must prove that `at` is at most `end`, that
/// `end` is in bounds, and that `end - at` is a multiple of 8 bytes.
///
/// It tests the first word alone, since that is usually the one, and then passes four words at a
/// time.
#[inline(always)]
pub fn first_other(bytes: &[u8], at: usize, end: usize, value: bool) -> Option<OtherWord>
    requires order { at ≤ end }
    requires whole { (end - at) % 8 ≡ 0 }
    requires room { end ≤ length bytes.now }
    ensures { FindsOther bytes.now at end value result }
{
    if at == end {
        return None;
    }
    let word = word_at(bytes, at);
    if others(word, value) != 0 {
        return Some(OtherWord {
            behind: at + 8,
            word,
        });
    }
    let mut to = pass_fours(bytes, at + 8, end, value);
    while to < end {
        let word = word_at(bytes, to);
        to += 8;
        if others(word, value) != 0 {
            return Some(OtherWord { behind: to, word });
        }
    }
    None
}

/// Returns the byte reached from byte `at` on after passing words whose digits are all `value`,
/// four at a time.
#[inline(always)]
fn pass_fours(bytes: &[u8], at: usize, end: usize, value: bool) -> usize
    requires order { at ≤ end }
    requires room { end ≤ length bytes.now }
    ensures from { at ≤ result }
    ensures within { result ≤ end }
    ensures whole { (result - at) % 8 ≡ 0 }
    ensures passed { AreAll bytes.now value (8 * at) (8 * result) }
{
    let mut to = at;
    while end - to >= 32 && four_are(bytes, to, value) {
        to += 32;
    }
    to
}

/// Returns true only if the digits of the four words from byte `at` on are all `value`.
#[inline(always)]
fn four_are(bytes: &[u8], at: usize, value: bool) -> bool
    requires { at + 32 ≤ length bytes.now }
    ensures { IsTrue result → AreAll bytes.now value (8 * at) (8 * (at + 32)) }
{
    let first = others(word_at(bytes, at), value);
    let second = others(word_at(bytes, at + 8), value);
    let third = others(word_at(bytes, at + 16), value);
    let fourth = others(word_at(bytes, at + 24), value);
    (first | second) | (third | fourth) == 0
}

/// Returns the word with a 1 for each digit of `word` that isn't `value`.
#[inline(always)]
pub fn others(word: u64, value: bool) -> u64
    ensures { result ≡ others value word }
{
    if value { !word } else { word }
}
