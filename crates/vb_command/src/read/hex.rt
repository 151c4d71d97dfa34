//! Bytes written in hexadecimal.
ghost use Rattle.std.specs.Prelude.{◌≡◌, ◌*◌, ◌<◌, Some, None, IfOk, IsTrue, MatchResult};
ghost use Rattle.std.specs.Prelude.{is_some, length};
ghost use Rattle.std.specs.List.{list_all};
ghost use Rattle.vb_command.specs.Hex.{hex_value, hex_pairs, hex, is_digit};

use crate::unread::Unread;
use std::alloc::{AllocError, Allocator};

/// Returns whether a byte is a hexadecimal digit of either case.
fn is_digit(byte: u8) -> bool
    ensures { result ≡ is_digit byte }
{
    matches!(byte, b'0'..=b'9' | b'a'..=b'f' | b'A'..=b'F')
}

/// Returns whether all bytes are hexadecimal digits. The loop does not stop early, so that the
/// compiler can test many bytes at once.
fn are_digits(bytes: &[u8]) -> bool
    ensures { result ≡ list_all is_digit bytes.now }
{
    let mut all = true;
    for byte in bytes {
        all &= is_digit(*byte);
    }
    all
}

/// Returns the value of a digit, without a branch. The codes of `0` to `9` are below 64, and their
/// low four bits are the value. The codes of `A` to `F` and of `a` to `f` are above 64 and below
/// 128, and their low four bits are 1 to 6.
fn value_of(digit: u8) -> u8
    requires { IsTrue (is_digit digit) }
    ensures value { hex_value digit ≡ Some result }
    ensures small { result < 16 }
{
    digit % 16 + 9 * (digit / 64)
}

/// Returns whether the bytes are pairs of digits.
#[tactic(auto, using(crate::proofs::HexLists::pairs))]
fn are_pairs(bytes: &[u8]) -> bool
    ensures { result ≡ is_some (hex_pairs bytes.now) }
{
    bytes.len() % 2 == 0 && are_digits(bytes)
}

/// Returns the hexadecimal digits of a word, in pairs; none for `-`. Does not allocate.
pub(crate) fn hex_pairs(word: &str) -> Result<&[u8], Unread>
    ensures { MatchResult result
        (λ digits. (hex word.now ≡ hex_pairs digits.now) × IsTrue (is_some (hex word.now)))
        (λ unread. (unread ≡ Unread.Unreadable) × (hex word.now ≡ None)) }
{
    let digits = if word == "-" { b"" } else { word.as_bytes() };
    if are_pairs(digits) {
        Ok(digits)
    } else {
        Err(Unread::Unreadable)
    }
}

/// Returns the bytes of pairs of digits. Allocates once.
#[tactic(auto, using(crate::proofs::HexLists::pairs))]
pub(crate) fn bytes_of_pairs<A: Allocator>(
    alloc: A,
    digits: &[u8],
) -> Result<Vec<u8, A>, AllocError>
    requires { IsTrue (is_some (hex_pairs digits.now)) }
    ensures { IfOk result (λ bytes. hex_pairs digits.now ≡ Some bytes.items) }
{
    let mut bytes = vec![in alloc; 0u8; digits.len() / 2]?;
    put_bytes(&mut bytes, digits);
    Ok(bytes)
}

/// Writes the byte of each pair of digits.
fn put_bytes(bytes: &mut [u8], digits: &[u8])
    requires len { length digits.now ≡ 2 * length bytes.old }
    requires digits { IsTrue (list_all is_digit digits.now) }
    ensures { hex_pairs digits.now ≡ Some bytes.new }
{
    for i in 0..bytes.len() {
        bytes[i] = 16 * value_of(digits[2 * i]) + value_of(digits[2 * i + 1]);
    }
}
