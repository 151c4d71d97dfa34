//! Lines as commands.
ghost use Rattle.std.specs.Prelude.{◌≡◌, ◌≤◌, true, false, length, take, MatchOption, option_map};
ghost use Rattle.std.specs.Prelude.{IsErrOf, IsTrue};
ghost use Rattle.std.specs.Str.{IsAscii};
ghost use Rattle.vb_command.specs.Words.{line_words};
ghost use Rattle.vb_command.specs.Reading.{Gives, all_ascii, request_of, asks_memory, reading};
ghost use Rattle.vb_command.specs.Machine.{order_of};

use crate::command::Command;
use crate::read::arguments::arguments;
use crate::read::spaces::{SHORT_LINE, spaces_of_ascii};
use crate::read::words::Words;
use crate::unread::Unread;
use std::alloc::Allocator;

/// Returns the words of the first `len` bytes, if these are ASCII. Finds all spaces at once if
/// `len` is at most 32 and there are at least 32 bytes.
#[inline(always)]
#[tactic(auto, using(crate::proofs::Lines::ascii))]
fn words_within(bytes: &[u8], len: usize) -> Option<Words<'_>>
    requires { len ≤ length bytes.now }
    ensures { MatchOption result
        (all_ascii (take len bytes.now) ≡ false)
        (λ words. (all_ascii (take len bytes.now) ≡ true)
        × (words ≡ line_words (take len bytes.now))) }
{
    let line = &bytes[..len];
    if len <= SHORT_LINE && SHORT_LINE <= bytes.len() {
        if let Some(spaces) = spaces_of_ascii(bytes, len) {
            return Some(Words::between(known_text(line), spaces));
        }
    }
    if !line.is_ascii() {
        return None;
    }
    Some(Words::new(known_text(line)))
}

/// Returns ASCII bytes as text. The proof that ASCII is UTF-8 makes a test at run time unnecessary.
#[inline(always)]
#[tactic(auto, using(crate::proofs::Lines::ascii))]
fn known_text(line: &[u8]) -> &str
    requires { IsAscii line.now }
    ensures { result.now ≡ line.now }
{
    unsafe { std::str::from_utf8_unchecked(line) }
}

/// Returns the command of a line's words.
#[tactic(auto, unfolding(crate::specs::Reading::request_of))]
fn request<A: Allocator + Clone>(
    alloc: &A,
    words: &mut Words<'_>,
) -> Result<Option<Command<A>>, Unread>
    ensures read { Gives (option_map order_of) result (request_of words.old) }
    ensures memory { IsErrOf result Unread.Memory →
        IsTrue (asks_memory (request_of words.old)) }
{
    let Some(name) = words.next() else {
        return Ok(None);
    };
    if name.starts_with('#') {
        return Ok(None);
    }
    Ok(Some(arguments(alloc, name, words)?))
}

/// Parses a line. Returns its command, or `None` if the line has no words or is a comment. The line
/// must not include its line feed and the carriage return before that.
///
/// Words are separated by spaces. The first one is the name of a command, or begins with `#` and
/// makes the line a comment. The others are the command's fields: numbers in decimal digits, at
/// most 18446744073709551615, with or without leading zeros and without a sign; truth values as `0`
/// or `1`; modes as `ref` or `own`; bytes as pairs of hexadecimal digits of either case; lists of
/// numbers with one comma between two; and lists of indices in the same way, from
/// -9223372036854775808 to 9223372036854775807, with a `-` before those below 0. A `-` alone means
/// no bytes, no numbers, no indices and, in a `take`, no validity.
///
/// Returns `Unread::Unreadable` exactly in two cases. A byte of the line is not ASCII, even in a
/// comment. Or the line has words, is not a comment, and is not a command: its first word is not
/// the name of one, words are missing or left over, or a word is malformed.
///
/// Allocates only for an `import`, `indices` or `take` that can be parsed: clones `alloc`, and
/// allocates the bytes or numbers once, with the capacity that they need. Returns `Unread::Memory`
/// only if one of these runs out of memory.
///
/// The time is proportional to the line's length.
pub fn command_of<A: Allocator + Clone>(
    alloc: &A,
    line: &[u8],
) -> Result<Option<Command<A>>, Unread>
    ensures read { Gives (option_map order_of) result (reading line.now) }
    ensures memory { IsErrOf result Unread.Memory → IsTrue (asks_memory (reading line.now)) }
{
    command_within(alloc, line, line.len())
}

/// Parses a line as [`command_of`] does: the first `len` bytes of `bytes`. The caller must prove
/// that `len` is at most their number. The bytes after the line do not affect the result. But a
/// line of at most 32 bytes is parsed faster if `bytes` has at least 32 bytes, since one comparison
/// of 32 bytes then finds its words.
pub fn command_within<A: Allocator + Clone>(
    alloc: &A,
    bytes: &[u8],
    len: usize,
) -> Result<Option<Command<A>>, Unread>
    requires { len ≤ length bytes.now }
    ensures read { Gives (option_map order_of) result (reading (take len bytes.now)) }
    ensures memory { IsErrOf result Unread.Memory →
        IsTrue (asks_memory (reading (take len bytes.now))) }
{
    let mut words = words_within(bytes, len).ok_or(Unread::Unreadable)?;
    request(alloc, &mut words)
}
