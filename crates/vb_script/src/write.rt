//! Pieces of answers, written into a buffer after the bytes that wait there. The bytes after a
//! piece may have any value.
ghost use Rattle.std.specs.Prelude.{◌≡◌, ◌+◌, ◌<◌, ◌≤◌, [], ◌∷◌, ◌++◌, length, decimal};
ghost use Rattle.std.specs.List.{flat_map};
ghost use Rattle.vb_command.specs.Printed.{digit_of};
ghost use Rattle.vb_script.specs.Outbox.{PutsBehind};

/// Writes bytes after the first `end` ones, and returns the index after them.
#[inline(always)]
pub(crate) fn write_bytes(room: &mut [u8], end: usize, bytes: &[u8]) -> usize
    requires { end + length bytes.now ≤ length room.old }
    ensures { PutsBehind end bytes.now room.old room.new result }
{
    let behind = end + bytes.len();
    room[end..behind].copy_from_slice(bytes);
    behind
}

/// Writes bytes and a line feed after the first `end` bytes, and returns the index after them.
#[inline(always)]
pub(crate) fn write_line(room: &mut [u8], end: usize, bytes: &[u8]) -> usize
    requires { end + length bytes.now < length room.old }
    ensures { PutsBehind end (bytes.now ++ 10 ∷ []) room.old room.new result }
{
    let behind = write_bytes(room, end, bytes);
    room[behind] = b'\n';
    behind + 1
}

/// Writes a number in decimal and a line feed after the first `end` bytes, and returns the index
/// after them.
#[inline(always)]
pub(crate) fn write_number_line(room: &mut [u8], end: usize, n: usize) -> usize
    requires { end + length (decimal n) < length room.old }
    ensures { PutsBehind end (decimal n ++ 10 ∷ []) room.old room.new result }
{
    let feed = write_number(room, end, n);
    room[feed] = b'\n';
    feed + 1
}

/// Writes a byte and a number in decimal after the first `end` bytes, and returns the index after
/// them.
#[inline(always)]
pub(crate) fn write_byte_and_number(room: &mut [u8], end: usize, byte: u8, n: usize) -> usize
    requires { end + length (decimal n) < length room.old }
    ensures { PutsBehind end (byte ∷ decimal n) room.old room.new result }
{
    room[end] = byte;
    write_number(room, end + 1, n)
}

/// Writes a number in decimal after the first `end` bytes, and returns the index after it.
///
/// It counts the digits first, so that it can write them in their final position: a copy would wait
/// until they are stored. The numbers of a list rise, so most have the same number of digits as the
/// one before, and the branches of the count are predicted.
#[inline(always)]
fn write_number(room: &mut [u8], end: usize, n: usize) -> usize
    requires { end + length (decimal n) ≤ length room.old }
    ensures { PutsBehind end (decimal n) room.old room.new result }
{
    let behind = end + digit_count(n as u64);
    itoa::write_digits(n as u64, room, behind);
    behind
}

/// Returns the number of digits of a number.
#[inline(always)]
fn digit_count(n: u64) -> usize
    ensures { result ≡ length (decimal n) }
{
    if n < 100_000_000 {
        return short_count(n);
    }
    let high = n / 100_000_000;
    if high < 100_000_000 {
        8 + short_count(high)
    } else {
        16 + short_count(high / 100_000_000)
    }
}

/// Returns the number of digits of a number below 100,000,000.
#[inline(always)]
fn short_count(n: u64) -> usize
    requires { n < 100000000 }
    ensures count { result ≡ length (decimal n) }
    ensures small { result ≤ 8 }
{
    if n < 10_000 {
        few_count(n)
    } else {
        4 + few_count(n / 10_000)
    }
}

/// Returns the number of digits of a number below 10,000.
#[inline(always)]
#[tactic(auto, using(crate::proofs::Lengths::counts))]
fn few_count(n: u64) -> usize
    requires { n < 10000 }
    ensures count { result ≡ length (decimal n) }
    ensures small { result ≤ 4 }
{
    match n {
        0..10 => 1,
        10..100 => 2,
        100..1000 => 3,
        _ => 4,
    }
}

/// Writes truth values as binary digits after the first `end` bytes, and returns the index after
/// them.
#[inline(always)]
pub(crate) fn write_bit_codes(room: &mut [u8], end: usize, bits: &[bool]) -> usize
    requires { end + length bits.now ≤ length room.old }
    ensures { PutsBehind end (flat_map digit_of bits.now) room.old room.new result }
{
    let behind = end + bits.len();
    fill_bit_codes(&mut room[end..behind], bits);
    behind
}

/// Sets each byte to the code of a truth value's binary digit. There must be one byte for each
/// truth value.
///
/// The bytes exist before the loop writes them, so the loop has no early exit and the compiler
/// vectorizes it.
fn fill_bit_codes(bytes: &mut [u8], bits: &[bool])
    requires { length bytes.old ≡ length bits.now }
    ensures { bytes.new ≡ flat_map digit_of bits.now }
{
    for k in 0..bits.len() {
        bytes[k] = digit_byte(bits[k]);
    }
}

/// Returns the code of a truth value's binary digit.
fn digit_byte(bit: bool) -> u8
    ensures { digit_of bit ≡ result ∷ [] }
{
    if bit { b'1' } else { b'0' }
}
