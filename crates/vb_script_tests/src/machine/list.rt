//! Edits of a plain list of truth values.
use crate::machine::line::{index, number};
use crate::machine::stop::{OUT_OF_MEMORY, OUT_OF_RANGE, Stop};

/// How many bits a list has at most. There isn't memory for more.
const MOST: usize = 1 << 40;

/// Adds `n` bits `v`.
pub(crate) fn lengthen(bits: &mut Vec<bool>, v: bool, n: usize) -> Result<(), Stop> {
    match bits.len().checked_add(n) {
        None => Err(Stop::Refused("TooManyBits")),
        Some(len) if len > usize::MAX - 7 => Err(Stop::TooLong),
        Some(len) if len > MOST => Err(OUT_OF_MEMORY),
        Some(len) => Ok(bits.resize(len, v)?),
    }
}

/// The bits from `a` up to `b`.
pub(crate) fn part(bits: &[bool], a: usize, b: usize) -> Result<&[bool], Stop> {
    bits.get(a..b).ok_or(OUT_OF_RANGE)
}

/// Sets the bits from `a` up to `b` to `v`.
pub(crate) fn fill(bits: &mut [bool], a: usize, b: usize, v: bool) -> Result<(), Stop> {
    bits.get_mut(a..b).ok_or(OUT_OF_RANGE)?.fill(v);
    Ok(())
}

/// Keeps the bits from `a` up to `b`.
pub(crate) fn cut(bits: &mut Vec<bool>, a: usize, b: usize) -> Result<(), Stop> {
    if a > b || b > bits.len() {
        return Err(OUT_OF_RANGE);
    }
    bits.copy_within(a..b, 0);
    bits.truncate(b - a);
    Ok(())
}

/// Combines each bit with that of another list.
pub(crate) fn combine(bits: &mut [bool], name: &str, right: &[bool]) -> Result<(), Stop> {
    if bits.len() != right.len() {
        return Err(Stop::Refused("LengthMismatch"));
    }
    for (bit, right) in bits.iter_mut().zip(right) {
        *bit = match name {
            "and" => *bit && *right,
            "or" => *bit || *right,
            "xor" => *bit != *right,
            _ => *bit && !*right,
        };
    }
    Ok(())
}

/// Adds a window of bytes: `n` bits from bit `o` on, the lowest one of each byte first.
pub(crate) fn window(bits: &mut Vec<bool>, o: usize, n: usize, digits: &str) -> Result<(), Stop> {
    let end = o.saturating_add(n);
    if o >= 8 || end > digits.len().saturating_mul(4) {
        return Err(Stop::Refused("BadWindow"));
    }
    for i in o..end {
        // Two digits are a byte, the higher one first.
        let digit = digits.as_bytes().get((i / 4) ^ 1).copied().unwrap_or(b'0');
        let nibble = (digit as char).to_digit(16).unwrap_or(0);
        lengthen(bits, nibble >> (i % 4) & 1 == 1, 1)?;
    }
    Ok(())
}

/// Adds `n` bits that are true at these indices. An index that isn't below `n` is refused first,
/// even if memory runs out.
pub(crate) fn name_places(bits: &mut Vec<bool>, n: usize, places: &str) -> Result<(), Stop> {
    let lengthened = lengthen(bits, false, n);
    for item in places.split_terminator(',') {
        let place = number(item);
        if place >= n {
            return Err(OUT_OF_RANGE);
        }
        if let Some(bit) = bits.get_mut(place) {
            *bit = true;
        }
    }
    lengthened
}

/// Replaces the list by the bits of `from` at these indexes, and by false where `counts` is false.
pub(crate) fn take(
    bits: &mut Vec<bool>,
    from: &[bool],
    counts: Option<&[bool]>,
    indexes: &str,
) -> Result<(), Stop> {
    let count = indexes.split_terminator(',').count();
    match counts {
        Some(counts) if counts.len() != count => return Err(Stop::Refused("LengthMismatch")),
        _ => bits.clear(),
    }
    for (position, item) in indexes.split_terminator(',').enumerate() {
        let bit = taken(from, counts, position, index(item));
        lengthen(bits, bit.ok_or(Stop::Position(position))?, 1)?;
    }
    Ok(())
}

/// The bit at an index, or false if this position doesn't count.
fn taken(from: &[bool], counts: Option<&[bool]>, position: usize, place: usize) -> Option<bool> {
    match counts {
        Some(counts) if counts.get(position) == Some(&false) => Some(false),
        _ => from.get(place).copied(),
    }
}

/// How many bits are true.
pub(crate) fn count(bits: &[bool]) -> usize {
    let mut count = 0usize;
    for bit in bits {
        count = count.saturating_add(usize::from(*bit));
    }
    count
}

/// The index of the `n`-th bit that is `v`.
pub(crate) fn nth_place(bits: &[bool], v: bool, n: usize) -> Option<usize> {
    let mut left = n;
    for (place, bit) in bits.iter().enumerate() {
        if *bit == v {
            if left == 0 {
                return Some(place);
            }
            left -= 1;
        }
    }
    None
}
