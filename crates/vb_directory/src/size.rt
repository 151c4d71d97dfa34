//! The layout of the counts: the size of a group in blocks, bits and numbers.

/// The number of blocks of a group.
pub(crate) const GROUP_BLOCKS: usize = 128;

/// The number of bits of a group.
pub const GROUP_BITS: usize = 65_536;

/// The number of digits, of 16 bits each, of the count before a group.
pub const BEFORE_DIGITS: usize = 4;

/// The number of numbers of a whole group: the digits of the count before it, and one number for
/// each of its blocks but the first.
pub const GROUP_NUMBERS: usize = 131;

/// The base of the digits: the number of values of 16 bits.
pub(crate) const BASE: usize = 65_536;
