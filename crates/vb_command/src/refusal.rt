//! The reasons to refuse a command.

/// The reason why a command is refused. It prints as `refused` and its name.
///
/// A command checks first the slots, then windows, indices and lengths, then the numbers of bits,
/// and last memory. A `take` allocates, tests its indices, and allocates again.
#[derive(Clone, Copy, Debug, PartialEq, Eq)]
pub enum Refusal {
    /// A slot does not exist, or does not hold what the command needs.
    BadSlot,
    /// An imported window does not begin in the first byte, or is not in bounds of its bytes.
    BadWindow,
    /// An index or a range is not within the set.
    OutOfRange,
    /// Two lists that must have the same length do not.
    LengthMismatch,
    /// An index of a `take` that is not ignored is out of range. The number is the position of the
    /// first such index among the indices, counted from 0; it is printed too.
    TakeOutOfRange(usize),
    /// The bit offset of a set plus its new length exceeds `usize::MAX`.
    TooManyBits,
    /// An allocation failed.
    OutOfMemory,
}
