//! The answer to a command.

use crate::refusal::Refusal;
use std::alloc::{Allocator, Global};

/// The answer to a command. It prints as one line; `Display` writes no line feed.
#[derive(Debug, Drop)]
pub enum Answer<A: Allocator = Global> {
    /// The command is done. Prints as `ok`.
    Done,
    /// A number. Prints in decimal.
    Number(usize),
    /// A truth value. Prints as `1` or `0`.
    Truth(bool),
    /// An index, counted from 0. Prints in decimal, or as `none`.
    Place(Option<usize>),
    /// The bits of a set from index 0 on. Prints as `1` and `0` with nothing between them, or as
    /// `-` if there are none.
    Bits(Vec<bool, A>),
    /// The indices of a set's true bits. Prints in decimal with commas between them, or as `-` if
    /// there are none.
    Places(Vec<usize, A>),
    /// The runs of a set's true bits: the index of the first bit and the index after the last bit
    /// of each. Prints as `1-3,4-7`, or as `-` if there are none.
    Runs(Vec<(usize, usize), A>),
    /// The text of a set's `Display`. Prints unchanged.
    Text(String<A>),
    /// The command is refused.
    Refused(Refusal),
}
