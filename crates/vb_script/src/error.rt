//! The reasons why a session ends before its input does.

use thiserror::Error;

/// The reason why [`drive`](crate::drive) ended before it answered its whole input.
#[derive(Clone, Copy, Debug, PartialEq, Eq, Error)]
pub enum DriveError {
    /// A line has a byte that is not ASCII, or its words are neither a command nor a comment; or
    /// its number is 18446744073709551615.
    #[error("line {line} can't be read")]
    Unreadable {
        /// The number of the line, counted from 1.
        line: u64,
    },
    /// The source failed.
    #[error("input can't be read")]
    Read,
    /// The sink failed.
    #[error("output can't be written")]
    Write,
    /// An allocation outside a command failed.
    #[error("out of memory")]
    Memory,
}
