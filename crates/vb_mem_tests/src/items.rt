//! Items that calls are given.
use vb_core::{BufferError, ExtendError, Result};

/// Some items.
pub const PAIR: &[u32] = &[1, 2];

/// More of them.
pub const FOUR: &[u32] = &[1, 2, 3, 4];

/// An item of an iterator that may also give errors.
pub const TRIED: &[Result<u32>] = &[Ok(8)];

/// The error of a call whose iterator may also give errors.
pub fn refusal(stopped: ExtendError<BufferError>) -> BufferError {
    match stopped {
        ExtendError::Memory => BufferError::OutOfMemory,
        ExtendError::Item(error) => error,
    }
}

/// Passes each item. An iterator that is filtered by it gives no hint of its length.
pub fn each<T>(_item: &T) -> bool {
    true
}
