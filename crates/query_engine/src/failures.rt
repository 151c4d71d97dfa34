//! Failures of the library, as those of the program.
use query_csv::{Failure, Result, told};
use std::alloc::Global;
use vortex_buffer::{BitBuffer, BufferError};

/// Returns the result of a call of the library, or its failure.
pub fn made<T>(alloc: Global, made: vortex_buffer::Result<T>) -> Result<T> {
    match made {
        Ok(made) => Ok(made),
        Err(BufferError::OutOfMemory) => Err(Failure::Memory),
        Err(error) => Err(told(format!(in alloc; "{error}"))),
    }
}

/// Returns the bitmap of truth values.
pub fn packed(alloc: Global, bools: Vec<bool>) -> Result<BitBuffer> {
    let set = BitBuffer::from_bools(alloc, bools.as_slice());
    drop(bools);
    made(alloc, set)
}
